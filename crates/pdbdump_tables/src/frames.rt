//! The frames of frame tables.

ghost use Rattle.pdbdump_tables.specs.Listing.{IsListed};
ghost use Rattle.pdbdump_tables.specs.Tables.{frames_listing};

use crate::frame_programs::Programs;
use pdb_base::{FallibleIterator, Result};
use pdb_frames::FrameTable;
use pdb_output::Output;
use pdbdump_rows::{Form, Line, show_frame, write_line};
use std::alloc::Global;
use std::io::Write;

/// Lists the frames of a table, by their starts, as `FrameTable::iter` yields them: if an old and a
/// new record start at the same address, only the new one. A program is shown by its text, if that is
/// known.
///
/// # Errors
/// Fails with `IoError` if the writer fails, and with `OutOfMemory` if an allocation fails.
pub(crate) fn write_frames<W: Write>(
    alloc: Global,
    table: &FrameTable,
    programs: &mut Programs,
    form: Form,
    out: &mut Output<W>,
) -> Result<()>
    ensures { IsListed form (frames_listing table.now) out.old out.new result }
{
    let mut line = Line::new(alloc);
    let mut frames = table.iter();
    while let Ok(Some(frame)) = frames.next() {
        line.begin(form);
        let program = programs.known_text(frame.program);
        show_frame(&mut line, &frame, program);
        write_line(&mut line, out)?;
    }
    Ok(())
}
