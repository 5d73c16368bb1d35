//! What `where` does with a file.

ghost use Rattle.pdb_output.specs.Output.{done_of};
ghost use Rattle.pdbdump_tables.specs.Listing.{ListsLines};

use crate::input_file::InputFile;
use pdb_container::{Error, Source};
use pdb_msf::CountedSource;
use pdb_output::Output;
use pdbdump_rows::Form;
use pdbdump_tables::{FilePages, list_places};
use std::alloc::{AllocError, Global};
use std::io::Write;

/// Returns the offsets that are within a file of this size.
fn within(alloc: Global, offsets: &[u32], size: u64) -> Result<Vec<u32>, AllocError> {
    let mut there = Vec::new(alloc);
    for offset in offsets {
        if (*offset as u64) < size {
            there.push(*offset)?;
        }
    }
    Ok(there)
}

/// Returns the lines that say which offsets are past the end of a file of this size.
fn past_text(alloc: Global, offsets: &[u32], size: u64) -> Result<Vec<u8>, AllocError> {
    let mut text = Vec::new(alloc);
    for offset in offsets {
        if *offset as u64 >= size {
            let line = format!(in alloc;
                "offset {offset:#x} is past the end of the file, which has {size} bytes\n"
            )?;
            text.extend_from_slice(line.as_bytes())?;
        }
    }
    Ok(text)
}

/// Writes what the bytes with these offsets belong to, and returns whether the file has all of them.
/// Those that it doesn't have are reported.
pub(crate) fn locate_in<S: Source + Drop, O: Write, E: Write>(
    alloc: Global,
    file: InputFile<S>,
    offsets: &[u32],
    form: Form,
    out: &mut Output<O>,
    err: &mut Output<E>,
) -> Result<bool, Error>
    ensures { ListsLines form out.old out.new (done_of result) }
{
    let past = past_text(alloc, offsets, file.size)?;
    let there = within(alloc, offsets, file.size)?;
    let mut source = CountedSource::new(file.source);
    let pages = FilePages::read(alloc, &mut source)?;
    list_places(alloc, &pages, &there, form, out)?;
    err.report(&past);
    Ok(past.is_empty())
}
