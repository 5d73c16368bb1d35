//! The headers of sections.
ghost use Rattle.pdbdump_tables.specs.Listing.{IsListed};
ghost use Rattle.pdbdump_tables.specs.Tables.{sections_listing};

use pdb_base::{Error, Result, Stream};
use pdb_output::Output;
use pdb_space::ImageSectionHeader;
use pdbdump_rows::{Form, Line, show_section, write_line};
use std::alloc::Global;
use std::io::Write;

/// The size of a header in bytes.
const HEADER_SIZE: usize = 40;

/// Lists the section headers in a stream, forty bytes each, numbered from 1.
///
/// # Errors
/// Fails with `UnexpectedEof`, after the lines of the whole headers, if the last one is cut short.
/// Fails with `IoError` if the writer fails, and with `OutOfMemory` if an allocation fails.
#[tactic(auto, unfolding(crate::specs::Tables::sections_listing))]
pub fn write_sections<W: Write>(
    alloc: Global,
    stream: &Stream,
    form: Form,
    out: &mut Output<W>,
) -> Result<()>
    ensures { IsListed form (sections_listing stream.now) out.old out.new result }
{
    let mut line = Line::new(alloc);
    let mut buffer = stream.parse_buffer();
    let size = stream.as_slice().len();
    for place in 0..size / HEADER_SIZE {
        let header = ImageSectionHeader::parse(&mut buffer)?;
        line.begin(form);
        show_section(&mut line, place as u32 + 1, &header);
        write_line(&mut line, out)?;
    }
    if size % HEADER_SIZE == 0 {
        Ok(())
    } else {
        Err(Error::UnexpectedEof)
    }
}
