//! The headers that name streams of symbols and of hashes.

ghost use Rattle.pdbdump_tables.specs.Reading.{IsKeptOpen};

use pdb_base::{Error, Result, Stream};
use pdb_file::{DBIHeader, ID_STREAM, PDB, TYPE_STREAM};
use pdb_msf::{Msf, Source};
use pdb_tpi::{Header, TypeInformation};
use std::alloc::{AllocError, Global};
use std::result;

/// The number of the stream of debug information.
const DEBUG_STREAM: u32 = 3;

/// How many bytes the header of that stream takes.
const DEBUG_HEADER_SIZE: usize = 64;

/// How many bytes the header of a table takes at most.
const TABLE_HEADER_SIZE: usize = 1024;

/// The headers of streams 2 to 4, which name further streams. A header is None if it can't be read.
#[derive(Clone, Copy)]
pub struct Headers {
    /// The header of the stream of debug information.
    pub debug: Option<DBIHeader>,
    /// The header of the table of types.
    pub types: Option<Header>,
    /// The header of the table of ids.
    pub ids: Option<Header>,
}

/// Reads the header of the stream of debug information.
///
/// # Errors
/// Fails as `PDB::get` and `DBIHeader::parse` do.
pub(crate) fn debug_header<S: Source>(alloc: Global, file: &mut PDB<S>) -> Result<DBIHeader>
    ensures { IsKeptOpen S.state file.old file.new }
{
    let stream = file.get(alloc, DEBUG_STREAM, Some(DEBUG_HEADER_SIZE))?;
    DBIHeader::parse(&stream)
}

/// Reads the header of the stream of debug information, or returns None if it can't be read.
fn debug_header_if_read<S: Source>(
    alloc: Global,
    file: &mut PDB<S>,
) -> result::Result<Option<DBIHeader>, AllocError> {
    match debug_header(alloc, file) {
        Ok(header) => Ok(Some(header)),
        Err(Error::OutOfMemory) => Err(AllocError),
        Err(_) => Ok(None),
    }
}

/// Returns the header of the table at the start of a stream, or None if the stream is empty or no
/// table.
fn table_header_in(stream: Stream) -> Option<Header> {
    if stream.as_slice().is_empty() {
        return None;
    }
    match TypeInformation::parse(stream) {
        Ok(table) => Some(table.header()),
        Err(_) => None,
    }
}

/// Reads the header of a table, or returns None if it can't be read.
fn table_header<S: Source>(
    alloc: Global,
    file: &mut PDB<S>,
    number: u32,
) -> result::Result<Option<Header>, AllocError> {
    match file.get(alloc, number, Some(TABLE_HEADER_SIZE)) {
        Ok(stream) => Ok(table_header_in(stream)),
        Err(Error::OutOfMemory) => Err(AllocError),
        Err(_) => Ok(None),
    }
}

/// Reads the headers of streams 2 to 4.
pub fn headers_of<S: Source>(
    alloc: Global,
    file: &mut PDB<S>,
) -> result::Result<Headers, AllocError> {
    Ok(Headers {
        debug: debug_header_if_read(alloc, file)?,
        types: table_header(alloc, file, TYPE_STREAM)?,
        ids: table_header(alloc, file, ID_STREAM)?,
    })
}
