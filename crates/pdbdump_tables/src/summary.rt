//! The summary of a file.

#![tactic(auto, using(pdbdump_rows::proofs::lemmas::Sink::adding_lines))]

ghost use Rattle.pdbdump_rows.specs.{Rows.WritesLines, Sink.AddsLines};

use crate::completeness::Completeness;
use crate::headers::headers_of;
use crate::parts::{Part, write_refused};
use crate::stream_names::ShownNames;
use crate::streams::{Known, NO_STREAM, write_streams};
use crate::table_summary::{walk_last_table, walk_table, write_table};
use pdb_base::Result;
use pdb_file::{DBIExtraStreams, ID_STREAM, PDB, PDBInformation, TYPE_STREAM};
use pdb_msf::Source;
use pdb_output::Output;
use pdbdump_rows::{Form, Rows, Sheet, Value};
use std::alloc::{AllocError, Global};
use std::io::Write;
use std::result;

/// Writes the line of a file: the size of its pages in bytes, how many pages it uses, and its own
/// size in bytes.
fn write_pages<W: Write>(rows: &mut Rows<'_, W>, page_size: u32, pages: u32, size: u64)
    ensures { AddsLines rows.old rows.new }
{
    rows.row(&[
        ("page_size", Value::Number(page_size as u64)),
        ("pages", Value::Number(pages as u64)),
        ("bytes", Value::Number(size)),
    ]);
}

/// Returns the roles of streams that stream 3 gives. If these can't be read, writes the error, and
/// returns that no stream has a role.
fn known_roles<S: Source, W: Write>(rows: &mut Rows<'_, W>, file: &mut PDB<S>) -> DBIExtraStreams
    ensures { AddsLines rows.old rows.new }
{
    match file.extra_streams(rows.alloc()) {
        Ok(roles) => roles,
        Err(error) => {
            write_refused(rows, Part::Roles, &error);
            DBIExtraStreams::default()
        }
    }
}

/// Returns the information in stream 1. If it can't be read, writes the error, and returns None.
fn known_information<S: Source, W: Write>(
    rows: &mut Rows<'_, W>,
    file: &mut PDB<S>,
) -> Option<PDBInformation>
    ensures { AddsLines rows.old rows.new }
{
    match file.pdb_information(rows.alloc()) {
        Ok(information) => Some(information),
        Err(error) => {
            write_refused(rows, Part::Names, &error);
            None
        }
    }
}

/// Returns the names that stream 1 gives to the first `count` streams. If these can't be read, writes
/// the error, and returns that no stream has a name. All names together are shown with no more bytes
/// than they take in stream 1.
fn known_names<'i, W: Write>(
    rows: &mut Rows<'_, W>,
    information: Option<&'i PDBInformation>,
    count: u32,
) -> result::Result<ShownNames<'i>, AllocError>
    ensures { AddsLines rows.old rows.new }
{
    let alloc = rows.alloc();
    let Some(information) = information else {
        return ShownNames::new(alloc, &[], count, 0);
    };
    match information.stream_names(alloc) {
        Ok(names) => ShownNames::new(alloc, names.as_slice(), count, information.names_size),
        Err(error) => {
            write_refused(rows, Part::Names, &error);
            ShownNames::new(alloc, &[], count, 0)
        }
    }
}

/// Writes the tables of types and of ids, and notes the counts of their records. The walk over the
/// types is the last, since it consumes the file: in most files, they are the largest stream.
fn write_tables<S: Source + Drop, W: Write>(
    rows: &mut Rows<'_, W>,
    mut file: PDB<S>,
    found: &mut Completeness,
)
    ensures { AddsLines rows.old rows.new }
{
    let alloc = rows.alloc();
    let ids = walk_table(alloc, &mut file, ID_STREAM);
    let types = walk_last_table(alloc, file, TYPE_STREAM);
    found.counts = write_table(rows, TYPE_STREAM, &types);
    found.id_counts = write_table(rows, ID_STREAM, &ids);
}

/// Writes the streams of a file, of which the first `count` are shown, and its tables.
fn write_read_parts<S: Source + Drop, W: Write>(
    rows: &mut Rows<'_, W>,
    mut file: PDB<S>,
    count: u32,
    found: &mut Completeness,
) -> result::Result<(), AllocError>
    ensures { AddsLines rows.old rows.new }
{
    let headers = headers_of(rows.alloc(), &mut file)?;
    let roles = known_roles(rows, &mut file);
    let information = known_information(rows, &mut file);
    let names = known_names(rows, information.as_ref(), count)?;
    let mut known = Known {
        roles,
        headers,
        names,
    };
    let mut streams = file.into_msf();
    write_streams(rows, &mut known, &mut streams, count);
    write_tables(rows, PDB::from(streams), found);
    Ok(())
}

/// Writes all parts of a file, or the error of its directory.
fn write_parts<S: Source + Drop, W: Write>(
    rows: &mut Rows<'_, W>,
    file: PDB<S>,
    found: &mut Completeness,
)
    ensures { AddsLines rows.old rows.new }
{
    let mut streams = file.into_msf();
    match streams.stream_count(rows.alloc()) {
        Ok(count) => {
            let count = count.min(NO_STREAM);
            if write_read_parts(rows, PDB::from(streams), count, found).is_err() {
                rows.lack();
            }
        }
        Err(error) => write_refused(rows, Part::Directory, &error),
    }
}

/// Lists what a file of this size is made of: its pages, a line for each stream, and how many records
/// of each kind the tables of types and ids have. A part that has an error has a line with the error,
/// among those of the others, and it is noted that not all is whole. It is also noted how many records
/// the headers of the tables count and how many there are. The names of streams are shown with no more
/// bytes than they take in stream 1: a name for which fewer are left is cut, and its line says so.
///
/// # Errors
/// Fails with `IoError` if the writer fails, and with `OutOfMemory` if an allocation fails.
pub fn list_summary<S: Source + Drop, W: Write>(
    alloc: Global,
    file: PDB<S>,
    size: u64,
    form: Form,
    found: &mut Completeness,
    out: &mut Output<W>,
) -> Result<()>
    ensures { WritesLines form out.old out.new result }
{
    let mut sheet = Sheet::new(alloc, form);
    let mut rows = Rows::new(&mut sheet, out);
    let streams = file.msf();
    write_pages(&mut rows, streams.page_size(), streams.pages_used(), size);
    write_parts(&mut rows, file, found);
    let written = rows.finish();
    found.is_whole = sheet.is_whole;
    written
}
