//! The tables of a file, and the kinds of their records.

#![tactic(auto, using(pdbdump_rows::proofs::lemmas::Sink::adding_lines))]

ghost use Rattle.pdbdump_rows.specs.Sink.{AddsLines};

use crate::completeness::RecordCounts;
use crate::kinds::{KindCount, Walked, walk_over};
use crate::parts::{Part, write_refused};
use crate::streams::last_stream;
use pdb_base::{Result, Stream};
use pdb_file::PDB;
use pdb_msf::{Msf, Source};
use pdb_tpi::TypeInformation;
use pdbdump_rows::{Rows, Value};
use std::alloc::Global;
use std::io::Write;

/// Writes the line of a table: how many records it has and how many of them are lists of fields
/// that another list continues, and the indexes that its header counts.
fn write_head<W: Write>(rows: &mut Rows<'_, W>, number: u32, walked: &Walked)
    ensures { AddsLines rows.old rows.new }
{
    let header = walked.header;
    rows.row(&[
        ("table", Value::Number(number as u64)),
        ("records", Value::Number(walked.records)),
        ("minimum_index", Value::Hexadecimal(header.minimum_index)),
        ("maximum_index", Value::Hexadecimal(header.maximum_index)),
        ("continued_field_lists", Value::Number(walked.continued)),
    ]);
}

/// Writes a line for each kind of a table's records: how many there are, and how many bytes they
/// take.
fn write_kinds<W: Write>(rows: &mut Rows<'_, W>, number: u32, kinds: &[KindCount])
    ensures { AddsLines rows.old rows.new }
{
    for kind in kinds {
        rows.row(&[
            ("table", Value::Number(number as u64)),
            ("kind", Value::Kind(kind.leaf)),
            ("count", Value::Number(kind.count)),
            ("bytes", Value::Number(kind.bytes)),
        ]);
    }
}

/// Writes a table that was walked over: its line, the kinds of its records, and the fault at which
/// its walk stops, if it does.
fn write_walked<W: Write>(rows: &mut Rows<'_, W>, number: u32, walked: &Walked)
    ensures { AddsLines rows.old rows.new }
{
    write_head(rows, number, walked);
    write_kinds(rows, number, &walked.kinds);
    if let Some(fault) = &walked.fault {
        write_refused(rows, Part::Table(number), fault);
    }
}

/// Walks over the table in a stream.
///
/// # Errors
/// Fails as `TypeInformation::parse` does, and with `OutOfMemory` if an allocation fails.
fn walk_in(alloc: Global, stream: Stream) -> Result<Walked> {
    let table = TypeInformation::parse(stream)?;
    Ok(walk_over(alloc, &table)?)
}

/// Walks over the table in the stream with this number.
///
/// # Errors
/// Fails as `Msf::get` does for the stream, and then as `TypeInformation::parse` does for its bytes;
/// with `OutOfMemory` if an allocation fails.
pub fn walk_table<S: Source>(alloc: Global, file: &mut PDB<S>, number: u32) -> Result<Walked> {
    walk_in(alloc, file.get(alloc, number, None)?)
}

/// Walks over the table in the stream with this number as `walk_table` does, and consumes the file.
///
/// # Errors
/// Fails as `walk_table` does.
pub fn walk_last_table<S: Source + Drop>(
    alloc: Global,
    file: PDB<S>,
    number: u32,
) -> Result<Walked> {
    walk_in(alloc, last_stream(alloc, file, number)?)
}

/// Returns how many records a table has that was walked over to its end, and how many its header
/// counts.
fn counts_if_whole(number: u32, walked: &Walked) -> Option<RecordCounts> {
    if walked.fault.is_some() {
        return None;
    }
    Some(RecordCounts::of(number, walked.header, walked.records))
}

/// Writes the result of a walk over the table in the stream with this number: its lines, or its
/// error, after which not all is whole. Returns the counts of its records, if it was walked over to
/// its end.
pub fn write_table<W: Write>(
    rows: &mut Rows<'_, W>,
    number: u32,
    walked: &Result<Walked>,
) -> Option<RecordCounts>
    ensures { AddsLines rows.old rows.new }
{
    match walked {
        Ok(walked) => {
            write_walked(rows, number, walked);
            counts_if_whole(number, walked)
        }
        Err(error) => {
            write_refused(rows, Part::Table(number), error);
            None
        }
    }
}
