//! Parts of a file that have an error.

#![tactic(auto, using(pdbdump_rows::proofs::lemmas::Line::adding, pdbdump_rows::proofs::lemmas::Sink::adding_lines))]

ghost use Rattle.std.specs.Prelude.{◌≡◌, [], false};
ghost use Rattle.pdbdump_rows.specs.Line.{AddsRow};
ghost use Rattle.pdbdump_rows.specs.Sink.{AddsLines};

use pdb_base::Error;
use pdbdump_rows::{Line, Rows, Value, show_error};
use std::io::Write;

/// A part of a file.
#[derive(Clone, Copy)]
pub enum Part {
    /// The directory of streams.
    Directory,
    /// The roles of streams.
    Roles,
    /// The names of streams.
    Names,
    /// The stream with this number.
    Stream(u32),
    /// The table in the stream with this number.
    Table(u32),
}

/// Adds the field that names a part.
fn show_part(line: &mut Line, part: Part)
    ensures { AddsRow [] line.old line.new }
{
    match part {
        Part::Directory => line.field("part", Value::Word("directory")),
        Part::Roles => line.field("part", Value::Word("roles")),
        Part::Names => line.field("part", Value::Word("names")),
        Part::Stream(number) => line.field("stream", Value::Number(number as u64)),
        Part::Table(number) => line.field("table", Value::Number(number as u64)),
    }
}

/// Writes which part has an error, and which error.
fn write_error<W: Write>(rows: &mut Rows<'_, W>, part: Part, error: &Error)
    ensures lines { AddsLines rows.old rows.new }
    ensures whole { rows.new.sheet.now.is_whole ≡ rows.old.sheet.now.is_whole }
{
    rows.begin();
    show_part(&mut rows.sheet.line, part);
    show_error(&mut rows.sheet.line, error);
    rows.end();
}

/// Writes which part has an error, and which error, and notes that not all parts are whole. Want of
/// memory is no error of a part.
pub fn write_refused<W: Write>(rows: &mut Rows<'_, W>, part: Part, error: &Error)
    ensures lines { AddsLines rows.old rows.new }
    ensures noted { rows.new.sheet.now.is_whole ≡ false }
{
    rows.sheet.is_whole = false;
    match error {
        Error::OutOfMemory => rows.lack(),
        error => write_error(rows, part, error),
    }
}
