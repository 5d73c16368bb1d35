//! The streams of a file, one line for each.

#![tactic(auto, using(pdbdump_rows::proofs::lemmas::Line::adding, pdbdump_rows::proofs::lemmas::Sink::adding_lines))]

ghost use Rattle.std.specs.Prelude.{[]};
ghost use Rattle.pdb_msf.specs.File.{stream_of};
ghost use Rattle.pdbdump_rows.specs.Line.{AddsRow};
ghost use Rattle.pdbdump_rows.specs.Sink.{AddsLines};
ghost use Rattle.pdbdump_tables.specs.Reading.{Reads};

use crate::headers::Headers;
use crate::parts::{Part, write_refused};
use crate::roles::role_of;
use crate::stream_names::{ShownName, ShownNames};
use pdb_base::{Error, Result, Stream};
use pdb_file::{DBIExtraStreams, PDB};
use pdb_msf::{BigMSF, Source};
use pdbdump_rows::{Line, Rows, Value, optional_word};
use std::alloc::{AllocError, Global};
use std::io::Write;
use std::result;

/// The number of 16 bits that names no stream.
pub const NO_STREAM: u32 = 0xffff;

/// What is shown of a file's streams beside their sizes.
#[derive(Drop)]
pub struct Known<'n> {
    /// The roles of streams that the debug header lists.
    pub roles: DBIExtraStreams,
    /// The headers that give streams other roles.
    pub headers: Headers,
    /// The names of the streams.
    pub names: ShownNames<'n>,
}

/// Reads the stream with this number as `BigMSF::into_stream` does: it consumes the file. If that is
/// in memory, the stream's bytes are moved together in it where the numbers of its pages increase.
///
/// # Errors
/// Fails as `Msf::get` does.
pub fn last_stream<S: Source + Drop>(alloc: Global, file: PDB<S>, number: u32) -> Result<Stream>
    ensures { Reads (S.state file.source) (λ bytes. stream_of bytes file.head number None) result }
{
    file.into_msf().into_stream(alloc, number, None)
}

/// Returns how many pages hold `size` bytes, or no value if the size of a page is not known.
fn pages_held<'t>(page_size: u32, size: u32) -> Value<'t> {
    if page_size == 0 {
        return Value::Absent;
    }
    Value::Number((size as u64).div_ceil(page_size as u64))
}

/// Returns a name whose end is cut off, with `..` behind it.
fn cut_text(alloc: Global, name: ShownName<'_>) -> result::Result<Vec<u8>, AllocError> {
    let mut text = Vec::new(alloc);
    text.extend_from_slice(name.text.as_bytes())?;
    text.extend_from_slice(b"..")?;
    Ok(text)
}

/// Adds the name of a stream.
fn show_name(alloc: Global, line: &mut Line, name: ShownName<'_>)
    ensures { AddsRow [] line.old line.new }
{
    if name.is_cut {
        line.made_text("name", cut_text(alloc, name));
        line.field("cut", Value::Flag(true));
    } else {
        line.field("name", Value::Text(name.text));
    }
}

/// Adds the fields of a stream: its number, its size in bytes, how many pages hold it, its role and
/// its name.
fn show_stream(
    alloc: Global,
    line: &mut Line,
    known: &mut Known<'_>,
    page_size: u32,
    number: u32,
    size: u32,
)
    ensures { AddsRow [] line.old line.new }
{
    line.fields(&[
        ("stream", Value::Number(number as u64)),
        ("bytes", Value::Number(size as u64)),
        ("pages", pages_held(page_size, size)),
        (
            "role",
            optional_word(role_of(&known.roles, &known.headers, number)),
        ),
    ]);
    if let Some(name) = known.names.show(number) {
        show_name(alloc, line, name);
    }
}

/// Writes the line of a stream.
fn write_size<W: Write>(
    rows: &mut Rows<'_, W>,
    known: &mut Known<'_>,
    page_size: u32,
    number: u32,
    size: u32,
)
    ensures { AddsLines rows.old rows.new }
{
    let alloc = rows.alloc();
    rows.begin();
    show_stream(alloc, &mut rows.sheet.line, known, page_size, number, size);
    rows.end();
}

/// Writes the line of the stream with this number, if there is one. If its size can't be read, the
/// line has the error.
fn write_stream<S: Source, W: Write>(
    rows: &mut Rows<'_, W>,
    known: &mut Known<'_>,
    file: &mut BigMSF<S>,
    number: u32,
)
    ensures { AddsLines rows.old rows.new }
{
    match file.stream_size(rows.alloc(), number) {
        Ok(size) => write_size(rows, known, file.page_size(), number, size),
        Err(Error::StreamNotFound(_)) => {}
        Err(error) => write_refused(rows, Part::Stream(number), &error),
    }
}

/// Writes a line for each of the first `count` streams.
pub fn write_streams<S: Source, W: Write>(
    rows: &mut Rows<'_, W>,
    known: &mut Known<'_>,
    file: &mut BigMSF<S>,
    count: u32,
)
    ensures { AddsLines rows.old rows.new }
{
    for number in 0..count {
        if rows.has_failed() {
            return;
        }
        write_stream(rows, known, file, number);
    }
}
