//! Answers as lines.
#![tactic(auto, using(pdbdump_rows::proofs::lemmas::Line::adding, pdbdump_rows::proofs::lemmas::Sink::adding_lines))]

ghost use Rattle.pdbdump_rows.specs.{Rows.WritesLines, Sink.AddsLines};

use pdb_base::RawString;
use pdb_container::{Error, Reply, Result};
use pdb_output::Output;
use pdbdump_rows::{Form, Rows, Sheet, Value, optional_text};
use std::alloc::{AllocError, Global};
use std::io::Write;
use std::ops::Range;
use std::result;

/// What is written in answer to a line that is no question.
const NO_QUERY: &[u8] =
    b"no question: stream N [LIMIT] | type S I | id S I | name S O | ranges S A B | fields S I";

/// Writes a text as a row.
fn write_text<W: Write>(rows: &mut Rows<'_, W>, name: &'static str, text: &[u8])
    ensures { AddsLines rows.old rows.new }
{
    rows.row(&[(name, Value::Text(RawString::from(text)))]);
}

/// Writes the bytes of a stream, in hexadecimal digits.
fn write_bytes<W: Write>(rows: &mut Rows<'_, W>, stream: &[u8])
    ensures { AddsLines rows.old rows.new }
{
    match hex::encode(rows.alloc(), stream) {
        Ok(digits) => write_text(rows, "bytes", digits.as_bytes()),
        Err(_) => rows.lack(),
    }
}

/// Writes the index of a record, its kind and its name, if it has one.
fn write_record<W: Write>(rows: &mut Rows<'_, W>, index: u32, leaf: u16, name: Option<&[u8]>)
    ensures { AddsLines rows.old rows.new }
{
    rows.row(&[
        ("index", Value::Hexadecimal(index)),
        ("kind", Value::Kind(leaf)),
        ("name", optional_text(name.map(RawString::from))),
    ]);
}

/// Writes the names of fields, each as a row.
fn write_names<W: Write>(rows: &mut Rows<'_, W>, names: &[Option<Vec<u8>>])
    ensures { AddsLines rows.old rows.new }
{
    for name in names {
        let name = name.as_deref().map(RawString::from);
        rows.row(&[("field", optional_text(name))]);
    }
}

/// Writes ranges, each as a row.
fn write_ranges<W: Write>(rows: &mut Rows<'_, W>, ranges: &[Range<u32>])
    ensures { AddsLines rows.old rows.new }
{
    for range in ranges {
        rows.row(&[
            ("start", Value::Hexadecimal(range.start)),
            ("end", Value::Hexadecimal(range.end)),
        ]);
    }
}

/// Returns the text of an error as `pdbq` prints it.
fn refusal_text(alloc: Global, error: &Error) -> result::Result<Vec<u8>, AllocError> {
    pdb_cli::error_text(alloc, error).map_err(|_| AllocError)
}

/// Writes the rows of a reply.
fn write_reply<W: Write>(rows: &mut Rows<'_, W>, reply: &Reply)
    ensures { AddsLines rows.old rows.new }
{
    match reply {
        Reply::Bytes(stream) => write_bytes(rows, stream),
        Reply::Record { index, kind, name } => write_record(rows, *index, *kind, name.as_deref()),
        Reply::Name(name) => write_text(rows, "string", name),
        Reply::Fields(names) => write_names(rows, names),
        Reply::Ranges(ranges) => write_ranges(rows, ranges),
        Reply::Refused(error) => {
            let alloc = rows.alloc();
            rows.begin();
            rows.sheet
                .line
                .made_text("error", refusal_text(alloc, error));
            rows.end();
        }
    }
}

/// Returns whether a reply answers its question.
pub(crate) fn is_answer(reply: Option<&Reply>) -> bool {
    !matches!(reply, None | Some(Reply::Refused(_)))
}

/// Writes the rows of an answer: those of the reply, or one that says that the line has no question.
fn write_answer<W: Write>(rows: &mut Rows<'_, W>, reply: Option<&Reply>)
    ensures { AddsLines rows.old rows.new }
{
    match reply {
        Some(reply) => write_reply(rows, reply),
        None => write_text(rows, "error", NO_QUERY),
    }
}

/// Writes a question, and its answer after it.
pub(crate) fn write_answered<W: Write>(
    alloc: Global,
    form: Form,
    question: &[u8],
    reply: Option<&Reply>,
    out: &mut Output<W>,
) -> Result<()>
    ensures { WritesLines form out.old out.new result }
{
    let mut sheet = Sheet::new(alloc, form);
    let mut rows = Rows::new(&mut sheet, out);
    write_text(&mut rows, "question", question);
    write_answer(&mut rows, reply);
    rows.finish()
}
