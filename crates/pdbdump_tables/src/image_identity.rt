//! What an image says of its program database, as a line.

#![tactic(auto, using(pdbdump_rows::proofs::lemmas::Line::adding, pdbdump_rows::proofs::lemmas::Rows::listing))]

ghost use Rattle.std.specs.Prelude.{[]};
ghost use Rattle.pdbdump_rows.specs.Line.{IsRow, AddsRow, WritesWhat};
ghost use Rattle.pdbdump_rows.specs.Lines.{row_text};
ghost use Rattle.pdbdump_tables.specs.Identity.{IsIdentity};

use crate::identity::{KeyStyle, key_bytes, key_line};
use pdb_base::{Error, RawString};
use pdb_file::CodeView;
use pdb_output::Output;
use pdbdump_rows::{Field, Form, Line, Value, write_line};
use std::alloc::{AllocError, Global};
use std::io::Write;

/// Returns the fields of the numbers that identify the database of an image.
fn number_fields(image: &CodeView) -> [Field<'static>; 3] {
    [
        ("age", Value::Number(image.age as u64)),
        ("machine", Value::Number(image.machine as u64)),
        ("cpu", Value::Word(image.cpu())),
    ]
}

/// Adds the fields of an image's name, of its format and of the path of its database.
fn show_path(line: &mut Line, name: &str, path: &[u8])
    ensures { AddsRow [] line.old line.new }
{
    line.field("name", Value::Text(RawString::from(name)));
    line.field("format", Value::Word("PE"));
    line.field("image", Value::Flag(true));
    line.field("path", Value::Text(RawString::from(path)));
}

/// Adds the fields of what an image says of its database, with the text of the GUID.
fn show_image(alloc: Global, line: &mut Line, name: &str, image: &CodeView, guid: &str)
    ensures { AddsRow [] line.old line.new }
{
    show_path(line, name, &image.path);
    line.field("guid", Value::Text(RawString::from(guid)));
    line.fields(&number_fields(image));
    line.made_text("key", key_bytes(alloc, image.key()));
}

/// Writes what an image says of its database as an object of JSON.
#[tactic(auto, using(pdbdump_rows::proofs::lemmas::Line::showing))]
fn write_object<W: Write>(
    alloc: Global,
    name: &str,
    image: &CodeView,
    out: &mut Output<W>,
) -> Result<(), Error>
    ensures { WritesWhat (IsRow (row_text Form.Json) []) out.old out.new result }
{
    let mut buffer = [0u8; 36];
    let guid = image.guid.hyphenated().encode_upper(&mut buffer);
    let mut line = Line::new(alloc);
    line.begin(Form::Json);
    show_image(alloc, &mut line, name, image, guid);
    write_line(&mut line, out)
}

/// Writes the line of the key of an image's database in a style.
fn write_key<W: Write>(
    alloc: Global,
    style: KeyStyle,
    name: &str,
    image: &CodeView,
    out: &mut Output<W>,
) -> Result<(), Error>
    ensures { WritesWhat (IsIdentity Form.Text) out.old out.new result }
{
    let line = key_line(alloc, style, Some(name), image.key(), image.cpu())?;
    out.write(&line)
}

/// Writes what an image says of its database, which has this name: a line in the style, or an object
/// of JSON with all of it.
///
/// # Errors
/// Fails with `IoError` if the writer fails, and with `OutOfMemory` if an allocation fails.
pub fn write_image<W: Write>(
    alloc: Global,
    style: KeyStyle,
    name: &str,
    image: &CodeView,
    form: Form,
    out: &mut Output<W>,
) -> Result<(), Error>
    ensures { WritesWhat (IsIdentity form) out.old out.new result }
{
    match form {
        Form::Text => write_key(alloc, style, name, image, out),
        Form::Json => write_object(alloc, name, image, out),
    }
}
