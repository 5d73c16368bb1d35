//! Whether a program database is the one that an image names, as a line.

#![tactic(auto, using(pdbdump_rows::proofs::lemmas::Line::adding, pdbdump_rows::proofs::lemmas::Rows::listing))]

ghost use Rattle.std.specs.Prelude.{[]};
ghost use Rattle.pdbdump_rows.specs.Line.{IsRow, AddsRow, WritesWhat};
ghost use Rattle.pdbdump_rows.specs.Lines.{row_text};
ghost use Rattle.pdbdump_tables.specs.Identity.{IsIdentity};

use crate::identity::key_bytes;
use pdb_base::{Error, RawString};
use pdb_file::{CodeView, Identity};
use pdb_output::Output;
use pdbdump_rows::{Form, Line, Value, push_text, write_line};
use std::alloc::{AllocError, Global};
use std::io::Write;

/// An image and a program database, with their paths.
#[derive(Clone, Copy)]
pub struct Pair<'p> {
    /// The path of the image.
    pub image_path: &'p str,
    /// What the image says of its database.
    pub image: &'p CodeView,
    /// The path of the database.
    pub path: &'p str,
    /// What identifies the database.
    pub identity: &'p Identity,
}

/// Returns the line that says whether the database belongs to the image, with both keys if not.
fn match_text(alloc: Global, pair: &Pair<'_>) -> Result<Vec<u8>, AllocError> {
    let mut text = Vec::new(alloc);
    push_text(Form::Text, pair.path.as_bytes(), &mut text)?;
    if pair.image.is_of(pair.identity) {
        text.extend_from_slice(b": belongs to ")?;
        push_text(Form::Text, pair.image_path.as_bytes(), &mut text)?;
    } else {
        text.extend_from_slice(b": has key ")?;
        text.extend_from_slice(&key_bytes(alloc, pair.identity.key())?)?;
        text.extend_from_slice(b", but ")?;
        push_text(Form::Text, pair.image_path.as_bytes(), &mut text)?;
        text.extend_from_slice(b" names key ")?;
        text.extend_from_slice(&key_bytes(alloc, pair.image.key())?)?;
    }
    text.push(b'\n')?;
    Ok(text)
}

/// Adds the fields of whether the database belongs to the image, with both keys.
fn show_match(alloc: Global, line: &mut Line, pair: &Pair<'_>)
    ensures { AddsRow [] line.old line.new }
{
    line.field("file", Value::Text(RawString::from(pair.path)));
    line.field("image", Value::Text(RawString::from(pair.image_path)));
    line.field("belongs", Value::Flag(pair.image.is_of(pair.identity)));
    line.made_text("key", key_bytes(alloc, pair.identity.key()));
    line.made_text("image_key", key_bytes(alloc, pair.image.key()));
}

/// Writes whether the database belongs to the image as an object of JSON.
#[tactic(auto, using(pdbdump_rows::proofs::lemmas::Line::showing))]
fn write_object<W: Write>(alloc: Global, pair: &Pair<'_>, out: &mut Output<W>) -> Result<(), Error>
    ensures { WritesWhat (IsRow (row_text Form.Json) []) out.old out.new result }
{
    let mut line = Line::new(alloc);
    line.begin(Form::Json);
    show_match(alloc, &mut line, pair);
    write_line(&mut line, out)
}

/// Writes whether the database belongs to the image as a line.
fn write_text<W: Write>(alloc: Global, pair: &Pair<'_>, out: &mut Output<W>) -> Result<(), Error>
    ensures { WritesWhat (IsIdentity Form.Text) out.old out.new result }
{
    let line = match_text(alloc, pair)?;
    out.write(&line)
}

/// Writes whether a program database is the one that an image names: a line, or an object of JSON,
/// with both keys where they differ.
///
/// # Errors
/// Fails with `IoError` if the writer fails, and with `OutOfMemory` if an allocation fails.
pub fn write_match<W: Write>(
    alloc: Global,
    pair: &Pair<'_>,
    form: Form,
    out: &mut Output<W>,
) -> Result<(), Error>
    ensures { WritesWhat (IsIdentity form) out.old out.new result }
{
    match form {
        Form::Text => write_text(alloc, pair, out),
        Form::Json => write_object(alloc, pair, out),
    }
}
