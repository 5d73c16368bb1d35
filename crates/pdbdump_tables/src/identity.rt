//! The identity of a file, as a line.

#![tactic(auto, using(pdbdump_rows::proofs::lemmas::Line::adding))]

ghost use Rattle.std.specs.Prelude.{[]};
ghost use Rattle.pdbdump_rows.specs.Line.{IsRow, AddsRow, WritesWhat};
ghost use Rattle.pdbdump_rows.specs.Lines.{row_text};
ghost use Rattle.pdbdump_tables.specs.Identity.{IsIdentity};

use pdb_base::{Error, RawString};
use pdb_file::{Features, Identity, LowerKey, UpperKey};
use pdb_output::Output;
use pdbdump_rows::{Field, Flag, Form, Line, Value, optional_text, push_text, write_line};
use std::alloc::{AllocError, Global};
use std::io::Write;
use uuid::Uuid;

/// The name in a line of Breakpad of a file that has none.
const UNNAMED: &str = "-";

/// How the identity of a file is written as text.
#[derive(Clone, Copy)]
pub enum KeyStyle {
    /// The path of the file in a symbol store, `NAME/KEY/NAME`, or the key of a file without a name.
    Key,

    /// That path in lower case, the name too, as the conventions for SSQP have it.
    Ssqp,

    /// The first line of a symbol file of Breakpad: `MODULE windows CPU KEY NAME`.
    Breakpad,

    /// The GUID alone, with hyphens.
    Guid,
}

/// Returns the path of a file with a key in a symbol store as a line, or the key alone if the file has
/// no name.
fn store_path(alloc: Global, name: Option<&str>, key: &str) -> Result<Vec<u8>, AllocError> {
    let mut line = Vec::new(alloc);
    match name {
        Some(name) => {
            push_text(Form::Text, name.as_bytes(), &mut line)?;
            line.extend_from_slice(b"/")?;
            line.extend_from_slice(key.as_bytes())?;
            line.extend_from_slice(b"/")?;
            push_text(Form::Text, name.as_bytes(), &mut line)?;
        }
        None => line.extend_from_slice(key.as_bytes())?,
    }
    line.push(b'\n')?;
    Ok(line)
}

/// Returns the path of a file in a symbol store as a line.
fn upper_path(alloc: Global, name: Option<&str>, key: UpperKey) -> Result<Vec<u8>, AllocError> {
    let key = key_text(alloc, key)?;
    store_path(alloc, name, &key)
}

/// Returns the path of a file in a symbol store as a line in lower case.
fn lower_path(alloc: Global, name: Option<&str>, key: UpperKey) -> Result<Vec<u8>, AllocError> {
    let UpperKey { guid, age } = key;
    let key = LowerKey { guid, age };
    let key = format!(in alloc; "{key}")?;
    match name {
        Some(name) => store_path(alloc, Some(&name.to_ascii_lowercase(alloc)?), &key),
        None => store_path(alloc, None, &key),
    }
}

/// Returns the bytes of the text of a key.
pub(crate) fn key_bytes(alloc: Global, key: UpperKey) -> Result<Vec<u8>, AllocError> {
    Ok(key_text(alloc, key)?.into_bytes())
}

/// Returns a key as text.
pub(crate) fn key_text(alloc: Global, key: UpperKey) -> Result<String, AllocError> {
    Ok(format!(in alloc; "{key}")?)
}

/// Returns the line of a file that its symbol file of Breakpad begins with, which has a name in any
/// case.
fn breakpad_line(
    alloc: Global,
    name: Option<&str>,
    key: UpperKey,
    cpu: &str,
) -> Result<Vec<u8>, AllocError> {
    let key = key_text(alloc, key)?;
    let mut line = format!(in alloc; "MODULE windows {cpu} {key} ")?.into_bytes();
    push_text(Form::Text, name.unwrap_or(UNNAMED).as_bytes(), &mut line)?;
    line.push(b'\n')?;
    Ok(line)
}

/// Returns the GUID of a file as a line.
fn guid_line(alloc: Global, guid: Uuid) -> Result<Vec<u8>, AllocError> {
    let mut buffer = [0u8; 36];
    let guid = guid.hyphenated().encode_upper(&mut buffer);
    Ok(format!(in alloc; "{guid}\n")?.into_bytes())
}

/// Returns the line of a file's key in a style. The name of the machine is that of Breakpad.
pub(crate) fn key_line(
    alloc: Global,
    style: KeyStyle,
    name: Option<&str>,
    key: UpperKey,
    cpu: &str,
) -> Result<Vec<u8>, AllocError> {
    match style {
        KeyStyle::Key => upper_path(alloc, name, key),
        KeyStyle::Ssqp => lower_path(alloc, name, key),
        KeyStyle::Breakpad => breakpad_line(alloc, name, key, cpu),
        KeyStyle::Guid => guid_line(alloc, key.guid),
    }
}

/// Returns the word for the stream from which the age in the key is.
fn age_source(identity: &Identity) -> &'static str {
    match identity.debug_header {
        Some(_) => "dbi",
        None => "pdb",
    }
}

/// Returns the value of a machine, or `Absent` if there is none.
fn optional_machine<'t>(machine: Option<u16>) -> Value<'t> {
    match machine {
        Some(machine) => Value::Number(machine as u64),
        None => Value::Absent,
    }
}

/// Returns the value of a flag, or `Absent` if there is none.
fn optional_flag<'t>(flag: Option<bool>) -> Value<'t> {
    match flag {
        Some(flag) => Value::Flag(flag),
        None => Value::Absent,
    }
}

/// Returns the flags of the features that a file tells of itself.
fn feature_flags(features: Features) -> [Flag; 4] {
    [
        (features.vc110, "vc110"),
        (features.vc140, "vc140"),
        (features.no_type_merge, "no-type-merge"),
        (features.minimal, "minimal"),
    ]
}

/// Adds the features, if there are any to be found.
fn show_features(line: &mut Line, features: Option<Features>)
    ensures { AddsRow [] line.old line.new }
{
    match features {
        Some(features) => line.field("features", Value::Words(&feature_flags(features))),
        None => line.field("features", Value::Absent),
    }
}

/// Returns the fields of the numbers that identify a file.
fn number_fields(identity: &Identity) -> [Field<'static>; 5] {
    let Identity {
        information_age,
        signature,
        version,
        ..
    } = identity;
    [
        ("age", Value::Number(identity.age() as u64)),
        ("age_from", Value::Word(age_source(identity))),
        ("information_age", Value::Number(*information_age as u64)),
        ("signature", Value::Number(*signature as u64)),
        ("version", Value::Number(*version as u64)),
    ]
}

/// Returns the fields of the machine that a file is for.
fn machine_fields(identity: &Identity) -> [Field<'static>; 3] {
    [
        ("machine", optional_machine(identity.machine())),
        ("cpu", Value::Word(identity.cpu())),
        ("stripped", optional_flag(identity.is_stripped())),
    ]
}

/// Adds the fields of a file's name, of its format and of its GUID.
fn show_guid(line: &mut Line, name: Option<&str>, guid: &str)
    ensures { AddsRow [] line.old line.new }
{
    line.field("name", optional_text(name.map(RawString::from)));
    line.field("format", Value::Word("MSF 7.00"));
    line.field("guid", Value::Text(RawString::from(guid)));
}

/// Adds the fields of all that identifies a file, with the text of its GUID.
fn show_identity(
    alloc: Global,
    line: &mut Line,
    name: Option<&str>,
    identity: &Identity,
    guid: &str,
)
    ensures { AddsRow [] line.old line.new }
{
    show_guid(line, name, guid);
    line.fields(&number_fields(identity));
    show_features(line, identity.features);
    line.fields(&machine_fields(identity));
    line.made_text("key", key_bytes(alloc, identity.key()));
}

/// Writes all that identifies a file as an object of JSON.
#[tactic(auto, using(pdbdump_rows::proofs::lemmas::Line::showing))]
fn write_object<W: Write>(
    alloc: Global,
    name: Option<&str>,
    identity: &Identity,
    out: &mut Output<W>,
) -> Result<(), Error>
    ensures { WritesWhat (IsRow (row_text Form.Json) []) out.old out.new result }
{
    let mut buffer = [0u8; 36];
    let guid = identity.guid.hyphenated().encode_upper(&mut buffer);
    let mut line = Line::new(alloc);
    line.begin(Form::Json);
    show_identity(alloc, &mut line, name, identity, guid);
    write_line(&mut line, out)
}

/// Writes the line of a file's identity in a style.
fn write_key<W: Write>(
    alloc: Global,
    style: KeyStyle,
    name: Option<&str>,
    identity: &Identity,
    out: &mut Output<W>,
) -> Result<(), Error>
    ensures { WritesWhat (IsIdentity Form.Text) out.old out.new result }
{
    let line = key_line(alloc, style, name, identity.key(), identity.cpu())?;
    out.write(&line)
}

/// Writes the identity of a file of this name, if it has one: a line in the style, or an object of JSON
/// with all of it.
///
/// # Errors
/// Fails with `IoError` if the writer fails, and with `OutOfMemory` if an allocation fails.
pub fn write_identity<W: Write>(
    alloc: Global,
    style: KeyStyle,
    name: Option<&str>,
    identity: &Identity,
    form: Form,
    out: &mut Output<W>,
) -> Result<(), Error>
    ensures { WritesWhat (IsIdentity form) out.old out.new result }
{
    match form {
        Form::Text => write_key(alloc, style, name, identity, out),
        Form::Json => write_object(alloc, name, identity, out),
    }
}

/// Returns whether a word is a key, in upper or in lower case.
///
/// # Errors
/// Fails if an allocation fails.
pub fn is_key(alloc: Global, word: &str, key: UpperKey) -> Result<bool, AllocError> {
    let key = key_text(alloc, key)?;
    Ok(word.eq_ignore_ascii_case(&key))
}
