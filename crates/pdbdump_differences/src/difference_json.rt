//! A definition that came, went or changed, as an object of JSON.

use crate::part::Part;
use crate::part_change::PartChange;
use crate::version::Version;
use pdb_base::Result;
use pdbdump_rows::Value;
use pdbdump_types::{ObjectBuffer, TextAllowance, TextBuffer, show_declared, show_enumerator};
use std::alloc::Global;

/// Returns the word for what became of something that was there, is there, or both.
fn change_word(was: bool, is: bool) -> &'static str {
    match (was, is) {
        (true, false) => "went",
        (false, true) => "came",
        _ => "changed",
    }
}

/// Appends an object as a member of another, behind those that are there.
fn push_member(name: &str, object: &ObjectBuffer, text: &mut TextBuffer) {
    text.push(b",\"");
    text.push(name.as_bytes());
    text.push(b"\":");
    text.push_fields(object);
    text.push(b"}");
}

/// Appends what a definition was or is.
fn push_version(
    alloc: Global,
    object: &mut ObjectBuffer,
    name: &str,
    version: &Version<'_, '_>,
    texts: &mut TextAllowance,
    text: &mut TextBuffer,
) -> Result<()> {
    let defined = &version.defined;
    object.begin();
    object.field("index", Value::Hexadecimal(version.index.0));
    object.field("kind", Value::Word(defined.word));
    if let Some((_, underlying_type)) = defined.enumeration {
        object.text("type", &texts.bytes(version.table, underlying_type, b"")?);
    }
    if let Some(size) = version.table.definitions.size_of(alloc, version.index)? {
        object.field("size", Value::Number(size));
    }
    push_member(name, object, text);
    Ok(())
}

/// Appends what a part was or is.
fn push_part(
    alloc: Global,
    object: &mut ObjectBuffer,
    name: &str,
    version: &Version<'_, '_>,
    part: &Part<'_>,
    texts: &mut TextAllowance,
    text: &mut TextBuffer,
) -> Result<()> {
    object.begin();
    match part {
        Part::Field(field) => show_declared(version.table, object, 0, 0, field, texts)?,
        Part::Enumerator(enumerator) => show_enumerator(object, enumerator),
    }
    push_member(name, object, text);
    Ok(())
}

/// Appends what became of a part.
fn push_change<'t>(
    alloc: Global,
    object: &mut ObjectBuffer,
    old: Option<&Version<'_, 't>>,
    new: Option<&Version<'_, 't>>,
    change: &PartChange<'t>,
    texts: &mut TextAllowance,
    text: &mut TextBuffer,
) -> Result<()> {
    let word = change_word(change.old.is_some(), change.new.is_some());
    object.begin();
    object.field("change", Value::Word(word));
    text.begin_item();
    text.push_fields(object);
    if let (Some(old), Some(part)) = (old, &change.old) {
        push_part(alloc, object, "old", old, part, texts, text)?;
    }
    if let (Some(new), Some(part)) = (new, &change.new) {
        push_part(alloc, object, "new", new, part, texts, text)?;
    }
    text.push(b"}");
    Ok(())
}

/// Appends what became of a definition as a line of JSON: an object with what it was and is, and a
/// list of its parts that differ.
///
/// # Errors
/// Fails as `push_text` does.
pub(crate) fn push_json<'t>(
    alloc: Global,
    old: Option<&Version<'_, 't>>,
    new: Option<&Version<'_, 't>>,
    changes: &[PartChange<'t>],
    texts: &mut TextAllowance,
    text: &mut TextBuffer,
) -> Result<()> {
    let word = change_word(old.is_some(), new.is_some());
    let mut object = ObjectBuffer::new(alloc);
    object.field("change", Value::Word(word));
    if let Some(version) = old.or(new) {
        object.field("name", Value::Text(version.defined.name));
    }
    text.push_fields(&object);
    if let Some(old) = old {
        push_version(alloc, &mut object, "old", old, texts, text)?;
    }
    if let Some(new) = new {
        push_version(alloc, &mut object, "new", new, texts, text)?;
    }
    text.push(b",\"parts\":[");
    for change in changes {
        push_change(alloc, &mut object, old, new, change, texts, text)?;
    }
    text.push(b"]}\n");
    Ok(())
}
