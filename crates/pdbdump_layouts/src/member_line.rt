//! What is shown of a member that a path leads to, or why it leads to none.

use crate::lookup::{field_records, take_records};
use crate::member_path::{FoundMember, PathEnd};
use crate::named::path_end;
use crate::nearest::Nearest;
use pdb_base::{RawString, Result, TypeIndex};
use pdb_types::{Extent, FieldKind, FieldPlace, LayoutField};
use pdb_values::TypeData;
use pdbdump_rows::Form;
use pdbdump_types::{
    Allowance, FieldTexts, LetterCase, ObjectBuffer, Table, TextAllowance, TextBuffer, Wanted,
    classes_in, cut_at, field_type_text, is_pattern, name_defined, plural, show_field, type_at,
};
use std::alloc::Global;

/// Why a name means nothing.
const NO_NAME: &[u8] = b"no class, union or enumeration is called so";

/// What a path is answered with.
#[derive(Drop)]
pub(crate) enum PathLine {
    /// The line of a member.
    Member(Vec<u8>),

    /// Why the path leads to none.
    Missing(Vec<u8>),
}

/// Returns the path of the pointer through which a path leads to a member, if there is one.
fn pointer_path<'p>(path: &'p [u8], found: &FoundMember<'_>) -> Option<&'p [u8]> {
    path.get(..found.pointer?)
}

/// Appends the line of a member: its path, its offset, its size and its type.
fn push_line(
    alloc: Global,
    path: &[u8],
    type_text: &[u8],
    found: &FoundMember<'_>,
    line: &mut TextBuffer,
) {
    line.push_escaped(path);
    if let Some(pointer) = pointer_path(path, found) {
        line.push(b": through the pointer ");
        line.push_escaped(pointer);
    }
    let offset = found.field.place.offset;
    line.push_string(match found.field.extent {
        Extent::Bytes(size) => format!(in alloc; ": offset 0x{offset:x}, size 0x{size:x}, "),
        Extent::Bits(bits) => {
            let (position, length) = (bits.position, bits.length);
            format!(in alloc; ": offset 0x{offset:x}, bit {position}, {length} bits, ")
        }
        Extent::Unknown => format!(in alloc; ": offset 0x{offset:x}, "),
    });
    line.push_escaped(type_text);
    line.push(b"\n");
}

/// Returns the last step of a path, without the point before it.
fn last_step(path: &[u8]) -> &[u8] {
    let Some(point) = path.iter().rposition(|byte| *byte == b'.') else {
        return path;
    };
    path.get(point..)
        .and_then(|step| step.get(1..))
        .unwrap_or(path)
}

/// Returns a member as an object shows it: an element, which has no name, with the last step of its
/// path.
fn shown_field<'s>(path: &'s [u8], found: &FoundMember<'s>) -> LayoutField<'s> {
    let place = &found.field.place;
    let kind = match place.kind {
        FieldKind::Member(name) if name.as_bytes().is_empty() => {
            FieldKind::Member(RawString::from(last_step(path)))
        }
        kind => kind,
    };
    LayoutField {
        place: FieldPlace {
            kind,
            field_type: place.field_type,
            offset: place.offset,
        },
        extent: found.field.extent,
    }
}

/// Appends the object of a member, and the end of its line.
fn push_object(
    alloc: Global,
    path: &[u8],
    texts: FieldTexts<'_>,
    found: &FoundMember<'_>,
    line: &mut TextBuffer,
) {
    let mut object = ObjectBuffer::new(alloc);
    let field = shown_field(path, found);
    show_field(&mut object, 0, field.place.offset, &field, texts);
    if let Some(pointer) = pointer_path(path, found) {
        object.text("pointer", pointer);
    }
    line.push_fields(&object);
    line.push(b"}\n");
}

/// Returns the line of a member that a path leads to.
fn found_line(
    table: Table<'_, '_>,
    path: &[u8],
    found: &FoundMember<'_>,
    form: Form,
    texts: &mut TextAllowance,
) -> Result<Vec<u8>> {
    let type_text = field_type_text(table, &found.field, texts)?;
    let mut line = TextBuffer::new(table.alloc);
    match form {
        Form::Text => push_line(table.alloc, path, &type_text.bytes, found, &mut line),
        Form::Json => {
            let texts = FieldTexts {
                type_text: &type_text.bytes,
                declaration: path,
                is_cut: type_text.is_cut,
            };
            push_object(table.alloc, path, texts, found, &mut line);
        }
    }
    Ok(line.finish()?)
}

/// Returns the names of the members of a class that are the nearest to a name.
fn nearest_members<'t>(
    table: Table<'_, 't>,
    class: TypeIndex,
    name: &[u8],
    records: &mut Allowance,
) -> Result<Nearest<'t>> {
    let mut nearest = Nearest::new(table.alloc, name)?;
    take_records(table, class, records)?;
    let fields = field_records(table, class)?;
    for field in &fields {
        if let TypeData::Member(member) = field {
            nearest.compare(table.alloc, member.name.as_bytes())?;
        }
    }
    Ok(nearest)
}

/// Appends that a type has no member of a name, and which it has with a name that is near.
fn push_no_member(
    table: Table<'_, '_>,
    class: TypeIndex,
    name: &[u8],
    records: &mut Allowance,
    texts: &mut TextAllowance,
    why: &mut TextBuffer,
) -> Result<()> {
    if name.is_empty() {
        why.push(b"a name is missing behind a point");
        return Ok(());
    }
    texts.push(table, class, b"", why)?;
    why.push(b" has no member ");
    why.push_escaped(name);
    let nearest = nearest_members(table, class, name, records)?;
    nearest.push_question(why);
    Ok(())
}

/// Appends a path, escaped, and a text behind it.
fn push_path(path: &[u8], text: &[u8], why: &mut TextBuffer) {
    why.push_escaped(path);
    why.push(text);
}

/// Appends that an array has only so many elements.
fn push_beyond(alloc: Global, path: &[u8], count: u64, why: &mut TextBuffer) {
    let more = plural(count);
    why.push_escaped(path);
    why.push_string(format!(in alloc; " has {count} element{more}"));
}

/// Appends that no type has a name, and which have names that are near.
fn push_no_type(table: Table<'_, '_>, path: &[u8], why: &mut TextBuffer) -> Result<()> {
    why.push(NO_NAME);
    if is_pattern(path) {
        return Ok(());
    }
    let types = table.definitions.types();
    let (name, _) = cut_at(b'.', path);
    let mut nearest = Nearest::new(table.alloc, name)?;
    for index in &classes_in(table.alloc, types, Wanted::Named)? {
        let value = type_at(table.alloc, types, *index)?;
        if let Some(name) = name_defined(&value, Wanted::Named) {
            nearest.compare(table.alloc, name.as_bytes())?;
        }
    }
    nearest.push_question(why);
    Ok(())
}

/// Returns what a path is answered with, such as `Derived.inner.tag`.
///
/// # Errors
/// Fails as `path_end` does, as `Definitions::type_text` does for the type of the member, and with
/// `OutOfMemory` if an allocation fails.
pub(crate) fn path_line(
    table: Table<'_, '_>,
    path: &[u8],
    case: LetterCase,
    form: Form,
    records: &mut Allowance,
    texts: &mut TextAllowance,
) -> Result<PathLine> {
    let mut why = TextBuffer::new(table.alloc);
    match path_end(table, path, case, records)? {
        Some(PathEnd::Member(found)) => {
            let line = found_line(table, path, &found, form, texts)?;
            return Ok(PathLine::Member(line));
        }
        Some(PathEnd::NoMember(class, name)) => {
            push_no_member(table, class, name, records, texts, &mut why)?;
        }
        Some(PathEnd::NoElements(before)) => {
            push_path(before, b" has no elements of a known size", &mut why);
        }
        Some(PathEnd::Beyond(before, count)) => push_beyond(table.alloc, before, count, &mut why),
        Some(PathEnd::NoNumber(before)) => {
            push_path(before, b" is followed by no number in brackets", &mut why);
        }
        None => push_no_type(table, path, &mut why)?,
    }
    Ok(PathLine::Missing(why.finish()?))
}
