//! The fields and gaps of a layout as objects of JSON.

use crate::enumerators::Enumerator;
use crate::field_text::bit_field_text;
use crate::object_buffer::ObjectBuffer;
use crate::shown_gap::{GapRole, gap_place};
use crate::table::Table;
use crate::text_allowance::TextAllowance;
use pdb_base::{RawString, Result};
use pdb_types::{Extent, FieldKind, Gap, LayoutField, TypeText};
use pdbdump_rows::{Value, optional_text};

/// Returns the word for what a field is.
fn role_word(kind: &FieldKind<'_>) -> &'static str {
    match kind {
        FieldKind::Base => "base",
        FieldKind::VirtualBasePointer(_) => "vbptr",
        FieldKind::VirtualFunctionPointer => "vfptr",
        FieldKind::Member(_) => "member",
    }
}

/// Returns the name of a field, which only a data member has.
fn role_name<'t>(kind: &FieldKind<'t>) -> Option<RawString<'t>> {
    match kind {
        FieldKind::Member(name) => Some(*name),
        _ => None,
    }
}

/// Adds the size of a field in bytes, if something says it; or the bit at which a bit field begins,
/// and how many it has.
fn show_extent(object: &mut ObjectBuffer, extent: &Extent) {
    match extent {
        Extent::Bytes(size) => object.field("size", Value::Number(*size)),
        Extent::Bits(bits) => {
            object.field("bit", Value::Number(bits.position as u64));
            object.field("bits", Value::Number(bits.length as u64));
        }
        Extent::Unknown => {}
    }
}

/// Adds which virtual base class a field leads to, if it leads to one: whether the class itself
/// names it, and its position in the table of virtual bases.
fn show_virtual_base(object: &mut ObjectBuffer, kind: &FieldKind<'_>) {
    if let FieldKind::VirtualBasePointer(base) = kind {
        object.field("virtual_base", Value::Hexadecimal(base.base_class.0));
        object.field("direct", Value::Flag(base.direct));
        object.field("position", Value::Number(base.position as u64));
    }
}

/// The texts of a field.
#[derive(Clone, Copy)]
pub struct FieldTexts<'t> {
    /// That of its type.
    pub type_text: &'t [u8],

    /// Its declaration, or the path that led to it.
    pub declaration: &'t [u8],

    /// Whether one of them is cut.
    pub is_cut: bool,
}

/// Adds what the object of a field holds, which begins at an offset from the start of what is
/// shown, and whose class is so deep in it.
pub fn show_field(
    object: &mut ObjectBuffer,
    depth: u32,
    offset: u64,
    part: &LayoutField<'_>,
    texts: FieldTexts<'_>,
) {
    let kind = &part.place.kind;
    object.field("kind", Value::Word(role_word(kind)));
    object.field("depth", Value::Number(depth as u64));
    object.field("name", optional_text(role_name(kind)));
    object.field("type_index", Value::Hexadecimal(part.place.field_type.0));
    object.text("type", texts.type_text);
    object.text("declaration", texts.declaration);
    if texts.is_cut {
        object.field("cut", Value::Flag(true));
    }
    object.field("offset", Value::Number(offset));
    show_extent(object, &part.extent);
    show_virtual_base(object, kind);
}

/// Adds what the object of an enumerator holds.
pub fn show_enumerator(object: &mut ObjectBuffer, enumerator: &Enumerator<'_>) {
    object.field("kind", Value::Word("enumerator"));
    object.field("name", Value::Text(enumerator.name));
    let value = match u64::try_from(enumerator.value) {
        Ok(number) => Value::Number(number),
        Err(_) => match i64::try_from(enumerator.value) {
            Ok(number) => Value::Signed(number),
            Err(_) => Value::Absent,
        },
    };
    object.field("value", value);
}

/// Returns the word for what a gap is.
fn gap_word(role: GapRole) -> &'static str {
    match role {
        GapRole::Hole => "hole",
        GapRole::Padding => "padding",
        GapRole::UnusedBits => "unused_bits",
        GapRole::VirtualBases => "virtual_bases",
    }
}

/// Adds what the object of a gap holds, whose class begins at an offset from the start of what is
/// shown, and is so deep in it.
pub fn show_gap(object: &mut ObjectBuffer, depth: u32, start: u64, gap: &Gap, role: GapRole) {
    let place = gap_place(start, gap);
    object.field("kind", Value::Word(gap_word(role)));
    object.field("depth", Value::Number(depth as u64));
    object.field("offset", Value::Number(place.offset));
    if role == GapRole::UnusedBits {
        object.field("bit", Value::Number(place.bit));
        object.field("bits", Value::Number(place.bits));
    } else {
        object.field("size", Value::Number(place.bytes));
    }
}

/// Returns the text of the type of a field.
///
/// # Errors
/// Fails as `Definitions::type_text` does for the type of the field.
pub fn field_type_text<'t>(
    table: Table<'_, 't>,
    field: &LayoutField<'t>,
    texts: &mut TextAllowance,
) -> Result<TypeText> {
    match field.extent {
        Extent::Bits(bits) => bit_field_text(table, bits, texts),
        Extent::Bytes(_) | Extent::Unknown => { texts.text(table, field.place.field_type, b"") }
    }
}

/// Returns the declaration of a field: its type with its name in it, or the type alone for a field
/// without a name.
fn declaration_text<'t>(
    table: Table<'_, 't>,
    field: &LayoutField<'t>,
    texts: &mut TextAllowance,
) -> Result<TypeText> {
    match field.place.kind {
        FieldKind::Member(name) if !name.is_empty() => {
            texts.text(table, field.place.field_type, name.as_bytes())
        }
        _ => field_type_text(table, field, texts),
    }
}

/// Adds what the object of a field holds, whose class is so deep in what is shown and begins at an
/// offset from the start of that.
///
/// # Errors
/// Fails as `Definitions::type_text` does for the type of the field.
pub fn show_declared<'t>(
    table: Table<'_, 't>,
    object: &mut ObjectBuffer,
    depth: u32,
    start: u64,
    part: &LayoutField<'t>,
    texts: &mut TextAllowance,
) -> Result<()> {
    let type_text = field_type_text(table, part, texts)?;
    let declaration = declaration_text(table, part, texts)?;
    let spelled = FieldTexts {
        type_text: &type_text.bytes,
        declaration: &declaration.bytes,
        is_cut: type_text.is_cut || declaration.is_cut,
    };
    let offset = start.saturating_add(part.place.offset);
    show_field(object, depth, offset, part, spelled);
    Ok(())
}
