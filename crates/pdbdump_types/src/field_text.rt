//! The lines of fields and of enumerators in declarations of C++.

use crate::enumerators::Enumerator;
use crate::table::Table;
use crate::text_allowance::TextAllowance;
use crate::text_buffer::TextBuffer;
use pdb_base::Result;
use pdb_types::{Extent, FieldKind, LayoutField, TypeText};
use pdb_values::BitfieldType;
use std::alloc::Global;

/// Appends the place and the size of a field.
fn push_place(alloc: Global, start: u64, field: &LayoutField<'_>, text: &mut TextBuffer) {
    let offset = start.saturating_add(field.place.offset);
    text.push_string(match field.extent {
        Extent::Bytes(size) => format!(in alloc; "0x{offset:03x} 0x{size:02x}"),
        Extent::Bits(bits) => {
            let position = bits.position;
            format!(in alloc; "0x{offset:03x}:{position}")
        }
        Extent::Unknown => format!(in alloc; "0x{offset:03x} ?"),
    });
}

/// Returns the text of the type of a bit field, which is also the declaration of one without a name.
///
/// # Errors
/// Fails as `Definitions::type_text` does for the type whose bits it takes.
pub(crate) fn bit_field_text<'t>(
    table: Table<'_, 't>,
    bits: BitfieldType,
    texts: &mut TextAllowance,
) -> Result<TypeText> {
    let mut text = texts.text(table, bits.underlying_type, b"")?;
    let length = bits.length;
    let width = format!(in table.alloc; " : {length}")?;
    text.bytes.extend_from_slice(width.as_bytes())?;
    Ok(text)
}

/// Appends the declaration of a data member.
fn push_member<'t>(
    table: Table<'_, 't>,
    field: &LayoutField<'t>,
    name: &[u8],
    texts: &mut TextAllowance,
    text: &mut TextBuffer,
) -> Result<()> {
    match field.extent {
        Extent::Bits(bits) if name.is_empty() => {
            let declared = bit_field_text(table, bits, texts)?;
            text.push_escaped(&declared.bytes);
            Ok(())
        }
        _ => texts.push(table, field.place.field_type, name, text),
    }
}

/// Appends the declaration of a field.
fn push_declaration<'t>(
    table: Table<'_, 't>,
    field: &LayoutField<'t>,
    texts: &mut TextAllowance,
    text: &mut TextBuffer,
) -> Result<()> {
    match field.place.kind {
        FieldKind::Base => texts.push(table, field.place.field_type, b"", text)?,
        FieldKind::VirtualBasePointer(_) => text.push(b"vbptr"),
        FieldKind::VirtualFunctionPointer => text.push(b"vfptr"),
        FieldKind::Member(name) => {
            push_member(table, field, name.as_bytes(), texts, text)?;
        }
    }
    Ok(())
}

/// Appends what the comment of a field says besides its place.
fn push_role<'t>(
    table: Table<'_, 't>,
    field: &LayoutField<'t>,
    texts: &mut TextAllowance,
    text: &mut TextBuffer,
) -> Result<()> {
    match field.place.kind {
        FieldKind::Base => text.push(b"  base"),
        FieldKind::VirtualBasePointer(base) => {
            text.push(b"  of virtual base ");
            texts.push(table, base.base_class, b"", text)?;
        }
        FieldKind::VirtualFunctionPointer | FieldKind::Member(_) => {}
    }
    Ok(())
}

/// Appends a field of a class that begins at an offset from the start of what is shown, and the end
/// of its line.
///
/// # Errors
/// Fails as `Definitions::type_text` does for the type of the field.
pub fn push_field<'t>(
    table: Table<'_, 't>,
    start: u64,
    field: &LayoutField<'t>,
    texts: &mut TextAllowance,
    text: &mut TextBuffer,
) -> Result<()> {
    push_declaration(table, field, texts, text)?;
    text.push(b";");
    text.begin_comment();
    push_place(table.alloc, start, field, text);
    push_role(table, field, texts, text)?;
    text.push(b"\n");
    Ok(())
}

/// Appends an enumerator, and the end of its line.
pub fn push_enumerator(alloc: Global, enumerator: &Enumerator<'_>, text: &mut TextBuffer) {
    let value = enumerator.value;
    text.push_escaped(enumerator.name.as_bytes());
    text.push_string(format!(in alloc; " = {value},\n"));
}
