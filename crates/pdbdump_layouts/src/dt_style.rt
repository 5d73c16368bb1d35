//! Layouts in the style of WinDbg's `dt`.

use crate::dt_type::push_dt_type;
use crate::expanded::ShownRow;
use crate::layout_row::LayoutRow;
use crate::options::DT_WIDTH;
use crate::other_member::{OtherMember, OtherRole};
use crate::shown_class::ShownClass;
use pdb_base::Result;
use pdb_types::{Extent, FieldKind, LayoutField};
use pdbdump_types::{Table, TextAllowance, TextBuffer, plural};
use std::alloc::Global;

/// How wide names are, with the space behind them.
const NAME: usize = 17;

/// Returns what a field is called: its name, or what it is.
fn field_name<'t>(field: &LayoutField<'t>) -> &'t [u8] {
    match field.place.kind {
        FieldKind::Base => b"__BaseClass",
        FieldKind::VirtualBasePointer(_) => b"__VBptr",
        FieldKind::VirtualFunctionPointer => b"__VFN_table",
        FieldKind::Member(name) => name.as_bytes(),
    }
}

/// Appends a name, and what is between it and a type.
fn push_name(name: &[u8], text: &mut TextBuffer) {
    let start = text.len();
    text.push_escaped(name);
    text.align(start, NAME);
    text.push(b": ");
}

/// Returns whether a field is a pointer to a table of virtual functions.
fn is_table_pointer(field: &LayoutField<'_>) -> bool {
    matches!(field.place.kind, FieldKind::VirtualFunctionPointer)
}

/// Appends the type of a bit field.
fn push_bits(alloc: Global, position: u8, length: u8, text: &mut TextBuffer) {
    let more = plural(length as u64);
    text.push_string(format!(in alloc; "Pos {position}, {length} Bit{more}"));
}

/// Appends the type of a field: `Pos 3, 5 Bits` for a bit field, and no more than that it is a
/// pointer for one to a table of virtual functions.
fn push_type<'t>(
    table: Table<'_, 't>,
    field: &LayoutField<'t>,
    texts: &mut TextAllowance,
    text: &mut TextBuffer,
) -> Result<()> {
    match field.extent {
        Extent::Bits(bits) => push_bits(table.alloc, bits.position, bits.length, text),
        Extent::Bytes(size) if is_table_pointer(field) => {
            let bits = size.saturating_mul(8);
            text.push_string(format!(in table.alloc; "Ptr{bits}"));
        }
        _ => push_dt_type(table, field.place.field_type, texts, text)?,
    }
    Ok(())
}

/// Appends the line of a field; a gap has no line. The place of a field is that in its own class.
fn push_row<'t>(
    table: Table<'_, 't>,
    shown_row: &ShownRow<'t>,
    texts: &mut TextAllowance,
    text: &mut TextBuffer,
) -> Result<()> {
    let LayoutRow::Field(field) = &shown_row.row else {
        return Ok(());
    };
    let offset = field.place.offset;
    text.push_indent(shown_row.depth.saturating_add(1), DT_WIDTH);
    text.push_string(format!(in table.alloc; "+0x{offset:03x} "));
    push_name(field_name(field), text);
    push_type(table, field, texts, text)?;
    text.push(b"\n");
    Ok(())
}

/// Returns what the line of a member begins with that takes no place.
fn other_mark(role: OtherRole) -> &'static [u8] {
    match role {
        OtherRole::Method | OtherRole::VirtualMethod => b"=method ",
        OtherRole::StaticMethod | OtherRole::StaticMember => b"=static ",
        OtherRole::NestedType => b"=type   ",
    }
}

/// Appends the line of a member that takes no place.
fn push_other(
    table: Table<'_, '_>,
    other: &OtherMember<'_>,
    texts: &mut TextAllowance,
    text: &mut TextBuffer,
) -> Result<()> {
    text.push_indent(1, DT_WIDTH);
    text.push(other_mark(other.role));
    push_name(other.name.as_bytes(), text);
    push_dt_type(table, other.type_index, texts, text)?;
    text.push(b"\n");
    Ok(())
}

/// Appends a layout in the style of WinDbg's `dt`: the name of the class, and a line for each
/// field.
pub(crate) fn push_dt<'t>(
    table: Table<'_, 't>,
    shown: &ShownClass<'_, 't>,
    texts: &mut TextAllowance,
    text: &mut TextBuffer,
) -> Result<()> {
    if let Some(class) = &shown.class {
        text.push_escaped(class.name.as_bytes());
        text.push(b"\n");
    }
    for row in &shown.expansion.rows {
        push_row(table, row, texts, text)?;
    }
    if shown.expansion.is_cut {
        text.push_indent(1, DT_WIDTH);
        text.push(b"..\n");
    }
    for other in &shown.others {
        push_other(table, other, texts, text)?;
    }
    Ok(())
}
