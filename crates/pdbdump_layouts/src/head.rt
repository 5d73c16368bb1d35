//! The line with which the declaration of a class begins.

use pdb_base::{Result, TypeIndex};
use pdb_types::{FieldKind, LayoutField};
use pdbdump_types::{Class, Table, TextAllowance, TextBuffer};

/// Returns the base class of which a field tells, with the word `virtual` before a virtual one. A
/// virtual base class is told of only if the class itself names it.
fn base_of(field: &LayoutField<'_>) -> Option<(&'static str, TypeIndex)> {
    match field.place.kind {
        FieldKind::Base => Some(("", field.place.field_type)),
        FieldKind::VirtualBasePointer(base) if base.direct => Some(("virtual ", base.base_class)),
        _ => None,
    }
}

/// Appends the base classes of a class.
fn push_bases<'t>(
    table: Table<'_, 't>,
    fields: &[LayoutField<'t>],
    texts: &mut TextAllowance,
    head: &mut TextBuffer,
) -> Result<()> {
    let mut mark = b" : ".as_slice();
    for field in fields {
        if let Some((word, index)) = base_of(field) {
            head.push(mark);
            mark = b", ".as_slice();
            head.push(word.as_bytes());
            texts.push(table, index, b"", head)?;
        }
    }
    Ok(())
}

/// Appends the line with which the declaration of a class begins, without what is behind its brace.
pub(crate) fn push_head<'t>(
    table: Table<'_, 't>,
    fields: &[LayoutField<'t>],
    class: Option<&Class<'t>>,
    texts: &mut TextAllowance,
    head: &mut TextBuffer,
) -> Result<()> {
    if let Some(class) = class {
        head.push(class.word.as_bytes());
        head.push(b" ");
        head.push_escaped(class.name.as_bytes());
    }
    push_bases(table, fields, texts, head)?;
    head.push(b" {");
    Ok(())
}
