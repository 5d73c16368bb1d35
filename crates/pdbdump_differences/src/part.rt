//! The parts of a definition: the fields of a class or a union, and the enumerators of an
//! enumeration.

use crate::pairing::hash_of;
use pdb_base::{Result, TypeIndex};
use pdb_types::{FieldKind, LayoutField};
use pdbdump_types::{Defined, Enumerator, Table, TextAllowance, enumerators_of};

/// A part of a definition.
#[derive(Clone, Copy)]
pub(crate) enum Part<'t> {
    /// A field of a class or a union.
    Field(LayoutField<'t>),

    /// An enumerator.
    Enumerator(Enumerator<'t>),
}

/// Returns the enumerators of a list, over a type.
fn enumerators<'t>(
    table: Table<'_, 't>,
    list: TypeIndex,
    underlying_type: TypeIndex,
) -> Result<Vec<Part<'t>>> {
    let mut parts = Vec::new(table.alloc);
    for enumerator in &enumerators_of(table, list, underlying_type)? {
        parts.push(Part::Enumerator(*enumerator))?;
    }
    Ok(parts)
}

/// Returns the fields of a class or a union.
fn fields<'t>(table: Table<'_, 't>, index: TypeIndex) -> Result<Vec<Part<'t>>> {
    let mut parts = Vec::new(table.alloc);
    if let Some(layout) = table.definitions.layout_of(table.alloc, index)? {
        for field in &layout.fields {
            parts.push(Part::Field(*field))?;
        }
    }
    Ok(parts)
}

/// Returns the parts of the definition with this index, in the order of their records.
///
/// # Errors
/// Fails as `Definitions::layout_of` does for a class or a union, as `OpenTable::fields` does for
/// an enumeration, and with `OutOfMemory` if an allocation fails.
pub(crate) fn parts_of<'t>(
    table: Table<'_, 't>,
    index: TypeIndex,
    defined: &Defined<'t>,
) -> Result<Vec<Part<'t>>> {
    match defined.enumeration {
        Some((list, underlying_type)) => enumerators(table, list, underlying_type),
        None => fields(table, index),
    }
}

/// Returns the hash of what a part is called: its name, or for a base class and a pointer to a table
/// of virtual bases that of the base class.
///
/// # Errors
/// Fails as `Definitions::type_text` does for the base class.
pub(crate) fn hash_of_part(
    table: Table<'_, '_>,
    part: &Part<'_>,
    texts: &mut TextAllowance,
) -> Result<u64> {
    let field = match part {
        Part::Enumerator(enumerator) => return Ok(hash_of(0, enumerator.name.as_bytes())),
        Part::Field(field) => field,
    };
    let (kind, base) = match field.place.kind {
        FieldKind::Member(name) => return Ok(hash_of(0, name.as_bytes())),
        FieldKind::Base => (1, field.place.field_type),
        FieldKind::VirtualBasePointer(base) => (2, base.base_class),
        FieldKind::VirtualFunctionPointer => return Ok(hash_of(3, b"")),
    };
    Ok(hash_of(kind, &texts.bytes(table, base, b"")?))
}
