//! The parts of a definition that came, went or changed.

use crate::pairing::Pairing;
use crate::part::{Part, hash_of_part, parts_of};
use crate::version::Version;
use pdb_base::{Result, TypeIndex};
use pdb_types::{FieldKind, LayoutField};
use pdbdump_types::{Enumerator, Table, TextAllowance};
use std::alloc::Global;

/// A part that came, went or changed: as it was, and as it is.
#[derive(Clone, Copy)]
pub(crate) struct PartChange<'t> {
    /// As it was, unless it came.
    pub(crate) old: Option<Part<'t>>,

    /// As it is, unless it went.
    pub(crate) new: Option<Part<'t>>,
}

/// Returns whether two enumerators have one name and one value.
fn are_same_enumerators(old: &Enumerator<'_>, new: &Enumerator<'_>) -> bool {
    old.name.as_bytes() == new.name.as_bytes() && old.value == new.value
}

/// Returns whether two types have one text, all of which is there.
fn have_one_text(
    old: Table<'_, '_>,
    old_type: TypeIndex,
    new: Table<'_, '_>,
    new_type: TypeIndex,
    texts: &mut TextAllowance,
) -> Result<bool> {
    let old_text = texts.text(old, old_type, b"")?;
    let new_text = texts.text(new, new_type, b"")?;
    Ok(!old_text.is_cut && old_text.bytes.as_slice() == new_text.bytes.as_slice())
}

/// Returns whether two fields are of one kind, and have the same name if they are members. Of base
/// classes and of pointers to tables of virtual bases, the types that they name are compared.
fn are_namesakes(
    old: Table<'_, '_>,
    old_field: &LayoutField<'_>,
    new: Table<'_, '_>,
    new_field: &LayoutField<'_>,
    texts: &mut TextAllowance,
) -> Result<bool> {
    let (old_type, new_type) = (old_field.place.field_type, new_field.place.field_type);
    match (old_field.place.kind, new_field.place.kind) {
        (FieldKind::Member(name), FieldKind::Member(other)) => {
            Ok(name.as_bytes() == other.as_bytes())
        }
        (FieldKind::Base, FieldKind::Base) => { have_one_text(old, old_type, new, new_type, texts) }
        (FieldKind::VirtualBasePointer(base), FieldKind::VirtualBasePointer(other)) => {
            Ok(
                base.direct == other.direct
                    && base.position == other.position
                    && have_one_text(old, base.base_class, new, other.base_class, texts)?,
            )
        }
        (FieldKind::VirtualFunctionPointer, FieldKind::VirtualFunctionPointer) => Ok(true),
        _ => Ok(false),
    }
}

/// Returns whether two fields are the same: in name, place and extent, and unless only layouts count
/// in the text of their types.
fn are_same_fields(
    old: Table<'_, '_>,
    old_field: &LayoutField<'_>,
    new: Table<'_, '_>,
    new_field: &LayoutField<'_>,
    is_layout_only: bool,
    texts: &mut TextAllowance,
) -> Result<bool> {
    if old_field.place.offset != new_field.place.offset || old_field.extent != new_field.extent {
        return Ok(false);
    }
    if !are_namesakes(old, old_field, new, new_field, texts)? {
        return Ok(false);
    }
    if is_layout_only {
        return Ok(true);
    }
    let (old_type, new_type) = (old_field.place.field_type, new_field.place.field_type);
    have_one_text(old, old_type, new, new_type, texts)
}

/// Returns whether two parts are the same.
fn are_same(
    old: &Version<'_, '_>,
    old_part: &Part<'_>,
    new: &Version<'_, '_>,
    new_part: &Part<'_>,
    is_layout_only: bool,
    texts: &mut TextAllowance,
) -> Result<bool> {
    match (old_part, new_part) {
        (Part::Field(old_field), Part::Field(new_field)) => are_same_fields(
            old.table,
            old_field,
            new.table,
            new_field,
            is_layout_only,
            texts,
        ),
        (Part::Enumerator(old_value), Part::Enumerator(new_value)) => {
            Ok(are_same_enumerators(old_value, new_value))
        }
        _ => Ok(false),
    }
}

/// Returns the hashes by which the parts of a definition are paired with others.
fn hashes_of(
    alloc: Global,
    version: &Version<'_, '_>,
    parts: &[Part<'_>],
    texts: &mut TextAllowance,
) -> Result<Vec<u64>> {
    let mut hashes = Vec::with_capacity(alloc, parts.len())?;
    for part in parts {
        hashes.push(hash_of_part(version.table, part, texts)?)?;
    }
    Ok(hashes)
}

/// Returns the parts that differ between two definitions: those that went or changed in the order of
/// the old one, and then those that came, in the order of the new one.
///
/// # Errors
/// Fails as `parts_of` does for either, and as `Definitions::type_text` does for the types of parts.
pub(crate) fn part_changes<'t>(
    alloc: Global,
    old: &Version<'_, 't>,
    new: &Version<'_, 't>,
    is_layout_only: bool,
    texts: &mut TextAllowance,
) -> Result<Vec<PartChange<'t>>> {
    let old_parts = parts_of(old.table, old.index, &old.defined)?;
    let new_parts = parts_of(new.table, new.index, &new.defined)?;
    let old_hashes = hashes_of(alloc, old, &old_parts, texts)?;
    let new_hashes = hashes_of(alloc, new, &new_parts, texts)?;
    let pairing = Pairing::of(alloc, &old_hashes, &new_hashes)?;
    let mut changes = Vec::new(alloc);
    for (number, part) in old_parts.iter().enumerate() {
        let other = pairing
            .second(number)
            .and_then(|other| new_parts.get(other));
        let is_same = match other {
            Some(other) => are_same(old, part, new, other, is_layout_only, texts)?,
            None => false,
        };
        if !is_same {
            changes.push(PartChange {
                old: Some(*part),
                new: other.copied(),
            })?;
        }
    }
    for (number, part) in new_parts.iter().enumerate() {
        if !pairing.is_paired(number) {
            changes.push(PartChange {
                old: None,
                new: Some(*part),
            })?;
        }
    }
    Ok(changes)
}
