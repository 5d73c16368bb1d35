//! Lists of fields.

ghost use Rattle.std.specs.{Prelude.◌≡◌, Prelude.List, Prelude.map, Prelude.Ok, Option.option_map};
ghost use Rattle.pdb_base.specs.Answer.{Answer, Answers};
ghost use Rattle.pdb_values.specs.{Text.text_bytes, TypeValue.TypeValue, TypeView.type_value};
ghost use Rattle.pdb_handles.specs.Fields.{field_info, field_name, fields_listed, listing, listing_of, name_bytes};
ghost use Rattle.pdb_handles.specs.Listing.{listing_view};

use crate::copied::{Listing, push_name};
use crate::frames::flag;
use crate::row::Row;
use pdb_base::{RawString, Result, TypeIndex};
use pdb_types::OpenTypes;
use pdb_values::TypeData;
use std::alloc::Global;

/// A field of a class, a union or an enumeration: its numbers, and where its name is.
#[repr(C)]
#[derive(Clone, Copy)]
pub struct FieldRow {
    /// What its record says.
    pub info: Row,
    /// The number of bytes before its name among the names.
    pub name_offset: usize,
    /// The length of its name in bytes, 0 if it has none.
    pub name_length: usize,
    /// Whether it has a name, as 0 or 1.
    pub has_name: u32,
}

/// Returns the name of a field, if it has one. A method has one, although `TypeData::name` gives none.
fn field_name<'t>(field: &TypeData<'t>) -> Option<RawString<'t>>
    ensures { option_map text_bytes result ≡ field_name (type_value field.now) }
{
    match field {
        TypeData::Method(method) => Some(method.name),
        _ => field.name(),
    }
}

/// Returns the bytes of a field's name, none if it has no name.
fn name_bytes<'t>(field: &TypeData<'t>) -> &'t [u8]
    ensures { result.now ≡ name_bytes (type_value field.now) }
{
    match field_name(field) {
        Some(name) => name.as_bytes(),
        None => &[],
    }
}

/// Returns the `FieldRow` of a field, whose name begins here.
fn field_row(here: usize, field: &TypeData<'_>) -> FieldRow
    ensures { result ≡ field_info here (type_value field.now) }
{
    FieldRow {
        info: Row::of_type(field),
        name_offset: here,
        name_length: name_bytes(field).len(),
        has_name: flag(field_name(field).is_some()),
    }
}

/// Collects a `FieldRow` for each field, and their names.
#[tactic(auto, unfolding(crate::specs::Listing::placed_rows))]
fn collect_fields(alloc: Global, fields: &[TypeData<'_>]) -> Result<Listing<FieldRow>>
    ensures { Answers listing_view result (Ok (listing (map type_value fields.now))) }
{
    let mut rows = Vec::with_capacity(alloc, fields.len())?;
    let mut names = Vec::new(alloc);
    for field in fields {
        rows.push(field_row(names.len(), field))?;
        push_name(&mut names, name_bytes(field))?;
    }
    Ok(Listing { rows, names })
}

/// Collects all fields that were found, for the caller.
fn listing_found(
    alloc: Global,
    found: Result<Vec<TypeData<'_>>>,
) -> Result<Option<Listing<FieldRow>>>
    ensures { (meant : Answer (List TypeValue)) → Answers (λ fields. map type_value fields.items) found.entry meant
        → Answers (option_map listing_view) result (listing_of meant) }
{
    Ok(Some(collect_fields(alloc, &found?)?))
}

/// Returns the fields of a list, and if it is asked `whole` of the lists in which it continues, for
/// the caller.
///
/// # Errors
/// Fails as `OpenTable::fields`, or `OpenTable::item` and `Type::parse` do.
#[tactic(auto, using(crate::proofs::FieldsLemmas::fields_seen))]
pub fn listed_fields(
    types: &mut OpenTypes,
    alloc: Global,
    index: u32,
    whole: bool,
) -> Result<Option<Listing<FieldRow>>>
    ensures fields { Answers (option_map listing_view) result (fields_listed whole types.old.table index) }
    ensures kept { types.new ≡ types.old }
{
    types.learn(TypeIndex(index));
    if whole {
        return listing_found(alloc, types.table().fields(alloc, TypeIndex(index)));
    }
    let item = types.table().item(TypeIndex(index))?;
    match item.parse(alloc)? {
        TypeData::FieldList(list) => Ok(Some(collect_fields(alloc, &list.fields)?)),
        _ => Ok(None),
    }
}
