//! What is summed of a record.

use pdb_container::TypeData;

/// 1 and the length of the name of a record, if it has one.
pub fn name_size(data: &TypeData<'_>) -> u64 {
    match data.name() {
        Some(name) => (name.len() as u64).wrapping_add(1),
        None => 1,
    }
}

/// How many fields a record lists.
pub fn field_count(data: &TypeData<'_>) -> u64 {
    match data {
        TypeData::FieldList(list) => list.fields.len() as u64,
        _ => 0,
    }
}
