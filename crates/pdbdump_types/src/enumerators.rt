//! The enumerators of an enumeration.

use crate::table::Table;
use pdb_base::{RawString, Result, TypeIndex, Variant};
use pdb_types::enumerator_value;
use pdb_values::TypeData;

/// An enumerator.
#[derive(Clone, Copy)]
pub struct Enumerator<'t> {
    /// Its name.
    pub name: RawString<'t>,

    /// Its value.
    pub value: i128,
}

/// Returns the number that a value is.
fn number_of(value: Variant) -> i128 {
    match value {
        Variant::U8(number) => number as i128,
        Variant::U16(number) => number as i128,
        Variant::U32(number) => number as i128,
        Variant::U64(number) => number as i128,
        Variant::I8(number) => number as i128,
        Variant::I16(number) => number as i128,
        Variant::I32(number) => number as i128,
        Variant::I64(number) => number as i128,
    }
}

/// Returns the enumerators of a list over a type, in the order of their records. The list of index 0
/// has none.
///
/// # Errors
/// Fails as `OpenTable::fields` does.
pub fn enumerators_of<'t>(
    table: Table<'_, 't>,
    list: TypeIndex,
    underlying_type: TypeIndex,
) -> Result<Vec<Enumerator<'t>>> {
    let mut enumerators = Vec::new(table.alloc);
    if list.0 == 0 {
        return Ok(enumerators);
    }
    let records = table.definitions.types().fields(table.alloc, list)?;
    for record in &records {
        if let TypeData::Enumerate(enumerator) = record {
            enumerators.push(Enumerator {
                name: enumerator.name,
                value: number_of(enumerator_value(enumerator.value, underlying_type)),
            })?;
        }
    }
    Ok(enumerators)
}
