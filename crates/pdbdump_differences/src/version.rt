//! A definition in one of two tables that are compared.

use pdb_base::{Result, TypeIndex};
use pdbdump_types::{Defined, Table, defined_by};

/// A definition in one of two tables that are compared.
#[derive(Clone, Copy)]
pub(crate) struct Version<'d, 't> {
    /// The table.
    pub(crate) table: Table<'d, 't>,

    /// The index of the definition.
    pub(crate) index: TypeIndex,

    /// What its record says of it.
    pub(crate) defined: Defined<'t>,
}

impl<'d, 't> Version<'d, 't> {
    /// Returns the definition with an index, or None if the type of that index is no definition.
    ///
    /// # Errors
    /// Fails as `OpenTable::item` and `Type::parse` do.
    pub(crate) fn at(table: Table<'d, 't>, index: TypeIndex) -> Result<Option<Self>> {
        let value = table.type_at(index)?;
        let Some(defined) = defined_by(&value) else {
            return Ok(None);
        };
        Ok(Some(Version {
            table,
            index,
            defined,
        }))
    }
}
