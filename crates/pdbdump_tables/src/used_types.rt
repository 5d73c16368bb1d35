//! The types to which the records that are listed refer.

use crate::name_search::NameSearch;
use crate::references::push_references;
use crate::selection::Selection;
use pdb_base::{Error, FallibleIterator, TypeIndex};
use pdb_tpi::{OpenTable, Type};
use pdb_types::Definitions;
use pdb_values::TypeData;
use pdbdump_types::Table;
use std::alloc::{AllocError, Global};

/// The types to which the records that are listed refer, and those to which one record refers.
#[derive(Drop)]
pub(crate) struct UsedTypes {
    /// The indexes of the types, in increasing order.
    indexes: Vec<u32>,

    /// The types to which the last record refers.
    references: Vec<TypeIndex>,
}

/// Returns whether a type defines the one of an index. One that can't be read is not defined.
fn is_defined_by(
    table: Table<'_, '_>,
    index: TypeIndex,
    definition: TypeIndex,
) -> Result<bool, AllocError> {
    match table.definitions.definition_of(table.alloc, index) {
        Ok(found) => Ok(found == Some(definition)),
        Err(Error::OutOfMemory) => Err(AllocError),
        Err(_) => Ok(false),
    }
}

/// Appends the forward references in a table that a type defines: none, if the table can't be walked
/// to its end.
fn push_declared(
    alloc: Global,
    types: &OpenTable<TypeIndex>,
    definition: TypeIndex,
    found: &mut Vec<u32>,
) -> Result<(), AllocError> {
    let definitions = match Definitions::new(alloc, types) {
        Ok(definitions) => definitions,
        Err(Error::OutOfMemory) => return Err(AllocError),
        Err(_) => return Ok(()),
    };
    let table = Table {
        alloc,
        definitions: &definitions,
    };
    let mut items = types.items().iter();
    while let Ok(Some(item)) = items.next() {
        if is_defined_by(table, item.index(), definition)? {
            found.push(item.index().0)?;
        }
    }
    Ok(())
}

/// Returns whether a type has one of the names. One that can't be read has none.
fn is_named(
    alloc: Global,
    item: &Type<'_>,
    names: &mut NameSearch<'_, '_>,
) -> Result<bool, AllocError> {
    match item.parse(alloc) {
        Ok(value) => names.takes(alloc, value.name()),
        Err(Error::OutOfMemory) => Err(AllocError),
        Err(_) => Ok(false),
    }
}

/// Appends the types in a table that have one of the names, forward references among them.
fn push_named(
    alloc: Global,
    types: &OpenTable<TypeIndex>,
    names: &mut NameSearch<'_, '_>,
    found: &mut Vec<u32>,
) -> Result<(), AllocError> {
    let mut items = types.items().iter();
    while let Ok(Some(item)) = items.next() {
        if is_named(alloc, &item, names)? {
            found.push(item.index().0)?;
        }
    }
    Ok(())
}

impl UsedTypes {
    /// Returns that no type is used.
    pub(crate) fn none(alloc: Global) -> Self {
        UsedTypes {
            indexes: Vec::new(alloc),
            references: Vec::new(alloc),
        }
    }

    /// Finds the types of a table to which the records of a selection refer, and notes which of their
    /// names were found.
    ///
    /// # Errors
    /// Fails if an allocation fails.
    pub(crate) fn find(
        &mut self,
        alloc: Global,
        types: &OpenTable<TypeIndex>,
        selection: &Selection<'_, '_>,
        names: &mut NameSearch<'_, '_>,
    ) -> Result<(), AllocError> {
        if let Some(index) = selection.uses {
            self.indexes.push(index.0)?;
            push_declared(alloc, types, index, &mut self.indexes)?;
            self.indexes.sort_unstable();
        } else if !selection.used_names.is_empty() {
            push_named(alloc, types, names, &mut self.indexes)?;
        }
        Ok(())
    }

    /// Returns whether a record refers to one of the types.
    ///
    /// # Errors
    /// Fails if an allocation fails.
    pub(crate) fn has_reference(&mut self, value: &TypeData<'_>) -> Result<bool, AllocError> {
        self.references.clear();
        push_references(value, &mut self.references)?;
        let indexes = &self.indexes;
        Ok(
            self.references
                .iter()
                .any(|index| indexes.binary_search(&index.0).is_ok()),
        )
    }
}
