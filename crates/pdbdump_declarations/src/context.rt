//! What all parts of a header are written by.

use crate::naming::{Name, Naming};
use crate::options::Language;
use crate::table_walk::{Named, named_of};
use pdb_base::{Result, TypeIndex};
use pdbdump_types::{Table, type_at};

/// What all parts of a header are written by.
#[derive(Clone, Copy)]
pub(crate) struct Context<'d, 't> {
    /// The types.
    pub(crate) table: Table<'d, 't>,

    /// How they are called.
    pub(crate) naming: &'d Naming,

    /// The language of the header.
    pub(crate) language: Language,

    /// How many bytes a pointer has in the program.
    pub(crate) pointer_size: u64,
}

/// A type with what a header calls it.
#[derive(Drop)]
pub(crate) struct Target<'t> {
    /// The index of its definition, or that by which it is referred to if it has none.
    pub(crate) index: TypeIndex,

    /// What its record says of its name.
    pub(crate) named: Named<'t>,

    /// What the header calls it.
    pub(crate) name: Name,
}

impl<'d, 't> Context<'d, 't> {
    /// Returns whether the header is in C.
    pub(crate) fn is_c(&self) -> bool {
        self.language == Language::C
    }

    /// Returns what a header calls the class, the union or the enumeration of an index, or None for
    /// another type.
    ///
    /// # Errors
    /// Fails as `Definitions::definition_of` does.
    pub(crate) fn target(&self, index: TypeIndex) -> Result<Option<Target<'t>>> {
        let definition = self
            .table
            .definitions
            .definition_of(self.table.alloc, index)?;
        let index = definition.unwrap_or(index);
        let Some(named) = named_of(&self.table.type_at(index)?) else {
            return Ok(None);
        };
        let name = self.naming.name_of(self.table.alloc, index, &named)?;
        Ok(Some(Target { index, named, name }))
    }
}
