//! The definitions of the types of a table, by their names.

ghost use Rattle.std.specs.Prelude.{◌≡◌, true, map, Ok};
ghost use Rattle.std.specs.Option.{option_map};
ghost use Rattle.pdb_base.specs.Answer.{Answers};
ghost use Rattle.pdb_types.specs.Declaration.{source_name, type_name};
ghost use Rattle.pdb_types.specs.Definition.{all_definitions, defines, definition_by, definition_of, first_definition};
ghost use Rattle.pdb_types.specs.Definition.{whole_table};
ghost use Rattle.pdb_types.specs.DefinitionIndex.{IsIndexOf};
ghost use Rattle.pdb_types.specs.Numbering.{is_numbered, numbering_of};
ghost use Rattle.pdb_types.specs.Shortcut.{IsAsLarge};
ghost use Rattle.pdb_types.specs.TypeAt.{type_at};
ghost use Rattle.pdb_values.specs.TypeView.{type_value};

use crate::declaration::declaration_of;
use crate::definition_index::{DefinitionIndex, KeptIndex};
use crate::numbering::Numbering;
use crate::shortcut::end_of;
use crate::type_at::type_at;
use crate::type_name::TypeName;
use pdb_base::{Error, Result, TypeIndex};
use pdb_tpi::OpenTable;
use pdb_values::TypeData;
use std::alloc::Global;
use std::marker::Model;

/// The definitions of the classes, unions and enumerations of a table, which are found by their
/// names.
///
/// It keeps 8 bytes for each unique name of a definition, and as many for each name that the source
/// gives one if a forward reference of the table has no other name. It keeps no names: it reads
/// those again from the table. So let the table first learn where its items begin, up to its last
/// index (`OpenTable::learn`); otherwise each look-up walks along the table.
#[derive(Debug, Drop)]
pub struct Definitions<'t> {
    types: &'t OpenTable<TypeIndex>,
    index: KeptIndex<'t>,
}

impl<'t> Model for Definitions<'t> {
    ghost use Rattle.pdb_tpi.specs.Table.{Table};
    ghost use Rattle.pdb_types.specs.DefinitionIndex.{IsIndexOf, index_kept};

    ghost Value = { Table };

    ghost view = { λ d. d.types.now.table };

    ghost invariant = { λ d. IsIndexOf d.types.now.table (index_kept d.index) };
}

impl<'t> Definitions<'t> {
    /// Finds the definitions of a table in one walk along it.
    ///
    /// A record that can't be read defines nothing.
    ///
    /// # Errors
    /// Fails with the fault at which the walk stops if that is before the end of the table, and
    /// with `OutOfMemory` if an allocation fails.
    pub fn new(alloc: Global, types: &'t OpenTable<TypeIndex>) -> Result<Self>
        ensures { Answers (λ definitions. definitions) result (whole_table types.now.table) }
    {
        let index = KeptIndex::Own(DefinitionIndex::new(alloc, types)?);
        Ok(Definitions { types, index })
    }

    /// Returns the definitions of a table whose index another keeps.
    pub(crate) fn borrow_from(types: &'t OpenTable<TypeIndex>, index: &'t DefinitionIndex) -> Self
        requires { IsIndexOf types.now.table index.now }
        ensures { result ≡ types.now.table }
    {
        let index = KeptIndex::Lent(index);
        Definitions { types, index }
    }

    /// Returns the table.
    pub fn types(&self) -> &'t OpenTable<TypeIndex>
        ensures { result.now.table ≡ self.now }
    {
        self.types
    }

    /// Returns the index of the table.
    fn index(&self) -> &DefinitionIndex
        ensures { IsIndexOf self.now result.now }
    {
        self.index.get()
    }

    /// Returns the type to which a shortcut leads from a type, or that type itself if none does.
    pub(crate) fn along_shortcut(&self, index: TypeIndex) -> TypeIndex
        ensures { IsAsLarge self.now index.0 result.0 }
    {
        end_of(self.index().shortcuts(), index)
    }

    /// Returns whether the type of an index is a definition of a name.
    fn defines(&self, alloc: Global, index: TypeIndex, name: TypeName<'_>) -> Result<bool>
        ensures { Answers (λ is. is) result (Ok (defines (type_name name.entry) (type_at self.now index.0))) }
    {
        match type_at(self.types, alloc, index) {
            Ok(value) => match declaration_of(&value) {
                Some(names) => Ok(!names.is_forward() && names.bears(name)),
                None => Ok(false),
            },
            Err(Error::OutOfMemory) => Err(Error::OutOfMemory),
            Err(_) => Ok(false),
        }
    }

    /// Returns the first definition of a name that is numbered.
    fn first_numbered(
        &self,
        alloc: Global,
        names: &DefinitionIndex,
        name: TypeName<'_>,
    ) -> Result<Option<TypeIndex>>
        requires of_table { IsIndexOf self.now names.now }
        requires numbered { is_numbered names.now.numbering (type_name name) ≡ true }
        ensures { Answers (option_map (λ index. index.0)) result
            (Ok (first_definition self.now (type_name name.entry))) }
    {
        let numbering = names.numbering;
        let first = numbering.first(name);
        let candidates = names.candidates(first);
        for candidate in candidates {
            let index = numbering.index(first, *candidate);
            if self.defines(alloc, index, name)? {
                return Ok(Some(index));
            }
        }
        Ok(None)
    }

    /// Returns the indexes of all definitions of a name that is numbered, in increasing order.
    fn all_numbered(
        &self,
        alloc: Global,
        names: &DefinitionIndex,
        name: TypeName<'_>,
    ) -> Result<Vec<TypeIndex>>
        requires of_table { IsIndexOf self.now names.now }
        requires numbered { is_numbered names.now.numbering (type_name name) ≡ true }
        ensures { Answers (λ found. map (λ index. index.0) found.items) result
            (Ok (all_definitions self.now (type_name name.entry))) }
    {
        let numbering = names.numbering;
        let first = numbering.first(name);
        let candidates = names.candidates(first);
        let mut found = Vec::new(alloc);
        // A definition has two numbers in the row if both of its names do.
        let mut next = numbering.least as u64;
        for candidate in candidates {
            let index = numbering.index(first, *candidate);
            let number = index.0 as u64;
            if number < next {
                continue;
            }
            next = number + 1;
            if !self.defines(alloc, index, name)? {
                continue;
            }
            found.push(index)?;
        }
        Ok(found)
    }

    /// Returns the indexes of all definitions of a name, in increasing order, from the records of
    /// the whole table.
    fn all_in_table(
        &self,
        alloc: Global,
        numbering: Numbering,
        name: TypeName<'_>,
    ) -> Result<Vec<TypeIndex>>
        requires { numbering ≡ numbering_of self.now numbering.has_source_names }
        ensures { Answers (λ found. map (λ index. index.0) found.items) result
            (Ok (all_definitions self.now (type_name name.entry))) }
    {
        let mut found = Vec::new(alloc);
        for above in 0..numbering.most as u64 + 1 {
            let index = TypeIndex(numbering.least + above as u32);
            if self.defines(alloc, index, name)? {
                found.push(index)?;
            }
        }
        Ok(found)
    }

    /// Returns the indexes of all definitions of a name, in increasing order.
    fn all_of(&self, alloc: Global, name: TypeName<'_>) -> Result<Vec<TypeIndex>>
        ensures { Answers (λ found. map (λ index. index.0) found.items) result
            (Ok (all_definitions self.now (type_name name.entry))) }
    {
        let names = self.index();
        if names.numbering.has(name) {
            self.all_numbered(alloc, names, name)
        } else {
            self.all_in_table(alloc, names.numbering, name)
        }
    }

    /// Returns the first definition of a name.
    fn first_definition(&self, alloc: Global, name: TypeName<'_>) -> Result<Option<TypeIndex>>
        ensures { Answers (option_map (λ index. index.0)) result
            (Ok (first_definition self.now (type_name name.entry))) }
    {
        let names = self.index();
        if names.numbering.has(name) {
            return self.first_numbered(alloc, names, name);
        }
        let all = self.all_in_table(alloc, names.numbering, name)?;
        Ok(all.first().copied())
    }

    /// Returns the definition of the type of an index, whose record says this.
    pub(crate) fn definition_by(
        &self,
        alloc: Global,
        index: TypeIndex,
        value: &TypeData<'_>,
    ) -> Result<Option<TypeIndex>>
        ensures { Answers (option_map (λ index. index.0)) result
            (Ok (definition_by self.now index.0 (type_value value.now))) }
    {
        match declaration_of(value) {
            Some(names) if names.is_forward() => self.first_definition(alloc, names.sought_name()),
            Some(_) => Ok(Some(index)),
            None => Ok(None),
        }
    }

    /// Returns the definition of a class, a union or an enumeration: the index itself, or for a
    /// forward reference that of the first type in the table that defines its unique name, or its
    /// name if it has no unique name. Returns None for a forward reference that the table doesn't
    /// define, and for any other type.
    ///
    /// # Errors
    /// Fails as `OpenTable::item` and `Type::parse` do, and with `OutOfMemory` if an allocation
    /// fails.
    #[tactic(auto, unfolding(crate::specs::Definition::definition_of))]
    pub fn definition_of(&self, alloc: Global, index: TypeIndex) -> Result<Option<TypeIndex>>
        ensures { Answers (option_map (λ index. index.0)) result (definition_of self.now index.0) }
    {
        let value = type_at(self.types, alloc, index)?;
        self.definition_by(alloc, index, &value)
    }

    /// Returns the indexes of all definitions of a name in increasing order. The name is the one
    /// that the source gives a class, a union or an enumeration, with the names of the scopes
    /// around it, as the record has it.
    ///
    /// # Errors
    /// Fails only with `OutOfMemory`, if an allocation fails.
    pub fn all_definitions(&self, alloc: Global, name: &[u8]) -> Result<Vec<TypeIndex>>
        ensures { Answers (λ found. map (λ index. index.0) found.items) result
            (Ok (all_definitions self.now (source_name name.now))) }
    {
        self.all_of(alloc, TypeName::Source(name))
    }
}
