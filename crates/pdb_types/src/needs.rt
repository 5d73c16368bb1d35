//! The definitions that a definition needs by value, so that they have to be declared before it.

ghost use Rattle.std.specs.Prelude.{◌≡◌, [], map};
ghost use Rattle.std.specs.Option.{option_map};
ghost use Rattle.pdb_base.specs.Answer.{Answers};
ghost use Rattle.pdb_base.specs.Memory.{FailsOnlyForMemory};
ghost use Rattle.pdb_values.specs.TypeView.{type_value};
ghost use Rattle.pdb_types.specs.Needs.{held_definition, inner_type, need_of, needs_of, numbers, part_type};
ghost use Rattle.pdb_types.specs.Needs.{readable_needs, with_need, with_needs};

use crate::definitions::Definitions;
use crate::part::MOST_WITHIN;
use crate::type_at::type_at;
use pdb_base::{Error, Result, TypeIndex};
use pdb_values::TypeData;
use std::alloc::Global;

/// Returns the type that is within a type by value: that of the elements of an array, the one that
/// a modifier modifies, or the one whose bits a bit field takes.
fn inner_type(value: &TypeData<'_>) -> Option<TypeIndex>
    ensures { result ≡ inner_type (type_value value.now) }
{
    match value {
        TypeData::Modifier(modifier) => Some(modifier.underlying_type),
        TypeData::Bitfield(field) => Some(field.underlying_type),
        TypeData::Array(array) => Some(array.element_type),
        _ => None,
    }
}

/// Returns the type of which a class has a value in it, by a record in its list of fields: a base
/// class, virtual or not, or the type of a data member.
fn part_type(value: &TypeData<'_>) -> Option<TypeIndex>
    ensures { result ≡ part_type (type_value value.now) }
{
    match value {
        TypeData::BaseClass(base) => Some(base.base_class),
        TypeData::VirtualBaseClass(base) => Some(base.base_class),
        TypeData::Member(member) => Some(member.field_type),
        _ => None,
    }
}

impl<'t> Definitions<'t> {
    /// Returns the definition that a value of the type of an index has in it: that of the type, or of
    /// what is within it, through at most 63 modifiers, arrays and bit fields. Returns None if there
    /// is no such definition.
    ///
    /// # Errors
    /// Fails as `OpenTable::item` and `Type::parse` do for these types, and with `OutOfMemory` if an
    /// allocation fails.
    #[tactic(auto, unfolding(crate::specs::Needs::held_definition))]
    pub fn held_definition(&self, alloc: Global, index: TypeIndex) -> Result<Option<TypeIndex>>
        ensures { Answers (option_map (λ index. index.0)) result (held_definition self.now index.0) }
    {
        let mut index = index;
        for _ in 0..MOST_WITHIN {
            let value = type_at(self.types(), alloc, index)?;
            match inner_type(&value) {
                Some(inner) => index = inner,
                None => return self.definition_by(alloc, index, &value),
            }
        }
        Ok(None)
    }

    /// Appends the definition that a class needs by a record in its list of fields, if it needs
    /// one.
    #[tactic(auto, unfolding(crate::specs::Needs::need_of))]
    fn push_need(
        &self,
        alloc: Global,
        value: &TypeData<'_>,
        needs: &mut Vec<TypeIndex>,
    ) -> Result<()>
        ensures { Answers (λ done. numbers needs.new.items) result
            (with_need (numbers needs.old.items) (need_of self.now (type_value value.now))) }
    {
        let Some(part) = part_type(value) else {
            return Ok(());
        };
        let Some(need) = self.held_definition(alloc, part)? else {
            return Ok(());
        };
        needs.push(need)?;
        Ok(())
    }

    /// Returns the definitions that a class needs by records, in order.
    fn needs_in(&self, alloc: Global, records: &[TypeData<'_>]) -> Result<Vec<TypeIndex>>
        ensures { Answers (λ needs. numbers needs.items) result
            (with_needs self.now [] (map type_value records.now)) }
    {
        let mut needs = Vec::new(alloc);
        for value in records {
            self.push_need(alloc, value, &mut needs)?;
        }
        Ok(needs)
    }

    /// Returns the definitions that the type of an index needs by value, in the order of its
    /// records: those of its base classes, also of virtual ones, and of the types of its data
    /// members. A member of an array needs the definition of the elements, one of a type with a
    /// modifier that of the type without, and a bit field that of its type; this goes through at
    /// most 63 such types, beyond which nothing is needed. A definition may stand there more than
    /// once. An enumeration and any other type need none, and what a table only declares isn't
    /// among them.
    ///
    /// # Errors
    /// Fails with the first error along the records: those of `definition_of`, those of
    /// `OpenTable::fields`, and then those of `OpenTable::item` and `Type::parse` for the types of
    /// each base class and member. Fails with `OutOfMemory` if an allocation fails.
    #[tactic(auto, unfolding(crate::specs::Needs::needs_of))]
    pub fn needs_of(&self, alloc: Global, index: TypeIndex) -> Result<Vec<TypeIndex>>
        ensures { Answers (λ needs. numbers needs.items) result (needs_of self.now index.0) }
    {
        let Some(body) = self.class_at(alloc, index)? else {
            return Ok(Vec::new(alloc));
        };
        let records = self.records_of(alloc, body.list)?;
        self.needs_in(alloc, &records)
    }

    /// Returns the definitions that the type of an index needs, or none if these can't be read.
    #[tactic(auto, unfolding(crate::specs::Needs::readable_needs))]
    pub(crate) fn readable_needs(&self, alloc: Global, index: TypeIndex) -> Result<Vec<TypeIndex>>
        ensures needs { Answers (λ needs. numbers needs.items) result (readable_needs self.now index.0) }
        ensures memory { FailsOnlyForMemory result }
    {
        match self.needs_of(alloc, index) {
            Ok(needs) => Ok(needs),
            Err(Error::OutOfMemory) => Err(Error::OutOfMemory),
            Err(_) => Ok(Vec::new(alloc)),
        }
    }
}
