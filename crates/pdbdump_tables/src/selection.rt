//! Which records of a table are listed.

use crate::search::Search;
use pdb_base::TypeIndex;
use pdb_values::{IdData, TypeData, leaf_name};
use std::alloc::{AllocError, Global};

/// Which records of a table are listed: those of which all holds that is given, and one of the names.
#[derive(Clone, Copy)]
pub struct Selection<'m, 'w> {
    /// The names of the records, in which `*` and `?` are allowed, or none for any name.
    pub names: &'m [&'w str],

    /// Whether ASCII letters of names match in either case.
    pub ignores_case: bool,

    /// The names of the record kinds, or none for any kind.
    pub kinds: &'m [&'w str],

    /// Whether forward references are left out.
    pub leaves_out_forward: bool,

    /// The type to which the records refer, or to a forward reference that it defines; or None for
    /// any.
    pub uses: Option<TypeIndex>,

    /// The names of the types to which the records refer, with `*` and `?`, or none for any type.
    pub used_names: &'m [&'w str],
}

impl Selection<'_, '_> {
    /// Returns whether a kind of records is among those that are listed.
    pub(crate) fn has_kind(&self, leaf: u16) -> bool {
        if self.kinds.is_empty() {
            return true;
        }
        match leaf_name(leaf) {
            Some(name) => self.kinds.iter().any(|kind| *kind == name),
            None => false,
        }
    }

    /// Returns whether no record of a kind is listed, nor any name or reference looked for.
    pub(crate) fn leaves_out_kind(&self, leaf: u16) -> bool {
        self.names.is_empty() && !self.has_used() && !self.has_kind(leaf)
    }

    /// Returns whether a record that can't be read is listed: not if its name or what it refers to
    /// matters.
    pub(crate) fn has_unread(&self, leaf: u16) -> bool {
        self.names.is_empty() && !self.has_used() && self.has_kind(leaf)
    }

    /// Returns whether it matters to which types a record refers.
    fn has_used(&self) -> bool {
        self.uses.is_some() || !self.used_names.is_empty()
    }

    /// Returns whether a type is listed, whose record is of this kind.
    ///
    /// # Errors
    /// Fails if an allocation fails.
    pub(crate) fn has_type(
        &self,
        alloc: Global,
        leaf: u16,
        value: &TypeData<'_>,
        search: &mut Search<'_, '_>,
    ) -> Result<bool, AllocError> {
        if !search.names.takes(alloc, value.name())? || !self.has_kind(leaf) {
            return Ok(false);
        }
        if self.leaves_out_forward && is_forward(value) {
            return Ok(false);
        }
        Ok(!self.has_used() || search.used.has_reference(value)?)
    }

    /// Returns whether an id is listed, whose record is of this kind.
    ///
    /// # Errors
    /// Fails if an allocation fails.
    pub(crate) fn has_id(
        &self,
        alloc: Global,
        leaf: u16,
        value: &IdData<'_>,
        search: &mut Search<'_, '_>,
    ) -> Result<bool, AllocError> {
        Ok(search.names.takes(alloc, value.name())? && self.has_kind(leaf))
    }
}

/// Returns whether a type is a forward reference.
fn is_forward(value: &TypeData<'_>) -> bool {
    match value {
        TypeData::Class(class) => class.properties.forward_reference(),
        TypeData::Union(union_type) => union_type.properties.forward_reference(),
        TypeData::Enumeration(enumeration) => enumeration.properties.forward_reference(),
        _ => false,
    }
}
