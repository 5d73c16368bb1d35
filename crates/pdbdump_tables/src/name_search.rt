//! Names that are looked for in a table.

use pdb_base::RawString;
use pdbdump_types::{matches, matches_ignoring_case};
use std::alloc::{AllocError, Global};

/// The names that are looked for, in which `*` and `?` are allowed, and which of them were found.
#[derive(Drop)]
pub struct NameSearch<'m, 'w> {
    /// The names.
    names: &'m [&'w str],

    /// Whether each of them was found.
    found: Vec<bool>,

    /// Whether ASCII letters match in either case.
    ignores_case: bool,
}

/// Sets the flag at a place.
fn set(flags: &mut [bool], place: usize) {
    if let Some(flag) = flags.get_mut(place) {
        *flag = true;
    }
}

impl<'m, 'w> NameSearch<'m, 'w> {
    /// Returns a search for names of which none is found yet.
    ///
    /// # Errors
    /// Fails if an allocation fails.
    pub fn new(
        alloc: Global,
        names: &'m [&'w str],
        ignores_case: bool,
    ) -> Result<Self, AllocError> {
        Ok(NameSearch {
            names,
            found: vec![in alloc; false; names.len()]?,
            ignores_case,
        })
    }

    /// Returns the names.
    pub fn names(&self) -> &'m [&'w str] {
        self.names
    }

    /// Returns whether a name is the one that is looked for.
    fn is_meant(
        &self,
        alloc: Global,
        wanted: &str,
        name: RawString<'_>,
    ) -> Result<bool, AllocError> {
        if self.ignores_case {
            return matches_ignoring_case(alloc, wanted.as_bytes(), name.as_bytes());
        }
        Ok(matches(wanted.as_bytes(), name.as_bytes()))
    }

    /// Returns whether a name is one of those that are looked for, each of which is then found.
    fn finds(&mut self, alloc: Global, name: RawString<'_>) -> Result<bool, AllocError> {
        let mut is_one = false;
        for (place, wanted) in self.names.iter().enumerate() {
            if self.is_meant(alloc, wanted, name)? {
                is_one = true;
                set(&mut self.found, place);
            }
        }
        Ok(is_one)
    }

    /// Returns whether a record of this name is taken: any, if no name is looked for.
    ///
    /// # Errors
    /// Fails if an allocation fails.
    pub(crate) fn takes(
        &mut self,
        alloc: Global,
        name: Option<RawString<'_>>,
    ) -> Result<bool, AllocError> {
        match name {
            _ if self.names.is_empty() => Ok(true),
            Some(name) => self.finds(alloc, name),
            None => Ok(false),
        }
    }

    /// Returns whether the name at a place among those that are looked for was found.
    pub fn is_found(&self, place: usize) -> bool {
        matches!(self.found.get(place), Some(true))
    }
}
