//! The search for the records of a table that are selected.

use crate::completeness::Completeness;
use crate::item_line::ItemData;
use crate::name_search::NameSearch;
use crate::selection::Selection;
use crate::used_types::UsedTypes;
use pdb_base::Result;
use pdbdump_types::Unread;
use std::alloc::{AllocError, Global};
use std::result;

/// A search for the records that are selected, in which it is noted what was found.
#[derive(Drop)]
pub struct Search<'m, 'w> {
    /// The names of the records.
    pub names: NameSearch<'m, 'w>,

    /// The names of the types to which the records refer.
    pub used_names: NameSearch<'m, 'w>,

    /// The types to which the records refer.
    pub(crate) used: UsedTypes,

    /// The records that can't be read, and so aren't listed.
    pub passed_over: Unread,

    /// What is known of the list.
    pub completeness: Completeness,
}

impl<'m, 'w> Search<'m, 'w> {
    /// Returns a search for the records of a selection, of which nothing is found yet.
    ///
    /// # Errors
    /// Fails if an allocation fails.
    pub fn new(alloc: Global, selection: &Selection<'m, 'w>) -> result::Result<Self, AllocError> {
        let ignores_case = selection.ignores_case;
        Ok(Search {
            names: NameSearch::new(alloc, selection.names, ignores_case)?,
            used_names: NameSearch::new(alloc, selection.used_names, ignores_case)?,
            used: UsedTypes::none(alloc),
            passed_over: Unread::none(),
            completeness: Completeness::new(),
        })
    }

    /// Notes that a record isn't listed. It is passed over if it can't be read.
    pub(crate) fn leave_out(&mut self, index: u32, parsed: Result<ItemData<'_>>) {
        if let Err(fault) = parsed {
            self.passed_over.count(index, fault);
        }
    }
}
