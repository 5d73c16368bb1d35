//! What a header has declared and defined so far.

use crate::memory::AllocResult;
use pdb_base::TypeIndex;
use pdbdump_types::TextAllowance;
use std::alloc::Global;

/// What a header has of a type.
#[derive(Clone, Copy)]
struct State {
    /// Whether it is declared.
    is_declared: bool,

    /// Whether it is a class without a member.
    is_empty: bool,

    /// To how many bytes it is aligned, or 0 if it isn't defined.
    alignment: u8,
}

/// What a header has of each type of a table.
#[derive(Drop)]
pub(crate) struct Known {
    first: u32,
    states: Vec<State>,

    /// How many bytes the declarations of members and the names in them may yet have.
    pub(crate) texts: TextAllowance,
}

impl Known {
    /// Returns what an empty header has of the types from one index up to another.
    ///
    /// # Errors
    /// Fails if an allocation fails.
    pub(crate) fn new(
        alloc: Global,
        first: u32,
        end: u32,
        texts: TextAllowance,
    ) -> AllocResult<Self> {
        let mut states = Vec::new(alloc);
        for _ in first..end {
            states.push(State {
                is_declared: false,
                is_empty: false,
                alignment: 0,
            })?;
        }
        Ok(Known {
            first,
            states,
            texts,
        })
    }

    /// Returns where the state of a type stands.
    fn place(&self, index: TypeIndex) -> Option<usize> {
        let place = index.0.checked_sub(self.first)?;
        Some(place as usize)
    }

    /// Returns the state of a type, if it is one of the table.
    fn state(&self, index: TypeIndex) -> Option<State> {
        let place = self.place(index)?;
        self.states.get(place).copied()
    }

    /// Notes that a type is declared, and returns whether it was before.
    pub(crate) fn declare(&mut self, index: TypeIndex) -> bool {
        let Some(place) = self.place(index) else {
            return false;
        };
        match self.states.get_mut(place) {
            Some(state) => {
                let was = state.is_declared;
                state.is_declared = true;
                was
            }
            None => false,
        }
    }

    /// Notes that a type is defined, aligned to so many bytes, and whether it is a class without a
    /// member.
    pub(crate) fn define(&mut self, index: TypeIndex, alignment: u64, is_empty: bool) {
        let Some(place) = self.place(index) else {
            return;
        };
        if let Some(state) = self.states.get_mut(place) {
            state.alignment = u8::try_from(alignment).unwrap_or(0);
            state.is_empty = is_empty;
        }
    }

    /// Returns to how many bytes a type is aligned, or None if it isn't defined.
    pub(crate) fn alignment(&self, index: TypeIndex) -> Option<u64> {
        let state = self.state(index)?;
        if state.alignment == 0 {
            return None;
        }
        Some(state.alignment as u64)
    }

    /// Returns whether a type is a class without a member.
    pub(crate) fn is_empty(&self, index: TypeIndex) -> bool {
        match self.state(index) {
            Some(state) => state.is_empty,
            None => false,
        }
    }
}
