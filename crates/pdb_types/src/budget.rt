//! What a text of a type may yet read and have, and how it names classes.

use crate::memory::AllocResult;
use pdb_base::TypeIndex;
use std::alloc::Global;

/// How many types one text reads at most, so that it ends in a damaged table too.
const MOST_TYPES: u32 = 4096;

/// How many bytes a text has at most.
pub(crate) const MOST_BYTES: usize = 65_536;

/// How a text names the classes, unions and enumerations of the table.
#[derive(Clone, Copy, PartialEq, Eq)]
pub(crate) enum Naming {
    /// As their records do, in C++.
    Recorded,

    /// By marks with their indexes, in what C and C++ both spell alike.
    Marked,
}

/// What a text may yet read and have.
#[derive(Clone, Copy)]
pub(crate) struct Budget {
    /// How it names classes, unions and enumerations.
    pub(crate) naming: Naming,

    /// How many types it may read.
    pub(crate) types: u32,

    /// How many bytes of names it may have.
    bytes: usize,

    /// Whether something was left out.
    pub(crate) is_cut: bool,
}

impl Budget {
    /// Returns the budget of a text of which nothing is read yet.
    pub(crate) fn new(naming: Naming, bytes: usize) -> Self {
        Budget {
            naming,
            types: MOST_TYPES,
            bytes,
            is_cut: false,
        }
    }

    /// Returns whether classes, unions and enumerations are named by marks.
    pub(crate) fn is_marked(&self) -> bool {
        self.naming == Naming::Marked
    }

    /// Takes a name, or as much of it as there are bytes for.
    pub(crate) fn take<'n>(&mut self, name: &'n [u8]) -> &'n [u8] {
        if name.len() <= self.bytes {
            self.bytes -= name.len();
            name
        } else {
            let most = self.bytes;
            self.bytes = 0;
            self.is_cut = true;
            &name[..most]
        }
    }

    /// Takes the name of the type of an index, and returns it as the text has it.
    pub(crate) fn take_class(
        &mut self,
        alloc: Global,
        index: TypeIndex,
        name: &[u8],
    ) -> AllocResult<Vec<u8>> {
        let name = self.take(name);
        match self.naming {
            Naming::Recorded => Vec::from_slice(alloc, name),
            Naming::Marked => {
                let number = index.0;
                Ok(format!(in alloc; "@{number:08x}")?.into_bytes())
            }
        }
    }

    /// Returns a part of a text that only C++ can say. A text with marks is cut there.
    pub(crate) fn take_only_cpp<'n>(&mut self, part: &'n [u8]) -> &'n [u8] {
        if self.is_marked() {
            self.is_cut = true;
        }
        part
    }

    /// Returns whether no more may be read.
    pub(crate) fn is_spent(&self) -> bool {
        self.types == 0 || self.bytes == 0
    }
}
