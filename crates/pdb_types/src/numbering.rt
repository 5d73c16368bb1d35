//! The numbers of names, by which definitions are found.

ghost use Rattle.std.specs.Prelude.{◌≡◌, ◌+◌, ◌-◌, ◌^◌, ◌<◌, ◌≤◌};
ghost use Rattle.pdb_types.specs.Declaration.{type_name};
ghost use Rattle.pdb_types.specs.Numbering.{first_number, is_numbered, name_number, numbering_of};

use crate::name_hash::name_hash;
use crate::type_name::TypeName;
use pdb_base::TypeIndex;
use pdb_tpi::{OpenTable, RecordPlace};

/// How the names of the definitions of a table are numbered.
///
/// A name has as many numbers in a row as the table may have items, and where they begin depends on
/// its hash. A definition of the name has the one of its place in the table. So a number of 8 bytes
/// tells an index and some 40 bits of a hash.
#[derive(Clone, Copy, Debug)]
pub(crate) struct Numbering {
    /// The least index of the table.
    pub(crate) least: u32,

    /// How far above it the index of an item can be.
    pub(crate) most: u32,

    /// Whether the names are numbered too that the source gives, and not only unique names.
    pub(crate) has_source_names: bool,
}

impl Numbering {
    /// Returns how the names of a table are numbered.
    pub(crate) fn of(types: &OpenTable<TypeIndex>, has_source_names: bool) -> Self
        ensures numbering { result ≡ numbering_of types.now.table has_source_names }
        ensures fits { result.least + result.most ≤ 0xffff_ffff }
    {
        let least = types.items().header().minimum_index;
        let stream = RecordPlace {
            offset: 0,
            length: u32::MAX,
        };
        let items = types.bytes_at(stream).len() / 4;
        Numbering {
            least,
            most: items.min((u32::MAX - least) as usize) as u32,
            has_source_names,
        }
    }

    /// Returns whether a name is numbered.
    pub(crate) fn has(self, name: TypeName<'_>) -> bool
        ensures { result ≡ is_numbered self (type_name name.entry) }
    {
        match name {
            TypeName::Source(_) => self.has_source_names,
            TypeName::Decorated(_) => true,
        }
    }

    /// Returns the first number of a name.
    #[tactic(auto, unfolding(crate::specs::Numbering::first_number))]
    pub(crate) fn first(self, name: TypeName<'_>) -> u64
        ensures first { result ≡ first_number self (type_name name.entry) }
        ensures low { result < 2 ^ 63 }
    {
        let hash = name_hash(name) / 2;
        hash - hash % (self.most as u64 + 1)
    }

    /// Returns the number of a name of the definition of an index.
    pub(crate) fn number(self, name: TypeName<'_>, index: TypeIndex) -> u64
        ensures { result ≡ name_number self (type_name name.entry) index.0 }
    {
        self.first(name) + index.0.saturating_sub(self.least) as u64
    }

    /// Returns the index that a number tells, among those of a name whose first number is given.
    pub(crate) fn index(self, first: u64, number: u64) -> TypeIndex
        requires ordered { first ≤ number }
        requires within { number ≤ first + self.most }
        requires fits { self.least + self.most ≤ 0xffff_ffff }
        ensures { result.0 ≡ self.least + (number - first) }
    {
        TypeIndex(self.least + (number - first) as u32)
    }
}
