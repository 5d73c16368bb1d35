//! What definitions keep besides their table.

ghost use Rattle.std.specs.Prelude.{◌≡◌, ◌<◌, ◌≤◌, ◌^◌, length, drop, IfOk};
ghost use Rattle.pdb_base.specs.Answer.{Answers};
ghost use Rattle.pdb_types.specs.Definition.{whole_table};
ghost use Rattle.pdb_types.specs.DefinitionIndex.{IsIndexOf, index_kept};
ghost use Rattle.pdb_tpi.specs.Table.{Table};
ghost use Rattle.pdb_types.specs.DefinitionWalk.{IsNameWalk};
ghost use Rattle.pdb_types.specs.Numbering.{AreCandidates, HasNumbers};

use crate::definition_walk::DefinitionWalk;
use crate::definitions::Definitions;
use crate::memory::AllocResult;
use crate::numbering::Numbering;
use crate::shortcut::Shortcut;
use pdb_base::{Result, TypeIndex};
use pdb_tpi::OpenTable;
use std::alloc::Global;

/// By what the definitions of a table and the sizes of its types are found quickly.
#[derive(Debug, Drop)]
pub(crate) struct DefinitionIndex {
    /// How names are numbered.
    pub(crate) numbering: Numbering,

    /// The numbers of the names of definitions, in increasing order.
    pub(crate) numbers: Vec<u64>,

    /// Shortcuts along types of one size, in rising order.
    pub(crate) shortcuts: Vec<Shortcut>,
}

/// Returns the numbers from a place on.
fn part_from(numbers: &[u64], start: usize) -> &[u64]
    requires { start ≤ length numbers.now }
    ensures { result.now ≡ drop start numbers.now }
{
    &numbers[start..]
}

impl DefinitionIndex {
    /// Makes the index of a table from what a walk along it found.
    fn of_walk(
        alloc: Global,
        types: &OpenTable<TypeIndex>,
        walk: DefinitionWalk,
    ) -> AllocResult<Self>
        requires { IsNameWalk types.now.table walk }
        ensures { IfOk result (IsIndexOf types.now.table) }
    {
        let has_names = walk.has_wide_enumeration;
        let index = DefinitionIndex {
            numbering: walk.numbering,
            numbers: walk.numbers,
            shortcuts: Vec::new(alloc),
        };
        let shortcuts = Definitions::borrow_from(types, &index).new_shortcuts(alloc, has_names)?;
        Ok(DefinitionIndex { shortcuts, ..index })
    }

    /// Returns the numbers of the names of definitions, in increasing order.
    fn numbers(&self) -> &[u64]
        ensures { result.now ≡ self.now.numbers.items }
    {
        &self.numbers
    }

    /// Returns the shortcuts along types of one size.
    pub(crate) fn shortcuts(&self) -> &[Shortcut]
        ensures { result.now ≡ self.now.shortcuts.items }
    {
        &self.shortcuts
    }

    /// Returns the numbers that may be of a name whose first number is given.
    pub(crate) fn candidates(&self, first: u64) -> &[u64]
        requires { first < 2 ^ 63 }
        ensures { (table : Table) → HasNumbers table self.now.numbering self.now.numbers.items
            → AreCandidates table self.now.numbering first result.now }
    {
        let numbers = self.numbers();
        let start = numbers.partition_point(|number| *number < first);
        let rest = part_from(numbers, start);
        let last = first + self.numbering.most as u64;
        let count = rest.partition_point(|number| *number <= last);
        &rest[..count]
    }

    /// Makes the index of a table, with the names by which its types seek definitions.
    pub(crate) fn new(alloc: Global, types: &OpenTable<TypeIndex>) -> Result<Self>
        ensures index { IfOk result (IsIndexOf types.now.table) }
        ensures walked { Answers (λ _. types.now.table) result (whole_table types.now.table) }
    {
        let walk = DefinitionWalk::sought(alloc, types)?;
        Ok(DefinitionIndex::of_walk(alloc, types, walk)?)
    }

    /// Makes the index of a table, with all names.
    pub(crate) fn with_all_names(alloc: Global, types: &OpenTable<TypeIndex>) -> Result<Self>
        ensures index { IfOk result (IsIndexOf types.now.table) }
        ensures walked { Answers (λ _. types.now.table) result (whole_table types.now.table) }
    {
        let walk = DefinitionWalk::named(alloc, types)?;
        Ok(DefinitionIndex::of_walk(alloc, types, walk)?)
    }
}

/// The index that definitions read.
#[derive(Debug, Drop)]
pub(crate) enum KeptIndex<'t> {
    /// Their own.
    Own(DefinitionIndex),

    /// One that another keeps.
    Lent(&'t DefinitionIndex),
}

impl<'t> KeptIndex<'t> {
    /// Returns the index.
    pub(crate) fn get(&self) -> &DefinitionIndex
        ensures { result.now ≡ index_kept self.now }
    {
        match self {
            KeptIndex::Own(index) => index,
            KeptIndex::Lent(index) => index,
        }
    }
}
