//! A table of types that stays open, and its definitions once they are asked for.

ghost use Rattle.std.specs.Prelude.{◌≡◌, OnErr};
ghost use Rattle.pdb_base.specs.Answer.{Answers, Gives};
ghost use Rattle.pdb_tpi.specs.OpenTable.{step_located};
ghost use Rattle.pdb_tpi.specs.StepLaws.{first_stand};
ghost use Rattle.pdb_types.specs.Definition.{whole_table};

use crate::definition_index::DefinitionIndex;
use crate::definitions::Definitions;
use pdb_base::{Result, TypeIndex};
use pdb_tpi::{OpenTable, OpenWalk, RecordPlace};
use std::alloc::Global;
use std::marker::Model;

/// An open table, the position of one walk along it, and its definitions once they are kept.
///
/// `Definitions` and `ItemIter` borrow their table. This type is for a caller that can keep no
/// borrow.
#[derive(Debug, Drop)]
pub struct OpenTypes {
    walk: OpenWalk<TypeIndex>,
    /// The index of all names, if definitions are kept.
    index: Option<DefinitionIndex>,
}

impl Model for OpenTypes {
    ghost use Rattle.std.specs.Prelude.{IfSome};
    ghost use Rattle.pdb_tpi.specs.Steps.{WalkPosition};
    ghost use Rattle.pdb_types.specs.DefinitionIndex.{IsWholeIndexOf};

    ghost Value = { WalkPosition };

    ghost view = { λ t. t.walk };

    ghost invariant = { λ t. IfSome t.index (IsWholeIndexOf t.walk.table) };
}

impl OpenTypes {
    /// Keeps a table open, with its walk before the first item.
    pub fn new(table: OpenTable<TypeIndex>) -> Self
        ensures { result ≡ first_stand table.table }
    {
        OpenTypes {
            walk: OpenWalk::new(table),
            index: None,
        }
    }

    /// Returns the table.
    pub fn table(&self) -> &OpenTable<TypeIndex>
        ensures { result.now.table ≡ self.now.table }
    {
        self.walk.table()
    }

    /// Learns where the blocks begin up to that of an index, for later look-ups. The walk stays.
    pub fn learn(&mut self, index: TypeIndex)
        ensures { self.new ≡ self.old }
    {
        self.walk.learn(index);
    }

    /// Returns the index of the next item of the walk, or the index behind the last one if the walk
    /// has ended.
    pub fn index(&self) -> u64
        ensures { result ≡ self.now.index }
    {
        self.walk.index()
    }

    /// Returns the place of the next record of the walk in the stream of the table, or None behind
    /// the last one.
    ///
    /// # Errors
    /// Fails with the fault at which the walk stops. The walk then stays where it is.
    pub fn step(&mut self) -> Result<Option<RecordPlace>>
        ensures place { Gives (λ place. (place, self.new)) result (step_located self.old) }
        ensures kept { OnErr result (self.new ≡ self.old) }
    {
        self.walk.step()
    }

    /// Moves the walk back to before the first item.
    pub fn rewind(&mut self)
        ensures { self.new ≡ first_stand self.old.table }
    {
        self.walk.rewind();
    }

    /// Finds the definitions of the table in one walk along it, and keeps them, unless they are kept
    /// already. The table learns where its items begin.
    ///
    /// # Errors
    /// Fails as `Definitions::new` does.
    pub fn keep_definitions(&mut self, alloc: Global) -> Result<()>
        ensures kept { self.new ≡ self.old }
        ensures whole { Answers (λ _. self.old.table) result (whole_table self.old.table) }
    {
        if self.index.is_some() {
            return Ok(());
        }
        let last = self
            .table()
            .items()
            .header()
            .maximum_index
            .saturating_sub(1);
        self.learn(TypeIndex(last));
        self.index = Some(DefinitionIndex::with_all_names(alloc, self.walk.table())?);
        Ok(())
    }

    /// Returns the definitions of the table. It finds them in one walk if they aren't kept.
    ///
    /// # Errors
    /// Fails as `Definitions::new` does.
    pub fn definitions(&self, alloc: Global) -> Result<Definitions<'_>>
        ensures { Answers (λ definitions. definitions) result (whole_table self.now.table) }
    {
        match &self.index {
            Some(index) => Ok(Definitions::borrow_from(self.walk.table(), index)),
            None => Definitions::new(alloc, self.walk.table()),
        }
    }
}
