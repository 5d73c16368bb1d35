//! Tables that stay open between the steps of a walk.

ghost use Rattle.std.specs.Prelude.{◌≡◌, OnErr};
ghost use Rattle.pdb_base.specs.Answer.{Gives};
ghost use Rattle.pdb_tpi.specs.OpenTable.{step_located};
ghost use Rattle.pdb_tpi.specs.StepLaws.{first_stand};

use crate::item_iter::ItemIter;
use crate::open_table::{OpenTable, RecordPlace, record_before};
use pdb_base::{FallibleIterator, ItemIndex, Result};
use std::marker::Model;

/// An open table, and the position of one walk along it.
///
/// An `ItemIter` borrows its table. This type is for a caller that can keep no borrow.
#[derive(Debug, Drop)]
pub struct OpenWalk<I> {
    table: OpenTable<I>,
    /// The index of the next item of the walk.
    index: u64,
    /// Where the item of that index begins.
    position: usize,
}

impl<I> Model for OpenWalk<I> {
    ghost use Rattle.pdb_tpi.specs.Steps.{WalkPosition};
    ghost use Rattle.pdb_tpi.specs.Place.{IsPlace};

    ghost Value = { WalkPosition };

    ghost view = { λ w. record { table = w.table.table; index = w.index } };

    ghost invariant = { λ w. IsPlace w.table.table w.index w.position };
}

impl<I: ItemIndex> OpenWalk<I> {
    /// Keeps a table open, with its walk before the first item.
    pub fn new(table: OpenTable<I>) -> Self
        ensures { result ≡ first_stand table.table }
    {
        let (index, position) = table.items().iter().place();
        OpenWalk {
            table,
            index,
            position,
        }
    }

    /// Returns the table.
    pub fn table(&self) -> &OpenTable<I>
        ensures { result.now.table ≡ self.now.table }
    {
        &self.table
    }

    /// Learns where the blocks begin up to that of an index, for later look-ups. The walk stays.
    pub fn learn(&mut self, index: I)
        ensures { self.new ≡ self.old }
    {
        self.table.learn(index);
    }

    /// Returns the index of the next item of the walk, or the index behind the last one if the walk
    /// has ended.
    pub fn index(&self) -> u64
        ensures { result ≡ self.now.index }
    {
        self.index
    }

    /// Returns the place of the next record of the walk in the stream of the table, or None behind
    /// the last one.
    ///
    /// # Errors
    /// Fails with the fault at which the walk stops. The walk then stays where it is.
    pub fn step(&mut self) -> Result<Option<RecordPlace>>
        ensures place { Gives (λ place. (place, self.new)) result (step_located self.old) }
        ensures kept { OnErr result (self.new ≡ self.old) }
        ensures table { self.new.table ≡ self.old.table }
    {
        let mut items = ItemIter::at(self.table.items(), self.index, self.position);
        let Some(item) = items.next()? else {
            return Ok(None);
        };
        let (index, end) = items.place();
        self.index = index;
        self.position = end;
        Ok(Some(record_before(end, item.len())))
    }

    /// Moves the walk back to before the first item.
    pub fn rewind(&mut self)
        ensures { self.new ≡ first_stand self.old.table }
    {
        let (index, position) = self.table.items().iter().place();
        self.index = index;
        self.position = position;
    }
}
