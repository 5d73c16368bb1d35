//! An iterator over the items of a table.

ghost use Rattle.std.specs.Prelude.{◌≡◌, ◌+◌, ◌≤◌, length, nat_lt, ⊤, if◌then◌else◌, IfOk, OnOk, OnErr};
ghost use Rattle.pdb_base.specs.Answer.{Gives};
ghost use Rattle.pdb_base.specs.Count.{calls_of, one_more, after_calls};
ghost use Rattle.pdb_tpi.specs.Item.{item_bytes, index_of};
ghost use Rattle.pdb_tpi.specs.Walk.{first_item};
ghost use Rattle.pdb_tpi.specs.Steps.{WalkPosition, walk, steps_taken, nth_item, IsStep, reads_one};
ghost use Rattle.pdb_tpi.specs.Finder.{reads_between};
ghost use Rattle.pdb_tpi.specs.Place.{IsPlace};

use crate::item::Item;
use crate::item_information::ItemInformation;
use crate::length::read_length;
use pdb_base::{Count, Error, FallibleIterator, ItemIndex, ParseBuffer, Result};
use std::alloc::AllocError;
use std::marker::Model;

/// An iterator over the items of a table, from one of them on.
///
/// It yields the items in order, whatever maximum the header says. Behind the last one, it yields
/// None if no byte is left, and otherwise fails with the same error every time.
#[derive(Debug, Drop)]
pub struct ItemIter<'t, I> {
    table: &'t ItemInformation<I>,
    index: u64,
    position: usize,
}

impl<'t, I> Model for ItemIter<'t, I> {
    ghost use Rattle.pdb_tpi.specs.Steps.{WalkPosition};
    ghost use Rattle.pdb_tpi.specs.Place.{IsPlace};

    ghost Value = { WalkPosition };

    ghost view = { λ i. record { table = i.table.now; index = i.index } };

    ghost invariant = { λ i. IsPlace i.table.now i.index i.position };
}

/// Reads the item at the start of bytes, and counts its length if the bytes hold it.
#[tactic(auto, unfolding(crate::specs::Walk::first_item))]
fn read_item<'t>(bytes: &'t [u8], count: &mut Count) -> Result<&'t [u8]>
    ensures item { Gives (λ item. item.now) result (first_item bytes.now) }
    ensures counted { calls_of count.new ≡
        (if nat_lt (length bytes.now) 2 then calls_of count.old else one_more (calls_of count.old)) }
{
    let mut buffer = ParseBuffer::from(bytes);
    let len = read_length(&mut buffer, count)?;
    if len < 2 {
        return Err(Error::TypeTooShort);
    }
    buffer.take(len as usize)
}

impl<'t, I: ItemIndex> ItemIter<'t, I> {
    /// Returns an iterator from the item of an index on, which begins at a position. Both are what
    /// `place` of an iterator over the same table returned.
    pub(crate) fn at(table: &'t ItemInformation<I>, index: u64, position: usize) -> Self
        requires { IsPlace table.now index position }
        ensures { result ≡ record { table = table.now; index = index } }
    {
        ItemIter {
            table,
            index,
            position,
        }
    }

    /// Returns the index of the next item, and the position at which it begins.
    pub fn place(&self) -> (u64, usize)
        ensures index { result.0 ≡ self.now.index }
        ensures place { IsPlace self.now.table self.now.index result.1 }
    {
        (self.index, self.position)
    }

    /// Returns the next item, or the fault at which the walk stops before it.
    #[tactic(auto, using(crate::proofs::WalkLemmas::place_full, crate::proofs::WalkLemmas::place_next, crate::proofs::WalkLemmas::read_full, crate::proofs::WalkLemmas::reads_next, crate::proofs::WalkLemmas::reads_behind))]
    pub(crate) fn read(&mut self, count: &mut Count) -> Result<Item<'t, I>>
        ensures item { Gives item_bytes result (nth_item self.old.table (steps_taken self.old)) }
        ensures index { IfOk result (λ item. I.number (index_of item) ≡ self.old.index) }
        ensures moved { OnOk result (self.new ≡ record self.old { index = self.old.index + 1 }) }
        ensures kept { OnErr result (self.new ≡ self.old) }
        ensures reached { (self.old.table.header.minimum_index ≤ self.old.index) ×
            (steps_taken self.old ≤ length (walk self.old.table)) }
        ensures counted { calls_of count.new ≡ reads_one self.old (calls_of count.old) }
    {
        let table = self.table;
        let bytes = read_item(table.bytes_from(self.position), count)?;
        let Ok(index) = u32::try_from(self.index) else {
            return Err(Error::TypeNotFound(u32::MAX));
        };
        self.index += 1;
        self.position += 2 + bytes.len();
        Ok(Item {
            index: I::from(index),
            bytes,
        })
    }

    /// Returns the item that is `steps` items behind the next one, or the fault at which the walk
    /// stops before it. The iterator continues after that item.
    #[inline(always)]
    pub(crate) fn nth(&mut self, steps: u32, count: &mut Count) -> Result<Item<'t, I>>
        ensures item { Gives item_bytes result (nth_item self.old.table (steps_taken self.old + steps)) }
        ensures index { IfOk result (λ item. I.number (index_of item) ≡ self.old.index + steps) }
        ensures moved { IfOk result (λ _. self.new ≡ record self.old { index = self.old.index + steps + 1 }) }
        ensures counted { calls_of count.new ≡
            after_calls (reads_between self.old.table (steps_taken self.old) (steps_taken self.old + steps))
            (calls_of count.old) }
    {
        for _ in 0..steps {
            self.read(count)?;
        }
        self.read(count)
    }
}

impl<'t, I: ItemIndex> FallibleIterator for ItemIter<'t, I> {
    type Item = Item<'t, I>;

    type Error = Error;

    ghost next_gives = { IsStep (λ item. (I.number (index_of item), item_bytes item)) };

    #[tactic(auto, using(crate::proofs::StepLemmas::none_left, crate::proofs::StepLemmas::step_ends, crate::proofs::StepLemmas::step_gives, crate::proofs::StepLemmas::leaves_fewer))]
    fn next(&mut self) -> Result<Option<Item<'t, I>>> {
        let table = self.table;
        if table.bytes_from(self.position).is_empty() {
            return Ok(None);
        }
        let item = self.read(&mut Count::new())?;
        Ok(Some(item))
    }
}

/// Returns another iterator at the same place. Nothing is allocated.
impl<'t, I: ItemIndex> Clone for ItemIter<'t, I> {
    ghost is_clone = { λ iterator other. other ≡ iterator };

    ghost is_infallible = { λ _. ⊤ };

    fn clone(&self) -> std::result::Result<Self, AllocError> {
        Ok(ItemIter {
            table: self.table,
            index: self.index,
            position: self.position,
        })
    }
}
