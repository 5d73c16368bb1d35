//! Finders, which look up items of a table by their indexes.

ghost use Rattle.std.specs.Prelude.{◌≡◌, ◌+◌, ◌-◌, ◌*◌, ◌/◌, ◌<◌, ◌≤◌, ℕ, All, length, map, min, slice_index};
ghost use Rattle.std.specs.Prelude.{vec_capacity, IsOk, IfOk, Ok};
ghost use Rattle.pdb_base.specs.Answer.{Answers, Gives};
ghost use Rattle.pdb_base.specs.Count.{calls_of, after_calls};
ghost use Rattle.pdb_tpi.specs.Item.{item_bytes, index_of};
ghost use Rattle.pdb_tpi.specs.Steps.{nth_item};
ghost use Rattle.pdb_tpi.specs.Table.{count_in_header};
ghost use Rattle.pdb_tpi.specs.Place.{ArePlaces, IsPlace};
ghost use Rattle.pdb_tpi.specs.Finder.{FinderState, first_of_block, known_when_new, known_after, known_of};
ghost use Rattle.pdb_tpi.specs.Finder.{max_index_of};
ghost use Rattle.pdb_tpi.specs.Finder.{most_blocks, place_in_walk, find_of, reads_between, reads_of};

use crate::item::Item;
use crate::item_information::ItemInformation;
use crate::item_iter::ItemIter;
use pdb_base::{Count, Error, ItemIndex, Result};
use std::alloc::Global;
use std::marker::Model;

/// How many items a block has.
pub(crate) const BLOCK_LEN: u32 = 8;

/// The bytes of a primitive type, which has no record.
pub(crate) const PRIMITIVE: &[u8] = b"\xff\xff";

/// A finder of items of a table by their indexes, which does not walk from the first one.
///
/// It knows where some blocks of eight items begin, from the first one on, and learns where more of
/// them begin from the iterators that it is fed.
#[derive(Debug, Drop)]
pub struct ItemFinder<'t, I> {
    table: &'t ItemInformation<I>,
    positions: Vec<u32>,
}

impl<'t, I> Model for ItemFinder<'t, I> {
    ghost use Rattle.std.specs.Prelude.{length, vec_capacity};
    ghost use Rattle.pdb_tpi.specs.Finder.{FinderState};
    ghost use Rattle.pdb_tpi.specs.Place.{ArePlaces};

    ghost Value = { FinderState };

    ghost view = { λ f. record { table = f.table.now; known = length f.positions.items } };

    ghost invariant = { λ f. ArePlaces f.table.now f.positions.items (vec_capacity f.positions) };
}

impl<I: ItemIndex> ItemInformation<I> {
    /// Returns the position of the first block if the header counts any index, with room for those
    /// of all blocks that can be known.
    ///
    /// # Errors
    /// Fails as `finder` does.
    #[tactic(auto, using(crate::proofs::FinderLemmas::no_blocks, crate::proofs::FinderLemmas::some_blocks))]
    pub(crate) fn positions(&self, alloc: Global) -> Result<Vec<u32>>
        ensures positions { Answers (λ positions. length positions.items) result (Ok (known_when_new self.now)) }
        ensures places { IfOk result (λ positions. ArePlaces self.now positions.items (vec_capacity positions)) }
        ensures uncounted { count_in_header self.now ≡ 0 → IsOk result }
    {
        let header = self.header();
        let mut positions = Vec::with_capacity(alloc, self.most_blocks())?;
        if !self.is_empty() {
            positions.push_reserved(header.header_size);
        }
        Ok(positions)
    }

    /// Returns a finder of this table. It knows the first block if the header counts any index.
    ///
    /// It allocates once: for the positions of as many blocks as the header counts, but no more
    /// than the table's bytes can hold.
    ///
    /// # Errors
    /// Returns `OutOfMemory` if the allocation fails; none is made if the header counts no index.
    pub fn finder(&self, alloc: Global) -> Result<ItemFinder<'_, I>>
        ensures finder { Answers (λ finder. finder) result
            (Ok (record { table = self.now; known = known_when_new self.now })) }
        ensures few { IfOk result (λ finder. finder.known ≤ most_blocks self.now) }
        ensures uncounted { count_in_header self.now ≡ 0 → IsOk result }
    {
        Ok(ItemFinder {
            table: self,
            positions: self.positions(alloc)?,
        })
    }

    /// Returns the place in the walk of the item of an index, or None for an index below the minimum,
    /// which is that of a primitive type.
    ///
    /// # Errors
    /// Fails with `TypeNotFound` for an index from the maximum on.
    #[inline(always)]
    pub(crate) fn place_of(&self, index: I) -> Result<Option<u32>>
        ensures { Gives (λ place. place) result (place_in_walk self.now (I.number index)) }
    {
        let header = self.header();
        let number: u32 = index.into();
        if number < header.minimum_index {
            return Ok(None);
        }
        if number >= header.maximum_index {
            return Err(Error::TypeNotFound(number));
        }
        Ok(Some(number - header.minimum_index))
    }

    /// Returns the item at a place in the walk, and the position behind it, and counts the lengths
    /// that are read. The walk to it begins at the last of these blocks that is not behind it. It is
    /// inlined, since a caller that needs no error then keeps none.
    #[inline(always)]
    pub(crate) fn item_at(
        &self,
        positions: &[u32],
        place: u32,
        count: &mut Count,
    ) -> Result<(Item<'_, I>, usize)>
        requires some { 0 < length positions.now }
        requires places { (block : ℕ) → block < length positions.now →
            IsPlace self.now (first_of_block self.now block) (slice_index positions.now block) }
        ensures item { Gives (λ found. item_bytes found.0) result (nth_item self.now place) }
        ensures index { IfOk result (λ found.
            I.number (index_of found.0) ≡ self.now.header.minimum_index + place) }
        ensures end { IfOk result (λ found. IsPlace self.now (self.now.header.minimum_index + place + 1) found.1) }
        ensures counted { let block = min (place / 8) (length positions.now - 1) in
            calls_of count.new ≡ after_calls (reads_between self.now (8 * block) place) (calls_of count.old) }
    {
        let header = self.header();
        let block = ((place / BLOCK_LEN) as usize).min(positions.len() - 1);
        let first = header.minimum_index as u64 + block as u64 * BLOCK_LEN as u64;
        let mut items = ItemIter::at(self, first, positions[block] as usize);
        let item = items.nth(place - block as u32 * BLOCK_LEN, count)?;
        let (_, end) = items.place();
        Ok((item, end))
    }
}

impl<'t, I: ItemIndex> ItemFinder<'t, I> {
    /// Returns the last index of the blocks that are known, or 0 if none is.
    pub fn max_index(&self) -> I
        ensures index { I.number result ≡ max_index_of self.now.table self.now.known }
        ensures few { self.now.known ≤ most_blocks self.now.table }
    {
        let known = self.positions.len() as u64;
        if known == 0 {
            return I::from(0);
        }
        let header = self.table.header();
        let end = header.minimum_index as u64 + known * BLOCK_LEN as u64;
        I::from((end.min(header.maximum_index as u64) - 1) as u32)
    }

    /// Learns where the next block begins, if the iterator's next item is the first one of that
    /// block and the item's index is below the maximum. The iterator must be one over the finder's
    /// table, or over one with equal bytes and header.
    pub fn update(&mut self, iterator: &ItemIter<'_, I>)
        requires { iterator.now.table ≡ self.old.table }
        ensures next { self.new ≡
            record self.old { known = known_after self.old.table self.old.known iterator.now.index } }
        ensures few { self.new.known ≤ most_blocks self.new.table }
    {
        let table = self.table;
        let header = table.header();
        let first = header.minimum_index as u64 + self.positions.len() as u64 * BLOCK_LEN as u64;
        let (index, position) = iterator.place();
        if index == first && index < header.maximum_index as u64 {
            self.positions.push_reserved(position as u32);
        }
    }

    /// Learns from one iterator after another, as `update` does.
    #[tactic(auto, unfolding(crate::specs::Finder::known_of))]
    pub fn update_all(&mut self, iterators: &[ItemIter<'_, I>])
        requires { All (λ iterator. iterator.table ≡ self.old.table) iterators.now }
        ensures next { self.new ≡
            record self.old {
              known = known_of self.old.table self.old.known
                  (map (λ iterator. iterator.index) iterators.now);
            } }
        ensures few { self.old.known ≤ most_blocks self.old.table → self.new.known ≤ most_blocks self.new.table }
    {
        for iterator in iterators {
            self.update(iterator);
        }
    }

    /// Returns the item of an index, and counts the lengths that are read, which are eight at most.
    ///
    /// An index below the table's minimum is that of a primitive type, and its item has the bytes
    /// ff ff.
    ///
    /// # Errors
    /// Fails with `TypeNotFound` for an index from the maximum on, with `TypeNotIndexed` if the
    /// index is in no block that is known, with the fault at which the walk stops if that is before
    /// the item, and with `UnexpectedEof` if the walk ends before the item.
    #[tactic(auto, using(crate::proofs::FinderLemmas::few_in_block), unfolding(crate::specs::Finder::find_of, crate::specs::Finder::item_of, crate::specs::Finder::reads_of))]
    pub fn find_counted(&self, index: I, count: &mut Count) -> Result<Item<'t, I>>
        ensures item { Gives item_bytes result (find_of self.now.table self.now.known (I.number index)) }
        ensures index { IfOk result (λ item. index_of item ≡ index) }
        ensures counted { calls_of count.new ≡
            after_calls (reads_of self.now.table self.now.known (I.number index)) (calls_of count.old) }
        ensures few { calls_of count.new ≤ calls_of count.old + 8 }
    {
        let table = self.table;
        let Some(place) = table.place_of(index)? else {
            return Ok(Item {
                index,
                bytes: PRIMITIVE,
            });
        };
        if self.positions.len() <= (place / BLOCK_LEN) as usize {
            return Err(Error::TypeNotIndexed(index.into(), self.max_index().into()));
        }
        let (item, _) = table.item_at(&self.positions, place, count)?;
        Ok(item)
    }

    /// Returns the item of an index.
    ///
    /// # Errors
    /// Fails as `find_counted` does.
    pub fn find(&self, index: I) -> Result<Item<'t, I>>
        ensures item { Gives item_bytes result (find_of self.now.table self.now.known (I.number index)) }
        ensures index { IfOk result (λ item. index_of item ≡ index) }
    {
        self.find_counted(index, &mut Count::new())
    }
}
