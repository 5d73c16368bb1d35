//! Tables that stay open between look-ups.

ghost use Rattle.std.specs.Prelude.{◌≡◌, ◌+◌, ◌-◌, ◌≤◌, ◌<◌, Ok, IfOk};
ghost use Rattle.pdb_base.specs.Answer.{Answers, Gives};
ghost use Rattle.pdb_base.specs.Count.{calls_of, after_calls};
ghost use Rattle.pdb_tpi.specs.Finder.{IsLearned, item_of, known_up_to, known_when_new, most_blocks, reads_from};
ghost use Rattle.pdb_tpi.specs.Item.{item_bytes, index_of};
ghost use Rattle.pdb_tpi.specs.OpenTable.{record_bytes, place_of_record};

use crate::finder::{BLOCK_LEN, PRIMITIVE};
use crate::item::Item;
use crate::item_information::ItemInformation;
use pdb_base::{Count, ItemIndex, Result};
use std::alloc::Global;
use std::marker::Model;

/// The place of a record in the stream of its table.
#[derive(Clone, Copy, Debug, PartialEq, Eq)]
pub struct RecordPlace {
    /// The offset of its first byte in the stream.
    pub offset: u32,
    /// How many bytes it has.
    pub length: u32,
}

/// A table that owns the positions that look-ups have learned.
///
/// An `ItemFinder` borrows its table. This type is for a caller that can keep no borrow, and that has
/// the bytes of the stream anyway: it gives records by their places.
#[derive(Debug, Drop)]
pub struct OpenTable<I> {
    items: ItemInformation<I>,
    /// The positions of the blocks that look-ups know.
    positions: Vec<u32>,
}

impl<I> Model for OpenTable<I> {
    ghost use Rattle.std.specs.Prelude.{length, vec_capacity};
    ghost use Rattle.pdb_tpi.specs.Finder.{FinderState};
    ghost use Rattle.pdb_tpi.specs.OpenTable.{AreKnownPlaces};

    ghost Value = { FinderState };

    ghost view = { λ t. record { table = t.items; known = length t.positions.items } };

    ghost invariant = { λ t. AreKnownPlaces t.items t.positions.items (vec_capacity t.positions) };
}

/// Returns the place of a record of `len` bytes whose item ends at the position `end`.
pub(crate) fn record_before(end: usize, len: usize) -> RecordPlace
    requires before { len ≤ end }
    requires short { end < 0xffffffff }
    ensures { result ≡ record { offset = end - len; length = len } }
{
    RecordPlace {
        offset: (end - len) as u32,
        length: len as u32,
    }
}

impl<I: ItemIndex> OpenTable<I> {
    /// Keeps a table open. It knows the first block if the header counts any index.
    ///
    /// # Errors
    /// Returns `OutOfMemory` if an allocation fails.
    pub fn new(alloc: Global, items: ItemInformation<I>) -> Result<Self>
        ensures { Answers (λ table. table) result (Ok (record { table = items; known = known_when_new items })) }
    {
        let positions = items.positions(alloc)?;
        Ok(OpenTable { items, positions })
    }

    /// Returns the table.
    pub fn items(&self) -> &ItemInformation<I>
        ensures { result.now ≡ self.now.table }
    {
        &self.items
    }

    /// Learns where the blocks begin up to that of an index, as far as the walk reaches them, for later
    /// look-ups.
    pub fn learn(&mut self, index: I)
        ensures next { self.new ≡
            record self.old { known = known_up_to self.old.table self.old.known (I.number index) } }
        ensures learned { IsLearned self.new.table self.new.known (I.number index) }
        ensures few { self.new.known ≤ most_blocks self.new.table }
    {
        let number: u32 = index.into();
        let known = self.positions.len() as u64 * BLOCK_LEN as u64;
        if number as u64 >= self.items.header().minimum_index as u64 + known {
            self.learn_blocks(index);
        }
    }

    /// Learns where the blocks begin that are not known yet, up to that of an index, as far as the walk
    /// reaches them.
    #[inline(never)]
    fn learn_blocks(&mut self, index: I)
        ensures next { self.new ≡
            record self.old { known = known_up_to self.old.table self.old.known (I.number index) } }
        ensures learned { IsLearned self.new.table self.new.known (I.number index) }
        ensures few { self.new.known ≤ most_blocks self.new.table }
    {
        let header = self.items.header();
        let number: u32 = index.into();
        if number < header.minimum_index || number >= header.maximum_index {
            return;
        }
        let last = (number - header.minimum_index) / BLOCK_LEN;
        for block in self.positions.len() as u32..last + 1 {
            let behind = block * BLOCK_LEN - 1;
            let Ok((_, end)) = self
                .items
                .item_at(&self.positions, behind, &mut Count::new())
            else {
                return;
            };
            self.positions.push_reserved(end as u32);
        }
    }

    /// Returns the place of the record of an index in the stream of the table, and counts the lengths
    /// that are read, which are eight at most once all blocks up to that of the index are learned.
    /// Returns None for an index below the first one, which is that of a primitive type and has no
    /// record there. It is inlined, so that no result with room for an error is copied.
    ///
    /// # Errors
    /// Fails with `TypeNotFound` for an index from the table's maximum on, with the fault at which
    /// the walk stops if that is before the item, and with `UnexpectedEof` if the walk ends before
    /// the item.
    #[inline(always)]
    #[tactic(auto, using(crate::proofs::FinderLemmas::few_placed, crate::proofs::FinderLemmas::placed, crate::proofs::PositionLemmas::record_found), unfolding(crate::specs::Finder::item_of, crate::specs::Finder::reads_from))]
    pub fn find_counted(&self, index: I, count: &mut Count) -> Result<Option<RecordPlace>>
        ensures place { Gives (λ place. place) result (place_of_record self.now.table (I.number index)) }
        ensures counted { calls_of count.new ≡
            after_calls (reads_from self.now.table self.now.known (I.number index)) (calls_of count.old) }
        ensures few { IsLearned self.now.table self.now.known (I.number index) →
            calls_of count.new ≤ calls_of count.old + 8 }
    {
        let Some(place) = self.items.place_of(index)? else {
            return Ok(None);
        };
        let (item, end) = self.items.item_at(&self.positions, place, count)?;
        Ok(Some(record_before(end, item.len())))
    }

    /// Returns the place of the record of an index in the stream of the table, or None for an index
    /// below the first one.
    ///
    /// # Errors
    /// Fails as `find_counted` does.
    #[inline(always)]
    pub fn find(&self, index: I) -> Result<Option<RecordPlace>>
        ensures { Gives (λ place. place) result (place_of_record self.now.table (I.number index)) }
    {
        self.find_counted(index, &mut Count::new())
    }

    /// Returns the item of an index, wherever in the table it is, and counts the lengths that are read,
    /// which are eight at most once all blocks up to that of the index are learned. The bytes of a
    /// primitive type are ff ff. It is inlined, so that no result with room for an error is copied.
    ///
    /// # Errors
    /// Fails as `find_counted` does.
    #[inline(always)]
    #[tactic(auto, using(crate::proofs::FinderLemmas::few_placed), unfolding(crate::specs::Finder::item_of, crate::specs::Finder::reads_from))]
    pub fn item_counted(&self, index: I, count: &mut Count) -> Result<Item<'_, I>>
        ensures item { Gives item_bytes result (item_of self.now.table (I.number index)) }
        ensures index { IfOk result (λ item. index_of item ≡ index) }
        ensures counted { calls_of count.new ≡
            after_calls (reads_from self.now.table self.now.known (I.number index)) (calls_of count.old) }
        ensures few { IsLearned self.now.table self.now.known (I.number index) →
            calls_of count.new ≤ calls_of count.old + 8 }
    {
        let Some(place) = self.items.place_of(index)? else {
            return Ok(Item {
                index,
                bytes: PRIMITIVE,
            });
        };
        let (item, _) = self.items.item_at(&self.positions, place, count)?;
        Ok(item)
    }

    /// Returns the item of an index, wherever in the table it is.
    ///
    /// # Errors
    /// Fails as `find_counted` does.
    #[inline(always)]
    pub fn item(&self, index: I) -> Result<Item<'_, I>>
        ensures item { Gives item_bytes result (item_of self.now.table (I.number index)) }
        ensures index { IfOk result (λ item. index_of item ≡ index) }
    {
        self.item_counted(index, &mut Count::new())
    }

    /// Returns the bytes of the stream at a place, such as that of a record, as many of them as
    /// there are.
    pub fn bytes_at(&self, place: RecordPlace) -> &[u8]
        ensures { result.now ≡ record_bytes self.now.table place }
    {
        self.items
            .bytes_at(place.offset as usize, place.length as usize)
    }
}
