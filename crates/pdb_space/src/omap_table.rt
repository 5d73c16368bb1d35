//! OMAP tables, which say where the addresses of an image are moved if a tool rearranges it.

ghost use Rattle.std.specs.Prelude.{◌≡◌, ◌↔◌, ◌%◌, ◌≤◌, length, drop, All, Contains, IfSome, IsTrue};
ghost use Rattle.pdb_base.specs.Answer.{Gives};
ghost use Rattle.pdb_base.specs.Count.{calls_of, after_calls};
ghost use Rattle.pdb_base.specs.Halving.{binary_digits};
ghost use Rattle.pdb_space.specs.Omap.{IsSortedBySource, MovesSomehow, last_at_or_below, mappings_of, shift};
ghost use Rattle.pdb_space.specs.Omap.{omap_table_of};
ghost use Rattle.pdb_space.specs.Ranges.{IsNotEmpty, end_to_end, parts, pointwise};

use crate::omap_record::OMAPRecord;
use crate::omap_records::{OMAPRecords, RECORD_SIZE, target_at};
use crate::range_iter::RangeIter;
use crate::search::{Found, search, search_apart};
use pdb_base::{Count, Error, Result, Stream};
use std::marker::Model;
use std::ops::Range;

/// A table of records that say where the addresses of an image are moved.
///
/// Tools write tables whose sources don't decrease. In such a table, the last record whose source
/// is at or below an address says where the address is moved. In any other table, a lookup may use
/// another record at or below the address, or return None.
#[derive(Debug, Drop)]
pub struct OMAPTable {
    stream: Stream,
}

impl Model for OMAPTable {
    ghost use Rattle.std.specs.Prelude.{◌≡◌, ◌%◌, List, length};
    ghost use Rattle.pdb_space.specs.Omap.{OmapValue, mappings_of};

    ghost Value = { List OmapValue };

    ghost view = { λ t. mappings_of t.stream };

    ghost invariant = { λ t. length t.stream % 8 ≡ 0 };
}

impl OMAPTable {
    /// Parses the table in a stream: records of eight bytes, each a `u32` source and a `u32`
    /// target.
    ///
    /// # Errors
    /// Fails with `InvalidStreamLength("OMAP")` if the stream's length isn't a multiple of eight.
    #[tactic(auto, unfolding(crate::specs::Omap::omap_table_of))]
    pub fn parse(stream: Stream) -> Result<Self>
        ensures { Gives (λ table. table) result (omap_table_of stream) }
    {
        if stream.as_slice().len() % 8 != 0 {
            return Err(Error::InvalidStreamLength("OMAP"));
        }
        Ok(OMAPTable { stream })
    }

    /// Returns an iterator over the records, in order.
    pub fn records(&self) -> OMAPRecords<'_>
        ensures { result ≡ self.now }
    {
        OMAPRecords::new(self.stream.as_slice())
    }

    /// Returns whether no record has a source below that of the record before it.
    pub fn is_sorted(&self) -> bool
        ensures { IsTrue result ↔ IsSortedBySource self.now }
    {
        let mut highest = 0;
        for record in self.records() {
            if record.source_address() < highest {
                return false;
            }
            highest = record.source_address();
        }
        true
    }

    /// Looks up where an address is moved. The last record whose source is at or below the address
    /// moves it to that record's target plus the distance of the address from the source.
    ///
    /// Returns None if there is no such record, if its target is 0, or if the result doesn't fit in
    /// 32 bits. In a table that isn't sorted, returns None or the result of some record whose
    /// source is at or below the address.
    pub fn lookup(&self, address: u32) -> Option<u32>
        ensures exact { IsSortedBySource self.now → result ≡ shift self.now address }
        ensures unsorted { IfSome result (MovesSomehow self.now address) }
    {
        self.lookup_counted(address, &mut Count::new())
    }

    /// Looks up an address as `lookup` does, and counts the sources that it compares: as many as
    /// the number of records has binary digits, and so none if the table is empty.
    #[tactic(auto, unfolding(crate::specs::Omap::shift))]
    pub fn lookup_counted(&self, address: u32, count: &mut Count) -> Option<u32>
        ensures exact { IsSortedBySource self.now → result ≡ shift self.now address }
        ensures unsorted { IfSome result (MovesSomehow self.now address) }
        ensures counted { calls_of count.new ≡ after_calls (binary_digits (length self.now)) (calls_of count.old) }
    {
        self.last_at_or_below(address, count)?.move_address(address)
    }

    /// Returns the last record whose source is at or below an address, or None if there is none. In
    /// a table that isn't sorted, returns None or some such record.
    #[tactic(auto, using(pdb_base::proofs::lemmas::Records::spelled_length))]
    fn last_at_or_below(&self, address: u32, count: &mut Count) -> Option<OMAPRecord>
        ensures exact { IsSortedBySource self.now → result ≡ last_at_or_below self.now address }
        ensures unsorted { IfSome result (λ mapping. Contains self.now mapping × (mapping.source ≤ address)) }
        ensures counted { calls_of count.new ≡ after_calls (binary_digits (length self.now)) (calls_of count.old) }
    {
        let bytes = self.bytes();
        let found = search(bytes, address, count);
        let last = found.place.checked_sub(1)?;
        Some(OMAPRecord::new(found.source, target_at(bytes, last)))
    }

    /// Returns an iterator over the records from index `place` on.
    #[tactic(auto, using(pdb_base::proofs::lemmas::Records::spelled_length))]
    fn records_from(&self, place: usize) -> OMAPRecords<'_>
        requires { place ≤ length self.now }
        ensures { result ≡ drop place self.now }
    {
        OMAPRecords::new(&self.bytes()[place * RECORD_SIZE..])
    }

    /// Returns the bytes of the records.
    fn bytes(&self) -> &[u8]
        ensures records { mappings_of result.now ≡ self.now }
        ensures whole { length result.now % 8 ≡ 0 }
    {
        self.stream.as_slice()
    }

    /// Returns the ranges to which the addresses of a range are moved: one for each record that
    /// moves some of them below 0xffffffff, in the order of the records, each cut to end at
    /// 0xffffffff at most. No range is empty.
    ///
    /// Together, the ranges hold in order what `lookup` returns for the addresses one by one,
    /// except those that it moves to 0xffffffff. This needn't hold if the table isn't sorted, but
    /// there is always at most one range for each record.
    #[tactic(auto, using(pdb_base::proofs::lemmas::Records::spelled_length))]
    pub fn lookup_range(&self, range: Range<u32>) -> RangeIter<'_>
        ensures parts { IsSortedBySource self.now → result ≡ parts self.now range }
        ensures laid { IsSortedBySource self.now → end_to_end result ≡ pointwise (shift self.now) range }
        ensures few { length result ≤ length self.now }
        ensures not_empty { All IsNotEmpty result }
    {
        let mut found = Found::default();
        search_apart(self.bytes(), range.start, &mut found);
        RangeIter::over_records(self.records_from(found.place.saturating_sub(1)), range)
    }
}
