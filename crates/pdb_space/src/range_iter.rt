//! The ranges to which a table moves addresses.

ghost use Rattle.std.specs.Prelude.{◌≡◌, [], None};
ghost use Rattle.std.specs.Iterator.{YieldsFirst, item_count};
ghost use Rattle.std.specs.List.{cons_option};
ghost use Rattle.pdb_space.specs.Ranges.{parts_until, unless_empty};

use crate::omap_records::OMAPRecords;
use std::iter::FusedIterator;
use std::marker::Model;
use std::ops::Range;

/// An iterator over ranges of addresses.
#[derive(Debug, Drop)]
pub struct RangeIter<'t> {
    /// A range that comes before all others, if there is one.
    first: Option<Range<u32>>,
    /// The records that move the others.
    records: OMAPRecords<'t>,
    /// The range of addresses that the records move.
    asked: Range<u32>,
}

impl<'t> Model for RangeIter<'t> {
    ghost use Rattle.std.specs.Prelude.{ℕ, List};
    ghost use Rattle.std.specs.declared.ops.Range.{Range};
    ghost use Rattle.std.specs.List.{cons_option};
    ghost use Rattle.pdb_space.specs.Ranges.{parts_until};

    ghost Value = { List (Range ℕ) };

    ghost view = { λ i. cons_option i.first (parts_until i.records i.asked) };
}

impl<'t> RangeIter<'t> {
    /// Returns an iterator over no ranges.
    pub fn empty() -> Self
        ensures { result ≡ [] }
    {
        RangeIter {
            first: None,
            records: OMAPRecords::empty(),
            asked: 0..0,
        }
    }

    /// Returns an iterator over the range itself, or over no ranges if it is empty.
    #[tactic(auto, unfolding(crate::specs::Ranges::unless_empty))]
    pub fn identity(range: Range<u32>) -> Self
        ensures { result ≡ cons_option (unless_empty range) [] }
    {
        if range.is_empty() {
            return RangeIter::empty();
        }
        RangeIter {
            first: Some(range),
            ..RangeIter::empty()
        }
    }

    /// Returns an iterator over the ranges to which the records move parts of `asked`, stopping
    /// before the first record whose source is at or past the end of `asked`.
    pub(crate) fn over_records(records: OMAPRecords<'t>, asked: Range<u32>) -> Self
        ensures { result ≡ parts_until records.entry asked }
    {
        RangeIter {
            first: None,
            records,
            asked,
        }
    }
}

impl<'t> Default for RangeIter<'t> {
    ghost is_default = { λ ranges. ranges ≡ [] };

    fn default() -> Self {
        RangeIter::empty()
    }
}

impl<'t> Iterator for RangeIter<'t> {
    type Item = Range<u32>;

    ghost next_gives = { YieldsFirst (λ ranges. ranges) };

    ghost remaining = { item_count (λ ranges. ranges) };

    fn next(&mut self) -> Option<Range<u32>> {
        if let Some(range) = self.first.take() {
            return Some(range);
        }
        while let Some((record, rest)) = self.records.split_first() {
            if self.asked.end <= record.source_address() {
                return None;
            }
            let next = rest.next_source(self.asked.end);
            self.records = rest;
            if let Some(part) = record.part(next, &self.asked) {
                return Some(part);
            }
        }
        None
    }
}

impl<'t> FusedIterator for RangeIter<'t> {}
