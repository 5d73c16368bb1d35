//! The records of an OMAP table, one after another.

ghost use Rattle.std.specs.Prelude.{◌≡◌, ◌<◌, ◌/◌, ◌%◌, [], ◌∷◌, length, MatchOption};
ghost use Rattle.std.specs.Iterator.{YieldsFirst, item_count};
ghost use Rattle.pdb_space.specs.Omap.{mappings_of, target_at};
ghost use Rattle.pdb_space.specs.Ranges.{next_source};

use crate::omap_record::OMAPRecord;
use byteorder::{ByteOrder, LittleEndian};
use std::iter::FusedIterator;
use std::marker::Model;

/// The size of a record in bytes.
pub(crate) const RECORD_SIZE: usize = 8;

/// An iterator over the records of an OMAP table, in order.
#[derive(Debug, Drop)]
pub struct OMAPRecords<'t> {
    bytes: &'t [u8],
}

impl<'t> Model for OMAPRecords<'t> {
    ghost use Rattle.std.specs.Prelude.{◌≡◌, ◌%◌, List, length};
    ghost use Rattle.pdb_space.specs.Omap.{OmapValue, mappings_of};

    ghost Value = { List OmapValue };

    ghost view = { λ r. mappings_of r.bytes.now };

    ghost invariant = { λ r. length r.bytes.now % 8 ≡ 0 };
}

/// Returns the target of the record at index `place`.
#[tactic(auto, using(crate::proofs::RecordLemmas::target_there))]
pub(crate) fn target_at(bytes: &[u8], place: usize) -> u32
    requires { place < length bytes.now / 8 }
    ensures { result ≡ target_at (mappings_of bytes.now) place }
{
    LittleEndian::read_u32(&bytes[place * RECORD_SIZE + 4..])
}

impl<'t> OMAPRecords<'t> {
    /// Returns an iterator over the records in `bytes`, whose length is a multiple of eight.
    pub(crate) fn new(bytes: &'t [u8]) -> Self
        requires { length bytes.now % 8 ≡ 0 }
        ensures { result ≡ mappings_of bytes.now }
    {
        OMAPRecords { bytes }
    }

    /// Returns an iterator over no records.
    #[tactic(auto, using(pdb_base::proofs::lemmas::Records::spelled_none))]
    pub(crate) fn empty() -> Self
        ensures { result ≡ [] }
    {
        OMAPRecords { bytes: &[] }
    }

    /// Returns the first record and an iterator over those after it, or None if no record is left.
    #[tactic(auto, using(pdb_base::proofs::lemmas::Records::spelled_none, pdb_base::proofs::lemmas::Records::spelled_first))]
    pub(crate) fn split_first(&self) -> Option<(OMAPRecord, OMAPRecords<'t>)>
        ensures { MatchOption result (self.now ≡ []) (λ split. self.now ≡ split.0 ∷ split.1) }
    {
        if self.bytes.len() < RECORD_SIZE {
            return None;
        }
        let (front, behind) = self.bytes.split_at(RECORD_SIZE);
        Some((OMAPRecord::read(front), OMAPRecords::new(behind)))
    }

    /// Returns the source of the first record, or `end` if no record is left.
    pub(crate) fn next_source(&self, end: u32) -> u32
        ensures { result ≡ next_source self.now end }
    {
        match self.split_first() {
            Some((record, _)) => record.source_address(),
            None => end,
        }
    }
}

impl<'t> Iterator for OMAPRecords<'t> {
    type Item = OMAPRecord;

    ghost next_gives = { YieldsFirst (λ records. records) };

    ghost remaining = { item_count (λ records. records) };

    fn next(&mut self) -> Option<OMAPRecord> {
        let (record, rest) = self.split_first()?;
        *self = rest;
        Some(record)
    }
}

impl<'t> FusedIterator for OMAPRecords<'t> {}
