//! Tables of frames.

ghost use Rattle.std.specs.Prelude.{◌≡◌, ◌↔◌, [], IsTrue, unwrap_or};
ghost use Rattle.pdb_base.specs.Answer.{Gives};
ghost use Rattle.pdb_frames.specs.Stored.{old_frames, new_frames};
ghost use Rattle.pdb_frames.specs.Merge.{by_heads, merge};
ghost use Rattle.pdb_frames.specs.Table.{BeginsSomewhere, IsFrameStep, StartsIncrease, merge_from, frame_table_of};

use crate::addr_range::AddrRange;
use crate::frame_data::FrameData;
use crate::frame_record::{FrameRecord, first};
use crate::new_frame_data::NewFrameData;
use crate::old_frame_data::OldFrameData;
use crate::search::starting_at;
use pdb_base::{Error, FallibleIterator, Result, Stream};
use pdb_space::PdbInternalRva;
use std::marker::Model;

/// The frames of a program, from two streams: one of records of the older format, one of the newer.
/// A program can have both, one or none.
///
/// The streams are kept as they are, and records are read when they are used.
#[derive(Debug, Drop)]
pub struct FrameTable {
    old: Option<Stream>,
    new: Option<Stream>,
}

impl Model for FrameTable {
    ghost use Rattle.std.specs.Prelude.{◌≡◌, ◌%◌, [], length, unwrap_or};
    ghost use Rattle.pdb_frames.specs.Table.{Frames};
    ghost use Rattle.pdb_frames.specs.Stored.{old_frames, new_frames};
    ghost use Rattle.pdb_frames.specs.declared.old_frame_data.TheConstants.{OLD_SIZE};
    ghost use Rattle.pdb_frames.specs.declared.new_frame_data.TheConstants.{NEW_SIZE};

    ghost Value = { Frames };

    ghost view = { λ t. record {
      old = old_frames (unwrap_or t.old []);
      new = new_frames (unwrap_or t.new []);
    } };

    ghost invariant = { λ t.
        (length (unwrap_or t.old []) % OLD_SIZE ≡ 0) × (length (unwrap_or t.new []) % NEW_SIZE ≡ 0) };
}

/// Returns the bytes of a stream, or no bytes if it is absent.
fn bytes_of(stream: &Option<Stream>) -> &[u8]
    ensures { result.now ≡ unwrap_or stream.now [] }
{
    match stream {
        Some(stream) => stream.as_slice(),
        None => &[],
    }
}

impl FrameTable {
    /// Parses the table in two streams: one of records of the older format, one of the newer. A
    /// stream that is absent or empty holds no records.
    ///
    /// # Errors
    /// Fails with `InvalidStreamLength("FPO")` if the length of the old stream isn't a multiple of
    /// 16 bytes, and then with `InvalidStreamLength("FrameData")` if that of the new one isn't a
    /// multiple of 32.
    #[tactic(auto, unfolding(crate::specs::Table::frame_table_of))]
    pub fn parse(old: Option<Stream>, new: Option<Stream>) -> Result<FrameTable>
        ensures { Gives (λ table. table) result (frame_table_of old new) }
    {
        if !bytes_of(&old).len().is_multiple_of(OldFrameData::SIZE) {
            return Err(Error::InvalidStreamLength("FPO"));
        }
        if !bytes_of(&new).len().is_multiple_of(NewFrameData::SIZE) {
            return Err(Error::InvalidStreamLength("FrameData"));
        }
        Ok(FrameTable { old, new })
    }

    /// Returns whether the table has no frames.
    #[tactic(auto, using(pdb_base::proofs::lemmas::Records::spelled_nothing, pdb_base::proofs::lemmas::Records::none_spelled))]
    pub fn is_empty(&self) -> bool
        ensures { IsTrue result ↔ ((self.now.old ≡ []) × (self.now.new ≡ [])) }
    {
        bytes_of(&self.old).is_empty() && bytes_of(&self.new).is_empty()
    }

    /// Returns an iterator over all frames, ordered by their starts. If an old and a new record
    /// start at the same address, the iterator yields only the new one.
    ///
    /// If the starts of a stream don't increase from record to record, the first records left in
    /// both streams are compared all the same: the one that starts lower comes next, and of two
    /// that start at the same address only the new one.
    #[tactic(auto, using(crate::proofs::TableLemmas::all_merged))]
    pub fn iter(&self) -> FrameDataIter<'_>
        ensures merged { StartsIncrease self.now → result ≡ merge self.now.old self.now.new }
        ensures heads { result ≡ by_heads self.now.old self.now.new }
    {
        FrameDataIter {
            old: bytes_of(&self.old),
            new: bytes_of(&self.new),
        }
    }

    /// Returns an iterator over the frames from an address on. In each stream it begins with the
    /// record that starts at the address; otherwise with the last one that starts below it, if that
    /// one's code covers the address; otherwise with the first one that starts above it.
    ///
    /// If the starts of a stream don't increase from record to record, the iterator begins at some
    /// record of each stream, or after the last one.
    #[tactic(auto, using(crate::proofs::TableLemmas::end_merged, crate::proofs::TableLemmas::end_somewhere))]
    pub fn iter_at_rva(&self, rva: PdbInternalRva) -> FrameDataIter<'_>
        ensures merged { StartsIncrease self.now → result ≡ merge_from rva self.now }
        ensures somewhere { BeginsSomewhere self.now result }
    {
        FrameDataIter {
            old: starting_at::<OldFrameData>(bytes_of(&self.old), rva.0),
            new: starting_at::<NewFrameData>(bytes_of(&self.new), rva.0),
        }
    }
}

/// An iterator over the frames of a table. `next` never fails.
#[derive(Debug, Drop)]
pub struct FrameDataIter<'t> {
    old: &'t [u8],
    new: &'t [u8],
}

impl<'t> Model for FrameDataIter<'t> {
    ghost use Rattle.std.specs.Prelude.{List};
    ghost use Rattle.pdb_frames.specs.declared.frame_data.FrameData.{FrameData};
    ghost use Rattle.pdb_frames.specs.Stored.{old_frames, new_frames};
    ghost use Rattle.pdb_frames.specs.Merge.{by_heads};

    ghost Value = { List FrameData };

    ghost view = { λ i. by_heads (old_frames i.old.now) (new_frames i.new.now) };
}

/// Returns an iterator over no frames.
impl<'t> Default for FrameDataIter<'t> {
    ghost is_default = { λ frames. frames ≡ [] };

    #[tactic(auto, using(pdb_base::proofs::lemmas::Records::spelled_nothing))]
    fn default() -> Self {
        FrameDataIter { old: &[], new: &[] }
    }
}

impl<'t> FallibleIterator for FrameDataIter<'t> {
    type Item = FrameData;

    type Error = Error;

    ghost next_gives = { IsFrameStep };

    fn next(&mut self) -> Result<Option<FrameData>> {
        match (
            first::<OldFrameData>(self.old),
            first::<NewFrameData>(self.new),
        ) {
            (None, None) => Ok(None),
            (Some((frame, others)), None) => {
                self.old = others;
                Ok(Some(FrameData::from(&frame)))
            }
            (None, Some((frame, others))) => {
                self.new = others;
                Ok(Some(FrameData::from(&frame)))
            }
            (Some((old, other_old)), Some((new, other_new))) => {
                if old.code_start < new.code_start {
                    self.old = other_old;
                    return Ok(Some(FrameData::from(&old)));
                }
                if old.code_start == new.code_start {
                    self.old = other_old;
                }
                self.new = other_new;
                Ok(Some(FrameData::from(&new)))
            }
        }
    }
}
