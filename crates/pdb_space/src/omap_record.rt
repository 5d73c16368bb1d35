//! A record of an OMAP table.

ghost use Rattle.std.specs.Prelude.{◌≡◌, ◌+◌, ◌-◌, ◌≤◌, length, min};
ghost use Rattle.pdb_space.specs.Sum.{largest};
ghost use Rattle.pdb_space.specs.Omap.{first_mapping, mapping_of, move_address};
ghost use Rattle.pdb_space.specs.Ranges.{part};

use byteorder::{ByteOrder, LittleEndian};
use pdb_base::{Le, Parse, ParseBuffer, Result};
use std::marker::Model;
use std::ops::Range;

/// A record that says where the addresses from its source up to the next record's source are moved.
///
/// Records are ordered by their source, and those with the same source by their target.
#[derive(Debug, PartialEq, Eq, PartialOrd, Ord, Clone, Copy)]
pub struct OMAPRecord {
    source: u32,
    target: u32,
}

impl Model for OMAPRecord {
    ghost use Rattle.pdb_space.specs.Omap.{OmapValue};

    ghost Value = { OmapValue };

    ghost view = { λ r. record { source = r.source; target = r.target } };

    ghost inverse = { λ mapping. record { source = mapping.source; target = mapping.target } };
}

impl OMAPRecord {
    /// Returns the record that moves `source_address` to `target_address`, and the addresses after
    /// it by the same distance. A target of 0 means nowhere.
    pub fn new(source_address: u32, target_address: u32) -> Self
        ensures { result ≡ record { source = source_address; target = target_address } }
    {
        OMAPRecord {
            source: source_address,
            target: target_address,
        }
    }

    /// Returns the first address that the record moves.
    pub fn source_address(self) -> u32
        ensures { result ≡ self.source }
    {
        self.source
    }

    /// Returns the address to which the record moves its source, or 0 if it moves it nowhere.
    pub fn target_address(self) -> u32
        ensures { result ≡ self.target }
    {
        self.target
    }

    /// Returns the record in these eight bytes.
    #[tactic(auto, unfolding(crate::specs::Omap::mapping_of))]
    pub(crate) fn read(bytes: &[u8]) -> Self
        requires { length bytes.now ≡ 8 }
        ensures { result ≡ mapping_of bytes.now }
    {
        OMAPRecord {
            source: LittleEndian::read_u32(bytes),
            target: LittleEndian::read_u32(&bytes[4..]),
        }
    }

    /// Returns where the record moves an address at or after its source, or None if the target is 0
    /// or the result doesn't fit in 32 bits.
    #[tactic(auto, unfolding(crate::specs::Omap::move_address))]
    pub(crate) fn move_address(self, address: u32) -> Option<u32>
        requires { self.source ≤ address }
        ensures { result ≡ move_address self address }
    {
        if self.target == 0 {
            return None;
        }
        self.target.checked_add(address - self.source)
    }

    /// Returns the range to which the record moves its part of the given range, cut to end at
    /// 0xffffffff at most, or None if that is empty or the target is 0. `next` is the address at
    /// which the record's part ends.
    #[tactic(auto, unfolding(crate::specs::Ranges::part, crate::specs::Ranges::unless_empty))]
    pub(crate) fn part(self, next: u32, asked: &Range<u32>) -> Option<Range<u32>>
        ensures { result ≡ part self next asked.now }
    {
        if self.target == 0 {
            return None;
        }
        let start = self.saturating_target(asked.start);
        let end = self.saturating_target(next.min(asked.end));
        if start < end { Some(start..end) } else { None }
    }

    /// Returns the target plus the distance of `address` from the source, at most 0xffffffff. The
    /// distance of an address before the source is 0.
    fn saturating_target(self, address: u32) -> u32
        ensures { result ≡ min (self.target + (address - self.source)) largest }
    {
        self.target
            .saturating_add(address.saturating_sub(self.source))
    }
}

/// Reads the source as a `u32`, and then the target as another.
impl Parse<Le> for OMAPRecord {
    ghost reads = { λ _. first_mapping };

    #[tactic(auto, unfolding(pdb_base::specs::Reading::front_at))]
    fn parse_from(bytes: &[u8], _: Le) -> Result<(OMAPRecord, usize)> {
        let mut buffer = ParseBuffer::from(bytes);
        let record = buffer.take(8)?;
        Ok((OMAPRecord::read(record), buffer.pos()))
    }
}
