//! Places in the sections of a loaded image.

ghost use Rattle.std.specs.Prelude.{◌≡◌, ◌≢◌, ◌↔◌, ◌+◌, IsTrue};
ghost use Rattle.std.specs.Option.{option_map};
ghost use Rattle.pdb_space.specs.Sum.{Fits, clip_to_32_bits, if_fits_32_bits, wrap_to_32_bits};
ghost use Rattle.pdb_space.specs.SectionPlace.{at_offset, order_within_section};
ghost use Rattle.pdb_space.specs.SectionOrder.{is_partial_order};

use std::cmp::Ordering;
use std::marker::Model;
use std::ops::{Add, AddAssign};

/// A place in a section of an image as it is loaded.
///
/// Only places in the same section are ordered: `partial_cmp` returns None for places in two
/// different sections.
#[derive(Debug, Default, PartialEq, Eq, Hash, Clone, Copy)]
pub struct SectionOffset {
    /// The offset of the place in bytes from the section's start.
    pub offset: u32,

    /// The number of the section, counted from 1. No section has the number 0.
    pub section: u16,
}

impl Model for SectionOffset {
    ghost use Rattle.pdb_space.specs.SectionPlace.{SectionPlace};

    ghost Value = { SectionPlace };

    ghost view = { λ p. record { section = p.section; offset = p.offset } };

    ghost inverse = { λ place. record { offset = place.offset; section = place.section } };
}

impl SectionOffset {
    /// Returns the place `offset` bytes after the start of the section with the number `section`.
    pub fn new(section: u16, offset: u32) -> Self
        ensures { result ≡ record { section = section; offset = offset } }
    {
        SectionOffset { offset, section }
    }

    /// Returns whether the place is in a section, that is, whether its section number isn't 0.
    pub fn is_valid(self) -> bool
        ensures { IsTrue result ↔ (self.section ≢ 0) }
    {
        self.section != 0
    }

    /// Returns the place `offset` bytes after this one, or None if its offset doesn't fit in 32
    /// bits.
    pub fn checked_add(self, offset: u32) -> Option<Self>
        ensures { result ≡ option_map (at_offset self) (if_fits_32_bits (self.offset + offset)) }
    {
        let sum = self.offset.checked_add(offset)?;
        Some(SectionOffset::new(self.section, sum))
    }

    /// Returns the place `offset` bytes after this one, or the one at offset 0xffffffff if its
    /// offset doesn't fit in 32 bits.
    pub fn saturating_add(self, offset: u32) -> Self
        ensures { result ≡ at_offset self (clip_to_32_bits (self.offset + offset)) }
    {
        SectionOffset::new(self.section, self.offset.saturating_add(offset))
    }

    /// Returns the place `offset` bytes after this one, with its offset modulo 2^32: 0 follows
    /// 0xffffffff.
    pub fn wrapping_add(self, offset: u32) -> Self
        ensures { result ≡ at_offset self (wrap_to_32_bits (self.offset + offset)) }
    {
        SectionOffset::new(self.section, self.offset.wrapping_add(offset))
    }
}

/// Returns the place a number of bytes after this one. The caller must show that its offset fits in
/// 32 bits.
impl Add<u32> for SectionOffset {
    type Output = SectionOffset;

    ghost can_add = { λ place offset. Fits (place.offset + offset) };

    ghost add_gives = { λ place offset sum. sum ≡ at_offset place (place.offset + offset) };

    fn add(self, offset: u32) -> SectionOffset {
        SectionOffset::new(self.section, self.offset + offset)
    }
}

/// Moves the place up by a number of bytes. The caller must show that its offset still fits in 32
/// bits.
impl AddAssign<u32> for SectionOffset {
    ghost can_add_assign = { λ place offset. Fits (place.offset + offset) };

    ghost add_assign_gives = { λ place offset sum. sum ≡ at_offset place (place.offset + offset) };

    fn add_assign(&mut self, offset: u32) {
        self.offset += offset;
    }
}

impl PartialOrd for SectionOffset {
    ghost partial_cmp = { order_within_section };

    ghost laws = { is_partial_order };

    fn partial_cmp(&self, other: &SectionOffset) -> Option<Ordering> {
        if self.section == other.section {
            Some(self.offset.cmp(&other.offset))
        } else {
            None
        }
    }
}
