//! Where gaps are in what is shown, and what they are called.

use pdb_types::{Gap, GapKind, LayoutField};

/// Where a gap begins in what is shown, and how large it is. Each number is at most 2^64 - 1.
#[derive(Clone, Copy)]
pub struct GapPlace {
    /// The byte in which it begins.
    pub offset: u64,

    /// The bit of that byte at which it begins.
    pub bit: u64,

    /// How many whole bytes it has.
    pub bytes: u64,

    /// How many bits it has.
    pub bits: u64,
}

/// Returns a number, or 2^64 - 1 if that is less.
fn cap_at_64_bits(number: u128) -> u64 {
    u64::try_from(number).unwrap_or(u64::MAX)
}

/// Returns where a gap is in what is shown, of which its class begins at an offset.
pub fn gap_place(start: u64, gap: &Gap) -> GapPlace {
    let width = gap.bits.end.saturating_sub(gap.bits.start);
    GapPlace {
        offset: start.saturating_add(cap_at_64_bits(gap.bits.start / 8)),
        bit: (gap.bits.start % 8) as u64,
        bytes: cap_at_64_bits(width / 8),
        bits: cap_at_64_bits(width),
    }
}

/// What a gap is called.
#[derive(Clone, Copy, PartialEq, Eq)]
pub enum GapRole {
    /// A hole: bytes before the end of the last field.
    Hole,

    /// Padding: bytes behind it, or the byte of a class without fields.
    Padding,

    /// Bits that are left over in bytes of which fields take other bits.
    UnusedBits,

    /// The virtual base classes.
    VirtualBases,
}

/// Returns the bit behind the last one of fields.
pub fn fields_end(fields: &[LayoutField<'_>]) -> u128 {
    let mut end = 0;
    for field in fields {
        end = field.bits().end.max(end);
    }
    end
}

/// Returns what a gap of a class is called whose fields end at a bit.
pub fn gap_role(gap: &Gap, end: u128) -> GapRole {
    match gap.kind {
        GapKind::Hole if gap.bits.start >= end => GapRole::Padding,
        GapKind::Hole => GapRole::Hole,
        GapKind::UnusedBits => GapRole::UnusedBits,
        GapKind::VirtualBases => GapRole::VirtualBases,
    }
}
