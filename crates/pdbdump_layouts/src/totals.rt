//! What the gaps of a layout add up to.

use pdb_types::Layout;
use pdbdump_types::{GapRole, fields_end, gap_place, gap_role};

/// How many gaps of a layout there are, and how large they are together. Each number is at most
/// 2^64 - 1.
#[derive(Clone, Copy)]
pub(crate) struct Totals {
    /// How many holes there are.
    pub(crate) holes: u64,

    /// How many bytes the holes have.
    pub(crate) hole_bytes: u64,

    /// How many bytes of padding there are.
    pub(crate) padding_bytes: u64,

    /// How many unused bits there are outside holes and padding.
    pub(crate) unused_bits: u64,
}

/// Returns what the gaps of a layout add up to.
pub(crate) fn totals_of(layout: &Layout<'_>) -> Totals {
    let mut totals = Totals {
        holes: 0,
        hole_bytes: 0,
        padding_bytes: 0,
        unused_bits: 0,
    };
    let end = fields_end(&layout.fields);
    for gap in &layout.gaps {
        let place = gap_place(0, gap);
        match gap_role(gap, end) {
            GapRole::Hole => {
                totals.holes = totals.holes.saturating_add(1);
                totals.hole_bytes = totals.hole_bytes.saturating_add(place.bytes);
            }
            GapRole::Padding => {
                totals.padding_bytes = totals.padding_bytes.saturating_add(place.bytes);
            }
            GapRole::UnusedBits => {
                totals.unused_bits = totals.unused_bits.saturating_add(place.bits);
            }
            GapRole::VirtualBases => {}
        }
    }
    totals
}
