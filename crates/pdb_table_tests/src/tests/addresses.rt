//! Addresses, and places in sections.

use pdb_space::{PdbInternalRva, PdbInternalSectionOffset, Rva, SectionOffset};
use std::cmp::Ordering;

/// The largest number of 32 bits.
const LAST: u32 = 0xffff_ffff;

/// Two numbers, and their sum or difference: checked, saturating and wrapping.
type Row = (u32, u32, Option<u32>, u32, u32);

/// Sums: the first number is an address, or an offset in section 3.
const SUMS: &[Row] = &[
    (0x1000, 0x42, Some(0x1042), 0x1042, 0x1042),
    (LAST - 1, 1, Some(LAST), LAST, LAST),
    (LAST, 1, None, LAST, 0),
    (LAST - 0xf, 0x20, None, LAST, 0x10),
    (5, 2, Some(7), 7, 7),
];

/// Differences: how far the first number is from the second, as addresses.
const DIFFERENCES: &[Row] = &[
    (0x1042, 0x1000, Some(0x42), 0x42, 0x42),
    (7, 7, Some(0), 0, 0),
    (0, 1, None, 0, LAST),
    (0x10, LAST - 0xf, None, 0, 0x20),
];

/// An offset in section 1, one in another section, and how they lie.
const ORDERS: &[(u32, u16, u32, Option<Ordering>)] = &[
    (5, 1, 6, Some(Ordering::Less)),
    (6, 1, 5, Some(Ordering::Greater)),
    (5, 1, 5, Some(Ordering::Equal)),
    (5, 2, 5, None),
];

/// Whether the sums of a case are those of an address and of an offset of these kinds.
macro_rules! are_sums {
    ($row:ident, $address:ident, $place:ident) => {{
        let (from, more, checked, saturating, wrapping) = *$row;
        let place = $place::new(3, from);
        $address(from).checked_add(more) == checked.map(|sum| $address(sum))
            && $address(from).saturating_add(more) == $address(saturating)
            && $address(from).wrapping_add(more) == $address(wrapping)
            && place.checked_add(more) == checked.map(|sum| $place::new(3, sum))
            && place.saturating_add(more) == $place::new(3, saturating)
            && place.wrapping_add(more) == $place::new(3, wrapping)
    }};
}

/// Whether the differences of a case are those of addresses of this kind.
macro_rules! are_differences {
    ($row:ident, $address:ident) => {{
        let (to, from, checked, saturating, wrapping) = *$row;
        $address(to).checked_sub($address(from)) == checked
            && $address(to).saturating_sub($address(from)) == saturating
            && $address(to).wrapping_sub($address(from)) == wrapping
    }};
}

/// Whether offsets of this kind lie as a case says.
macro_rules! lie {
    ($row:ident, $place:ident) => {{
        let (offset, section, other, order) = *$row;
        $place::new(1, offset).partial_cmp(&$place::new(section, other)) == order
    }};
}

/// Whether a case is so for both kinds of addresses and places.
fn add_up(row: &Row) -> bool {
    are_sums!(row, Rva, SectionOffset) && are_sums!(row, PdbInternalRva, PdbInternalSectionOffset)
}

fn differ(row: &Row) -> bool {
    are_differences!(row, Rva) && are_differences!(row, PdbInternalRva)
}

fn are_ordered(row: &(u32, u16, u32, Option<Ordering>)) -> bool {
    lie!(row, SectionOffset) && lie!(row, PdbInternalSectionOffset)
}

#[test]
fn numbers(rt: HostRuntime) {
    for row in SUMS {
        assert!(rt; add_up(row), "{row:?}");
    }
    for row in DIFFERENCES {
        assert!(rt; differ(row), "{row:?}");
    }
    for row in ORDERS {
        assert!(rt; are_ordered(row), "{row:?}");
    }
}
