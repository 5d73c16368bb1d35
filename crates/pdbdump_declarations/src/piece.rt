//! The pieces of a class in a header.

/// A part of a class that a header declares at once: a member, a base class, or the bit fields of one
/// unit.
#[derive(Drop)]
pub(crate) struct Piece {
    /// Where it begins, in bytes from the start of the class.
    pub(crate) start: u64,

    /// The byte behind it.
    pub(crate) end: u64,

    /// To how many bytes it is aligned where the class isn't packed.
    pub(crate) alignment: u64,

    /// The lines that declare it.
    pub(crate) text: Vec<u8>,

    /// Whether it is several members.
    pub(crate) is_many: bool,

    /// Its name in the list of the bases of the class, if it is a base class.
    pub(crate) base: Option<Vec<u8>>,
}

/// Returns the first multiple of an alignment that isn't below a place, or the place itself if the
/// alignment is 0.
pub(crate) fn align_up(place: u64, alignment: u64) -> u64 {
    if alignment == 0 {
        return place;
    }
    let over = place % alignment;
    if over == 0 {
        place
    } else {
        place.saturating_add(alignment.saturating_sub(over))
    }
}
