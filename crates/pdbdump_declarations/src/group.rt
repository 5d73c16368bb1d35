//! Pieces of a class that overlap, which are of one union.

use crate::memory::AllocResult;
use crate::piece::{Piece, align_up};
use std::alloc::Global;

/// Pieces one behind another in the order of the records, of which no piece of another group shares a
/// byte. Those of a group of several are the members of a union.
#[derive(Clone, Copy)]
pub(crate) struct Group {
    /// The number of the first piece.
    pub(crate) first: usize,

    /// The number behind that of the last one.
    pub(crate) behind: usize,

    /// Where the group begins.
    pub(crate) start: u64,

    /// The byte behind it.
    pub(crate) end: u64,

    /// To how many bytes it is aligned where the class isn't packed.
    pub(crate) alignment: u64,
}

impl Group {
    /// Returns the group that has the pieces of this one and of one behind it.
    fn joined(self, behind: Group) -> Group {
        Group {
            first: self.first,
            behind: behind.behind,
            start: self.start.min(behind.start),
            end: self.end.max(behind.end),
            alignment: self.alignment.max(behind.alignment),
        }
    }

    /// Returns whether it has several pieces.
    pub(crate) fn is_union(&self) -> bool {
        self.behind.saturating_sub(self.first) > 1
    }

    /// Returns the byte behind it as the compiler lays it out, where it isn't packed if it is
    /// `natural`.
    pub(crate) fn laid_end(&self, is_natural: bool) -> u64 {
        if is_natural && self.is_union() {
            let width = self.end.saturating_sub(self.start);
            self.start.saturating_add(align_up(width, self.alignment))
        } else {
            self.end
        }
    }
}

/// Returns the groups of pieces.
///
/// # Errors
/// Fails if an allocation fails.
pub(crate) fn groups_of(alloc: Global, pieces: &[Piece]) -> AllocResult<Vec<Group>> {
    let mut groups: Vec<Group> = Vec::new(alloc);
    for (number, piece) in pieces.iter().enumerate() {
        let mut group = Group {
            first: number,
            behind: number.saturating_add(1),
            start: piece.start,
            end: piece.end,
            alignment: piece.alignment,
        };
        for _ in 0..pieces.len() {
            match groups.last() {
                Some(last) if group.start < last.end => {
                    group = last.joined(group);
                    groups.pop();
                }
                _ => break,
            }
        }
        groups.push(group)?;
    }
    Ok(groups)
}

/// Returns to how many bytes a class with these groups is aligned where it isn't packed.
pub(crate) fn greatest_alignment(groups: &[Group]) -> u64 {
    let mut alignment = 1;
    for group in groups {
        alignment = alignment.max(group.alignment);
    }
    alignment
}

/// Returns whether a place is a multiple of an alignment.
fn is_aligned(place: u64, alignment: u64) -> bool {
    alignment > 0 && place % alignment == 0
}

/// Returns whether each piece of a class of a size is where the compiler can put it without packing
/// the class.
pub(crate) fn is_natural(pieces: &[Piece], groups: &[Group], size: u64) -> bool {
    if !pieces
        .iter()
        .all(|piece| is_aligned(piece.start, piece.alignment))
    {
        return false;
    }
    let mut end = 0;
    for group in groups {
        if !is_aligned(group.start, group.alignment) || group.start < end {
            return false;
        }
        end = group.laid_end(true);
    }
    let alignment = greatest_alignment(groups);
    align_up(end, alignment) <= size && align_up(size, alignment) == size
}
