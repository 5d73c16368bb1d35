//! Slices of a file that are joined in the file's own memory.

ghost use Rattle.std.specs.Prelude.{◌≡◌, ◌+◌, ◌≤◌, IsTrue, length, map, slice_index, take};
ghost use Rattle.pdb_msf.specs.Source.{positions};
ghost use Rattle.pdb_msf.specs.InPlace.{IsMoved, can_be_joined};

use crate::source::SourceSlice;

/// Returns whether the bytes that the slices name can be joined at the start of a file of this
/// length, slice after slice: each slice is within the file, and none begins before the place to
/// which it is moved, so that no byte is overwritten that is still to be moved.
///
/// The pages of a stream can be joined so if their numbers increase, as most programs write them.
pub fn can_be_joined(len: usize, slices: &[SourceSlice]) -> bool
    ensures { result ≡ can_be_joined len 0 slices.now }
{
    let mut front = 0;
    for slice in slices {
        let start = slice.offset as usize;
        if start < front || start > len || slice.size > len - start {
            return false;
        }
        front += slice.size;
    }
    true
}

/// Joins the bytes that the slices name at the start of the file, truncates the file to them, and
/// frees the memory behind them. If the system can't shrink the block, the bytes stay in the larger
/// one.
pub fn join_slices(mut file: Vec<u8>, slices: &[SourceSlice]) -> Vec<u8>
    requires { IsTrue (can_be_joined (length file.items) 0 slices.now) }
    ensures { result.items ≡ map (slice_index file.items) (positions slices.now) }
{
    let size = join(&mut file, slices);
    file.truncate(size);
    file.shrink_to_fit();
    file
}

// Joins the bytes that the slices name at the start of the file, and returns how many there are.
fn join(file: &mut [u8], slices: &[SourceSlice]) -> usize
    requires { IsTrue (can_be_joined (length file.old) 0 slices.now) }
    ensures joined { take result file.new ≡ map (slice_index file.old) (positions slices.now) }
    ensures len { length file.new ≡ length file.old }
    ensures within { result ≤ length file.old }
{
    let mut front = 0;
    for slice in slices {
        move_down(file, slice.offset as usize, front, slice.size);
        front += slice.size;
    }
    front
}

// Moves bytes down, piece by piece: a piece is no larger than the distance, so that it doesn't
// overlap with the place to which it is copied.
fn move_down(bytes: &mut [u8], from: usize, to: usize, size: usize)
    requires down { to ≤ from }
    requires within { from + size ≤ length bytes.old }
    ensures { IsMoved from to size bytes.old bytes.new }
{
    if to == from {
        return;
    }
    let mut moved = 0;
    while moved < size {
        let count = (size - moved).min(from - to);
        move_piece(bytes, from + moved, to + moved, count);
        moved += count;
    }
}

// Moves bytes down to a place with which they don't overlap.
fn move_piece(bytes: &mut [u8], from: usize, to: usize, count: usize)
    requires down { to + count ≤ from }
    requires within { from + count ≤ length bytes.old }
    ensures { IsMoved from to count bytes.old bytes.new }
{
    let (front, behind) = bytes.split_at_mut(from);
    front[to..to + count].copy_from_slice(&behind[..count]);
}
