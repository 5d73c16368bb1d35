//! Numbers of four bytes each, and parts of bytes.

ghost use Rattle.std.specs.Prelude.{◌≡◌, ◌+◌, ◌≤◌, drop, length, take};
ghost use Rattle.pdb_base.specs.Reading.{word_at};

use byteorder::{ByteOrder, LittleEndian};

/// Returns the little-endian number at an offset in bytes.
pub(crate) fn word_at(offset: usize, bytes: &[u8]) -> u32
    requires { offset + 4 ≤ length bytes.now }
    ensures { result ≡ word_at offset bytes.now }
{
    LittleEndian::read_u32(&bytes[offset..offset + 4])
}

/// Returns the bytes of a part that begins at an offset, as many of them as there are.
#[tactic(auto, using(std::proofs::lemmas::List::drop_min, std::proofs::lemmas::List::take_min))]
pub(crate) fn part_at(bytes: &[u8], start: usize, size: u32) -> &[u8]
    ensures { result.now ≡ take size (drop start bytes.now) }
{
    let from = &bytes[start.min(bytes.len())..];
    &from[..(size as usize).min(from.len())]
}
