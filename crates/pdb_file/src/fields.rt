//! Fields at fixed offsets.

ghost use Rattle.std.specs.Prelude.{◌≡◌, ◌+◌, ◌≤◌, length};
ghost use Rattle.pdb_base.specs.Reading.{number_in, word_at};

use byteorder::{ByteOrder, LittleEndian};

/// Returns the little-endian `u16` at an offset.
pub(crate) fn u16_in(bytes: &[u8], offset: usize) -> u16
    requires { offset + 2 ≤ length bytes.now }
    ensures { result ≡ number_in 2 offset bytes.now }
{
    LittleEndian::read_u16(&bytes[offset..offset + 2])
}

/// Returns the little-endian `u32` at an offset.
pub(crate) fn u32_in(bytes: &[u8], offset: usize) -> u32
    requires { offset + 4 ≤ length bytes.now }
    ensures { result ≡ word_at offset bytes.now }
{
    LittleEndian::read_u32(&bytes[offset..offset + 4])
}
