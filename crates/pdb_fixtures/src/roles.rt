//! A file whose debug header gives streams their roles, one of each kind.

ghost use Rattle.std.specs.Prelude.{◌≡◌};
ghost use Rattle.pdb_base.specs.Memory.{FailsOnlyForMemory};

use crate::builder::file_of;
use crate::table::table_of;
use pdb_base::Result;
use std::alloc::Global;

/// The number that means no stream.
pub const NONE: u16 = 0xffff;

/// Stream 1: the names `/a` of stream 2 and `/names` of stream 4.
pub const INFORMATION: &[u8] =
    b"\x94.1\x01\0\0\0\0\x01\0\0\0\0\0\0\0\0\0\0\0\0\0\0\0\0\0\0\0\x0a\0\0\0/names\0/a\0\x02\0\0\0\x04\0\0\0\0\0\0\0\0\0\0\0\x07\0\0\0\x02\0\0\0\0\0\0\0\x04\0\0\0";

/// A string table of the empty name and `foo`.
pub const NAMES: &[u8] = b"\xfe\xef\xfe\xef\x01\0\0\0\x05\0\0\0\0foo\0";

/// A section of the original image from 0x1000 on, of 0x100 bytes.
pub const ORIGINAL: &[u8] =
    b".text\0\0\0\0\x01\0\0\0\x10\0\0\0\x01\0\0\0\0\0\0\0\0\0\0\0\0\0\0\0\0\0\0\0\0\0\0";

/// That section in the image as it runs, from 0x5000 on.
const SECTIONS: &[u8] =
    b".text\0\0\0\0\x01\0\0\0P\0\0\0\x01\0\0\0\0\0\0\0\0\0\0\0\0\0\0\0\0\0\0\0\0\0\0";

/// OMAP to source, from 0x5000 to 0x1000.
const TO_SOURCE: &[u8] = b"\0P\0\0\0\x10\0\0";

/// OMAP from source, from 0x1000 to 0x5000.
const FROM_SOURCE: &[u8] = b"\0\x10\0\0\0P\0\0";

/// A frame of the older format, of the four bytes of code from 0x10 on.
const OLD_FRAME: &[u8] = b"\x10\0\0\0\x04\0\0\0\0\0\0\0\0\0\0\0";

/// A frame of the newer format, from 0x20 on.
const NEW_FRAME: &[u8] = b"\x20\0\0\0\x04\0\0\0\0\0\0\0\0\0\0\0\0\0\0\0\0\0\0\0\0\0\0\0\0\0\0\0";

/// The frames in the streams 9 and 10.
#[derive(Clone, Copy)]
pub enum Frames {
    /// Stream 9 has those of the older format, and stream 10 those of the newer one.
    Both,
    /// Stream 9 is absent, and stream 10 has those of the older format.
    OldAlone,
}

/// Stream 3 as far as the debug header: its header, by which that has 22 bytes and no other part
/// has any.
const DEBUG: &[u8] =
    b"\xff\xff\xff\xffw\x091\x01\x01\0\0\0\0\0\0\0\0\0\0\0\0\0\0\0\0\0\0\0\0\0\0\0\0\0\0\0\0\0\0\0\0\0\0\0\0\0\0\0\x16\0\0\0\0\0\0\0\0\0\0\0\0\0\0\0";

/// Returns stream 3 with these streams of all roles, in the order of the debug header.
///
/// # Errors
/// Returns `OutOfMemory` if an allocation fails.
pub fn debug_of(alloc: Global, roles: &[u16; 11]) -> Result<Vec<u8>>
    ensures memory { FailsOnlyForMemory result }
{
    let mut bytes = Vec::from_slice(alloc, DEBUG)?;
    for number in roles {
        bytes.extend_from_slice(&number.to_le_bytes())?;
    }
    Ok(bytes)
}

/// Returns a file of eleven streams with these roles: 1 has the names of streams, 2 a table of
/// these types, 3 the roles, 4 the names, 5 the original section headers, 6 the section headers, 7
/// OMAP to source, 8 OMAP from source, and 9 and 10 frames. Stream 2 is absent without types.
///
/// # Errors
/// Returns `OutOfMemory` if an allocation fails.
pub fn file_with(
    alloc: Global,
    roles: &[u16; 11],
    types: &[&[u8]],
    frames: Frames,
) -> Result<Vec<u8>>
    ensures memory { FailsOnlyForMemory result }
{
    let debug = debug_of(alloc, roles)?;
    let table = table_of(alloc, types)?;
    let stream_2 = if types.is_empty() {
        None
    } else {
        Some(table.as_slice())
    };
    let (stream_9, stream_10) = match frames {
        Frames::Both => (Some(OLD_FRAME), Some(NEW_FRAME)),
        Frames::OldAlone => (None, Some(OLD_FRAME)),
    };
    let streams = [
        Some(b"".as_slice()),
        Some(INFORMATION),
        stream_2,
        Some(debug.as_slice()),
        Some(NAMES),
        Some(ORIGINAL),
        Some(SECTIONS),
        Some(TO_SOURCE),
        Some(FROM_SOURCE),
        stream_9,
        stream_10,
    ];
    file_of(alloc, &streams)
}
