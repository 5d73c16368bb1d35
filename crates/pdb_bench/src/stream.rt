//! Streams of bytes that the driver holds.

ghost use Rattle.std.specs.Prelude.{◌≡◌, IfSome};

use pdb_container::Stream;
use std::alloc::Global;

/// A stream of these bytes, which are copied. None if there are too many for a stream, or an
/// allocation fails.
pub fn stream_of(alloc: Global, bytes: &[u8]) -> Option<Stream>
    ensures { IfSome result (λ stream. stream ≡ bytes.now) }
{
    if bytes.len() >= 0xffff_ffff {
        return None;
    }
    let bytes = bytes.to_vec(alloc).ok()?;
    Some(Stream::new(bytes))
}
