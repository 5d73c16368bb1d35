//! Bytes of which some are replaced, streams of bytes, and lists of pages.

use pdb_base::{Error, Result, Stream};
use pdb_msf::PageList;
use std::alloc::Global;

/// Returns bytes of which those at these places are replaced. A place past the end changes nothing.
pub fn with_bytes(mut bytes: Vec<u8>, edits: &[(usize, u8)]) -> Vec<u8> {
    for (place, byte) in edits {
        if let Some(at) = bytes.get_mut(*place) {
            *at = *byte;
        }
    }
    bytes
}

/// Returns a stream of these bytes.
///
/// # Errors
/// Returns `UnimplementedFeature` if there are more than a stream can have.
pub fn stream_of(bytes: Vec<u8>) -> Result<Stream> {
    if bytes.len() >= 0xffff_ffff {
        return Err(Error::UnimplementedFeature("a long stream"));
    }
    Ok(Stream::new(bytes))
}

/// Returns a list of pages of 4096 bytes, added in turn, each once more if an allocation fails.
///
/// # Errors
/// Returns `OutOfMemory` if an allocation fails again.
pub fn pages_of(alloc: Global, pages: &[u32]) -> Result<PageList> {
    let mut list = PageList::new(alloc, 4096);
    for page in pages {
        if !list.is_truncated() && list.len() < 0x10000 {
            match list.push(*page) {
                Err(Error::OutOfMemory) => list.push(*page)?,
                pushed => pushed?,
            }
        }
    }
    Ok(list)
}
