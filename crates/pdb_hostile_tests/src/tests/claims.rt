//! A file whose numbers all claim too much.

use pdb_base::{Error, Result};
use pdb_container::{Query, Reply, run};
use std::alloc::Global;
use std::test::Fail;

/// What a file begins with, and its header up to the directory's size: pages of 256 bytes, the free
/// page map 1, and 8 pages used.
const FRONT: &[u8] = b"Microsoft C/C++ MSF 7.00\r\n\x1aDS\0\0\0\0\x01\0\0\x01\0\0\0\x08\0\0\0";

/// A file of 4096 bytes in pages of 256, whose directory has so many bytes and lies, as its
/// location does, on page 1 all over: each of its words is 1. The word behind the directory's size
/// is 0.
fn claiming(alloc: Global, directory_size: u64) -> Result<Vec<u8>> {
    let mut file = Vec::from_slice(alloc, FRONT)?;
    file.extend_from_slice(&directory_size.to_le_bytes())?;
    for _ in 0..1011u16 {
        file.extend_from_slice(b"\x01\0\0\0")?;
    }
    Ok(file)
}

/// Questions for streams 0 and 1.
const STREAMS: &[Query] = rows! {
    Query::Stream { number: 0, limit: None };
    Query::Stream { number: 1, limit: None };
};

/// Whether a reply is a stream of the byte 1.
fn is_one_byte(reply: &Reply) -> bool {
    matches!(reply, Reply::Bytes(bytes) if bytes.as_slice() == [1u8].as_slice())
}

/// Whether a reply is that stream 1 is absent.
fn is_absent(reply: &Reply) -> bool {
    matches!(reply, Reply::Refused(Error::StreamNotFound(1)))
}

/// Whether a file has one stream, of the byte 1, or else ends too soon.
fn is_so(replies: Result<Vec<Reply>>, has_stream: bool) -> bool {
    match &replies {
        Ok(replies) => has_stream && are_one_stream(replies),
        Err(Error::UnexpectedEof) => !has_stream,
        Err(_) => false,
    }
}

/// Whether replies are the byte 1, and that stream 1 is absent.
fn are_one_stream(replies: &[Reply]) -> bool {
    replies.first().is_some_and(is_one_byte) && replies.get(1).is_some_and(is_absent)
}

/// Whether a file whose directory has so many bytes has one stream, or else ends too soon.
fn is_read(alloc: Global, directory_size: u64, has_stream: bool) -> Result<bool> {
    let file = claiming(alloc, directory_size)?;
    Ok(is_so(run(alloc, file, STREAMS), has_stream))
}

#[test]
fn directory_sizes(rt: HostRuntime) -> std::result::Result<(), Fail> {
    for (size, has_stream) in [(16_564_224, true), (16_564_225, false)] {
        assert!(rt; is_read(rt.alloc(), size, has_stream)?, "{size} bytes");
    }
    Ok(())
}
