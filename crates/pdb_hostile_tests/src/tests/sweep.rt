//! All files that differ from the example file in one byte, and all its prefixes: a run over each
//! of them ends, and replies to each query unless the file can't be opened.

use pdb_base::Error;
use pdb_container::{Query, Reply, run};
use pdb_fixtures::{s1, with_bytes};
use std::alloc::Global;
use std::test::Fail;

/// A query for all bytes of a stream.
fn stream(number: u32) -> Query {
    Query::Stream {
        number,
        limit: None,
    }
}

/// Returns whether none of these replies is `OutOfMemory`, since there is plenty of memory.
fn have_memory(replies: &[Reply]) -> bool {
    for reply in replies {
        if matches!(reply, Reply::Refused(Error::OutOfMemory)) {
            return false;
        }
    }
    true
}

/// Returns whether a run over a file, which queries the streams of the example file and one that is
/// not in it, replies to each query, or fails since the file can't be opened.
fn ends(alloc: Global, file: Vec<u8>) -> bool {
    let queries = [stream(0), stream(1), stream(2), stream(3), stream(4)];
    match run(alloc, file, &queries) {
        Ok(replies) => replies.len() == queries.len() && have_memory(&replies),
        Err(error) => !matches!(error, Error::OutOfMemory),
    }
}

#[test]
fn bytes_and_prefixes(rt: HostRuntime) -> Result<(), Fail> {
    let file = s1(rt.alloc())?;
    for (place, byte) in file.iter().enumerate() {
        for other in [0, 0xff, byte.wrapping_add(1)] {
            let copy = Vec::from_slice(rt.alloc(), &file)?;
            let changed = with_bytes(copy, &[(place, other)]);
            assert!(rt; ends(rt.alloc(), changed), "byte {place} is {other}");
        }
        let cut = Vec::from_slice(rt.alloc(), &file[..place.min(file.len())])?;
        assert!(rt; ends(rt.alloc(), cut), "cut to {place} bytes");
    }
    Ok(())
}
