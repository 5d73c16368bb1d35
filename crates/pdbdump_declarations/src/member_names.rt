//! The names of members and of enumerators in a header.

use crate::identifier::{is_identifier, push_letters, text_hash};
use crate::memory::AllocResult;
use pdbdump_types::TextBuffer;
use std::alloc::Global;

/// Returns a name as an identifier, which may be that of another member too.
fn identifier_of(alloc: Global, name: &[u8]) -> AllocResult<Vec<u8>> {
    let mut identifier = TextBuffer::new(alloc);
    if name.is_empty() || name[0].is_ascii_digit() {
        identifier.push(b"_");
    }
    push_letters(name, &mut identifier);
    if !is_identifier(identifier.as_bytes()) {
        identifier.push(b"_");
    }
    identifier.finish()
}

/// Returns a hash for each of some texts, in increasing order.
fn hashes_of(alloc: Global, texts: &[Vec<u8>]) -> AllocResult<Vec<u64>> {
    let mut hashes = Vec::new(alloc);
    for text in texts {
        hashes.push(text_hash(text))?;
    }
    hashes.sort_unstable();
    Ok(hashes)
}

/// Returns whether a number is at more than one place among numbers in increasing order.
fn is_repeated(hashes: &[u64], hash: u64) -> bool {
    let start = hashes.partition_point(|other| *other < hash);
    let end = hashes.partition_point(|other| *other <= hash);
    end.saturating_sub(start) > 1
}

/// Returns names as identifiers that differ from each other and from a name that is taken: those that
/// don't get their number as a suffix.
///
/// # Errors
/// Fails if an allocation fails.
pub(crate) fn distinct_names(
    alloc: Global,
    names: &[&[u8]],
    taken: &[u8],
) -> AllocResult<Vec<Vec<u8>>> {
    let mut identifiers = Vec::new(alloc);
    for name in names {
        identifiers.push(identifier_of(alloc, name)?)?;
    }
    let hashes = hashes_of(alloc, &identifiers)?;
    let mut distinct = Vec::new(alloc);
    for (number, identifier) in identifiers.iter().enumerate() {
        let mut name = TextBuffer::new(alloc);
        name.push(identifier);
        if is_repeated(&hashes, text_hash(identifier)) || identifier.as_slice() == taken {
            name.push_string(format!(in alloc; "_{number}"));
        }
        distinct.push(name.finish()?)?;
    }
    Ok(distinct)
}
