//! What the tests of several crates ask of an answer.

use crate::failing::GONE;
use pdb_base::{Error, Result, Stream};
use pdb_msf::SourceSlice;
use std::alloc::Global;
use std::io::ErrorKind;

/// Returns whether an error is the same as another, by its variant and what is in it. Those of
/// sources are not among them.
pub fn is_error(found: &Error, want: &Error) -> bool {
    match (found, want) {
        (Error::UnexpectedEof, Error::UnexpectedEof)
        | (Error::UnrecognizedFileFormat, Error::UnrecognizedFileFormat)
        | (Error::StreamNameNotFound, Error::StreamNameNotFound)
        | (Error::TypeTooShort, Error::TypeTooShort) => true,
        (Error::InvalidPageSize(number), Error::InvalidPageSize(same))
        | (Error::PageReferenceOutOfRange(number), Error::PageReferenceOutOfRange(same))
        | (Error::StreamNotFound(number), Error::StreamNotFound(same))
        | (Error::TypeNotFound(number), Error::TypeNotFound(same)) => number == same,
        (Error::UnimplementedTypeKind(number), Error::UnimplementedTypeKind(same))
        | (Error::UnexpectedNumericPrefix(number), Error::UnexpectedNumericPrefix(same)) => {
            number == same
        }
        (Error::TypeNotIndexed(index, last), Error::TypeNotIndexed(same, same_last)) => {
            index == same && last == same_last
        }
        (Error::InvalidStreamLength(text), Error::InvalidStreamLength(same))
        | (Error::UnimplementedFeature(text), Error::UnimplementedFeature(same))
        | (Error::InvalidTypeInformationHeader(text), Error::InvalidTypeInformationHeader(same)) =>
            { text == same }
        _ => false,
    }
}

/// Returns whether an error is that of the source `Failing`, of this kind and with its text.
pub fn is_gone(alloc: Global, error: &Error, kind: ErrorKind) -> bool {
    match error {
        Error::IoError(fault) => {
            fault.kind() == kind
                && matches!(fault.to_string(alloc), Ok(text) if text.as_str() == GONE)
        }
        _ => false,
    }
}

/// Returns whether slices begin at these places and have these sizes.
pub fn are_slices(slices: &[SourceSlice], want: &[(u64, usize)]) -> bool {
    for (slice, (offset, size)) in slices.iter().zip(want) {
        if slice.offset != *offset || slice.size != *size {
            return false;
        }
    }
    slices.len() == want.len()
}

/// What is answered for a stream.
pub enum Want {
    /// These bytes.
    Bytes(&'static [u8]),
    /// So many bytes of stream 1 of S1.
    Front(usize),
    /// This error.
    Error(Error),
    /// The error of a source that ends too soon.
    SourceEnds,
}

impl Want {
    /// Returns whether this is what is answered. Nothing is allocated.
    pub fn fits(&self, answer: &Result<Stream>) -> bool {
        match (self, answer) {
            (Want::Bytes(bytes), Ok(stream)) => stream.as_slice() == *bytes,
            (Want::Front(len), Ok(stream)) => is_front(stream.as_slice(), *len),
            (Want::Error(want), Err(error)) => is_error(error, want),
            (Want::SourceEnds, Err(Error::IoError(fault))) => {
                fault.kind() == ErrorKind::UnexpectedEof
            }
            _ => false,
        }
    }
}

/// Returns whether all of these bytes are this one.
fn are_all(bytes: &[u8], wanted: u8) -> bool {
    for byte in bytes {
        if *byte != wanted {
            return false;
        }
    }
    true
}

/// Returns whether these are so many bytes of stream 1 of S1, which has 512 times `a` and 88 times
/// `b`.
pub fn is_front(bytes: &[u8], len: usize) -> bool {
    let (first, last) = bytes.split_at(bytes.len().min(512));
    bytes.len() == len && len <= 600 && are_all(first, b'a') && are_all(last, b'b')
}
