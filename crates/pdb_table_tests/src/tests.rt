//! Test cases, a file a topic.
//!
//! Cases are constants that one loop goes over, since the time to prove a test grows with the
//! square of the size of its functions. A constant costs little up to some twenty cases; a longer
//! one, or one with lists in its cases, is split.

/// A table of cases: the parts of each, ended by a semicolon.
macro_rules! rows {
    ($($($part:expr),+;)*) => {
        &[$(($($part),+)),*]
    };
}

mod addresses;
mod buffers;
mod files;
mod frames;
mod roles;
mod searching;
mod strings;
mod texts;
mod translation;

use pdb_base::Stream;
use pdb_fixtures::stream_of;
use std::alloc::Global;
use std::fmt;

/// A stream of these bytes.
fn stream(alloc: Global, bytes: &[u8]) -> pdb_base::Result<Stream> {
    stream_of(Vec::from_slice(alloc, bytes)?)
}

/// Whether a value is displayed as `want`.
fn shows<T: fmt::Display>(alloc: Global, value: &T, want: &str) -> bool {
    matches!(format!(in alloc; "{value}"), Ok(text) if text.as_str() == want)
}
