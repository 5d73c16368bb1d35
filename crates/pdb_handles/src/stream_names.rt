//! The streams that a file names.

ghost use Rattle.std.specs.{Prelude.◌≡◌, Prelude.length, Prelude.nat_le, Prelude.Ok, Option.option_map};
ghost use Rattle.pdb_base.specs.Answer.{Answers};
ghost use Rattle.pdb_file.specs.StreamNames.{named_view};
ghost use Rattle.pdb_handles.specs.StreamNames.{named_listing, named_row, names_of_all, stream_names_said};
ghost use Rattle.pdb_handles.specs.Listing.{listing_view};

use crate::copied::{Listing, push_name};
use crate::file::open_file;
use pdb_base::{Error, Result};
use pdb_file::{StreamName, StreamNames};
use std::alloc::Global;

/// A stream that has a name.
#[repr(C)]
#[derive(Clone, Copy)]
pub struct NamedStream {
    /// The number of bytes before its name among the names.
    pub name_offset: usize,
    /// The length of its name in bytes.
    pub name_length: usize,
    /// Its number, or 0xffff if the file names none.
    pub number: u32,
}

/// Returns the `NamedStream` of a named stream, whose name begins here.
fn named_row(here: usize, named: &StreamName<'_>) -> NamedStream
    ensures { result ≡ named_row here (named_view named.now) }
{
    NamedStream {
        name_offset: here,
        name_length: named.name.len(),
        number: named.stream_id.0 as u32,
    }
}

/// Returns whether the names together have at most so many bytes.
fn names_fit(streams: &StreamNames<'_>, limit: usize) -> bool
    ensures { result ≡ nat_le (length (names_of_all streams.now)) limit }
{
    let mut left = limit;
    let streams = streams.as_slice();
    for named in streams {
        let Some(rest) = left.checked_sub(named.name.len()) else {
            return false;
        };
        left = rest;
    }
    true
}

/// Collects a `NamedStream` for each named stream, and their names.
#[tactic(auto, unfolding(crate::specs::Listing::placed_rows))]
fn collect_names(alloc: Global, streams: &StreamNames<'_>) -> Result<Listing<NamedStream>>
    ensures { Answers listing_view result (Ok (named_listing streams.now)) }
{
    let streams = streams.as_slice();
    let mut rows = Vec::with_capacity(alloc, streams.len())?;
    let mut names = Vec::new(alloc);
    for named in streams {
        rows.push(named_row(names.len(), named))?;
        push_name(&mut names, named.name.as_bytes())?;
    }
    Ok(Listing { rows, names })
}

/// Reads the streams that a file names, for the caller.
///
/// # Errors
/// Fails as `open_file`, `pdb_information` and `stream_names` do, and with
/// `UnimplementedFeature("stream names that share bytes")` if the names together have more bytes
/// than the file, so that the memory for them is bounded by its size.
pub fn stream_names_in(alloc: Global, file: &[u8]) -> Result<Option<Listing<NamedStream>>>
    ensures { Answers (option_map listing_view) result (stream_names_said file.now) }
{
    let limit = file.len();
    let mut file = open_file(alloc, file)?;
    let information = file.pdb_information(alloc)?;
    let streams = information.stream_names(alloc)?;
    if !names_fit(&streams, limit) {
        return Err(Error::UnimplementedFeature("stream names that share bytes"));
    }
    Ok(Some(collect_names(alloc, &streams)?))
}
