//! The roles of streams.

use crate::headers::Headers;
use pdb_base::StreamIndex;
use pdb_file::{DBIExtraStreams, DBIHeader};
use pdb_tpi::Header;

/// The roles of streams 1 to 4.
const FIXED_ROLES: [&str; 4] = ["pdb_information", "types", "debug_information", "ids"];

/// The roles that the debug header gives, in the order of `listed_streams`.
const LISTED_ROLES: [&str; 11] = [
    "fpo",
    "exception",
    "fixup",
    "omap_to_src",
    "omap_from_src",
    "section_headers",
    "token_rid_map",
    "xdata",
    "pdata",
    "framedata",
    "original_section_headers",
];

/// Returns the streams to which the debug header gives roles.
fn listed_streams(streams: &DBIExtraStreams) -> [StreamIndex; 11] {
    [
        streams.fpo,
        streams.exception,
        streams.fixup,
        streams.omap_to_src,
        streams.omap_from_src,
        streams.section_headers,
        streams.token_rid_map,
        streams.xdata,
        streams.pdata,
        streams.framedata,
        streams.original_section_headers,
    ]
}

/// Returns the place of a role among others.
fn place_of(word: &str, roles: &[&str]) -> Option<usize> {
    roles.iter().position(|role| *role == word)
}

/// Returns the number of the stream whose role is fixed, if the word is that of such a role.
pub(crate) fn fixed_stream(word: &str) -> Option<u32> {
    let place = place_of(word, &FIXED_ROLES)?;
    u32::try_from(place).ok()?.checked_add(1)
}

/// Returns whether a word is that of a role that the debug header gives.
pub(crate) fn is_listed_role(word: &str) -> bool {
    place_of(word, &LISTED_ROLES).is_some()
}

/// Returns the stream to which the debug header gives a role.
pub(crate) fn listed_stream(streams: &DBIExtraStreams, word: &str) -> Option<StreamIndex> {
    let place = place_of(word, &LISTED_ROLES)?;
    listed_streams(streams).get(place).copied()
}

/// Returns whether an index names the stream with this number.
fn is_of(index: StreamIndex, number: u32) -> bool {
    index.msf_number() == Some(number)
}

/// Returns the role that the debug header gives a stream, the first one if it gives several.
fn listed_role(streams: &DBIExtraStreams, number: u32) -> Option<&'static str> {
    let place = listed_streams(streams)
        .iter()
        .position(|index| is_of(*index, number))?;
    LISTED_ROLES.get(place).copied()
}

/// Returns the role that the header of the stream of debug information gives a stream.
fn symbol_role(header: &DBIHeader, number: u32) -> Option<&'static str> {
    if is_of(header.gs_symbols_stream, number) {
        Some("globals")
    } else if is_of(header.ps_symbols_stream, number) {
        Some("publics")
    } else if is_of(header.symbol_records_stream, number) {
        Some("symbol_records")
    } else {
        None
    }
}

/// Returns whether the header of a table names a stream as one of hashes.
fn has_hashes(header: Option<Header>, number: u32) -> bool {
    match header {
        Some(header) => {
            is_of(StreamIndex(header.tpi_hash_stream), number)
                || is_of(StreamIndex(header.tpi_hash_pad_stream), number)
        }
        None => false,
    }
}

/// Returns the role that the header of a table gives a stream.
fn hash_role(headers: &Headers, number: u32) -> Option<&'static str> {
    if has_hashes(headers.types, number) {
        Some("type_hashes")
    } else if has_hashes(headers.ids, number) {
        Some("id_hashes")
    } else {
        None
    }
}

/// Returns the role that a header gives a stream, the first one if several do.
fn header_role(headers: &Headers, number: u32) -> Option<&'static str> {
    if let Some(header) = &headers.debug
        && let Some(role) = symbol_role(header, number)
    {
        return Some(role);
    }
    hash_role(headers, number)
}

/// Returns the role of a stream whose role is fixed.
pub(crate) fn fixed_role(number: u32) -> Option<&'static str> {
    let place = number.checked_sub(1)?;
    FIXED_ROLES.get(place as usize).copied()
}

/// Returns the role of a stream, if it has one. The roles of streams 1 to 4 are fixed, and the
/// debug header and other headers give those of others.
pub fn role_of(streams: &DBIExtraStreams, headers: &Headers, number: u32) -> Option<&'static str> {
    fixed_role(number)
        .or(listed_role(streams, number))
        .or(header_role(headers, number))
}
