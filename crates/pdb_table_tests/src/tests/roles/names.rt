//! The header of stream 1, and the names of streams.

use super::super::stream;
use super::front;
use pdb_base::{Error, RawString, Result as Answer, StreamIndex};
use pdb_file::{PDBInformation, StreamName, StreamNames};
use pdb_fixtures::is_error;
use std::alloc::Global;
use std::test::Fail;

/// The bytes before the names. There are 12 bytes of names.
const HEADER: &[u8] =
    b"\x94\x2e\x31\x01\x01\x02\x03\x04\x05\0\0\0\xa0\xa1\xa2\xa3\xa4\xa5\xa6\xa7\xa8\xa9\xaa\xab\xac\xad\xae\xaf\x0c\0\0\0";

/// The names: the last byte has no NUL behind it among them.
const NAMES: &[u8] = b"/a\0/names\0\0x";

/// Two entries, capacity 8, a word of one set and two of the other.
const TWO: &[u8] = b"\x02\0\0\0\x08\0\0\0\x01\0\0\0\x03\0\0\0\x02\0\0\0\xff\xff\xff\xff\0\0\0\0";

/// One entry, capacity 1, and no word.
const ONE: &[u8] = b"\x01\0\0\0\x01\0\0\0\0\0\0\0\0\0\0\0";

/// The entries of two names.
const ENTRIES: &[u8] = b"\x03\0\0\0\x07\0\0\0\0\0\0\0\x2c\x01\0\0";

/// What the names of a stream 1 are: each with the number of its stream, or an error.
enum Listed {
    These(&'static [(&'static str, u16)]),
    Error(Error),
}

const ENDS: Listed = Listed::Error(Error::UnexpectedEof);

/// Such a table and its entries, and the names that stream 1 then has, each row with a name.
const ROWS: &[(&str, &[u8], &[u8], Listed)] = rows! {
    "two names", TWO, ENTRIES, Listed::These(&[("/names", 7), ("/a", 300)]);
    "within a name, and bytes behind",
        TWO, b"\x01\0\0\0\x07\0\0\0\x01\0\0\0\x08\0\0\0behind", Listed::These(&[("a", 7), ("a", 8)]);
    "the second without a NUL", TWO, b"\x03\0\0\0\x07\0\0\0\x0b\0\0\0\x01\0\0\0", ENDS;
    "65534", ONE, b"\x0a\0\0\0\xfe\xff\0\0", Listed::These(&[("", 65534)]);
    "65535", ONE, b"\x0a\0\0\0\xff\xff\0\0", Listed::These(&[("", 65535)]);
    "65538", ONE, b"\x0a\0\0\0\x02\0\x01\0", Listed::These(&[("", 65535)]);
    "without a NUL", ONE, b"\x0b\0\0\0\x02\0\0\0", ENDS;
    "past all names", ONE, b"\x0c\0\0\0\x02\0\0\0", ENDS;
    "far past them", ONE, b"\xff\xff\xff\xff\x02\0\0\0\0", ENDS;
    "no name", b"\0\0\0\0\0\0\0\0\0\0\0\0\0\0\0\0", b"", Listed::These(&[]);
    "a false count of entries", b"\xff\xff\xff\xff\0\0\0\0\0\0\0\0\0\0\0\0", b"", ENDS;
    "a false count of words of the first set", b"\0\0\0\0\0\0\0\0\xff\xff\xff\xff\0\0\0\0", b"", ENDS;
    "a false count of words of the second set", b"\0\0\0\0\0\0\0\0\0\0\0\0\xff\xff\xff\xff", b"", ENDS;
};

/// The GUID of that stream.
const GUID: &[u8] = b"\xa0\xa1\xa2\xa3\xa4\xa5\xa6\xa7\xa8\xa9\xaa\xab\xac\xad\xae\xaf";

/// Whether the fields before the names are those of that stream.
fn has_fields(information: &PDBInformation) -> bool {
    information.version == 20_000_404
        && information.signature == 0x0403_0201
        && information.age == 5
        && information.guid.as_slice() == GUID
        && information.names_offset == 32
        && information.names_size == 12
}

/// Stream 1 with such a table and its entries.
fn information(alloc: Global, table: &[u8], entries: &[u8]) -> Result<Vec<u8>, Fail> {
    let mut bytes = Vec::from_slice(alloc, HEADER)?;
    bytes.extend_from_slice(NAMES)?;
    bytes.extend_from_slice(table)?;
    bytes.extend_from_slice(entries)?;
    Ok(bytes)
}

/// Whether a name and its stream are these.
fn is_name(named: &StreamName<'_>, want: &(&str, u16)) -> bool {
    let (name, number) = want;
    named.name == RawString::from(*name) && named.stream_id == StreamIndex(*number)
}

/// Whether names and their streams are these, one after the other.
fn are_names(names: &[StreamName<'_>], want: &[(&str, u16)]) -> bool {
    for (named, want) in names.iter().zip(want) {
        if !is_name(named, want) {
            return false;
        }
    }
    names.len() == want.len()
}

/// Whether there is to be this error.
fn is_refused(error: &Error, want: &Listed) -> bool {
    matches!(want, Listed::Error(same) if is_error(error, same))
}

/// Whether the names and the streams of stream 1 are these, or there is the error.
fn lists(alloc: Global, information: &PDBInformation, want: &Listed) -> bool {
    match information.stream_names(alloc) {
        Ok(names) => matches!(want, Listed::These(want) if are_names(names.as_slice(), want)),
        Err(error) => is_refused(&error, want),
    }
}

/// Whether the names and the streams of a stream 1 of these bytes are these, or there is the error.
fn is_shown(alloc: Global, bytes: &[u8], want: &Listed) -> Result<bool, Fail> {
    match PDBInformation::parse(stream(alloc, bytes)?) {
        Ok(information) => Ok(lists(alloc, &information, want)),
        Err(error) => Ok(is_refused(&error, want)),
    }
}

/// Whether the names `/a` and `/names` have their numbers, and `/name` is none.
fn has_numbers(names: &StreamNames<'_>) -> bool {
    matches!(names.number(b"/a"), Ok(300))
        && matches!(names.number(b"/names"), Ok(7))
        && matches!(names.number(b"/name"), Err(Error::StreamNameNotFound))
}

/// Whether there are two names, of which the first is of stream 7, and which have their numbers.
fn has_names(alloc: Global, information: &PDBInformation) -> Answer<bool> {
    let names = information.stream_names(alloc)?;
    let is_first = matches!(names.as_slice(), [first, _] if first.stream_id == StreamIndex(7));
    Ok(is_first && has_numbers(&names))
}

#[test]
fn names(rt: HostRuntime) -> Result<(), Fail> {
    let alloc = rt.alloc();
    for (name, table, entries, want) in ROWS {
        let bytes = information(alloc, table, entries)?;
        assert!(rt; is_shown(alloc, &bytes, want)?, "{name}");
    }
    let whole = information(alloc, TWO, ENTRIES)?;
    for len in 0..88 {
        assert!(rt; is_shown(alloc, front(&whole, len), &ENDS)?, "{len} bytes");
    }
    let whole = PDBInformation::parse(stream(alloc, &whole)?)?;
    assert!(rt; has_fields(&whole) && has_names(alloc, &whole)?);
    Ok(())
}
