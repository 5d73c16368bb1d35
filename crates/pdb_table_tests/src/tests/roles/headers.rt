//! The header of stream 3, and what its debug header says.

use super::super::stream;
use super::front;
use pdb_base::{Error, Result as Answer, Stream, StreamIndex};
use pdb_file::{DBIExtraStreams, DBIHeader};
use pdb_fixtures::is_error;
use std::alloc::Global;
use std::test::Fail;

/// The numbers 100 to 111, and half a number more.
const LIST: &[u8] = b"\x64\0\x65\0\x66\0\x67\0\x68\0\x69\0\x6a\0\x6b\0\x6c\0\x6d\0\x6e\0\x6f\0\x70";

/// The header of a stream 3: 64 bytes, in which no two fields are equal but by their sizes: 8 bytes
/// of modules, 4 of section contributions, 12 of the section map, 16 of file info, 20 of the type
/// server map, 6 of the debug header, 24 of names for edit and continue.
const HEADER: &[u8] =
    b"\xff\xff\xff\xff\x77\x09\x31\x01\x03\0\0\0\x11\x01\x12\x02\x13\x03\x14\x04\x15\x05\x16\x06\x08\0\0\0\x04\0\0\0\x0c\0\0\0\x10\0\0\0\x14\0\0\0\x17\0\0\x07\x06\0\0\0\x18\0\0\0\x19\x08\x64\x86\x1a\0\0\x09";

/// A stream of that header, 84 bytes of other numbers, a debug header of three numbers, and a byte
/// that follows them.
fn stream_3(alloc: Global) -> Result<Vec<u8>, Fail> {
    let mut bytes = Vec::from_slice(alloc, HEADER)?;
    bytes.resize(148, 0xee)?;
    bytes.extend_from_slice(b"\x64\0\x65\0\x66\0\x67")?;
    Ok(bytes)
}

/// What that header says.
const FIELDS: DBIHeader = DBIHeader {
    signature: 0xffff_ffff,
    version: 19_990_903,
    age: 3,
    gs_symbols_stream: StreamIndex(0x0111),
    internal_version: 0x0212,
    ps_symbols_stream: StreamIndex(0x0313),
    pdb_dll_build_version: 0x0414,
    symbol_records_stream: StreamIndex(0x0515),
    pdb_dll_rbld_version: 0x0616,
    module_list_size: 8,
    section_contribution_size: 4,
    section_map_size: 12,
    file_info_size: 16,
    type_server_map_size: 20,
    mfc_type_server_index: 0x0700_0017,
    debug_header_size: 6,
    ec_substream_size: 24,
    flags: 0x0819,
    machine_type: 0x8664,
    reserved: 0x0900_001a,
};

/// The streams of the roles in the order of their list.
fn numbers(roles: &DBIExtraStreams) -> [u16; 11] {
    [
        roles.fpo.0,
        roles.exception.0,
        roles.fixup.0,
        roles.omap_to_src.0,
        roles.omap_from_src.0,
        roles.section_headers.0,
        roles.token_rid_map.0,
        roles.xdata.0,
        roles.pdata.0,
        roles.framedata.0,
        roles.original_section_headers.0,
    ]
}

/// Streams for each of the roles.
const STREAMS: [u16; 11] = [100, 101, 102, 103, 104, 105, 106, 107, 108, 109, 110];

/// No stream for any of them.
const NO_STREAMS: [u16; 11] = [0xffff; 11];

/// Whether the first so many roles have the streams 100, 101 and so on, and the others none.
fn has_first(roles: &DBIExtraStreams, count: usize) -> bool {
    let numbers = numbers(roles);
    let count = count.min(11);
    numbers[..count] == STREAMS[..count] && numbers[count..] == NO_STREAMS[count..]
}

/// Whether that many roles are listed, or, where no number is wanted, the list ends too soon.
fn are_roles(answer: Answer<DBIExtraStreams>, want: Option<usize>) -> bool {
    match answer {
        Ok(roles) => matches!(want, Some(count) if has_first(&roles, count)),
        Err(error) => want.is_none() && matches!(error, Error::UnexpectedEof),
    }
}

/// How many roles the list has if it has so many bytes: half a number is an error only among the
/// first eleven.
fn roles_listed(len: usize) -> Option<usize> {
    if len < 22 && len % 2 == 1 {
        None
    } else {
        Some(len / 2)
    }
}

/// How many roles the stream has if it has so many bytes: an empty one has none, one that is cut
/// before the third number's end ends too soon.
fn roles_told(len: usize) -> Option<usize> {
    match len {
        0 => Some(0),
        1..154 => None,
        _ => Some(3),
    }
}

/// Whether the header says its fields, or ends too soon in fewer than 64 bytes.
fn is_header(answer: Answer<DBIHeader>, len: usize) -> bool {
    match answer {
        Ok(header) => len >= 64 && header == FIELDS,
        Err(error) => len < 64 && matches!(error, Error::UnexpectedEof),
    }
}

/// Whether a stream says its header and its roles.
fn is_stream(stream: &Stream) -> bool {
    let len = stream.as_slice().len();
    is_header(DBIHeader::parse(stream), len)
        && are_roles(DBIExtraStreams::new(stream), roles_told(len))
}

/// Whether the list is answered so if it has so many bytes.
fn is_list(len: usize) -> bool {
    are_roles(DBIExtraStreams::parse(front(LIST, len)), roles_listed(len))
}

/// Whether a list has no stream in the first role, and 65534 in the second.
fn has_second() -> bool {
    let answer = DBIExtraStreams::parse(b"\xff\xff\xfe\xff");
    matches!(answer, Ok(roles) if roles.fpo.is_none() && roles.exception == StreamIndex(0xfffe))
}

/// The error of a stream of the oldest format.
const REFUSED: Error = Error::UnimplementedFeature("ancient DBI header");

/// Whether that is the error of a stream.
fn is_refused(stream: &Stream) -> bool {
    matches!(DBIHeader::parse(stream), Err(error) if is_error(&error, &REFUSED))
        && matches!(DBIExtraStreams::new(stream), Err(error) if is_error(&error, &REFUSED))
}

/// Streams that are as old as that.
const ANCIENT: &[&[u8]] = &[b"\xfe\xff\xff\xff", b"\0\0\0\0\0", b"\xff\xff\xff\x7f"];

#[test]
fn headers(rt: HostRuntime) -> Result<(), Fail> {
    let whole = stream_3(rt.alloc())?;
    for len in 0..156usize {
        let stream = stream(rt.alloc(), front(&whole, len))?;
        assert!(rt; is_list(len) && is_stream(&stream), "of {len} bytes");
    }
    assert!(rt; has_second());
    for bytes in ANCIENT {
        assert!(rt; is_refused(&stream(rt.alloc(), bytes)?), "{bytes:?}");
    }
    Ok(())
}
