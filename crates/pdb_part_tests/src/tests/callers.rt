//! Calls for programs in other languages over a file of which a byte is wrong: each error is that of
//! the first fault, and never `OutOfMemory`, since there is plenty of memory.

use pdb_base::{Error, Result};
use pdb_fixtures::roles::{INFORMATION, NONE, debug_of};
use pdb_fixtures::{file_of, with_bytes};
use pdb_handles::Fault;
use pdb_handles::file::{addresses_in, frames_in, layout_in, names_in, number_in};
use pdb_handles::identity::identity_in;
use pdb_handles::roles::roles_in;
use pdb_handles::stream_names::stream_names_in;
use pdb_msf::{CountedSource, Layout};
use std::alloc::Global;
use std::process::Abort;

/// Frames of the older format in stream 9, the section headers in stream 8, neither of which there
/// is, and no other role.
const ROLES: [u16; 11] = [9, NONE, NONE, NONE, NONE, 8, NONE, NONE, NONE, NONE, NONE];

/// A file whose stream 2 is absent. Its stream 1 has the names of streams 2 and 4.
fn file(rt: &impl Abort, alloc: Global) -> Vec<u8> {
    let debug = debug_of(alloc, &ROLES).expect(rt, "memory");
    let streams = [
        Some(b"".as_slice()),
        Some(INFORMATION),
        None,
        Some(debug.as_slice()),
    ];
    file_of(alloc, &streams).expect(rt, "memory")
}

/// A call.
#[derive(Clone, Copy, Debug)]
enum Call {
    Layout,
    Identity,
    StreamNames,
    Names,
    Stream(&'static [u8]),
    Roles,
    Map,
    Frames,
}

/// Returns the size of the first stream with a name.
fn size_of_named(alloc: Global, file: &[u8], name: &[u8]) -> Result<u32> {
    let number = number_in(alloc, file, name)?;
    Layout::read(alloc, &mut CountedSource::new(file))?.stream_size(number)
}

/// The error of a call over a file, if it fails.
fn error_of(alloc: Global, file: &[u8], call: Call) -> Option<Error> {
    match call {
        Call::Layout => layout_in(alloc, file).err(),
        Call::Identity => identity_in(alloc, file).err(),
        Call::StreamNames => stream_names_in(alloc, file).err(),
        Call::Names => names_in(alloc, file).err(),
        Call::Stream(name) => size_of_named(alloc, file, name).err(),
        Call::Roles => roles_in(alloc, file).err(),
        Call::Map => addresses_in(alloc, file).err(),
        Call::Frames => frames_in(alloc, file).err(),
    }
}

/// The places in the file of a letter of the magic, of the second byte of the page size, of the page
/// of the directory, of the sizes of streams 1 and 3, and of the first byte of stream 3.
const MAGIC: usize = 0;

const PAGES_OF: usize = 33;

const PAGE_OF_DIRECTORY: usize = 0x600;

const SIZE_OF_1: usize = 0x808;

const SIZE_OF_3: usize = 0x810;

const FIRST_OF_3: usize = 0xc00;

/// The statuses of the errors, as the header for C numbers them.
const UNRECOGNIZED: u32 = 1;

const OUT_OF_RANGE: u32 = 2;

const PAGE_SIZE_INVALID: u32 = 3;

const NOT_FOUND: u32 = 4;

const NAME_NOT_FOUND: u32 = 5;

const ENDED: u32 = 8;

const UNIMPLEMENTED: u32 = 9;

/// A byte that is set to another, a call, and the status and the number of its error. The text
/// "ancient DBI header" has the number 5.
type Row = (usize, u8, Call, u32, u32);

/// Errors of the header and of the directory; of streams 1 and 3, of names, and of streams that there
/// are not.
const ROWS: &[Row] = &[
    (MAGIC, b'm', Call::Layout, UNRECOGNIZED, 0),
    (MAGIC, b'm', Call::Roles, UNRECOGNIZED, 0),
    (PAGES_OF, 3, Call::Layout, PAGE_SIZE_INVALID, 768),
    (PAGES_OF, 3, Call::Identity, PAGE_SIZE_INVALID, 768),
    (PAGE_OF_DIRECTORY, 9, Call::Layout, OUT_OF_RANGE, 9),
    (PAGE_OF_DIRECTORY, 9, Call::Identity, OUT_OF_RANGE, 9),
    (PAGE_OF_DIRECTORY, 9, Call::StreamNames, OUT_OF_RANGE, 9),
    (PAGE_OF_DIRECTORY, 9, Call::Stream(b"/a"), OUT_OF_RANGE, 9),
    (PAGE_OF_DIRECTORY, 9, Call::Roles, OUT_OF_RANGE, 9),
    (PAGE_OF_DIRECTORY, 9, Call::Map, OUT_OF_RANGE, 9),
    (PAGE_OF_DIRECTORY, 9, Call::Frames, OUT_OF_RANGE, 9),
    (SIZE_OF_1, 27, Call::Identity, ENDED, 0),
    (SIZE_OF_1, 27, Call::StreamNames, ENDED, 0),
    (SIZE_OF_1, 27, Call::Stream(b"/a"), ENDED, 0),
    (SIZE_OF_1, 73, Call::StreamNames, ENDED, 0),
    (SIZE_OF_1, 73, Call::Stream(b"/a"), ENDED, 0),
    (SIZE_OF_1, 74, Call::Stream(b"a"), NAME_NOT_FOUND, 0),
    (SIZE_OF_1, 74, Call::Stream(b"/a"), NOT_FOUND, 2),
    (SIZE_OF_1, 74, Call::Stream(b"/names"), NOT_FOUND, 4),
    (SIZE_OF_1, 73, Call::Names, ENDED, 0),
    (SIZE_OF_1, 74, Call::Names, NOT_FOUND, 4),
    (SIZE_OF_3, 63, Call::Roles, ENDED, 0),
    (SIZE_OF_3, 63, Call::Map, ENDED, 0),
    (SIZE_OF_3, 63, Call::Frames, ENDED, 0),
    (FIRST_OF_3, 0, Call::Roles, UNIMPLEMENTED, 5),
    (FIRST_OF_3, 0, Call::Map, UNIMPLEMENTED, 5),
    (FIRST_OF_3, 0, Call::Frames, UNIMPLEMENTED, 5),
    (FIRST_OF_3, 0xff, Call::Map, NOT_FOUND, 8),
    (FIRST_OF_3, 0xff, Call::Frames, NOT_FOUND, 9),
];

/// Whether an error has this status and this number, and no second one.
fn is_fault(error: &Error, status: u32, number: u32) -> bool {
    let fault = Fault::of(error);
    fault.status == status && fault.first == number && fault.second == 0
}

/// Whether a call fails with the error of its case.
fn is_refused(rt: &impl Abort, alloc: Global, row: &Row) -> bool {
    let (place, byte, call, status, number) = *row;
    let file = with_bytes(file(rt, alloc), &[(place, byte)]);
    match error_of(alloc, &file, call) {
        Some(error) => is_fault(&error, status, number),
        None => false,
    }
}

#[test]
fn refused_files(rt: HostRuntime) {
    for row in ROWS {
        assert!(rt;
            is_refused(&rt, rt.alloc(), row),
            "byte {:#x} is {:#x}: {:?}",
            row.0,
            row.1,
            row.2
        );
    }
}
