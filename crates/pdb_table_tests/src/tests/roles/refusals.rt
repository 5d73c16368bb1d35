//! Calls that fail over a file of which a stream is absent, cut or of another format: each error is
//! that of the first fault, and never `OutOfMemory`, since there is plenty of memory. Calls over a
//! source that fails: the error is the source's own.

use super::super::files::watched::Watched;
use super::files::{Roles, bytes_of};
use pdb_base::Error;
use pdb_file::PDB;
use pdb_fixtures::roles::NONE;
use pdb_fixtures::{is_error, is_gone, with_bytes};
use pdb_msf::Source;
use std::alloc::Global;
use std::io::ErrorKind;
use std::test::Fail;

/// A call.
enum Call {
    Information,
    Types,
    Ids,
    Roles,
    Stream(&'static [u8]),
    Strings,
    Map,
    Frames,
}

/// The offsets in the file of the sizes of streams 1 and 3, of a letter of the name `/names`, and
/// of the first byte of stream 3.
const SIZE_OF_1: usize = 2056;

const SIZE_OF_3: usize = 2064;

const LETTER: usize = 2593;

const DEBUG: usize = 3072;

const ANCIENT: Error = Error::UnimplementedFeature("ancient DBI header");

/// A byte that is set to another, a call, and its error.
const ROWS: &[(usize, u8, Call, Error)] = rows! {
    SIZE_OF_1, 27, Call::Information, Error::UnexpectedEof;
    SIZE_OF_1, 27, Call::Strings, Error::UnexpectedEof;
    SIZE_OF_1, 73, Call::Stream(b"/names"), Error::UnexpectedEof;
    SIZE_OF_1, 73, Call::Strings, Error::UnexpectedEof;
    SIZE_OF_1, 74, Call::Stream(b""), Error::StreamNameNotFound;
    SIZE_OF_1, 74, Call::Stream(b"names"), Error::StreamNameNotFound;
    SIZE_OF_1, 74, Call::Stream(b"/a"), Error::StreamNotFound(2);
    LETTER, b'm', Call::Stream(b"/names"), Error::StreamNameNotFound;
    LETTER, b'm', Call::Strings, Error::StreamNameNotFound;
    SIZE_OF_1, 74, Call::Types, Error::StreamNotFound(2);
    SIZE_OF_1, 74, Call::Ids, Error::UnexpectedEof;
    SIZE_OF_3, 63, Call::Roles, Error::UnexpectedEof;
    SIZE_OF_3, 63, Call::Map, Error::UnexpectedEof;
    SIZE_OF_3, 63, Call::Frames, Error::UnexpectedEof;
    DEBUG, 0, Call::Roles, ANCIENT;
    DEBUG, 0, Call::Map, ANCIENT;
    DEBUG, 0, Call::Frames, ANCIENT;
};

/// The error of a call for a file, if it fails.
fn error_of<S: Source>(alloc: Global, file: &mut PDB<S>, call: &Call) -> Option<Error> {
    match call {
        Call::Information => file.pdb_information(alloc).err(),
        Call::Types => file.type_information(alloc).err(),
        Call::Ids => file.id_information(alloc).err(),
        Call::Roles => file.extra_streams(alloc).err(),
        Call::Stream(name) => file.named_stream(alloc, name).err(),
        Call::Strings => file.string_table(alloc).err(),
        Call::Map => file.address_map(alloc).err(),
        Call::Frames => file.frame_table(alloc).err(),
    }
}

/// Whether a call for a file fails with this error.
fn is_refused(alloc: Global, file: &mut PDB<Vec<u8>>, call: &Call, want: &Error) -> bool {
    matches!(error_of(alloc, file, call), Some(error) if is_error(&error, want))
}

/// Whether a call fails so, and once more so.
fn is_row(alloc: Global, row: &(usize, u8, Call, Error)) -> Result<bool, Fail> {
    let (place, byte, call, want) = row;
    let bytes = bytes_of(alloc, &Roles::Frames([NONE, NONE]))?;
    let mut file = PDB::open(alloc, with_bytes(bytes, &[(*place, *byte)]))?;
    let once = is_refused(alloc, &mut file, call, want);
    Ok(once && is_refused(alloc, &mut file, call, want))
}

/// The roles of a file, a call for it, and the last view of its source that the call makes. The
/// first view opens the file, the next two locate the directory, and each other reads a stream.
const VIEWED: &[(Roles, Call, u64)] = &[
    (Roles::Frames([NONE, NONE]), Call::Information, 4),
    (Roles::Frames([NONE, NONE]), Call::Types, 3),
    (Roles::Frames([NONE, NONE]), Call::Ids, 4),
    (Roles::Frames([NONE, NONE]), Call::Roles, 4),
    (Roles::Frames([NONE, NONE]), Call::Stream(b"/names"), 5),
    (Roles::Frames([NONE, NONE]), Call::Strings, 5),
    (Roles::Map([6, 5, 7, 8]), Call::Map, 8),
    (Roles::Frames([9, 10]), Call::Frames, 6),
];

/// The kind of the error of the source.
const DENIED: ErrorKind = ErrorKind::PermissionDenied;

/// Whether a file isn't opened where the first view fails, with the error of the source.
fn is_unopened(alloc: Global) -> Result<bool, Fail> {
    let mut notes = Vec::new(alloc);
    let bytes = bytes_of(alloc, &Roles::Frames([NONE, NONE]))?;
    let opened = PDB::open(alloc, Watched::new(bytes, 1, &mut notes));
    Ok(matches!(opened, Err(error) if is_gone(alloc, &error, DENIED)))
}

/// Whether a call for a file fails with the error of the source.
fn is_failed<S: Source>(alloc: Global, file: &mut PDB<S>, call: &Call) -> bool {
    matches!(error_of(alloc, file, call), Some(error) if is_gone(alloc, &error, DENIED))
}

/// Whether a call fails where the view of this number does, and then no more.
fn fails_once(alloc: Global, roles: &Roles, call: &Call, n: u64) -> Result<bool, Fail> {
    let mut notes = Vec::new(alloc);
    let source = Watched::new(bytes_of(alloc, roles)?, n, &mut notes);
    let mut file = PDB::open(alloc, source)?;
    let is_once = is_failed(alloc, &mut file, call);
    Ok(is_once && !is_failed(alloc, &mut file, call))
}

/// Whether a call fails so where any of its views does, and does not where the one behind them does.
fn fails_at_each_view(alloc: Global, row: &(Roles, Call, u64)) -> Result<bool, Fail> {
    let (roles, call, last) = row;
    for n in 2..=*last {
        if !fails_once(alloc, roles, call, n)? {
            return Ok(false);
        }
    }
    Ok(!fails_once(alloc, roles, call, last.saturating_add(1))?)
}

#[test]
fn refused_headers(rt: HostRuntime) -> Result<(), Fail> {
    for (place, row) in ROWS.iter().enumerate() {
        assert!(rt; is_row(rt.alloc(), row)?, "row {place}");
    }
    assert!(rt; is_unopened(rt.alloc())?);
    for (place, row) in VIEWED.iter().enumerate() {
        assert!(rt; fails_at_each_view(rt.alloc(), row)?, "source {place}");
    }
    Ok(())
}
