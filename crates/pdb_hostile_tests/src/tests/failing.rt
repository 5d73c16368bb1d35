//! Sources of which one view fails: the call that makes this view returns the source's error, with
//! its kind and its text, and the same call then succeeds.

use super::rows::{ROWS, Row};
use pdb_base::{Error, Result, Stream};
use pdb_container::{Query, Reply, run};
use pdb_fixtures::{Failing, is_front, is_gone, s1, s1_with, table_of, with_bytes};
use pdb_msf::{BigMSF, Msf, open_msf};
use std::alloc::Global;
use std::io::ErrorKind;
use std::test::Fail;

/// Whether an error is that of the source.
fn is_fault(error: &Error) -> bool {
    matches!(error, Error::IoError(error) if error.kind() == ErrorKind::Other)
}

/// Whether a case's stream has the expected result, or None if the call returns the error of the
/// source.
fn answer_matches(row: &Row, answer: Result<Stream>) -> Option<bool> {
    match &answer {
        Err(error) if is_fault(error) => None,
        answer => Some(row.3.fits(answer)),
    }
}

/// Whether the case's stream has the expected result, where a call that returns the error of the
/// source is repeated once; and how many calls returned it.
fn ask_case(alloc: Global, file: &mut BigMSF<Failing>, row: &Row) -> (bool, u64) {
    let Row(_, number, limit, ..) = row;
    match answer_matches(row, file.get(alloc, *number, *limit)) {
        Some(is) => (is, 0),
        None => (
            answer_matches(row, file.get(alloc, *number, *limit)) == Some(true),
            1,
        ),
    }
}

/// Whether two calls, one after the other, have the expected result, apart from so many errors of
/// the source.
fn is_asked_twice(alloc: Global, file: &mut BigMSF<Failing>, row: &Row, wanted: u64) -> bool {
    let (once, faults) = ask_case(alloc, file, row);
    let (again, more) = ask_case(alloc, file, row);
    once && again && faults.saturating_add(more) == wanted
}

/// Opens a case's file, of whose views the one of this number fails, or none if the number is 0.
fn open_case(alloc: Global, row: &Row, n: u64) -> Result<BigMSF<Failing>> {
    let Row(edits, ..) = row;
    open_msf(alloc, Failing::new(with_bytes(s1(alloc)?, edits), n))
}

/// Whether a case has the expected result if the view of this number fails: one error of the source
/// if the case takes that many views, and none otherwise. The first view opens the file.
fn is_answered(alloc: Global, row: &Row, n: u64) -> bool {
    let Row(.., views) = row;
    match open_case(alloc, row, n) {
        Ok(mut file) => n != 1
            && is_asked_twice(alloc, &mut file, row, u64::from(0 < n && n <= *views)),
        Err(error) => n == 1 && is_fault(&error),
    }
}

#[test]
fn views(rt: HostRuntime) -> std::result::Result<(), Fail> {
    for n in 0..6u64 {
        for row in ROWS {
            assert!(rt;
                is_answered(rt.alloc(), row, n),
                "view {n}, stream {}",
                row.1
            );
        }
    }
    Ok(())
}

/// What a reply says.
enum Says {
    /// The fault of the source.
    Fault,
    /// All of stream 1.
    Stream,
    /// The list of this index.
    List(u32),
}

impl Says {
    /// Whether a reply says so, where the source fails with this kind.
    fn fits(&self, alloc: Global, reply: &Reply, kind: ErrorKind) -> bool {
        match (self, reply) {
            (Says::Fault, Reply::Refused(error)) => is_gone(alloc, error, kind),
            (Says::Stream, Reply::Bytes(bytes)) => is_front(bytes, 600),
            (Says::List(wanted), Reply::Record { index, kind, name }) => {
                *index == *wanted && *kind == 0x1201 && name.is_none()
            }
            _ => false,
        }
    }
}

/// Questions for stream 1, and for types of stream 3.
const STREAM_1: Query = Query::Stream {
    number: 1,
    limit: None,
};

const TYPE_1000: Query = Query::TypeRecord {
    stream: 3,
    index: 0x1000,
};

const TYPE_1001: Query = Query::TypeRecord {
    stream: 3,
    index: 0x1001,
};

/// Two types: lists of no arguments.
const LISTS: &[&[u8]] = &[b"\x01\x12\0\0\0\0", b"\x01\x12\0\0\0\0"];

/// The types in stream 3 of S1, which is `hello` where there are none; the view that fails, the
/// queries, and what each reply says. Without replies, the run fails with the error of the source.
/// A table is read for the first query of it, by the fourth view, and no other view answers the
/// later ones. If reading it fails, the next query of it reads it again.
type Replied = (
    &'static [&'static [u8]],
    u64,
    &'static [Query],
    &'static [Says],
);

const RUNS: &[Replied] = rows! {
    &[], 1, &[STREAM_1, STREAM_1], &[];
    &[], 2, &[STREAM_1, STREAM_1], &[Says::Fault, Says::Stream];
    &[], 3, &[STREAM_1, STREAM_1], &[Says::Fault, Says::Stream];
    &[], 4, &[STREAM_1, STREAM_1], &[Says::Fault, Says::Stream];
    LISTS, 5, &[TYPE_1001, STREAM_1, TYPE_1000], &[Says::List(0x1001), Says::Fault, Says::List(0x1000)];
    LISTS, 4, &[TYPE_1001, STREAM_1, TYPE_1000], &[Says::Fault, Says::Stream, Says::List(0x1000)];
};

/// Whether each reply says what it should.
fn are_said(alloc: Global, replies: &[Reply], wanted: &[Says], kind: ErrorKind) -> bool {
    for (reply, says) in replies.iter().zip(wanted) {
        if !says.fits(alloc, reply, kind) {
            return false;
        }
    }
    replies.len() == wanted.len()
}

/// The file of a case.
fn file_of(alloc: Global, types: &[&[u8]]) -> Result<Vec<u8>> {
    if types.is_empty() {
        return s1(alloc);
    }
    s1_with(alloc, &table_of(alloc, types)?)
}

/// A source whose view of this number fails with this kind.
fn failing(bytes: Vec<u8>, n: u64, kind: ErrorKind) -> Failing {
    match kind {
        ErrorKind::PermissionDenied => Failing::of_kind(bytes, n, ErrorKind::PermissionDenied),
        _ => Failing::new(bytes, n),
    }
}

/// Whether a run over a case's file replies so, if its view of that number fails with this kind, or
/// fails with the error of the source where no reply is wanted.
fn is_run(alloc: Global, row: &Replied, kind: ErrorKind) -> Result<bool> {
    let (types, n, queries, wanted) = row;
    let file = failing(file_of(alloc, types)?, *n, kind);
    Ok(match &run(alloc, file, queries) {
        Ok(replies) => !wanted.is_empty() && are_said(alloc, replies, wanted, kind),
        Err(error) => wanted.is_empty() && is_gone(alloc, error, kind),
    })
}

#[test]
fn runs(rt: HostRuntime) -> std::result::Result<(), Fail> {
    for row in RUNS {
        for kind in [ErrorKind::Other, ErrorKind::PermissionDenied] {
            assert!(rt; is_run(rt.alloc(), row, kind)?, "view {}", row.1);
        }
    }
    Ok(())
}
