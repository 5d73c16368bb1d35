//! The slices that are requested from a source, view by view, of a file whose streams are in many
//! places; and errors of a source that have a text of their own.

ghost use Rattle.pdb_fixtures.specs.Failing.{state_of};

use super::{Note, are_views, bytes_in};
use pdb_fixtures::{Failing, GONE, is_gone};
use pdb_msf::{BigMSF, Msf, ReadView, Source, SourceSlice, open_msf};
use std::alloc::{AllocError, Global};
use std::io;
use std::io::ErrorKind;
use std::test::Fail;

/// A source of which one view fails, and which notes each view, the failed one too. Its errors have
/// a text of their own.
#[derive(Drop)]
pub(crate) struct Watched<'n> {
    source: Failing,
    notes: &'n mut Vec<Note>,
}

impl<'n> Watched<'n> {
    /// The source of these bytes whose view of this number is denied, or none if the number is 0.
    pub(crate) fn new(bytes: Vec<u8>, n: u64, notes: &'n mut Vec<Note>) -> Self {
        let source = Failing::of_kind(bytes, n, ErrorKind::PermissionDenied);
        Watched { source, notes }
    }
}

impl<'n> Source for Watched<'n> {
    ghost state = { λ watched. state_of watched.source };

    fn view(&mut self, alloc: Global, slices: &[SourceSlice]) -> io::Result<ReadView> {
        let note = slices.to_vec(alloc)?;
        self.notes.push(note).map_err(AllocError::from)?;
        match self.source.view(alloc, slices) {
            Ok(view) => Ok(view),
            Err(error) => Err(io::Error::new(error.kind(), GONE)),
        }
    }
}

/// Bytes in a page.
const PAGE_SIZE: usize = 512;

/// The header of a file of 32 pages: a directory of 80 bytes, whose page number is in page 3.
const HEADER: &[u8] =
    b"Microsoft C/C++ MSF 7.00\r\n\x1a\x44\x53\0\0\0\0\x02\0\0\x01\0\0\0\x20\0\0\0\x50\0\0\0\0\0\0\0\x03\0\0\0";

/// The directory: stream 0 has no bytes; stream 1 has 5000, in pages 31, 29 and so on, down to 13;
/// stream 2 has 2600, in pages 5, 6, 9, 10, 12 and 11.
const DIRECTORY: [u32; 20] = [
    3, 0, 5000, 2600, 31, 29, 27, 25, 23, 21, 19, 17, 15, 13, 5, 6, 9, 10, 12, 11,
];

/// The bytes of the file: pages 0, 2 and 3, and each of the others filled with its number.
fn file(alloc: Global) -> pdb_base::Result<Vec<u8>> {
    let mut bytes = Vec::from_slice(alloc, HEADER)?;
    bytes.resize(2 * PAGE_SIZE, 1)?;
    for number in DIRECTORY {
        bytes.extend_from_slice(&number.to_le_bytes())?;
    }
    bytes.resize(3 * PAGE_SIZE, 2)?;
    bytes.extend_from_slice(b"\x02\0\0\0")?;
    for number in 3..32u8 {
        bytes.resize(PAGE_SIZE * (usize::from(number) + 1), number)?;
    }
    Ok(bytes)
}

/// The view that opens the file, those that read where its directory is and the directory, and
/// those of streams 1 and 2.
const OPENING: &[(u64, usize)] = &[(0, 4096)];

const LOCATION: &[(u64, usize)] = &[(1536, 4)];

const OF_DIRECTORY: &[(u64, usize)] = &[(1024, 80)];

const OF_STREAM_1: &[(u64, usize)] = &[
    (31 * 512, 512),
    (29 * 512, 512),
    (27 * 512, 512),
    (25 * 512, 512),
    (23 * 512, 512),
    (21 * 512, 512),
    (19 * 512, 512),
    (17 * 512, 512),
    (15 * 512, 512),
    (13 * 512, 392),
];

const OF_STREAM_2: &[(u64, usize)] = &[
    (5 * 512, 1024),
    (9 * 512, 1024),
    (12 * 512, 512),
    (11 * 512, 40),
];

/// A call for a stream and up to so many bytes of it, and how many bytes it answers, or none where
/// the source fails.
type Call = (u32, Option<usize>, Option<usize>);

/// How a source fails.
enum Fault {
    /// The view of this number is denied, or none if it is 0.
    Denied(u64),
    /// The view of this number is interrupted.
    Interrupted(u64),
    /// The source ends in page 12.
    Ended,
}

use Fault::{Denied, Ended, Interrupted};

/// A call for all of stream 1 that fails, and once more.
const TWICE_1: &[Call] = &[(1, None, None), (1, None, Some(5000))];

/// A call for all of stream 2 that fails.
const FAILED_2: &[Call] = &[(2, None, None)];

/// The fault; the calls, and whether the last one consumes the file; and all views, the failed one
/// among them.
type Row = (
    Fault,
    &'static [Call],
    bool,
    &'static [&'static [(u64, usize)]],
);

/// The view that opens the file is the first, and no view is repeated after it failed unless there
/// is another call.
const ROWS: &[Row] = rows! {
    Denied(0), &[(1, None, Some(5000)), (2, None, Some(2600)), (1, Some(1000), Some(1000)), (2, Some(2048), Some(2048)),
        (0, None, Some(0)), (2, Some(2049), Some(2049))], false,
        &[OPENING, LOCATION, OF_DIRECTORY, OF_STREAM_1, OF_STREAM_2, &[(31 * 512, 512), (29 * 512, 488)],
            &[(5 * 512, 1024), (9 * 512, 1024)], &[], &[(5 * 512, 1024), (9 * 512, 1024), (12 * 512, 1)]];
    Denied(1), &[], false, &[OPENING];
    Denied(2), TWICE_1, false, &[OPENING, LOCATION, LOCATION, OF_DIRECTORY, OF_STREAM_1];
    Denied(3), TWICE_1, false, &[OPENING, LOCATION, OF_DIRECTORY, LOCATION, OF_DIRECTORY, OF_STREAM_1];
    Denied(4), TWICE_1, false, &[OPENING, LOCATION, OF_DIRECTORY, OF_STREAM_1, OF_STREAM_1];
    Denied(5), &[(1, None, Some(5000)), (2, None, None), (2, None, Some(2600))], false,
        &[OPENING, LOCATION, OF_DIRECTORY, OF_STREAM_1, OF_STREAM_2, OF_STREAM_2];
    Denied(0), &[(2, None, Some(2600))], true, &[OPENING, LOCATION, OF_DIRECTORY, OF_STREAM_2];
    Denied(2), FAILED_2, true, &[OPENING, LOCATION];
    Denied(3), FAILED_2, true, &[OPENING, LOCATION, OF_DIRECTORY];
    Denied(4), FAILED_2, true, &[OPENING, LOCATION, OF_DIRECTORY, OF_STREAM_2];
    Interrupted(1), FAILED_2, false, &[OPENING];
    Interrupted(2), FAILED_2, false, &[OPENING, LOCATION];
    Interrupted(3), FAILED_2, false, &[OPENING, LOCATION, OF_DIRECTORY];
    Interrupted(4), FAILED_2, false, &[OPENING, LOCATION, OF_DIRECTORY, OF_STREAM_2];
    Interrupted(1), FAILED_2, true, &[OPENING];
    Interrupted(2), FAILED_2, true, &[OPENING, LOCATION];
    Interrupted(3), FAILED_2, true, &[OPENING, LOCATION, OF_DIRECTORY];
    Interrupted(4), FAILED_2, true, &[OPENING, LOCATION, OF_DIRECTORY, OF_STREAM_2];
    Ended, FAILED_2, false, &[OPENING, LOCATION, OF_DIRECTORY, OF_STREAM_2];
    Ended, FAILED_2, true, &[OPENING, LOCATION, OF_DIRECTORY, OF_STREAM_2];
};

/// Whether a call answers so many bytes, or the error of the source, which is of this kind.
fn answers(
    alloc: Global,
    answer: pdb_base::Result<pdb_base::Stream>,
    want: Option<usize>,
    kind: ErrorKind,
) -> bool {
    match (answer, want) {
        (Ok(stream), Some(len)) => stream.as_slice().len() == len,
        (Err(error), None) => is_gone(alloc, &error, kind),
        _ => false,
    }
}

/// Whether each call answers so.
fn answers_each<S: Source + Drop>(
    alloc: Global,
    file: &mut BigMSF<S>,
    calls: &[Call],
    kind: ErrorKind,
) -> bool {
    for (number, limit, want) in calls {
        if !answers(alloc, file.get(alloc, *number, *limit), *want, kind) {
            return false;
        }
    }
    true
}

/// Whether the calls of a case answer so over a source, or opening it fails with the error of the
/// source; and how many bytes the file counts then, if it is not consumed.
fn ask_case<S: Source + Drop>(
    alloc: Global,
    source: S,
    row: &Row,
    kind: ErrorKind,
) -> (bool, Option<u64>) {
    let (_, calls, is_consumed, _) = row;
    match (open_msf(alloc, source), calls) {
        (Err(error), _) => (is_gone(alloc, &error, kind), Some(0)),
        (Ok(file), [(number, limit, want)]) if *is_consumed => {
            let answer = file.into_stream(alloc, *number, *limit);
            (answers(alloc, answer, *want, kind), None)
        }
        (Ok(mut file), _) => (
            answers_each(alloc, &mut file, calls, kind),
            Some(file.asked()),
        ),
    }
}

/// The file as a source that fails so, and the kind of its error.
fn failing(alloc: Global, fault: &Fault) -> pdb_base::Result<(Failing, ErrorKind)> {
    let mut bytes = file(alloc)?;
    Ok(match fault {
        Denied(n) => (
            Failing::of_kind(bytes, *n, ErrorKind::PermissionDenied),
            ErrorKind::PermissionDenied,
        ),
        Interrupted(n) => (
            Failing::of_kind(bytes, *n, ErrorKind::Interrupted),
            ErrorKind::Interrupted,
        ),
        Ended => {
            bytes.truncate(12 * PAGE_SIZE + 1);
            (Failing::new(bytes, 0), ErrorKind::UnexpectedEof)
        }
    })
}

/// Whether the calls of a case answer so, by these views alone, and the file counts the bytes of
/// all views but the first.
fn is_row(alloc: Global, row: &Row) -> pdb_base::Result<bool> {
    let mut notes = Vec::new(alloc);
    let (source, kind) = failing(alloc, &row.0)?;
    let source = Watched {
        source,
        notes: &mut notes,
    };
    let (are_answered, counted) = ask_case(alloc, source, row, kind);
    let viewed = bytes_in(&notes);
    Ok(are_answered && counted.unwrap_or(viewed) == viewed && are_views(&notes, row.3))
}

#[test]
fn watched_views(rt: HostRuntime) -> Result<(), Fail> {
    for (place, row) in ROWS.iter().enumerate() {
        assert!(rt; is_row(rt.alloc(), row)?, "row {place}");
    }
    Ok(())
}
