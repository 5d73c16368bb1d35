//! Test cases on streams of S1, for tests in which an allocation or a view fails.

use pdb_base::Error;
use pdb_fixtures::Want;

/// A query of S1: the positions and the bytes that are set there, the number of the stream and the
/// limit; the expected result; and how many views of a source it takes to open the file and to read
/// the stream twice.
pub(crate) struct Row(
    pub(crate) &'static [(usize, u8)],
    pub(crate) u32,
    pub(crate) Option<usize>,
    pub(crate) Want,
    pub(crate) u64,
);

/// The position of stream 3's page number in S1.
const PAGE_OF_3: usize = 1052;

/// Stream 3 in page 8, behind the file's end.
const PAST: &[(usize, u8)] = &[(PAGE_OF_3, 8)];

/// Stream 3 in page 9, which is none.
const NONE: &[(usize, u8)] = &[(PAGE_OF_3, 9)];

const OUT_OF_RANGE: Want = Want::Error(Error::PageReferenceOutOfRange(9));

/// S1 as it is, and then with stream 3 elsewhere.
pub(crate) const ROWS: &[Row] = &[
    Row(&[], 1, None, Want::Front(600), 5),
    Row(&[], 1, Some(513), Want::Front(513), 5),
    Row(&[], 0, None, Want::Bytes(b""), 5),
    Row(&[], 3, None, Want::Bytes(b"hello"), 5),
    Row(&[], 2, None, Want::Error(Error::StreamNotFound(2)), 3),
    Row(&[], 4, None, Want::Error(Error::StreamNotFound(4)), 3),
    Row(PAST, 3, None, Want::SourceEnds, 5),
    Row(PAST, 3, Some(0), Want::Bytes(b""), 5),
    Row(NONE, 3, None, OUT_OF_RANGE, 3),
    Row(NONE, 3, Some(0), OUT_OF_RANGE, 3),
];
