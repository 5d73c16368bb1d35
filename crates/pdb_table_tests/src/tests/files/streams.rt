//! What is opened as a file, and the streams of S1, also of one with some bytes set to others.

use pdb_base::Error;
use pdb_fixtures::{Want, is_error, s1, with_bytes};
use pdb_msf::{BigMSF, Msf, ReadView, Source, open_msf};
use std::alloc::Global;
use std::test::Fail;

/// The offsets in S1 of the page number of stream 3, of the second one of stream 1, and of the
/// directory's size.
const PAGE_OF_3: usize = 1052;

const PAGE_OF_1: usize = 1048;

const DIRECTORY_SIZE: usize = 44;

const STREAM_2_ABSENT: Want = Want::Error(Error::StreamNotFound(2));

const STREAM_4_ABSENT: Want = Want::Error(Error::StreamNotFound(4));

const STREAM_LAST_ABSENT: Want = Want::Error(Error::StreamNotFound(u32::MAX));

const STREAM_1: Want = Want::Front(600);

const OUT_OF_RANGE: Want = Want::Error(Error::PageReferenceOutOfRange(9));

const BYTES_END: Want = Want::Error(Error::UnexpectedEof);

const NO_BYTES: Want = Want::Bytes(b"");

/// Bytes of S1 that are set to others, the stream and the limit of a call, and its answer.
const ASKED: &[(&[(usize, u8)], u32, Option<usize>, Want)] = &[
    (&[], 0, None, NO_BYTES),
    (&[], 1, None, STREAM_1),
    (&[], 1, Some(513), Want::Front(513)),
    (&[], 1, Some(601), STREAM_1),
    (&[], 1, Some(0), NO_BYTES),
    (&[], 2, None, STREAM_2_ABSENT),
    (&[], 3, None, Want::Bytes(b"hello")),
    (&[], 4, None, STREAM_4_ABSENT),
    (&[(PAGE_OF_1, 6)], 1, None, Want::Bytes(&[b'a'; 600])),
    (&[(PAGE_OF_3, 8)], 3, None, Want::SourceEnds),
    (&[(PAGE_OF_3, 8)], 3, Some(0), NO_BYTES),
    (&[(PAGE_OF_3, 9)], 3, None, OUT_OF_RANGE),
    (&[(PAGE_OF_3, 9)], 3, Some(0), OUT_OF_RANGE),
    (&[(DIRECTORY_SIZE, 0)], 0, None, BYTES_END),
    (&[(DIRECTORY_SIZE, 0)], 1, Some(1), BYTES_END),
    // The directory ends behind the size of stream 1, behind that of stream 2, and within that of
    // stream 3.
    (&[(DIRECTORY_SIZE, 12)], 2, None, BYTES_END),
    (&[(DIRECTORY_SIZE, 12)], 0, None, BYTES_END),
    (&[(DIRECTORY_SIZE, 16)], 2, None, STREAM_2_ABSENT),
    (&[(DIRECTORY_SIZE, 16)], 0, None, BYTES_END),
    (&[(DIRECTORY_SIZE, 19)], 0, None, BYTES_END),
    (&[(DIRECTORY_SIZE, 19)], 4, None, STREAM_4_ABSENT),
    // The directory ends behind the first page number of stream 1, and behind the second.
    (&[(DIRECTORY_SIZE, 24)], 0, None, NO_BYTES),
    (&[(DIRECTORY_SIZE, 24)], 1, None, BYTES_END),
    (&[(DIRECTORY_SIZE, 24)], 3, None, BYTES_END),
    (&[(DIRECTORY_SIZE, 28)], 1, None, STREAM_1),
    (&[(DIRECTORY_SIZE, 28)], 3, None, BYTES_END),
];

/// S1 with some bytes set to others, opened.
fn open_s1(alloc: Global, edits: &[(usize, u8)]) -> pdb_base::Result<BigMSF<Vec<u8>>> {
    open_msf(alloc, with_bytes(s1(alloc)?, edits))
}

/// Whether a file answers so for a stream, does so again, and does so when it is consumed for the
/// stream.
fn answers_twice(
    alloc: Global,
    mut file: BigMSF<Vec<u8>>,
    number: u32,
    limit: Option<usize>,
    answer: &Want,
) -> bool {
    let once = answer.fits(&file.get(alloc, number, limit));
    let again = answer.fits(&file.get(alloc, number, limit));
    once && again && answer.fits(&file.into_stream(alloc, number, limit))
}

/// The edits by which S1 claims 0xffffffff streams.
const CLAIMED: &[(usize, u8)] = &[(1024, 0xff), (1025, 0xff), (1026, 0xff), (1027, 0xff)];

/// Streams of that file, in the order in which they are read, and the answers.
const OF_THE_CLAIMED: &[(u32, Want)] = &[
    (0, BYTES_END),
    (2, STREAM_2_ABSENT),
    (7, BYTES_END),
    (u32::MAX, STREAM_LAST_ABSENT),
    (7, BYTES_END),
    (u32::MAX, STREAM_LAST_ABSENT),
    (2, STREAM_2_ABSENT),
    (0, BYTES_END),
];

/// Whether a file answers so for one stream after another.
fn answers_in_turn(alloc: Global, mut file: BigMSF<Vec<u8>>, streams: &[(u32, Want)]) -> bool {
    for (number, answer) in streams {
        if !answer.fits(&file.get(alloc, *number, None)) {
            return false;
        }
    }
    true
}

#[test]
fn streams(rt: HostRuntime) -> Result<(), Fail> {
    let alloc = rt.alloc();
    for (edits, number, limit, answer) in ASKED {
        let is_well = answers_twice(alloc, open_s1(alloc, edits)?, *number, *limit, answer);
        assert!(rt; is_well, "stream {number}, limit {limit:?}");
    }
    assert!(rt; answers_in_turn(alloc, open_s1(alloc, CLAIMED)?, OF_THE_CLAIMED));
    Ok(())
}

/// Bytes of S1 that are set to others, how many bytes are left of it, and the error of opening it,
/// if that fails.
const OPENED: &[(&str, &[(usize, u8)], usize, Option<Error>)] = rows! {
    "S1", &[], 4096, None;
    "no directory", &[(DIRECTORY_SIZE, 0)], 4096, None;
    "other magic", &[(0, b'm')], 4096, Some(Error::UnrecognizedFileFormat);
    "page size 768", &[(33, 3)], 4096, Some(Error::InvalidPageSize(768));
    "location page 9", &[(52, 9)], 4096, Some(Error::PageReferenceOutOfRange(9));
    "another format", &[(0, 0x7f), (1, 0x45), (2, 0x4c), (3, 0x46)], 4,
        Some(Error::UnrecognizedFileFormat);
    "all but the last byte", &[], 4095, Some(Error::UnrecognizedFileFormat);
};

/// Whether a file opens, or fails with the error that is wanted, if there is one.
fn opens<S: Source + Drop>(found: pdb_base::Result<BigMSF<S>>, want: Option<&Error>) -> bool {
    match (found, want) {
        (Ok(_), None) => true,
        (Err(error), Some(want)) => is_error(&error, want),
        _ => false,
    }
}

/// So many bytes of S1, of which some are set to others.
fn front(alloc: Global, edits: &[(usize, u8)], len: usize) -> pdb_base::Result<Vec<u8>> {
    let mut file = with_bytes(s1(alloc)?, edits);
    file.truncate(len);
    Ok(file)
}

/// S1, opened by its first so many bytes.
fn opened_by(alloc: Global, len: usize) -> pdb_base::Result<BigMSF<Vec<u8>>> {
    BigMSF::new(alloc, s1(alloc)?, ReadView::new(front(alloc, &[], len)?))
}

/// Whether a file is opened that answers with stream 1.
fn holds_stream_1<S: Source + Drop>(alloc: Global, found: pdb_base::Result<BigMSF<S>>) -> bool {
    match found {
        Ok(mut file) => STREAM_1.fits(&file.get(alloc, 1, None)),
        Err(_) => false,
    }
}

/// Whether S1 as a borrowed slice answers with stream 1.
fn is_borrowed(alloc: Global) -> pdb_base::Result<bool> {
    let file = s1(alloc)?;
    Ok(holds_stream_1(alloc, open_msf(alloc, file.as_slice())))
}

/// Whether a file of the older format is refused.
fn is_small_refused(alloc: Global) -> pdb_base::Result<bool> {
    let mut file = Vec::from_slice(alloc, pdb_msf::small::MAGIC)?;
    file.resize(4096, 0)?;
    let want = Error::UnimplementedFeature("small MSF file format");
    Ok(opens(open_msf(alloc, file), Some(&want)))
}

#[test]
fn openings(rt: HostRuntime) -> Result<(), Fail> {
    let alloc = rt.alloc();
    for (name, edits, len, want) in OPENED {
        let found = open_msf(alloc, front(alloc, edits, *len)?);
        assert!(rt; opens(found, want.as_ref()), "{name}");
    }
    assert!(rt; s1(alloc)?.starts_with(pdb_msf::big::MAGIC));
    assert!(rt; opens(opened_by(alloc, 51), Some(&Error::UnexpectedEof)));
    assert!(rt; opens(opened_by(alloc, 56), None));
    assert!(rt; holds_stream_1(alloc, opened_by(alloc, 4096)));
    assert!(rt; is_borrowed(alloc)? && is_small_refused(alloc)?);
    Ok(())
}
