//! A small file that is whole, and damages of each of its parts. The bytes are written by hand.

use pdb_fixtures::{Failing, file_of, is_gone, with_bytes};
use pdb_validation::{Extent, Finding, Part, validate};
use std::alloc::Global;
use std::io::ErrorKind;
use std::process::Abort;

/// Stream 1: the numbers of the file, and a table that names stream 5 `/names`.
const INFORMATION: &[u8] =
    b"\x94\x2e\x31\x01\0\0\0\0\x01\0\0\0\0\0\0\0\0\0\0\0\0\0\0\0\0\0\0\0\x07\0\0\0/names\0\x01\0\0\0\x01\0\0\0\x01\0\0\0\x01\0\0\0\0\0\0\0\0\0\0\0\x05\0\0\0";

/// Stream 2: `const int`, an empty field list, and one that it continues. No stream has hashes.
const TYPES: &[u8] =
    b"\x0b\xca\x31\x01\x38\0\0\0\x00\x10\0\0\x03\x10\0\0\x1a\0\0\0\xff\xff\0\0\x04\0\0\0\0\x10\0\0\0\0\0\0\0\0\0\0\0\0\0\0\0\0\0\0\0\0\0\0\0\0\0\0\x08\0\x01\x10\x74\0\0\0\x01\0\x02\0\x03\x12\x0a\0\x03\x12\x04\x14\0\0\x01\x10\0\0";

/// Stream 3: a header without streams of symbols, and the roles of streams 6 to 9.
const DEBUG: &[u8] =
    b"\xff\xff\xff\xff\x77\x09\x31\x01\0\0\0\0\xff\xff\0\0\xff\xff\0\0\xff\xff\0\0\0\0\0\0\0\0\0\0\0\0\0\0\0\0\0\0\0\0\0\0\0\0\0\0\x16\0\0\0\0\0\0\0\0\0\x64\x86\0\0\0\0\x09\0\xff\xff\xff\xff\x07\0\xff\xff\x06\0\xff\xff\xff\xff\xff\xff\x08\0\xff\xff";

/// Stream 4: the id of a string.
const IDS: &[u8] =
    b"\x0b\xca\x31\x01\x38\0\0\0\x00\x10\0\0\x01\x10\0\0\x0a\0\0\0\xff\xff\0\0\x04\0\0\0\0\x10\0\0\0\0\0\0\0\0\0\0\0\0\0\0\0\0\0\0\0\0\0\0\0\0\0\0\x08\0\x05\x16\0\0\0\0a\0";

/// Stream 5: a string table, with one bucket.
const NAMES: &[u8] = b"\xfe\xef\xfe\xef\x01\0\0\0\x03\0\0\0\0a\0\x01\0\0\0\x01\0\0\0\x01\0\0\0";

/// Stream 7: an OMAP table.
const OMAP: &[u8] = b"\x01\0\0\0\x02\0\0\0\x03\0\0\0\x04\0\0\0";

/// Stream 8: two frames in the newer format.
const NEW_FRAMES: &[u8] =
    b"\x01\0\0\0\0\0\0\0\0\0\0\0\0\0\0\0\0\0\0\0\0\0\0\0\0\0\0\0\0\0\0\0\x02\0\0\0\0\0\0\0\0\0\0\0\0\0\0\0\0\0\0\0\0\0\0\0\0\0\0\0\0\0\0\0";

/// Stream 9: two frames in the older format.
const OLD_FRAMES: &[u8] = b"\x01\0\0\0\0\0\0\0\0\0\0\0\0\0\0\0\x02\0\0\0\0\0\0\0\0\0\0\0\0\0\0\0";

/// Streams 10 to 12 of a file with symbols: a hash table of globals and the stream of publics, which
/// have none, and a record.
const GLOBALS: &[u8] = b"\xff\xff\xff\xff\x1a\x09\x2f\xf1\0\0\0\0\0\0\0\0";

const PUBLICS: &[u8] =
    b"\x10\0\0\0\0\0\0\0\0\0\0\0\0\0\0\0\0\0\0\0\0\0\0\0\0\0\0\0\xff\xff\xff\xff\x1a\x09\x2f\xf1\0\0\0\0\0\0\0\0";

const SYMBOLS: &[u8] = b"\x02\0\x06\0";

/// The bytes of the file with which stream 3 gives the streams of symbols their numbers.
const SYMBOL_NUMBERS: &[(usize, u8)] = &[
    (0xe0c, 10),
    (0xe0d, 0),
    (0xe10, 11),
    (0xe11, 0),
    (0xe14, 12),
    (0xe15, 0),
];

/// Offsets in the file, the byte that is written there, and the first part that then has an error.
const DAMAGES: &[(usize, u8, Part)] = &[
    // The size of a page.
    (0x21, 0x03, Part::Header),
    // The size of the directory.
    (0x2d, 0x20, Part::Sizes),
    // The page of the directory.
    (0x600, 0x00, Part::Directory),
    // The size of stream 9, which becomes larger than the file.
    (0x829, 0x80, Part::Sizes),
    // The size of stream 9, which then ends within a frame.
    (0x828, 0xff, Part::OldFrames),
    // The page of stream 9.
    (0x84c, 0x00, Part::Stream),
    // The size of the names in stream 1.
    (0xa1c, 0xff, Part::Names),
    // The signature of the string table.
    (0x1200, 0x00, Part::StringTable),
    // The signature of stream 3.
    (0xe00, 0x00, Part::Roles),
    // The length of type 0x1000.
    (0xc38, 0x01, Part::Types),
    // The list that continues type 0x1002, which becomes that list itself.
    (0xc4e, 0x02, Part::Types),
    // The end of the indexes of types.
    (0xc0c, 0x04, Part::Types),
    // The length of id 0x1000.
    (0x1038, 0x01, Part::Ids),
    // The size of the section headers.
    (0x81c, 0x27, Part::SectionHeaders),
    // The first source of the OMAP table.
    (0x1600, 0x09, Part::OmapToSource),
    // The starts of the first frames.
    (0x1800, 0x02, Part::NewFrames),
    (0x1a00, 0x02, Part::OldFrames),
];

/// Offsets in the file, the byte that is written there, and of the record that then has an error its
/// index, its place in its stream and in the file, and the code of the finding.
const DAMAGED_RECORDS: [(usize, u8, u64, u64, Option<u64>, &str); 4] = [
    // The length of type 0x1000, and so the record.
    (0xc38, 0x01, 0x1000, 0x38, Some(0xc38), "TYPES-RECORD"),
    // The list that continues type 0x1002, which becomes that list itself.
    (0xc4e, 0x02, 0x1002, 0x46, Some(0xc46), "TYPES-RECORD"),
    // The end of the indexes of types, behind which there is no record and no byte.
    (0xc0c, 0x04, 0x1003, 0x52, None, "TYPES-RECORD-CUT"),
    // The length of id 0x1000, which then reaches past the end.
    (0x1038, 0x09, 0x1000, 0x38, Some(0x1038), "IDS-RECORD-CUT"),
];

/// Returns the small file: the directory in page 4, and each stream but 0, which is empty, in a
/// page behind it.
fn file(rt: &impl Abort, alloc: Global) -> Vec<u8> {
    let streams = [
        Some(b"".as_slice()),
        Some(INFORMATION),
        Some(TYPES),
        Some(DEBUG),
        Some(IDS),
        Some(NAMES),
        Some([0; 40].as_slice()),
        Some(OMAP),
        Some(NEW_FRAMES),
        Some(OLD_FRAMES),
    ];
    file_of(alloc, &streams).expect(rt, "memory")
}

/// Returns the small file, of which a byte is replaced.
fn file_with(rt: &impl Abort, alloc: Global, offset: usize, byte: u8) -> Vec<u8> {
    with_bytes(file(rt, alloc), &[(offset, byte)])
}

/// Returns what is found in a file.
fn findings_in(rt: &impl Abort, alloc: Global, file: &[u8], extent: Extent) -> Vec<Finding> {
    validate(alloc, file, extent).expect(rt, "memory")
}

/// Returns how many of some findings are errors: the records of the small file are not aligned.
fn error_count(findings: &[Finding]) -> usize {
    let mut count = 0usize;
    for finding in findings {
        if !finding.problem.is_warning() {
            count = count.saturating_add(1);
        }
    }
    count
}

/// Returns how many errors are found in a file.
fn errors_in(rt: &impl Abort, alloc: Global, file: &[u8], extent: Extent) -> usize {
    error_count(&findings_in(rt, alloc, file, extent))
}

/// Whether a finding has this code.
fn has_code(rt: &impl Abort, alloc: Global, finding: &Finding, code: &str) -> bool {
    let text = format!(in alloc; "{}", finding.code()).expect(rt, "memory");
    text.as_str() == code
}

#[test]
fn whole(rt: HostRuntime) {
    let file = file(&rt, rt.alloc());
    assert!(rt; errors_in(&rt, rt.alloc(), &file, Extent::All) == 0);
}

/// Whether the first finding of the small file with a byte replaced is in this part.
fn is_in_part(rt: &impl Abort, alloc: Global, offset: usize, byte: u8, part: Part) -> bool {
    let file = file_with(rt, alloc, offset, byte);
    let findings = findings_in(rt, alloc, &file, Extent::First);
    matches!(findings.first(), Some(finding) if finding.part == part)
}

#[test]
fn damaged_files(rt: HostRuntime) {
    for (offset, byte, part) in DAMAGES {
        let is_well = is_in_part(&rt, rt.alloc(), *offset, *byte, *part);
        assert!(rt; is_well, "{offset:#x}");
    }
}

/// Whether the first finding of the small file with a byte replaced has this index, byte of the
/// stream, byte of the file and code.
fn is_record_found(
    rt: &impl Abort,
    alloc: Global,
    row: &(usize, u8, u64, u64, Option<u64>, &str),
) -> bool {
    let (offset, value, index, byte, file_byte, code) = *row;
    let file = file_with(rt, alloc, offset, value);
    let findings = findings_in(rt, alloc, &file, Extent::First);
    let first = findings.first().expect(rt, "a finding");
    let places = (Some(index), Some(byte), file_byte);
    (first.index, first.byte, first.file_byte) == places && has_code(rt, alloc, first, code)
}

#[test]
fn damaged_records(rt: HostRuntime) {
    for row in DAMAGED_RECORDS.iter() {
        assert!(rt; is_record_found(&rt, rt.alloc(), row), "{:#x}", row.0);
    }
}

/// Type 0x1001 becomes a list of arguments that ends before their number, so that type 0x1002 is
/// continued by no field list; and stream 9 has a page that is none.
#[test]
fn every_one(rt: HostRuntime) {
    let file = with_bytes(file(&rt, rt.alloc()), &[(0xc44, 0x01), (0x84c, 0x00)]);
    assert!(rt; errors_in(&rt, rt.alloc(), &file, Extent::First) == 2);
    assert!(rt; errors_in(&rt, rt.alloc(), &file, Extent::All) == 3);
}

/// Returns the small file with three streams behind it, to which stream 3 does not lead yet.
fn file_with_streams(rt: &impl Abort, alloc: Global) -> Vec<u8> {
    let streams = [
        Some(b"".as_slice()),
        Some(INFORMATION),
        Some(TYPES),
        Some(DEBUG),
        Some(IDS),
        Some(NAMES),
        Some([0; 40].as_slice()),
        Some(OMAP),
        Some(NEW_FRAMES),
        Some(OLD_FRAMES),
        Some(GLOBALS),
        Some(PUBLICS),
        Some(SYMBOLS),
    ];
    file_of(alloc, &streams).expect(rt, "memory")
}

/// Whether a validation of a whole file whose view number `n` fails returns the error of the source.
/// It makes fewer views than `n` if it finds no error instead.
fn is_failure_told(rt: &impl Abort, alloc: Global, file: &[u8], n: u64) -> bool {
    let bytes = Vec::from_slice(alloc, file).expect(rt, "memory");
    let source = Failing::new(bytes, n);
    match validate(alloc, source, Extent::All) {
        Ok(findings) => {
            assert!(rt; error_count(&findings) == 0, "{n}");
            false
        }
        Err(error) => {
            assert!(rt; is_gone(alloc, &error, ErrorKind::Other), "{n}");
            true
        }
    }
}

/// Returns how many views of a whole file are made.
fn view_count(rt: &impl Abort, alloc: Global, file: &[u8]) -> u64 {
    let mut views = 0;
    for n in 1..1000 {
        if is_failure_told(rt, alloc, file, n) {
            views = n;
        }
    }
    views
}

/// Each view of the source fails in turn. The header, the directory and the bytes of nine streams
/// are viewed, and the size of the file is looked for.
#[test]
fn failing_views(rt: HostRuntime) {
    let views = view_count(&rt, rt.alloc(), &file(&rt, rt.alloc()));
    assert!(rt; views > 100, "{views}");
}

/// What is inconsistent in each stream of symbols is found in one view of its page, and in no
/// further view of stream 3.
#[test]
fn symbols_viewed_once(rt: HostRuntime) {
    let unread = file_with_streams(&rt, rt.alloc());
    let read = with_bytes(file_with_streams(&rt, rt.alloc()), SYMBOL_NUMBERS);
    assert!(rt; errors_in(&rt, rt.alloc(), &read, Extent::All) == 0);
    let views = view_count(&rt, rt.alloc(), &read);
    assert!(rt;
        views.saturating_sub(view_count(&rt, rt.alloc(), &unread)) == 3,
        "{views}"
    );
}
