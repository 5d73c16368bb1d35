//! Small files, tables and lists, of which each breaks one relation. The bytes are written by hand.

use pdb_base::{Stream, TypeIndex};
use pdb_file::section_headers::section_headers;
use pdb_fixtures::{file_of, stream_of, with_bytes};
use pdb_msf::{CountedSource, Layout};
use pdb_tpi::{OpenTable, TypeInformation};
use pdb_validation::{
    Extent, Inconsistency, Mismatch, check_buckets, check_debug_header, check_globals,
    check_hashes, check_modules, check_pages, check_publics, check_records, check_section_order,
    check_symbols,
};
use std::alloc::Global;
use std::process::Abort;

/// A file of three streams, of 0, 600 and 100 bytes. Stream 1 is in pages 5 and 6, stream 2 in page
/// 7, and the directory, which has 28 bytes, in page 4, from byte 0x800 of the file on.
fn file(rt: &impl Abort, alloc: Global) -> Vec<u8> {
    let streams = [
        Some(b"".as_slice()),
        Some([0; 600].as_slice()),
        Some([0; 100].as_slice()),
    ];
    file_of(alloc, &streams).expect(rt, "memory")
}

/// A table of types: `const int`, and a pointer to it. Its hash stream has two hash values behind
/// each other, below 4 buckets, and behind them the place of the first record.
const TYPES: &[u8] =
    b"\x0b\xca\x31\x01\x38\0\0\0\x00\x10\0\0\x02\x10\0\0\x18\0\0\0\x07\0\xff\xff\x04\0\0\0\x04\0\0\0\0\0\0\0\x08\0\0\0\x08\0\0\0\x08\0\0\0\x10\0\0\0\0\0\0\0\x0a\0\x01\x10\x74\0\0\0\x01\0\xf2\xf1\x0a\0\x02\x10\0\x10\0\0\x0c\0\x01\0";

/// The hash stream of the table.
const HASHES: &[u8] = b"\x03\0\0\0\x01\0\0\0\0\x10\0\0\0\0\0\0";

/// A string table with the names `a` and `bc`, in two of three buckets.
const NAMES: &[u8] =
    b"\xfe\xef\xfe\xef\x01\0\0\0\x06\0\0\0\0a\0bc\0\x03\0\0\0\x03\0\0\0\0\0\0\0\x01\0\0\0\x02\0\0\0";

/// Stream 3: a header of version 19990903, for x86-64, that says that nothing follows it.
const DEBUG: &[u8] =
    b"\xff\xff\xff\xff\x77\x09\x31\x01\0\0\0\0\0\0\0\0\0\0\0\0\0\0\0\0\0\0\0\0\0\0\0\0\0\0\0\0\0\0\0\0\0\0\0\0\0\0\0\0\0\0\0\0\0\0\0\0\0\0\x64\x86\0\0\0\0";

/// Stream 3: a header, a module with 90 bytes of symbols and 10 of lines in stream 2, one without a
/// stream, whose entry ends with a byte that fills it, and a byte behind both.
const MODULES: &[u8] =
    b"\xff\xff\xff\xffw\x091\x01\0\0\0\0\0\0\0\0\0\0\0\0\0\0\0\0\x8c\0\0\0\0\0\0\0\0\0\0\0\0\0\0\0\0\0\0\0\0\0\0\0\0\0\0\0\0\0\0\0\0\0d\x86\0\0\0\0\0\0\0\0\0\0\0\0\0\0\0\0\0\0\0\0\0\0\0\0\0\0\0\0\0\0\0\0\0\0\0\0\0\0\x02\0Z\0\0\0\0\0\0\0\x0a\0\0\0\0\0\0\0\0\0\0\0\0\0\0\0\0\0\0\0a\0b\0\0\0\0\0\0\0\0\0\0\0\0\0\0\0\0\0\0\0\0\0\0\0\0\0\0\0\0\0\0\0\0\0\0\0\xff\xff\0\0\0\0\0\0\0\0\0\0\0\0\0\0\0\0\0\0\0\0\0\0\0\0\0\0\0\0\0c.obj\0\0\x01";

/// A hash table of symbols, with one record and four bytes of buckets.
const GLOBALS: &[u8] =
    b"\xff\xff\xff\xff\x1a\x09\x2f\xf1\x08\0\0\0\x04\0\0\0\x01\0\0\0\x01\0\0\0\0\0\0\0";

/// The stream of publics: a hash table without records, an address, a thunk and a section.
const PUBLICS: &[u8] =
    b"\x10\0\0\0\x04\0\0\0\x01\0\0\0\x05\0\0\0\x01\0\0\0\0\0\0\0\x01\0\0\0\xff\xff\xff\xff\x1a\x09\x2f\xf1\0\0\0\0\0\0\0\0\0\0\0\0\0\0\0\0\0\0\0\0\0\0\0\0";

/// Two records of symbols, which take four bytes and six.
const SYMBOLS: &[u8] = b"\x02\0\x06\0\x04\0\x0e\x11\0\0";

/// Two sections of 0x1000 bytes each, at 0x1000 and 0x2000.
const SECTIONS: &[u8] =
    b"\0\0\0\0\0\0\0\0\0\x10\0\0\0\x10\0\0\0\0\0\0\0\0\0\0\0\0\0\0\0\0\0\0\0\0\0\0\0\0\0\0\0\0\0\0\0\0\0\0\0\x10\0\0\0\x20\0\0\0\0\0\0\0\0\0\0\0\0\0\0\0\0\0\0\0\0\0\0\0\0\0\0";

/// What is checked.
#[derive(Clone, Copy)]
enum Checked {
    /// The pages of the file.
    Pages,
    /// The records of the table of types.
    Records,
    /// The hash stream of that table.
    Hashes,
    /// The buckets of the string table.
    Buckets,
    /// The modules of stream 3, in the file.
    Modules,
    /// The hash table of the globals.
    Globals,
    /// The stream of the publics.
    Publics,
    /// The records of symbols.
    Symbols,
}

use Checked::{Buckets, Globals, Hashes, Modules, Pages, Publics, Records, Symbols};

/// A byte that is set to another, and what is then inconsistent first: its stream, the index of its
/// record, and the byte of the stream.
type Damage = (Checked, usize, u8, u32, Option<u64>, u64, Inconsistency);

const DAMAGES: &[Damage] = rows! {
    // Stream 2 begins in the second page of stream 1.
    Pages, 0x818, 6, 2, None, 0, Inconsistency::PageShared(6);
    // The second page of stream 1 is the first.
    Pages, 0x814, 5, 1, None, 512, Inconsistency::PageShared(5);
    // Stream 2 is in the second free page map, in the page of the directory and in that before it.
    Pages, 0x818, 2, 2, None, 0, Inconsistency::PageShared(2);
    Pages, 0x818, 4, 2, None, 0, Inconsistency::PageShared(4);
    Pages, 0x818, 3, 2, None, 0, Inconsistency::PageShared(3);
    // The free page map has the bit of page 6.
    Pages, 0x200, 0x40, 1, None, 512, Inconsistency::PageFree(6);
    // The pointer is to itself, and then to a type that there is not.
    Records, 0x48, 1, 2, Some(0x1001), 0x44, Inconsistency::ReferenceNotBelow(0x1001);
    Records, 0x49, 0x20, 2, Some(0x1001), 0x44, Inconsistency::ReferenceNotBelow(0x2000);
    // The first record becomes one of kind 0x100e, which is not read.
    Records, 0x3a, 0x0e, 2, Some(0x1000), 0x38, Inconsistency::KindNotRead(0x100e);
    // The first record takes two bytes fewer, and those begin another one.
    Records, 0x38, 8, 2, Some(0x1000), 0x38, Inconsistency::RecordUnaligned;
    // A hash value, and the offset and the index of the place.
    Hashes, 4, 4, 7, Some(0x1001), 4, Inconsistency::HashTooLarge(4);
    Hashes, 12, 12, 7, Some(0x1000), 8, Inconsistency::IndexOffset(0x1000);
    Hashes, 8, 2, 7, Some(0x1002), 8, Inconsistency::IndexOffset(0x1002);
    // Within `bc`, and behind the names.
    Buckets, 0x16, 4, 5, None, 0x16, Inconsistency::NameOffset(4);
    Buckets, 0x16, 6, 5, None, 0x16, Inconsistency::NameOffset(6);
    // The name `a` becomes `b`, whose hash leads to the first bucket, and the second one is empty.
    Buckets, 0x0d, 0x62, 5, None, 0x1e, Inconsistency::NameUnreached(1);
    // The count of names, and one bucket more.
    Buckets, 0x22, 3, 5, None, 0x22, Inconsistency::NameCount(3);
    Buckets, 0x12, 4, 5, None, 0x26, Inconsistency::BucketsCut;
    // The sizes of the symbols and of both kinds of lines, and the stream.
    Modules, 0x64, 0x5b, 3, Some(0), 0x40, Inconsistency::ModuleSizes(2);
    Modules, 0x69, 1, 3, Some(0), 0x40, Inconsistency::ModuleSizes(2);
    Modules, 0x6c, 0x0b, 3, Some(0), 0x40, Inconsistency::ModuleSizes(2);
    Modules, 0x62, 9, 3, Some(0), 0x40, Inconsistency::StreamMissing(9);
    // The list ends a byte before the second entry, or behind it.
    Modules, 0x18, 0x8b, 3, Some(1), 0x84, Inconsistency::ModuleCut;
    Modules, 0x18, 0x8d, 3, Some(2), 0xcc, Inconsistency::ModuleCut;
    // The signature, the version, the size of the records and that of the buckets.
    Globals, 0, 0, 7, None, 0, Inconsistency::SymbolHashVersion(0xffff_ff00);
    Globals, 4, 0x1b, 7, None, 4, Inconsistency::SymbolHashVersion(0xf12f_091b);
    Globals, 8, 0, 7, None, 8, Inconsistency::SymbolHashSizes;
    Globals, 12, 5, 7, None, 8, Inconsistency::SymbolHashSizes;
    // The sizes of the parts of the publics, and their hash table.
    Publics, 0, 0, 7, None, 0, Inconsistency::PublicSizes;
    Publics, 4, 5, 7, None, 0, Inconsistency::PublicSizes;
    Publics, 8, 2, 7, None, 0, Inconsistency::PublicSizes;
    Publics, 0x18, 2, 7, None, 0, Inconsistency::PublicSizes;
    Publics, 0x20, 0, 7, None, 0x20, Inconsistency::SymbolHashVersion(0xf12f_0900);
    Publics, 0x24, 8, 7, None, 0x24, Inconsistency::SymbolHashSizes;
    // The length of each record; the last one then ends a byte before the stream or behind it.
    Symbols, 0, 1, 7, None, 0, Inconsistency::SymbolCut;
    Symbols, 4, 3, 7, None, 9, Inconsistency::SymbolCut;
    Symbols, 4, 5, 7, None, 4, Inconsistency::SymbolCut;
};

/// Returns a stream of these bytes, of which some are replaced.
fn stream(rt: &impl Abort, alloc: Global, bytes: &[u8], edits: &[(usize, u8)]) -> Stream {
    let bytes = Vec::from_slice(alloc, bytes).expect(rt, "memory");
    stream_of(with_bytes(bytes, edits)).expect(rt, "a short stream")
}

/// Returns the table of types.
fn types(rt: &impl Abort, alloc: Global, bytes: &[u8]) -> TypeInformation {
    TypeInformation::parse(stream(rt, alloc, bytes, &[])).expect(rt, "a table")
}

/// Returns what is inconsistent in the pages of a file.
fn page_mismatches(rt: &impl Abort, alloc: Global, file: &[u8], extent: Extent) -> Vec<Mismatch> {
    let mut source = CountedSource::new(file);
    let layout = Layout::read(alloc, &mut source).expect(rt, "a layout");
    check_pages(alloc, &layout, &mut source, extent).expect(rt, "memory")
}

/// Returns what is inconsistent in the modules of stream 3, in the file.
fn module_mismatches(
    rt: &impl Abort,
    alloc: Global,
    bytes: &[u8],
    extent: Extent,
) -> Vec<Mismatch> {
    let mut source = CountedSource::new(file(rt, alloc));
    let layout = Layout::read(alloc, &mut source).expect(rt, "a layout");
    let stream = stream(rt, alloc, bytes, &[]);
    check_modules(alloc, &layout, &stream, extent).expect(rt, "memory")
}

/// Returns what is inconsistent between the records of a table of types.
fn record_mismatches(
    rt: &impl Abort,
    alloc: Global,
    bytes: &[u8],
    extent: Extent,
) -> Vec<Mismatch> {
    let types = types(rt, alloc, bytes);
    check_records(alloc, &types, 0, extent).expect(rt, "memory")
}

/// Returns what is inconsistent between the table of types, which is open up to its last record,
/// and a hash stream.
fn hash_mismatches(rt: &impl Abort, alloc: Global, hashes: &[u8], extent: Extent) -> Vec<Mismatch> {
    let mut table = OpenTable::new(alloc, types(rt, alloc, TYPES)).expect(rt, "an open table");
    table.learn(TypeIndex(0x1001));
    check_hashes(alloc, 7, &table, hashes, extent).expect(rt, "memory")
}

impl Checked {
    /// Returns the bytes that are whole.
    fn bytes(self, rt: &impl Abort, alloc: Global) -> Vec<u8> {
        let bytes = match self {
            Pages => return file(rt, alloc),
            Records => TYPES,
            Hashes => HASHES,
            Buckets => NAMES,
            Modules => MODULES,
            Globals => GLOBALS,
            Publics => PUBLICS,
            Symbols => SYMBOLS,
        };
        Vec::from_slice(alloc, bytes).expect(rt, "memory")
    }

    /// Returns what is inconsistent in bytes.
    fn mismatches(
        self,
        rt: &impl Abort,
        alloc: Global,
        bytes: &[u8],
        extent: Extent,
    ) -> Vec<Mismatch> {
        match self {
            Pages => page_mismatches(rt, alloc, bytes, extent),
            Records => record_mismatches(rt, alloc, bytes, extent),
            Hashes => hash_mismatches(rt, alloc, bytes, extent),
            Buckets => check_buckets(alloc, 5, bytes, extent).expect(rt, "memory"),
            Modules => module_mismatches(rt, alloc, bytes, extent),
            Globals => check_globals(alloc, 7, bytes, extent).expect(rt, "memory"),
            Publics => check_publics(alloc, 7, bytes, extent).expect(rt, "memory"),
            Symbols => check_symbols(alloc, 7, bytes, extent).expect(rt, "memory"),
        }
    }
}

/// Whether nothing is inconsistent in bytes that are whole.
fn is_whole(rt: &impl Abort, alloc: Global, checked: Checked) -> bool {
    let bytes = checked.bytes(rt, alloc);
    checked
        .mismatches(rt, alloc, &bytes, Extent::All)
        .is_empty()
}

/// Whether bytes of which one is replaced have the mismatch of a case alone.
fn is_found(rt: &impl Abort, alloc: Global, row: &Damage) -> bool {
    let (checked, offset, byte, stream, index, place, what) = *row;
    let bytes = with_bytes(checked.bytes(rt, alloc), &[(offset, byte)]);
    let wanted = Mismatch {
        stream: Some(stream),
        index,
        byte: Some(place),
        what,
    };
    let found = checked.mismatches(rt, alloc, &bytes, Extent::First);
    matches!(found.as_slice(), [mismatch] if *mismatch == wanted)
}

#[test]
fn damages(rt: HostRuntime) {
    let all = [
        Pages, Records, Hashes, Buckets, Modules, Globals, Publics, Symbols,
    ];
    for checked in all {
        assert!(rt; is_whole(&rt, rt.alloc(), checked));
    }
    for row in DAMAGES {
        assert!(rt; is_found(&rt, rt.alloc(), row), "{:#x} is {}", row.1, row.2);
    }
}

/// Whether a hash stream that ends after its first hash has too few of them.
fn has_few_hashes(rt: &impl Abort, alloc: Global) -> bool {
    let found = hash_mismatches(rt, alloc, &HASHES[..4], Extent::First);
    matches!(found.as_slice(), [mismatch] if mismatch.what == Inconsistency::HashCount(1))
}

/// Returns what is inconsistent in the order of some sections.
fn section_mismatches(rt: &impl Abort, alloc: Global, stream: &Stream) -> Vec<Mismatch> {
    let headers = section_headers(alloc, stream).expect(rt, "section headers");
    check_section_order(alloc, &headers, 9, Extent::All).expect(rt, "memory")
}

/// Whether the sections overlap once the first one is a byte longer, and not before.
fn do_sections_overlap(rt: &impl Abort, alloc: Global) -> bool {
    let whole = section_mismatches(rt, alloc, &stream(rt, alloc, SECTIONS, &[]));
    let found = section_mismatches(rt, alloc, &stream(rt, alloc, SECTIONS, &[(8, 1)]));
    let overlap = Inconsistency::SectionsOverlap;
    whole.is_empty()
        && matches!(found.as_slice(), [it] if it.what == overlap && it.index == Some(1))
}

/// Whether the names are where the hash of version 2 leads, and `e` in the place of `a` is not.
fn are_newer_hashes(rt: &impl Abort, alloc: Global) -> bool {
    let newer = stream(rt, alloc, NAMES, &[(4, 2)]);
    let moved = stream(rt, alloc, NAMES, &[(4, 2), (0x0d, 0x65)]);
    let whole = check_buckets(alloc, 5, newer.as_slice(), Extent::All).expect(rt, "memory");
    let found = check_buckets(alloc, 5, moved.as_slice(), Extent::All).expect(rt, "memory");
    let unreached = Inconsistency::NameUnreached(1);
    whole.is_empty() && matches!(found.as_slice(), [it] if it.what == unreached)
}

/// Bytes of stream 3 that are set to others, and what is then inconsistent: nothing, the sizes once
/// there are section contributions, the version and the machine.
const DEBUG_DAMAGES: &[(&[(usize, u8)], Option<Inconsistency>)] = &[
    (&[], None),
    (&[(28, 1)], Some(Inconsistency::DebugSizes)),
    (&[(4, 0x78)], Some(Inconsistency::UnknownVersion(19990904))),
    (&[(58, 0x65)], Some(Inconsistency::UnknownMachine(0x8665))),
];

/// Returns what is inconsistent in the header of stream 3, of which some bytes are replaced.
fn debug_mismatch(rt: &impl Abort, alloc: Global, edits: &[(usize, u8)]) -> Option<Inconsistency> {
    let stream = stream(rt, alloc, DEBUG, edits);
    let found = check_debug_header(alloc, &stream, Extent::All).expect(rt, "memory");
    found.first().map(|mismatch| mismatch.what)
}

#[test]
fn counts_and_sizes(rt: HostRuntime) {
    assert!(rt; has_few_hashes(&rt, rt.alloc()) && do_sections_overlap(&rt, rt.alloc()));
    assert!(rt; are_newer_hashes(&rt, rt.alloc()));
    for (edits, wanted) in DEBUG_DAMAGES {
        assert!(rt; debug_mismatch(&rt, rt.alloc(), edits) == *wanted);
    }
}
