//! What the program prints of S1, case by case.

use pdb_base::Result;
use pdb_cli::{Outcome, act};
use pdb_fixtures::{
    FAR_LISTS, MOVES, STREAM_1_LINES, STRINGS, item_table, items_of, s1, s1_with, table_of,
    with_bytes,
};
use std::alloc::Global;
use std::test::Fail;

const USAGE: &str =
    "usage: pdbq stream N [LIMIT] | type S I | id S I | name S O | ranges S A B | fields S I\n";

pub(super) const ABSENT_2: &str = "The requested stream (2) is not stored in this file\n";

const ABSENT_4: &str = "The requested stream (4) is not stored in this file\n";

const NO_OMAP: &str = "OMAP stream has an invalid length or alignment for its records\n";

/// How the line of an error of the source begins. The system's own text follows it.
const IO_ERROR: &str = "IO error while reading PDB: ";

/// Records: a modifier, a class, a text, and what a module was built with.
const MODIFIER: &[u8] = b"\x01\x10\x74\x00\x00\x00\x01\x00\xf2\xf1";

const CLASS: &[u8] =
    b"\x09\x16\x00\x02\x00\x00\x16\x10\x00\x00\x00\x00\x00\x00\x00\x00\x00\x00\x02\x00\x06\x00H_size\x00.?AUH_size@@\x00";

const TEXT: &[u8] = b"\x05\x16\x00\x00\x00\x00a\x00";

const BUILD_INFO: &[u8] = b"\x03\x16\x02\x00\x01\x10\x00\x00\x02\x10\x00\x00";

/// An item that ends within its record.
const CUT_CLASS: &[u8] = b"\x2a\x00\x09\x16";

/// Lists of fields: B; A, and then those of 0x1000; C, and then those of 0x1001; A, and then those
/// of itself; A, and then those of a primitive type; and a list of an empty list of methods, which
/// has no name.
const LIST_B: &[u8] = b"\x03\x12\x02\x15\x03\x00\x01\x00B\x00\xf2\xf1";

const LIST_A: &[u8] = b"\x03\x12\x02\x15\x03\x00\x00\x00A\x00\x04\x14\x00\x00\x00\x10\x00\x00";

const LIST_C: &[u8] = b"\x03\x12\x02\x15\x03\x00\x02\x00C\x00\x04\x14\x00\x00\x01\x10\x00\x00";

const OWN_LIST: &[u8] = b"\x03\x12\x02\x15\x03\x00\x00\x00A\x00\x04\x14\x00\x00\x01\x10\x00\x00";

const NO_LIST: &[u8] = b"\x03\x12\x02\x15\x03\x00\x00\x00A\x00\x04\x14\x00\x00\xff\x0f\x00\x00";

const NAMELESS: &[u8] = b"\x03\x12\x06\x12";

/// The list of A with an entry after its continuation whose record kind is not read.
const FAULT_BEHIND: &[u8] =
    b"\x03\x12\x02\x15\x03\x00\x00\x00A\x00\x04\x14\x00\x00\x00\x10\x00\x00\x34\x12";

const NOT_BELOW: &str = "Unimplemented PDB feature: field list continuation not below its list\n";

const PRIMITIVE: &str = "Support for types of kind 0xffff is not implemented\n";

const BROKEN: &[u8] = b"\xfe\xef\xfe\xef\x01\x00\x00\x00\x04\x00\x00\x00f\xffo\x00";

/// A table of two types, whose least index and maximum are 0xffffffff.
const LAST: &[u8] =
    b"\0\0\0\0\x38\0\0\0\xff\xff\xff\xff\xff\xff\xff\xff\0\0\0\0\0\0\0\0\0\0\0\0\0\0\0\0\0\0\0\0\0\0\0\0\0\0\0\0\0\0\0\0\0\0\0\0\0\0\0\0\x02\0\x01\x10\x02\0\x01\x10";

/// A file.
enum File {
    /// S1.
    Example,
    /// S1 whose last stream lies behind its end.
    Cut,
    /// S1 with these bytes as its stream 3.
    With(&'static [u8]),
    /// S1 with a table of these records as its stream 3, from index 0x1000 on.
    Records(&'static [&'static [u8]]),
    /// S1 with a table of these items as its stream 3, from index 0x1000 up to below a maximum.
    Table(&'static [u8], u32),
    /// S1 with a table of nine items of two bytes as its stream 3, up to below a maximum, of which
    /// one may be too short.
    Nine(u32, Option<u8>),
}

use File::{Cut, Example, Nine, Records, Table, With};

/// A file and the words for it; and the answer: the status and both outputs.
type Row = (
    File,
    &'static [&'static str],
    u8,
    &'static str,
    &'static str,
);

/// Streams, all of stream 1 and its first bytes, and words that are no query.
const STREAMS: &[Row] = rows! {
    Example, &["stream", "0"], 0, "", "";
    Example, &["stream", "0000000003", "0x2"], 0, "6865\n", "";
    Example, &["stream", "4"], 1, "", ABSENT_4;
    Example, &["stream", "2"], 1, "", ABSENT_2;
    Example, &["stream"], 2, "", USAGE;
    Example, &["stream", "4294967296"], 2, "", USAGE;
    Example, &["stream", "0x100000000"], 2, "", USAGE;
    Example, &["stream", "-1"], 2, "", USAGE;
    Example, &["Stream", "1"], 2, "", USAGE;
    Example, &["stream", "1", "2", "3"], 2, "", USAGE;
    Example, &["type", "3"], 2, "", USAGE;
    Example, &["ranges", "3", "0"], 2, "", USAGE;
    Example, &["name", "3", "0x"], 2, "", USAGE;
    Example, &["fields", "3"], 2, "", USAGE;
    Example, &["fields", "4", "0"], 1, "", ABSENT_4;
    Cut, &["stream", "3"], 1, "", IO_ERROR;
    Example, &[], 0, STREAM_1_LINES, "";
    Example, &["stream", "1"], 0, STREAM_1_LINES, "";
    Example, &["stream", "0x00000001", "0xFFFFFFFF"], 0, STREAM_1_LINES, "";
};

/// Types, ids, and fields of lists.
const TABLES: &[Row] = rows! {
    Records(&[MODIFIER]), &["type", "3", "0x1000"], 0, "0x1000 0x1001 -\n", "";
    Records(&[MODIFIER]), &["type", "3", "0x74"], 0, "0x74 0xffff -\n", "";
    Records(&[MODIFIER]), &["type", "3", "0x1001"], 1, "", "Type 4097 not found\n";
    Records(&[MODIFIER]), &["type", "2", "0x1001"], 1, "", ABSENT_2;
    Records(&[CLASS]), &["type", "3", "4096"], 0, "0x1000 0x1609 H_size\n", "";
    Table(CUT_CLASS, 0x1001), &["type", "3", "0x1000"], 1, "", "UnexpectedEof\n";
    Nine(0x2000, None), &["type", "3", "0x1500"], 1, "", "UnexpectedEof\n";
    Nine(0x1009, Some(2)), &["type", "3", "0x1005"], 1, "", "TypeTooShort\n";
    Records(&[BUILD_INFO]), &["id", "3", "0x1000"], 0, "0x1000 0x1603 -\n", "";
    Records(&[TEXT]), &["id", "3", "0x1000"], 0, "0x1000 0x1605 a\n", "";
    Records(&[TEXT]), &["type", "3", "0x1000"], 1, "",
        "Support for types of kind 0x1605 is not implemented\n";
    Records(&[LIST_B, LIST_A]), &["fields", "3", "0x1001"], 0, "A\nB\n", "";
    Records(&[LIST_B, LIST_A]), &["fields", "3", "0x1000"], 0, "B\n", "";
    Records(&[LIST_B, LIST_A]), &["fields", "3", "0x74"], 1, "", PRIMITIVE;
    Records(&[LIST_B, LIST_A]), &["fields", "3", "0x1002"], 1, "", "Type 4098 not found\n";
    Records(&[LIST_B, LIST_A, LIST_C]), &["fields", "3", "0x1002"], 0, "C\nA\nB\n", "";
    Records(&[LIST_B, OWN_LIST]), &["fields", "3", "0x1001"], 1, "", NOT_BELOW;
    Records(&[LIST_B, NO_LIST]), &["fields", "3", "0x1001"], 1, "", PRIMITIVE;
    Records(&[LIST_B, FAULT_BEHIND]), &["fields", "3", "0x1001"], 1, "",
        "Support for types of kind 0x1234 is not implemented\n";
    Table(FAR_LISTS, 0x1009), &["fields", "3", "0x1008"], 0, "A\nB\n", "";
    Records(&[NAMELESS]), &["fields", "3", "0x1000"], 0, "-\n", "";
    Records(&[MODIFIER]), &["fields", "3", "0x1000"], 1, "",
        "Support for types of kind 0x1001 is not implemented\n";
};

/// Names, ranges, and a type that is not there.
const NAMES_AND_RANGES: &[Row] = rows! {
    With(STRINGS), &["name", "3", "1"], 0, "foo\n", "";
    With(STRINGS), &["name", "3", "0"], 0, "\n", "";
    With(STRINGS), &["name", "3", "5"], 1, "", "UnexpectedEof\n";
    With(BROKEN), &["name", "3", "0"], 0, "f\u{fffd}o\n", "";
    With(MOVES), &["ranges", "3", "0", "0x1010"], 0, "0x15d44..0x15d4c\n", "";
    With(MOVES), &["ranges", "3", "0", "0x1008"], 0, "", "";
    With(MOVES), &["ranges", "4", "0", "0x1010"], 1, "", ABSENT_4;
    With(b"hello"), &["ranges", "3", "0", "0x1010"], 1, "", NO_OMAP;
    With(&[0; 12]), &["ranges", "3", "0", "1"], 1, "", NO_OMAP;
    With(LAST), &["type", "3", "0xffffffff"], 1, "", "Type 4294967295 not found\n";
};

/// The position of the page number of the last stream of S1.
const LAST_PAGE: usize = 1052;

/// S1 with a table as its stream 3.
fn with_table(alloc: Global, items: &[u8], maximum: u32) -> Result<Vec<u8>> {
    let table = item_table(alloc, 56, 0x1000, maximum, items)?;
    s1_with(alloc, &table)
}

/// The bytes of a file.
fn bytes_of(alloc: Global, file: &File) -> Result<Vec<u8>> {
    match file {
        Example => s1(alloc),
        Cut => Ok(with_bytes(s1(alloc)?, &[(LAST_PAGE, 8)])),
        With(stream) => s1_with(alloc, stream),
        Records(records) => s1_with(alloc, &table_of(alloc, records)?),
        Table(items, maximum) => with_table(alloc, items, *maximum),
        Nine(maximum, short) => with_table(alloc, &items_of(alloc, 9, *short)?, *maximum),
    }
}

/// Whether the line of an error is this; the system's own text of an error is left open.
fn is_line(line: &[u8], wanted: &str) -> bool {
    if wanted == IO_ERROR {
        return line.starts_with(IO_ERROR.as_bytes()) && line.ends_with(b"\n");
    }
    line == wanted.as_bytes()
}

/// Whether the program ended with a case's status and wrote what the case says.
fn is_written(outcome: &Outcome, row: &Row) -> bool {
    let (.., status, out, line) = row;
    outcome.status == *status
        && outcome.out.as_slice() == out.as_bytes()
        && is_line(&outcome.err, line)
}

/// Whether the program answers a case so.
fn is_printed(alloc: Global, row: &Row) -> Result<bool> {
    let (file, words, ..) = row;
    let outcome = act(alloc, words, bytes_of(alloc, file)?)?;
    Ok(is_written(&outcome, row))
}

/// Whether the first 513 bytes of stream 1 are printed as the first 16 of all its lines, of which
/// each has 64 digits, and a line of one byte.
fn is_limited(alloc: Global) -> Result<bool> {
    let outcome = act(alloc, &["stream", "1", "513"], s1(alloc)?)?;
    let lines = outcome.out.strip_suffix(b"62\n".as_slice()).unwrap_or(b"");
    Ok(
        outcome.status == 0
            && outcome.err.is_empty()
            && lines.len() == 16 * 65
            && STREAM_1_LINES.as_bytes().starts_with(lines),
    )
}

#[test]
fn printed(rt: HostRuntime) -> std::result::Result<(), Fail> {
    for rows in [STREAMS, TABLES, NAMES_AND_RANGES] {
        for row in rows {
            assert!(rt; is_printed(rt.alloc(), row)?, "{:?}", row.1);
        }
    }
    assert!(rt; is_limited(rt.alloc())?);
    Ok(())
}
