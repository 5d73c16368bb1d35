//! String tables, and the names in them.

use super::stream;
use pdb_base::Error;
use pdb_fixtures::{STRINGS, is_error};
use pdb_space::{StringRef, StringTable};
use std::alloc::Global;
use std::test::Fail;

/// A name that is not UTF-8.
const BROKEN: &[u8] = b"\xfe\xef\xfe\xef\x02\0\0\0\x04\0\0\0f\xffo\0";

const ENDS: Error = Error::UnexpectedEof;

const OTHER_SIGNATURE: Error = Error::UnimplementedFeature("invalid string table signature");

const OTHER_VERSION: Error = Error::UnimplementedFeature("unknown string table hash version");

/// A query of the table of some bytes, and its answer.
enum Answer {
    /// That it is a table.
    Parsed,
    /// That it is none: the error.
    Refused(Error),
    /// The name at an offset, as bytes and as text.
    Name(u32, &'static [u8], &'static str),
    /// That there is no NUL at an offset or behind it among the names: `UnexpectedEof`.
    Ends(u32),
}

/// The bytes of tables, and what is answered.
const ROWS: &[(&[u8], Answer)] = rows! {
    STRINGS, Answer::Parsed;
    BROKEN, Answer::Parsed;
    b"\xfe\xef\xfe\xef\x01\0\0\0\0\0\0\0", Answer::Parsed;
    b"\xfe\xef\xfe\xef\x01\0\0\0\x08\0\0\0\0foo\0ba\0", Answer::Parsed;
    b"", Answer::Refused(ENDS);
    b"\xfe\xef\xfe\xef\x01\0\0\0\0\0\0", Answer::Refused(ENDS);
    b"\0\0\0\0\x03\0\0\0\0\0\0", Answer::Refused(ENDS);
    b"\xfe\xef\xfe\xee\x03\0\0\0\x09\0\0\0", Answer::Refused(OTHER_SIGNATURE);
    b"\xef\xfe\xef\xfe\x01\0\0\0\0\0\0\0", Answer::Refused(OTHER_SIGNATURE);
    b"\xfe\xef\xfe\xef\x01\0\0\0\x09\0\0\0\0foo\0ba\0", Answer::Refused(ENDS);
    b"\xfe\xef\xfe\xef\x03\0\0\0\xff\xff\xff\xff\0foo\0ba\0", Answer::Refused(ENDS);
    b"\xfe\xef\xfe\xef\x03\0\0\0\x07\0\0\0\0foo\0ba\0", Answer::Refused(OTHER_VERSION);
    b"\xfe\xef\xfe\xef\0\0\0\0\0\0\0\0", Answer::Refused(OTHER_VERSION);
    STRINGS, Answer::Name(0, b"", "");
    STRINGS, Answer::Name(1, b"foo", "foo");
    STRINGS, Answer::Name(2, b"oo", "oo");
    STRINGS, Answer::Name(4, b"", "");
    STRINGS, Answer::Ends(5);
    STRINGS, Answer::Ends(6);
    STRINGS, Answer::Ends(7);
    STRINGS, Answer::Ends(8);
    STRINGS, Answer::Ends(0xffff_ffff);
    BROKEN, Answer::Name(0, b"f\xffo", "f\u{fffd}o");
};

/// Whether each look-up of a name answers with it, and the one as text with this one.
fn each_gives(
    alloc: Global,
    table: &StringTable,
    name: StringRef,
    want: &[u8],
    text: &str,
) -> bool {
    matches!(table.get(name), Ok(found) if found.as_bytes() == want)
        && matches!(name.to_raw_string(table), Ok(found) if found.as_bytes() == want)
        && matches!(name.to_string_lossy(alloc, table), Ok(found) if found.as_str() == text)
}

/// Whether each look-up of a name fails with `UnexpectedEof`.
fn each_ends(alloc: Global, table: &StringTable, name: StringRef) -> bool {
    matches!(table.get(name), Err(Error::UnexpectedEof))
        && matches!(name.to_raw_string(table), Err(Error::UnexpectedEof))
        && matches!(
            name.to_string_lossy(alloc, table),
            Err(Error::UnexpectedEof)
        )
}

/// Whether a table answers so.
fn holds(alloc: Global, table: &StringTable, want: &Answer) -> bool {
    match want {
        Answer::Parsed => true,
        Answer::Refused(_) => false,
        Answer::Name(offset, want, text) => {
            each_gives(alloc, table, StringRef(*offset), want, text)
        }
        Answer::Ends(offset) => each_ends(alloc, table, StringRef(*offset)),
    }
}

/// Whether an error is what is answered.
fn is_refused(error: &Error, want: &Answer) -> bool {
    matches!(want, Answer::Refused(same) if is_error(error, same))
}

/// Whether the table of these bytes answers so.
fn is_answered(alloc: Global, bytes: &[u8], want: &Answer) -> Result<bool, Fail> {
    match StringTable::parse(stream(alloc, bytes)?) {
        Ok(table) => Ok(holds(alloc, &table, want)),
        Err(error) => Ok(is_refused(&error, want)),
    }
}

#[test]
fn string_tables(rt: HostRuntime) -> Result<(), Fail> {
    for (place, (bytes, want)) in ROWS.iter().enumerate() {
        let is_well = is_answered(rt.alloc(), bytes, want)?;
        assert!(rt; is_well, "row {place}: {bytes:?}");
    }
    Ok(())
}
