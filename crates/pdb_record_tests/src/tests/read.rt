//! Records, as the one item of a table.

use pdb_base::{Error, Stream, TypeIndex};
use pdb_fixtures::{is_error, stream_of, table_of};
use pdb_records::parse_type_data;
use pdb_tpi::TypeInformation;
use pdb_values::TypeData;
use std::alloc::Global;
use std::process::Abort;

/// These bytes, and more behind them.
pub(crate) fn join_bytes(rt: &impl Abort, alloc: Global, bytes: &[u8], more: &[u8]) -> Vec<u8> {
    let mut longer = Vec::from_slice(alloc, bytes).expect(rt, "memory");
    longer.extend_from_slice(more).expect(rt, "memory");
    longer
}

/// The stream of a table whose one item, of index 0x1000, is this record.
pub(crate) fn stream_with(rt: &impl Abort, alloc: Global, record: &[u8]) -> Stream {
    let bytes = table_of(alloc, &[record]).expect(rt, "memory");
    stream_of(bytes).expect(rt, "a short table")
}

/// The types of that table.
pub(crate) fn types_of(rt: &impl Abort, alloc: Global, record: &[u8]) -> TypeInformation {
    TypeInformation::parse(stream_with(rt, alloc, record)).expect(rt, "a table")
}

/// The types of such a table, whose record has more bytes behind it.
pub(crate) fn types_with(
    rt: &impl Abort,
    alloc: Global,
    record: &[u8],
    more: &[u8],
) -> TypeInformation {
    types_of(rt, alloc, &join_bytes(rt, alloc, record, more))
}

/// What is wanted of a record: a value, or an error.
pub(crate) type Wanted<'w, T> = Result<&'w T, &'w Error>;

/// Whether a value was made, and is equal to this one.
pub(crate) fn is_same<T: Eq + Drop>(made: pdb_base::Result<T>, value: &T) -> bool {
    matches!(made, Ok(data) if data == *value)
}

/// Whether no value was read, and the error is this one.
fn is_refused<T: Drop>(read: pdb_base::Result<T>, want: &Error) -> bool {
    matches!(read, Err(error) if is_error(&error, want))
}

/// Whether what was read is what is wanted.
pub(crate) fn is_wanted<T: Eq + Drop>(read: pdb_base::Result<T>, want: Wanted<'_, T>) -> bool {
    match want {
        Ok(value) => is_same(read, value),
        Err(error) => is_refused(read, error),
    }
}

/// Whether the bytes that were read end too soon.
pub(crate) fn is_cut<T: Drop>(read: pdb_base::Result<T>) -> bool {
    matches!(read, Err(Error::UnexpectedEof))
}

/// Whether the type of a table's one item is what is wanted.
pub(crate) fn is_read<'t>(
    rt: &impl Abort,
    alloc: Global,
    table: &'t TypeInformation,
    want: Wanted<'_, TypeData<'t>>,
) -> bool {
    let finder = table.finder(alloc).expect(rt, "a finder");
    let item = finder.find(TypeIndex(0x1000)).expect(rt, "an item");
    is_wanted(item.parse(alloc), want)
}

/// Whether a record that is in no table says this, and does so again.
pub(crate) fn is_parsed<'t>(
    rt: &impl Abort,
    alloc: Global,
    record: &'t [u8],
    want: &TypeData<'t>,
) -> bool {
    let data = parse_type_data(alloc, record).expect(rt, "a type");
    let again = parse_type_data(alloc, record);
    data == *want && is_same(again, &data)
}

/// Whether each proper prefix of a record ends too soon.
pub(crate) fn ends_soon(alloc: Global, record: &[u8]) -> bool {
    for length in 0..record.len() {
        if !is_cut(parse_type_data(alloc, &record[..length])) {
            return false;
        }
    }
    true
}
