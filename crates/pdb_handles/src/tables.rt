//! Tables of types and of ids, and where their records are.

ghost use Rattle.std.specs.Prelude.{◌≡◌, map};
ghost use Rattle.pdb_base.specs.Answer.{Answers};
ghost use Rattle.pdb_handles.specs.Copied.{if_copied, items_copied};
ghost use Rattle.pdb_handles.specs.Tables.{bytes_found, located_at, range_in, record_found, table_said};

use crate::content::{Content, Records};
use crate::copied::{copy_nothing, copy_out};
use crate::fault::{FINE, Fault, NONE, TOO_SMALL};
use crate::file::stream_in;
use pdb_base::{Result, TypeIndex};
use pdb_msf::Layout;
use pdb_tpi::{OpenTable, RecordPlace, TypeInformation};
use pdb_types::OpenTypes;
use std::alloc::Global;

/// The number of the stream that holds the table of ids.
const IDS: u32 = 4;

/// Where the record of an index is in the stream of its table.
#[repr(C)]
#[derive(Clone, Copy)]
pub struct Located {
    /// The index.
    pub index: u32,
    /// The number of bytes of the stream before the record.
    pub offset: u32,
    /// The number of bytes of the record.
    pub length: u32,
}

impl Located {
    /// Returns the location of the record of an index, from its place.
    pub fn at(index: u32, place: RecordPlace) -> Located
        ensures { result ≡ located_at index place }
    {
        Located {
            index,
            offset: place.offset,
            length: place.length,
        }
    }
}

/// What was found of a record.
#[repr(C)]
#[derive(Clone, Copy)]
pub struct FoundRecord {
    /// Its index, and where the record is, or zeros if it isn't found.
    pub position: Located,
    /// How the search ended.
    pub fault: Fault,
}

/// The indexes that the header of a table counts.
#[repr(C)]
#[derive(Clone, Copy)]
pub struct IndexRange {
    /// The first index.
    pub first: u32,
    /// The index after the last one.
    pub end: u32,
}

/// Opens the table in a stream of a file.
///
/// # Errors
/// Fails as `stream_in` and `TypeInformation::parse` do, and with `OutOfMemory` if an allocation
/// fails.
pub fn table_in(alloc: Global, layout: &Layout, file: &[u8], number: u32) -> Result<Content>
    ensures { Answers (λ content. content) result (table_said layout.now file.now number) }
{
    let items = TypeInformation::parse(stream_in(alloc, layout, file, number)?)?;
    Ok(Content::Table(Records {
        types: OpenTypes::new(OpenTable::new(alloc, items)?),
        are_ids: number == IDS,
    }))
}

/// Returns the indexes that the header of a table counts.
pub fn range_in(types: &OpenTypes) -> IndexRange
    ensures { result ≡ range_in types.now.table }
{
    let header = types.table().items().header();
    IndexRange {
        first: header.minimum_index,
        end: header.maximum_index,
    }
}

/// Returns what is found of the record of an index. It is inlined, so that the result is written
/// where it stays.
#[inline(always)]
fn record_found(table: &OpenTable<TypeIndex>, index: u32) -> FoundRecord
    ensures { result ≡ record_found table.now.table index }
{
    let nothing = Located {
        index,
        offset: 0,
        length: 0,
    };
    match table.find(TypeIndex(index)) {
        Ok(Some(place)) => FoundRecord {
            position: Located::at(index, place),
            fault: Fault::status(FINE),
        },
        Ok(None) => FoundRecord {
            position: nothing,
            fault: Fault::status(NONE),
        },
        Err(error) => FoundRecord {
            position: nothing,
            fault: Fault::of(&error),
        },
    }
}

/// Writes what is found for each of some indexes to the start of the caller's array, and sets
/// `length` to their number. If the array has no room for all of them, none is written.
pub fn find_records(
    types: &mut OpenTypes,
    indexes: &[u32],
    room: &mut [FoundRecord],
    length: &mut usize,
) -> Fault
    ensures found { record { fault = result; length = length.new; room = room.new }
        ≡ items_copied room.old (map (record_found types.old.table) indexes.now) }
    ensures kept { types.new ≡ types.old }
{
    *length = indexes.len();
    if room.len() < indexes.len() {
        return Fault::status(TOO_SMALL);
    }
    // The table learns first, so that the loop of look-ups has little to do for each.
    for index in indexes {
        types.learn(TypeIndex(*index));
    }
    for at in 0..indexes.len() {
        room[at] = record_found(types.table(), indexes[at]);
    }
    Fault::status(FINE)
}

/// Copies the bytes of the record of an index, or returns a fault of status `NONE` if it has none,
/// or the fault of the error.
pub fn copy_record(types: &mut OpenTypes, index: u32, room: &mut [u8], length: &mut usize) -> Fault
    ensures copied { record { fault = result; length = length.new; room = room.new }
        ≡ if_copied room.old (bytes_found types.old.table index) }
    ensures kept { types.new ≡ types.old }
{
    types.learn(TypeIndex(index));
    match types.table().find(TypeIndex(index)) {
        Ok(Some(place)) => copy_out(types.table().bytes_at(place), room, length),
        Ok(None) => copy_nothing(Fault::status(NONE), length),
        Err(error) => copy_nothing(Fault::of(&error), length),
    }
}
