//! Tables of types and of ids behind a handle.

ghost use Rattle.std.specs.Prelude.{◌≡◌, map, Ok};
ghost use Rattle.pdb_handles.specs.{Copied.copied_of, Copied.if_copied_of, Found.found_of, Handle.OpensFrom};
ghost use Rattle.pdb_handles.specs.{Handle.file_held, Handle.records_held, Tables.bytes_found, Tables.range_in};
ghost use Rattle.pdb_handles.specs.{Tables.record_found, Tables.table_said, Walked.WritesNextOf, Walked.rewound};
ghost use Rattle.pdb_handles.specs.Kept.{HoldsFile, Keeps};

use pdb_handles::file::OpenFile;
use pdb_handles::found::tell_value;
use pdb_handles::tables::{FoundRecord, IndexRange, copy_record, find_records, range_in, table_in};
use pdb_handles::walked::{TypeRow, write_next};
use pdb_handles::{FINE, Fault, Handle};
use std::alloc::Global;

/// Opens the table of types or of ids in a stream of a file. Its walk begins at the first item.
#[unsafe(no_mangle)]
pub extern "C" fn pdb_types_open(
    alloc: Global,
    file: &mut OpenFile<'_>,
    number: u32,
    types: &mut Handle,
) -> u32
    ensures opens { OpensFrom (file_held file.old.handle.held.content)
        (λ layout. table_said layout file.old.bytes.now number)
        types.old.held.content types.new.fault types.new.held.content }
    ensures kept { HoldsFile file.old file.new }
    ensures status { result ≡ types.new.fault.status }
{
    let bytes = file.bytes;
    open_from!(file, types, alloc, layout => table_in(alloc, layout, bytes, number))
}

/// Writes the indexes that the header of a table counts. The walk may give fewer items, or more.
#[unsafe(no_mangle)]
pub extern "C" fn pdb_types_range(alloc: Global, types: &mut Handle, range: &mut IndexRange) -> u32
    ensures answer { record { fault = types.new.fault; value = range.new } ≡ found_of range.old
        (λ records. range_in records.types.table) (records_held types.old.held.content) }
    ensures kept { Keeps types.old types.new result }
{
    ask!(types, alloc, Table(table) => tell_value(range_in(&table.types), range))
}

/// Writes where the record of each of some indexes is in the stream of a table, and how each search
/// ended.
#[unsafe(no_mangle)]
pub extern "C" fn pdb_types_find(
    alloc: Global,
    types: &mut Handle,
    indexes: &[u32],
    room: &mut [FoundRecord],
    length: &mut usize,
) -> u32
    ensures answer { record { fault = types.new.fault; length = length.new; room = room.new } ≡ copied_of room.old
        (λ records. Ok (map (record_found records.types.table) indexes.now)) (records_held types.old.held.content) }
    ensures kept { Keeps types.old types.new result }
{
    *length = 0;
    ask!(types, alloc, Table(table) => find_records(&mut table.types, indexes, room, length))
}

/// Copies the bytes of the record of an index.
#[unsafe(no_mangle)]
pub extern "C" fn pdb_type_record(
    alloc: Global,
    types: &mut Handle,
    index: u32,
    room: &mut [u8],
    length: &mut usize,
) -> u32
    ensures answer { record { fault = types.new.fault; length = length.new; room = room.new } ≡ if_copied_of room.old
        (λ records. bytes_found records.types.table index) (records_held types.old.held.content) }
    ensures kept { Keeps types.old types.new result }
{
    *length = 0;
    ask!(types, alloc, Table(table) => copy_record(&mut table.types, index, room, length))
}

/// Writes the next records of the walk along a table, each with its position and its `Row`, to the
/// start of the caller's array: as many as it has room for, or as are left before the walk ends or
/// fails. `count` is set to their number. A record that can't be parsed has a fault of its own, and
/// the walk goes on behind it.
#[unsafe(no_mangle)]
pub extern "C" fn pdb_types_read(
    alloc: Global,
    types: &mut Handle,
    rows: &mut [TypeRow],
    count: &mut usize,
) -> u32
    ensures answer { WritesNextOf rows.old types.old.held.content
        (record { fault = types.new.fault; length = count.new; room = rows.new }) types.new.held.content }
    ensures status { result ≡ types.new.fault.status }
{
    *count = 0;
    ask!(types, alloc, Table(table) => write_next(alloc, table, rows, count))
}

/// Restarts the walk along a table before its first item.
#[unsafe(no_mangle)]
pub extern "C" fn pdb_types_rewind(alloc: Global, types: &mut Handle) -> u32
    ensures answer { record { fault = types.new.fault; value = types.new.held.content }
        ≡ rewound types.old.held.content }
    ensures status { result ≡ types.new.fault.status }
{
    ask!(types, alloc, Table(table) => {
        table.types.rewind();
        Fault::status(FINE)
    })
}
