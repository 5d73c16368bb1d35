//! What the record of a type or of an id says.

ghost use Rattle.std.specs.Prelude.{◌≡◌, ◌==◌, not};
ghost use Rattle.std.specs.Option.{option_map};
ghost use Rattle.pdb_base.specs.Answer.{Answers};
ghost use Rattle.pdb_handles.specs.Copied.{CopiesOrLacks, if_copied_of, text_if_answered, text_if_asked};
ghost use Rattle.pdb_handles.specs.{Fields.fields_listed, Found.AsksAnswer, Handle.records_held, Kept.Keeps};
ghost use Rattle.pdb_handles.specs.Listing.{RowsOrLacks, listing_asked};
ghost use Rattle.pdb_handles.specs.Records.{said_methods, said_name, said_numbers, said_row, said_of, said_unique_name};
ghost use Rattle.pdb_handles.specs.Row.{typed_row};

use pdb_base::{Result, TypeIndex};
use pdb_handles::copied::{copy_if, copy_name, copy_nothing, write_listing};
use pdb_handles::fields::{FieldRow, listed_fields};
use pdb_handles::found::tell_answered;
use pdb_handles::records::{methods_of, name_of, numbers_of, row_of, said_at, unique_name_of};
use pdb_handles::{Fault, Handle, Records, Row};
use std::alloc::Global;

/// Returns the numbers in the record of the type or the id of an index.
fn row_at(alloc: Global, table: &mut Records, index: u32) -> Result<Row>
    ensures row { Answers (λ row. row) result (said_of said_row table.old index) }
    ensures kept { table.new ≡ table.old }
{
    table.types.learn(TypeIndex(index));
    Ok(row_of(&said_at(alloc, table, index)?))
}

/// Returns the numbers that the record of an index lists.
fn numbers_at(alloc: Global, table: &mut Records, index: u32) -> Result<Option<Vec<u32>>>
    ensures numbers { Answers (option_map (λ list. list.items)) result (said_of said_numbers table.old index) }
    ensures kept { table.new ≡ table.old }
{
    table.types.learn(TypeIndex(index));
    numbers_of(alloc, &said_at(alloc, table, index)?)
}

/// Returns the methods that the record of an index lists.
fn methods_at(alloc: Global, table: &mut Records, index: u32) -> Result<Option<Vec<Row>>>
    ensures methods { Answers (option_map (λ list. list.items)) result (said_of said_methods table.old index) }
    ensures kept { table.new ≡ table.old }
{
    table.types.learn(TypeIndex(index));
    methods_of(alloc, &said_at(alloc, table, index)?)
}

/// Copies the name of the type or the id of an index.
fn copy_name_of(
    alloc: Global,
    table: &mut Records,
    index: u32,
    room: &mut [u8],
    length: &mut usize,
) -> Fault
    ensures told { CopiesOrLacks (record { fault = result; length = length.new; room = room.new }) room.old
        (text_if_answered room.old (said_of said_name table.old index)) }
    ensures kept { table.new ≡ table.old }
{
    table.types.learn(TypeIndex(index));
    match said_at(alloc, table, index) {
        Ok(said) => copy_name(name_of(&said), room, length),
        Err(error) => copy_nothing(Fault::of(&error), length),
    }
}

/// Copies the unique name of the type of an index.
fn copy_unique_name_of(
    alloc: Global,
    table: &mut Records,
    index: u32,
    room: &mut [u8],
    length: &mut usize,
) -> Fault
    ensures told { CopiesOrLacks (record { fault = result; length = length.new; room = room.new }) room.old
        (text_if_answered room.old (said_of said_unique_name table.old index)) }
    ensures kept { table.new ≡ table.old }
{
    table.types.learn(TypeIndex(index));
    match said_at(alloc, table, index) {
        Ok(said) => copy_name(unique_name_of(&said), room, length),
        Err(error) => copy_nothing(Fault::of(&error), length),
    }
}

/// Writes the numbers in the record of the type or the id of an index.
#[unsafe(no_mangle)]
pub extern "C" fn pdb_type_parse(
    alloc: Global,
    types: &mut Handle,
    index: u32,
    row: &mut Row,
) -> u32
    ensures answer { AsksAnswer (λ records. said_of said_row records index) row.old
        (records_held types.old.held.content) types.new.fault row.new }
    ensures kept { Keeps types.old types.new result }
{
    ask!(types, alloc, Table(table) => tell_answered(row_at(alloc, table, index), row))
}

/// Copies the name of the type or the id of an index.
#[unsafe(no_mangle)]
pub extern "C" fn pdb_type_name(
    alloc: Global,
    types: &mut Handle,
    index: u32,
    room: &mut [u8],
    length: &mut usize,
) -> u32
    ensures answer { CopiesOrLacks (record { fault = types.new.fault; length = length.new; room = room.new }) room.old
        (text_if_asked room.old (λ records. said_of said_name records index) (records_held types.old.held.content)) }
    ensures kept { Keeps types.old types.new result }
{
    *length = 0;
    ask!(types, alloc, Table(table) => copy_name_of(alloc, table, index, room, length))
}

/// Copies the unique name of a class, a union or an enumeration.
#[unsafe(no_mangle)]
pub extern "C" fn pdb_type_unique_name(
    alloc: Global,
    types: &mut Handle,
    index: u32,
    room: &mut [u8],
    length: &mut usize,
) -> u32
    ensures answer { CopiesOrLacks (record { fault = types.new.fault; length = length.new; room = room.new }) room.old
        (text_if_asked room.old (λ records. said_of said_unique_name records index)
        (records_held types.old.held.content)) }
    ensures kept { Keeps types.old types.new result }
{
    *length = 0;
    ask!(types, alloc, Table(table) => copy_unique_name_of(alloc, table, index, room, length))
}

/// Copies the numbers that a record lists: the types of arguments, the dimensions of an array, or
/// ids.
#[unsafe(no_mangle)]
pub extern "C" fn pdb_type_numbers(
    alloc: Global,
    types: &mut Handle,
    index: u32,
    room: &mut [u32],
    length: &mut usize,
) -> u32
    ensures answer { CopiesOrLacks (record { fault = types.new.fault; length = length.new; room = room.new }) room.old
        (if_copied_of room.old (λ records. said_of said_numbers records index)
        (records_held types.old.held.content)) }
    ensures kept { Keeps types.old types.new result }
{
    *length = 0;
    ask!(types, alloc, Table(table) => copy_if(numbers_at(alloc, table, index), room, length))
}

/// Writes the methods in a list of methods, each as a `Row`.
#[unsafe(no_mangle)]
pub extern "C" fn pdb_type_methods(
    alloc: Global,
    types: &mut Handle,
    index: u32,
    room: &mut [Row],
    length: &mut usize,
) -> u32
    ensures answer { CopiesOrLacks (record { fault = types.new.fault; length = length.new; room = room.new }) room.old
        (if_copied_of room.old (λ records. said_of said_methods records index)
        (records_held types.old.held.content)) }
    ensures kept { Keeps types.old types.new result }
{
    *length = 0;
    ask!(types, alloc, Table(table) => copy_if(methods_at(alloc, table, index), room, length))
}

/// Writes the fields of a list, and unless `whole` is 0 of the lists in which it continues, in order,
/// and their names.
#[unsafe(no_mangle)]
pub extern "C" fn pdb_type_fields(
    alloc: Global,
    types: &mut Handle,
    index: u32,
    whole: u32,
    rows: &mut [FieldRow],
    count: &mut usize,
    names: &mut [u8],
    size: &mut usize,
) -> u32
    ensures answer { RowsOrLacks (record {
      fault = types.new.fault;
      rows = rows.new;
      count = count.new;
      names = names.new;
      size = size.new;
    })
        rows.old names.old (listing_asked rows.old names.old
        (λ records. fields_listed (not (whole == 0)) records.types.table index)
        (records_held types.old.held.content)) }
    ensures kept { Keeps types.old types.new result }
{
    *count = 0;
    *size = 0;
    ask!(types, alloc, Table(table) => {
        write_listing(listed_fields(&mut table.types, alloc, index, whole != 0), rows, count, names, size)
    })
}

/// Changes the row of an enumerator, so that its value is a number of the type under its
/// enumeration. Changes no other row.
#[unsafe(no_mangle)]
pub extern "C" fn pdb_enumerator_typed(row: &mut Row, underlying_type: u32)
    ensures { row.new ≡ typed_row row.old underlying_type }
{
    row.set_typed(underlying_type)
}
