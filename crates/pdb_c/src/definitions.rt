//! Definitions of types, their sizes, texts and layouts.

ghost use Rattle.std.specs.Prelude.{◌≡◌};
ghost use Rattle.pdb_base.specs.Answer.{Answers};
ghost use Rattle.pdb_types.specs.{Definition.definition_of, Part.layout_of_type, Size.size_of};
ghost use Rattle.pdb_handles.specs.{Copied.CopiesOrLacks, Copied.copied_of, Handle.records_held, Kept.Keeps};
ghost use Rattle.pdb_handles.specs.Definitions.{FindsOrLacks, WritesText, WritesTextOf, definitions_named};
ghost use Rattle.pdb_handles.specs.Definitions.{definitions_say, found_in};
ghost use Rattle.pdb_handles.specs.LayoutRow.{LaysOutOf, LaysOutOrLacks};

use pdb_base::{Result, TypeIndex};
use pdb_handles::copied::{copy_list, copy_nothing, write_nothing};
use pdb_handles::definitions::{
    copy_declaration, definition_number, definitions_named, tell_if_found,
};
use pdb_handles::layout_row::{LayoutRow, write_layout_of};
use pdb_handles::{Fault, Handle, Records};
use std::alloc::Global;

/// Returns the indexes of all definitions of a name.
fn named_in(alloc: Global, table: &mut Records, name: &[u8]) -> Result<Vec<u32>>
    ensures named { Answers (λ list. list.items) result (definitions_named name.now table.old) }
    ensures kept { table.new ≡ table.old }
{
    table.types.keep_definitions(alloc)?;
    definitions_named(alloc, &table.types.definitions(alloc)?, name)
}

/// Returns the index of the definition of a type, if it has one.
fn definition_at(alloc: Global, table: &mut Records, index: u32) -> Result<Option<u32>>
    ensures definition { Answers (λ index. index) result
        (definitions_say (λ table. definition_of table index) table.old) }
    ensures kept { table.new ≡ table.old }
{
    table.types.keep_definitions(alloc)?;
    definition_number(alloc, &table.types.definitions(alloc)?, index)
}

/// Returns the size of a type, if something says it.
fn size_at(alloc: Global, table: &mut Records, index: u32) -> Result<Option<u64>>
    ensures size { Answers (λ size. size) result (definitions_say (λ table. size_of table index) table.old) }
    ensures kept { table.new ≡ table.old }
{
    table.types.keep_definitions(alloc)?;
    let definitions = table.types.definitions(alloc)?;
    definitions.size_of(alloc, TypeIndex(index))
}

/// Copies the declaration of a name that has a type.
fn copy_text_of(
    alloc: Global,
    table: &mut Records,
    index: u32,
    name: &[u8],
    room: &mut [u8],
    length: &mut usize,
) -> Fault
    ensures told { WritesText table.old.types.table room.old
        (record { fault = result; length = length.new; room = room.new }) }
    ensures kept { table.new ≡ table.old }
{
    if let Err(error) = table.types.keep_definitions(alloc) {
        return copy_nothing(Fault::of(&error), length);
    }
    match table.types.definitions(alloc) {
        Ok(definitions) => copy_declaration(alloc, &definitions, index, name, room, length),
        Err(error) => copy_nothing(Fault::of(&error), length),
    }
}

/// Writes the layout of a type.
fn write_layout_at(
    alloc: Global,
    table: &mut Records,
    index: u32,
    rows: &mut [LayoutRow],
    count: &mut usize,
    names: &mut [u8],
    size: &mut usize,
) -> Fault
    ensures told { LaysOutOrLacks rows.old names.old (definitions_say (λ table. layout_of_type table index) table.old)
        (record { fault = result; rows = rows.new; count = count.new; names = names.new; size = size.new }) }
    ensures kept { table.new ≡ table.old }
{
    if let Err(error) = table.types.keep_definitions(alloc) {
        return write_nothing(Fault::of(&error), count, size);
    }
    match table.types.definitions(alloc) {
        Ok(definitions) => write_layout_of(alloc, &definitions, index, rows, count, names, size),
        Err(error) => write_nothing(Fault::of(&error), count, size),
    }
}

/// Copies the indexes of all definitions of a name, in increasing order.
#[unsafe(no_mangle)]
pub extern "C" fn pdb_types_named(
    alloc: Global,
    types: &mut Handle,
    name: &[u8],
    room: &mut [u32],
    length: &mut usize,
) -> u32
    ensures answer { CopiesOrLacks (record { fault = types.new.fault; length = length.new; room = room.new }) room.old
        (copied_of room.old (definitions_named name.now) (records_held types.old.held.content)) }
    ensures kept { Keeps types.old types.new result }
{
    *length = 0;
    ask!(types, alloc, Table(table) => copy_list(named_in(alloc, table, name), room, length))
}

/// Writes the index of the definition of a type.
#[unsafe(no_mangle)]
pub extern "C" fn pdb_type_definition(
    alloc: Global,
    types: &mut Handle,
    index: u32,
    definition: &mut u32,
) -> u32
    ensures answer { FindsOrLacks (record { fault = types.new.fault; value = definition.new }) definition.old
        (found_in definition.old (definitions_say (λ table. definition_of table index))
        (records_held types.old.held.content)) }
    ensures kept { Keeps types.old types.new result }
{
    ask!(types, alloc, Table(table) => tell_if_found(definition_at(alloc, table, index), definition))
}

/// Writes the size of a type in bytes.
#[unsafe(no_mangle)]
pub extern "C" fn pdb_type_size(
    alloc: Global,
    types: &mut Handle,
    index: u32,
    size: &mut u64,
) -> u32
    ensures answer { FindsOrLacks (record { fault = types.new.fault; value = size.new }) size.old
        (found_in size.old (definitions_say (λ table. size_of table index)) (records_held types.old.held.content)) }
    ensures kept { Keeps types.old types.new result }
{
    ask!(types, alloc, Table(table) => tell_if_found(size_at(alloc, table, index), size))
}

/// Copies the declaration of a name that has a type, as C++ spells it, or the text of the type
/// alone if the name is empty.
#[unsafe(no_mangle)]
pub extern "C" fn pdb_type_text(
    alloc: Global,
    types: &mut Handle,
    index: u32,
    name: &[u8],
    room: &mut [u8],
    length: &mut usize,
) -> u32
    ensures answer { WritesTextOf (records_held types.old.held.content) room.old
        (record { fault = types.new.fault; length = length.new; room = room.new }) }
    ensures kept { Keeps types.old types.new result }
{
    *length = 0;
    ask!(types, alloc, Table(table) => {
        copy_text_of(alloc, table, index, name, room, length)
    })
}

/// Writes the fields and gaps of the layout of a class or a union, each as a `LayoutRow`, and the
/// names of its members.
#[unsafe(no_mangle)]
pub extern "C" fn pdb_type_layout(
    alloc: Global,
    types: &mut Handle,
    index: u32,
    rows: &mut [LayoutRow],
    count: &mut usize,
    names: &mut [u8],
    size: &mut usize,
) -> u32
    ensures answer { LaysOutOf rows.old names.old index (records_held types.old.held.content) (record {
      fault = types.new.fault;
      rows = rows.new;
      count = count.new;
      names = names.new;
      size = size.new;
    }) }
    ensures kept { Keeps types.old types.new result }
{
    *count = 0;
    *size = 0;
    ask!(types, alloc, Table(table) => {
        write_layout_at(alloc, table, index, rows, count, names, size)
    })
}
