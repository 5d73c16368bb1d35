//! Definitions of types: by a name or by an index, their sizes, and their texts.

ghost use Rattle.std.specs.Prelude.{◌≡◌, Ok, Option};
ghost use Rattle.std.specs.Option.{option_map};
ghost use Rattle.pdb_base.specs.Answer.{Answer, Answers};
ghost use Rattle.pdb_types.specs.{Declaration.source_name, Definition.all_definitions, Definition.definition_of};
ghost use Rattle.pdb_types.specs.Text.{FailsAsTable};
ghost use Rattle.pdb_tpi.specs.Table.{Table};
ghost use Rattle.pdb_handles.specs.Definitions.{FindsOrLacks, WritesText, found_told};

use crate::copied::{copy_nothing, copy_text};
use crate::fault::{Fault, NONE};
use crate::found::tell_found;
use crate::records::numbers_in;
use pdb_base::{Result, TypeIndex};
use pdb_types::Definitions;
use std::alloc::Global;

/// Returns the indexes of all definitions of a name, in increasing order.
///
/// # Errors
/// Fails only with `OutOfMemory`, if an allocation fails.
pub fn definitions_named(
    alloc: Global,
    definitions: &Definitions<'_>,
    name: &[u8],
) -> Result<Vec<u32>>
    ensures { Answers (λ indexes. indexes.items) result
        (Ok (all_definitions definitions.now (source_name name.now))) }
{
    let found = definitions.all_definitions(alloc, name)?;
    numbers_in(alloc, &found)
}

/// Returns the index of the definition of a type, if it has one.
///
/// # Errors
/// Fails as `Definitions::definition_of` does.
pub fn definition_number(
    alloc: Global,
    definitions: &Definitions<'_>,
    index: u32,
) -> Result<Option<u32>>
    ensures { Answers (λ index. index) result (definition_of definitions.now index) }
{
    let found = definitions.definition_of(alloc, TypeIndex(index))?;
    Ok(found.map(|index| index.0))
}

/// Writes a value that was found, or returns a fault of status `NONE` if there is none, or the
/// fault of the error.
pub fn tell_if_found<T: Copy>(answer: Result<Option<T>>, value: &mut T) -> Fault
    ensures { (meant : Answer (Option T)) → Answers (λ found. found) answer meant
        → FindsOrLacks (record { fault = result; value = value.new }) value.old (found_told value.old meant) }
{
    match answer {
        Ok(found) => tell_found(found, Fault::status(NONE), value),
        Err(error) => Fault::of(&error),
    }
}

/// Copies a text that was made of a type in a table, or returns the fault of the error.
fn copy_made(made: Result<Vec<u8>>, room: &mut [u8], length: &mut usize) -> Fault
    ensures { (table : Table) → FailsAsTable table made
        → WritesText table room.old (record { fault = result; length = length.new; room = room.new }) }
{
    match made {
        Ok(text) => copy_text(&text, room, length),
        Err(error) => copy_nothing(Fault::of(&error), length),
    }
}

/// Copies the declaration of a name that has a type to the caller's array, as C++ spells it, or
/// returns the fault of the error.
pub fn copy_declaration(
    alloc: Global,
    definitions: &Definitions<'_>,
    index: u32,
    name: &[u8],
    room: &mut [u8],
    length: &mut usize,
) -> Fault
    ensures { WritesText definitions.now room.old
        (record { fault = result; length = length.new; room = room.new }) }
{
    let made = definitions.text_of(alloc, TypeIndex(index), name);
    copy_made(made, room, length)
}
