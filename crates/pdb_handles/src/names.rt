//! String tables.

ghost use Rattle.std.specs.Prelude.{◌≡◌, map};
ghost use Rattle.pdb_base.specs.Answer.{Gives};
ghost use Rattle.pdb_space.specs.StringTable.{name_of};
ghost use Rattle.pdb_handles.specs.Copied.{items_copied, text_answered};
ghost use Rattle.pdb_handles.specs.Names.{name_place, place_or_zeros};

use crate::copied::{copy_nothing, copy_text};
use crate::fault::{FINE, Fault, TOO_SMALL};
use pdb_base::Result;
use pdb_space::{StringRef, StringTable};

/// The number of bytes of a stream before the names.
const NAMES_START: usize = 12;

/// Where a name is in the stream of its string table.
#[repr(C)]
#[derive(Clone, Copy)]
pub struct NamePlace {
    /// The number of bytes of the stream before the name.
    pub offset: usize,
    /// The number of bytes of the name, without its NUL.
    pub length: usize,
}

/// Copies the name at an offset of a table to the caller's array, or returns the fault of the error.
pub fn copy_name_at(names: &StringTable, offset: u32, room: &mut [u8], length: &mut usize) -> Fault
    ensures { record { fault = result; length = length.new; room = room.new }
        ≡ text_answered room.old (name_of names.now offset) }
{
    match names.get(StringRef(offset)) {
        Ok(name) => copy_text(name.as_bytes(), room, length),
        Err(error) => copy_nothing(Fault::of(&error), length),
    }
}

/// Returns where the name at an offset of a table is in the stream of the table.
///
/// # Errors
/// Fails as `StringTable::get` does.
#[inline(always)]
pub fn place_in(names: &StringTable, offset: u32) -> Result<NamePlace>
    ensures { Gives (λ place. place) result (name_place names.now offset) }
{
    let name = names.get(StringRef(offset))?;
    Ok(NamePlace {
        offset: NAMES_START + offset as usize,
        length: name.as_bytes().len(),
    })
}

/// Writes where the name at each of some offsets of a table is to the start of the caller's array,
/// or zeros where there is no name, and sets `length` to their number. If the array has no room for
/// all of them, none is written.
pub fn find_names(
    names: &StringTable,
    offsets: &[u32],
    room: &mut [NamePlace],
    length: &mut usize,
) -> Fault
    ensures { record { fault = result; length = length.new; room = room.new }
        ≡ items_copied room.old (map (λ offset. place_or_zeros (name_place names.now offset)) offsets.now) }
{
    *length = offsets.len();
    if room.len() < offsets.len() {
        return Fault::status(TOO_SMALL);
    }
    for at in 0..offsets.len() {
        room[at] = match place_in(names, offsets[at]) {
            Ok(place) => place,
            Err(_) => NamePlace {
                offset: 0,
                length: 0,
            },
        };
    }
    Fault::status(FINE)
}
