//! String tables.

ghost use Rattle.std.specs.Prelude.{◌≡◌, map, Ok};
ghost use Rattle.pdb_space.specs.StringTable.{name_of};
ghost use Rattle.pdb_handles.specs.{Copied.copied_of, Copied.text_asked, File.names_said, Handle.OpensFrom};
ghost use Rattle.pdb_handles.specs.{Handle.file_held, Handle.names_held, Names.name_place, Names.place_or_zeros};
ghost use Rattle.pdb_handles.specs.Kept.{HoldsFile, Keeps};

use pdb_handles::Handle;
use pdb_handles::file::{OpenFile, names_in};
use pdb_handles::names::{NamePlace, copy_name_at, find_names};
use std::alloc::Global;

/// Opens the string table of a file.
#[unsafe(no_mangle)]
pub extern "C" fn pdb_names_open(alloc: Global, file: &mut OpenFile<'_>, names: &mut Handle) -> u32
    ensures opens { OpensFrom (file_held file.old.handle.held.content) (λ layout. names_said file.old.bytes.now)
        names.old.held.content names.new.fault names.new.held.content }
    ensures kept { HoldsFile file.old file.new }
    ensures status { result ≡ names.new.fault.status }
{
    let bytes = file.bytes;
    open_from!(file, names, alloc, _ => names_in(alloc, bytes))
}

/// Copies the name at an offset.
#[unsafe(no_mangle)]
pub extern "C" fn pdb_names_get(
    alloc: Global,
    names: &mut Handle,
    offset: u32,
    room: &mut [u8],
    length: &mut usize,
) -> u32
    ensures answer { record { fault = names.new.fault; length = length.new; room = room.new }
        ≡ text_asked room.old (λ names. name_of names offset) (names_held names.old.held.content) }
    ensures kept { Keeps names.old names.new result }
{
    *length = 0;
    ask!(names, alloc, Names(table) => copy_name_at(table, offset, room, length))
}

/// Writes where the name at each of some offsets is in the stream of the table, and its length
/// without its NUL, or zeros where there is no name.
#[unsafe(no_mangle)]
pub extern "C" fn pdb_names_places(
    alloc: Global,
    names: &mut Handle,
    offsets: &[u32],
    room: &mut [NamePlace],
    length: &mut usize,
) -> u32
    ensures answer { record { fault = names.new.fault; length = length.new; room = room.new } ≡ copied_of room.old
        (λ names. Ok (map (λ offset. place_or_zeros (name_place names offset)) offsets.now))
        (names_held names.old.held.content) }
    ensures kept { Keeps names.old names.new result }
{
    *length = 0;
    ask!(names, alloc, Names(table) => find_names(table, offsets, room, length))
}
