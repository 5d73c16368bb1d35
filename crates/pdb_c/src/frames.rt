//! Frames of a program.

ghost use Rattle.std.specs.Prelude.{◌≡◌, IfSome, map, Ok};
ghost use Rattle.pdb_frames.specs.{Merge.by_heads, Merge.merge, Table.StartsIncrease};
ghost use Rattle.pdb_handles.specs.Copied.{CopiesOrLacks, copied_of, items_copied};
ghost use Rattle.pdb_handles.specs.{File.frames_said, Found.AsksContent, Found.not_held, Frame.TellsFirst};
ghost use Rattle.pdb_handles.specs.{Frame.frame_of, Handle.OpensFrom, Handle.file_held, Handle.frames_held};
ghost use Rattle.pdb_handles.specs.Kept.{HoldsFile, Keeps};

use pdb_handles::copied::copy_list;
use pdb_handles::file::{OpenFile, frames_in};
use pdb_handles::frames::{all_frames, tell_first};
use pdb_handles::{Frame, Handle};
use std::alloc::Global;

/// Opens the frame table of a file.
#[unsafe(no_mangle)]
pub extern "C" fn pdb_frames_open(
    alloc: Global,
    file: &mut OpenFile<'_>,
    frames: &mut Handle,
) -> u32
    ensures opens { OpensFrom (file_held file.old.handle.held.content) (λ layout. frames_said file.old.bytes.now)
        frames.old.held.content frames.new.fault frames.new.held.content }
    ensures kept { HoldsFile file.old file.new }
    ensures status { result ≡ frames.new.fault.status }
{
    let bytes = file.bytes;
    open_from!(file, frames, alloc, _ => frames_in(alloc, bytes))
}

/// Writes the frame at an address of the original image: the first that `FrameTable::iter_at_rva`
/// yields.
#[unsafe(no_mangle)]
pub extern "C" fn pdb_frames_at(
    alloc: Global,
    frames: &mut Handle,
    address: u32,
    frame: &mut Frame,
) -> u32
    ensures answer { AsksContent (λ table. TellsFirst table address frame.old) (not_held frame.old)
        (frames_held frames.old.held.content) (record { fault = frames.new.fault; value = frame.new }) }
    ensures kept { Keeps frames.old frames.new result }
{
    ask!(frames, alloc, Frames(table) => tell_first(table, address, frame))
}

/// Copies all frames of a table, in the order of `FrameTable::iter`, into the caller's array.
#[unsafe(no_mangle)]
pub extern "C" fn pdb_frames_list(
    alloc: Global,
    frames: &mut Handle,
    room: &mut [Frame],
    length: &mut usize,
) -> u32
    ensures merged { IfSome (frames_held frames.old.held.content) (λ table. StartsIncrease table
        → CopiesOrLacks (record { fault = frames.new.fault; length = length.new; room = room.new }) room.old
        (items_copied room.old (map frame_of (merge table.old table.new)))) }
    ensures heads { CopiesOrLacks (record { fault = frames.new.fault; length = length.new; room = room.new }) room.old
        (copied_of room.old (λ table. Ok (map frame_of (by_heads table.old table.new)))
        (frames_held frames.old.held.content)) }
    ensures kept { Keeps frames.old frames.new result }
{
    *length = 0;
    ask!(frames, alloc, Frames(table) => copy_list(all_frames(alloc, table), room, length))
}
