//! Faults, the version, and the end of a handle.

ghost use Rattle.std.specs.Prelude.{◌≡◌, None};
ghost use Rattle.pdb_handles.specs.{Copied.CopiesOrLacks, Told.fault_text, Told.text_or_none};

use pdb_handles::told::copy_fault_text;
use pdb_handles::{Fault, Handle};
use std::alloc::Global;

/// Copies the text of a fault into the caller's array.
#[unsafe(no_mangle)]
pub extern "C" fn pdb_fault_text(
    alloc: Global,
    about: &Fault,
    room: &mut [u8],
    length: &mut usize,
) -> u32
    ensures { (told : Fault) × (result ≡ told.status) ×
        CopiesOrLacks (record { fault = told; length = length.new; room = room.new }) room.old
        (text_or_none room.old (fault_text about.now)) }
{
    copy_fault_text(alloc, about, room, length).status
}

/// Returns the version of the library: 10,000 times the major number, plus 100 times the minor one,
/// plus the patch.
#[unsafe(no_mangle)]
pub extern "C" fn pdb_version() -> u32
    ensures { result ≡ 200 }
{
    200
}

/// Closes a handle and frees what it holds, if it holds anything.
#[unsafe(no_mangle)]
pub extern "C" fn pdb_handle_close(alloc: Global, handle: &mut Handle)
    ensures { handle.new.held.content ≡ None }
{
    let _content = handle.take(alloc);
}
