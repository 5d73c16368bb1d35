//! The frames at an address.

ghost use Rattle.std.specs.Prelude.{◌≡◌, Ok};
ghost use Rattle.std.specs.List.{filter};
ghost use Rattle.pdb_container.specs.Answer.{Answers};
ghost use Rattle.pdb_container.specs.Merge.{by_heads};
ghost use Rattle.pdb_examples.specs.Uses.{frames_of_file, is_at};

use pdb_container::{FallibleIterator, FrameData, FrameTable, PDB, PdbInternalRva, Result};
use std::alloc::Global;

/// Whether the code of a frame is at an address.
fn is_at(frame: &FrameData, address: PdbInternalRva) -> bool
    ensures { result ≡ is_at address frame.now }
{
    frame.code_start <= address && address.0 - frame.code_start.0 < frame.code_size
}

/// Those frames of a table whose code is at an address.
fn those_at(alloc: Global, table: &FrameTable, address: PdbInternalRva) -> Result<Vec<FrameData>>
    ensures { Answers (λ found. found.items) result
        (Ok (filter (is_at address) (by_heads table.now.old table.now.new))) }
{
    let mut frames = table.iter();
    let mut found = Vec::new(alloc);
    // No step fails.
    while let Ok(Some(frame)) = frames.next() {
        if is_at(&frame, address) {
            found.push(frame)?;
        }
    }
    Ok(found)
}

/// The frames of the code at an address of the original image.
///
/// # Errors
/// Fails as `PDB::open` and `PDB::frame_table` do, and with `OutOfMemory` if an allocation fails.
pub fn frames_at(alloc: Global, bytes: Vec<u8>, address: PdbInternalRva) -> Result<Vec<FrameData>>
    ensures { Answers (λ found. found.items) result (frames_of_file bytes.items address) }
{
    let mut file = PDB::open(alloc, bytes)?;
    let table = file.frame_table(alloc)?;
    those_at(alloc, &table, address)
}
