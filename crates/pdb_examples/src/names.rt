//! A name of the string table.

ghost use Rattle.pdb_container.specs.Answer.{Answers};
ghost use Rattle.pdb_examples.specs.Uses.{name_at_offset};

use pdb_container::{PDB, Result, StringRef};
use std::alloc::Global;

/// The bytes of the name at an offset of a file's string table.
///
/// # Errors
/// Fails as `PDB::open` and `PDB::string_table` do, and with `UnexpectedEof` if no name ends at the
/// offset or after it. Fails with `OutOfMemory` if an allocation fails.
pub fn name_at(alloc: Global, bytes: Vec<u8>, offset: StringRef) -> Result<Vec<u8>>
    ensures { Answers (λ name. name.items) result (name_at_offset bytes.items offset) }
{
    let mut file = PDB::open(alloc, bytes)?;
    let names = file.string_table(alloc)?;
    let name = names.get(offset)?;
    Ok(Vec::from_slice(alloc, name.as_bytes())?)
}
