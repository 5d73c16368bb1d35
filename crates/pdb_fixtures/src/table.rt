//! Tables of types or ids, for tests that look up their items.

ghost use Rattle.std.specs.Prelude.{◌≡◌, IfOk};
ghost use Rattle.pdb_base.specs.Memory.{FailsOnlyForMemory};
ghost use Rattle.pdb_fixtures.specs.Tables.{table_bytes};

use pdb_base::Result;
use std::alloc::Global;

/// The size of the header of a table in bytes.
const HEADER_SIZE: usize = 56;

/// Returns the bytes of a table: a header of 56 bytes, of which all but these three fields are 0,
/// and then the items.
///
/// # Errors
/// Returns `OutOfMemory` if an allocation fails.
#[tactic(auto, unfolding(crate::specs::Tables::table_bytes))]
pub fn item_table(
    alloc: Global,
    header_size: u32,
    minimum: u32,
    maximum: u32,
    items: &[u8],
) -> Result<Vec<u8>>
    ensures bytes { IfOk result (λ table. table.items ≡ table_bytes header_size minimum maximum items.now) }
    ensures memory { FailsOnlyForMemory result }
{
    let mut bytes = Vec::from_slice(alloc, &[0; 4])?;
    bytes.extend_from_slice(&header_size.to_le_bytes())?;
    bytes.extend_from_slice(&minimum.to_le_bytes())?;
    bytes.extend_from_slice(&maximum.to_le_bytes())?;
    bytes.resize(HEADER_SIZE, 0)?;
    bytes.extend_from_slice(items)?;
    Ok(bytes)
}

/// Returns the bytes of a table of these records, each behind its length, from index 0x1000 on.
///
/// # Errors
/// Returns `OutOfMemory` if an allocation fails.
pub fn table_of(alloc: Global, records: &[&[u8]]) -> Result<Vec<u8>>
    ensures memory { FailsOnlyForMemory result }
{
    let mut items = Vec::new(alloc);
    for record in records {
        items.extend_from_slice(&(record.len().min(0xffff) as u16).to_le_bytes())?;
        items.extend_from_slice(record)?;
    }
    let count = records.len().min(0xffff) as u32;
    item_table(alloc, HEADER_SIZE as u32, 0x1000, 0x1000 + count, &items)
}

/// Returns so many items of two bytes, of the kinds 0x1000, 0x1001 and so on, each behind its
/// length. The length of the one at `short`, counted from 0, is 1 in place of 2.
///
/// # Errors
/// Returns `OutOfMemory` if an allocation fails.
pub fn items_of(alloc: Global, count: u8, short: Option<u8>) -> Result<Vec<u8>>
    ensures memory { FailsOnlyForMemory result }
{
    let mut items = Vec::new(alloc);
    for place in 0..count {
        let length = if short == Some(place) { 1 } else { 2 };
        items.extend_from_slice(&[length, 0, place, 0x10])?;
    }
    Ok(items)
}
