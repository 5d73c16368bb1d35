//! Addresses where OMAP tables move them.

use crate::stream::stream_of;
use pdb_container::OMAPTable;
use std::alloc::Global;

/// How many addresses a range has.
const RANGE_SIZE: u32 = 256;

/// The OMAP table in a stream.
fn omap_in(alloc: Global, stream: &[u8]) -> Option<OMAPTable> {
    let stream = stream_of(alloc, stream)?;
    OMAPTable::parse(stream).ok()
}

/// Looks addresses up. Returns `sum` plus where each goes, and 1 for one that goes nowhere.
#[inline(never)]
fn look_up(table: &OMAPTable, addresses: &[u32], mut sum: u64) -> u64 {
    for address in addresses {
        let target = table.lookup(*address).unwrap_or(1);
        sum = sum.wrapping_add(target as u64);
    }
    sum
}

/// Looks these addresses up in the OMAP table in a stream. Sums where they go, and 1 for nowhere.
#[unsafe(no_mangle)]
pub extern "C" fn bench_omap(alloc: Global, stream: &[u8], addresses: &[u32], turns: u32) -> u64 {
    let Some(table) = omap_in(alloc, stream) else {
        return 0;
    };
    repeated!(turns, sum => look_up(&table, addresses, sum))
}

/// Moves a range that begins at an address. Returns `sum` plus 1 and the length for each range that
/// it becomes.
fn move_range(table: &OMAPTable, address: u32, mut sum: u64) -> u64 {
    for range in table.lookup_range(address..address.saturating_add(RANGE_SIZE)) {
        let length = range.end.wrapping_sub(range.start);
        sum = sum.wrapping_add(length as u64).wrapping_add(1);
    }
    sum
}

/// Moves ranges that begin at these addresses.
#[inline(never)]
fn move_ranges(table: &OMAPTable, addresses: &[u32], mut sum: u64) -> u64 {
    for address in addresses {
        sum = move_range(table, *address, sum);
    }
    sum
}

/// Moves the range of 256 addresses from each of these on, by the OMAP table in a stream. Sums 1
/// and the length for each range that they become.
#[unsafe(no_mangle)]
pub extern "C" fn bench_ranges(alloc: Global, stream: &[u8], addresses: &[u32], turns: u32) -> u64 {
    let Some(table) = omap_in(alloc, stream) else {
        return 0;
    };
    repeated!(turns, sum => move_ranges(&table, addresses, sum))
}
