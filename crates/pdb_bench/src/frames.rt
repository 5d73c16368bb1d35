//! Frames at addresses.

use crate::stream::stream_of;
use pdb_container::{FallibleIterator, FrameTable, PdbInternalRva};
use std::alloc::Global;

/// Where the code of the first frame from an address on starts, or 1 if there is none.
fn first_start(table: &FrameTable, address: u32) -> u32 {
    match table.iter_at_rva(PdbInternalRva(address)).next() {
        Ok(Some(frame)) => frame.code_start.0,
        _ => 1,
    }
}

/// Looks for the first frame from each address on. Returns `sum` plus where its code starts.
#[inline(never)]
fn find(table: &FrameTable, addresses: &[u32], mut sum: u64) -> u64 {
    for address in addresses {
        sum = sum.wrapping_add(first_start(table, *address) as u64);
    }
    sum
}

/// Looks for the first frame from each of these addresses on, in a stream of frames in the newer
/// format. Sums where their code starts, and 1 for no frame.
#[unsafe(no_mangle)]
pub extern "C" fn bench_frames(alloc: Global, stream: &[u8], addresses: &[u32], turns: u32) -> u64 {
    let Some(stream) = stream_of(alloc, stream) else {
        return 0;
    };
    let Ok(table) = FrameTable::parse(None, Some(stream)) else {
        return 0;
    };
    repeated!(turns, sum => find(&table, addresses, sum))
}
