//! Names in string tables.

use crate::stream::stream_of;
use pdb_container::{StringRef, StringTable};
use std::alloc::Global;

/// Gets names. Returns `sum` plus 1 and the length of each.
#[inline(never)]
fn get(names: &StringTable, offsets: &[u32], mut sum: u64) -> u64 {
    for offset in offsets {
        if let Ok(name) = names.get(StringRef(*offset)) {
            sum = sum.wrapping_add(name.len() as u64).wrapping_add(1);
        }
    }
    sum
}

/// Gets the names at these offsets of the string table in a stream. Sums 1 and the length of each.
#[unsafe(no_mangle)]
pub extern "C" fn bench_names(alloc: Global, stream: &[u8], offsets: &[u32], turns: u32) -> u64 {
    let Some(stream) = stream_of(alloc, stream) else {
        return 0;
    };
    let Ok(names) = StringTable::parse(stream) else {
        return 0;
    };
    repeated!(turns, sum => get(&names, offsets, sum))
}
