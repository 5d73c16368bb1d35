//! Whole files.

use pdb_container::{Msf, open_msf};
use std::alloc::Global;

/// Opens a file and reads each of its first streams. Returns `sum` plus the size of each.
#[inline(never)]
fn read_streams(alloc: Global, file: &[u8], streams: u32, mut sum: u64) -> u64 {
    let Ok(mut file) = open_msf(alloc, file) else {
        return sum;
    };
    for number in 0..streams {
        if let Ok(stream) = file.get(alloc, number, None) {
            sum = sum.wrapping_add(stream.as_slice().len() as u64);
        }
    }
    sum
}

/// Opens a file and reads the given number of its first streams. Sums their sizes.
#[unsafe(no_mangle)]
pub extern "C" fn bench_read_streams(alloc: Global, file: &[u8], streams: u32, turns: u32) -> u64 {
    repeated!(turns, sum => read_streams(alloc, file, streams, sum))
}
