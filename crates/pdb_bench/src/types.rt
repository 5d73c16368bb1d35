//! Tables of types, from their first record to the last.

use crate::records::{field_count, name_size};
use crate::stream::stream_of;
use pdb_container::{FallibleIterator, TypeInformation};
use std::alloc::Global;

/// The table of types in a stream.
pub fn types_in(alloc: Global, stream: &[u8]) -> Option<TypeInformation> {
    let stream = stream_of(alloc, stream)?;
    TypeInformation::parse(stream).ok()
}

/// Walks along a table. Returns `sum` plus the size of each record.
#[inline(never)]
fn walk(table: &TypeInformation, mut sum: u64) -> u64 {
    let mut items = table.iter();
    for _ in 0..u32::MAX {
        let Ok(Some(item)) = items.next() else {
            break;
        };
        sum = sum.wrapping_add(item.len() as u64);
    }
    sum
}

/// Walks along the table of types in a stream. Sums the sizes of the records.
#[unsafe(no_mangle)]
pub extern "C" fn bench_walk(alloc: Global, stream: &[u8], turns: u32) -> u64 {
    let Some(table) = types_in(alloc, stream) else {
        return 0;
    };
    repeated!(turns, sum => walk(&table, sum))
}

/// Walks along a table and parses each record. Returns `sum` plus what each says.
#[inline(never)]
fn parse(alloc: Global, table: &TypeInformation, mut sum: u64) -> u64 {
    let mut items = table.iter();
    for _ in 0..u32::MAX {
        let Ok(Some(item)) = items.next() else {
            break;
        };
        if let Ok(data) = item.parse(alloc) {
            sum = sum
                .wrapping_add(name_size(&data))
                .wrapping_add(field_count(&data));
        }
    }
    sum
}

/// Walks along the table of types in a stream and parses each record. Sums for each record that is
/// read 1, the length of its name and the number of its fields.
#[unsafe(no_mangle)]
pub extern "C" fn bench_parse(alloc: Global, stream: &[u8], turns: u32) -> u64 {
    let Some(table) = types_in(alloc, stream) else {
        return 0;
    };
    repeated!(turns, sum => parse(alloc, &table, sum))
}

/// Walks along a table and parses each record. Returns `sum` plus 1 for each that is read.
#[inline(never)]
fn parse_alone(alloc: Global, table: &TypeInformation, mut sum: u64) -> u64 {
    let mut items = table.iter();
    for _ in 0..u32::MAX {
        let Ok(Some(item)) = items.next() else {
            break;
        };
        if item.parse(alloc).is_ok() {
            sum = sum.wrapping_add(1);
        }
    }
    sum
}

/// Walks along the table of types in a stream and parses each record. Sums 1 for each record that
/// is read.
#[unsafe(no_mangle)]
pub extern "C" fn bench_rows(alloc: Global, stream: &[u8], turns: u32) -> u64 {
    let Some(table) = types_in(alloc, stream) else {
        return 0;
    };
    repeated!(turns, sum => parse_alone(alloc, &table, sum))
}
