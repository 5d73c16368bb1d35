//! Types by their indexes.

use crate::records::name_size;
use crate::types::types_in;
use pdb_container::{FallibleIterator, Result, TypeData, TypeFinder, TypeIndex, TypeInformation};
use std::alloc::Global;

/// A finder that knows a whole table.
#[inline(never)]
fn build(alloc: Global, table: &TypeInformation) -> Option<TypeFinder<'_>> {
    let mut finder = table.finder(alloc).ok()?;
    let mut items = table.iter();
    for _ in 0..u32::MAX {
        let Ok(Some(_)) = items.next() else {
            break;
        };
        finder.update(&items);
    }
    Some(finder)
}

/// Builds a finder of the table of types in a stream. Sums the greatest index that it knows.
#[unsafe(no_mangle)]
pub extern "C" fn bench_build(alloc: Global, stream: &[u8], turns: u32) -> u64 {
    let Some(table) = types_in(alloc, stream) else {
        return 0;
    };
    let mut sum = 0u64;
    for _ in 0..turns {
        if let Some(finder) = build(alloc, &table) {
            let greatest: u32 = finder.max_index().into();
            sum = sum.wrapping_add(greatest as u64);
        }
    }
    sum
}

/// Finds types by their indexes. Returns `sum` plus the size of each record.
#[inline(never)]
fn find(finder: &TypeFinder<'_>, indexes: &[u32], mut sum: u64) -> u64 {
    for index in indexes {
        if let Ok(item) = finder.find(TypeIndex(*index)) {
            sum = sum.wrapping_add(item.len() as u64);
        }
    }
    sum
}

/// Finds the types of these indexes in the table in a stream, by a finder. Sums the sizes of the
/// records.
#[unsafe(no_mangle)]
pub extern "C" fn bench_find(alloc: Global, stream: &[u8], indexes: &[u32], turns: u32) -> u64 {
    let Some(table) = types_in(alloc, stream) else {
        return 0;
    };
    let Some(finder) = build(alloc, &table) else {
        return 0;
    };
    repeated!(turns, sum => find(&finder, indexes, sum))
}

/// The record of an index.
fn parse_at<'t>(alloc: Global, finder: &TypeFinder<'t>, index: TypeIndex) -> Result<TypeData<'t>> {
    finder.find(index)?.parse(alloc)
}

/// Finds types by their indexes and parses their records. Returns `sum` plus 1 and the length of
/// the name of each.
#[inline(never)]
fn find_and_parse(alloc: Global, finder: &TypeFinder<'_>, indexes: &[u32], mut sum: u64) -> u64 {
    for index in indexes {
        if let Ok(data) = parse_at(alloc, finder, TypeIndex(*index)) {
            sum = sum.wrapping_add(name_size(&data));
        }
    }
    sum
}

/// Builds a finder of the table in a stream, finds the types of these indexes by it and parses
/// their records. Sums 1 and the length of the name of each.
#[unsafe(no_mangle)]
pub extern "C" fn bench_build_and_find(
    alloc: Global,
    stream: &[u8],
    indexes: &[u32],
    turns: u32,
) -> u64 {
    let Some(table) = types_in(alloc, stream) else {
        return 0;
    };
    let mut sum = 0;
    for _ in 0..turns {
        if let Some(finder) = build(alloc, &table) {
            sum = find_and_parse(alloc, &finder, indexes, sum);
        }
    }
    sum
}
