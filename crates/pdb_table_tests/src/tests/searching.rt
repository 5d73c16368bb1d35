//! Searches by halving, each compared with a search that looks at all records in their order, over
//! all small tables.

use pdb_base::{Count, FallibleIterator, Stream};
use pdb_fixtures::stream_of;
use pdb_frames::{FrameDataIter, FrameTable};
use pdb_space::{OMAPTable, PdbInternalRva};
use std::alloc::Global;
use std::ops::Range;
use std::test::Fail;

/// The stream of pairs of numbers, each followed by the same bytes.
pub(super) fn pairs_of(
    alloc: Global,
    pairs: &[(u32, u32)],
    others: &[u8],
) -> pdb_base::Result<Stream> {
    let mut bytes = Vec::new(alloc);
    for (first, second) in pairs {
        bytes.extend_from_slice(&first.to_le_bytes())?;
        bytes.extend_from_slice(&second.to_le_bytes())?;
        bytes.extend_from_slice(others)?;
    }
    stream_of(bytes)
}

/// The OMAP table of these records, each a source and a target.
pub(super) fn omap(alloc: Global, records: &[(u32, u32)]) -> Result<OMAPTable, Fail> {
    Ok(OMAPTable::parse(pairs_of(alloc, records, &[])?)?)
}

/// What a table answers of an address, and how many sources are compared.
fn count_compared(table: &OMAPTable, address: u32) -> (Option<u32>, u64) {
    let mut count = Count::new();
    let moved = table.lookup_counted(address, &mut count);
    (moved, count.get())
}

/// The numbers of which small tables are made.
const NUMBERS: [u32; 4] = [0, 1, 2, 0xffff_ffff];

/// The addresses that are looked up in small tables.
const ADDRESSES: [u32; 6] = [0, 1, 2, 3, 0xffff_fffe, 0xffff_ffff];

/// A table of so many records, each the pair of numbers that a digit of the code, to the base 16,
/// encodes.
fn table_by_code(alloc: Global, len: usize, code: usize) -> Result<Vec<(u32, u32)>, Fail> {
    let mut records = Vec::new(alloc);
    let mut left = code;
    for _ in 0..len {
        records.push((NUMBERS[left / 4 % 4], NUMBERS[left % 4]))?;
        left /= 16;
    }
    Ok(records)
}

/// Whether no source is below the one before it.
fn is_sorted(records: &[(u32, u32)]) -> bool {
    let mut highest = 0;
    for (source, _) in records {
        if *source < highest {
            return false;
        }
        highest = *source;
    }
    true
}

/// Where records move an address, by a look at each of them in their order.
fn plain_lookup(records: &[(u32, u32)], address: u32) -> Option<u32> {
    let mut moved = None;
    for (source, target) in records {
        if *source <= address {
            moved = if *target == 0 {
                None
            } else {
                target.checked_add(address - source)
            };
        }
    }
    moved
}

/// Where a record moves its part of a range, which ends where the next record begins.
fn plain_part(source: u32, target: u32, next: u32, asked: &Range<u32>) -> Option<Range<u32>> {
    let low = asked.start.max(source);
    let high = asked.end.min(next);
    if target == 0 || high <= low {
        return None;
    }
    let start = target.checked_add(low - source)?;
    let end = target.saturating_add(high - source);
    if start < end { Some(start..end) } else { None }
}

/// Where records move a range, by a look at each of them in their order.
fn plain_ranges(
    alloc: Global,
    records: &[(u32, u32)],
    asked: &Range<u32>,
) -> Result<Vec<Range<u32>>, Fail> {
    let mut ranges = Vec::new(alloc);
    for (place, (source, target)) in records.iter().enumerate() {
        let next = match records.get(place + 1) {
            Some((next, _)) => *next,
            None => asked.end,
        };
        if let Some(part) = plain_part(*source, *target, next, asked) {
            ranges.push(part)?;
        }
    }
    Ok(ranges)
}

/// Whether a table answers an address as a search that looks at all records in their order, by at
/// most three comparisons.
fn is_found_alike(table: &OMAPTable, records: &[(u32, u32)], address: u32) -> bool {
    let want = plain_lookup(records, address);
    let (moved, compared) = count_compared(table, address);
    table.lookup(address) == want && moved == want && compared <= 3
}

/// Whether a table answers a range as a search that looks at all records in their order.
fn is_range_alike(
    alloc: Global,
    table: &OMAPTable,
    records: &[(u32, u32)],
    asked: Range<u32>,
) -> Result<bool, Fail> {
    let want = plain_ranges(alloc, records, &asked)?;
    let answered: Vec<Range<u32>> = table.lookup_range(asked).collect(alloc)?;
    Ok(answered.as_slice() == want.as_slice())
}

/// Whether a table answers so for each address, and for each range between two.
fn answers_alike(alloc: Global, records: &[(u32, u32)]) -> Result<bool, Fail> {
    let table = omap(alloc, records)?;
    for start in ADDRESSES {
        if !is_found_alike(&table, records, start) {
            return Ok(false);
        }
        for end in ADDRESSES {
            if !is_range_alike(alloc, &table, records, start..end)? {
                return Ok(false);
            }
        }
    }
    Ok(true)
}

#[test]
fn small_tables(rt: HostRuntime) -> Result<(), Fail> {
    for (len, codes) in [(0, 1), (1, 16), (2, 0x100), (3, 0x1000), (4, 0x1_0000)] {
        for code in 0..codes {
            let records = table_by_code(rt.alloc(), len, code)?;
            if is_sorted(&records) {
                let is_well = answers_alike(rt.alloc(), &records)?;
                assert!(rt; is_well, "{len} records, {code}");
            }
        }
    }
    Ok(())
}

/// Frames whose starts increase: to each of the four numbers, a digit of the code, to the base 5,
/// says that no frame starts there, or the size of the one that does.
fn increasing(alloc: Global, code: usize) -> Result<Vec<(u32, u32)>, Fail> {
    let mut frames = Vec::new(alloc);
    let mut left = code;
    for start in NUMBERS {
        if left % 5 > 0 {
            frames.push((start, NUMBERS[left % 5 - 1]))?;
        }
        left /= 5;
    }
    Ok(frames)
}

/// The frames from an address on, by a look at each of them in their order.
fn plain_frames(frames: &[(u32, u32)], address: u32) -> &[(u32, u32)] {
    let mut from = 0;
    for (place, (start, size)) in frames.iter().enumerate() {
        if *start <= address {
            let begins = *start == address || address - *start < *size;
            from = if begins { place } else { place + 1 };
        }
    }
    &frames[from.min(frames.len())..]
}

/// The start and size of the next frame.
fn step(frames: &mut FrameDataIter<'_>) -> pdb_base::Result<Option<(u32, u32)>> {
    match frames.next() {
        Ok(Some(frame)) => Ok(Some((frame.code_start.0, frame.code_size))),
        Ok(None) => Ok(None),
        Err(error) => Err(error),
    }
}

/// Whether a table gives just these frames from an address on, each by its start and size.
fn gives(table: &FrameTable, address: u32, want: &[(u32, u32)]) -> Result<bool, Fail> {
    let mut frames = table.iter_at_rva(PdbInternalRva(address));
    for frame in want {
        if step(&mut frames)? != Some(*frame) {
            return Ok(false);
        }
    }
    Ok(step(&mut frames)?.is_none())
}

/// Whether the table of these streams gives these frames from each address on.
fn gives_alike(
    old: Option<Stream>,
    new: Option<Stream>,
    frames: &[(u32, u32)],
) -> Result<bool, Fail> {
    let table = FrameTable::parse(old, new)?;
    for address in ADDRESSES {
        if !gives(&table, address, plain_frames(frames, address))? {
            return Ok(false);
        }
    }
    Ok(true)
}

/// Whether frames are given alike from either format.
fn frames_alike(alloc: Global, frames: &[(u32, u32)]) -> Result<bool, Fail> {
    let old = pairs_of(alloc, frames, &[0; 8])?;
    let new = pairs_of(alloc, frames, &[0; 24])?;
    Ok(gives_alike(Some(old), None, frames)? && gives_alike(None, Some(new), frames)?)
}

#[test]
fn small_frame_tables(rt: HostRuntime) -> Result<(), Fail> {
    for code in 0..625 {
        let frames = increasing(rt.alloc(), code)?;
        assert!(rt; frames_alike(rt.alloc(), &frames)?, "{code}");
    }
    Ok(())
}
