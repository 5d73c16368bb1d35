//! The hash stream of a table.

ghost use Rattle.std.specs.Prelude.{◌≡◌, ◌≤◌, ◌<◌, ◌+◌, ◌*◌, ◌^◌, length, Ok};
ghost use Rattle.pdb_base.specs.Answer.{Answers};
ghost use Rattle.pdb_tpi.specs.OpenTable.{place_of_record};
ghost use Rattle.pdb_validation.specs.Hashes.{count_mismatch_of, in_hashes, is_record_at, offset_mismatch, part_in};
ghost use Rattle.pdb_validation.specs.Hashes.{hashes_mismatches, offsets_mismatches, part_start, value_mismatch};
ghost use Rattle.pdb_validation.specs.Hashes.{values_mismatches};
ghost use Rattle.pdb_validation.specs.Mismatch.{asked_of, with_further};

use crate::inconsistency::Inconsistency;
use crate::mismatch::{Extent, Mismatch, add};
use crate::words::{part_at, word_at};
use pdb_base::{ItemIndex, Result};
use pdb_tpi::{Header, OpenTable, Slice};
use std::alloc::Global;

/// Returns where a part of the hash stream begins: at 0 if its offset is negative.
fn part_start(part: Slice) -> u32
    ensures { result ≡ part_start part.offset }
{
    match u32::try_from(part.offset) {
        Ok(start) => start,
        Err(_) => 0,
    }
}

/// Returns the bytes of a part of the hash stream, as many of them as there are. A part whose
/// offset is negative has none.
fn part_in(hashes: &[u8], part: Slice) -> &[u8]
    ensures { result.now ≡ part_in part.offset part.size hashes.now }
{
    match usize::try_from(part.offset) {
        Ok(start) => part_at(hashes, start, part.size),
        Err(_) => &hashes[..0],
    }
}

/// Returns what is inconsistent in the hash stream of a number, at a record and at a byte.
fn in_hashes(number: u32, index: u64, byte: u64, what: Inconsistency) -> Mismatch
    ensures { result ≡ in_hashes number index byte what }
{
    Mismatch {
        stream: Some(number),
        index: Some(index),
        byte: Some(byte),
        what,
    }
}

/// Returns the mismatch of the number of hash values, if there is not one for each index.
fn count_mismatch(number: u32, count: usize, size: usize) -> Option<Mismatch>
    requires few { count ≤ 2 ^ 32 }
    requires short { size < 2 ^ 32 }
    ensures { result ≡ count_mismatch_of number count size }
{
    let differs = size != 4 * count;
    differs.then_some(Mismatch {
        stream: Some(number),
        index: None,
        byte: None,
        what: Inconsistency::HashCount((size / 4) as u32),
    })
}

/// Returns the mismatch of the hash value at a place, if it is not below the number of buckets.
fn value_mismatch(number: u32, header: &Header, values: &[u8], place: u32) -> Option<Mismatch>
    requires { 4 * place + 4 ≤ length values.now }
    ensures { result ≡ value_mismatch number header.now values.now place }
{
    let value = word_at(4 * place as usize, values);
    let is_too_large = value >= header.hash_bucket_size;
    let index = header.minimum_index as u64 + place as u64;
    let byte = part_start(header.hash_values) as u64 + 4 * place as u64;
    is_too_large.then_some(in_hashes(number, index, byte, Inconsistency::HashTooLarge(value)))
}

/// Adds the mismatches of the hash values.
#[tactic(auto, unfolding(crate::specs::Hashes::values_mismatches))]
fn add_values<I: ItemIndex>(
    number: u32,
    table: &OpenTable<I>,
    values: &[u8],
    extent: Extent,
    mismatches: &mut Vec<Mismatch>,
) -> Result<()>
    requires { length values.now < 2 ^ 32 }
    ensures { Answers (λ done. mismatches.new.items) result
        (Ok (with_further extent mismatches.old.items (values_mismatches number table.now.table values.now))) }
{
    let header = table.items().header();
    add(
        mismatches,
        extent,
        count_mismatch(number, table.items().len(), values.len()),
    )?;
    for place in 0..(values.len() / 4) as u32 {
        add(
            mismatches,
            extent,
            value_mismatch(number, &header, values, place),
        )?;
    }
    Ok(())
}

/// Returns whether the record of an index begins at an offset behind the header of its table.
fn is_record_at<I: ItemIndex>(table: &OpenTable<I>, index: u32, offset: u32) -> bool
    ensures { result ≡ is_record_at table.now.table.header.header_size offset (place_of_record table.now.table index) }
{
    let header_size = table.items().header().header_size;
    match table.find(I::from(index)) {
        Ok(Some(place)) => place.offset as u64 == header_size as u64 + offset as u64 + 2,
        _ => false,
    }
}

/// Returns the mismatch of the place of a record that is stored at a place of the list, if the
/// record is not there.
fn offset_mismatch<I: ItemIndex>(
    number: u32,
    table: &OpenTable<I>,
    offsets: &[u8],
    place: u32,
) -> Option<Mismatch>
    requires { 8 * place + 8 ≤ length offsets.now }
    ensures { result ≡ offset_mismatch number table.now.table offsets.now place }
{
    let index = word_at(8 * place as usize, offsets);
    let offset = word_at(8 * place as usize + 4, offsets);
    let is_elsewhere = !is_record_at(table, index, offset);
    let byte = part_start(table.items().header().ti_off) as u64 + 8 * place as u64;
    let what = Inconsistency::IndexOffset(index);
    is_elsewhere.then_some(in_hashes(number, index as u64, byte, what))
}

/// Adds the mismatches of the places of records.
#[tactic(auto, unfolding(crate::specs::Hashes::offsets_mismatches))]
fn add_offsets<I: ItemIndex>(
    number: u32,
    table: &OpenTable<I>,
    offsets: &[u8],
    extent: Extent,
    mismatches: &mut Vec<Mismatch>,
) -> Result<()>
    requires { length offsets.now < 2 ^ 32 }
    ensures { Answers (λ done. mismatches.new.items) result
        (Ok (with_further extent mismatches.old.items (offsets_mismatches number table.now.table offsets.now))) }
{
    for place in 0..(offsets.len() / 8) as u32 {
        add(
            mismatches,
            extent,
            offset_mismatch(number, table, offsets, place),
        )?;
    }
    Ok(())
}

/// Returns what is inconsistent in the bytes of the hash stream of a number, which goes with a
/// table: that there is not one hash value of four bytes for each index that the table counts, a
/// hash value that is not below the number of buckets, at its record, and a place of a record that
/// is not where the record begins, each with its byte in the hash stream. All are returned, or one,
/// as `extent` says. The format is that of `TpiHash` in Microsoft's tpi.h.
///
/// A table that has learned all its records is looked up in constant time, and the work is then
/// linear in the hash stream.
///
/// # Errors
/// Fails with `OutOfMemory` if an allocation fails.
pub fn check_hashes<I: ItemIndex>(
    alloc: Global,
    number: u32,
    table: &OpenTable<I>,
    hashes: &[u8],
    extent: Extent,
) -> Result<Vec<Mismatch>>
    ensures { Answers (λ mismatches. mismatches.items) result
        (Ok (asked_of extent (hashes_mismatches number table.now.table hashes.now))) }
{
    let header = table.items().header();
    let mut mismatches = Vec::new(alloc);
    let values = part_in(hashes, header.hash_values);
    add_values(number, table, values, extent, &mut mismatches)?;
    let offsets = part_in(hashes, header.ti_off);
    add_offsets(number, table, offsets, extent, &mut mismatches)?;
    Ok(mismatches)
}
