//! The buckets of a string table.

ghost use Rattle.std.specs.Prelude.{◌≡◌, ◌≤◌, not, ◌==◌, false, length, Ok, IfOk};
ghost use Rattle.std.specs.Option.{option_map};
ghost use Rattle.std.specs.Bool.{then_some};
ghost use Rattle.pdb_base.specs.Answer.{Answers};
ghost use Rattle.pdb_validation.specs.Mismatch.{asked_of, with_further};
ghost use Rattle.pdb_validation.specs.StringTable.{are_buckets_cut, bucket_byte, bucket_count};
ghost use Rattle.pdb_validation.specs.StringTable.{bucket_mismatch, count_mismatch, in_names};
ghost use Rattle.pdb_validation.specs.StringTable.{buckets_mismatches, names_in_buckets, names_mismatches_in};
ghost use Rattle.pdb_validation.specs.declared.inconsistency.Inconsistency.TheVariants.{NameCount};
ghost use Rattle.pdb_validation.specs.Words.{mismatches_at};

use crate::inconsistency::Inconsistency;
use crate::mismatch::{Extent, Mismatch, add};
use crate::name_places::{NamesBefore, buckets_byte, check_name, full_from};
use crate::words::word_at;
use pdb_base::Result;
use std::alloc::Global;

/// Returns whether a string table ends before its count of names does.
fn are_buckets_cut(stream: &[u8]) -> bool
    ensures { result ≡ are_buckets_cut stream.now }
{
    if stream.len() < 12 {
        return true;
    }
    let buckets = 12 + word_at(8, stream) as usize;
    if stream.len() < buckets + 4 {
        return true;
    }
    let count = word_at(buckets, stream) as usize;
    stream.len() < buckets + 4 + 4 * count + 4
}

/// Returns the mismatch of something in the string table of a stream, at a byte.
fn in_names(number: u32, byte: usize, what: Inconsistency) -> Mismatch
    ensures { result ≡ in_names number byte what }
{
    Mismatch {
        stream: Some(number),
        index: None,
        byte: Some(byte as u64),
        what,
    }
}

/// Returns the mismatch of what is inconsistent in the bucket at a byte, if something is.
fn found_at(number: u32, byte: usize, what: Option<Inconsistency>) -> Option<Mismatch>
    ensures { result ≡ option_map (in_names number byte) what }
{
    Some(in_names(number, byte, what?))
}

/// Adds the mismatches of the buckets, and returns how many of them have a name.
fn add_buckets(
    number: u32,
    stream: &[u8],
    count: u32,
    extent: Extent,
    mismatches: &mut Vec<Mismatch>,
) -> Result<u32>
    requires there { bucket_byte stream.now count ≤ length stream.now }
    requires count { count ≡ bucket_count stream.now }
    ensures mismatches { Answers (λ names. mismatches.new.items) result
        (Ok (with_further extent mismatches.old.items (mismatches_at (bucket_mismatch number stream.now) count))) }
    ensures names { IfOk result (λ names. names ≡ names_in_buckets stream.now count) }
{
    let first = buckets_byte(stream) + 4;
    let mut names = 0;
    let last = full_from(stream, count);
    let mut before = NamesBefore {
        full_from: 0,
        last_full_from: last,
        taken: 0,
    };
    for place in 0..count {
        let byte = first + 4 * place as usize;
        let offset = word_at(byte, stream);
        let (what, taken) = check_name(stream, before, place, offset);
        add(mismatches, extent, found_at(number, byte, what))?;
        before = before.with_bucket(place, offset, taken);
        if offset != 0 {
            names += 1;
        }
    }
    Ok(names)
}

/// Returns the mismatch of the count of names at a byte, if another number of buckets has a name.
fn count_mismatch(number: u32, byte: usize, count: u32, names: u32) -> Option<Mismatch>
    ensures { result ≡ then_some (not (count == names)) (in_names number byte (NameCount count)) }
{
    let differs = count != names;
    differs.then_some(in_names(number, byte, Inconsistency::NameCount(count)))
}

/// Returns the mismatches of the buckets of a string table that is not cut, and of its count of
/// names.
fn check_whole(alloc: Global, number: u32, stream: &[u8], extent: Extent) -> Result<Vec<Mismatch>>
    requires { are_buckets_cut stream.now ≡ false }
    ensures { Answers (λ mismatches. mismatches.items) result
        (Ok (asked_of extent (buckets_mismatches number stream.now))) }
{
    let mut mismatches = Vec::new(alloc);
    let buckets = buckets_byte(stream);
    let count = word_at(buckets, stream);
    let names = add_buckets(number, stream, count, extent, &mut mismatches)?;
    let end = buckets + 4 + 4 * count as usize;
    let stored = word_at(end, stream);
    add(
        &mut mismatches,
        extent,
        count_mismatch(number, end, stored, names),
    )?;
    Ok(mismatches)
}

/// Returns what is inconsistent in the bytes of a string table, those of the stream of a number,
/// each with its byte in the stream: that the stream ends before the count of names behind the
/// buckets, or else a bucket whose offset is not 0 and at which no name begins, or whose name is not
/// where its hash leads, and a count of names that is not that of the buckets with a name. All are
/// returned, or one, as `extent` says. The format is that of `NMT` in Microsoft's nmt.h.
///
/// A name is in the bucket of its hash, or in the first one behind it that was empty. Names that are
/// in two buckets take more bytes than the names have, from some bucket on; no later name is looked
/// up then, so that the work is linear in the stream.
///
/// # Errors
/// Fails with `OutOfMemory` if an allocation fails.
#[tactic(auto, unfolding(crate::specs::StringTable::names_mismatches_in))]
pub fn check_buckets(
    alloc: Global,
    number: u32,
    stream: &[u8],
    extent: Extent,
) -> Result<Vec<Mismatch>>
    ensures { Answers (λ mismatches. mismatches.items) result
        (Ok (asked_of extent (names_mismatches_in number stream.now))) }
{
    if are_buckets_cut(stream) {
        let mut mismatches = Vec::new(alloc);
        let cut = in_names(number, stream.len(), Inconsistency::BucketsCut);
        add(&mut mismatches, extent, Some(cut))?;
        return Ok(mismatches);
    }
    check_whole(alloc, number, stream, extent)
}
