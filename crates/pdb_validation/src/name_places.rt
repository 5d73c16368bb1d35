//! Where names stand in the buckets of a string table.

ghost use Rattle.std.specs.Prelude.{◌≡◌, ◌+◌, ◌-◌, ◌<◌, ◌≤◌, ◌^◌, drop, length, take};
ghost use Rattle.pdb_base.specs.Answer.{Gives};
ghost use Rattle.pdb_base.specs.Reading.{word_at};
ghost use Rattle.pdb_validation.specs.StringTable.{begins_name, bucket_byte, bucket_count};
ghost use Rattle.pdb_validation.specs.StringTable.{bucket_inconsistency, bucket_name, buckets_byte, full_after};
ghost use Rattle.pdb_validation.specs.StringTable.{full_from};
ghost use Rattle.pdb_validation.specs.StringTable.{is_at_place, is_reached, taken_by, with_bucket};

use crate::inconsistency::Inconsistency;
use crate::name_hashes::hash_of_name;
use crate::words::word_at;
use pdb_base::{ParseBuffer, RawString, Result};

/// What is known of the buckets before one.
#[derive(Clone, Copy)]
pub(crate) struct NamesBefore {
    /// The place behind the last of them that is empty, or 0.
    pub(crate) full_from: u32,
    /// The place behind the last of all buckets that is empty, or 0.
    pub(crate) last_full_from: u32,
    /// How many bytes their names take.
    pub(crate) taken: u64,
}

impl NamesBefore {
    /// Returns whether no bucket is empty from one up to a place.
    fn is_reached(self, first: u32, place: u32) -> bool
        ensures { result ≡ is_reached self first place }
    {
        if first <= place {
            return self.full_from <= first;
        }
        self.full_from == 0 && self.last_full_from <= first
    }

    /// Returns what is known behind the bucket at a place, with an offset and a name of some bytes.
    pub(crate) fn with_bucket(self, place: u32, offset: u32, taken: u64) -> NamesBefore
        requires place { place < 2 ^ 32 - 1 }
        requires few { self.taken + taken < 2 ^ 64 }
        ensures { result ≡ with_bucket self place offset taken }
    {
        NamesBefore {
            full_from: full_after(self.full_from, place, offset),
            last_full_from: self.last_full_from,
            taken: self.taken + taken,
        }
    }
}

/// Returns the byte at which the count of buckets begins.
pub(crate) fn buckets_byte(stream: &[u8]) -> usize
    requires { 12 ≤ length stream.now }
    ensures byte { result ≡ buckets_byte stream.now }
    ensures few { result < 12 + 2 ^ 32 }
{
    12 + word_at(8, stream) as usize
}

/// Returns the place behind the last empty bucket, once there is one bucket more, with an offset.
fn full_after(from: u32, place: u32, offset: u32) -> u32
    requires { place < 2 ^ 32 - 1 }
    ensures { result ≡ full_after from place offset }
{
    if offset == 0 {
        return place + 1;
    }
    from
}

/// Returns the place behind the last of the first buckets that is empty, or 0.
#[tactic(auto, unfolding(crate::specs::StringTable::full_from), using(crate::proofs::NamesBeforeLemmas::full_told))]
pub(crate) fn full_from(stream: &[u8], count: u32) -> u32
    requires { bucket_byte stream.now count ≤ length stream.now }
    ensures { result ≡ full_from stream.now count }
{
    let first = buckets_byte(stream) + 4;
    let mut from = 0;
    for place in 0..count {
        let offset = word_at(first + 4 * place as usize, stream);
        from = full_after(from, place, offset);
    }
    from
}

/// Returns whether a name begins at an offset that is not 0.
fn begins_name(stream: &[u8], offset: u32) -> bool
    requires { buckets_byte stream.now ≤ length stream.now }
    ensures { result ≡ begins_name stream.now offset }
{
    offset < word_at(8, stream) && stream[11 + offset as usize] == 0
}

/// Returns the bytes of the names.
fn names_of(stream: &[u8]) -> &[u8]
    requires { buckets_byte stream.now ≤ length stream.now }
    ensures { result.now ≡ take (word_at 8 stream.now) (drop 12 stream.now) }
{
    &stream[12..12 + word_at(8, stream) as usize]
}

/// Returns the name at an offset.
#[tactic(auto, using(std::proofs::lemmas::List::drop_min))]
fn bucket_name(stream: &[u8], offset: u32) -> Result<RawString<'_>>
    requires { buckets_byte stream.now ≤ length stream.now }
    ensures { Gives (λ name. name.0.now) result (bucket_name stream.now offset) }
{
    let mut names = ParseBuffer::from(names_of(stream));
    names.seek(offset as usize);
    names.parse_cstring()
}

/// Returns whether a name is found at a place.
fn is_in_place(stream: &[u8], before: NamesBefore, place: u32, name: &[u8]) -> bool
    requires there { bucket_byte stream.now 0 ≤ length stream.now }
    requires place { place < bucket_count stream.now }
    ensures { result ≡ is_at_place stream.now before place name.now }
{
    let count = word_at(buckets_byte(stream), stream);
    before.is_reached(hash_of_name(word_at(4, stream), name) % count, place)
}

/// Returns what is inconsistent in a bucket with an offset, and how many bytes its name takes, if it
/// has one and no name is in two buckets before it.
pub(crate) fn check_name(
    stream: &[u8],
    before: NamesBefore,
    place: u32,
    offset: u32,
) -> (Option<Inconsistency>, u64)
    requires there { bucket_byte stream.now 0 ≤ length stream.now }
    requires place { place < bucket_count stream.now }
    ensures what { result.0 ≡ bucket_inconsistency stream.now before place offset }
    ensures taken { result.1 ≡ taken_by stream.now before.taken offset }
    ensures few { before.taken + result.1 < 2 ^ 64 }
{
    if offset == 0 {
        return (None, 0);
    }
    if !begins_name(stream, offset) {
        return (Some(Inconsistency::NameOffset(offset)), 0);
    }
    if before.taken > word_at(8, stream) as u64 {
        return (Some(Inconsistency::NameUnreached(offset)), 0);
    }
    match bucket_name(stream, offset) {
        Ok(name) => {
            let is_elsewhere = !is_in_place(stream, before, place, name.as_bytes());
            let what = is_elsewhere.then_some(Inconsistency::NameUnreached(offset));
            (what, name.len() as u64 + 1)
        }
        Err(_) => (None, 0),
    }
}
