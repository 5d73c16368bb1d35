//! Binary search for an address among the records of a stream.

ghost use Rattle.std.specs.Prelude.{◌≡◌, ◌<◌, ◌≤◌, ◌/◌, length, map};
ghost use Rattle.std.specs.List.Sorted.{IsStrictlyIncreasing};
ghost use Rattle.pdb_base.specs.Halving.{IsFound};
ghost use Rattle.pdb_base.specs.Records.{values_of_size};
ghost use Rattle.pdb_frames.specs.Span.{begins, from_address, start_at, IsEnd};

use crate::frame_record::{FrameRecord, from_place, record_at};

/// Returns the start of the record at index `place`.
#[tactic(auto, using(crate::proofs::SearchLemmas::start_there))]
fn start_at<R: FrameRecord>(bytes: &[u8], place: usize) -> u32
    requires { place < length bytes.now / R.SIZE }
    ensures { result ≡ start_at R.span (values_of_size R.SIZE R.value bytes.now) place }
{
    record_at::<R>(bytes, place).start()
}

/// The result of a search.
#[derive(Clone, Copy)]
struct Found {
    /// The index after the last record that starts at or below the address.
    place: usize,

    /// The start of that record, if there is one.
    start: u32,
}

/// Searches for the last record that starts at or below an address.
///
/// Each comparison halves the records that are left to search, whatever its result. The distance of
/// the address from the start is kept beside the index, since one subtraction both compares and
/// gives the distance. So a step needs no branch.
#[tactic(auto, using(pdb_base::proofs::lemmas::Halving::halving_begins, pdb_base::proofs::lemmas::Halving::halving_takes, pdb_base::proofs::lemmas::Halving::halving_passes, pdb_base::proofs::lemmas::Halving::halving_ends))]
fn search<R: FrameRecord>(bytes: &[u8], address: u32) -> Found
    ensures { IsFound (start_at R.span (values_of_size R.SIZE R.value bytes.now)) (length bytes.now / R.SIZE) address
        result.place result.start }
{
    let (mut place, mut distance) = (0, address);
    let mut size = bytes.len() / R::SIZE;
    while size > 0 {
        let middle = place + size / 2;
        let next = start_at::<R>(bytes, middle);
        if next <= address {
            place = middle + size % 2;
            distance = address - next;
        }
        size /= 2;
    }
    let start = address - distance;
    Found { place, start }
}

/// Returns whether code of this start and size starts at an address or covers it. The code must not
/// start after the address.
fn begins_at(start: u32, size: u32, address: u32) -> bool
    requires { start ≤ address }
    ensures { result ≡ begins (record { start = start; size = size }) address }
{
    start == address || address - start < size
}

/// Returns the bytes of the records from an address on: from the record that starts at the address;
/// otherwise from the last one that starts below it, if that one's code covers the address;
/// otherwise from the first one that starts above it.
///
/// If the starts don't increase from record to record, they are the bytes from some record on, or
/// from after the last one.
pub(crate) fn starting_at<R: FrameRecord>(bytes: &[u8], address: u32) -> &[u8]
    ensures exact { IsStrictlyIncreasing (map (λ frame. (R.span frame).start) (values_of_size R.SIZE R.value bytes.now))
        → values_of_size R.SIZE R.value result.now ≡ from_address R.span address
        (values_of_size R.SIZE R.value bytes.now) }
    ensures end { IsEnd (values_of_size R.SIZE R.value result.now) (values_of_size R.SIZE R.value bytes.now) }
{
    let found = search::<R>(bytes, address);
    let Some(last) = found.place.checked_sub(1) else {
        return bytes;
    };
    let size = record_at::<R>(bytes, last).size();
    if begins_at(found.start, size, address) {
        from_place::<R>(bytes, last)
    } else {
        from_place::<R>(bytes, found.place)
    }
}
