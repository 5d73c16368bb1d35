//! Records that follow one another in a stream.

ghost use Rattle.std.specs.Prelude.{◌≡◌, ◌≤◌, ◌<◌, ◌*◌, ◌/◌, ℕ, List, [], ◌∷◌, length, take, drop, IfSome, IfNone};
ghost use Rattle.pdb_base.specs.Records.{values_of_size};

use crate::addr_range::AddrRange;

/// A record of a stream whose records all have the same size.
pub(crate) trait FrameRecord: AddrRange + Copy {
    ghost SIZE: { ℕ };

    /// The size of a record in bytes.
    const SIZE: usize;

    // A record takes some bytes.
    ghost some: { 0 < SIZE };

    // The record that so many bytes spell.
    ghost value: { List ℕ → Self };

    /// Returns the record in these bytes, which are as many as a record has. The function takes the
    /// bytes and not a buffer, so that one definition states it and `Parse`.
    fn read(bytes: &[u8]) -> Self
        requires { length bytes.now ≡ SIZE }
        ensures { result ≡ value bytes.now };
}

/// Returns the first record in `bytes` and the bytes after it, or None if fewer bytes are left than
/// a record has.
#[tactic(auto, using(pdb_base::proofs::lemmas::Records::spelled_none, pdb_base::proofs::lemmas::Records::spelled_first))]
pub(crate) fn first<R: FrameRecord>(bytes: &[u8]) -> Option<(R, &[u8])>
    ensures none { IfNone result (values_of_size R.SIZE R.value bytes.now ≡ []) }
    ensures some { IfSome result
        (λ first. values_of_size R.SIZE R.value bytes.now ≡ first.0 ∷ values_of_size R.SIZE R.value first.1.now) }
    ensures shorter { IfSome result (λ first. length first.1.now < length bytes.now) }
{
    if bytes.len() < R::SIZE {
        return None;
    }
    let (front, behind) = bytes.split_at(R::SIZE);
    Some((R::read(front), behind))
}

/// Returns the record at index `place`.
pub(crate) fn record_at<R: FrameRecord>(bytes: &[u8], place: usize) -> R
    requires { place < length bytes.now / R.SIZE }
    ensures { result ≡ R.value (take R.SIZE (drop (R.SIZE * place) bytes.now)) }
{
    let start = place * R::SIZE;
    R::read(&bytes[start..start + R::SIZE])
}

/// Returns the bytes of the records from index `place` on.
pub(crate) fn from_place<R: FrameRecord>(bytes: &[u8], place: usize) -> &[u8]
    requires { place ≤ length bytes.now / R.SIZE }
    ensures { values_of_size R.SIZE R.value result.now ≡ drop place (values_of_size R.SIZE R.value bytes.now) }
{
    &bytes[place * R::SIZE..]
}
