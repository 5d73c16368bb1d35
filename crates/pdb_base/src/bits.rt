//! The parts of a word that is made of bits. Place 0 is the lowest bit, and every bit above the
//! highest one is 0.

ghost use Rattle.std.specs.Prelude.{◌≡◌, ◌<◌, ◌/◌, ◌^◌};
ghost use Rattle.pdb_base.specs.Bits.{bits};
ghost use Rattle.pdb_base.specs.Bits.{is_bit_set};

/// Returns a word without the bits below `place`, shifted to the right by `place` bits.
#[tactic(auto, using(crate::proofs::lemmas::Shifts::shifted_out))]
fn bits_from(word: u32, place: u32) -> u32
    ensures { result ≡ word / 2 ^ place }
{
    if place < 32 { word >> place } else { 0 }
}

/// Returns the number in `count` bits of a word, from the bit at `place` on.
#[tactic(auto, using(crate::proofs::lemmas::Shifts::shifted_and_masked, crate::proofs::lemmas::Shifts::bits_below, crate::proofs::lemmas::Shifts::bits_of_all))]
pub fn bit_field(word: u32, place: u32, count: u32) -> u32
    ensures field { result ≡ bits word place count }
    ensures below { result < 2 ^ count }
{
    let shifted = bits_from(word, place);
    if count < 32 {
        shifted & ((1 << count) - 1)
    } else {
        shifted
    }
}

/// Returns whether the bit at `place` of a word is set.
pub fn is_bit_set(word: u32, place: u32) -> bool
    ensures { result ≡ is_bit_set word place }
{
    bit_field(word, place, 1) == 1
}
