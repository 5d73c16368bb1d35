//! The hash of a name in the string table.

ghost use Rattle.std.specs.Prelude.{◌≡◌, ◌*◌, ◌≤◌, length};
ghost use Rattle.std.specs.List.{fold};
ghost use Rattle.pdb_validation.specs.NameHashes.{finished, folded, hash_of_words, hash_of_name, numbers_left, stir};
ghost use Rattle.pdb_validation.specs.NameHashes.{stirred};

use crate::words::word_at;
use byteorder::{ByteOrder, LittleEndian};

/// The version of the table with the older hash.
const OLDER: u32 = 1;

/// Returns a hash by version 2 with a number added to it.
fn stirred(sum: u32) -> u32
    ensures { result ≡ stirred sum }
{
    let mixed = sum.wrapping_add(sum.wrapping_mul(1024));
    mixed ^ (mixed >> 6)
}

/// Returns a hash with one more number of a name.
fn stir(version: u32, hash: u32, number: u32) -> u32
    ensures { result ≡ stir version hash number }
{
    if version == OLDER {
        return hash ^ number;
    }
    stirred(hash.wrapping_add(number))
}

/// Returns the hash with the first words of a name.
#[tactic(auto, unfolding(crate::specs::NameHashes::hash_of_words), using(crate::proofs::NamesBeforeLemmas::words_more))]
fn hash_of_words(version: u32, name: &[u8], count: usize) -> u32
    requires { 4 * count ≤ length name.now }
    ensures { result ≡ hash_of_words version name.now count }
{
    let mut hash = if version == OLDER { 0 } else { 0xb170a1bf };
    for place in 0..count {
        hash = stir(version, hash, word_at(4 * place, name));
    }
    hash
}

/// Returns a hash with more bytes.
fn stir_bytes(version: u32, mut hash: u32, bytes: &[u8]) -> u32
    ensures { result ≡ fold (stir version) hash bytes.now }
{
    for byte in bytes {
        hash = stir(version, hash, *byte as u32);
    }
    hash
}

/// Returns a hash with what is left of a name behind its words.
fn hash_with_rest(version: u32, hash: u32, rest: &[u8]) -> u32
    ensures { result ≡ fold (stir version) hash (numbers_left version rest.now) }
{
    if version == OLDER && rest.len() >= 2 {
        let pair = LittleEndian::read_u16(&rest[..2]) as u32;
        return stir_bytes(version, stir(version, hash, pair), &rest[2..]);
    }
    stir_bytes(version, hash, rest)
}

/// Returns a hash of version 1 in its last form.
fn folded(hash: u32) -> u32
    ensures { result ≡ folded hash }
{
    let half = hash ^ (hash >> 11);
    half ^ (half >> 16)
}

/// Returns a hash in its last form.
fn finished(version: u32, hash: u32) -> u32
    ensures { result ≡ finished version hash }
{
    if version == OLDER {
        return folded(hash | 0x20202020);
    }
    hash.wrapping_mul(1664525).wrapping_add(1013904223)
}

/// Returns the hash of a name, by the rule of a version of the string table: `LHashPbCb` in
/// Microsoft's misc.h for version 1, and for any other that of version 2.
#[tactic(auto, unfolding(crate::specs::NameHashes::hash_of_name))]
pub(crate) fn hash_of_name(version: u32, name: &[u8]) -> u32
    ensures { result ≡ hash_of_name version name.now }
{
    let words = name.len() / 4;
    let hash = hash_of_words(version, name, words);
    finished(version, hash_with_rest(version, hash, &name[4 * words..]))
}
