//! The streams of symbols, as far as their sizes go.

ghost use Rattle.std.specs.Prelude.{◌≡◌, ◌≤◌, ◌<◌, ◌^◌, length, Ok};
ghost use Rattle.pdb_base.specs.Answer.{Answers, Gives};
ghost use Rattle.pdb_validation.specs.HeaderFields.{fields_mismatches};
ghost use Rattle.pdb_validation.specs.Mismatch.{asked_of, with_further};
ghost use Rattle.pdb_validation.specs.Symbols.{behind_symbol, behind_symbols, globals_mismatches, hash_table_checks};
ghost use Rattle.pdb_validation.specs.Symbols.{hash_table_fields, is_filled, publics_field, publics_mismatches};
ghost use Rattle.pdb_validation.specs.Symbols.{publics_size, publics_table, symbols_mismatches};

use crate::header_fields::{FieldCheck, add_fields, check_fields};
use crate::inconsistency::Inconsistency;
use crate::mismatch::{Extent, Mismatch};
use crate::table_header::word_field;
use crate::words::{part_at, word_at};
use pdb_base::{Error, ParseBuffer, Result};
use std::alloc::Global;

/// The signature with which a hash table begins.
const SIGNATURE: u32 = 0xffff_ffff;

/// The version of a hash table.
const VERSION: u32 = 0xeffe_0000 + 19990810;

/// The size of the header of a hash table in bytes.
const HASH_HEADER_SIZE: usize = 16;

/// The size of the header of the stream of publics in bytes.
const PUBLICS_HEADER_SIZE: usize = 28;

/// Returns whether the records and the buckets of a hash table fill it.
fn is_filled(table: &[u8]) -> bool
    requires { 16 ≤ length table.now }
    ensures { result ≡ is_filled table.now }
{
    let (records, buckets) = (word_at(8, table), word_at(12, table));
    HASH_HEADER_SIZE + records as usize + buckets as usize == table.len() && records % 8 == 0
}

/// Returns the fields of a hash table that begins at a byte of its stream.
fn hash_table_fields(byte: u64, table: &[u8]) -> [FieldCheck; 3]
    requires whole { 16 ≤ length table.now }
    requires front { byte < 2 ^ 32 }
    ensures { result ≡ hash_table_fields byte table.now }
{
    let (signature, version) = (word_at(0, table), word_at(4, table));
    let sizes = Inconsistency::SymbolHashSizes;
    [
        word_field(
            byte,
            signature != SIGNATURE,
            Inconsistency::SymbolHashVersion(signature),
        ),
        word_field(
            byte + 4,
            version != VERSION,
            Inconsistency::SymbolHashVersion(version),
        ),
        word_field(byte + 8, !is_filled(table), sizes),
    ]
}

/// Adds the mismatches of a hash table that begins at a byte of the stream of a number.
fn add_hash_table(
    number: u32,
    byte: u64,
    table: &[u8],
    extent: Extent,
    mismatches: &mut Vec<Mismatch>,
) -> Result<()>
    requires { byte < 2 ^ 32 }
    ensures { Answers (λ done. mismatches.new.items) result (Ok (with_further extent mismatches.old.items
        (fields_mismatches (Some number) (hash_table_checks byte table.now)))) }
{
    if table.len() < HASH_HEADER_SIZE {
        let cut = word_field(byte, true, Inconsistency::SymbolHashSizes);
        return add_fields(Some(number), &[cut], extent, mismatches);
    }
    let fields = hash_table_fields(byte, table);
    add_fields(Some(number), &fields, extent, mismatches)
}

/// Returns what is inconsistent in the stream of globals, which has a number, each at a byte: a hash
/// table whose signature or version is not known, or that its header, its records and its buckets
/// do not fill. All are returned, or one, as `extent` says. The format is that of `GSIHashHdr` in
/// Microsoft's gsi.h.
///
/// # Errors
/// Fails with `OutOfMemory` if an allocation fails.
#[tactic(auto, using(crate::proofs::MismatchLemmas::asked_are))]
pub fn check_globals(
    alloc: Global,
    number: u32,
    stream: &[u8],
    extent: Extent,
) -> Result<Vec<Mismatch>>
    ensures { Answers (λ mismatches. mismatches.items) result
        (Ok (asked_of extent (globals_mismatches number stream.now))) }
{
    let mut mismatches = Vec::new(alloc);
    add_hash_table(number, 0, stream, extent, &mut mismatches)?;
    Ok(mismatches)
}

/// Returns how many bytes the parts of the stream of publics have, as its header says it.
fn publics_size(stream: &[u8]) -> u64
    requires { 28 ≤ length stream.now }
    ensures { result ≡ publics_size stream.now }
{
    PUBLICS_HEADER_SIZE as u64
        + word_at(0, stream) as u64
        + word_at(4, stream) as u64
        + 4 * word_at(8, stream) as u64
        + 8 * word_at(24, stream) as u64
}

/// Returns the sizes that the header of the stream of publics says, which is wrong if they do not
/// fill the stream.
fn publics_field(stream: &[u8]) -> FieldCheck
    requires { 28 ≤ length stream.now }
    ensures { result ≡ publics_field stream.now }
{
    let is_other = publics_size(stream) != stream.len() as u64;
    word_field(0, is_other, Inconsistency::PublicSizes)
}

/// Returns the hash table in the stream of publics, as much of it as there is.
fn publics_table(stream: &[u8]) -> &[u8]
    requires { 28 ≤ length stream.now }
    ensures { result.now ≡ publics_table stream.now }
{
    part_at(stream, PUBLICS_HEADER_SIZE, word_at(0, stream))
}

/// Returns what is inconsistent in the stream of publics, which has a number, each at a byte: its
/// hash table, as `check_globals` says it, and that the header, the hash table and the maps of
/// addresses, thunks and sections do not fill the stream. All are returned, or one, as `extent`
/// says. The format is that of `PSGSIHDR` in Microsoft's gsi.h.
///
/// # Errors
/// Fails with `OutOfMemory` if an allocation fails.
#[tactic(auto, unfolding(crate::specs::Symbols::publics_mismatches))]
pub fn check_publics(
    alloc: Global,
    number: u32,
    stream: &[u8],
    extent: Extent,
) -> Result<Vec<Mismatch>>
    ensures { Answers (λ mismatches. mismatches.items) result
        (Ok (asked_of extent (publics_mismatches number stream.now))) }
{
    if stream.len() < PUBLICS_HEADER_SIZE {
        let cut = word_field(0, true, Inconsistency::PublicSizes);
        return check_fields(alloc, Some(number), &[cut], extent);
    }
    let mut mismatches = Vec::new(alloc);
    let sizes = publics_field(stream);
    add_fields(Some(number), &[sizes], extent, &mut mismatches)?;
    let table = publics_table(stream);
    add_hash_table(number, 28, table, extent, &mut mismatches)?;
    Ok(mismatches)
}

/// Returns the bytes behind the record at the front of bytes.
#[tactic(auto, unfolding(crate::specs::Symbols::behind_symbol, pdb_tpi::specs::Walk::first_item, pdb_base::specs::Reading::number_at, pdb_base::specs::Reading::front_at))]
fn behind_symbol(bytes: &[u8]) -> Result<&[u8]>
    ensures { Gives (λ rest. rest.now) result (behind_symbol bytes.now) }
{
    let mut buffer = ParseBuffer::from(bytes);
    let length = buffer.parse_u16()?;
    if length < 2 {
        return Err(Error::TypeTooShort);
    }
    buffer.take(length as usize)?;
    Ok(&bytes[2 + length as usize..])
}

/// Returns the bytes behind the last record of symbols that is whole.
#[tactic(auto, unfolding(crate::specs::Symbols::behind_symbols))]
fn behind_symbols(stream: &[u8]) -> &[u8]
    ensures { result.now ≡ behind_symbols stream.now }
{
    let mut left = stream;
    for _step in 0..stream.len() {
        match behind_symbol(left) {
            Ok(behind) => left = behind,
            Err(_) => return left,
        }
    }
    left
}

/// Returns what is inconsistent in the stream of the records of symbols, which has a number: the
/// records, each behind a `u16` with its length, do not end where the stream does. The byte is that
/// at which the first record begins that is cut, or that has no room for its kind. All are returned,
/// or one, as `extent` says. The format is that of `SYMTYPE` in Microsoft's cvinfo.h.
///
/// # Errors
/// Fails with `OutOfMemory` if an allocation fails.
pub fn check_symbols(
    alloc: Global,
    number: u32,
    stream: &[u8],
    extent: Extent,
) -> Result<Vec<Mismatch>>
    ensures { Answers (λ mismatches. mismatches.items) result
        (Ok (asked_of extent (symbols_mismatches number stream.now))) }
{
    let left = behind_symbols(stream).len();
    let byte = stream.len().saturating_sub(left) as u64;
    let cut = word_field(byte, left != 0, Inconsistency::SymbolCut);
    check_fields(alloc, Some(number), &[cut], extent)
}
