//! The version and the table of names of stream 1.

ghost use Rattle.std.specs.Prelude.{◌≡◌, ◌≤◌, ◌+◌, ◌*◌, length, Ok};
ghost use Rattle.pdb_base.specs.Answer.{Answers};
ghost use Rattle.pdb_validation.specs.HeaderFields.{information_versions, is_one_of};
ghost use Rattle.pdb_validation.specs.Information.{information_fields, information_mismatches, named_counts};
ghost use Rattle.pdb_validation.specs.Information.{ones_from};
ghost use Rattle.pdb_validation.specs.Mismatch.{asked_of};

use crate::header_fields::{FieldCheck, check_fields};
use crate::inconsistency::Inconsistency;
use crate::mismatch::{Extent, Mismatch};
use crate::names::INFORMATION_STREAM;
use crate::words::word_at;
use pdb_base::{Result, Stream};
use std::alloc::Global;

/// The size of what is before the names in bytes.
const NAMES_OFFSET: usize = 32;

/// The versions of the format.
const VERSIONS: [u32; 10] = [
    19941610, 19950623, 19950814, 19960307, 19970604, 19990604, 20000404, 20030901, 20091201,
    20140508,
];

/// Returns whether a version of the format is known.
fn is_known(version: u32) -> bool
    ensures { result ≡ is_one_of information_versions version }
{
    VERSIONS.contains(&version)
}

/// Returns how many bits are set in some words from a byte on.
fn ones_from(stream: &[u8], byte: usize, count: u32) -> u64
    requires { byte + 4 * count ≤ length stream.now }
    ensures { result ≡ ones_from stream.now byte count }
{
    let mut ones = 0u64;
    for place in 0..count {
        let word = word_at(byte + 4 * place as usize, stream);
        ones += word.count_ones() as u64;
    }
    ones
}

/// Returns how many streams the table of names counts, and how many it has by its bits, or zeros if
/// the stream ends before these.
fn named_counts(stream: &[u8]) -> (u32, u64)
    requires { 32 ≤ length stream.now }
    ensures { result ≡ named_counts stream.now }
{
    let named = NAMES_OFFSET + word_at(28, stream) as usize;
    if named + 12 > stream.len() {
        return (0, 0);
    }
    let count = word_at(named + 8, stream);
    if named + 12 + 4 * count as usize > stream.len() {
        return (0, 0);
    }
    (word_at(named, stream), ones_from(stream, named + 12, count))
}

/// Returns the fields of stream 1 that are checked.
fn information_fields(stream: &[u8]) -> [FieldCheck; 2]
    requires { 32 ≤ length stream.now }
    ensures { result ≡ information_fields stream.now }
{
    let version = word_at(0, stream);
    let (count, ones) = named_counts(stream);
    [
        FieldCheck {
            is_wrong: !is_known(version),
            byte: Some(0),
            what: Inconsistency::UnknownVersion(version),
        },
        FieldCheck {
            is_wrong: ones != count as u64,
            byte: Some(32 + word_at(28, stream) as u64),
            what: Inconsistency::NamedStreamCount(count),
        },
    ]
}

/// Returns what is inconsistent in stream 1: a version that is not known, and a table of names that
/// counts other streams than it has bits for. All are returned, or one, as `extent` says. The
/// format is that of `PDBStream70` in Microsoft's pdb.h.
///
/// # Errors
/// Fails with `OutOfMemory` if an allocation fails.
#[tactic(auto, unfolding(crate::specs::Information::information_mismatches))]
pub(crate) fn check_information(
    alloc: Global,
    stream: &Stream,
    extent: Extent,
) -> Result<Vec<Mismatch>>
    ensures { Answers (λ mismatches. mismatches.items) result
        (Ok (asked_of extent (information_mismatches stream.now))) }
{
    let bytes = stream.as_slice();
    if bytes.len() < NAMES_OFFSET {
        return check_fields(alloc, Some(INFORMATION_STREAM), &[], extent);
    }
    let fields = information_fields(bytes);
    check_fields(alloc, Some(INFORMATION_STREAM), &fields, extent)
}
