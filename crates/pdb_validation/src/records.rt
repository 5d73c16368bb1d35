//! What is inconsistent in the records of a table of types or of ids.

ghost use Rattle.std.specs.Prelude.{◌≡◌, Ok};
ghost use Rattle.std.specs.Option.{option_map, option_to_list};
ghost use Rattle.pdb_base.specs.Answer.{Answers};
ghost use Rattle.pdb_validation.specs.Mismatch.{asked_of, with_further};
ghost use Rattle.pdb_validation.specs.Records.{at_byte, both_mismatches, size_inconsistency, table_mismatches};

use crate::checked_index::CheckedIndex;
use crate::inconsistency::Inconsistency;
use crate::mismatch::{Extent, Mismatch, add};
use pdb_base::{FallibleIterator, Result};
use pdb_tpi::ItemInformation;
use std::alloc::Global;

/// Returns whether a record takes a number of bytes that is no multiple of four.
fn size_inconsistency(bytes: &[u8]) -> Option<Inconsistency>
    ensures { result ≡ size_inconsistency bytes.now }
{
    let is_unaligned = (2 + bytes.len()) % 4 != 0;
    is_unaligned.then_some(Inconsistency::RecordUnaligned)
}

/// The place of a record: its stream, its index and the byte of the stream at which it begins.
#[derive(Clone, Copy)]
pub(crate) struct RecordPosition {
    pub(crate) stream: u32,
    pub(crate) index: u64,
    pub(crate) byte: u64,
}

/// Returns the mismatch of what is inconsistent in a record.
fn at_record(place: RecordPosition, what: Inconsistency) -> Mismatch
    ensures { result ≡ at_byte place.stream place.index place.byte what }
{
    Mismatch {
        stream: Some(place.stream),
        index: Some(place.index),
        byte: Some(place.byte),
        what,
    }
}

/// Adds what is inconsistent in a record, if something is.
#[inline(always)]
pub(crate) fn add_at(
    mismatches: &mut Vec<Mismatch>,
    extent: Extent,
    place: RecordPosition,
    what: Option<Inconsistency>,
) -> Result<()>
    ensures { Answers (λ done. mismatches.new.items) result (Ok (with_further extent mismatches.old.items
        (option_to_list (option_map (at_byte place.stream place.index place.byte) what)))) }
{
    match what {
        Some(what) => add(mismatches, extent, Some(at_record(place, what))),
        None => Ok(()),
    }
}

/// Adds what is inconsistent in a record, and in its size.
#[inline(always)]
fn add_record(
    mismatches: &mut Vec<Mismatch>,
    extent: Extent,
    place: RecordPosition,
    what: Option<Inconsistency>,
    bytes: &[u8],
) -> Result<()>
    ensures { Answers (λ done. mismatches.new.items) result (Ok (with_further extent mismatches.old.items
        (both_mismatches (at_byte place.stream place.index place.byte) what (size_inconsistency bytes.now)))) }
{
    add_at(mismatches, extent, place, what)?;
    add_at(mismatches, extent, place, size_inconsistency(bytes))
}

/// Returns the mismatches of the records of a table, each with the index of its record and the byte
/// of the table's stream at which that begins: that a type refers to an index that is not below its
/// own, or an id to such an id or to a type whose index is not below `types`; that the record has a
/// kind that this library doesn't read; and that it takes a number of bytes that is no multiple of
/// four. All are returned, or one, as `extent` says. A record with another error is passed over. The
/// work is linear in the table. The records are those of Microsoft's cvinfo.h.
///
/// # Errors
/// Fails with `OutOfMemory` if an allocation fails.
pub fn check_records<I: CheckedIndex>(
    alloc: Global,
    table: &ItemInformation<I>,
    types: u32,
    extent: Extent,
) -> Result<Vec<Mismatch>>
    ensures { Answers (λ mismatches. mismatches.items) result
        (Ok (asked_of extent (table_mismatches I.STREAM (I.wrong types) table.now))) }
{
    let mut mismatches = Vec::new(alloc);
    let mut items = table.iter();
    loop {
        let (index, position) = items.place();
        let place = RecordPosition {
            stream: I::STREAM,
            index,
            byte: position as u64,
        };
        match items.next() {
            Ok(Some(item)) => {
                let what = I::inconsistency(alloc, &item, types)?;
                add_record(&mut mismatches, extent, place, what, item.as_bytes())?;
            }
            Ok(None) => return Ok(mismatches),
            Err(_) => return Ok(mismatches),
        }
    }
}
