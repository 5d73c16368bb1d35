//! The header of a table of types or of ids.

ghost use Rattle.std.specs.Prelude.{◌≡◌, length, Ok};
ghost use Rattle.pdb_base.specs.Answer.{Answers};
ghost use Rattle.pdb_validation.specs.HeaderFields.{is_one_of, table_versions};
ghost use Rattle.pdb_validation.specs.Mismatch.{asked_of};
ghost use Rattle.pdb_validation.specs.TableHeader.{word_field, hash_fields, hash_number};
ghost use Rattle.pdb_validation.specs.TableHeader.{is_part_outside, is_uncounted};
ghost use Rattle.pdb_validation.specs.TableHeader.{lacks_places, lacks_stream, record_fields, table_header_mismatches};

use crate::header_fields::{FieldCheck, add_fields};
use crate::inconsistency::Inconsistency;
use crate::mismatch::Mismatch;
use crate::missing_streams::is_missing;
use crate::scope::Scope;
use pdb_base::{ItemIndex, Result, StreamIndex};
use pdb_msf::Layout;
use pdb_tpi::{OpenTable, RecordPlace, Slice};

/// The versions of the format.
const VERSIONS: [u32; 5] = [19950410, 19951122, 19961031, 19990903, 20040203];

/// Returns whether a version of the format is known.
fn is_version(version: u32) -> bool
    ensures { result ≡ is_one_of table_versions version }
{
    VERSIONS.contains(&version)
}

/// Returns a field of four bytes of the header.
pub(crate) fn word_field(byte: u64, is_wrong: bool, what: Inconsistency) -> FieldCheck
    ensures { result ≡ word_field byte is_wrong what }
{
    FieldCheck {
        is_wrong,
        byte: Some(byte),
        what,
    }
}

/// Returns how many bytes a table has: those of the header, and those behind it.
#[tactic(auto, using(crate::proofs::TableLemmas::table_sized))]
fn table_size<I: ItemIndex>(table: &OpenTable<I>) -> u64
    ensures { result ≡ length table.now.table.bytes }
{
    let header = table.items().header();
    let records = RecordPlace {
        offset: header.header_size,
        length: u32::MAX,
    };
    let bytes = table.bytes_at(records);
    header.header_size as u64 + bytes.len() as u64
}

/// Returns whether a table does not end with the last record that its header counts.
fn is_uncounted<I: ItemIndex>(table: &OpenTable<I>) -> bool
    ensures { result ≡ is_uncounted table.now.table }
{
    let header = table.items().header();
    let size = table_size(table);
    if table.items().is_empty() {
        return header.header_size as u64 != size;
    }
    match table.find(I::from(header.maximum_index - 1)) {
        Ok(Some(place)) => place.offset as u64 + place.length as u64 != size,
        _ => false,
    }
}

/// Returns the fields of the header that say what records there are.
fn record_fields<I: ItemIndex>(table: &OpenTable<I>) -> [FieldCheck; 3]
    ensures { result ≡ record_fields table.now.table }
{
    let header = table.items().header();
    let end = header.header_size as u64 + header.gprec_size as u64;
    let version = Inconsistency::UnknownVersion(header.version);
    let indexes = Inconsistency::RecordBytes(header.maximum_index);
    let bytes = Inconsistency::RecordBytes(header.gprec_size);
    [
        word_field(0, !is_version(header.version), version),
        word_field(12, is_uncounted(table), indexes),
        word_field(16, end != table_size(table), bytes),
    ]
}

/// Returns whether a stream has a number, and the layout has no such stream.
fn lacks_stream(layout: &Layout, number: Option<u32>) -> bool
    ensures { result ≡ lacks_stream layout.now number }
{
    match number {
        Some(number) => is_missing(layout, number),
        None => false,
    }
}

/// Returns whether a part of the hash stream of a number, if there is one, is not within it.
fn is_part_outside(layout: &Layout, number: Option<u32>, part: Slice) -> bool
    ensures { result ≡ is_part_outside layout.now number part }
{
    let Some(number) = number else {
        return false;
    };
    match (layout.stream_size(number), u32::try_from(part.offset)) {
        (Ok(size), Ok(start)) => (size as u64) < start as u64 + part.size as u64,
        (Ok(_), Err(_)) => true,
        _ => false,
    }
}

/// Returns whether the places of records have a size that is none, or none of them is there where
/// there is a record.
fn lacks_places<I: ItemIndex>(table: &OpenTable<I>, number: Option<u32>) -> bool
    requires { number ≡ hash_number table.now.table }
    ensures { result ≡ lacks_places table.now.table }
{
    let size = table.items().header().ti_off.size;
    number.is_some() && (size % 8 != 0 || size == 0 && !table.items().is_empty())
}

/// Returns the fields of the header that are about hashes.
fn hash_fields<I: ItemIndex>(layout: &Layout, table: &OpenTable<I>) -> [FieldCheck; 7]
    ensures { result ≡ hash_fields layout.now table.now.table }
{
    let header = table.items().header();
    let is_empty = table.items().is_empty();
    let number = StreamIndex(header.tpi_hash_stream).msf_number();
    let buckets = header.hash_bucket_size;
    let (values, places, moved) = (header.hash_values, header.ti_off, header.hash_adj);
    let is_lacking = lacks_places(table, number);
    let missing = Inconsistency::StreamMissing(header.tpi_hash_stream as u32);
    let key_size = Inconsistency::HashSize(header.hash_key_size);
    [
        word_field(20, lacks_stream(layout, number), missing),
        word_field(
            20,
            number.is_none() && !is_empty,
            Inconsistency::NoHashStream,
        ),
        word_field(24, header.hash_key_size != 4, key_size),
        word_field(
            28,
            buckets < 0x1000 || 0x40000 < buckets,
            Inconsistency::HashSize(buckets),
        ),
        word_field(
            32,
            is_part_outside(layout, number, values),
            Inconsistency::HashPart(values.size),
        ),
        word_field(
            40,
            is_part_outside(layout, number, places) || is_lacking,
            Inconsistency::HashPart(places.size),
        ),
        word_field(
            48,
            is_part_outside(layout, number, moved),
            Inconsistency::HashPart(moved.size),
        ),
    ]
}

/// Returns what is inconsistent in the header of a table, which is in the stream of a number: a
/// version that is not known; records that do not end where the header says, by their bytes or by
/// their indexes; a hash stream that is missing, or that a table with records does not have; a size
/// of hashes or a number of buckets that no table has; and a part of the hash stream that is not
/// within it, or that has no place of a record. A table without bytes has no header. All are
/// returned, or one, as `extent` says. The format is that of `HDR` in Microsoft's tpi.h.
///
/// A table that has learned all its records is looked up in constant time.
///
/// # Errors
/// Fails with `OutOfMemory` if an allocation fails.
#[tactic(auto, unfolding(crate::specs::TableHeader::table_header_mismatches))]
pub(crate) fn check_table_header<I: ItemIndex>(
    scope: &Scope<'_>,
    number: u32,
    table: &OpenTable<I>,
) -> Result<Vec<Mismatch>>
    ensures { Answers (λ mismatches. mismatches.items) result
        (Ok (asked_of scope.now.extent (table_header_mismatches scope.now.layout.now number table.now.table))) }
{
    let mut mismatches = Vec::new(scope.alloc);
    if table.items().header().header_size == 0 {
        return Ok(mismatches);
    }
    add_fields(
        Some(number),
        &record_fields(table),
        scope.extent,
        &mut mismatches,
    )?;
    add_fields(
        Some(number),
        &hash_fields(scope.layout, table),
        scope.extent,
        &mut mismatches,
    )?;
    Ok(mismatches)
}
