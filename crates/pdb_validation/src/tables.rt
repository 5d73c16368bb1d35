//! The records of the tables of types and of ids.

ghost use Rattle.std.specs.Prelude.{◌≡◌, ◌++◌, map, Ok};
ghost use Rattle.std.specs.Option.{option_map};
ghost use Rattle.pdb_base.specs.Answer.{Answers};
ghost use Rattle.pdb_base.specs.Refusal.{refusal_of};
ghost use Rattle.pdb_tpi.specs.Item.{item_bytes, index_of};
ghost use Rattle.pdb_tpi.specs.Table.{table_of};
ghost use Rattle.pdb_validation.specs.Finding.{by_extent, finding_view};
ghost use Rattle.pdb_validation.specs.Tables.{faults_in_table, fault_at, item_fault, missing_fault, record_faults};
ghost use Rattle.pdb_validation.specs.Tables.{refusal_fault};

use crate::checked_index::CheckedIndex;
use crate::finding::{Finding, add, add_until, in_stream};
use crate::mismatch::Extent;
use crate::places::StreamPages;
use crate::problem::Problem;
use pdb_base::{Error, FallibleIterator, ItemIndex, Result, Stream};
use pdb_tpi::{Item, ItemInformation, OpenTable};
use std::alloc::Global;

/// Returns the finding of the record of an index, which begins at that byte of the table's stream,
/// which has those pages.
fn at_record<I: CheckedIndex>(pages: &StreamPages, index: u64, byte: u64, error: Error) -> Finding
    ensures { finding_view result ≡ fault_at I.PART I.STREAM pages.now index byte (refusal_of error) }
{
    Finding {
        part: I::PART,
        stream: Some(I::STREAM),
        index: Some(index),
        byte: Some(byte),
        file_byte: pages.file_byte(byte),
        problem: Problem::Error(error),
    }
}

/// Returns the finding of a record, which begins at that byte, if it has an error.
fn check_record<I: CheckedIndex>(
    alloc: Global,
    table: &OpenTable<I>,
    item: &Item<'_, I>,
    pages: &StreamPages,
    index: u64,
    byte: u64,
) -> Result<Option<Finding>>
    ensures { Answers (option_map finding_view) result
        (Ok (refusal_fault (fault_at I.PART I.STREAM pages.now index byte)
        (I.checked table.now.table (I.number (index_of item.now)) (item_bytes item.now)))) }
{
    match I::error(alloc, table, item)? {
        Some(error) => Ok(Some(at_record::<I>(pages, index, byte, error))),
        None => Ok(None),
    }
}

/// Returns the finding that a table ends at a byte before an index that its header counts, if it
/// does.
fn missing<I: CheckedIndex>(
    pages: &StreamPages,
    index: u64,
    byte: u64,
    maximum: u32,
) -> Option<Finding>
    ensures { option_map finding_view result
        ≡ missing_fault (λ i. fault_at I.PART I.STREAM pages.now i byte) index maximum }
{
    if index < maximum as u64 {
        return Some(at_record::<I>(pages, index, byte, Error::UnexpectedEof));
    }
    None
}

/// Adds the findings of the records of a table that have an error.
fn add_records<I: CheckedIndex>(
    alloc: Global,
    table: &OpenTable<I>,
    pages: &StreamPages,
    extent: Extent,
    findings: &mut Vec<Finding>,
) -> Result<()>
    ensures { Answers (λ done. map finding_view findings.new.items) result (Ok (map finding_view findings.old.items
        ++ by_extent extent (record_faults (item_fault I.PART I.STREAM pages.now table.now.table)
        (I.checked table.now.table) table.now.table))) }
{
    let mut items = table.items().iter();
    loop {
        let (index, position) = items.place();
        let byte = position as u64;
        match items.next() {
            Ok(Some(item)) => {
                let found = check_record(alloc, table, &item, pages, index, byte)?;
                if add_until(extent, findings, found)? {
                    return Ok(());
                }
            }
            Ok(None) => {
                let maximum = table.items().header().maximum_index;
                let found = missing::<I>(pages, index, byte, maximum);
                return add(findings, found);
            }
            Err(error) => {
                let found = at_record::<I>(pages, index, byte, error);
                return add(findings, Some(found));
            }
        }
    }
}

/// Keeps a table open, with the places of all its records.
pub(crate) fn learn<I: ItemIndex>(alloc: Global, table: ItemInformation<I>) -> Result<OpenTable<I>>
    ensures { Answers (λ learned. learned.table) result (Ok table) }
{
    let last = table.header().maximum_index.saturating_sub(1);
    let mut learned = OpenTable::new(alloc, table)?;
    learned.learn(I::from(last));
    Ok(learned)
}

/// Opens the table in a stream, with the places of all its records.
fn learn_stream<I: ItemIndex>(alloc: Global, stream: Stream) -> Result<OpenTable<I>>
    ensures { Answers (λ learned. learned.table) result (table_of stream) }
{
    let table = ItemInformation::parse(stream)?;
    learn(alloc, table)
}

/// Adds the findings of the table in a stream that has those pages: that of its header, or those of
/// its records.
#[tactic(auto, unfolding(crate::specs::Tables::faults_in_table))]
pub(crate) fn add_table<I: CheckedIndex>(
    alloc: Global,
    stream: Stream,
    pages: &StreamPages,
    extent: Extent,
    findings: &mut Vec<Finding>,
) -> Result<()>
    ensures { Answers (λ done. map finding_view findings.new.items) result (Ok (map finding_view findings.old.items
        ++ by_extent extent (faults_in_table I.PART I.STREAM I.checked pages.now stream))) }
{
    match learn_stream::<I>(alloc, stream) {
        Ok(table) => add_records(alloc, &table, pages, extent, findings),
        Err(Error::OutOfMemory) => Err(Error::OutOfMemory),
        Err(error) => {
            let found = in_stream(I::PART, I::STREAM, Problem::Error(error));
            add(findings, Some(found))
        }
    }
}
