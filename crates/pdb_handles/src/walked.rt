//! Walks along tables of types and of ids, with the numbers in their records.

ghost use Rattle.pdb_tpi.specs.{OpenTable.record_bytes};
ghost use Rattle.pdb_handles.specs.Walked.{IsTypeRow, WritesNext, record_says};

use crate::content::Records;
use crate::fault::{END, FINE, Fault};
use crate::records::{write_id_row, write_type_row};
use crate::row::{Numbers, Row};
use crate::tables::Located;
use pdb_tpi::RecordPlace;
use std::alloc::Global;

/// A record of a table, and what it says.
#[repr(C)]
#[derive(Clone, Copy)]
pub struct TypeRow {
    /// Where the record is in the stream of the table.
    pub position: Located,
    /// How parsing the record ended.
    pub fault: Fault,
    /// What the record says, or zeros if parsing it failed.
    pub info: Row,
}

/// Parses the record at a place of a table, which is that of an index, and writes what it says, or
/// the fault of its error and a `Row` of zeros.
#[inline(always)]
#[tactic(auto, using(crate::proofs::WalkedLemmas::told_row))]
fn write_record(
    alloc: Global,
    records: &Records,
    index: u32,
    place: RecordPlace,
    told: &mut TypeRow,
)
    ensures { IsTypeRow index place
        (record_says records.now.are_ids index (record_bytes records.now.types.table place)) told.new }
{
    let bytes = records.types.table().bytes_at(place);
    told.position = Located::at(index, place);
    told.fault = if records.are_ids {
        write_id_row(alloc, bytes, &mut told.info)
    } else {
        write_type_row(alloc, bytes, index, &mut told.info)
    };
    if told.fault.status != FINE {
        told.info = Row::of(0, &Numbers::default());
    }
}

/// Writes the next records of a walk to the start of the caller's array, as many as it has room for
/// or as are left before the walk stops, and sets `count` to their number.
pub fn write_next(
    alloc: Global,
    records: &mut Records,
    rows: &mut [TypeRow],
    count: &mut usize,
) -> Fault
    ensures { WritesNext rows.old records.old
        (record { fault = result; length = count.new; room = rows.new }) records.new }
{
    for at in 0..rows.len() {
        let index = records.types.index().min(0xffff_ffff) as u32;
        match records.types.step() {
            Ok(Some(place)) => write_record(alloc, records, index, place, &mut rows[at]),
            Ok(None) => {
                *count = at;
                return Fault::status(END);
            }
            Err(error) => {
                *count = at;
                return Fault::of(&error);
            }
        }
    }
    *count = rows.len();
    Fault::status(FINE)
}
