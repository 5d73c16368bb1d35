//! A record that can't be parsed.

#![tactic(auto, using(pdbdump_rows::proofs::lemmas::Line::adding))]

ghost use Rattle.pdb_tpi.specs.Item.{index_of};
ghost use Rattle.pdbdump_rows.specs.Line.{EndsRow, AddsRow, indexed};
ghost use Rattle.pdbdump_rows.specs.Lines.{full_text};
ghost use Rattle.pdbdump_tables.specs.Listed.{IsShown};

use pdb_base::{Error, ItemIndex, Result};
use pdb_output::Output;
use pdb_tpi::{Item, OpenTable};
use pdbdump_rows::{Form, Line, Value, show_error};
use std::alloc::{AllocError, Global};
use std::io::Write;
use std::result;

/// How many bytes the length before a record takes.
const LENGTH_SIZE: u32 = 2;

/// Where a record is: the number of its stream, and the byte of the stream at which it begins, with
/// its length.
#[derive(Clone, Copy)]
pub struct ItemPlace {
    pub(crate) stream: u32,
    pub(crate) byte: u32,
}

/// Adds the fields of a record that can't be parsed: its index, its kind, the error, and where the
/// record is.
pub(crate) fn show_refused(line: &mut Line, index: u32, leaf: u16, place: ItemPlace, fault: &Error)
    ensures { AddsRow (indexed index) line.old line.new }
{
    line.field("index", Value::Hexadecimal(index));
    line.field("kind", Value::Kind(leaf));
    show_error(line, fault);
    line.fields(&[
        ("stream", Value::Number(place.stream as u64)),
        ("byte", Value::Hexadecimal(place.byte)),
    ]);
}

/// Makes the text in full of a record that can't be parsed.
#[tactic(auto, using(pdbdump_rows::proofs::lemmas::Line::showing))]
fn make_refused(
    form: Form,
    index: u32,
    leaf: u16,
    place: ItemPlace,
    fault: &Error,
    line: &mut Line,
) -> result::Result<(), AllocError>
    ensures { EndsRow (full_text form) (indexed index) line.new result }
{
    line.begin_full(form);
    show_refused(line, index, leaf, place, fault);
    line.finish()
}

/// Returns the byte of its stream at which the record of an item begins, or None for an item of a
/// primitive type, which has no record.
fn item_byte<I: ItemIndex>(table: &OpenTable<I>, item: &Item<'_, I>) -> Option<u32> {
    match table.find(item.index()) {
        Ok(Some(place)) => place.offset.checked_sub(LENGTH_SIZE),
        _ => None,
    }
}

/// Writes in full that the record of an item can't be parsed, and where it is, and fails with the
/// error. Writes nothing for an item of a primitive type, or if the error is that memory ran out.
///
/// # Errors
/// Fails with the error, with `OutOfMemory` if an allocation fails, and with `IoError` if the writer
/// fails.
#[tactic(auto, using(crate::proofs::ShownLemmas::unshown))]
pub(crate) fn write_unread<I: ItemIndex, W: Write>(
    alloc: Global,
    table: &OpenTable<I>,
    stream: u32,
    item: &Item<'_, I>,
    fault: Error,
    form: Form,
    out: &mut Output<W>,
) -> Result<()>
    ensures { IsShown form (I.number (index_of item.now)) out.old out.new result }
{
    let byte = match fault {
        Error::OutOfMemory => None,
        _ => item_byte(table, item),
    };
    let Some(byte) = byte else {
        return Err(fault);
    };
    let index: u32 = item.index().into();
    let mut line = Line::new(alloc);
    let place = ItemPlace { stream, byte };
    make_refused(form, index, item.raw_kind(), place, &fault, &mut line)?;
    out.write(line.as_bytes())?;
    Err(fault)
}
