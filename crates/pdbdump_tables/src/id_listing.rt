//! Ids in full.

ghost use Rattle.pdbdump_rows.specs.Line.{EndsRow, indexed};
ghost use Rattle.pdbdump_rows.specs.Lines.{full_text};
ghost use Rattle.pdbdump_tables.specs.Listed.{IsShown};

use crate::refused_record::write_unread;
use pdb_base::{IdIndex, Result, Stream};
use pdb_output::Output;
use pdb_tpi::{IdInformation, OpenTable};
use pdb_values::IdData;
use pdbdump_rows::{Form, Line, show_id};
use std::alloc::{AllocError, Global};
use std::io::Write;
use std::result;

/// Makes the text of an id in full.
#[tactic(auto, using(pdbdump_rows::proofs::lemmas::Line::showing))]
fn make_full(
    form: Form,
    index: u32,
    leaf: u16,
    value: &IdData<'_>,
    line: &mut Line,
) -> result::Result<(), AllocError>
    ensures { EndsRow (full_text form) (indexed index) line.new result }
{
    line.begin_full(form);
    show_id(line, index, leaf, value);
    line.finish()
}

/// Writes an id in full.
#[tactic(auto, using(crate::proofs::ShownLemmas::unshown))]
fn write_value<W: Write>(
    alloc: Global,
    index: u32,
    leaf: u16,
    value: &IdData<'_>,
    form: Form,
    out: &mut Output<W>,
) -> Result<()>
    ensures { IsShown form index out.old out.new result }
{
    let mut line = Line::new(alloc);
    make_full(form, index, leaf, value, &mut line)?;
    out.write(line.as_bytes())?;
    Ok(())
}

/// Looks up the id of an index in the table of a stream and writes it in full.
#[tactic(auto, using(crate::proofs::ShownLemmas::unshown))]
fn write_id<W: Write>(
    alloc: Global,
    ids: &OpenTable<IdIndex>,
    stream: u32,
    index: u32,
    form: Form,
    out: &mut Output<W>,
) -> Result<()>
    ensures { IsShown form index out.old out.new result }
{
    let item = ids.item(IdIndex(index))?;
    match item.parse(alloc) {
        Ok(value) => write_value(alloc, index, item.raw_kind(), &value, form, out),
        Err(fault) => write_unread(alloc, ids, stream, &item, fault, form, out),
    }
}

/// Looks up the id of an index in the table in a stream and writes it in full.
///
/// # Errors
/// Fails with the error of the table or the look-up, before anything is written; with the error of
/// the record, after a text that says so and where the record is; with `OutOfMemory` if an
/// allocation fails; and with `IoError` if the writer fails, after a prefix of what is meant to be
/// written.
#[tactic(auto, using(crate::proofs::ShownLemmas::unshown))]
pub fn id_at<W: Write>(
    alloc: Global,
    stream: Stream,
    number: u32,
    index: u32,
    form: Form,
    out: &mut Output<W>,
) -> Result<()>
    ensures { IsShown form index out.old out.new result }
{
    let table = IdInformation::parse(stream)?;
    let ids = OpenTable::new(alloc, table)?;
    write_id(alloc, &ids, number, index, form, out)
}
