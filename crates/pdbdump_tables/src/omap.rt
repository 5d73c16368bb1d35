//! The records of OMAP tables.

ghost use Rattle.std.specs.Prelude.{[]};
ghost use Rattle.pdbdump_rows.specs.Line.{IsRow, WritesWhat};
ghost use Rattle.pdbdump_rows.specs.Lines.{row_text};
ghost use Rattle.pdbdump_rows.specs.Rows.{AreRows};
ghost use Rattle.pdbdump_tables.specs.Listing.{IsListed};
ghost use Rattle.pdbdump_tables.specs.Tables.{omap_all, omap_listing, omap_rows};

use pdb_base::{Result, Stream};
use pdb_output::Output;
use pdb_space::OMAPTable;
use pdbdump_rows::{Form, Line, Value, show_omap, write_line};
use std::alloc::Global;
use std::io::Write;

/// Writes the records of a table.
fn write_records<W: Write>(
    table: &OMAPTable,
    form: Form,
    line: &mut Line,
    out: &mut Output<W>,
) -> Result<()>
    ensures { WritesWhat (AreRows form (omap_rows table.now)) out.old out.new result }
{
    for record in table.records() {
        line.begin(form);
        show_omap(line, record);
        write_line(line, out)?;
    }
    Ok(())
}

/// Returns whether no record has a source below that of the record before it.
fn is_sorted(table: &OMAPTable) -> bool {
    table.is_sorted()
}

/// Writes whether a table is sorted.
#[tactic(auto, using(pdbdump_rows::proofs::lemmas::Line::showing))]
fn write_order<W: Write>(
    form: Form,
    is_sorted: bool,
    line: &mut Line,
    out: &mut Output<W>,
) -> Result<()>
    ensures { WritesWhat (IsRow (row_text form) []) out.old out.new result }
{
    line.begin(form);
    line.field("is_sorted", Value::Flag(is_sorted));
    write_line(line, out)
}

/// Writes the records of a table, and then whether their sources never decrease.
fn write_table<W: Write>(
    alloc: Global,
    table: &OMAPTable,
    form: Form,
    out: &mut Output<W>,
) -> Result<()>
    ensures { WritesWhat (AreRows form (omap_all table.now)) out.old out.new result }
{
    let mut line = Line::new(alloc);
    write_records(table, form, &mut line, out)?;
    write_order(form, is_sorted(table), &mut line, out)
}

/// Lists the records of the OMAP table in a stream, and then whether their sources never decrease.
///
/// # Errors
/// Fails with `InvalidStreamLength` if the stream's length isn't a multiple of eight. Fails with
/// `IoError` if the writer fails, and with `OutOfMemory` if an allocation fails.
pub fn write_omap<W: Write>(
    alloc: Global,
    stream: Stream,
    form: Form,
    out: &mut Output<W>,
) -> Result<()>
    ensures { IsListed form (omap_listing stream) out.old out.new result }
{
    let table = OMAPTable::parse(stream)?;
    write_table(alloc, &table, form, out)
}
