//! What `types` and `ids` list of a file where they select records.

ghost use Rattle.std.specs.Prelude.{IfOk, OnOk};
ghost use Rattle.pdb_output.specs.Output.{done_of};
ghost use Rattle.pdbdump_cli.specs.Requests.{stream_bytes};
ghost use Rattle.pdbdump_cli.specs.Told.{IsSearchTold};
ghost use Rattle.pdbdump_tables.specs.Counted.{AreCountedIn};
ghost use Rattle.pdbdump_tables.specs.Listing.{ListsLines};
ghost use Rattle.pdbdump_tables.specs.Reading.{AnswersRead};

use crate::command::{Selected, Table};
use crate::incomplete::{push_unread, report_counts, report_lines};
use crate::input_file::InputFile;
use crate::laid_out::stream_in;
use pdb_base::Stream;
use pdb_container::{Result, Source};
use pdb_output::Output;
use pdbdump_rows::Form;
use pdbdump_tables::{NameSearch, Search, select_ids, select_types};
use pdbdump_types::{Unread, escape_text};
use std::alloc::{AllocError, Global};
use std::io::Write;
use std::result;

/// Lists the records of a table in a stream that are selected.
fn list_selected<W: Write>(
    alloc: Global,
    stream: Stream,
    asked: &Selected<'_, '_>,
    search: &mut Search<'_, '_>,
    form: Form,
    out: &mut Output<W>,
) -> Result<()>
    ensures lists { ListsLines form out.old out.new result }
    ensures counts { OnOk result (AreCountedIn stream search.new.completeness.counts) }
{
    let Selected {
        table,
        number,
        selection,
    } = asked;
    match table {
        Table::Types => select_types(alloc, stream, *number, selection, search, form, out),
        Table::Ids => select_ids(alloc, stream, *number, selection, search, form, out),
    }
}

/// Returns what the report of a name begins with that was not found in a table.
fn missing_front(table: Table, has_read_all: bool) -> &'static [u8] {
    match (table, has_read_all) {
        (Table::Types, true) => b"no type is named ",
        (Table::Types, false) => b"no type that can be read is named ",
        (Table::Ids, true) => b"no id is named ",
        (Table::Ids, false) => b"no id that can be read is named ",
    }
}

/// Appends a line for each name that was not found in a table.
fn push_missing(
    alloc: Global,
    front: &[u8],
    search: &NameSearch<'_, '_>,
    lines: &mut Vec<u8>,
) -> result::Result<(), AllocError> {
    for (place, name) in search.names().iter().enumerate() {
        if !search.is_found(place) {
            lines.extend_from_slice(front)?;
            lines.extend_from_slice(&escape_text(alloc, name.as_bytes())?)?;
            lines.push(b'\n')?;
        }
    }
    Ok(())
}

/// Appends a line if records were passed over that can't be read.
fn push_passed_over(
    alloc: Global,
    passed_over: &Unread,
    lines: &mut Vec<u8>,
) -> result::Result<(), AllocError> {
    if let Some(sentence) = passed_over.sentence(alloc)? {
        lines.extend_from_slice(&sentence)?;
        lines.push(b'\n')?;
    }
    Ok(())
}

/// Returns the lines that say what a search lacks: names that were not found in a table, records that
/// were passed over, and records that are listed and could not be parsed.
fn lacks_of(
    alloc: Global,
    table: Table,
    search: &Search<'_, '_>,
) -> result::Result<Vec<u8>, AllocError> {
    let front = missing_front(table, search.passed_over.is_none());
    let mut lines = Vec::new(alloc);
    push_missing(alloc, front, &search.names, &mut lines)?;
    push_missing(alloc, front, &search.used_names, &mut lines)?;
    push_passed_over(alloc, &search.passed_over, &mut lines)?;
    push_unread(&search.completeness, &mut lines)?;
    Ok(lines)
}

/// Lists the records of a table in a stream that are selected. Returns whether each name was found,
/// each record could be parsed, and the table has as many records as its header counts.
fn select_of<O: Write, E: Write>(
    alloc: Global,
    stream: Stream,
    asked: &Selected<'_, '_>,
    form: Form,
    out: &mut Output<O>,
    err: &mut Output<E>,
) -> Result<bool>
    ensures lists { ListsLines form out.old out.new (done_of result) }
    ensures reported { IfOk result (IsSearchTold stream err.old err.new) }
{
    let mut search = Search::new(alloc, &asked.selection)?;
    list_selected(alloc, stream, asked, &mut search, form, out)?;
    let has_found = report_lines(lacks_of(alloc, asked.table, &search), err);
    let counts = search.completeness.counts;
    Ok(report_counts(alloc, counts, has_found, err))
}

/// Lists the records of a table of a file that are selected. Returns whether each name was found,
/// each record could be parsed, and the table has as many records as its header counts.
pub(crate) fn select_in<S: Source + Drop, O: Write, E: Write>(
    alloc: Global,
    file: InputFile<S>,
    asked: &Selected<'_, '_>,
    form: Form,
    out: &mut Output<O>,
    err: &mut Output<E>,
) -> Result<bool>
    ensures lists { ListsLines form out.old out.new (done_of result) }
    ensures reported { AnswersRead (S.state file.source) (stream_bytes asked.now.number)
        (λ stream. IsSearchTold stream err.old err.new) result }
{
    let stream = stream_in(alloc, file.source, asked.number)?;
    select_of(alloc, stream, asked, form, out, err)
}
