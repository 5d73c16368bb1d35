//! Tables of items: a line for each, or for each that is selected.

ghost use Rattle.std.specs.Prelude.{OnOk};
ghost use Rattle.pdbdump_tables.specs.Counted.{AreCounted, AreCountedIn};
ghost use Rattle.pdbdump_tables.specs.Listed.{IsTableListed, IsWalked};
ghost use Rattle.pdbdump_tables.specs.Listing.{ListsLines};

use crate::completeness::{Completeness, RecordCounts};
use crate::item_line::{ListedIndex, make_item, show_selected};
use crate::refused_record::ItemPlace;
use crate::search::Search;
use crate::selection::Selection;
use pdb_base::{FallibleIterator, IdIndex, Result, Stream};
use pdb_output::Output;
use pdb_tpi::{IdInformation, ItemInformation};
use pdbdump_rows::{Form, Line, write_line};
use pdbdump_types::learn_table;
use std::alloc::Global;
use std::io::Write;

/// Writes a line for each item of a table.
fn list_items<I: ListedIndex, W: Write>(
    alloc: Global,
    table: &ItemInformation<I>,
    stream: u32,
    form: Form,
    found: &mut Completeness,
    out: &mut Output<W>,
) -> Result<()>
    ensures lists { IsWalked form table.now out.old out.new result }
    ensures counts { OnOk result (AreCounted table.now found.new.counts) }
{
    let mut items = table.iter();
    let mut line = Line::new(alloc);
    loop {
        let (index, byte) = items.place();
        let place = ItemPlace {
            stream,
            byte: byte as u32,
        };
        let Some(item) = items.next()? else {
            found.counts = Some(RecordCounts::up_to(stream, table.header(), index));
            return Ok(());
        };
        make_item(alloc, form, &item, place, &mut found.is_whole, &mut line)?;
        out.write(line.as_bytes())?;
    }
}

/// Writes a line for each type or id of the table in a stream, in the order of the table. A record
/// that can't be parsed has a line with the error, the number of the stream and the byte at which
/// the record begins, and it is noted that not all is whole. At the end it is noted how many records
/// the header counts and how many there are. At most one parsed record and its line are held in
/// memory.
///
/// # Errors
/// Fails as `ItemInformation::parse` does, before anything is written; with the error at which the
/// table stops, after the lines of the items before it; with `IoError` if the writer fails, after a
/// prefix of what is meant to be written; and with `OutOfMemory` if an allocation fails, after the
/// lines so far.
pub fn items<I: ListedIndex, W: Write>(
    alloc: Global,
    stream: Stream,
    number: u32,
    form: Form,
    found: &mut Completeness,
    out: &mut Output<W>,
) -> Result<()>
    ensures lists { IsTableListed form stream out.old out.new result }
    ensures counts { OnOk result (AreCountedIn stream found.new.counts) }
{
    let table: ItemInformation<I> = ItemInformation::parse(stream)?;
    list_items(alloc, &table, number, form, found, out)
}

/// Writes a line for each item of a table that is selected.
fn list_selected<I: ListedIndex, W: Write>(
    alloc: Global,
    table: &ItemInformation<I>,
    stream: u32,
    selection: &Selection<'_, '_>,
    search: &mut Search<'_, '_>,
    form: Form,
    out: &mut Output<W>,
) -> Result<()>
    ensures lists { ListsLines form out.old out.new result }
    ensures counts { OnOk result (AreCounted table.now search.new.completeness.counts) }
{
    let mut items = table.iter();
    let mut line = Line::new(alloc);
    'records: loop {
        let (index, byte) = items.place();
        let Some(item) = items.next()? else {
            let counts = RecordCounts::up_to(stream, table.header(), index);
            search.completeness.counts = Some(counts);
            return Ok(());
        };
        if selection.leaves_out_kind(item.raw_kind()) {
            continue 'records;
        }
        let place = ItemPlace {
            stream,
            byte: byte as u32,
        };
        line.begin(form);
        if !show_selected(alloc, &item, place, selection, search, &mut line)? {
            continue 'records;
        }
        write_line(&mut line, out)?;
    }
}

/// Writes a line for each type of the table in a stream that is selected, in the order of the table,
/// as `items` does. What was found is noted in the search, which begins with the names of the
/// selection. A name is found if a type has it, also if that isn't listed for another reason. A
/// record that can't be parsed is passed over where its name or what it refers to matters.
///
/// # Errors
/// Fails as `items` does.
pub fn select_types<W: Write>(
    alloc: Global,
    stream: Stream,
    number: u32,
    selection: &Selection<'_, '_>,
    search: &mut Search<'_, '_>,
    form: Form,
    out: &mut Output<W>,
) -> Result<()>
    ensures lists { ListsLines form out.old out.new result }
    ensures counts { OnOk result (AreCountedIn stream search.new.completeness.counts) }
{
    let types = learn_table(alloc, stream)?;
    search
        .used
        .find(alloc, &types, selection, &mut search.used_names)?;
    list_selected(alloc, types.items(), number, selection, search, form, out)
}

/// Writes a line for each id of the table in a stream that is selected, in the order of the table,
/// as `items` does, and notes what was found as `select_types` does.
///
/// # Errors
/// Fails as `items` does.
pub fn select_ids<W: Write>(
    alloc: Global,
    stream: Stream,
    number: u32,
    selection: &Selection<'_, '_>,
    search: &mut Search<'_, '_>,
    form: Form,
    out: &mut Output<W>,
) -> Result<()>
    ensures lists { ListsLines form out.old out.new result }
    ensures counts { OnOk result (AreCountedIn stream search.new.completeness.counts) }
{
    let table = IdInformation::parse(stream)?;
    list_selected(alloc, &table, number, selection, search, form, out)
}
