//! The names of string tables.

#![tactic(auto, using(pdbdump_rows::proofs::lemmas::Line::adding))]

ghost use Rattle.std.specs.Prelude.{◌≡◌};
ghost use Rattle.pdbdump_rows.specs.Line.{AddsRow};
ghost use Rattle.pdbdump_tables.specs.Listing.{IsListed, whole};
ghost use Rattle.pdbdump_tables.specs.Tables.{all_names, name_rows, placed_at, next_place};

use pdb_base::{RawString, Result};
use pdb_output::Output;
use pdb_space::{StringRef, StringTable};
use pdbdump_rows::{Form, Line, Value, write_line};
use std::alloc::Global;
use std::io::Write;

/// Returns the offset of the name after one with this offset and size, or None if it doesn't fit in
/// 32 bits.
fn next_place(place: u32, size: usize) -> Option<u32>
    ensures { result ≡ next_place place size }
{
    let size = u32::try_from(size).ok()?;
    place.checked_add(size)?.checked_add(1)
}

/// Adds the fields of a name: its offset and its text.
fn show_name(line: &mut Line, place: u32, name: RawString<'_>)
    ensures { AddsRow (placed_at place) line.old line.new }
{
    line.field("offset", Value::Hexadecimal(place));
    line.field("name", Value::Text(name));
}

/// Writes the names of a table, each with its offset.
pub(crate) fn write_table<W: Write>(
    alloc: Global,
    table: &StringTable,
    form: Form,
    out: &mut Output<W>,
) -> Result<()>
    ensures { IsListed form (whole (name_rows (all_names table.now))) out.old out.new result }
{
    let mut line = Line::new(alloc);
    let mut place = 0;
    for _ in 0..u32::MAX {
        let Ok(name) = table.get(StringRef(place)) else {
            return Ok(());
        };
        line.begin(form);
        show_name(&mut line, place, name);
        write_line(&mut line, out)?;
        let Some(next) = next_place(place, name.len()) else {
            return Ok(());
        };
        place = next;
    }
    Ok(())
}
