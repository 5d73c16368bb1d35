//! The definitions that differ between two tables of types.

ghost use Rattle.std.specs.Prelude.{◌≡◌, IfOk, OnOk};
ghost use Rattle.pdbdump_differences.specs.Compared.{Compares, IsCompared, found};
ghost use Rattle.pdbdump_types.specs.Shown.{StaysAccounted};

use crate::compared_table::ComparedTable;
use crate::fault::Fault;
use crate::options::DiffOptions;
use crate::pairing::Pairing;
use crate::side::Side;
use crate::tables::Tables;
use pdb_base::Error;
use pdb_output::Output;
use pdbdump_rows::{Form, error_text};
use pdbdump_types::{Progress, TextBuffer, tell_line, write_layout};
use std::alloc::{AllocError, Global};
use std::io::Write;

/// What was found of two tables.
#[derive(Clone, Copy, Debug, PartialEq, Eq)]
pub enum Outcome {
    /// Nothing differs.
    Equal,

    /// Something differs.
    Different,

    /// Not all could be compared, which was reported.
    Incomplete,
}

/// What a report about a name begins with that means nothing.
const NO_NAME: &[u8] = b"no type that either file defines is named ";

/// Reports why it can't be said what became of a definition.
fn tell_change<E: Write>(
    alloc: Global,
    fault: &Fault,
    progress: &mut Progress,
    err: &mut Output<E>,
) -> Result<(), Error>
    ensures accounted { OnOk result (StaysAccounted progress.old progress.new err.old err.new) }
    ensures shown { progress.new.has_shown ≡ progress.old.has_shown }
{
    if let Error::OutOfMemory = fault.error {
        return Err(Error::OutOfMemory);
    }
    let number = fault.subject.index.0;
    let mut line = TextBuffer::new(alloc);
    line.push(fault.subject.side.mark());
    line.push_string(format!(in alloc; "0x{number:x}: "));
    line.push_made(error_text(alloc, &fault.error));
    tell_line(line, progress, err)
}

/// Writes what became of a definition, or reports why that can't be said.
fn write_change<O: Write, E: Write>(
    alloc: Global,
    change: Result<Option<Vec<u8>>, Fault>,
    form: Form,
    progress: &mut Progress,
    out: &mut Output<O>,
    err: &mut Output<E>,
) -> Result<(), Error>
    ensures { OnOk result (Compares progress.old progress.new out.old out.new err.old err.new) }
{
    match change {
        Ok(Some(text)) => write_layout(&text, form, progress, out),
        Ok(None) => Ok(()),
        Err(fault) => tell_change(alloc, &fault, progress, err),
    }
}

/// Shows the definitions of the old table that went or changed.
fn show_changes<O: Write, E: Write>(
    alloc: Global,
    tables: &mut Tables<'_, '_>,
    options: &DiffOptions,
    progress: &mut Progress,
    out: &mut Output<O>,
    err: &mut Output<E>,
) -> Result<(), Error>
    ensures { OnOk result (Compares progress.old progress.new out.old out.new err.old err.new) }
{
    let old = tables.old;
    for (number, index) in old.wanted.iter().enumerate() {
        let records = &mut progress.records;
        let change = tables.change_of(alloc, number, *index, options, records, &mut progress.texts);
        write_change(alloc, change, options.form, progress, out, err)?;
        if progress.records.is_spent() {
            return Ok(());
        }
    }
    Ok(())
}

/// Shows the definitions of the new table that came.
fn show_arrivals<O: Write, E: Write>(
    alloc: Global,
    tables: &Tables<'_, '_>,
    form: Form,
    progress: &mut Progress,
    out: &mut Output<O>,
    err: &mut Output<E>,
) -> Result<(), Error>
    ensures { OnOk result (Compares progress.old progress.new out.old out.new err.old err.new) }
{
    for (number, index) in tables.new.wanted.iter().enumerate() {
        let change = tables.arrival_of(alloc, number, *index, form, &mut progress.texts);
        write_change(alloc, change, form, progress, out, err)?;
    }
    Ok(())
}

/// Returns whether no definition of either table has a name. A definition that can't be read has
/// none.
fn is_unknown(
    alloc: Global,
    old: &ComparedTable<'_>,
    new: &ComparedTable<'_>,
    name: &str,
) -> Result<bool, AllocError> {
    Ok(!old.has(alloc, name)? && !new.has(alloc, name)?)
}

/// Reports a name if no definition of either table has it.
fn tell_if_unknown<E: Write>(
    alloc: Global,
    old: &ComparedTable<'_>,
    new: &ComparedTable<'_>,
    name: &str,
    progress: &mut Progress,
    err: &mut Output<E>,
) -> Result<(), Error>
    ensures accounted { OnOk result (StaysAccounted progress.old progress.new err.old err.new) }
    ensures shown { progress.new.has_shown ≡ progress.old.has_shown }
{
    if is_unknown(alloc, old, new, name)? {
        let mut line = TextBuffer::new(alloc);
        line.push(NO_NAME);
        line.push_escaped(name.as_bytes());
        return tell_line(line, progress, err);
    }
    Ok(())
}

/// Reports each name that no definition of either table has.
fn tell_unknown<E: Write>(
    alloc: Global,
    old: &ComparedTable<'_>,
    new: &ComparedTable<'_>,
    names: &[&str],
    progress: &mut Progress,
    err: &mut Output<E>,
) -> Result<(), Error>
    ensures accounted { OnOk result (StaysAccounted progress.old progress.new err.old err.new) }
    ensures shown { progress.new.has_shown ≡ progress.old.has_shown }
{
    for name in names {
        tell_if_unknown(alloc, old, new, name, progress, err)?;
    }
    Ok(())
}

/// Reports what is left out of a comparison: each name that no definition of either table has, and
/// the records of each table that may define a type and that can't be read.
fn tell_missing<E: Write>(
    alloc: Global,
    old: &ComparedTable<'_>,
    new: &ComparedTable<'_>,
    names: &[&str],
    progress: &mut Progress,
    err: &mut Output<E>,
) -> Result<(), Error>
    ensures accounted { OnOk result (StaysAccounted progress.old progress.new err.old err.new) }
    ensures shown { progress.new.has_shown ≡ progress.old.has_shown }
{
    tell_unknown(alloc, old, new, names, progress, err)?;
    old.unread.tell(alloc, Side::Old.mark(), progress, err)?;
    new.unread.tell(alloc, Side::New.mark(), progress, err)
}

/// Returns what was found.
fn outcome_of(progress: Progress) -> Outcome
    ensures { result ≡ found progress.has_shown progress.is_whole }
{
    if !progress.is_whole {
        Outcome::Incomplete
    } else if progress.has_shown {
        Outcome::Different
    } else {
        Outcome::Equal
    }
}

/// Compares the classes, unions and enumerations that two tables define and whose names are wanted.
/// Writes those that went, changed or came, with the parts that differ.
///
/// Definitions are paired by their names: the unique one if there is one, and where several have a
/// name the first with the first, and so on. What can't be read is reported on the error channel
/// behind the mark of its file (`Side::mark`), and so is, without a mark, each name that was given
/// and that no definition has.
///
/// # Errors
/// Fails with `IoError` if the output fails, and with `OutOfMemory` if an allocation fails.
pub fn show_differences<O: Write, E: Write>(
    alloc: Global,
    old: &ComparedTable<'_>,
    new: &ComparedTable<'_>,
    names: &[&str],
    options: &DiffOptions,
    out: &mut Output<O>,
    err: &mut Output<E>,
) -> Result<Outcome, Error>
    ensures { IfOk result (IsCompared out.old out.new err.old err.new) }
{
    let mut progress = Progress::new(old.bytes.saturating_add(new.bytes));
    tell_missing(alloc, old, new, names, &mut progress, err)?;
    let mut tables = Tables {
        old,
        new,
        pairing: Pairing::of(alloc, &old.hashes, &new.hashes)?,
    };
    show_changes(alloc, &mut tables, options, &mut progress, out, err)?;
    show_arrivals(alloc, &tables, options.form, &mut progress, out, err)?;
    Ok(outcome_of(progress))
}
