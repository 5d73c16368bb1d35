//! What `diff` does with two files.

ghost use Rattle.std.specs.Prelude.{◌≡◌, ◌≢◌};
ghost use Rattle.pdbdump_cli.specs.Diffed.{IsEqualEnd, IsSilentEnd};

use crate::command::Diff;
use crate::sentences::tell;
use crate::served::is_closed;
use pdb_base::{Stream, TypeIndex};
use pdb_container::{Error, Result};
use pdb_output::Output;
use pdb_tpi::OpenTable;
use pdbdump_differences::{ComparedTable, DiffOptions, Outcome, Side, show_differences};
use pdbdump_rows::Form;
use pdbdump_types::learn_table;
use std::alloc::Global;
use std::io::Write;

/// The status if something differs.
const DIFFERENT: u8 = 1;

/// The status if not all could be compared.
const INCOMPLETE: u8 = 2;

/// Reports why one of both files can't be compared, and returns the status with which the program ends.
pub(crate) fn refuse<E: Write>(alloc: Global, side: Side, fault: &Error, err: &mut Output<E>) -> u8
    ensures { result ≡ INCOMPLETE }
{
    err.report(side.mark());
    tell(alloc, fault, err);
    INCOMPLETE
}

/// Reports why not all could be compared or written, unless it is that the output was closed, and
/// returns the status with which the program ends.
fn tell_unwritten<E: Write>(alloc: Global, fault: &Error, err: &mut Output<E>) -> u8
    ensures { result ≢ 0 }
{
    if is_closed(fault) {
        return DIFFERENT;
    }
    tell(alloc, fault, err);
    INCOMPLETE
}

/// Flushes the output, and returns the status with which the program ends. If the reader of the
/// output has closed it, something differs, since nothing else is written.
fn end_diff<O: Write, E: Write>(
    alloc: Global,
    compared: Result<Outcome>,
    out: &mut Output<O>,
    err: &mut Output<E>,
) -> u8
    ensures { result ≡ 0 → IsEqualEnd compared out.old out.new err.old err.new }
{
    let flushed = out.flush();
    let outcome = match compared {
        Ok(outcome) => outcome,
        Err(fault) => return tell_unwritten(alloc, &fault, err),
    };
    match flushed {
        Ok(()) => match outcome {
            Outcome::Equal => 0,
            Outcome::Different => DIFFERENT,
            Outcome::Incomplete => INCOMPLETE,
        },
        Err(fault) => tell_unwritten(alloc, &fault, err),
    }
}

/// Compares two tables of types. Returns the status with which the program ends: 0 if nothing
/// differs, 1 if something does, and 2 if not all could be compared or written, which is reported.
fn compare<O: Write, E: Write>(
    alloc: Global,
    asked: &Diff<'_, '_>,
    old: &OpenTable<TypeIndex>,
    new: &OpenTable<TypeIndex>,
    form: Form,
    out: &mut Output<O>,
    err: &mut Output<E>,
) -> u8
    ensures { result ≡ 0 → IsSilentEnd out.old out.new err.old err.new }
{
    let old = match ComparedTable::new(alloc, old, asked.names) {
        Ok(table) => table,
        Err(fault) => return refuse(alloc, Side::Old, &fault, err),
    };
    let new = match ComparedTable::new(alloc, new, asked.names) {
        Ok(table) => table,
        Err(fault) => return refuse(alloc, Side::New, &fault, err),
    };
    let options = DiffOptions {
        is_layout_only: asked.is_layout_only,
        form,
    };
    let compared = show_differences(alloc, &old, &new, asked.names, &options, out, err);
    end_diff(alloc, compared, out, err)
}

/// Compares the types in two streams, that of the old and that of the new file, and returns the
/// status as `compare` does.
pub(crate) fn serve_diff<O: Write, E: Write>(
    alloc: Global,
    asked: &Diff<'_, '_>,
    old: Stream,
    new: Stream,
    form: Form,
    out: &mut Output<O>,
    err: &mut Output<E>,
) -> u8
    ensures { result ≡ 0 → IsSilentEnd out.old out.new err.old err.new }
{
    let old = match learn_table(alloc, old) {
        Ok(types) => types,
        Err(fault) => return refuse(alloc, Side::Old, &fault, err),
    };
    let new = match learn_table(alloc, new) {
        Ok(types) => types,
        Err(fault) => return refuse(alloc, Side::New, &fault, err),
    };
    compare(alloc, asked, &old, &new, form, out, err)
}
