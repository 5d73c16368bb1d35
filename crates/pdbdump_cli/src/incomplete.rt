//! What is reported of a listing that isn't complete.

ghost use Rattle.std.specs.Prelude.{◌≡◌, Bool, false, IfOk, IsTrue, []};
ghost use Rattle.pdb_output.specs.Output.{OutputState};
ghost use Rattle.pdbdump_tables.specs.Counted.{CountsAgree};
ghost use Rattle.pdbdump_types.specs.Shown.{Accounts};

use pdb_output::Output;
use pdbdump_tables::{Completeness, RecordCounts};
use std::alloc::{AllocError, Global};
use std::io::Write;
use std::result;

/// What is reported if some records could not be parsed.
const UNREAD: &[u8] = b"not all records that are listed can be read\n";

/// What is reported if there is no memory for what else would be.
const NO_MEMORY: &[u8] = b"OutOfMemory\n";

/// Writes lines to the error channel.
fn report_line<E: Write>(lines: result::Result<Vec<u8>, AllocError>, err: &mut Output<E>)
    ensures { (start : OutputState) (whole : Bool) → Accounts start err.old whole → Accounts start err.new false }
{
    match lines {
        Ok(lines) => err.report(&lines),
        Err(_) => err.report(NO_MEMORY),
    }
}

/// Reports these lines, if there are some, and returns whether there are none.
pub(crate) fn report_lines<E: Write>(
    lines: result::Result<Vec<u8>, AllocError>,
    err: &mut Output<E>,
) -> bool
    ensures told { Accounts err.old err.new result }
    ensures none { IsTrue result → IfOk lines (λ bytes. bytes.items ≡ []) }
{
    match lines {
        Ok(lines) if lines.is_empty() => true,
        lines => {
            report_line(lines, err);
            false
        }
    }
}

/// Returns the line that says how many records a table has, and how many its header counts.
fn counts_line(alloc: Global, counts: RecordCounts) -> result::Result<Vec<u8>, AllocError> {
    let mut line = counts.sentence(alloc)?.into_bytes();
    line.push(b'\n')?;
    Ok(line)
}

/// Reports a table that has another number of records than its header counts, and returns whether
/// nothing was reported so far.
pub(crate) fn report_counts<E: Write>(
    alloc: Global,
    counts: Option<RecordCounts>,
    has_all: bool,
    err: &mut Output<E>,
) -> bool
    ensures told { (start : OutputState) → Accounts start err.old has_all → Accounts start err.new result }
    ensures kept { IsTrue result → IsTrue has_all }
    ensures agree { IsTrue result → CountsAgree counts }
{
    match counts {
        Some(counts) if !counts.agree() => {
            report_line(counts_line(alloc, counts), err);
            false
        }
        _ => has_all,
    }
}

/// Appends a line if some records could not be parsed that are listed.
pub(crate) fn push_unread(
    found: &Completeness,
    lines: &mut Vec<u8>,
) -> result::Result<(), AllocError> {
    if found.is_whole {
        return Ok(());
    }
    lines.extend_from_slice(UNREAD)
}

/// Returns a line if some records could not be parsed that are listed.
fn unread_line(alloc: Global, found: &Completeness) -> result::Result<Vec<u8>, AllocError> {
    let mut line = Vec::new(alloc);
    push_unread(found, &mut line)?;
    Ok(line)
}

/// Reports what a list of records lacks: that some could not be parsed, and that there are more or
/// fewer of them than the header counts. Returns whether nothing was reported.
pub(crate) fn report_list<E: Write>(
    alloc: Global,
    found: &Completeness,
    err: &mut Output<E>,
) -> bool
    ensures told { Accounts err.old err.new result }
    ensures agree { IsTrue result → CountsAgree found.now.counts }
{
    let has_read = report_lines(unread_line(alloc, found), err);
    report_counts(alloc, found.counts, has_read, err)
}

/// Reports what the tables in a summary lack: that there are more or fewer records than the header of
/// a table counts. Returns whether nothing was reported.
pub(crate) fn report_tables<E: Write>(
    alloc: Global,
    found: &Completeness,
    err: &mut Output<E>,
) -> bool
    ensures { Accounts err.old err.new result }
{
    let has_types = report_counts(alloc, found.counts, true, err);
    report_counts(alloc, found.id_counts, has_types, err)
}
