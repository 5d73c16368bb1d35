//! How the program ends.

ghost use Rattle.std.specs.Prelude.{◌↔◌, IsTrue};
ghost use Rattle.pdbdump_cli.specs.Served.{IsClosed, IsEnded, IsEndedAs};

use crate::sentences::tell;
use pdb_container::{Error, Result};
use pdb_output::Output;
use std::alloc::Global;
use std::io::{ErrorKind, Write};

/// Returns whether a fault is that the reader of the output has closed it.
pub(crate) fn is_closed(fault: &Error) -> bool
    ensures { IsTrue result ↔ IsClosed fault.now }
{
    match fault {
        Error::IoError(cause) => cause.kind() == ErrorKind::BrokenPipe,
        _ => false,
    }
}

/// Flushes the output, and returns the status with which the program ends: 1 after a fault, which
/// is written to the error channel; or 0 if there is none, or the output was closed.
pub(crate) fn end<O: Write, E: Write>(
    alloc: Global,
    listed: Result<()>,
    out: &mut Output<O>,
    err: &mut Output<E>,
) -> u8
    ensures { IsEnded listed out.old out.new err.old err.new result }
{
    match listed.and(out.flush()) {
        Ok(()) => 0,
        Err(fault) if is_closed(&fault) => 0,
        Err(fault) => tell(alloc, &fault, err),
    }
}

/// Ends the program behind what answers yes or no: as `end` does, but with status 1 for a no.
pub(crate) fn end_as<O: Write, E: Write>(
    alloc: Global,
    answer: Result<bool>,
    out: &mut Output<O>,
    err: &mut Output<E>,
) -> u8
    ensures { IsEndedAs answer out.old out.new err.old err.new result }
{
    match answer {
        Ok(true) => end(alloc, Ok(()), out, err),
        Ok(false) => {
            end(alloc, Ok(()), out, err);
            1
        }
        Err(fault) => end(alloc, Err(fault), out, err),
    }
}
