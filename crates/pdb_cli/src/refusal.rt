//! The line of an error.

ghost use Rattle.std.specs.Prelude.{IfOk};
ghost use Rattle.pdb_base.specs.Memory.{FailsOnlyForMemory};
ghost use Rattle.pdb_base.specs.Refusal.{refusal_of};
ghost use Rattle.pdb_cli.specs.Printed.{IsTextOf, IsLineOf};

use pdb_base::IO_ERROR_FRONT;
use pdb_container::{Error, Result};
use std::alloc::Global;
use std::io;

/// Returns the text of an I/O error: the library's words, and then the text of the cause.
fn io_error_text(alloc: Global, cause: &io::Error) -> Result<Vec<u8>>
    ensures ok { IfOk result (λ text. IsTextOf (refusal_of (Error.IoError cause.now)) text.items) }
    ensures memory { FailsOnlyForMemory result }
{
    let mut text = Vec::from_slice(alloc, IO_ERROR_FRONT.as_bytes())?;
    let own = format!(in alloc; "{cause}")?;
    text.extend_from_slice(own.as_bytes())?;
    Ok(text)
}

/// Returns the text of an error: the library's, and behind that of an I/O error the text of its cause.
///
/// # Errors
/// Fails if an allocation fails.
pub fn error_text(alloc: Global, error: &Error) -> Result<Vec<u8>>
    ensures ok { IfOk result (λ text. IsTextOf (refusal_of error.now) text.items) }
    ensures memory { FailsOnlyForMemory result }
{
    match error {
        Error::IoError(cause) => io_error_text(alloc, cause),
        error => Ok(format!(in alloc; "{error}")?.into_bytes()),
    }
}

/// Returns the text of an error as a line.
pub fn error_line(alloc: Global, error: &Error) -> Result<Vec<u8>>
    ensures ok { IfOk result (λ out. IsLineOf (refusal_of error.now) out.items) }
    ensures memory { FailsOnlyForMemory result }
{
    let mut line = error_text(alloc, error)?;
    line.push(b'\n')?;
    Ok(line)
}
