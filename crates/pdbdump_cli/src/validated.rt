//! What `validate` does with a file.

ghost use Rattle.std.specs.Prelude.{◌↔◌, map, IsTrue};
ghost use Rattle.pdb_validation.specs.Finding.{finding_view};
ghost use Rattle.pdbdump_cli.specs.Validated.{HasPassed, IsConcluded, IsValidatedIn};

use crate::command::ValidateOptions;
use crate::finding_lines::{counts_of, write_findings};
use crate::input_file::InputFile;
use crate::sentences::tell;
use crate::served::end;
use pdb_container::{Result, Source};
use pdb_output::Output;
use pdb_validation::{Finding, validate};
use pdbdump_rows::Form;
use std::alloc::Global;
use std::io::Write;

/// Returns whether there is no error among what was found, and no warning either where that counts
/// too.
fn has_passed(is_strict: bool, findings: &[Finding]) -> bool
    ensures { IsTrue result ↔ HasPassed is_strict (map finding_view findings.now) }
{
    let counts = counts_of(findings);
    counts.errors == 0 && (!is_strict || counts.warnings == 0)
}

/// Writes what was found in the file at a path, and returns the status with which the program ends,
/// which is 1 unless the file has passed.
fn conclude<O: Write, E: Write>(
    alloc: Global,
    options: ValidateOptions,
    form: Form,
    path: &str,
    findings: &[Finding],
    out: &mut Output<O>,
    err: &mut Output<E>,
) -> u8
    ensures { IsConcluded options form (map finding_view findings.now) out.old out.new err.old err.new result }
{
    let written = write_findings(alloc, options.is_quiet, form, path, findings, out);
    let status = end(alloc, written, out, err);
    if has_passed(options.is_strict, findings) {
        return status;
    }
    1
}

/// Writes what is found wrong in the file with a path. Returns the status with which the program
/// ends: 0 if there is no error, and no warning where that counts too; and 1 if there is, or after a
/// fault of the file or of a channel, which is written to the error channel, unless it is that the
/// output was closed.
pub(crate) fn judge<S: Source + Drop, O: Write, E: Write>(
    alloc: Global,
    options: ValidateOptions,
    form: Form,
    path: &str,
    file: InputFile<S>,
    out: &mut Output<O>,
    err: &mut Output<E>,
) -> u8
    ensures { IsValidatedIn options form (S.state file.source) out.old out.new err.old err.new result }
{
    match validate(alloc, file.source, options.extent) {
        Ok(findings) => conclude(alloc, options, form, path, &findings, out, err),
        Err(fault) => tell(alloc, &fault, err),
    }
}
