//! What `validate` writes of a file.

#![tactic(auto, using(pdbdump_rows::proofs::lemmas::Line::adding, pdbdump_rows::proofs::lemmas::Sink::adding_lines))]

ghost use Rattle.std.specs.Prelude.{◌≡◌, ◌≤◌, [], length, map};
ghost use Rattle.pdb_validation.specs.Finding.{error_count, finding_view, warning_count};
ghost use Rattle.pdbdump_rows.specs.{Line.AddsRow, Rows.WritesLines, Sink.AddsLines};
ghost use Rattle.pdbdump_cli.specs.Validated.{AreFindingsWritten};

use pdb_base::{Error, RawString, Result};
use pdb_output::Output;
use pdb_validation::{Finding, Problem};
use pdbdump_rows::{Field, Form, Line, Rows, Sheet, Value, error_text, optional_number};
use pdbdump_types::{TextBuffer, plural};
use std::alloc::{AllocError, Global};
use std::io::Write;
use std::result;

/// What is wrong with a file that has no header: it may be another one, or be cut.
const NO_HEADER: &[u8] =
    b"not a program database of version 7.00, or cut within its first 4,096 bytes";

/// Returns what is wrong, in words.
fn problem_text(alloc: Global, problem: &Problem) -> result::Result<Vec<u8>, AllocError> {
    match problem {
        Problem::Error(Error::UnrecognizedFileFormat) => Vec::from_slice(alloc, NO_HEADER),
        Problem::Error(error) => error_text(alloc, error),
        Problem::Inconsistent(_) => Ok(format!(in alloc; "{problem}")?.into_bytes()),
    }
}

/// Returns the code of a finding as text.
fn code_text(alloc: Global, finding: &Finding) -> result::Result<Vec<u8>, AllocError> {
    let code = finding.code();
    Ok(format!(in alloc; "{code}")?.into_bytes())
}

/// Returns the word for how severe a problem is.
fn severity(problem: &Problem) -> &'static str {
    if problem.is_warning() {
        return "warning";
    }
    "error"
}

/// Appends a label and a number behind it, if there is one.
fn push_labelled(alloc: Global, label: &str, number: Option<u64>, text: &mut TextBuffer) {
    if let Some(number) = number {
        text.push_string(format!(in alloc; "{label}0x{number:x}"));
    }
}

/// Appends where a fault is, as far as it has a place.
fn push_place(alloc: Global, finding: &Finding, text: &mut TextBuffer) {
    if let Some(stream) = finding.stream {
        text.push_string(format!(in alloc; " [stream {stream}"));
        push_labelled(alloc, " index ", finding.index, text);
        push_labelled(alloc, " byte ", finding.byte, text);
        push_labelled(alloc, ", file byte ", finding.file_byte, text);
        text.push(b"]");
    }
}

/// Appends the line of a finding as text.
fn push_finding(alloc: Global, path: &str, finding: &Finding, text: &mut TextBuffer) {
    text.push_escaped(path.as_bytes());
    text.push(b": ");
    text.push(severity(&finding.problem).as_bytes());
    text.push(b" ");
    text.push_made(code_text(alloc, finding));
    text.push(b": ");
    text.push_made(problem_text(alloc, &finding.problem));
    push_place(alloc, finding, text);
    text.push(b"\n");
}

/// Returns the value of the index or the byte of a record, or `Absent` if there is none.
fn number_value<'t>(number: Option<u64>) -> Value<'t> {
    match number {
        Some(number) => Value::Number(number),
        None => Value::Absent,
    }
}

/// Returns the fields of the place of a finding.
fn place_fields(finding: &Finding) -> [Field<'static>; 4] {
    [
        ("stream", optional_number(finding.stream)),
        ("index", number_value(finding.index)),
        ("byte", number_value(finding.byte)),
        ("file_byte", number_value(finding.file_byte)),
    ]
}

/// Adds what is told of a finding in the file at a path.
fn show_finding(alloc: Global, line: &mut Line, path: &str, finding: &Finding)
    ensures { AddsRow [] line.old line.new }
{
    line.field("file", Value::Text(RawString::from(path)));
    line.field("severity", Value::Word(severity(&finding.problem)));
    line.made_text("code", code_text(alloc, finding));
    line.field("part", Value::Word(finding.part.code()));
    line.fields(&place_fields(finding));
    line.made_text("problem", problem_text(alloc, &finding.problem));
}

/// Writes the row of a finding in the file at a path.
fn write_finding<W: Write>(rows: &mut Rows<'_, W>, path: &str, finding: &Finding)
    ensures { AddsLines rows.old rows.new }
{
    let alloc = rows.alloc();
    rows.begin();
    show_finding(alloc, &mut rows.sheet.line, path, finding);
    rows.end();
}

/// How many errors and warnings were found in a file.
#[derive(Clone, Copy)]
pub(crate) struct Tally {
    pub(crate) errors: usize,
    pub(crate) warnings: usize,
}

/// Returns how many of some findings are warnings.
#[tactic(auto, using(crate::proofs::ValidateLemmas::warnings_more))]
fn warning_count(findings: &[Finding]) -> usize
    ensures count { result ≡ warning_count (map finding_view findings.now) }
    ensures few { result ≤ length findings.now }
{
    let mut count = 0;
    for finding in findings {
        if finding.problem.is_warning() {
            count += 1;
        }
    }
    count
}

/// Returns how many errors and warnings there are among some findings.
pub(crate) fn counts_of(findings: &[Finding]) -> Tally
    ensures errors { result.errors ≡ error_count (map finding_view findings.now) }
    ensures warnings { result.warnings ≡ warning_count (map finding_view findings.now) }
{
    let warnings = warning_count(findings);
    Tally {
        errors: findings.len() - warnings,
        warnings,
    }
}

/// Appends the line of a file in which so much was found, as text.
fn push_file(alloc: Global, path: &str, tally: Tally, text: &mut TextBuffer) {
    let Tally { errors, warnings } = tally;
    text.push_escaped(path.as_bytes());
    text.push(b": ");
    text.push(whole_text(tally).as_bytes());
    if errors > 0 || warnings > 0 {
        let (error_end, warning_end) = (plural(errors as u64), plural(warnings as u64));
        text.push_string(format!(in alloc;
            ": {errors} error{error_end}, {warnings} warning{warning_end}"
        ));
    }
    text.push(b"\n");
}

/// Returns whether a file in which so much was found is whole, in words, and what of it is read.
fn whole_text(tally: Tally) -> &'static str {
    if tally.errors == 0 {
        return "whole (types, ids, names, sections, addresses, frames; modules and symbols are not read)";
    }
    "not whole"
}

/// Writes the row of a file in which so much was found.
fn write_file<W: Write>(rows: &mut Rows<'_, W>, path: &str, tally: Tally)
    ensures { AddsLines rows.old rows.new }
{
    rows.row(&[
        ("file", Value::Text(RawString::from(path))),
        ("whole", Value::Flag(tally.errors == 0)),
        ("errors", Value::Number(tally.errors as u64)),
        ("warnings", Value::Number(tally.warnings as u64)),
    ]);
}

/// Returns the lines of what was found in a file, and that of the file behind them, as text.
fn text_lines(
    alloc: Global,
    path: &str,
    findings: &[Finding],
) -> result::Result<Vec<u8>, AllocError> {
    let mut text = TextBuffer::new(alloc);
    for finding in findings {
        push_finding(alloc, path, finding, &mut text);
    }
    push_file(alloc, path, counts_of(findings), &mut text);
    text.finish()
}

/// Writes the rows of what was found in a file, and that of the file behind them.
fn write_rows<W: Write>(
    alloc: Global,
    path: &str,
    findings: &[Finding],
    out: &mut Output<W>,
) -> Result<()>
    ensures { WritesLines Form.Json out.old out.new result }
{
    let mut sheet = Sheet::new(alloc, Form::Json);
    let mut rows = Rows::new(&mut sheet, out);
    for finding in findings {
        write_finding(&mut rows, path, finding);
    }
    write_file(&mut rows, path, counts_of(findings));
    rows.finish()
}

/// Writes a line for each thing that was found in the file at a path, and one for the file; or
/// nothing, if only the status is wanted.
pub(crate) fn write_findings<W: Write>(
    alloc: Global,
    is_quiet: bool,
    form: Form,
    path: &str,
    findings: &[Finding],
    out: &mut Output<W>,
) -> Result<()>
    ensures { AreFindingsWritten is_quiet form out.old out.new result }
{
    match form {
        _ if is_quiet => Ok(()),
        Form::Text => {
            let lines = text_lines(alloc, path, findings)?;
            out.write(&lines)
        }
        Form::Json => write_rows(alloc, path, findings, out),
    }
}
