//! What is reported on standard error: a line for each error, with the file that it is about.

ghost use Rattle.std.specs.Prelude.{◌≡◌, ◌++◌, IfOk, OnOk};
ghost use Rattle.pdbdump_cli.specs.Reported.{IsAbout, front_of, named_front};

use crate::identified::other_format;
use crate::seen::Seen;
use bstr::ByteSlice;
use pdb_base::IO_ERROR_FRONT;
use pdb_output::Output;
use pdbdump_differences::Side;
use pdbdump_rows::{Form, push_text};
use std::alloc::{AllocError, Global};

/// What errors are about: the name of a file or of a channel, if it is one alone, and the form in
/// which they are reported.
#[derive(Clone, Copy)]
pub(crate) struct Subject<'n> {
    /// The name.
    pub name: Option<&'n str>,
    /// The form.
    pub form: Form,
}

/// The names of two files that are compared.
#[derive(Clone, Copy)]
pub(crate) struct Compared<'n> {
    /// The old one.
    pub old: &'n str,
    /// The new one.
    pub new: &'n str,
}

impl<'n> Compared<'n> {
    /// Returns the name of one of them.
    fn name(self, side: Side) -> &'n str {
        match side {
            Side::Old => self.old,
            Side::New => self.new,
        }
    }
}

/// The name of standard output.
const OUTPUT: &str = "standard output";

/// What the text of an error of the system has behind its words.
const NUMBER_FRONT: &[u8] = b" (os error ";

/// How the error is reported that an allocation failed.
const NO_MEMORY: &[u8] = b"OutOfMemory";

/// How the error is reported that a file ends before bytes that are wanted of it.
const ENDED: &[u8] = b"unexpected end of file";

/// How the error is reported that a file has another format, or ends within its header.
const NO_HEADER: &[u8] = b"not a program database of version 7.00";

/// What is told of a file that begins as a program database, and ends within its header.
const SHORT: &[u8] = b"too short for a program database";

/// What is told of an image begins so.
const IMAGE_FRONT: &[u8] = b"a program (PE)";

/// Appends what a line about a file or a channel begins with: the program, and the name.
#[tactic(auto, unfolding(crate::specs::Reported::named_front))]
fn push_named(form: Form, name: &str, line: &mut Vec<u8>) -> Result<(), AllocError>
    ensures { OnOk result (line.new.items ≡ line.old.items ++ named_front form name.now) }
{
    match form {
        Form::Text => {
            line.extend_from_slice(b"pdbdump: ")?;
            push_text(Form::Text, name.as_bytes(), line)?;
            line.extend_from_slice(b": ")
        }
        Form::Json => {
            line.extend_from_slice(b"{\"file\":\"")?;
            push_text(Form::Json, name.as_bytes(), line)?;
            line.extend_from_slice(b"\",")
        }
    }
}

/// Appends what the line of an error begins with.
fn push_front(subject: &Subject<'_>, line: &mut Vec<u8>) -> Result<(), AllocError>
    ensures { OnOk result (line.new.items ≡ line.old.items ++ front_of subject.now) }
{
    match (subject.name, subject.form) {
        (Some(name), form) => push_named(form, name, line),
        (None, Form::Text) => line.extend_from_slice(b"pdbdump: "),
        (None, Form::Json) => line.extend_from_slice(b"{"),
    }
}

/// Appends the text of an error, in JSON with its code, and ends the line.
fn push_error(form: Form, code: &str, text: &[u8], line: &mut Vec<u8>) -> Result<(), AllocError> {
    match form {
        Form::Text => {
            push_text(form, text, line)?;
            line.extend_from_slice(b"\n")
        }
        Form::Json => {
            line.extend_from_slice(b"\"error\":{\"code\":\"")?;
            line.extend_from_slice(code.as_bytes())?;
            line.extend_from_slice(b"\",\"text\":\"")?;
            push_text(form, text, line)?;
            line.extend_from_slice(b"\"}}\n")
        }
    }
}

/// Returns the line of an error.
pub(crate) fn error_line(
    alloc: Global,
    subject: &Subject<'_>,
    code: &str,
    text: &[u8],
) -> Result<Vec<u8>, AllocError>
    ensures { IfOk result (λ line. IsAbout subject.now line.items) }
{
    let mut line = Vec::new(alloc);
    push_front(subject, &mut line)?;
    let mut rest = Vec::new(alloc);
    push_error(subject.form, code, text, &mut rest)?;
    line.extend_from_slice(&rest)?;
    Ok(line)
}

/// Returns the text of an error of the system without the number of the error.
pub(crate) fn without_number(text: &[u8]) -> &[u8] {
    match text.find(NUMBER_FRONT) {
        Some(at) => text.get(..at).unwrap_or(text),
        None => text,
    }
}

/// Appends a number with a comma behind each thousand.
fn push_grouped(alloc: Global, number: u64, text: &mut Vec<u8>) -> Result<(), AllocError> {
    let digits = format!(in alloc; "{number}")?;
    let count = digits.len();
    for (place, digit) in digits.as_bytes().iter().enumerate() {
        if place > 0 && count.saturating_sub(place) % 3 == 0 {
            text.push(b',')?;
        }
        text.push(*digit)?;
    }
    Ok(())
}

/// Returns the text of the error that a file is shorter than its header says.
fn short_text(alloc: Global, size: u64, wanted: u64) -> Result<Vec<u8>, AllocError> {
    let mut text = Vec::from_slice(alloc, b"has ")?;
    push_grouped(alloc, size, &mut text)?;
    text.extend_from_slice(b" of the ")?;
    push_grouped(alloc, wanted, &mut text)?;
    text.extend_from_slice(b" bytes that its header counts")?;
    Ok(text)
}

/// What is reported while a file is served, without its name, and what is seen of it.
#[derive(Drop)]
pub(crate) struct Serving<'n> {
    /// What the reports are about.
    pub subject: Subject<'n>,
    /// The files that are compared, if two are, of which a report begins with the mark of the one
    /// that it is about.
    pub compared: Option<Compared<'n>>,
    /// What is seen of the file.
    pub seen: Seen,
    /// What is reported, a line each.
    pub reports: Output<Vec<u8>>,
}

impl<'n> Serving<'n> {
    /// Returns that nothing is reported yet.
    pub(crate) fn new(alloc: Global, name: Option<&'n str>, form: Form) -> Self {
        Serving {
            subject: Subject { name, form },
            compared: None,
            seen: Seen::nothing(alloc),
            reports: Output::new(Vec::new(alloc)),
        }
    }

    /// Returns that nothing is reported yet of two files that are compared.
    pub(crate) fn comparing(alloc: Global, compared: Compared<'n>, form: Form) -> Self {
        Serving {
            compared: Some(compared),
            ..Serving::new(alloc, None, form)
        }
    }
}

/// What was reported while a file was served, and what was seen of it.
#[derive(Clone, Copy)]
struct Reported<'r> {
    subject: Subject<'r>,
    compared: Option<Compared<'r>>,
    seen: &'r Seen,
    has_output_failed: bool,
}

impl Reported<'_> {
    /// Returns the line of an error of the system.
    fn system_line(&self, alloc: Global, cause: &[u8]) -> Result<Vec<u8>, AllocError> {
        let text = without_number(cause);
        if self.has_output_failed {
            let output = Subject {
                name: Some(OUTPUT),
                ..self.subject
            };
            return error_line(alloc, &output, "output", text);
        }
        error_line(alloc, &self.subject, "system", text)
    }

    /// Returns what the file is, if an error has its cause in that.
    fn other_format(&self, report: &[u8]) -> Option<&'static str> {
        let text = other_format(self.seen.format())?;
        let is_reported = report == NO_HEADER || report == text.as_bytes();
        if is_reported || self.seen.is_begun() {
            Some(text)
        } else {
            None
        }
    }

    /// Returns the line for an error of an image: which database it names, if that was read, or else
    /// what was reported.
    fn image_line(&self, alloc: Global, report: &[u8]) -> Result<Vec<u8>, AllocError> {
        let text = self.seen.image_text().unwrap_or(report);
        let code = if text.starts_with(IMAGE_FRONT) {
            "format"
        } else {
            "content"
        };
        error_line(alloc, &self.subject, code, text)
    }

    /// Returns the line for an error that was reported.
    fn line(&self, alloc: Global, report: &[u8]) -> Result<Vec<u8>, AllocError> {
        if let Some(cause) = report.strip_prefix(IO_ERROR_FRONT.as_bytes()) {
            return self.system_line(alloc, cause);
        }
        if report == NO_MEMORY {
            return error_line(alloc, &self.subject, "memory", b"out of memory");
        }
        if self.seen.is_image() {
            return self.image_line(alloc, report);
        }
        match self.other_format(report) {
            Some(format) => error_line(alloc, &self.subject, "format", format.as_bytes()),
            None if report == NO_HEADER => error_line(alloc, &self.subject, "content", SHORT),
            None => error_line(alloc, &self.subject, "content", report),
        }
    }

    /// Returns the line for an error that was reported, which may be about one of two files.
    fn line_of_one(&self, alloc: Global, report: &[u8]) -> Result<Vec<u8>, AllocError> {
        let (Some(compared), Some((side, text))) = (self.compared, Side::of_report(report)) else {
            return self.line(alloc, report);
        };
        let one = Reported {
            subject: Subject {
                name: Some(compared.name(side)),
                ..self.subject
            },
            ..*self
        };
        one.line(alloc, text)
    }

    /// Returns whether an error is reported by another line, which says that the file is short.
    fn is_length(&self, report: &[u8]) -> bool {
        self.seen.wanted_size().is_some() && (report.ends_with(ENDED) || report == NO_HEADER)
    }

    /// Returns the line that says that the file is shorter than its header says, if it is.
    fn length_line(&self, alloc: Global) -> Result<Vec<u8>, AllocError> {
        match self.seen.wanted_size() {
            Some(wanted) => {
                let text = short_text(alloc, self.seen.size(), wanted)?;
                error_line(alloc, &self.subject, "length", &text)
            }
            None => Ok(Vec::new(alloc)),
        }
    }
}

/// Returns the line that says that a file that was served is short, if it is, and the lines for the
/// errors that were reported, each with the file or the channel that it is about.
pub(crate) fn report_lines(
    alloc: Global,
    serving: Serving<'_>,
    has_output_failed: bool,
) -> Result<Vec<u8>, AllocError> {
    let Serving {
        subject,
        compared,
        seen,
        reports,
    } = serving;
    if reports.has_failed() {
        return Err(AllocError);
    }
    let reported = Reported {
        subject,
        compared,
        seen: &seen,
        has_output_failed,
    };
    let mut lines = reported.length_line(alloc)?;
    for report in reports.into_inner().split(|byte| *byte == b'\n') {
        if !report.is_empty() && !reported.is_length(report) {
            lines.extend_from_slice(&reported.line_of_one(alloc, report)?)?;
        }
    }
    Ok(lines)
}
