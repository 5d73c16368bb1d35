//! The program on the channels of its process.

use crate::addressed::Places;
use crate::arguments::parse;
use crate::asking::serve_questions;
use crate::calls::{Misuse, check_call, diff_of, form_of, place_request, request_of, with_command};
use crate::command::{Diff, Matching, Request};
use crate::diffed::serve_diff;
use crate::identified::no_image_text;
use crate::image_identified::{image_in, image_text};
use crate::input_file::{FileBytes, InputFile};
use crate::laid_out::type_stream;
use crate::reports::{Compared, Serving, Subject, error_line, report_lines, without_number};
use crate::request::serve;
use crate::seen::{FRONT_SIZE, Seen, Watched};
use crate::selection_calls::{selected, selecting};
use crate::sentences::tell;
use clap::ArgMatches;
use clap::error::ErrorKind as ParseErrorKind;
use pdb_base::Stream;
use pdb_cli::{Errors, texts_of, words_of};
use pdb_container::{Error, FileSource, Result, Source, SourceView};
use pdb_file::CodeView;
use pdb_msf::SeekFile;
use pdb_output::Output;
use pdbdump_rows::{Form, push_text};
use std::alloc::{AllocError, Global};
use std::io::{BufWriter, ErrorKind, Read, Seek, SeekFrom};
use std::rt::{Env, Files};
use std::{env, fs, io};

/// The number of bytes of output that are gathered before they are written.
const BUFFER_SIZE: usize = 65_536;

/// The status of a call after an error.
const FAILED: u8 = 1;

/// The status of a call whose arguments are wrong, or of a comparison that is not complete.
const MISUSED: u8 = 2;

/// What is reported if there is no memory for another report.
const NO_MEMORY: &[u8] = b"pdbdump: out of memory\n";

/// How the text of a usage error ends, as those of `clap` do.
const TRY_HELP: &str = "For more information, try '--help'.\n";

/// What is wrong with a number.
const NO_NUMBER: &str = "no number from 0 to 4294967295, in decimal or in hexadecimal after 0x";

/// What is wrong with a key.
const NO_KEY: &str = "no key of 32 hexadecimal digits of the GUID and 1 to 8 of the age";

/// A file that a process has opened.
type ProcessFile<F> = InputFile<FileBytes<FileSource<SeekFile<F>>>>;

/// Writes lines to standard error, or that there is no memory for them.
fn write_lines<P: Eprint>(process: &P, lines: std::result::Result<Vec<u8>, AllocError>) {
    let mut err = Output::new(Errors { process });
    match lines {
        Ok(lines) => err.report(&lines),
        Err(_) => err.report(NO_MEMORY),
    }
}

/// Reports an error of the system about a file or a channel.
fn report_cause<P: Eprint + AllocGlobal>(process: &P, subject: &Subject<'_>, cause: &io::Error) {
    let alloc = process.alloc();
    let line = match format!(in alloc; "{cause}") {
        Ok(text) => error_line(alloc, subject, "system", without_number(text.as_bytes())),
        Err(error) => Err(error),
    };
    write_lines(process, line);
}

/// Ends a call that only prints a text, which was printed or not.
fn end_print<P: Eprint + AllocGlobal>(process: &P, printed: io::Result<()>) -> u8 {
    match printed {
        Err(cause) if cause.kind() != ErrorKind::BrokenPipe => {
            let subject = Subject {
                name: Some("standard output"),
                form: Form::Text,
            };
            report_cause(process, &subject, &cause);
            FAILED
        }
        _ => 0,
    }
}

/// Returns arguments with an escape for each character that isn't seen.
fn escaped(alloc: Global, words: &[&str]) -> Result<Vec<String>> {
    let mut all = Vec::with_capacity(alloc, words.len())?;
    for word in words {
        let mut text = Vec::new(alloc);
        push_text(Form::Text, word.as_bytes(), &mut text)?;
        all.push(String::from_utf8_lossy(alloc, &text)?)?;
    }
    Ok(all)
}

/// Writes to standard error why arguments are wrong, and returns the status, which is the same if
/// standard error fails. The arguments are parsed again, with escapes, so that no character of
/// theirs is hidden in the text.
fn report_usage<P: Eprint + AllocGlobal>(process: &P, words: &[&str]) -> Result<u8> {
    let escaped = escaped(process.alloc(), words)?;
    let texts = texts_of(process.alloc(), &escaped)?;
    if let Err(error) = parse(process.alloc(), &texts) {
        let _ = eprint!(process; "{error}");
    }
    Ok(MISUSED)
}

/// Ends a call whose arguments were not parsed: it prints the help or the version, or reports what
/// is wrong.
fn end_unparsed<P: Print + Eprint + AllocGlobal>(
    process: &P,
    words: &[&str],
    error: &clap::Error,
) -> Result<u8> {
    match error.kind() {
        ParseErrorKind::DisplayHelp | ParseErrorKind::DisplayVersion => {
            Ok(end_print(process, print!(process; "{error}")))
        }
        ParseErrorKind::OutOfMemory => Err(Error::OutOfMemory),
        _ => report_usage(process, words),
    }
}

/// Returns the text of what is wrong with an argument that the parser took.
fn misuse_text(alloc: Global, misuse: Misuse<'_>) -> Result<String> {
    let (text, option, name, reason) = match misuse {
        Misuse::NoNumber { text, option, name } => (text, option, name, NO_NUMBER),
        Misuse::NoKey(text) => (text, Some("expect"), "KEY", NO_KEY),
        Misuse::InputTwice => {
            return Ok(String::from_str(alloc, "standard input would be read twice")?);
        }
        Misuse::LongPattern => {
            return Ok(String::from_str(alloc, "a name with '*' or '?' has at most 1,000 bytes")?);
        }
        Misuse::Beside(option, "NAME") => {
            return Ok(format!(in alloc;
                "the argument '--{option}' cannot be used with '[NAME]...'"
            )?);
        }
        Misuse::Beside(option, other) => {
            return Ok(format!(in alloc;
                "the argument '--{option}' cannot be used with '--{other}'"
            )?);
        }
    };
    let mut shown = Vec::new(alloc);
    push_text(Form::Text, text.as_bytes(), &mut shown)?;
    let shown = String::from_utf8_lossy(alloc, &shown)?;
    let argument = match option {
        Some(option) => format!(in alloc; "--{option} <{name}>")?,
        None => format!(in alloc; "<{name}>")?,
    };
    Ok(format!(in alloc; "invalid value '{shown}' for '{argument}': {reason}")?)
}

/// Reports what is wrong with an argument that the parser took.
fn report_misuse<P: Eprint + AllocGlobal>(process: &P, misuse: Misuse<'_>) -> Result<u8> {
    let text = misuse_text(process.alloc(), misuse)?;
    let _ = eprint!(process; "error: {text}\n\n{TRY_HELP}");
    Ok(MISUSED)
}

/// Returns the size of a file that can be sought and tells one. Any other is read whole, from its
/// start: a pipe can't be sought, and a device has no size.
fn told_size<F: Seek>(file: &mut F) -> Option<u64> {
    match file.seek(SeekFrom::End(0)) {
        Ok(size) if size > 0 => Some(size),
        _ => None,
    }
}

/// Writes to standard error what was reported while a file was served, with its name.
fn report<P: Eprint + AllocGlobal>(process: &P, serving: Serving<'_>, has_output_failed: bool) {
    let lines = report_lines(process.alloc(), serving, has_output_failed);
    write_lines(process, lines);
}

/// Returns the file in an input, which is read whole, and whose first bytes are seen.
fn whole_file<R: Read + Drop, S: Source + Drop>(
    alloc: Global,
    input: R,
    seen: &mut Seen,
) -> Result<InputFile<FileBytes<S>>> {
    let mut input = Watched::new(alloc, input);
    let file = InputFile::read_whole(alloc, &mut input);
    *seen = input.into_seen();
    file
}

/// Opens the file at a path, or reads the one in standard input if the path is `-`. Its first bytes
/// are seen.
fn open_file<P: Files + Input + AllocGlobal>(
    process: &P,
    path: &str,
    seen: &mut Seen,
) -> Result<ProcessFile<P::File>> {
    let alloc = process.alloc();
    if path == "-" {
        return whole_file(alloc, process.reader(), seen);
    }
    let mut input = fs::open(process, path)?;
    let Some(size) = told_size(&mut input) else {
        return whole_file(alloc, input, seen);
    };
    let source = FileBytes::Stored(FileSource::new(SeekFile::new(input))?);
    let mut file = InputFile { source, size };
    let front = file.front(alloc, FRONT_SIZE as u64)?;
    seen.add_file(front.as_slice(), size)?;
    Ok(file)
}

/// Opens a file as `open_file` does, for a command that reads program databases: an image is
/// refused, and it is seen which database it names.
fn open_database<P: Files + Input + AllocGlobal>(
    process: &P,
    path: &str,
    seen: &mut Seen,
) -> Result<ProcessFile<P::File>> {
    let file = open_file(process, path, seen)?;
    if seen.is_image() {
        seen.set_image_text(image_text(process.alloc(), file.source)?);
        return Err(Error::UnrecognizedFileFormat);
    }
    Ok(file)
}

/// Opens a file for a request, of which one takes images too.
fn open_for<P: Files + Input + AllocGlobal>(
    process: &P,
    path: &str,
    request: &Request<'_, '_>,
    seen: &mut Seen,
) -> Result<ProcessFile<P::File>> {
    match request {
        Request::Identify(_) => open_file(process, path, seen),
        _ => open_database(process, path, seen),
    }
}

/// Serves a request for the file at a path, or for the one in standard input if the path is `-`, and
/// reports errors with the name of the file. The status is not 0 if the file is shorter than its
/// header says.
fn serve_file<P: Files + Input + Print + Eprint + AllocGlobal>(
    process: &P,
    path: &str,
    request: &Request<'_, '_>,
    form: Form,
) -> Result<u8> {
    let alloc = process.alloc();
    let buffer = BufWriter::with_capacity(alloc, BUFFER_SIZE, io::writer(process))?;
    let mut out = Output::new(buffer);
    let mut serving = Serving::new(alloc, Some(path), form);
    let file = open_for(process, path, request, &mut serving.seen);
    let status = serve(alloc, request, form, file, &mut out, &mut serving.reports);
    if matches!(request, Request::Validate(..)) && !serving.seen.is_image() {
        // What is wrong with the length is among the findings.
        serving.seen = Seen::nothing(alloc);
    }
    let least = if serving.seen.wanted_size().is_some() {
        FAILED
    } else {
        0
    };
    report(process, serving, out.has_failed());
    Ok(status.max(least))
}

/// Answers the questions on standard input about the file at a path.
fn answer_questions<P: Files + Input + Print + Eprint + AllocGlobal>(
    process: &P,
    path: &str,
    form: Form,
) -> Result<u8> {
    let alloc = process.alloc();
    let buffer = BufWriter::with_capacity(alloc, BUFFER_SIZE, io::writer(process))?;
    let mut out = Output::new(buffer);
    let mut serving = Serving::new(alloc, Some(path), form);
    let mut questions = process.reader();
    let file = open_database(process, path, &mut serving.seen);
    let reports = &mut serving.reports;
    let status = serve_questions(alloc, form, file, &mut questions, &mut out, reports);
    report(process, serving, out.has_failed());
    Ok(status)
}

/// Returns the stream of types of the file at a path, or of the one in standard input if the path is
/// `-`.
fn types_at<P: Files + Input + AllocGlobal>(
    process: &P,
    path: &str,
    seen: &mut Seen,
) -> Result<Stream> {
    let file = open_database(process, path, seen)?;
    type_stream(process.alloc(), file.source)
}

/// Returns the stream of types as `types_at` does, or reports why it can't be read.
fn types_or_report<P: Files + Input + Eprint + AllocGlobal>(
    process: &P,
    path: &str,
    form: Form,
) -> Option<Stream> {
    let mut serving = Serving::new(process.alloc(), Some(path), form);
    match types_at(process, path, &mut serving.seen) {
        Ok(stream) => Some(stream),
        Err(fault) => {
            tell(process.alloc(), &fault, &mut serving.reports);
            report(process, serving, false);
            None
        }
    }
}

/// Compares the types of two files.
fn compare_files<P: Files + Input + Print + Eprint + AllocGlobal>(
    process: &P,
    asked: &Diff<'_, '_>,
    form: Form,
) -> Result<u8> {
    let alloc = process.alloc();
    let buffer = BufWriter::with_capacity(alloc, BUFFER_SIZE, io::writer(process))?;
    let mut out = Output::new(buffer);
    let Some(old) = types_or_report(process, asked.old, form) else {
        return Ok(MISUSED);
    };
    let Some(new) = types_or_report(process, asked.new, form) else {
        return Ok(MISUSED);
    };
    // Each report says itself which of both files it is about.
    let compared = Compared {
        old: asked.old,
        new: asked.new,
    };
    let mut serving = Serving::comparing(alloc, compared, form);
    let status = serve_diff(alloc, asked, old, new, form, &mut out, &mut serving.reports);
    report(process, serving, out.has_failed());
    Ok(status)
}

/// Returns what the image at a path, or in standard input if the path is `-`, says of its database,
/// or reports why it names none.
fn image_or_report<P: Files + Input + Eprint + AllocGlobal>(
    process: &P,
    path: &str,
    form: Form,
) -> Option<CodeView> {
    let alloc = process.alloc();
    let mut serving = Serving::new(alloc, Some(path), form);
    let read = match open_file(process, path, &mut serving.seen) {
        Ok(file) if serving.seen.is_image() => image_in(alloc, file.source),
        Ok(_) => {
            let text = no_image_text(serving.seen.format());
            let line = error_line(alloc, &serving.subject, "format", text.as_bytes());
            write_lines(process, line);
            return None;
        }
        Err(fault) => Err(fault),
    };
    match read {
        Ok(Ok(image)) => return Some(image),
        Ok(Err(text)) => serving.reports.report(text.as_bytes()),
        Err(fault) => {
            tell(alloc, &fault, &mut serving.reports);
        }
    }
    report(process, serving, false);
    None
}

/// Compares files with what an image names, and returns the highest status of the files.
fn match_files<P: Files + Input + Print + Eprint + AllocGlobal>(
    process: &P,
    matches: &ArgMatches<'_>,
    form: Form,
) -> Result<u8> {
    let image_path = matches.get_str("IMAGE").unwrap_or("");
    let Some(image) = image_or_report(process, image_path, form) else {
        return Ok(FAILED);
    };
    let mut status = 0;
    for path in matches.get_strs("FILE").unwrap_or(&[]) {
        let request = Request::Match(Matching {
            image_path,
            image: &image,
            path,
        });
        status = status.max(serve_file(process, path, &request, form)?);
    }
    Ok(status)
}

/// Compares the types of two files, and returns the status.
fn compare<P: Files + Input + Print + Eprint + AllocGlobal>(
    process: &P,
    matches: &ArgMatches<'_>,
    form: Form,
) -> Result<u8> {
    let names = matches.get_strs("NAME").unwrap_or(&[]);
    compare_files(process, &diff_of(matches, names), form)
}

/// Serves a request for each file of a call, and returns the highest status of these.
fn serve_request<P: Files + Input + Print + Eprint + AllocGlobal>(
    process: &P,
    matches: &ArgMatches<'_>,
    request: &Request<'_, '_>,
    form: Form,
) -> Result<u8> {
    let mut status = 0;
    for path in matches.get_strs("FILE").unwrap_or(&[]) {
        status = status.max(serve_file(process, path, request, form)?);
    }
    Ok(status)
}

/// Does what `map` or `where` requests, and returns the status.
fn serve_places<P: Files + Input + Print + Eprint + AllocGlobal>(
    process: &P,
    name: &str,
    matches: &ArgMatches<'_>,
    form: Form,
) -> Result<u8> {
    let places = Places::of(process.alloc(), matches)?;
    let request = place_request(name, matches, &places);
    serve_request(process, matches, &request, form)
}

/// Does what `types` or `ids` requests that selects records, and returns the status.
fn serve_selection<P: Files + Input + Print + Eprint + AllocGlobal>(
    process: &P,
    name: &str,
    matches: &ArgMatches<'_>,
    form: Form,
) -> Result<u8> {
    let names = matches.get_strs("NAME").unwrap_or(&[]);
    let kinds = matches.get_strs("kind").unwrap_or(&[]);
    let used = matches.get_strs("uses").unwrap_or(&[]);
    let request = Request::Select(selected(name, matches, names, kinds, used));
    serve_request(process, matches, &request, form)
}

/// Does what another command requests of each of its files, and returns the highest status of these.
fn serve_files<P: Files + Input + Print + Eprint + AllocGlobal>(
    process: &P,
    name: &str,
    matches: &ArgMatches<'_>,
    form: Form,
) -> Result<u8> {
    let names = matches.get_strs("NAME").unwrap_or(&[]);
    let mut status = 0;
    for path in matches.get_strs("FILE").unwrap_or(&[]) {
        let ended = if name == "ask" {
            answer_questions(process, path, form)?
        } else {
            let request = request_of(name, matches, path, names);
            serve_file(process, path, &request, form)?
        };
        status = status.max(ended);
    }
    Ok(status)
}

/// Does what a command with these arguments requests, and returns the status.
fn run_command<P: Files + Input + Print + Eprint + AllocGlobal>(
    process: &P,
    name: &str,
    matches: &ArgMatches<'_>,
) -> Result<u8> {
    if let Err(misuse) = check_call(name, matches) {
        return report_misuse(process, misuse);
    }
    let form = form_of(matches);
    match name {
        "diff" => compare(process, matches, form),
        "match" => match_files(process, matches, form),
        "map" | "where" => serve_places(process, name, matches, form),
        "types" | "ids" if selecting(matches).is_some() => {
            serve_selection(process, name, matches, form)
        }
        _ => serve_files(process, name, matches, form),
    }
}

/// Does what the arguments after the program's name request, and returns the exit status.
fn call<P: Files + Input + Print + Eprint + AllocGlobal>(
    process: &P,
    words: &[&str],
) -> Result<u8> {
    let words = with_command(process.alloc(), words)?;
    match parse(process.alloc(), &words) {
        Ok(matches) => match matches.subcommand() {
            Some((name, matches)) => run_command(process, name, matches),
            None => report_usage(process, &words),
        },
        Err(error) => end_unparsed(process, &words, &error),
    }
}

/// Reads the arguments of a call, does what they request, and returns the exit status.
fn attempt<P: Env + Files + Input + Print + Eprint + AllocGlobal>(process: &P) -> Result<u8> {
    match env::args(process) {
        Ok(arguments) => {
            let words = words_of(process.alloc(), arguments)?;
            let texts = texts_of(process.alloc(), &words)?;
            call(process, &texts)
        }
        Err(error) if error.kind() == ErrorKind::InvalidData => {
            let text = "invalid UTF-8 was detected in one or more arguments";
            let _ = eprint!(process; "error: {text}\n\n{TRY_HELP}");
            Ok(MISUSED)
        }
        Err(error) => Err(Error::from(error)),
    }
}

/// Runs the program with the arguments, the files and the channels of its process, and returns the
/// exit status: 0 if everything was shown, 1 after an error or for a negative answer, 2 if the
/// arguments are wrong.
pub fn program<P: Env + Files + Input + Print + Eprint + AllocGlobal>(process: &P) -> u8 {
    match attempt(process) {
        Ok(status) => status,
        Err(Error::IoError(cause)) => {
            let subject = Subject {
                name: None,
                form: Form::Text,
            };
            report_cause(process, &subject, &cause);
            FAILED
        }
        Err(_) => {
            write_lines(process, Err(AllocError));
            FAILED
        }
    }
}
