//! What `id` does with a file.

ghost use Rattle.pdbdump_cli.specs.Identified.{IsConcluded, IsIdDone, ShowsIdentity, ShowsLine, identity_in};
ghost use Rattle.pdbdump_tables.specs.Reading.{Reads};

use crate::command::Identify;
use crate::image_identified::serve_image;
use crate::input_file::InputFile;
use crate::sentences::tell;
use crate::served::end;
use pdb_container::{Error, PDB, Source, SourceView};
use pdb_file::{Format, Identity, UpperKey};
use pdb_output::Output;
use pdbdump_rows::Form;
use pdbdump_tables::{is_key, write_identity};
use std::alloc::{AllocError, Global};
use std::io::Write;

/// How many bytes at the start of a file say which format it has.
const FORMAT_SIZE: u64 = 42;

/// What is written if the file is not the expected one.
const UNEXPECTED: &[u8] = b"the file has another key than the expected one\n";

/// Returns what a file of another format is than the one that is read.
pub(crate) fn other_format(format: Format) -> Option<&'static str> {
    match format {
        Format::Msf7 => None,
        Format::Msf2 => Some("a program database of the older format MSF 2.00, which is not read"),
        Format::Portable => Some("a portable program database of .NET, which is not read"),
        Format::Compressed => Some("a compressed file of a symbol server: expand it first"),
        Format::Image => Some("a program (PE), and not its program database"),
        Format::Unknown => Some("not a program database"),
    }
}

/// Returns what a file of a format is told to be where a program is needed.
pub(crate) fn no_image_text(format: Format) -> &'static str {
    match format {
        Format::Msf7 => "not a program (PE), but a program database",
        Format::Msf2 => "not a program (PE), but a program database of the older format MSF 2.00",
        Format::Portable => "not a program (PE), but a portable program database of .NET",
        Format::Compressed =>
            "not a program (PE), but a compressed file of a symbol server: expand it first",
        Format::Image | Format::Unknown => "not a program (PE)",
    }
}

/// Reads what identifies a file.
pub(crate) fn identity_in<S: Source + Drop>(alloc: Global, source: S) -> Result<Identity, Error>
    ensures { Reads (S.state source) identity_in result }
{
    let mut file = PDB::open(alloc, source)?;
    Identity::of(alloc, &mut file)
}

/// Returns whether a key is the one that is expected, if any is.
pub(crate) fn is_expected(
    alloc: Global,
    expected: Option<&str>,
    key: UpperKey,
) -> Result<bool, AllocError> {
    match expected {
        Some(word) => is_key(alloc, word, key),
        None => Ok(true),
    }
}

/// Writes what identifies a file, and returns whether it is the expected one.
fn write_found<W: Write>(
    alloc: Global,
    asked: &Identify<'_>,
    identity: &Identity,
    form: Form,
    out: &mut Output<W>,
) -> Result<bool, Error>
    ensures { ShowsLine form out.old out.new result }
{
    let is_expected = is_expected(alloc, asked.expected, identity.key())?;
    write_identity(alloc, asked.style, asked.name, identity, form, out)?;
    Ok(is_expected)
}

/// Finds and writes what identifies a file, and returns whether it is the expected one.
fn identify<S: Source + Drop, W: Write>(
    alloc: Global,
    source: S,
    asked: &Identify<'_>,
    form: Form,
    out: &mut Output<W>,
) -> Result<bool, Error>
    ensures { ShowsIdentity form (S.state source) out.old out.new result }
{
    match identity_in(alloc, source) {
        Ok(identity) => write_found(alloc, asked, &identity, form, out),
        Err(fault) => Err(fault),
    }
}

/// Ends the program after a file was identified.
pub(crate) fn conclude<O: Write, E: Write>(
    alloc: Global,
    identified: Result<bool, Error>,
    out: &mut Output<O>,
    err: &mut Output<E>,
) -> u8
    ensures { IsConcluded identified out.old out.new err.old err.new result }
{
    match identified {
        Ok(true) => end(alloc, Ok(()), out, err),
        Ok(false) => {
            end(alloc, Ok(()), out, err);
            err.report(UNEXPECTED);
            1
        }
        Err(fault) => end(alloc, Err(fault), out, err),
    }
}

/// Writes to the output what identifies a file, or the database that an image names. Returns the
/// status with which the program ends: 1 if the file is of another format, or not the expected one,
/// or after a fault of the file or of a channel, which is written to the error channel, unless it is
/// that the output was closed.
pub(crate) fn serve_id<S: Source + Drop, O: Write, E: Write>(
    alloc: Global,
    mut file: InputFile<S>,
    asked: &Identify<'_>,
    form: Form,
    out: &mut Output<O>,
    err: &mut Output<E>,
) -> u8
    ensures { IsIdDone form (S.state file.source) out.old out.new err.old err.new result }
{
    let front = match file.front(alloc, FORMAT_SIZE) {
        Ok(front) => front,
        Err(fault) => return tell(alloc, &fault, err),
    };
    let format = Format::of(front.as_slice());
    if let Format::Image = format {
        return serve_image(alloc, file.source, asked, form, out, err);
    }
    if let Some(text) = other_format(format) {
        err.report(text.as_bytes());
        return 1;
    }
    let identified = identify(alloc, file.source, asked, form, out);
    conclude(alloc, identified, out, err)
}
