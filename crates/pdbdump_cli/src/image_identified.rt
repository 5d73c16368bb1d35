//! What is told of an image: which program database it names.

ghost use Rattle.pdb_msf.specs.Source.{State};
ghost use Rattle.pdbdump_cli.specs.Identified.{IsIdDone, IsImage, ShowsLine};

use crate::command::Identify;
use crate::identified::{conclude, is_expected};
use crate::sentences::tell;
use pdb_container::{Error, Source};
use pdb_file::{CodeView, NoDatabase};
use pdb_msf::CountedSource;
use pdb_output::Output;
use pdbdump_rows::Form;
use pdbdump_tables::write_image;
use std::alloc::{AllocError, Global};
use std::io::{ErrorKind, Write};
use std::result;

/// What is told of an image whose record ends too soon.
const CUT_RECORD: &str = "a program (PE) whose debug record is cut short";

/// What is told of a file that begins as an image does and ends before what its headers refer to.
const CUT_IMAGE: &str = "a program (MZ) that is cut short";

/// What is told of an image whose database has the name of a folder.
const FOLDER_NAME: &str = "a program (PE) that names a folder in place of a database";

/// Returns whether a name can be that of a file. A path that is made of it would lead out of its folder
/// if it consists of dots, also with spaces, which Windows drops.
fn is_file_name(name: &[u8]) -> bool {
    name.iter().any(|byte| *byte != b'.' && *byte != b' ')
}

/// Returns what is told of an image that names no database.
pub(crate) fn nameless_text(reason: NoDatabase) -> &'static str {
    match reason {
        NoDatabase::NoHeader => "not a program (PE): it has no PE header",
        NoDatabase::UnknownHeader => "a program (PE) of neither 32 nor 64 bits",
        NoDatabase::NoDirectory => "a program (PE) without a debug directory",
        NoDatabase::LargeDirectory => {
            "a program (PE) whose debug directory has more than 4,096 entries"
        }
        NoDatabase::Unmapped => "a program (PE) whose debug directory is in no section",
        NoDatabase::Unnamed => "a program (PE) that names no database",
        NoDatabase::OlderRecord => {
            "a program (PE) that names a database of an older format (NB10)"
        }
        NoDatabase::UnknownRecord => "a program (PE) whose debug record has an unknown format",
        NoDatabase::LargeRecord => "a program (PE) whose debug record has more than 65,560 bytes",
    }
}

/// Reads what an image says of its database. The inner result is the text of why it names none.
///
/// # Errors
/// Fails as `CodeView::read` does, but not if the image or the record is cut short.
pub(crate) fn image_in<S: Source + Drop>(
    alloc: Global,
    source: S,
) -> Result<result::Result<CodeView, &'static str>, Error> {
    match CodeView::read(alloc, &mut CountedSource::new(source)) {
        Ok(Ok(image)) if is_file_name(image.file_name()) => Ok(Ok(image)),
        Ok(Ok(_)) => Ok(Err(FOLDER_NAME)),
        Ok(Err(reason)) => Ok(Err(nameless_text(reason))),
        Err(Error::UnexpectedEof) => Ok(Err(CUT_RECORD)),
        Err(Error::IoError(error)) if error.kind() == ErrorKind::UnexpectedEof => Ok(Err(
            CUT_IMAGE,
        )),
        Err(fault) => Err(fault),
    }
}

/// Returns the text that names the database of an image, with its key.
fn named_text(alloc: Global, image: &CodeView) -> Result<Vec<u8>, AllocError> {
    let key = image.key();
    let mut text = Vec::from_slice(alloc, b"a program (PE); its database is ")?;
    text.extend_from_slice(image.file_name())?;
    text.extend_from_slice(b", key ")?;
    text.extend_from_slice(format!(in alloc; "{key}")?.as_bytes())?;
    Ok(text)
}

/// Returns what is told of an image by a command that reads program databases.
///
/// # Errors
/// Fails as `image_in` does.
pub(crate) fn image_text<S: Source + Drop>(alloc: Global, source: S) -> Result<Vec<u8>, Error> {
    match image_in(alloc, source)? {
        Ok(image) => Ok(named_text(alloc, &image)?),
        Err(text) => Ok(Vec::from_slice(alloc, text.as_bytes())?),
    }
}

/// Writes what an image says of its database, and returns whether it names the expected key.
fn write_found<W: Write>(
    alloc: Global,
    asked: &Identify<'_>,
    image: &CodeView,
    form: Form,
    out: &mut Output<W>,
) -> Result<bool, Error>
    ensures { ShowsLine form out.old out.new result }
{
    let is_expected = is_expected(alloc, asked.expected, image.key())?;
    let last_part = String::from_utf8_lossy(alloc, image.file_name())?;
    let name = asked.given_name.unwrap_or(&last_part);
    write_image(alloc, asked.style, name, image, form, out)?;
    Ok(is_expected)
}

/// Writes to the output what an image says of its database. Returns the status with which the
/// program ends: 1 if it names none, or not the expected key, or after a fault of the file or of a
/// channel, which is written to the error channel, unless it is that the output was closed.
pub(crate) fn serve_image<S: Source + Drop, O: Write, E: Write>(
    alloc: Global,
    source: S,
    asked: &Identify<'_>,
    form: Form,
    out: &mut Output<O>,
    err: &mut Output<E>,
) -> u8
    ensures { (file : State) → IsImage file → IsIdDone form file out.old out.new err.old err.new result }
{
    match image_in(alloc, source) {
        Ok(Ok(image)) => {
            let shown = write_found(alloc, asked, &image, form, out);
            conclude(alloc, shown, out, err)
        }
        Ok(Err(text)) => {
            err.report(text.as_bytes());
            1
        }
        Err(fault) => tell(alloc, &fault, err),
    }
}
