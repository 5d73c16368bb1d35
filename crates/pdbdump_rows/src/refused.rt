//! The error of a record or of another part of a file, as a field.

#![tactic(auto, using(crate::proofs::lemmas::Line::adding))]

ghost use Rattle.std.specs.Prelude.{◌≡◌, [], IfOk};
ghost use Rattle.std.specs.Option.{option_map};
ghost use Rattle.pdb_base.specs.Refusal.{refusal_of};
ghost use Rattle.pdbdump_rows.specs.Line.{AddsRow};
ghost use Rattle.pdbdump_rows.specs.Sentences.{sentence_of};

use crate::line::Line;
use pdb_base::{Error, IO_ERROR_FRONT};
use std::alloc::{AllocError, Global};

/// Returns a sentence for an error whose own text is only its name or has an index as a decimal
/// number.
///
/// # Errors
/// Fails if an allocation fails.
pub fn sentence(alloc: Global, error: &Error) -> Result<Option<Vec<u8>>, AllocError>
    ensures { IfOk result (λ text. option_map (λ bytes. bytes.items) text ≡ sentence_of (refusal_of error.now)) }
{
    let words: &[u8] = match error {
        Error::UnrecognizedFileFormat => b"not a program database of version 7.00",
        Error::UnexpectedEof => b"data ends in the middle of a record or a table",
        Error::TypeTooShort => b"the length of a record leaves no room for its kind",
        Error::StreamNameNotFound => b"no stream has the name or the role that is looked for",
        Error::TypeNotFound(index) => {
            let text = format!(in alloc; "no record has the index 0x{index:x}")?;
            return Ok(Some(text.into_bytes()));
        }
        _ => return Ok(None),
    };
    Ok(Some(Vec::from_slice(alloc, words)?))
}

/// Returns the text of an error: its sentence, or else the library's text, which ends with the
/// cause of an I/O error.
///
/// # Errors
/// Fails if an allocation fails.
pub fn error_text(alloc: Global, error: &Error) -> Result<Vec<u8>, AllocError> {
    if let Some(text) = sentence(alloc, error)? {
        return Ok(text);
    }
    let text = match error {
        Error::IoError(cause) => format!(in alloc; "{IO_ERROR_FRONT}{cause}")?,
        error => format!(in alloc; "{error}")?,
    };
    Ok(text.into_bytes())
}

/// Adds the field with the text of an error.
pub fn show_error(line: &mut Line, error: &Error)
    ensures { AddsRow [] line.old line.new }
{
    let alloc = line.alloc;
    line.made_text("error", error_text(alloc, error));
}
