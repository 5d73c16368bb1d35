//! The error that a fault reports, and its text.

ghost use Rattle.std.specs.{Prelude.◌≡◌, Option.option_map};
ghost use Rattle.pdb_base.specs.Refusal.{refusal_of};
ghost use Rattle.pdb_handles.specs.Copied.{CopiesOrLacks};
ghost use Rattle.pdb_handles.specs.Told.{candidate, fault_text, kind_numbered, plain_text, refusal_told, text_if};
ghost use Rattle.pdb_handles.specs.Told.{text_numbered, text_or_none};

use crate::copied::{copy_nothing, copy_text};
use crate::fault::{Fault, NO_TEXT};
use pdb_base::Error;
use std::alloc::Global;
use std::io::{self, ErrorKind};

/// Returns the text with a number, if there is one.
fn text_numbered(number: u32) -> Option<&'static str>
    ensures { option_map (λ text. text.now) result ≡ text_numbered number }
{
    match number {
        1 => Some("OMAP"),
        2 => Some("FPO"),
        3 => Some("FrameData"),
        4 => Some("small MSF file format"),
        5 => Some("ancient DBI header"),
        6 => Some("invalid string table signature"),
        7 => Some("unknown string table hash version"),
        8 => Some("u64 array sizes"),
        9 => Some("field list continuation not below its list"),
        10 => Some("header size is impossibly small"),
        11 => Some("header size is unreasonably large"),
        12 => Some("minimum type index is < 4096"),
        13 => Some("maximum type index is < minimum type index"),
        14 => Some("OMAP table that is not sorted"),
        15 => Some("frames that are not sorted"),
        16 => Some("directory that is larger than its file"),
        17 => Some("streams that are larger than their file"),
        18 => Some("stream names that share bytes"),
        _ => None,
    }
}

/// Returns the kind of I/O error with a number, if there is one.
fn kind_numbered(number: u32) -> Option<ErrorKind>
    ensures { result ≡ kind_numbered number }
{
    match number {
        1 => Some(ErrorKind::UnexpectedEof),
        2 => Some(ErrorKind::OutOfMemory),
        _ => None,
    }
}

/// Returns the error that a status and its first two numbers can report.
fn candidate(status: u32, first: u32, second: u32) -> Option<Error>
    ensures { option_map refusal_of result ≡ candidate (record { status = status; first = first; second = second }) }
{
    if status > 28 {
        return None;
    }
    match status {
        1 => Some(Error::UnrecognizedFileFormat),
        2 => Some(Error::PageReferenceOutOfRange(first)),
        3 => Some(Error::InvalidPageSize(first)),
        4 => Some(Error::StreamNotFound(first)),
        5 => Some(Error::StreamNameNotFound),
        6 => Some(Error::InvalidStreamLength(text_numbered(first)?)),
        7 => Some(Error::IoError(io::Error::from(kind_numbered(first)?))),
        8 => Some(Error::UnexpectedEof),
        9 => Some(Error::UnimplementedFeature(text_numbered(first)?)),
        10 => Some(Error::GlobalSymbolsNotFound),
        11 => Some(Error::SymbolTooShort),
        12 => Some(Error::UnimplementedSymbolKind(u16::try_from(first).ok()?)),
        13 => Some(Error::InvalidTypeInformationHeader(text_numbered(first)?)),
        14 => Some(Error::TypeTooShort),
        15 => Some(Error::TypeNotFound(first)),
        16 => Some(Error::TypeNotIndexed(first, second)),
        17 => Some(Error::UnimplementedTypeKind(u16::try_from(first).ok()?)),
        18 => Some(Error::NotACrossModuleRef(first)),
        19 => Some(Error::CrossModuleRefNotFound(first)),
        20 => Some(Error::UnexpectedNumericPrefix(u16::try_from(first).ok()?)),
        21 => Some(Error::AddressMapNotFound),
        22 => Some(Error::UnimplementedDebugSubsection(first)),
        23 => Some(Error::UnimplementedFileChecksumKind(u8::try_from(first).ok()?)),
        24 => Some(Error::InvalidFileChecksumOffset(first)),
        25 => Some(Error::LinesNotFound),
        26 => Some(Error::InvalidCompressedAnnotation),
        27 => Some(Error::UnknownBinaryAnnotation(first)),
        28 => Some(Error::OutOfMemory),
        _ => None,
    }
}

/// Returns the error that a fault reports, or None if it reports none.
#[tactic(auto, unfolding(crate::specs::Told::refusal_told))]
fn error_of_fault(about: &Fault) -> Option<Error>
    ensures { option_map refusal_of result ≡ refusal_told about.now }
{
    let error = candidate(about.status, about.first, about.second)?;
    if Fault::of(&error) == *about {
        return Some(error);
    }
    None
}

/// Returns the text of a status that needs no number, if it is such a status.
fn plain_text(status: u32) -> Option<&'static str>
    ensures { option_map (λ text. text.now) result ≡ plain_text status }
{
    match status {
        0 => Some("success"),
        1 => Some("not a program database of version 7.00"),
        5 => Some("no stream has this name"),
        7 => Some("the file ends too soon"),
        8 => Some("the bytes end too soon"),
        14 => Some("a record's length leaves no room for its kind"),
        21 => Some("the file has no section headers, and so no address map"),
        28 => Some("an allocation failed"),
        100 => Some("the handle is open already"),
        101 => Some("the handle is not open"),
        102 => Some("the array has no room for the answer"),
        104 => Some("no text for this fault"),
        105 => Some("the walk is at its end"),
        106 => Some("there is no such value"),
        107 => Some("the table moves the address nowhere"),
        _ => None,
    }
}

/// Copies the text of an error to the caller's array, if there is an error. An I/O error has no
/// text.
fn copy_text_of(alloc: Global, error: Option<Error>, room: &mut [u8], length: &mut usize) -> Fault
    ensures { CopiesOrLacks (record { fault = result; length = length.new; room = room.new }) room.old
        (text_or_none room.old (text_if (option_map refusal_of error))) }
{
    let error = match error {
        None | Some(Error::IoError(_)) => return copy_nothing(Fault::status(NO_TEXT), length),
        Some(error) => error,
    };
    match format!(in alloc; "{error}") {
        Ok(text) => copy_text(text.as_bytes(), room, length),
        Err(_) => copy_nothing(Fault::of(&Error::OutOfMemory), length),
    }
}

/// Copies the text of a fault to the caller's array, or returns a fault of status `NO_TEXT` if there
/// is none.
pub fn copy_fault_text(alloc: Global, about: &Fault, room: &mut [u8], length: &mut usize) -> Fault
    ensures { CopiesOrLacks (record { fault = result; length = length.new; room = room.new }) room.old
        (text_or_none room.old (fault_text about.now)) }
{
    match plain_text(about.status) {
        Some(text) => copy_text(text.as_bytes(), room, length),
        None => copy_text_of(alloc, error_of_fault(about), room, length),
    }
}
