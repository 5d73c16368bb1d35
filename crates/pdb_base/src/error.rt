//! The errors of this library.

ghost use Rattle.std.specs.Prelude.{◌≡◌, Some};
ghost use Rattle.pdb_base.specs.declared.error.Error.TheVariants.{IoError, OutOfMemory};
ghost use Rattle.pdb_base.specs.Refusal.{refusal_of};
ghost use Rattle.std.specs.Fmt.{DisplaysOnOk};
ghost use Rattle.pdb_base.specs.ErrorText.{hexadecimal_of_four, text_of, HasPlainText, HasHexadecimalText};

use std::alloc::{AllocError, AllocFailed};
use std::{fmt, io, result};

/// The text that precedes that of the `io::Error` when an [`Error::IoError`] is printed.
pub const IO_ERROR_FRONT: &str = "IO error while reading PDB: ";

/// The result of a call that can fail with an [`Error`].
pub type Result<T> = result::Result<T, Error>;

/// The reason why a call failed.
///
/// Some variants belong to parts of a program database that are read by libraries above this one.
/// They are here so that all of these libraries share one type of error.
#[derive(Debug, Drop)]
pub enum Error {
    /// The file begins with the magic of no known format, or has fewer than 4096 bytes.
    UnrecognizedFileFormat,

    /// A page number is 0, or above the number of pages that the header says are used.
    PageReferenceOutOfRange(u32),

    /// The page size in the header is no power of two, or not from 256 to 8,388,608 bytes.
    InvalidPageSize(u32),

    /// The directory has no stream of this number, or says that it is absent.
    StreamNotFound(u32),

    /// No stream has the name that was looked up.
    StreamNameNotFound,

    /// The length of the named stream is no multiple of the length of its records.
    InvalidStreamLength(&'static str),

    /// The source of the file failed, or ended before the requested bytes.
    IoError(io::Error),

    /// The bytes end before the value that is to be read from them does.
    UnexpectedEof,

    /// The file uses a part of the format that this library does not read.
    UnimplementedFeature(&'static str),

    /// There is no stream of global symbols.
    GlobalSymbolsNotFound,

    /// A symbol's length leaves no room for its kind.
    SymbolTooShort,

    /// The library does not read symbols of this kind.
    UnimplementedSymbolKind(u16),

    /// The header of an item table breaks the rule that the text names.
    InvalidTypeInformationHeader(&'static str),

    /// An item's length leaves no room for its kind.
    TypeTooShort,

    /// The table has no item of this index.
    TypeNotFound(u32),

    /// The finder does not know this index yet. It knows the indexes up to the second number.
    TypeNotIndexed(u32, u32),

    /// The library does not read records of this kind.
    UnimplementedTypeKind(u16),

    /// The index does not refer to another module.
    NotACrossModuleRef(u32),

    /// The imports have no such reference to another module.
    CrossModuleRefNotFound(u32),

    /// A number begins with a prefix that announces no width.
    UnexpectedNumericPrefix(u16),

    /// The file has no address map.
    AddressMapNotFound,

    /// The library does not read debug subsections of this kind.
    UnimplementedDebugSubsection(u32),

    /// The library does not read checksums of this kind.
    UnimplementedFileChecksumKind(u8),

    /// No file checksum is at this offset.
    InvalidFileChecksumOffset(u32),

    /// The module has no line information.
    LinesNotFound,

    /// A compressed annotation ends early, or encodes no number.
    InvalidCompressedAnnotation,

    /// The library does not read binary annotations of this number.
    UnknownBinaryAnnotation(u32),

    /// An allocation failed.
    OutOfMemory,
}

/// A number that is displayed as `0x` and at least four hexadecimal digits.
#[derive(Clone, Copy)]
struct Hexadecimal(u32);

impl fmt::Display for Hexadecimal {
    ghost output = { λ n. Some (hexadecimal_of_four n.0) };

    #[tactic(auto, using(crate::proofs::lemmas::Padding::padded_with_zeros))]
    fn fmt<W: fmt::Write>(&self, f: &mut fmt::Formatter<W>) -> fmt::Result {
        let number = self.0;
        write!(f, "0x{number:04x}")
    }
}

/// Returns the text of an error that says nothing but its name.
fn plain_text(error: &Error) -> &'static str
    requires { HasPlainText (refusal_of error.now) }
    ensures { text_of (refusal_of error.now) ≡ Some result.now }
{
    match error {
        Error::UnrecognizedFileFormat => "UnrecognizedFileFormat",
        Error::StreamNameNotFound => "StreamNameNotFound",
        Error::UnexpectedEof => "UnexpectedEof",
        Error::GlobalSymbolsNotFound => "GlobalSymbolsNotFound",
        Error::SymbolTooShort => "SymbolTooShort",
        Error::TypeTooShort => "TypeTooShort",
        Error::AddressMapNotFound => "AddressMapNotFound",
        Error::LinesNotFound => "LinesNotFound",
        Error::InvalidCompressedAnnotation => "InvalidCompressedAnnotation",
        Error::OutOfMemory => "OutOfMemory",
        _ => unreachable!(),
    }
}

/// Writes the text of an error that names a number in hexadecimal.
fn write_hexadecimal<W: fmt::Write>(error: &Error, f: &mut fmt::Formatter<W>) -> fmt::Result
    requires { HasHexadecimalText (refusal_of error.now) }
    ensures { DisplaysOnOk W.write_str_gives f.old result (text_of (refusal_of error.now)) f.new }
{
    match error {
        Error::UnimplementedSymbolKind(kind) => {
            write!(
                f,
                "Support for symbols of kind {} is not implemented",
                Hexadecimal(*kind as u32)
            )
        }
        Error::UnimplementedTypeKind(kind) => {
            write!(
                f,
                "Support for types of kind {} is not implemented",
                Hexadecimal(*kind as u32)
            )
        }
        Error::NotACrossModuleRef(index) => {
            write!(
                f,
                "Type {} is not a cross module reference",
                Hexadecimal(*index)
            )
        }
        Error::CrossModuleRefNotFound(index) => {
            write!(
                f,
                "Cross module reference {} not found in imports",
                Hexadecimal(*index)
            )
        }
        Error::UnexpectedNumericPrefix(prefix) => write!(
            f,
            "Variable-length numeric parsing encountered an unexpected prefix ({})",
            Hexadecimal(*prefix as u32)
        ),
        Error::UnimplementedDebugSubsection(kind) => {
            write!(
                f,
                "Debug module subsection of kind {} is not implemented",
                Hexadecimal(*kind)
            )
        }
        Error::InvalidFileChecksumOffset(offset) => {
            write!(f, "Invalid source file checksum offset 0x{offset:x}")
        }
        _ => unreachable!(),
    }
}

impl fmt::Display for Error {
    ghost output = { λ e. text_of (refusal_of e) };

    fn fmt<W: fmt::Write>(&self, f: &mut fmt::Formatter<W>) -> fmt::Result {
        match self {
            Error::PageReferenceOutOfRange(page) => {
                write!(f, "MSF referred to page number ({page}) out of range")
            }
            Error::InvalidPageSize(size) => {
                write!(
                    f,
                    "The MSF header specifies an invalid page size ({size} bytes)"
                )
            }
            Error::StreamNotFound(number) => {
                write!(
                    f,
                    "The requested stream ({number}) is not stored in this file"
                )
            }
            Error::InvalidStreamLength(stream) => {
                write!(
                    f,
                    "{stream} stream has an invalid length or alignment for its records"
                )
            }
            Error::IoError(error) => write!(f, "{IO_ERROR_FRONT}{error}"),
            Error::UnimplementedFeature(feature) => {
                write!(f, "Unimplemented PDB feature: {feature}")
            }
            Error::InvalidTypeInformationHeader(rule) => {
                write!(f, "The type information header was invalid: {rule}")
            }
            Error::TypeNotFound(index) => write!(f, "Type {index} not found"),
            Error::TypeNotIndexed(index, covered) => {
                write!(f, "Type {index} not indexed (index covers {covered})")
            }
            Error::UnimplementedFileChecksumKind(kind) => {
                write!(f, "Unknown source file checksum kind {kind}")
            }
            Error::UnknownBinaryAnnotation(number) => {
                write!(f, "Unknown binary annotation {number}")
            }
            Error::UnimplementedSymbolKind(_)
            | Error::UnimplementedTypeKind(_)
            | Error::NotACrossModuleRef(_)
            | Error::CrossModuleRefNotFound(_)
            | Error::UnexpectedNumericPrefix(_)
            | Error::UnimplementedDebugSubsection(_)
            | Error::InvalidFileChecksumOffset(_) => write_hexadecimal(self, f),
            _ => f.write_str(plain_text(self)),
        }
    }
}

impl From<io::Error> for Error {
    ghost from_gives = { λ cause e. e ≡ IoError cause };

    fn from(cause: io::Error) -> Error {
        Error::IoError(cause)
    }
}

impl From<AllocError> for Error {
    ghost from_gives = { λ _ e. e ≡ OutOfMemory };

    fn from(_cause: AllocError) -> Error {
        Error::OutOfMemory
    }
}

impl<T: Drop> From<AllocFailed<T>> for Error {
    ghost from_gives = { λ _ e. e ≡ OutOfMemory };

    fn from(_cause: AllocFailed<T>) -> Error {
        Error::OutOfMemory
    }
}
