//! How a call ended: a status, and the numbers that go with it.

ghost use Rattle.std.specs.Prelude.{◌≡◌};
ghost use Rattle.pdb_base.specs.Refusal.{refusal_of};
ghost use Rattle.pdb_handles.specs.Fault.{fault_of_refusal, error_kind_number, text_number};

use pdb_base::Error;
use std::io::ErrorKind;

/// How a call ended. A status of 0 means success; one from 1 to 28 reports an error of the library;
/// and those from 100 on mean that the caller misused it or that nothing was found.
#[repr(C)]
#[derive(Clone, Copy, PartialEq)]
pub struct Fault {
    /// The status.
    pub status: u32,
    /// The number that the error names, such as a page, a stream, an index or a kind, or the number
    /// of its text; or else 0.
    pub first: u32,
    /// The second number if the error names two, or else 0.
    pub second: u32,
}

/// Nothing is wrong.
pub const FINE: u32 = 0;
/// The handle holds something already.
pub const ALREADY_OPEN: u32 = 100;
/// The handle holds nothing of the kind that the call needs.
pub const NOT_OPEN: u32 = 101;
/// The caller's array has no room for the answer.
pub const TOO_SMALL: u32 = 102;
/// The caller's fault isn't one that a call leaves.
pub const NO_TEXT: u32 = 104;
/// The walk is at its end.
pub const END: u32 = 105;
/// There is no such value.
pub const NONE: u32 = 106;
/// The table moves the address nowhere.
pub const UNMAPPED: u32 = 107;

/// Returns the number of a text that an error has, or 0 if it isn't one of the library's texts.
fn text_number(text: &str) -> u32
    ensures { result ≡ text_number text.now }
{
    match text {
        "OMAP" => 1,
        "FPO" => 2,
        "FrameData" => 3,
        "small MSF file format" => 4,
        "ancient DBI header" => 5,
        "invalid string table signature" => 6,
        "unknown string table hash version" => 7,
        "u64 array sizes" => 8,
        "field list continuation not below its list" => 9,
        "header size is impossibly small" => 10,
        "header size is unreasonably large" => 11,
        "minimum type index is < 4096" => 12,
        "maximum type index is < minimum type index" => 13,
        "OMAP table that is not sorted" => 14,
        "frames that are not sorted" => 15,
        "directory that is larger than its file" => 16,
        "streams that are larger than their file" => 17,
        "stream names that share bytes" => 18,
        _ => 0,
    }
}

/// Returns the number of an I/O error's kind: 1 for `UnexpectedEof`, 2 for `OutOfMemory`, 0 for any
/// other.
fn kind_number(kind: ErrorKind) -> u32
    ensures { result ≡ error_kind_number kind }
{
    match kind {
        ErrorKind::UnexpectedEof => 1,
        ErrorKind::OutOfMemory => 2,
        _ => 0,
    }
}

impl Fault {
    /// Returns a fault from its status and its numbers.
    pub(crate) const fn new(status: u32, first: u32, second: u32) -> Fault
        ensures { result ≡ record { status = status; first = first; second = second } }
    {
        Fault {
            status,
            first,
            second,
        }
    }

    /// Returns a fault of a status that names no number.
    pub const fn status(status: u32) -> Fault
        ensures { result ≡ record { status = status; first = 0; second = 0 } }
    {
        Fault::new(status, 0, 0)
    }

    /// Returns the fault that reports an error: its status, and the numbers that go with it.
    #[inline(always)]
    pub fn of(error: &Error) -> Fault
        ensures { result ≡ fault_of_refusal (refusal_of error.now) }
    {
        // Inlined, this gives the fault of an error a place of its own, and a caller that succeeds
        // keeps its fault in registers.
        Fault::fault_of_error(error)
    }

    /// Returns the fault that reports an error.
    #[inline(never)]
    fn fault_of_error(error: &Error) -> Fault
        ensures { result ≡ fault_of_refusal (refusal_of error.now) }
    {
        match error {
            Error::UnrecognizedFileFormat => Fault::new(1, 0, 0),
            Error::PageReferenceOutOfRange(page) => Fault::new(2, *page, 0),
            Error::InvalidPageSize(size) => Fault::new(3, *size, 0),
            Error::StreamNotFound(number) => Fault::new(4, *number, 0),
            Error::StreamNameNotFound => Fault::new(5, 0, 0),
            Error::InvalidStreamLength(stream) => Fault::new(6, text_number(stream), 0),
            Error::IoError(cause) => Fault::new(7, kind_number(cause.kind()), 0),
            Error::UnexpectedEof => Fault::new(8, 0, 0),
            Error::UnimplementedFeature(feature) => Fault::new(9, text_number(feature), 0),
            Error::GlobalSymbolsNotFound => Fault::new(10, 0, 0),
            Error::SymbolTooShort => Fault::new(11, 0, 0),
            Error::UnimplementedSymbolKind(kind) => Fault::new(12, *kind as u32, 0),
            Error::InvalidTypeInformationHeader(rule) => Fault::new(13, text_number(rule), 0),
            Error::TypeTooShort => Fault::new(14, 0, 0),
            Error::TypeNotFound(index) => Fault::new(15, *index, 0),
            Error::TypeNotIndexed(index, covered) => Fault::new(16, *index, *covered),
            Error::UnimplementedTypeKind(kind) => Fault::new(17, *kind as u32, 0),
            Error::NotACrossModuleRef(index) => Fault::new(18, *index, 0),
            Error::CrossModuleRefNotFound(index) => Fault::new(19, *index, 0),
            Error::UnexpectedNumericPrefix(prefix) => Fault::new(20, *prefix as u32, 0),
            Error::AddressMapNotFound => Fault::new(21, 0, 0),
            Error::UnimplementedDebugSubsection(kind) => Fault::new(22, *kind, 0),
            Error::UnimplementedFileChecksumKind(kind) => Fault::new(23, *kind as u32, 0),
            Error::InvalidFileChecksumOffset(offset) => Fault::new(24, *offset, 0),
            Error::LinesNotFound => Fault::new(25, 0, 0),
            Error::InvalidCompressedAnnotation => Fault::new(26, 0, 0),
            Error::UnknownBinaryAnnotation(number) => Fault::new(27, *number, 0),
            Error::OutOfMemory => Fault::new(28, 0, 0),
        }
    }
}
