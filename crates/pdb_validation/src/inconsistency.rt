//! What can be inconsistent in a file.

ghost use Rattle.std.specs.Prelude.{◌≡◌};
ghost use Rattle.pdb_validation.specs.Code.{inconsistency_code};
ghost use Rattle.pdb_validation.specs.Inconsistency.{is_warning};

use std::fmt;

/// What does not hold between parts of a file, each of which can be read.
#[derive(Clone, Copy, Debug, PartialEq, Eq)]
pub enum Inconsistency {
    /// The directory is larger than the file.
    DirectoryTooLarge,

    /// The streams together are larger than the file.
    StreamsTooLarge,

    /// The records of a stream are not in increasing order.
    OutOfOrder,

    /// The page of this number holds bytes of two streams, twice of one, or of a stream and of the
    /// container itself.
    PageShared(u32),

    /// The page of this number holds bytes of a stream, and the free page map marks it as free.
    PageFree(u32),

    /// The stream of this number has a name or a role, or is a module's, and the file has no such
    /// stream.
    StreamMissing(u32),

    /// The parts of stream 3 do not have as many bytes as its header says that they have.
    DebugSizes,

    /// A type refers to this index, which is not below its own.
    ReferenceNotBelow(u32),

    /// A record takes a number of bytes, with those of its length, that is no multiple of four.
    RecordUnaligned,

    /// A record has this kind, which the library does not read.
    KindNotRead(u16),

    /// A table has this many hash values, and not one for each of its records.
    HashCount(u32),

    /// A hash value is this one, which is not below the number of buckets.
    HashTooLarge(u32),

    /// The place that is stored for the record of this index is not where the record begins.
    IndexOffset(u32),

    /// The string table ends before its buckets do, or before the count of its names.
    BucketsCut,

    /// The string table's buckets hold this offset, at which no name begins.
    NameOffset(u32),

    /// The string table says that it has this many names, and its buckets hold another number.
    NameCount(u32),

    /// A section begins below the end of the one before it.
    SectionsOverlap,

    /// The header gives the free page map this number, which is neither 1 nor 2.
    FreePageMap(u32),

    /// The header says that this many pages are in use, which are more than the file has.
    PageCount(u32),

    /// Stream 1, stream 3 or a table has this version, which is not known.
    UnknownVersion(u32),

    /// The program is for a machine of this number, which is not known.
    UnknownMachine(u16),

    /// Stream 1 says that this many streams have names, and has bits for another number of them.
    NamedStreamCount(u32),

    /// The header of a table says that the records have this many bytes, or this end of indexes, and
    /// they have others.
    RecordBytes(u32),

    /// The header of a table says that a hash has this size, or that there are this many buckets,
    /// and no table has that.
    HashSize(u32),

    /// A table has records and no hash stream.
    NoHashStream,

    /// A part of the hash stream has this size, and is not within the stream, or does not have the
    /// place of a record.
    HashPart(u32),

    /// The name at this offset of the string table is not in the bucket to which its hash leads, or
    /// the names in the buckets before it take more bytes than there are.
    NameUnreached(u32),

    /// The entry of a module in stream 3 ends behind the list of modules.
    ModuleCut,

    /// The stream of this number has fewer bytes than the entry of its module in stream 3 says.
    ModuleSizes(u32),

    /// The hash table of the globals or of the publics has this number in the place of its
    /// signature or its version.
    SymbolHashVersion(u32),

    /// The hash table of the globals or of the publics does not have as many bytes as its header
    /// says, or not a whole number of records.
    SymbolHashSizes,

    /// The parts of the stream of publics do not have as many bytes as its header says.
    PublicSizes,

    /// The record of a symbol ends behind its stream, or has no room for its kind.
    SymbolCut,
}

impl Inconsistency {
    /// Returns the code of the inconsistency, under which programs tell of it.
    pub fn code(self) -> &'static str
        ensures { result.now ≡ inconsistency_code self }
    {
        match self {
            Self::DirectoryTooLarge => "DIRECTORY-TOO-LARGE",
            Self::StreamsTooLarge => "STREAMS-TOO-LARGE",
            Self::OutOfOrder => "OUT-OF-ORDER",
            Self::PageShared(_) => "PAGE-SHARED",
            Self::PageFree(_) => "PAGE-FREE",
            Self::StreamMissing(_) => "STREAM-MISSING",
            Self::DebugSizes => "DEBUG-SIZES",
            Self::ReferenceNotBelow(_) => "REFERENCE-NOT-BELOW",
            Self::RecordUnaligned => "RECORD-UNALIGNED",
            Self::KindNotRead(_) => "KIND-NOT-READ",
            Self::HashCount(_) => "HASH-COUNT",
            Self::HashTooLarge(_) => "HASH-TOO-LARGE",
            Self::IndexOffset(_) => "INDEX-OFFSET",
            Self::BucketsCut => "BUCKETS-CUT",
            Self::NameOffset(_) => "NAME-OFFSET",
            Self::NameCount(_) => "NAME-COUNT",
            Self::SectionsOverlap => "SECTIONS-OVERLAP",
            Self::FreePageMap(_) => "FREE-PAGE-MAP",
            Self::PageCount(_) => "PAGE-COUNT",
            Self::UnknownVersion(_) => "UNKNOWN-VERSION",
            Self::UnknownMachine(_) => "UNKNOWN-MACHINE",
            Self::NamedStreamCount(_) => "NAMED-STREAM-COUNT",
            Self::RecordBytes(_) => "RECORD-BYTES",
            Self::HashSize(_) => "HASH-SIZE",
            Self::NoHashStream => "NO-HASH-STREAM",
            Self::HashPart(_) => "HASH-PART",
            Self::NameUnreached(_) => "NAME-UNREACHED",
            Self::ModuleCut => "MODULE-CUT",
            Self::ModuleSizes(_) => "MODULE-SIZES",
            Self::SymbolHashVersion(_) => "SYMBOL-HASH-VERSION",
            Self::SymbolHashSizes => "SYMBOL-HASH-SIZES",
            Self::PublicSizes => "PUBLIC-SIZES",
            Self::SymbolCut => "SYMBOL-CUT",
        }
    }

    /// Returns whether files of known tools have it too, so that it makes no file damaged: a page
    /// that is marked as free, a record that is not aligned, a kind that is not read, another
    /// machine, and records without hashes.
    pub fn is_warning(self) -> bool
        ensures { result ≡ is_warning self }
    {
        matches!(
            self,
            Self::PageFree(_)
                | Self::RecordUnaligned
                | Self::KindNotRead(_)
                | Self::UnknownMachine(_)
                | Self::NoHashStream
        )
    }
}

impl fmt::Display for Inconsistency {
    fn fmt<W: fmt::Write>(&self, f: &mut fmt::Formatter<W>) -> fmt::Result {
        match self {
            Self::DirectoryTooLarge => f.write_str("the directory is larger than the file"),
            Self::StreamsTooLarge => f.write_str("the streams together are larger than the file"),
            Self::OutOfOrder => f.write_str("the records are out of order"),
            Self::PageShared(page) => write!(f, "page {page} is used twice"),
            Self::PageFree(page) => write!(f, "page {page} is in use and marked as free"),
            Self::StreamMissing(number) => write!(
                f,
                "stream {number} has a name or a role and is missing"
            ),
            Self::DebugSizes => f.write_str("the parts of stream 3 do not add up to its size"),
            Self::ReferenceNotBelow(index) => write!(
                f,
                "a reference to index 0x{index:x} is not below the record's own"
            ),
            Self::RecordUnaligned => f.write_str(
                "the record does not end at a multiple of four bytes",
            ),
            Self::KindNotRead(kind) => write!(f, "records of kind 0x{kind:x} are not read"),
            Self::HashCount(count) => write!(f, "there are {count} hash values for other records"),
            Self::HashTooLarge(value) => write!(
                f,
                "hash value {value} is not below the number of buckets"
            ),
            Self::IndexOffset(index) => write!(
                f,
                "the place of index 0x{index:x} is not that of its record"
            ),
            Self::BucketsCut => f.write_str("the string table ends before its buckets do"),
            Self::NameOffset(offset) => write!(f, "no name begins at offset {offset}"),
            Self::NameCount(count) => write!(f, "the buckets do not hold {count} names"),
            Self::SectionsOverlap => f.write_str(
                "the section begins below the end of the one before it",
            ),
            Self::FreePageMap(number) => write!(
                f,
                "the number of the free page map is {number}, and neither 1 nor 2"
            ),
            Self::PageCount(count) => write!(
                f,
                "the file has fewer than the {count} pages that are in use"
            ),
            Self::UnknownVersion(version) => write!(f, "version {version} is not known"),
            Self::UnknownMachine(machine) => write!(f, "machine 0x{machine:x} is not known"),
            Self::NamedStreamCount(count) => write!(
                f,
                "the table of names does not have {count} streams"
            ),
            Self::RecordBytes(number) => write!(
                f,
                "the records do not end where the number {number} in the header says"
            ),
            Self::HashSize(size) => write!(
                f,
                "no table has hashes of this size or as many buckets: {size}"
            ),
            Self::NoHashStream => f.write_str("the records have no hash stream"),
            Self::HashPart(size) => write!(
                f,
                "a part of {size} bytes does not fit the hash stream"
            ),
            Self::NameUnreached(offset) => write!(
                f,
                "the hash of the name at offset {offset} does not lead to its bucket"
            ),
            Self::ModuleCut => f.write_str(
                "the entry of the module ends behind the list of modules",
            ),
            Self::ModuleSizes(stream) => write!(
                f,
                "a module takes more bytes than there are in stream {stream}"
            ),
            Self::SymbolHashVersion(version) => write!(
                f,
                "no hash table of symbols has signature or version 0x{version:x}"
            ),
            Self::SymbolHashSizes => f.write_str(
                "the hash table of symbols does not have the size it says",
            ),
            Self::PublicSizes => f.write_str(
                "the parts of the publics do not add up to their stream",
            ),
            Self::SymbolCut => f.write_str("the record of the symbol ends behind its stream"),
        }
    }
}
