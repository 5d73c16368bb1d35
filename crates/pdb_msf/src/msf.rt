//! Files in the multi-stream format (MSF), the container of a program database.

ghost use Rattle.std.specs.Prelude.{◌≡◌, ◌+◌, ◌^◌, ◌<◌, false, IsTrue, IsOk, IfOk, MatchResult};
ghost use Rattle.pdb_base.specs.Answer.{Answers, AnswersUnless, RefusesUnless};
ghost use Rattle.pdb_msf.specs.Source.{HasFailed, IsFixed, IsKept, KeepsKind};
ghost use Rattle.pdb_msf.specs.Header.{geometry_of, head_of, opening, file_head};
ghost use Rattle.pdb_msf.specs.Asked.{Asks};
ghost use Rattle.pdb_msf.specs.Exactly.{RefusesExactly};
ghost use Rattle.pdb_msf.specs.Directory.{directory_of};
ghost use Rattle.pdb_msf.specs.File.{Opened, IsFresh, described_stream, locating, place_of_stream, stream_count_of};
ghost use Rattle.pdb_msf.specs.File.{stream_of, stream_size_of, requested_size};

use crate::directory::Directory;
use crate::header::{Header, read_header};
use crate::scattered::{CountedSource, source_error};
use crate::source::{ReadView, Source, SourceSlice, SourceView};
use pdb_base::{Error, Result, Stream};
use std::alloc::Global;
use std::io::ErrorKind;
use std::marker::Model;

/// How many bytes at the start of a file are viewed to open it.
pub(crate) const OPENING_SIZE: usize = 4096;

/// A file of streams.
pub trait Msf<S: Source> {
    // The source, what the header says, how many bytes were requested, and whether the directory is
    // kept.
    ghost file: { Self → Opened S };

    /// Returns the bytes of a stream, at most as many as the limit.
    ///
    /// The answer depends on the file's bytes and its header alone, whatever was read before. A
    /// call that fails leaves the file usable. The first call that reads the directory keeps it,
    /// even if that call then fails; a later call requests only the bytes of its stream.
    ///
    /// # Errors
    /// Fails with the first of these, in this order: `IoError` or `PageReferenceOutOfRange` if the
    /// directory can't be read; `UnexpectedEof` if the directory ends before its count of streams;
    /// `StreamNotFound` if the stream's number is not below that count; `UnexpectedEof` if the size
    /// of the stream or of one before it is missing; `StreamNotFound` if the stream is absent;
    /// `UnexpectedEof` if the size of a later stream or a page number of an earlier one is missing;
    /// `UnexpectedEof` or `PageReferenceOutOfRange` for the first of the stream's own page numbers,
    /// whatever the limit, that is missing or bad; `IoError` if one of the stream's bytes below the
    /// limit is past the end of the source, or if the source fails otherwise.
    ///
    /// Fails with `OutOfMemory` if an allocation fails. Once the directory is kept, that is never
    /// in place of an error that comes before those of the stream's own page numbers.
    fn get(&mut self, alloc: Global, stream_number: u32, limit: Option<usize>) -> Result<Stream>
        ensures answer { IsFixed (S.state (file self.old).source) → AnswersUnless
            (HasFailed (S.state (file self.old).source) (S.state (file self.new).source)) (λ stream. stream) result
            (stream_of (S.state (file self.old).source).bytes (file self.old).head stream_number limit) }
        ensures source { IsKept (S.state (file self.old).source) (S.state (file self.new).source) }
        ensures head { (file self.new).head ≡ (file self.old).head }
        // An error of the source that is neither its end nor `OutOfMemory` keeps its kind.
        ensures kind { KeepsKind (S.state (file self.new).source) result }
        // A call requests the directory unless it is kept, and of the stream the bytes that it
        // returns.
        ensures asked { IsFixed (S.state (file self.old).source) → Asks (file self.old).asked (file self.new).asked
            (locating (file self.old).located (file self.old).head.geometry
            + requested_size
            (described_stream (S.state (file self.old).source).bytes (file self.old).head stream_number limit))
            result }
        // The directory stays kept, and after the call it is kept unless reading or keeping it
        // failed.
        ensures stays { IsTrue (file self.old).located → IsTrue (file self.new).located }
        ensures located { MatchResult result (λ _. IsTrue (file self.new).located)
            (λ e. (file self.new).located ≡ false → IsFixed (S.state (file self.old).source) →
            RefusesUnless (HasFailed (S.state (file self.old).source) (S.state (file self.new).source)) e
            (directory_of (S.state (file self.old).source).bytes (file self.old).head)) }
        ensures read { IsFixed (S.state (file self.old).source) → IsTrue (file self.new).located →
            IsOk (directory_of (S.state (file self.old).source).bytes (file self.old).head) }
        // Where the directory is kept, what it says of the stream's place needs no memory.
        ensures exact { IsFixed (S.state (file self.old).source) → IsTrue (file self.old).located →
            RefusesExactly result
            (place_of_stream (S.state (file self.old).source).bytes (file self.old).head stream_number) };
}

/// A file in the format MSF 7.00, whose bytes come from a source.
#[derive(Drop)]
pub struct BigMSF<S: Source> {
    source: CountedSource<S>,
    header: Header,
    directory: Option<Directory>,
}

impl<S: Source> Model for BigMSF<S> {
    ghost use Rattle.std.specs.Prelude.{is_some};
    ghost use Rattle.pdb_msf.specs.File.{Opened, IsOpen};
    ghost use Rattle.pdb_msf.specs.Header.{header_view};

    ghost Value = { Opened S };

    ghost view = { λ m. record {
      source = m.source.source;
      head = header_view m.header;
      asked = m.source.asked;
      located = is_some m.directory;
    } };

    ghost invariant = { λ m. IsOpen (S.state m.source.source) m.header m.directory };
}

impl<S: Source + Drop> BigMSF<S> {
    /// Opens the file whose header is at the start of a view. If that fails, the source is dropped.
    ///
    /// # Errors
    /// Fails with the first of these, in this order: `UnexpectedEof` if the view has fewer than 52
    /// bytes; `UnimplementedFeature` if the format is MSF 2.00; `UnrecognizedFileFormat` if the
    /// magic is any other than that of MSF 7.00; `InvalidPageSize` if the page size is not a power
    /// of two from 256 to 8,388,608; `UnexpectedEof` or `PageReferenceOutOfRange` for the first
    /// number of the pages that locate the directory that is missing or bad.
    ///
    /// Fails with `OutOfMemory` if the allocation that holds these numbers fails.
    pub fn new(alloc: Global, source: S, header_view: ReadView) -> Result<BigMSF<S>>
        ensures head { Answers (λ m. m.head) result (head_of header_view) }
        ensures exact { RefusesExactly result (geometry_of header_view) }
        ensures source { IfOk result (λ m. m.source ≡ source) }
        ensures fresh { IfOk result (λ m. IsFresh m) }
    {
        let header = read_header(alloc, header_view.as_slice())?;
        Ok(BigMSF {
            source: CountedSource::new(source),
            header,
            directory: None,
        })
    }
}

impl<S: Source> BigMSF<S> {
    /// Returns the source from which the bytes come, as the views so far left it.
    pub fn source(&self) -> &S
        ensures { result.now ≡ self.now.source }
    {
        self.source.source()
    }

    /// Returns how many bytes `get` has requested from the source in all calls so far, at most
    /// `u64::MAX`. The bytes that are viewed to open the file do not count.
    pub fn asked(&self) -> u64
        ensures { result ≡ self.now.asked }
    {
        self.source.asked()
    }

    /// Returns whether the directory is kept, so that `get` does not read it again.
    pub fn located(&self) -> bool
        ensures { result ≡ self.now.located }
    {
        self.directory.is_some()
    }

    /// Reads the directory and keeps it, unless it is kept already.
    fn locate(&mut self, alloc: Global) -> Result<()>
        ensures fits { self.old.asked < 2 ^ 64 }
        ensures kept { IsTrue self.old.located → IsOk result × (self.new ≡ self.old) }
        ensures located { MatchResult result (λ _. IsTrue self.new.located)
            (λ e. (self.new.located ≡ false) × (IsFixed (S.state self.old.source) →
            RefusesUnless (HasFailed (S.state self.old.source) (S.state self.new.source)) e
            (directory_of (S.state self.old.source).bytes self.old.head))) }
        ensures source { IsKept (S.state self.old.source) (S.state self.new.source) }
        ensures head { self.new.head ≡ self.old.head }
        ensures kind { KeepsKind (S.state self.new.source) result }
        ensures asked { Asks self.old.asked self.new.asked (locating self.old.located self.old.head.geometry) result }
    {
        if self.directory.is_some() {
            return Ok(());
        }
        let directory = Directory::read(&mut self.source, alloc, &self.header)?;
        self.directory = Some(directory);
        Ok(())
    }

    /// Returns the size of a page in bytes: a power of two from 256 to 8,388,608.
    pub fn page_size(&self) -> u32
        ensures { result ≡ self.now.head.geometry.page_size }
    {
        self.header.geometry.page_size
    }

    /// Returns the highest page number that may be used, as the header says it.
    pub fn pages_used(&self) -> u32
        ensures { result ≡ self.now.head.geometry.pages_used }
    {
        self.header.geometry.pages_used
    }

    /// Returns how many streams the directory has, including the absent ones. The numbers of the
    /// streams are those below this count. The directory is read unless it is kept already.
    ///
    /// # Errors
    /// Fails with the first of these, in this order: `IoError` or `PageReferenceOutOfRange` if the
    /// directory can't be read; `UnexpectedEof` if the directory ends before its count of streams.
    ///
    /// Fails with `OutOfMemory` if an allocation fails. Memory is allocated only to read the
    /// directory.
    pub fn stream_count(&mut self, alloc: Global) -> Result<u32>
        ensures answer { IsFixed (S.state self.old.source) → AnswersUnless
            (HasFailed (S.state self.old.source) (S.state self.new.source)) (λ count. count) result
            (stream_count_of (S.state self.old.source).bytes self.old.head) }
        ensures source { IsKept (S.state self.old.source) (S.state self.new.source) }
        ensures kind { KeepsKind (S.state self.new.source) result }
        ensures head { self.new.head ≡ self.old.head }
        ensures located { IfOk result (λ _. IsTrue self.new.located) }
        ensures asked { Asks self.old.asked self.new.asked (locating self.old.located self.old.head.geometry) result }
    {
        self.locate(alloc)?;
        let Some(directory) = &self.directory else {
            unreachable!();
        };
        directory.stream_count()
    }

    /// Returns the size of a stream in bytes, without reading the stream. The directory is read
    /// unless it is kept already.
    ///
    /// # Errors
    /// Fails with the first of these, in this order: `IoError` or `PageReferenceOutOfRange` if the
    /// directory can't be read; `UnexpectedEof` if the directory ends before its count of streams;
    /// `StreamNotFound` if the stream's number is not below that count; `UnexpectedEof` if the size
    /// of the stream or of one before it is missing; `StreamNotFound` if the stream is absent;
    /// `UnexpectedEof` if the size of a later stream or a page number of an earlier one is missing.
    ///
    /// Fails with `OutOfMemory` if an allocation fails. Memory is allocated only to read the
    /// directory.
    pub fn stream_size(&mut self, alloc: Global, stream_number: u32) -> Result<u32>
        ensures answer { IsFixed (S.state self.old.source) → AnswersUnless
            (HasFailed (S.state self.old.source) (S.state self.new.source)) (λ size. size) result
            (stream_size_of (S.state self.old.source).bytes self.old.head stream_number) }
        ensures source { IsKept (S.state self.old.source) (S.state self.new.source) }
        ensures kind { KeepsKind (S.state self.new.source) result }
        ensures head { self.new.head ≡ self.old.head }
        ensures located { IfOk result (λ _. IsTrue self.new.located) }
        ensures asked { Asks self.old.asked self.new.asked (locating self.old.located self.old.head.geometry) result }
    {
        self.locate(alloc)?;
        let Some(directory) = &self.directory else {
            unreachable!();
        };
        Ok(
            directory
                .place(self.header.geometry.page_size, stream_number)?
                .size,
        )
    }
}

impl<S: Source> Msf<S> for BigMSF<S> {
    ghost file = { λ m. m };

    #[tactic(auto, unfolding(crate::specs::File::stream_of))]
    fn get(&mut self, alloc: Global, stream_number: u32, limit: Option<usize>) -> Result<Stream> {
        self.locate(alloc)?;
        let Some(directory) = &self.directory else {
            unreachable!();
        };
        let geometry = self.header.geometry;
        let entry = directory.entry(alloc, geometry, stream_number, limit)?;
        let bytes = self
            .source
            .read_scattered(alloc, geometry.page_size, &entry.pages, entry.size)?;
        Ok(Stream::new(bytes.into_bytes()))
    }
}

impl<S: Source + Drop> BigMSF<S> {
    /// Returns the bytes of a stream as `get` does, and consumes the file.
    ///
    /// If the file is a `Vec<u8>` in which the stream's pages have increasing numbers, as most
    /// programs write them, the stream's bytes are moved together in the file's own memory, and
    /// nothing is allocated to hold them.
    ///
    /// # Errors
    /// Fails as `get` does.
    #[tactic(auto, unfolding(crate::specs::File::stream_of))]
    pub fn into_stream(
        mut self,
        alloc: Global,
        stream_number: u32,
        limit: Option<usize>,
    ) -> Result<Stream>
        ensures answer { IsFixed (S.state self.source) → AnswersUnless (¬ IsTrue (S.state self.source).is_sound)
            (λ stream. stream) result
            (stream_of (S.state self.source).bytes self.head stream_number limit) }
        ensures exact { IsFixed (S.state self.source) → IsTrue self.located → RefusesExactly result
            (place_of_stream (S.state self.source).bytes self.head stream_number) }
    {
        self.locate(alloc)?;
        let BigMSF {
            source,
            header,
            directory,
        } = self;
        let Some(directory) = directory else {
            unreachable!();
        };
        let geometry = header.geometry;
        let stream = directory.entry(alloc, geometry, stream_number, limit)?;
        let view = source.into_scattered(alloc, geometry.page_size, &stream.pages, stream.size)?;
        Ok(Stream::new(view.into_bytes()))
    }
}

/// Views the first `size` bytes of a file. Fails with `UnrecognizedFileFormat` if the file has
/// fewer bytes.
#[tactic(auto, unfolding(crate::specs::Header::opening), using(crate::proofs::PositionLemmas::front_there, crate::proofs::PositionLemmas::front_cut))]
pub(crate) fn view_front<S: Source>(source: &mut S, alloc: Global, size: usize) -> Result<ReadView>
    ensures bytes { IsFixed (S.state source.old) → AnswersUnless
        (HasFailed (S.state source.old) (S.state source.new)) (λ v. v) result
        (opening size (S.state source.old).bytes) }
    ensures kept { IsKept (S.state source.old) (S.state source.new) }
    ensures kind { KeepsKind (S.state source.new) result }
{
    let slices = [SourceSlice { offset: 0, size }];
    match source.view(alloc, &slices) {
        Ok(view) => Ok(view),
        Err(error) => match error.kind() {
            ErrorKind::UnexpectedEof => Err(Error::UnrecognizedFileFormat),
            _ => Err(source_error(error)),
        },
    }
}

/// Opens a file by its first 4096 bytes. If that fails, the source is dropped.
///
/// # Errors
/// Fails with the first of these, in this order: `UnrecognizedFileFormat` if the source has fewer
/// bytes; `IoError` with the source's own error if the source fails otherwise;
/// `UnimplementedFeature` if the format is MSF 2.00; `UnrecognizedFileFormat` if the magic is any
/// other than that of MSF 7.00; `InvalidPageSize` if the page size is not a power of two from 256
/// to 8,388,608; `UnexpectedEof` or `PageReferenceOutOfRange` for the first number of the pages
/// that locate the directory that is missing or bad.
///
/// Fails with `OutOfMemory` if an allocation fails.
#[tactic(auto, unfolding(crate::specs::Header::file_head), using(crate::proofs::lemmas::Kept::unsound))]
pub fn open_msf<S: Source + Drop>(alloc: Global, mut source: S) -> Result<BigMSF<S>>
    ensures head { IsFixed (S.state source) → AnswersUnless (¬ IsTrue (S.state source).is_sound)
        (λ m. m.head) result (file_head (S.state source).bytes) }
    ensures kept { IfOk result (λ m. IsKept (S.state source) (S.state m.source)) }
    ensures fresh { IfOk result (λ m. IsFresh m) }
{
    let view = view_front(&mut source, alloc, OPENING_SIZE)?;
    BigMSF::new(alloc, source, view)
}
