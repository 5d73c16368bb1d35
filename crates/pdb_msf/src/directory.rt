//! The directory of a file: which streams it holds, and where the page numbers of each begin.

ghost use Rattle.std.specs.Prelude.{◌≡◌, ◌*◌, ◌^◌, ◌<◌, ◌≤◌, false, length, slice_get, vec_capacity, vec_len, IfOk};
ghost use Rattle.pdb_base.specs.Memory.{FailsOnlyForMemory};
ghost use Rattle.pdb_base.specs.Answer.{Answers, AnswersUnless, Gives};
ghost use Rattle.pdb_msf.specs.Source.{HasFailed, IsFixed, IsKept, KeepsKind};
ghost use Rattle.pdb_msf.specs.Header.{directory_pages, header_view, IsHeader};
ghost use Rattle.pdb_msf.specs.Asked.{Asks};
ghost use Rattle.pdb_msf.specs.Exactly.{RefusesExactly};
ghost use Rattle.pdb_msf.specs.Directory.{absent, directory_numbers, directory_of, stream_entry_of, entry_view};
ghost use Rattle.pdb_msf.specs.Directory.{limit_size, pages_taken, sizes_of, stream_place_in, starts_of};
ghost use Rattle.pdb_msf.specs.Directory.{stream_count_in, HasPages, HasStarts};
ghost use Rattle.pdb_msf.specs.File.{locating};
ghost use Rattle.pdb_msf.specs.Pages.{present};

use crate::header::{Geometry, Header};
use crate::scattered::CountedSource;
use crate::source::{ReadView, Source, SourceView};
use pdb_base::{Error, ParseBuffer, Result};
use std::alloc::Global;

/// The size that marks an absent stream.
const ABSENT: u32 = 0xffffffff;

/// The directory of a file, with the places of the streams in it.
#[derive(Debug, Drop)]
pub struct Directory {
    /// The bytes of the directory, as in the file.
    pub bytes: Vec<u8>,
    /// The offset in the directory at which the page numbers of a stream begin, in bytes, for each
    /// stream whose size is in the directory.
    pub starts: Vec<u64>,
}

/// The place of a stream in the directory.
#[derive(Clone, Copy, Debug)]
pub struct StreamPlace {
    /// The size of the stream in bytes.
    pub size: u32,
    /// The offset in the directory at which its page numbers begin, in bytes.
    pub start: usize,
}

/// A stream as the directory describes it.
#[derive(Debug, Drop)]
pub struct StreamEntry {
    /// How many of its bytes are to be read: its size, cut to the limit.
    pub size: usize,
    /// The numbers of the pages over which all of its bytes are scattered.
    pub pages: Vec<u32>,
}

/// Reads the numbers of the pages that hold the directory.
#[tactic(auto, unfolding(crate::specs::Directory::directory_numbers))]
pub fn read_numbers<S: Source>(
    source: &mut CountedSource<S>,
    alloc: Global,
    header: &Header,
) -> Result<Vec<u32>>
    requires { IsHeader header.now }
    ensures numbers { IsFixed (S.state source.old.source) → AnswersUnless
        (HasFailed (S.state source.old.source) (S.state source.new.source)) (λ v. v.items) result
        (directory_numbers (S.state source.old.source).bytes (header_view header.now)) }
    ensures count { IfOk result (λ v. vec_len v ≡ directory_pages header.now.geometry) }
    ensures kept { IsKept (S.state source.old.source) (S.state source.new.source) }
    ensures kind { KeepsKind (S.state source.new.source) result }
    ensures asked { Asks source.old.asked source.new.asked (4 * directory_pages header.now.geometry) result }
{
    let geometry = header.geometry;
    let count = geometry.directory_pages();
    let location = source.read_scattered(alloc, geometry.page_size, &header.location, 4 * count)?;
    let mut buffer = ParseBuffer::from(location.as_slice());
    geometry.page_numbers(alloc, &mut buffer, count)
}

/// Reads the bytes of the directory.
#[tactic(auto, unfolding(crate::specs::Directory::directory_of))]
fn read_directory<S: Source>(
    source: &mut CountedSource<S>,
    alloc: Global,
    header: &Header,
) -> Result<ReadView>
    requires { IsHeader header.now }
    ensures bytes { IsFixed (S.state source.old.source) → AnswersUnless
        (HasFailed (S.state source.old.source) (S.state source.new.source)) (λ v. v) result
        (directory_of (S.state source.old.source).bytes (header_view header.now)) }
    ensures short { IfOk result (λ v. length v < 2 ^ 32) }
    ensures kept { IsKept (S.state source.old.source) (S.state source.new.source) }
    ensures kind { KeepsKind (S.state source.new.source) result }
    ensures asked { Asks source.old.asked source.new.asked (locating false header.now.geometry) result }
{
    let geometry = header.geometry;
    let numbers = read_numbers(source, alloc, header)?;
    let size = geometry.directory_size as usize;
    source.read_scattered(alloc, geometry.page_size, &numbers, size)
}

impl Geometry {
    /// Returns how many pages a stream of this size takes: none if it is absent.
    #[tactic(auto, unfolding(crate::specs::Directory::pages_taken), using(crate::proofs::PageLemmas::pages_few))]
    fn pages_taken(self, size: u32) -> usize
        requires { 256 ≤ self.page_size }
        ensures pages { result ≡ pages_taken self.page_size size }
        ensures few { result ≤ 2 ^ 24 }
    {
        match size {
            ABSENT => 0,
            _ => self.pages(size as usize),
        }
    }
}

/// Returns the offset at which the page numbers of a stream begin, for each stream whose size is in
/// the directory. Memory is allocated once, for at most as many streams as the directory has sizes.
fn starts_of(alloc: Global, geometry: Geometry, directory: &[u8]) -> Result<Vec<u64>>
    requires sized { 256 ≤ geometry.page_size }
    requires short { length directory.now < 2 ^ 32 }
    ensures starts { IfOk result (λ starts. starts.items ≡ starts_of geometry.page_size directory.now) }
    ensures small { IfOk result (λ starts. 4 * vec_capacity starts ≤ length directory.now) }
    ensures memory { FailsOnlyForMemory result }
{
    let mut buffer = ParseBuffer::from(directory);
    let Ok(count) = buffer.parse_u32() else {
        return Ok(Vec::new(alloc));
    };
    let known = (count as usize).min(buffer.len() / 4);
    let mut starts = Vec::with_capacity(alloc, known)?;
    let mut start = 4 + 4 * count as u64;
    for _ in 0..known {
        let size = buffer.parse_u32()?;
        starts.push_reserved(start);
        start += 4 * geometry.pages_taken(size) as u64;
    }
    Ok(starts)
}

impl Directory {
    /// Reads the directory of a file.
    pub fn read<S: Source>(
        source: &mut CountedSource<S>,
        alloc: Global,
        header: &Header,
    ) -> Result<Directory>
        requires { IsHeader header.now }
        ensures bytes { IsFixed (S.state source.old.source) → AnswersUnless
            (HasFailed (S.state source.old.source) (S.state source.new.source)) (λ d. d.bytes.items) result
            (directory_of (S.state source.old.source).bytes (header_view header.now)) }
        ensures places { IfOk result (HasStarts header.now.geometry.page_size) }
        ensures kept { IsKept (S.state source.old.source) (S.state source.new.source) }
        ensures kind { KeepsKind (S.state source.new.source) result }
        ensures asked { Asks source.old.asked source.new.asked (locating false header.now.geometry) result }
    {
        let bytes = read_directory(source, alloc, header)?.into_bytes();
        let starts = starts_of(alloc, header.geometry, &bytes)?;
        Ok(Directory { bytes, starts })
    }

    /// Returns how many streams the directory has, including the absent ones.
    pub fn stream_count(&self) -> Result<u32>
        ensures { Gives (λ count. count) result (stream_count_in self.now.bytes.items) }
    {
        let mut buffer = ParseBuffer::from(self.bytes.as_slice());
        let count = buffer.parse_u32()?;
        Ok(count)
    }

    /// Returns the size that the directory has for a stream, which may be that of an absent one.
    fn size(&self, stream_number: u32) -> Result<u32>
        ensures { Gives (λ size. size) result (present (slice_get (sizes_of self.now.bytes.items) stream_number)) }
    {
        let mut buffer = ParseBuffer::from(self.bytes.as_slice());
        buffer.seek(4 + 4 * stream_number as usize);
        let size = buffer.parse_u32()?;
        Ok(size)
    }

    /// Returns the place of a stream in the directory.
    #[tactic(auto, unfolding(crate::specs::Directory::stream_place_in))]
    pub fn place(&self, page_size: u32, stream_number: u32) -> Result<StreamPlace>
        requires { HasStarts page_size self.now }
        ensures place { Gives (λ place. place) result (stream_place_in page_size stream_number self.now.bytes.items) }
        ensures there { IfOk result (λ place. place.size < absent) }
    {
        let count = self.stream_count()?;
        if stream_number >= count {
            return Err(Error::StreamNotFound(stream_number));
        }
        let size = self.size(stream_number)?;
        if size == ABSENT {
            return Err(Error::StreamNotFound(stream_number));
        }
        let start = self.starts[stream_number as usize];
        if start > self.bytes.len() as u64 {
            return Err(Error::UnexpectedEof);
        }
        Ok(StreamPlace {
            size,
            start: start as usize,
        })
    }

    /// Returns a stream as the directory describes it: how many of its bytes are to be read, and
    /// all of its page numbers.
    #[tactic(auto, unfolding(crate::specs::Directory::stream_entry_of))]
    pub fn entry(
        &self,
        alloc: Global,
        geometry: Geometry,
        stream_number: u32,
        limit: Option<usize>,
    ) -> Result<StreamEntry>
        requires sized { 256 ≤ geometry.page_size }
        requires places { HasStarts geometry.page_size self.now }
        ensures entry { Answers entry_view result
            (stream_entry_of geometry stream_number limit self.now.bytes.items) }
        ensures exact { RefusesExactly result (stream_place_in geometry.page_size stream_number self.now.bytes.items) }
        ensures whole { IfOk result (HasPages geometry.page_size) }
    {
        let place = self.place(geometry.page_size, stream_number)?;
        let mut buffer = ParseBuffer::from(self.bytes.as_slice());
        buffer.seek(place.start);
        let count = geometry.pages(place.size as usize);
        let pages = geometry.page_numbers(alloc, &mut buffer, count)?;
        Ok(StreamEntry {
            size: limit_size(place.size, limit),
            pages,
        })
    }
}

/// Returns a size cut to the limit, if there is one.
fn limit_size(size: u32, limit: Option<usize>) -> usize
    ensures size { result ≡ limit_size size limit }
    ensures cut { result ≤ size }
{
    match limit {
        Some(limit) => limit.min(size as usize),
        None => size as usize,
    }
}
