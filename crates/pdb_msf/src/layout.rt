//! The header and the directory of a file, which are kept apart from its bytes.

ghost use Rattle.std.specs.Prelude.{◌≡◌, IfOk};
ghost use Rattle.pdb_base.specs.Answer.{Answers, Gives};
ghost use Rattle.pdb_msf.specs.Exactly.{RefusesExactly};
ghost use Rattle.pdb_msf.specs.Header.{IsHeader, file_head, header_view};
ghost use Rattle.pdb_msf.specs.Source.{ReadsSource};
ghost use Rattle.pdb_msf.specs.Directory.{directory_numbers, stream_place_in, stream_count_in};
ghost use Rattle.pdb_msf.specs.Layout.{layout_behind, layout_of, pages_by, size_by, stream_by};

use crate::directory::{Directory, read_numbers};
use crate::header::{Header, read_header};
use crate::msf::{OPENING_SIZE, view_front};
use crate::scattered::CountedSource;
use crate::source::{Source, SourceView};
use pdb_base::{Result, Stream};
use std::alloc::Global;
use std::marker::Model;

/// The header and the directory of a file, with which its streams are read from its bytes. The
/// bytes themselves stay with the caller, who passes them in whenever a stream is read.
#[derive(Debug, Drop)]
pub struct Layout {
    header: Header,
    directory: Directory,
}

impl Model for Layout {
    ghost use Rattle.pdb_msf.specs.Directory.{HasStarts};
    ghost use Rattle.pdb_msf.specs.Header.{IsHeader, header_view};
    ghost use Rattle.pdb_msf.specs.Layout.{LayoutValue};

    ghost Value = { LayoutValue };

    ghost view = { λ l. record { head = header_view l.header; directory = l.directory.bytes.items } };

    ghost invariant = { λ l. IsHeader l.header × HasStarts l.header.geometry.page_size l.directory };
}

impl Header {
    /// Reads the header of a file.
    ///
    /// # Errors
    /// Fails as `open_msf` does.
    #[tactic(auto, unfolding(crate::specs::Header::file_head))]
    pub fn read<S: Source>(alloc: Global, source: &mut CountedSource<S>) -> Result<Header>
        ensures header { ReadsSource (S.state source.old.source) (S.state source.new.source) header_view result
            file_head }
        ensures sound { IfOk result IsHeader }
    {
        let view = view_front(&mut source.source, alloc, OPENING_SIZE)?;
        read_header(alloc, view.as_slice())
    }
}

impl Layout {
    /// Reads the header and the directory of a file.
    ///
    /// # Errors
    /// Fails as `open_msf` does if the header is bad, and then as `behind` does.
    #[tactic(auto, unfolding(crate::specs::Layout::layout_of))]
    pub fn read<S: Source>(alloc: Global, source: &mut CountedSource<S>) -> Result<Layout>
        ensures { ReadsSource (S.state source.old.source) (S.state source.new.source) (λ layout. layout) result
            layout_of }
    {
        let header = Header::read(alloc, source)?;
        Layout::behind(alloc, source, header)
    }

    /// Reads the directory of a file whose header was read.
    ///
    /// # Errors
    /// Fails with `IoError` or `PageReferenceOutOfRange` if the directory can't be read, and with
    /// `OutOfMemory` if an allocation fails.
    pub fn behind<S: Source>(
        alloc: Global,
        source: &mut CountedSource<S>,
        header: Header,
    ) -> Result<Layout>
        requires { IsHeader header }
        ensures { ReadsSource (S.state source.old.source) (S.state source.new.source) (λ layout. layout) result
            (λ file. layout_behind file (header_view header)) }
    {
        let directory = Directory::read(source, alloc, &header)?;
        Ok(Layout { header, directory })
    }

    /// Returns the size of a page in bytes: a power of two from 256 to 8,388,608.
    pub fn page_size(&self) -> u32
        ensures { result ≡ self.now.head.geometry.page_size }
    {
        self.header.geometry.page_size
    }

    /// Returns how many streams the directory has, including the absent ones. The numbers of the
    /// streams are those below this count.
    ///
    /// # Errors
    /// Returns `UnexpectedEof` if the directory ends before its count of streams.
    pub fn stream_count(&self) -> Result<u32>
        ensures { Gives (λ count. count) result (stream_count_in self.now.directory) }
    {
        self.directory.stream_count()
    }

    /// Returns the size of a stream in bytes.
    ///
    /// # Errors
    /// Fails with the first of these, in this order: `UnexpectedEof` if the directory ends before
    /// its count of streams; `StreamNotFound` if the stream's number is not below that count;
    /// `UnexpectedEof` if the size of the stream or of one before it is missing; `StreamNotFound`
    /// if the stream is absent; `UnexpectedEof` if the size of a later stream or a page number of
    /// an earlier one is missing.
    pub fn stream_size(&self, stream_number: u32) -> Result<u32>
        ensures { Gives (λ size. size) result (size_by self.now stream_number) }
    {
        let page_size = self.header.geometry.page_size;
        Ok(self.directory.place(page_size, stream_number)?.size)
    }

    /// Returns the numbers of the pages that hold the page numbers of the directory, as the header
    /// lists them.
    pub fn location_pages(&self) -> &[u32]
        ensures { result.now ≡ self.now.head.location }
    {
        self.header.location.as_slice()
    }

    /// Reads the numbers of the pages that hold the directory, which a file has in its
    /// `location_pages`.
    ///
    /// # Errors
    /// Fails with `IoError` if one of these pages is past the end of the file, with
    /// `PageReferenceOutOfRange` for the first number that is bad, and with `OutOfMemory` if an
    /// allocation fails.
    pub fn directory_pages<S: Source>(
        &self,
        alloc: Global,
        source: &mut CountedSource<S>,
    ) -> Result<Vec<u32>>
        ensures { ReadsSource (S.state source.old.source) (S.state source.new.source)
            (λ numbers. numbers.items) result (λ file. directory_numbers file self.now.head) }
    {
        read_numbers(source, alloc, &self.header)
    }

    /// Returns the numbers of the pages over which a stream is scattered, in the order of its
    /// bytes: byte i of the stream is byte i % `page_size` of page i / `page_size` of them. They
    /// are not checked against the size of the file.
    ///
    /// # Errors
    /// Fails with the first of these, in this order: the errors of `stream_size`; `UnexpectedEof`
    /// or `PageReferenceOutOfRange` for the first of the stream's page numbers that is missing or
    /// bad. Fails with `OutOfMemory` if an allocation fails.
    pub fn stream_pages(&self, alloc: Global, stream_number: u32) -> Result<Vec<u32>>
        ensures { Answers (λ numbers. numbers.items) result (pages_by self.now stream_number) }
    {
        let geometry = self.header.geometry;
        let entry = self.directory.entry(alloc, geometry, stream_number, None)?;
        Ok(entry.pages)
    }

    /// Returns the bytes of a source where the directory locates a stream, at most as many as the
    /// limit. If the source is that of the file that was read, they are the bytes of its stream.
    ///
    /// # Errors
    /// Fails with the first of these, in this order: the errors of `stream_size`; `UnexpectedEof`
    /// or `PageReferenceOutOfRange` for the first of the stream's page numbers, whatever the limit,
    /// that is missing or bad; `IoError` if one of the stream's bytes below the limit is past the
    /// end of the file.
    ///
    /// Fails with `OutOfMemory` if an allocation fails, but never in place of an error of
    /// `stream_size`.
    #[tactic(auto, unfolding(crate::specs::Layout::stream_by))]
    pub fn stream<S: Source>(
        &self,
        alloc: Global,
        source: &mut CountedSource<S>,
        stream_number: u32,
        limit: Option<usize>,
    ) -> Result<Stream>
        ensures stream { ReadsSource (S.state source.old.source) (S.state source.new.source) (λ stream. stream) result
            (λ file. stream_by self.now file stream_number limit) }
        ensures exact { RefusesExactly result
            (stream_place_in self.now.head.geometry.page_size stream_number self.now.directory) }
    {
        let geometry = self.header.geometry;
        let entry = self.directory.entry(alloc, geometry, stream_number, limit)?;
        let bytes = source.read_scattered(alloc, geometry.page_size, &entry.pages, entry.size)?;
        Ok(Stream::new(bytes.into_bytes()))
    }
}
