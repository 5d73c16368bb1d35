//! What an image says of its program database: a program or a library in the PE format names the
//! database in its debug directory, by the Portable Executable specification.

ghost use Rattle.std.specs.Prelude.{◌≡◌, ◌≤◌, ◌↔◌, length, IsTrue};
ghost use Rattle.pdb_base.specs.Answer.{Answers, Gives};
ghost use Rattle.pdb_base.specs.Place.{left};
ghost use Rattle.pdb_msf.specs.Source.{ReadsSource};
ghost use Rattle.pdb_space.specs.SectionHeader.{section_header_at};
ghost use Rattle.pdb_file.specs.Identity.{cpu_name};
ghost use Rattle.pdb_file.specs.Image.{IsDatabaseOf, code_view_at, directory_span, directory_start, entry_at};
ghost use Rattle.pdb_file.specs.Image.{first_read, found_view, headers_in, image_headers, image_record, is_code_view};
ghost use Rattle.pdb_file.specs.Image.{last_part, record_in, record_view, section_holds, span_in};

use crate::identity::{Identity, cpu_name};
use crate::key::{LowerKey, UpperKey};
use byteorder::{ByteOrder, LittleEndian};
use pdb_base::{ParseBuffer, Result};
use pdb_msf::{CountedSource, Source, SourceView};
use pdb_space::ImageSectionHeader;
use std::alloc::Global;
use std::result;
use uuid::Uuid;

/// The size of what an image begins with, which ends with the offset of the PE header.
const OPENING_SIZE: usize = 64;

/// Where the offset of the PE header is.
const START_AT: usize = 60;

/// The size of the signature of the PE header and of the COFF header behind it.
const HEADER_SIZE: usize = 24;

/// The size of the optional header up to the end of its seventh directory, which is that of debug
/// information, in an image of 64 bits. In one of 32 bits it is smaller.
const OPTIONAL_SIZE: usize = 168;

/// Where the optional header has the number of its directories, in images of 32 and of 64 bits.
const COUNT_AT_32: usize = 92;

const COUNT_AT_64: usize = 108;

/// The number of the directory of debug information.
const DEBUG_DIRECTORY: u32 = 6;

/// The size of a section header in bytes.
const SECTION_SIZE: usize = 40;

/// The size of an entry of the debug directory in bytes.
const ENTRY_SIZE: u32 = 28;

/// The most entries of a debug directory that are read.
const MOST_ENTRIES: u32 = 4096;

/// The type of an entry for CodeView: `IMAGE_DEBUG_TYPE_CODEVIEW`.
const CODEVIEW: u32 = 2;

/// The size of the largest record that is read, in bytes: its path has at most 65,536 of them.
const MOST_RECORD: u32 = 65_560;

/// What an image says of its program database, in the record for CodeView of its debug directory.
#[derive(Debug, PartialEq, Eq, Drop)]
pub struct CodeView {
    /// The number of the machine for which the image is, for example 0x8664 for x86-64.
    pub machine: u16,

    /// The GUID that the linker gave the database too.
    pub guid: Uuid,

    /// The age of the database.
    pub age: u32,

    /// The path of the database, as the linker wrote it.
    pub path: Vec<u8>,
}

/// Why an image names no program database.
#[derive(Clone, Copy, Debug, PartialEq, Eq)]
pub enum NoDatabase {
    /// The file doesn't begin with `MZ`, or the offset there leads to no `PE\0\0`.
    NoHeader,

    /// The magic of the optional header is that of neither 32 nor 64 bits.
    UnknownHeader,

    /// There is no debug directory, or no whole entry in it.
    NoDirectory,

    /// The debug directory has more than 4,096 entries.
    LargeDirectory,

    /// No section has the debug directory in the file.
    Unmapped,

    /// No entry of the debug directory is for CodeView, or the first one has an empty path.
    Unnamed,

    /// The record is of the older format `NB10`, whose databases have no GUID.
    OlderRecord,

    /// The record is of a format that is not known.
    UnknownRecord,

    /// The record has more than 65,560 bytes.
    LargeRecord,
}

/// What bytes of an image say, or why the image names no database.
type Found<T> = result::Result<T, NoDatabase>;

/// What the headers of an image say of what follows them.
#[derive(Clone, Copy, Debug)]
struct Headers {
    /// The offset of the PE header in the file.
    start: u32,
    /// The number of the machine.
    machine: u16,
    /// The number of sections.
    sections: u16,
    /// The size of the optional header.
    optional_size: u16,
}

/// A part of an image as it is loaded.
#[derive(Clone, Copy, Debug)]
struct Span {
    /// Its address, in bytes from the image's base.
    rva: u32,
    /// Its size in bytes.
    size: u32,
}

/// An entry of the debug directory: the type, the size and the place of a record.
#[derive(Clone, Copy, Debug)]
struct Entry {
    /// The type of the record.
    kind: u32,
    /// The size of the record in bytes.
    size: u32,
    /// The offset of the record in the file.
    start: u32,
}

/// Returns what the PE header at an offset and the COFF header behind it say.
#[tactic(auto, unfolding(crate::specs::Image::headers_in))]
fn headers_in(start: u32, header: &[u8]) -> Found<Headers>
    requires { length header.now ≡ 24 }
    ensures { result ≡ headers_in start header.now }
{
    if !header.starts_with(b"PE\0\0") {
        return Err(NoDatabase::NoHeader);
    }
    Ok(Headers {
        start,
        machine: LittleEndian::read_u16(&header[4..]),
        sections: LittleEndian::read_u16(&header[6..]),
        optional_size: LittleEndian::read_u16(&header[20..]),
    })
}

/// Reads the headers of an image.
#[tactic(auto, unfolding(crate::specs::Image::image_headers, crate::specs::Format::image_magic))]
fn read_headers<S: Source>(alloc: Global, source: &mut CountedSource<S>) -> Result<Found<Headers>>
    ensures { ReadsSource (S.state source.old.source) (S.state source.new.source) (λ headers. headers) result
        image_headers }
{
    let opening = source.read_part(alloc, 0, OPENING_SIZE)?;
    if !opening.as_slice().starts_with(b"MZ") {
        return Ok(Err(NoDatabase::NoHeader));
    }
    let start = LittleEndian::read_u32(&opening.as_slice()[START_AT..]);
    let header = source.read_part(alloc, start as u64, HEADER_SIZE)?;
    Ok(headers_in(start, header.as_slice()))
}

/// Returns the place of the debug directory, if there is one. The optional header has the number of
/// its directories at an offset, and then the directories.
#[tactic(auto, unfolding(crate::specs::Image::span_in))]
fn span_in(optional: &[u8], count_at: usize) -> Found<Span>
    requires { count_at ≤ 108 }
    ensures { result ≡ span_in optional.now count_at }
{
    if optional.len() < count_at + 60 {
        return Err(NoDatabase::NoDirectory);
    }
    let count = LittleEndian::read_u32(&optional[count_at..]);
    let rva = LittleEndian::read_u32(&optional[count_at + 52..]);
    let size = LittleEndian::read_u32(&optional[count_at + 56..]);
    if count <= DEBUG_DIRECTORY || rva == 0 || size < ENTRY_SIZE {
        return Err(NoDatabase::NoDirectory);
    }
    if size / ENTRY_SIZE > MOST_ENTRIES {
        return Err(NoDatabase::LargeDirectory);
    }
    Ok(Span { rva, size })
}

/// Reads the place of the debug directory.
#[tactic(auto, unfolding(crate::specs::Image::directory_span, crate::specs::Image::debug_directory_in))]
fn directory_span<S: Source>(
    alloc: Global,
    source: &mut CountedSource<S>,
    headers: Headers,
) -> Result<Found<Span>>
    ensures { ReadsSource (S.state source.old.source) (S.state source.new.source) (λ span. span) result
        (directory_span headers) }
{
    let size = (headers.optional_size as usize).min(OPTIONAL_SIZE);
    if size < 2 {
        return Ok(Err(NoDatabase::UnknownHeader));
    }
    let start = headers.start as u64 + HEADER_SIZE as u64;
    let optional = source.read_part(alloc, start, size)?;
    let optional = optional.as_slice();
    Ok(match LittleEndian::read_u16(optional) {
        0x10b => span_in(optional, COUNT_AT_32),
        0x20b => span_in(optional, COUNT_AT_64),
        _ => Err(NoDatabase::UnknownHeader),
    })
}

/// Returns whether a section holds an address. Its size in memory counts, or that in the file where
/// it has none.
fn holds(section: &ImageSectionHeader, rva: u32) -> bool
    ensures { result ≡ section_holds rva section.now }
{
    let size = if section.virtual_size == 0 {
        section.size_of_raw_data
    } else {
        section.virtual_size
    };
    rva >= section.virtual_address && rva - section.virtual_address < size
}

/// Returns the first section of a table that holds an address.
#[tactic(auto, using(crate::proofs::ImageLemmas::first_passed, crate::proofs::ImageLemmas::first_passed_by, crate::proofs::ImageLemmas::first_refused, pdb_base::proofs::lemmas::Refused::passed_on))]
fn section_in(table: &[u8], count: u16, rva: u32) -> Result<Option<ImageSectionHeader>>
    ensures { Gives (λ section. section) result (first_read section_header_at (section_holds rva) count table.now) }
{
    let mut buffer = ParseBuffer::from(table);
    for _ in 0..count {
        let section = ImageSectionHeader::parse(&mut buffer)?;
        if holds(&section, rva) {
            return Ok(Some(section));
        }
    }
    Ok(None)
}

/// Reads the section table, and returns the offset in the file of a part of the image.
#[tactic(auto, unfolding(crate::specs::Image::directory_start))]
fn directory_start<S: Source>(
    alloc: Global,
    source: &mut CountedSource<S>,
    headers: Headers,
    span: Span,
) -> Result<Found<u64>>
    ensures { ReadsSource (S.state source.old.source) (S.state source.new.source) (λ start. start) result
        (directory_start headers span) }
{
    let size = SECTION_SIZE * headers.sections as usize;
    if size == 0 {
        return Ok(Err(NoDatabase::Unmapped));
    }
    let start = headers.start as u64 + HEADER_SIZE as u64 + headers.optional_size as u64;
    let table = source.read_part(alloc, start, size)?;
    let Some(section) = section_in(table.as_slice(), headers.sections, span.rva)? else {
        return Ok(Err(NoDatabase::Unmapped));
    };
    let within = span.rva.saturating_sub(section.virtual_address) as u64;
    if within + span.size as u64 > section.size_of_raw_data as u64 {
        return Ok(Err(NoDatabase::Unmapped));
    }
    Ok(Ok(section.pointer_to_raw_data as u64 + within))
}

/// Reads an entry of the debug directory.
#[tactic(auto, unfolding(crate::specs::Image::entry_at))]
fn next_entry(buffer: &mut ParseBuffer<'_>) -> Result<Entry>
    ensures { Gives (λ entry. (entry, left buffer.new)) result (entry_at (left buffer.old)) }
{
    buffer.take(12)?;
    let kind = buffer.parse_u32()?;
    let size = buffer.parse_u32()?;
    let _address = buffer.parse_u32()?;
    let start = buffer.parse_u32()?;
    Ok(Entry { kind, size, start })
}

/// Returns the first entry of a debug directory that is for CodeView.
#[tactic(auto, using(crate::proofs::ImageLemmas::first_passed, crate::proofs::ImageLemmas::first_passed_by, crate::proofs::ImageLemmas::first_refused, pdb_base::proofs::lemmas::Refused::passed_on))]
fn code_view(directory: &[u8], count: u32) -> Result<Option<Entry>>
    ensures { Gives (λ entry. entry) result (first_read entry_at is_code_view count directory.now) }
{
    let mut buffer = ParseBuffer::from(directory);
    for _ in 0..count {
        let entry = next_entry(&mut buffer)?;
        if entry.kind == CODEVIEW {
            return Ok(Some(entry));
        }
    }
    Ok(None)
}

/// Returns what a record of the format with a GUID says.
#[tactic(auto, unfolding(crate::specs::Image::code_view_at), using(pdb_base::proofs::lemmas::Records::front_length))]
fn code_view_at(alloc: Global, machine: u16, bytes: &[u8]) -> Result<CodeView>
    ensures { Answers record_view result (code_view_at machine bytes.now) }
{
    let mut buffer = ParseBuffer::from(bytes);
    buffer.take(4)?;
    let mut guid = [0; 16];
    guid.copy_from_slice(buffer.take(16)?);
    let age = buffer.parse_u32()?;
    let path = buffer.parse_cstring()?;
    Ok(CodeView {
        machine,
        guid: Uuid::from_bytes_le(guid),
        age,
        path: Vec::from_slice(alloc, path.as_bytes())?,
    })
}

/// Returns what a record says.
#[tactic(auto, unfolding(crate::specs::Image::record_in))]
fn record_in(alloc: Global, machine: u16, bytes: &[u8]) -> Result<Found<CodeView>>
    ensures { Answers (found_view record_view) result (record_in machine bytes.now) }
{
    if bytes.starts_with(b"NB10") {
        return Ok(Err(NoDatabase::OlderRecord));
    }
    if !bytes.starts_with(b"RSDS") {
        return Ok(Err(NoDatabase::UnknownRecord));
    }
    let named = code_view_at(alloc, machine, bytes)?;
    if named.path.is_empty() {
        return Ok(Err(NoDatabase::Unnamed));
    }
    Ok(Ok(named))
}

impl CodeView {
    /// Reads what an image says of its program database: the record of the first entry of its debug
    /// directory that is for CodeView. What is read is the headers, the table of sections, the debug
    /// directory and the record, at most some 2.7 megabytes.
    ///
    /// The result is why the image names no database, if it doesn't.
    ///
    /// # Errors
    /// Fails with `IoError` if the source fails or ends before what is read, with `UnexpectedEof` if
    /// the record ends before its path does, and with `OutOfMemory` if an allocation fails.
    #[tactic(auto, unfolding(crate::specs::Image::image_record, crate::specs::Image::directory_entry))]
    pub fn read<S: Source>(
        alloc: Global,
        source: &mut CountedSource<S>,
    ) -> Result<result::Result<CodeView, NoDatabase>>
        ensures { ReadsSource (S.state source.old.source) (S.state source.new.source) (found_view record_view) result
            image_record }
    {
        let headers = match read_headers(alloc, source)? {
            Ok(headers) => headers,
            Err(none) => return Ok(Err(none)),
        };
        let span = match directory_span(alloc, source, headers)? {
            Ok(span) => span,
            Err(none) => return Ok(Err(none)),
        };
        let start = match directory_start(alloc, source, headers, span)? {
            Ok(start) => start,
            Err(none) => return Ok(Err(none)),
        };
        let count = span.size / ENTRY_SIZE;
        if count == 0 {
            return Ok(Err(NoDatabase::Unnamed));
        }
        let directory = source.read_part(alloc, start, (ENTRY_SIZE * count) as usize)?;
        let Some(entry) = code_view(directory.as_slice(), count)? else {
            return Ok(Err(NoDatabase::Unnamed));
        };
        if entry.size == 0 {
            return Ok(Err(NoDatabase::UnknownRecord));
        }
        if entry.size > MOST_RECORD {
            return Ok(Err(NoDatabase::LargeRecord));
        }
        let record = source.read_part(alloc, entry.start as u64, entry.size as usize)?;
        record_in(alloc, headers.machine, record.as_slice())
    }

    /// Returns the name of the database: the part of its path behind the last `\` or `/`.
    pub fn file_name(&self) -> &[u8]
        ensures { result.now ≡ last_part self.now.path.items }
    {
        let mut start = 0;
        for (place, byte) in self.path.iter().enumerate() {
            if *byte == b'\\' || *byte == b'/' {
                start = place + 1;
            }
        }
        &self.path[start..]
    }

    /// Returns the name that Breakpad has for the machine: `x86`, `x86_64`, `arm64`, `arm`, or
    /// `unknown`.
    pub fn cpu(&self) -> &'static str
        ensures { result.now ≡ cpu_name self.now.machine }
    {
        cpu_name(self.machine)
    }

    /// Returns whether a file is the database that the image names: its GUID is the same, and its
    /// age, which is that of its key.
    pub fn is_of(&self, identity: &Identity) -> bool
        ensures { IsTrue result ↔ IsDatabaseOf self.now identity.now }
    {
        self.guid == identity.guid && self.age == identity.age()
    }

    /// Returns the key under which a symbol store keeps the database: the 32 digits of the GUID and
    /// the age, in upper case.
    pub fn key(&self) -> UpperKey
        ensures guid { result.guid ≡ self.now.guid }
        ensures age { result.age ≡ self.now.age }
    {
        UpperKey {
            guid: self.guid,
            age: self.age,
        }
    }

    /// Returns the same key in lower case, as the conventions for SSQP have it.
    pub fn lower_key(&self) -> LowerKey
        ensures guid { result.guid ≡ self.now.guid }
        ensures age { result.age ≡ self.now.age }
    {
        LowerKey {
            guid: self.guid,
            age: self.age,
        }
    }
}
