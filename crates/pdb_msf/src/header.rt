//! The header of a file.

ghost use Rattle.std.specs.Prelude.{◌≡◌, ◌<◌, ◌≤◌, ◌*◌, ◌^◌, drop, min, vec_len, IfOk, OnOk};
ghost use Rattle.pdb_base.specs.Answer.{Answers, Gives};
ghost use Rattle.pdb_base.specs.Place.{left};
ghost use Rattle.pdb_msf.specs.Pages.{pages, words, valid_page, page_numbers};
ghost use Rattle.pdb_msf.specs.Header.{is_page_size, magic_of, fields_of_header, geometry_of, head_of, header_view};
ghost use Rattle.pdb_msf.specs.Header.{IsHeader, directory_pages, location_pages};
ghost use Rattle.pdb_msf.specs.Exactly.{RefusesExactly};

use crate::magic::{big, small};
use pdb_base::{Error, ParseBuffer, Result};
use std::alloc::Global;

/// The size of the fields of a header in bytes.
const FIELDS_SIZE: usize = 52;

/// The fields at fixed offsets of a header.
#[derive(Clone, Copy, Debug)]
pub struct Geometry {
    /// The size of a page in bytes: a power of two from 256 to 8,388,608.
    pub page_size: u32,
    /// The highest page number that may be used.
    pub pages_used: u32,
    /// The size of the directory in bytes.
    pub directory_size: u32,
}

/// The contents of a header.
#[derive(Debug, Drop)]
pub struct Header {
    pub geometry: Geometry,
    /// The pages that hold the directory's page numbers.
    pub location: Vec<u32>,
}

impl Geometry {
    /// Returns how many pages hold `bytes` bytes.
    #[tactic(auto, unfolding(crate::specs::Pages::pages))]
    pub fn pages(self, bytes: usize) -> usize
        requires { 0 < self.page_size }
        ensures pages { result ≡ pages self.page_size bytes }
        ensures few { result ≤ bytes }
    {
        bytes.div_ceil(self.page_size as usize)
    }

    /// Returns how many pages hold the directory.
    pub fn directory_pages(self) -> usize
        requires { 0 < self.page_size }
        ensures pages { result ≡ directory_pages self }
        ensures few { result < 2 ^ 32 }
    {
        self.pages(self.directory_size as usize)
    }

    /// Returns how many pages hold the numbers of the directory's pages, four bytes each.
    pub fn location_pages(self) -> usize
        requires { 0 < self.page_size }
        ensures { result ≡ location_pages self }
    {
        self.pages(4 * self.directory_pages())
    }

    /// Checks a page number, and returns it if it is neither 0 nor above `pages_used`.
    pub fn judge(self, number: u32) -> Result<u32>
        ensures { Gives (λ n. n) result (valid_page self.pages_used number) }
    {
        if number == 0 || number > self.pages_used {
            return Err(Error::PageReferenceOutOfRange(number));
        }
        Ok(number)
    }

    /// Reads the next `count` words as page numbers, and checks each before the next.
    pub fn page_numbers(
        self,
        alloc: Global,
        buffer: &mut ParseBuffer<'_>,
        count: usize,
    ) -> Result<Vec<u32>>
        ensures numbers { Answers (λ v. v.items) result (page_numbers self.pages_used count (words (left buffer.old))) }
        ensures count { IfOk result (λ v. vec_len v ≡ count) }
        ensures rest { OnOk result (words (left buffer.new) ≡ drop count (words (left buffer.old))) }
        // The first number is checked before anything is allocated.
        ensures exact { RefusesExactly result (page_numbers self.pages_used (min 1 count) (words (left buffer.old))) }
    {
        let mut numbers = Vec::new(alloc);
        for _ in 0..count {
            let word = buffer.parse_u32()?;
            let number = self.judge(word)?;
            numbers.push(number)?;
        }
        Ok(numbers)
    }
}

/// Returns whether the format allows this page size.
fn is_page_size(size: u32) -> bool
    ensures { result ≡ is_page_size size }
{
    size.is_power_of_two() && (0x100..=0x800000).contains(&size)
}

/// Checks that a file has at least 52 bytes and begins with the magic of the format that is read.
#[tactic(auto, using(crate::proofs::MagicLemmas::is_big, crate::proofs::MagicLemmas::is_small), unfolding(crate::specs::Header::magic_of))]
fn check_magic(view: &[u8]) -> Result<()>
    ensures { Gives (λ x. x) result (magic_of view.now) }
{
    if view.len() < FIELDS_SIZE {
        return Err(Error::UnexpectedEof);
    }
    if view.starts_with(small::MAGIC) {
        return Err(Error::UnimplementedFeature("small MSF file format"));
    }
    if !view.starts_with(big::MAGIC) {
        return Err(Error::UnrecognizedFileFormat);
    }
    Ok(())
}

/// Reads the fields of a header, including the magic.
#[tactic(auto, unfolding(crate::specs::Header::fields_of_header))]
fn read_fields(buffer: &mut ParseBuffer<'_>) -> Result<Geometry>
    ensures { Gives (λ geometry. (geometry, left buffer.new)) result (fields_of_header (left buffer.old)) }
{
    buffer.take(big::MAGIC.len())?;
    let page_size = buffer.parse_u32()?;
    let _free_page_map = buffer.parse_u32()?;
    let pages_used = buffer.parse_u32()?;
    let directory_size = buffer.parse_u32()?;
    let _reserved = buffer.parse_u32()?;
    Ok(Geometry {
        page_size,
        pages_used,
        directory_size,
    })
}

/// Reads and checks the fields at the start of a file, and returns them with a buffer of the bytes
/// that follow them.
#[tactic(auto, unfolding(crate::specs::Header::geometry_of))]
fn read_geometry(view: &[u8]) -> Result<(Geometry, ParseBuffer<'_>)>
    ensures { Gives (λ read. (read.0, left read.1)) result (geometry_of view.now) }
{
    check_magic(view)?;
    let mut buffer = ParseBuffer::from(view);
    let geometry = read_fields(&mut buffer)?;
    if !is_page_size(geometry.page_size) {
        return Err(Error::InvalidPageSize(geometry.page_size));
    }
    Ok((geometry, buffer))
}

/// Reads the header at the start of a file.
#[tactic(auto, unfolding(crate::specs::Header::head_of, crate::specs::Header::geometry_of))]
pub fn read_header(alloc: Global, view: &[u8]) -> Result<Header>
    ensures head { Answers header_view result (head_of view.now) }
    ensures exact { RefusesExactly result (geometry_of view.now) }
    ensures sound { IfOk result IsHeader }
{
    let (geometry, mut buffer) = read_geometry(view)?;
    let count = geometry.location_pages();
    let location = geometry.page_numbers(alloc, &mut buffer, count)?;
    Ok(Header { geometry, location })
}
