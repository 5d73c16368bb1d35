//! What the bytes of a file belong to, a line for each.

#![tactic(auto, using(pdbdump_rows::proofs::lemmas::Line::adding, pdbdump_rows::proofs::lemmas::Sink::adding_lines))]

ghost use Rattle.std.specs.Prelude.{◌<◌, []};
ghost use Rattle.pdb_base.specs.Memory.{FailsOnlyForMemory};
ghost use Rattle.pdbdump_rows.specs.Line.{AddsRow};
ghost use Rattle.pdbdump_rows.specs.{Rows.WritesLines, Sink.AddsLines};

use crate::roles::fixed_role;
use crate::streams::NO_STREAM;
use pdb_base::{Error, Result};
use pdb_msf::{CountedSource, Layout, Source};
use pdb_output::Output;
use pdbdump_rows::{Form, Line, Rows, Sheet, Value, optional_word};
use std::alloc::Global;
use std::io::Write;

/// What a byte of a file belongs to.
#[derive(Clone, Copy)]
enum Place {
    /// The header, a free page map, the directory, what locates that, or nothing.
    Named(&'static str),
    /// A stream.
    InStream {
        /// The number of the stream.
        number: u32,
        /// The byte of the stream.
        byte: u64,
        /// The size of the stream.
        size: u32,
    },
}

/// The layout of a file, and the pages of its directory.
#[derive(Drop)]
pub struct FilePages {
    layout: Layout,
    directory: Vec<u32>,
}

/// Returns the place of a page among others.
fn place_of(pages: &[u32], page: u32) -> Option<usize> {
    for (place, other) in pages.iter().enumerate() {
        if *other == page {
            return Some(place);
        }
    }
    None
}

/// Returns whether a page is one of the pages.
fn has_page(pages: &[u32], page: u32) -> bool {
    place_of(pages, page).is_some()
}

/// Returns whether a page is one of a free page map, which are pages 1 and 2 of each interval.
fn is_free_page_map(page_size: u32, page: u32) -> bool {
    page_size > 0 && (page % page_size == 1 || page % page_size == 2)
}

/// Returns how many streams can be named.
fn stream_count(layout: &Layout) -> u32 {
    match layout.stream_count() {
        Ok(count) => count.min(NO_STREAM),
        Err(_) => 0,
    }
}

/// Returns the pages of a stream, or none if the directory is damaged there.
fn pages_of(alloc: Global, layout: &Layout, number: u32) -> Result<Vec<u32>>
    ensures { FailsOnlyForMemory result }
{
    match layout.stream_pages(alloc, number) {
        Ok(pages) => Ok(pages),
        Err(Error::OutOfMemory) => Err(Error::OutOfMemory),
        Err(_) => Ok(Vec::new(alloc)),
    }
}

impl FilePages {
    /// Reads the layout of a file: its header and its directory.
    ///
    /// # Errors
    /// Fails as `Layout::read` and `Layout::directory_pages` do.
    pub fn read<S: Source>(alloc: Global, source: &mut CountedSource<S>) -> Result<Self> {
        let layout = Layout::read(alloc, source)?;
        let directory = layout.directory_pages(alloc, source)?;
        Ok(FilePages { layout, directory })
    }

    /// Returns what a page is called that no stream has, if it is one of those.
    fn name_of(&self, page: u32) -> Option<&'static str> {
        if page == 0 {
            Some("header")
        } else if is_free_page_map(self.layout.page_size(), page) {
            Some("free_page_map")
        } else if has_page(&self.directory, page) {
            Some("directory")
        } else if has_page(self.layout.location_pages(), page) {
            Some("directory_pages")
        } else {
            None
        }
    }

    /// Returns the first stream that has a page, and which of its pages it is.
    fn stream_at(&self, alloc: Global, page: u32) -> Result<Option<(u32, usize)>>
        ensures { FailsOnlyForMemory result }
    {
        for number in 0..stream_count(&self.layout) {
            let pages = pages_of(alloc, &self.layout, number)?;
            if let Some(place) = place_of(&pages, page) {
                return Ok(Some((number, place)));
            }
        }
        Ok(None)
    }

    /// Returns what a byte of a page belongs to.
    fn place(&self, alloc: Global, page: u32, byte: u32) -> Result<Place>
        ensures { FailsOnlyForMemory result }
    {
        if let Some(name) = self.name_of(page) {
            return Ok(Place::Named(name));
        }
        let Some((number, place)) = self.stream_at(alloc, page)? else {
            return Ok(Place::Named("free"));
        };
        let start = (place as u64).saturating_mul(self.layout.page_size() as u64);
        Ok(Place::InStream {
            number,
            byte: start.saturating_add(byte as u64),
            size: self.layout.stream_size(number).unwrap_or(0),
        })
    }
}

/// Returns the value of a flag, or `Absent` if it isn't set.
fn set_flag<'t>(is_set: bool) -> Value<'t> {
    if is_set {
        Value::Flag(true)
    } else {
        Value::Absent
    }
}

/// Adds what a byte belongs to. A byte behind the end of the stream in its last page is unused.
fn show_owner(line: &mut Line, place: Place)
    ensures { AddsRow [] line.old line.new }
{
    match place {
        Place::Named(name) => line.field("role", Value::Word(name)),
        Place::InStream { number, byte, size } => {
            let is_unused = byte >= size as u64;
            line.fields(&[
                ("stream", Value::Number(number as u64)),
                ("byte", Value::Number(byte)),
                ("role", optional_word(fixed_role(number))),
                ("unused", set_flag(is_unused)),
            ]);
        }
    }
}

/// Writes the line of a byte by its offset: its page, and what it belongs to.
fn write_place<W: Write>(rows: &mut Rows<'_, W>, pages: &FilePages, offset: u32)
    ensures { AddsLines rows.old rows.new }
{
    let page_size = pages.layout.page_size();
    let page = offset.checked_div(page_size).unwrap_or(0);
    let byte = offset.checked_rem(page_size).unwrap_or(0);
    match pages.place(rows.alloc(), page, byte) {
        Ok(place) => {
            rows.begin();
            rows.sheet.line.field("offset", Value::Hexadecimal(offset));
            rows.sheet.line.field("page", Value::Number(page as u64));
            show_owner(&mut rows.sheet.line, place);
            rows.end();
        }
        Err(_) => rows.lack(),
    }
}

/// Writes for each offset of a byte in a file which page and which stream the byte belongs to, and
/// which byte of the stream it is.
///
/// # Errors
/// Fails with `IoError` if the writer fails, and with `OutOfMemory` if an allocation fails.
pub fn list_places<W: Write>(
    alloc: Global,
    pages: &FilePages,
    offsets: &[u32],
    form: Form,
    out: &mut Output<W>,
) -> Result<()>
    ensures { WritesLines form out.old out.new result }
{
    let mut sheet = Sheet::new(alloc, form);
    let mut rows = Rows::new(&mut sheet, out);
    for offset in offsets {
        write_place(&mut rows, pages, *offset);
    }
    rows.finish()
}
