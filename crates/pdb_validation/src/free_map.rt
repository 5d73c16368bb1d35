//! Which pages a file marks as free.

ghost use Rattle.std.specs.Prelude.{◌≡◌, ◌+◌, ◌%◌, ◌/◌, ◌<◌, ◌≤◌, drop, length, slice_get, take, IfOk, Ok, OnOk};
ghost use Rattle.pdb_base.specs.Reading.{word_at};
ghost use Rattle.pdb_msf.specs.Source.{IsFixed, ReadsSource};
ghost use Rattle.pdb_validation.specs.FreeMap.{IsMapOf, map_start};
ghost use Rattle.pdb_validation.specs.Pages.{active_map, has_bit, is_free};

use byteorder::{ByteOrder, LittleEndian};
use pdb_base::Result;
use pdb_msf::{CountedSource, ReadView, Source, SourceView};
use std::alloc::Global;

/// The active free page map of a file, of which one page is kept in memory.
#[derive(Drop)]
pub(crate) struct FreeMap {
    /// The size of a page in bytes.
    page_size: u32,

    /// The number of the map, which is that of its first page.
    map: u32,

    /// The size of the file in bytes.
    size: u64,

    /// The byte of the file with which the page that is kept begins.
    start: u64,

    /// The bytes of that page, as far as the file has them.
    bytes: ReadView,
}

/// The byte of a file at which its header has the number of the free page map that is active.
pub(crate) const MAP_BYTE: u64 = 36;

/// Returns the number of four bytes at a byte of a file's header.
#[tactic(auto, using(crate::proofs::FieldLemmas::word_there))]
pub(crate) fn header_word<S: Source>(
    alloc: Global,
    source: &mut CountedSource<S>,
    byte: u64,
) -> Result<u32>
    requires { IsFixed (S.state source.old.source) → byte + 4 ≤ length (S.state source.old.source).bytes }
    ensures { ReadsSource (S.state source.old.source) (S.state source.new.source) (λ word. word) result
        (λ file. Ok (word_at byte file)) }
{
    let word = source.read_part(alloc, byte, 4)?;
    Ok(LittleEndian::read_u32(word.as_slice()))
}

/// Returns the byte of the file with which the page of a map begins that has the bit of a page.
fn map_start(page_size: u32, map: u32, page: u32) -> u64
    requires positive { 0 < page_size }
    requires map { map ≤ 2 }
    ensures { result ≡ map_start page_size map page }
{
    let size = page_size as u64;
    let byte = (page / 8) as u64;
    (map as u64 + byte / size * size) * size
}

/// Reads a page of a file of `size` bytes from `start` on, as far as the file has it.
#[tactic(auto, using(crate::proofs::FreeMapLemmas::page_read, crate::proofs::FreeMapLemmas::page_past))]
fn read_page<S: Source>(
    alloc: Global,
    source: &mut CountedSource<S>,
    page_size: u32,
    size: u64,
    start: u64,
) -> Result<ReadView>
    requires { IsFixed (S.state source.old.source) → size ≡ length (S.state source.old.source).bytes }
    ensures { ReadsSource (S.state source.old.source) (S.state source.new.source) (λ bytes. bytes) result
        (λ file. Ok (take page_size (drop start file))) }
{
    let there = size.saturating_sub(start).min(page_size as u64) as usize;
    if there == 0 {
        return Ok(ReadView::new(Vec::new(alloc)));
    }
    source.read_part(alloc, start, there)
}

impl FreeMap {
    /// Returns the active free page map of a file of `size` bytes. No page of it is read yet: what
    /// is kept is the end of the file, where there are no bytes.
    #[tactic(auto, using(crate::proofs::FreeMapLemmas::end_read))]
    pub(crate) fn of<S: Source>(
        alloc: Global,
        source: &mut CountedSource<S>,
        page_size: u32,
        size: u64,
    ) -> Result<FreeMap>
        requires header { IsFixed (S.state source.old.source) → 40 ≤ length (S.state source.old.source).bytes }
        requires size { IsFixed (S.state source.old.source) → size ≡ length (S.state source.old.source).bytes }
        ensures reads { ReadsSource (S.state source.old.source) (S.state source.new.source) (λ free. free.map) result
            (λ file. Ok (active_map file)) }
        ensures map { IfOk result (λ free. IsFixed (S.state source.old.source) →
            IsMapOf (S.state source.old.source).bytes free) }
        ensures sized { IfOk result (λ free. free.page_size ≡ page_size) }
    {
        let map = header_word(alloc, source, MAP_BYTE)?;
        Ok(FreeMap {
            page_size,
            map,
            size,
            start: size,
            bytes: ReadView::new(Vec::new(alloc)),
        })
    }

    /// Reads the page of the map that begins with a byte of the file, unless it is the one that is
    /// kept.
    fn turn_to<S: Source>(
        &mut self,
        alloc: Global,
        source: &mut CountedSource<S>,
        start: u64,
    ) -> Result<()>
        requires { IsFixed (S.state source.old.source) → IsMapOf (S.state source.old.source).bytes self.old }
        ensures reads { ReadsSource (S.state source.old.source) (S.state source.new.source) (λ done. self.new.bytes)
            result (λ file. Ok (take self.old.page_size (drop start file))) }
        ensures map { OnOk result (IsFixed (S.state source.old.source) →
            IsMapOf (S.state source.old.source).bytes self.new) }
        ensures sized { self.new.page_size ≡ self.old.page_size }
    {
        if self.start == start {
            return Ok(());
        }
        self.bytes = read_page(alloc, source, self.page_size, self.size, start)?;
        self.start = start;
        Ok(())
    }

    /// Returns whether the page that is kept has the bit of a page set.
    fn has_bit(&self, page: u32) -> bool
        requires { 0 < self.now.page_size }
        ensures { result ≡ has_bit (slice_get self.now.bytes (page / 8 % self.now.page_size)) (page % 8) }
    {
        match self
            .bytes
            .as_slice()
            .get((page / 8 % self.page_size) as usize)
        {
            Some(byte) => (*byte >> (page % 8)) % 2 == 1,
            None => false,
        }
    }

    /// Returns whether the map marks a page as free.
    #[tactic(auto, using(crate::proofs::FreeMapLemmas::byte_kept))]
    pub(crate) fn is_free<S: Source>(
        &mut self,
        alloc: Global,
        source: &mut CountedSource<S>,
        page: u32,
    ) -> Result<bool>
        requires sized { 0 < self.old.page_size }
        requires map { IsFixed (S.state source.old.source) → IsMapOf (S.state source.old.source).bytes self.old }
        ensures free { ReadsSource (S.state source.old.source) (S.state source.new.source) (λ is_free. is_free) result
            (λ file. Ok (is_free file self.old.page_size (active_map file) page)) }
        ensures map { OnOk result (IsFixed (S.state source.old.source) →
            IsMapOf (S.state source.old.source).bytes self.new) }
        ensures sized { self.new.page_size ≡ self.old.page_size }
    {
        if self.map != 1 && self.map != 2 {
            return Ok(false);
        }
        self.turn_to(alloc, source, map_start(self.page_size, self.map, page))?;
        Ok(self.has_bit(page))
    }
}
