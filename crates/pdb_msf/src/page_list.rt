//! The positions of pages in a file.

ghost use Rattle.std.specs.Prelude.{◌≡◌, ◌==◌, ◌+◌, ◌^◌, ◌<◌, ◌≤◌, ◌∷◌, ◌++◌, [], false, true, length, take};
ghost use Rattle.std.specs.Prelude.{OnOk, OnErr};
ghost use Rattle.pdb_base.specs.Memory.{FailsOnlyForMemory};
ghost use Rattle.pdb_msf.specs.Source.{positions};
ghost use Rattle.pdb_msf.specs.PageList.{first_bytes_of, page_positions, page_slice, with_slice};

use crate::source::SourceSlice;
use pdb_base::Result;
use std::alloc::Global;
use std::marker::Model;

/// The positions in a file of what is scattered over pages, as slices of a source.
///
/// A page whose number is one above that of the page before it lengthens the last slice. Any other
/// page begins a new slice, even if it was added before or its number is lower.
#[derive(Debug, Drop)]
pub struct PageList {
    page_size: u32,
    slices: Vec<SourceSlice>,
    len: usize,
    is_truncated: bool,
}

impl Model for PageList {
    ghost use Rattle.std.specs.Prelude.{◌≡◌, ◌≤◌, length};
    ghost use Rattle.pdb_msf.specs.Source.{positions};
    ghost use Rattle.pdb_msf.specs.PageList.{SliceList};

    ghost Value = { SliceList };

    ghost view = { λ l. record { page_size = l.page_size; slices = l.slices.items; is_truncated = l.is_truncated } };

    ghost invariant = { λ l. (l.len ≡ length (positions l.slices.items)) × (l.page_size ≤ 0x800000) };
}

impl PageList {
    /// Returns an empty list of pages that have `page_size` bytes each, from 1 to 8,388,608.
    pub fn new(alloc: Global, page_size: u32) -> Self
        requires positive { 1 ≤ page_size }
        requires small { page_size ≤ 0x800000 }
        ensures { result ≡ record { page_size = page_size; slices = []; is_truncated = false } }
    {
        PageList {
            page_size,
            slices: Vec::new(alloc),
            len: 0,
            is_truncated: false,
        }
    }

    /// Adds a page at the end. The list must not be truncated, and its length in bytes must stay
    /// below 2^64.
    ///
    /// # Errors
    /// Returns `OutOfMemory` if an allocation fails, and leaves the list unchanged. Memory is
    /// allocated only if the page begins a new slice.
    pub fn push(&mut self, page: u32) -> Result<()>
        requires whole { self.old.is_truncated ≡ false }
        requires room { length (positions self.old.slices) + self.old.page_size < 2 ^ 64 }
        ensures slices { OnOk result (self.new ≡
            record self.old { slices = with_slice self.old.slices (page_slice self.old.page_size page) }) }
        ensures positions { OnOk result (
            positions self.new.slices ≡ positions self.old.slices ++ page_positions self.old.page_size page) }
        ensures memory { FailsOnlyForMemory result }
        ensures begins { OnErr result (with_slice self.old.slices (page_slice self.old.page_size page) ≡
            self.old.slices ++ page_slice self.old.page_size page ∷ []) }
        ensures err { OnErr result (self.new ≡ self.old) }
    {
        let size = self.page_size as usize;
        let offset = page as u64 * self.page_size as u64;
        add_slice(&mut self.slices, SourceSlice { offset, size })?;
        self.len += size;
        Ok(())
    }

    /// Keeps the first `len` bytes, or all if there are fewer. The list then counts as truncated,
    /// however many bytes it had.
    pub fn truncate(&mut self, len: usize)
        ensures slices { self.new ≡ record self.old {
          slices = first_bytes_of len self.old.slices;
          is_truncated = true;
        } }
        ensures positions { positions self.new.slices ≡ take len (positions self.old.slices) }
    {
        self.is_truncated = true;
        while self.len > len {
            let Some(last) = self.slices.pop() else {
                return;
            };
            self.len -= last.size;
            if self.len < len {
                self.slices.push_reserved(SourceSlice {
                    offset: last.offset,
                    size: len - self.len,
                });
                self.len = len;
            }
        }
    }

    /// Returns how many bytes the list holds.
    pub fn len(&self) -> usize
        ensures { result ≡ length (positions self.now.slices) }
    {
        self.len
    }

    /// Returns whether the list was truncated.
    pub fn is_truncated(&self) -> bool
        ensures { result ≡ self.now.is_truncated }
    {
        self.is_truncated
    }

    /// Returns the slices of a source into which the pages are joined.
    pub fn source_slices(&self) -> &[SourceSlice]
        ensures { result.now ≡ self.now.slices }
    {
        self.slices.as_slice()
    }
}

/// Adds a slice behind others, or joins it to the last of them if it begins exactly where that
/// ends.
fn add_slice(slices: &mut Vec<SourceSlice>, next: SourceSlice) -> Result<()>
    requires { length (positions slices.old.items) + next.size < 2 ^ 64 }
    ensures slices { OnOk result (slices.new.items ≡ with_slice slices.old.items next) }
    ensures memory { FailsOnlyForMemory result }
    ensures begins { OnErr result (with_slice slices.old.items next ≡ slices.old.items ++ next ∷ []) }
    ensures err { OnErr result (slices.new.items ≡ slices.old.items) }
{
    if let Some(last) = slices.last_mut() {
        if ends_at(*last, next.offset) {
            last.size += next.size;
            return Ok(());
        }
    }
    slices.push(next)?;
    Ok(())
}

/// Returns whether a slice ends at this offset.
fn ends_at(slice: SourceSlice, offset: u64) -> bool
    ensures { result ≡ (slice.offset + slice.size == offset) }
{
    offset.checked_sub(slice.offset) == Some(slice.size as u64)
}
