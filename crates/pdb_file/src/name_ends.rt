//! Where the names of streams end.

ghost use Rattle.std.specs.Prelude.{◌≡◌, ◌≤◌, length, drop, IfOk};
ghost use Rattle.memchr.specs.Find.{IsFirstByte, is_byte};
ghost use Rattle.pdb_base.specs.Answer.{Gives};
ghost use Rattle.pdb_base.specs.Memory.{FailsOnlyForMemory};
ghost use Rattle.pdb_file.specs.NameEnds.{IsFirstNul};
ghost use Rattle.pdb_space.specs.StringTable.{name_of};

use memchr::memchr;
use pdb_base::{Error, RawString, Result};
use std::alloc::Global;
use std::marker::Model;

/// How many bytes are searched at most for the end of a name.
const BLOCK_SIZE: usize = 512;

/// The names of streams, and an index of their NULs. The index is built in one pass over the names.
/// The end of a name is then found by a search of at most `BLOCK_SIZE` bytes, however long the name
/// is, so a file gains nothing by giving many streams one long name.
#[derive(Drop)]
pub(crate) struct NameEnds<'n> {
    names: &'n [u8],
    /// For each `n`, the place of the first NUL among the last `BLOCK_SIZE * n` bytes of the names.
    nuls: Vec<Option<usize>>,
}

impl<'n> Model for NameEnds<'n> {
    ghost use Rattle.std.specs.Prelude.{List, ℕ, ◌≡◌, ◌+◌, ◌/◌, length};
    ghost use Rattle.pdb_file.specs.NameEnds.{AreFirstNuls};

    ghost Value = { List ℕ };

    ghost view = { λ e. e.names.now };

    ghost invariant = { λ e. (length e.nuls.items ≡ length e.names.now / 512 + 1)
        × AreFirstNuls e.names.now e.nuls.items };
}

/// Returns the place of the first NUL from `start` on, given that of the first NUL from `end` on.
/// Only the bytes from `start` to `end` are searched.
#[tactic(auto, using(crate::proofs::NameEndLemmas::found_in_part, crate::proofs::NameEndLemmas::found_behind))]
fn first_nul(names: &[u8], start: usize, end: usize, behind: Option<usize>) -> Option<usize>
    requires order { start ≤ end }
    requires within { end ≤ length names.now }
    requires behind { IsFirstNul names.now end behind }
    ensures { IsFirstNul names.now start result }
{
    match memchr(0, &names[start..end]) {
        Some(len) => Some(start + len),
        None => behind,
    }
}

impl<'n> NameEnds<'n> {
    /// Indexes the NULs of these names, from the last block to the first.
    ///
    /// # Errors
    /// Fails with `OutOfMemory` if the allocation fails.
    pub(crate) fn new(alloc: Global, names: &'n [u8]) -> Result<Self>
        ensures names { IfOk result (λ ends. ends ≡ names.now) }
        ensures memory { FailsOnlyForMemory result }
    {
        let count = names.len() / BLOCK_SIZE + 1;
        let mut nuls = Vec::with_capacity(alloc, count)?;
        let mut end = names.len();
        let mut nul = None;
        for _ in 0..count {
            nuls.push_reserved(nul);
            let start = end.saturating_sub(BLOCK_SIZE);
            nul = first_nul(names, start, end, nul);
            end = start;
        }
        Ok(NameEnds { names, nuls })
    }

    /// Returns the length of the name at an offset, or None if there is no NUL from there on.
    fn name_len(&self, offset: usize) -> Option<usize>
        ensures { IsFirstByte (is_byte 0) (drop offset self.now) result }
    {
        let blocks = self.names.len().checked_sub(offset)? / BLOCK_SIZE;
        let end = self.names.len() - BLOCK_SIZE * blocks;
        let nul = first_nul(self.names, offset, end, self.nuls[blocks])?;
        Some(nul - offset)
    }

    /// Returns the name at an offset: the bytes from there up to the first NUL among the names.
    ///
    /// # Errors
    /// Fails with `UnexpectedEof` if there is no NUL among the names at or after the offset.
    #[tactic(auto, unfolding(pdb_space::specs::StringTable::name_of), using(pdb_base::proofs::TextLemmas::text_found, pdb_base::proofs::TextLemmas::text_cut))]
    pub(crate) fn name_at(&self, offset: usize) -> Result<RawString<'n>>
        ensures { Gives (λ name. name.0.now) result (name_of self.now offset) }
    {
        let Some(len) = self.name_len(offset) else {
            return Err(Error::UnexpectedEof);
        };
        Ok(RawString::from(&self.names[offset..offset + len]))
    }
}
