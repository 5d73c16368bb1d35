//! Views of a source, and reads of what lies scattered over its pages.

ghost use Rattle.std.specs.Prelude.{◌≡◌, ◌≢◌, ◌*◌, ◌^◌, ◌<◌, ◌≤◌, nat_lt, Ok, IsTrue, length, map, IfOk};
ghost use Rattle.std.specs.IoError.{error_kind};
ghost use Rattle.std.specs.List.{range_with_len};
ghost use Rattle.pdb_base.specs.Refusal.{refusal_of};
ghost use Rattle.pdb_base.specs.Answer.{Answers, AnswersUnless};
ghost use Rattle.pdb_msf.specs.Source.{HasFailed, IsFixed, IsKept, IsLastFault, KeepsKind, State, TellsKind, bytes_at};
ghost use Rattle.pdb_msf.specs.Source.{ReadsSource, bytes_or_eof, file_part, positions};
ghost use Rattle.pdb_msf.specs.Pages.{position_of, scatter};
ghost use Rattle.pdb_msf.specs.Asked.{Asks};

use crate::page_list::PageList;
use crate::source::{ReadView, Source, SourceSlice};
use pdb_base::{Error, Result};
use std::alloc::Global;
use std::io;
use std::io::ErrorKind;

/// Converts an error of a source: the kind `OutOfMemory` becomes `OutOfMemory`, and any other kind
/// an `IoError` that holds the source's own error.
pub fn source_error(error: io::Error) -> Error
    ensures memory { error_kind error ≡ ErrorKind.OutOfMemory → result ≡ Error.OutOfMemory }
    ensures other { error_kind error ≢ ErrorKind.OutOfMemory → result ≡ Error.IoError error }
    ensures kind { (state : State) → IsLastFault state (error_kind error) → TellsKind state (refusal_of result) }
{
    match error.kind() {
        ErrorKind::OutOfMemory => Error::OutOfMemory,
        _ => Error::IoError(error),
    }
}

/// Views slices of a source.
fn view<S: Source>(source: &mut S, alloc: Global, slices: &[SourceSlice]) -> Result<ReadView>
    ensures bytes { IsFixed (S.state source.old) → AnswersUnless (HasFailed (S.state source.old) (S.state source.new))
        (λ v. v) result (bytes_or_eof (bytes_at (S.state source.old).bytes (positions slices.now))) }
    ensures len { IfOk result (λ v. length v ≡ length (positions slices.now)) }
    ensures kept { IsKept (S.state source.old) (S.state source.new) }
    ensures kind { KeepsKind (S.state source.new) result }
{
    match source.view(alloc, slices) {
        Ok(view) => Ok(view),
        Err(error) => Err(source_error(error)),
    }
}

/// Views slices of a source, and consumes it.
fn into_view<S: Source + Drop>(source: S, alloc: Global, slices: &[SourceSlice]) -> Result<ReadView>
    ensures bytes { IsFixed (S.state source) → AnswersUnless (¬ IsTrue (S.state source).is_sound) (λ v. v) result
        (bytes_or_eof (bytes_at (S.state source).bytes (positions slices.now))) }
    ensures len { IfOk result (λ v. length v ≡ length (positions slices.now)) }
{
    source.into_view(alloc, slices).map_err(source_error)
}

/// Returns the positions of the first `size` bytes of these pages.
fn page_list(alloc: Global, page_size: u32, numbers: &[u32], size: usize) -> Result<PageList>
    requires size { (0 < page_size) × (page_size ≤ 0x800000) }
    requires reached { size ≤ length numbers.now * page_size }
    requires few { length numbers.now ≤ 2 ^ 40 }
    ensures positions { Answers (λ l. positions l.slices) result
        (Ok (map (position_of page_size numbers.now) (range_with_len 0 size))) }
    ensures len { IfOk result (λ l. length (positions l.slices) ≡ size) }
{
    let mut list = PageList::new(alloc, page_size);
    for number in numbers {
        list.push(*number)?;
    }
    list.truncate(size);
    Ok(list)
}

/// A source, and how many bytes were requested from it. Every read of streams, of the directory and
/// of parts counts them.
#[derive(Drop)]
pub struct CountedSource<S: Source> {
    pub(crate) source: S,
    asked: u64,
    ghost fits: { asked < 2 ^ 64 },
}

impl<S: Source> CountedSource<S> {
    /// Wraps a source from which nothing was requested yet.
    pub fn new(source: S) -> Self
        ensures source { result.source ≡ source }
        ensures asked { result.asked ≡ 0 }
    {
        CountedSource { source, asked: 0 }
    }

    /// Returns the source itself.
    pub fn source(&self) -> &S
        ensures { result.now ≡ self.now.source }
    {
        &self.source
    }

    /// Returns how many bytes were requested from the source, at most `u64::MAX`.
    pub fn asked(&self) -> u64
        ensures { result ≡ self.now.asked }
    {
        self.asked
    }

    /// Reads the first `size` bytes of what is scattered over these pages.
    #[tactic(auto, unfolding(crate::specs::Pages::scatter), using(crate::proofs::PageLemmas::length_found))]
    pub fn read_scattered(
        &mut self,
        alloc: Global,
        page_size: u32,
        numbers: &[u32],
        size: usize,
    ) -> Result<ReadView>
        requires size { (0 < page_size) × (page_size ≤ 0x800000) }
        requires reached { size ≤ length numbers.now * page_size }
        requires few { length numbers.now ≤ 2 ^ 40 }
        ensures bytes { IsFixed (S.state self.old.source) → AnswersUnless
            (HasFailed (S.state self.old.source) (S.state self.new.source)) (λ v. v) result
            (bytes_or_eof (scatter (S.state self.old.source).bytes page_size numbers.now size)) }
        ensures len { IfOk result (λ v. length v ≡ size) }
        ensures kept { IsKept (S.state self.old.source) (S.state self.new.source) }
        ensures kind { KeepsKind (S.state self.new.source) result }
        ensures asked { Asks self.old.asked self.new.asked size result }
    {
        let list = page_list(alloc, page_size, numbers, size)?;
        self.asked = self.asked.saturating_add(list.len() as u64);
        view(&mut self.source, alloc, list.source_slices())
    }

    /// Reads `size` bytes from `offset` on.
    ///
    /// # Errors
    /// Fails with `IoError` if the source ends before them or fails otherwise, and with
    /// `OutOfMemory` if an allocation fails.
    #[tactic(auto, unfolding(crate::specs::Source::file_part), using(crate::proofs::PositionLemmas::part_there, crate::proofs::PositionLemmas::part_cut, crate::proofs::PositionLemmas::part_long))]
    pub fn read_part(&mut self, alloc: Global, offset: u64, size: usize) -> Result<ReadView>
        requires { 0 < size }
        ensures part { ReadsSource (S.state self.old.source) (S.state self.new.source) (λ v. v) result
            (λ file. file_part file offset size) }
        ensures len { IfOk result (λ v. length v ≡ size) }
    {
        let slices = [SourceSlice { offset, size }];
        self.asked = self.asked.saturating_add(size as u64);
        view(&mut self.source, alloc, &slices)
    }

    /// Returns whether the source has a byte at an offset.
    #[tactic(auto, using(crate::proofs::PositionLemmas::byte_there, crate::proofs::PositionLemmas::byte_missing))]
    fn has_byte(&mut self, alloc: Global, offset: u64) -> Result<bool>
        ensures { ReadsSource (S.state self.old.source) (S.state self.new.source) (λ has. has) result
            (λ file. Ok (nat_lt offset (length file))) }
    {
        let slices = [SourceSlice { offset, size: 1 }];
        self.asked = self.asked.saturating_add(1);
        let Err(error) = self.source.view(alloc, &slices) else {
            return Ok(true);
        };
        match error.kind() {
            ErrorKind::UnexpectedEof => Ok(false),
            _ => Err(source_error(error)),
        }
    }

    /// Returns how many bytes the source has. It is found by halves, from which single bytes the
    /// source has, so that at most 65 are requested.
    ///
    /// # Errors
    /// Fails with `IoError` if the source fails, and with `OutOfMemory` if an allocation fails or
    /// if the source has more than `u64::MAX` bytes.
    pub fn size(&mut self, alloc: Global) -> Result<u64>
        ensures { ReadsSource (S.state self.old.source) (S.state self.new.source) (λ size. size) result
            (λ file. Ok (length file)) }
    {
        if self.has_byte(alloc, u64::MAX)? {
            return Err(Error::OutOfMemory);
        }
        let mut least = 0u64;
        let mut most = u64::MAX;
        while least < most {
            let middle = least + (most - least) / 2;
            if self.has_byte(alloc, middle)? {
                least = middle + 1;
            } else {
                most = middle;
            }
        }
        Ok(least)
    }
}

impl<S: Source + Drop> CountedSource<S> {
    /// Reads the first `size` bytes of what is scattered over these pages, as `read_scattered`
    /// does, and consumes the source.
    #[tactic(auto, unfolding(crate::specs::Pages::scatter), using(crate::proofs::PageLemmas::length_found))]
    pub fn into_scattered(
        self,
        alloc: Global,
        page_size: u32,
        numbers: &[u32],
        size: usize,
    ) -> Result<ReadView>
        requires size { (0 < page_size) × (page_size ≤ 0x800000) }
        requires reached { size ≤ length numbers.now * page_size }
        requires few { length numbers.now ≤ 2 ^ 40 }
        ensures bytes { IsFixed (S.state self.source) → AnswersUnless (¬ IsTrue (S.state self.source).is_sound)
            (λ v. v) result (bytes_or_eof (scatter (S.state self.source).bytes page_size numbers.now size)) }
        ensures len { IfOk result (λ v. length v ≡ size) }
    {
        let list = page_list(alloc, page_size, numbers, size)?;
        let CountedSource { source, .. } = self;
        into_view(source, alloc, list.source_slices())
    }
}
