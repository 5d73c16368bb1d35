//! Where the bytes of a file come from.

ghost use Rattle.std.specs.Prelude.{◌≡◌, ◌++◌, ℕ, List, length, map, IsTrue, OnOk, IfOk, IfErr, IsErrAnd, None, true};
ghost use Rattle.std.specs.Prelude.{false};
ghost use Rattle.std.specs.Prelude.{slice_index};
ghost use Rattle.std.specs.IoError.{error_kind};
ghost use Rattle.pdb_msf.specs.Source.{State, IsFixed, IsKept, IsLastFault, in_memory, HasFailed, ShowsBytes, bytes_at};
ghost use Rattle.pdb_msf.specs.Source.{positions, slice_positions};
ghost use Rattle.std.specs.List.{list_all};
ghost use Rattle.pdb_msf.specs.Within.{is_within, if_fits_usize};

use crate::in_place::{can_be_joined, join_slices};
use std::alloc::{AllocError, Global};
use std::io;
use std::io::ErrorKind;
use std::marker::Model;

/// A part of a source: `size` bytes from `offset` on.
#[derive(Clone, Copy, Debug, PartialEq, Eq)]
pub struct SourceSlice {
    /// Where the part begins, in bytes from the start of the source.
    pub offset: u64,
    /// The size of the part in bytes.
    pub size: usize,
}

/// A view of bytes of a source.
pub trait SourceView {
    // The bytes that are shown.
    ghost shown: { Self → List ℕ };

    /// Returns the bytes, slice after slice in the order in which they were requested.
    fn as_slice(&self) -> &[u8]
        ensures { result.now ≡ shown self.now };
}

/// The view of a source that reads its bytes into memory.
#[derive(Debug, Drop)]
pub struct ReadView {
    bytes: Vec<u8>,
}

impl Model for ReadView {
    ghost use Rattle.std.specs.Prelude.{List, ℕ};

    ghost Value = { List ℕ };

    ghost view = { λ v. v.bytes.items };
}

impl ReadView {
    /// Returns a view of these bytes.
    pub fn new(bytes: Vec<u8>) -> Self
        ensures { result ≡ bytes.items }
    {
        ReadView { bytes }
    }

    /// Returns the bytes of the view as a vector.
    pub(crate) fn into_bytes(self) -> Vec<u8>
        ensures { result.items ≡ self }
    {
        let ReadView { bytes } = self;
        bytes
    }
}

impl SourceView for ReadView {
    ghost shown = { λ v. v };

    fn as_slice(&self) -> &[u8] {
        self.bytes.as_slice()
    }
}

/// A source of the bytes of a file.
///
/// A source has bytes, which are the same whenever they are read if they are fixed. It may fail for
/// other reasons than that its bytes end or that an allocation fails, and counts these faults; a
/// sound source does not fail so.
pub trait Source {
    // The bytes, whether they are fixed, the count of faults so far and the kind of the last one,
    // and whether the source is sound.
    ghost state: { Self → State };

    /// Returns the bytes that the slices name, slice after slice.
    ///
    /// # Errors
    /// The error has kind `UnexpectedEof` only if a slice of one or more bytes passes the end of
    /// the bytes, kind `OutOfMemory` only if an allocation fails, and any other kind only if the
    /// source's count of faults rises.
    fn view(&mut self, alloc: Global, slices: &[SourceSlice]) -> Result<ReadView, io::Error>
        ensures view { IsFixed (state self.old) → ShowsBytes (HasFailed (state self.old) (state self.new)) (λ v. v)
            result (bytes_at (state self.old).bytes (positions slices.now)) }
        ensures len { IfOk result (λ v. length v ≡ length (positions slices.now)) }
        ensures kind { IfErr result (λ e. IsLastFault (state self.new) (error_kind e)) }
        ensures kept { IsKept (state self.old) (state self.new) };

    /// Returns the bytes that the slices name, as `view` does, and consumes the source.
    ///
    /// # Errors
    /// Fails as `view` does.
    fn into_view(mut self, alloc: Global, slices: &[SourceSlice]) -> Result<ReadView, io::Error>
    where
        Self: Sized + Drop,
        ensures view { IsFixed (state self) → ShowsBytes (¬ IsTrue (state self).is_sound) (λ v. v) result
            (bytes_at (state self).bytes (positions slices.now)) }
        ensures len { IfOk result (λ v. length v ≡ length (positions slices.now)) }
    {
        self.view(alloc, slices)
    }
}

impl Source for Vec<u8> {
    ghost state = { λ file. in_memory file.items };

    /// Returns a copy of the bytes that the slices name.
    ///
    /// # Errors
    /// The error has kind `UnexpectedEof` if a slice of one or more bytes passes the end, which is
    /// checked before anything is allocated. It has kind `OutOfMemory` if an allocation fails, or
    /// if the sum of the sizes is above `usize::MAX`.
    fn view(&mut self, alloc: Global, slices: &[SourceSlice]) -> Result<ReadView, io::Error>
        ensures view { ShowsBytes ⊥ (λ v. v) result (bytes_at self.old.items (positions slices.now)) }
        ensures len { IfOk result (λ v. length v ≡ length (positions slices.now)) }
        ensures exact { bytes_at self.old.items (positions slices.now) ≡ None →
            IsErrAnd result (λ e. error_kind e ≡ ErrorKind.UnexpectedEof) }
        ensures kept { self.new ≡ self.old }
    {
        view_of(self.as_slice(), alloc, slices)
    }

    /// Returns the bytes that the slices name. If they can be joined in place, the view keeps the
    /// file's own memory, and nothing is allocated.
    fn into_view(self, alloc: Global, slices: &[SourceSlice]) -> Result<ReadView, io::Error> {
        into_view_of(self, alloc, slices)
    }
}

/// Bytes that are borrowed, such as those of a file that is mapped into memory. Only the bytes that
/// a view names are copied.
impl<'b> Source for &'b [u8] {
    ghost state = { λ file. in_memory file.now };

    /// Returns a copy of the bytes that the slices name.
    ///
    /// # Errors
    /// Fails as the `view` of a `Vec<u8>` does.
    fn view(&mut self, alloc: Global, slices: &[SourceSlice]) -> Result<ReadView, io::Error>
        ensures view { ShowsBytes (HasFailed (in_memory self.old.now) (in_memory self.new.now)) (λ v. v) result
            (bytes_at self.old.now (positions slices.now)) }
        ensures len { IfOk result (λ v. length v ≡ length (positions slices.now)) }
        ensures kind { IfErr result (λ e. IsLastFault (in_memory self.new.now) (error_kind e)) }
        ensures kept { IsKept (in_memory self.old.now) (in_memory self.new.now) }
        ensures exact { bytes_at self.old.now (positions slices.now) ≡ None →
            IsErrAnd result (λ e. error_kind e ≡ ErrorKind.UnexpectedEof) }
    {
        view_of(*self, alloc, slices)
    }
}

// A view of bytes in memory. The slices are checked before anything is allocated.
#[tactic(auto, using(crate::proofs::PositionLemmas::bytes_within, crate::proofs::PositionLemmas::bytes_past))]
fn view_of(file: &[u8], alloc: Global, slices: &[SourceSlice]) -> Result<ReadView, io::Error>
    ensures view { ShowsBytes ⊥ (λ v. v) result (bytes_at file.now (positions slices.now)) }
    ensures len { IfOk result (λ v. length v ≡ length (positions slices.now)) }
    ensures exact { bytes_at file.now (positions slices.now) ≡ None →
        IsErrAnd result (λ e. error_kind e ≡ ErrorKind.UnexpectedEof) }
{
    let size = named_size(file.len(), slices)?;
    Ok(ReadView::new(copy_slices(alloc, file, slices, size)?))
}

// A view of bytes in memory, which are joined in place where they can be.
#[tactic(auto, using(crate::proofs::JoinLemmas::can_found))]
fn into_view_of(file: Vec<u8>, alloc: Global, slices: &[SourceSlice]) -> Result<ReadView, io::Error>
    ensures view { ShowsBytes ⊥ (λ v. v) result (bytes_at file.items (positions slices.now)) }
    ensures len { IfOk result (λ v. length v ≡ length (positions slices.now)) }
{
    if can_be_joined(file.len(), slices) {
        return Ok(ReadView::new(join_slices(file, slices)));
    }
    view_of(file.as_slice(), alloc, slices)
}

// How many bytes slices name, which are all within a file of this length.
pub(crate) fn named_size(len: usize, slices: &[SourceSlice]) -> Result<usize, io::Error>
    ensures within { OnOk result (IsTrue (list_all (is_within len) slices.now)) }
    ensures size { IfOk result (λ size. size ≡ length (positions slices.now)) }
    ensures end { list_all (is_within len) slices.now ≡ false →
        IsErrAnd result (λ e. error_kind e ≡ ErrorKind.UnexpectedEof) }
    ensures memory { list_all (is_within len) slices.now ≡ true →
        IfErr result (λ e. error_kind e ≡ ErrorKind.OutOfMemory) }
{
    if !all_within(len, slices) {
        return Err(io::Error::from(ErrorKind::UnexpectedEof));
    }
    match total_size(slices) {
        Some(size) => Ok(size),
        None => Err(io::Error::from(ErrorKind::OutOfMemory)),
    }
}

// Whether no slice of any bytes passes the end of a file of this length.
fn all_within(len: usize, slices: &[SourceSlice]) -> bool
    ensures { result ≡ list_all (is_within len) slices.now }
{
    slices.iter().all(|slice| {
        slice.size == 0 || slice.offset <= len as u64 && slice.size <= len - slice.offset as usize
    })
}

// The sizes of all slices together, if that is a number.
fn total_size(slices: &[SourceSlice]) -> Option<usize>
    ensures { result ≡ if_fits_usize (length (positions slices.now)) }
{
    let mut total = 0usize;
    for slice in slices {
        total = total.checked_add(slice.size)?;
    }
    Some(total)
}

// The bytes of slices that are all within the file, copied into a single allocation.
fn copy_slices(
    alloc: Global,
    file: &[u8],
    slices: &[SourceSlice],
    size: usize,
) -> Result<Vec<u8>, AllocError>
    requires { IsTrue (list_all (is_within (length file.now)) slices.now) }
    ensures { IfOk result (λ bytes. bytes.items ≡ map (slice_index file.now) (positions slices.now)) }
{
    let mut bytes = Vec::with_capacity(alloc, size)?;
    for slice in slices {
        append(&mut bytes, part(file, *slice))?;
    }
    Ok(bytes)
}

// How many bytes are copied at a time: as many as a page of memory has.
const PIECE_SIZE: usize = 4096;

// Appends bytes, piece by piece. Fresh memory is cleared page by page as it is first written, and a
// small piece is written while the page is still in the cache.
fn append(bytes: &mut Vec<u8>, added: &[u8]) -> Result<(), AllocError>
    ensures { IfOk result (λ _. bytes.new.items ≡ bytes.old.items ++ added.now) }
{
    let mut left = added;
    while !left.is_empty() {
        let (piece, behind) = left.split_at(left.len().min(PIECE_SIZE));
        bytes.extend_from_slice(piece)?;
        left = behind;
    }
    Ok(())
}

// The bytes that one slice names.
#[tactic(auto, using(crate::proofs::PositionLemmas::bytes_of_slice))]
fn part(file: &[u8], slice: SourceSlice) -> &[u8]
    requires { IsTrue (is_within (length file.now) slice) }
    ensures { result.now ≡ map (slice_index file.now) (slice_positions slice) }
{
    if slice.size == 0 {
        return &[];
    }
    let start = slice.offset as usize;
    &file[start..start + slice.size]
}
