//! A source that reads a file as its bytes are requested.

ghost use Rattle.std.specs.Prelude.{◌≡◌, ◌≢◌, ◌⊎◌, ◌++◌, ◌+◌, ◌-◌, ◌<◌, ◌≤◌, ◌^◌, Some, None, false, length, map};
ghost use Rattle.std.specs.Prelude.{slice_index, IsTrue, IfOk, IfErr, OnOk};
ghost use Rattle.std.specs.Prelude.{IsErrAnd, IfSome};
ghost use Rattle.std.specs.IoError.{error_kind};
ghost use Rattle.std.specs.List.{list_all};
ghost use Rattle.pdb_msf.specs.Source.{IsKept, IsLastFault, IsOther, ShowsBytes, bytes_at};
ghost use Rattle.pdb_msf.specs.Source.{positions, slice_positions};
ghost use Rattle.pdb_msf.specs.Within.{is_within};
ghost use Rattle.pdb_msf.specs.ReadAt.{bytes_from, source_of};

use crate::read_at::{ReadAt, fill};
use crate::seek_file::SeekFile;
use crate::source::{ReadView, Source, SourceSlice, named_size};
use std::alloc::Global;
use std::fs::Files;
use std::io::ErrorKind;
use std::path::AsPath;
use std::{fs, io};

/// How many bytes are read at a time, at most.
const PIECE_SIZE: usize = 1 << 20;

/// A source that reads a file as its bytes are requested. Slices that are neighbors in the file are
/// read together, at most a mebibyte at a time.
///
/// The size of the file is asked once. A view that passes it fails with kind `UnexpectedEof` before
/// memory is allocated. If the file ends before that size, because it was truncated, a view fails
/// with kind `InvalidData`.
#[derive(Debug, Drop)]
pub struct FileSource<F: ReadAt> {
    file: F,
    len: u64,
    faults: u64,
    last_fault: Option<ErrorKind>,
    ghost fixed: { IsTrue (F.contents file).is_fixed → len ≡ length (F.contents file).bytes },
    ghost sound: { IsTrue (F.contents file).is_sound → len ≡ length (F.contents file).bytes },
}

impl<F: ReadAt> FileSource<F> {
    /// Returns a source that reads a file, whose size it asks.
    ///
    /// # Errors
    /// Fails if the file can't tell its size.
    pub fn new(mut file: F) -> io::Result<Self>
    where
        F: Drop,
        ensures { IfOk result (λ source. source_of (F.contents source.file) source.faults source.last_fault
            ≡ source_of (F.contents file) 0 None) }
    {
        let len = file.size()?;
        Ok(FileSource {
            file,
            len,
            faults: 0,
            last_fault: None,
        })
    }

    /// Returns the file, as it was left by the reads so far.
    pub fn file(&self) -> &F
        ensures { result.now ≡ self.now.file }
    {
        &self.file
    }

    // Counts an error of the file as a fault, unless it is a lack of memory. An end of the file is
    // unexpected, since no more is read than the file has. A fault that can't be counted is told as
    // a lack of memory.
    fn fault(&mut self, error: io::Error) -> io::Error
        ensures counted { (error_kind result ≡ ErrorKind.OutOfMemory)
            ⊎ (IsOther (error_kind result) × (self.old.faults < self.new.faults)) }
        ensures kind { IsOther (error_kind result) → self.new.last_fault ≡ Some (error_kind result) }
        ensures other { error_kind error ≢ ErrorKind.OutOfMemory → self.old.faults < 2 ^ 64 - 1 →
            IsOther (error_kind result) }
        ensures memory { error_kind error ≡ ErrorKind.OutOfMemory → self.new.faults ≡ self.old.faults }
        ensures counts { self.old.faults ≤ self.new.faults }
        ensures file { self.new.file ≡ self.old.file }
    {
        let error = match error.kind() {
            ErrorKind::OutOfMemory => return error,
            ErrorKind::UnexpectedEof => io::Error::from(ErrorKind::InvalidData),
            _ => error,
        };
        let Some(faults) = self.faults.checked_add(1) else {
            return io::Error::from(ErrorKind::OutOfMemory);
        };
        self.faults = faults;
        self.last_fault = Some(error.kind());
        error
    }
}

impl<F: ReadAt> Source for FileSource<F> {
    ghost state = { λ source. source_of (F.contents source.file) source.faults source.last_fault };

    /// Returns the bytes that the slices name, which are read from the file.
    ///
    /// # Errors
    /// Fails with the first of these, in this order: an error of kind `UnexpectedEof` if a slice of
    /// one or more bytes passes the size that the file had when the source was made; one of kind
    /// `OutOfMemory` if the sum of the sizes is above `usize::MAX`, or if an allocation fails; the
    /// file's own error if it can't be read, or one of kind `InvalidData` if it ends before that
    /// size.
    #[tactic(auto, using(crate::proofs::PositionLemmas::bytes_within, crate::proofs::PositionLemmas::bytes_past))]
    fn view(&mut self, alloc: Global, slices: &[SourceSlice]) -> Result<ReadView, io::Error>
        ensures view { IsTrue (F.contents self.old.file).is_fixed → ShowsBytes
            (self.old.faults < self.new.faults) (λ v. v)
            result (bytes_at (F.contents self.old.file).bytes (positions slices.now)) }
        ensures len { IfOk result (λ v. length v ≡ length (positions slices.now)) }
        ensures kind { IfErr result (λ e. IsLastFault
            (source_of (F.contents self.new.file) self.new.faults self.new.last_fault) (error_kind e)) }
        ensures kept { IsKept (source_of (F.contents self.old.file) self.old.faults self.old.last_fault)
            (source_of (F.contents self.new.file) self.new.faults self.new.last_fault) }
        ensures exact { list_all (is_within self.old.len) slices.now ≡ false →
            IsErrAnd result (λ e. error_kind e ≡ ErrorKind.UnexpectedEof) }
    {
        let size = named_size(self.len as usize, slices)?;
        match read_slices(&mut self.file, self.len, alloc, slices, size) {
            Ok(bytes) => Ok(ReadView::new(bytes)),
            Err(error) => Err(self.fault(error)),
        }
    }
}

/// Reads the bytes that slices name, which are all within a file of this length.
fn read_slices<F: ReadAt>(
    file: &mut F,
    len: u64,
    alloc: Global,
    slices: &[SourceSlice],
    size: usize,
) -> io::Result<Vec<u8>>
    requires { IsTrue (list_all (is_within len) slices.now) }
    ensures read { IsTrue (F.contents file.old).is_fixed →
        IfOk result (λ bytes. bytes.items ≡ map (slice_index (F.contents file.old).bytes) (positions slices.now)) }
    ensures len { IfOk result (λ bytes. length bytes.items ≡ length (positions slices.now)) }
    ensures sound { IsTrue (F.contents file.old).is_sound → len ≡ length (F.contents file.old).bytes →
        IfErr result (λ e. error_kind e ≡ ErrorKind.OutOfMemory) }
    ensures kept { F.contents file.new ≡ F.contents file.old }
{
    let mut bytes = Vec::with_capacity(alloc, size)?;
    let mut run = SourceSlice { offset: 0, size: 0 };
    for slice in slices {
        run = continued(file, len, run, *slice, &mut bytes)?;
    }
    append_run(file, len, run, &mut bytes)?;
    Ok(bytes)
}

/// Returns two slices as one if the second begins where the first ends.
fn joined(len: u64, run: SourceSlice, slice: SourceSlice) -> Option<SourceSlice>
    requires run { IsTrue (is_within len run) }
    requires slice { IsTrue (is_within len slice) }
    ensures within { IfSome result (λ longer. IsTrue (is_within len longer)) }
    ensures positions { IfSome result (λ longer.
        slice_positions longer ≡ slice_positions run ++ slice_positions slice) }
    ensures size { IfSome result (λ longer. longer.size ≡ run.size + slice.size) }
{
    if slice.offset < run.offset || slice.offset - run.offset != run.size as u64 {
        return None;
    }
    Some(SourceSlice {
        offset: run.offset,
        size: run.size + slice.size,
    })
}

/// Continues a run with a slice. If the slice doesn't begin at the end of the run, the run is read
/// and appended, and the slice begins the next one.
fn continued<F: ReadAt>(
    file: &mut F,
    len: u64,
    run: SourceSlice,
    slice: SourceSlice,
    bytes: &mut Vec<u8>,
) -> io::Result<SourceSlice>
    requires run { IsTrue (is_within len run) }
    requires slice { IsTrue (is_within len slice) }
    ensures within { IfOk result (λ next. IsTrue (is_within len next)) }
    ensures read { IsTrue (F.contents file.old).is_fixed → IfOk result (λ next.
        bytes.new.items ++ map (slice_index (F.contents file.old).bytes) (slice_positions next)
        ≡ bytes.old.items ++ map (slice_index (F.contents file.old).bytes)
        (slice_positions run ++ slice_positions slice)) }
    ensures len { IfOk result (λ next.
        length bytes.new.items + next.size ≡ length bytes.old.items + run.size + slice.size) }
    ensures sound { IsTrue (F.contents file.old).is_sound → len ≡ length (F.contents file.old).bytes →
        IfErr result (λ e. error_kind e ≡ ErrorKind.OutOfMemory) }
    ensures kept { F.contents file.new ≡ F.contents file.old }
{
    match joined(len, run, slice) {
        Some(longer) => Ok(longer),
        None => {
            append_run(file, len, run, bytes)?;
            Ok(slice)
        }
    }
}

/// Reads a run of bytes, at most a mebibyte at a time, and appends them.
fn append_run<F: ReadAt>(
    file: &mut F,
    len: u64,
    run: SourceSlice,
    bytes: &mut Vec<u8>,
) -> io::Result<()>
    requires { IsTrue (is_within len run) }
    ensures read { IsTrue (F.contents file.old).is_fixed → OnOk result (bytes.new.items
        ≡ bytes.old.items ++ map (slice_index (F.contents file.old).bytes) (slice_positions run)) }
    ensures len { OnOk result (length bytes.new.items ≡ length bytes.old.items + run.size) }
    ensures sound { IsTrue (F.contents file.old).is_sound → len ≡ length (F.contents file.old).bytes →
        IfErr result (λ e. error_kind e ≡ ErrorKind.OutOfMemory) }
    ensures kept { F.contents file.new ≡ F.contents file.old }
{
    let mut read = 0;
    while read < run.size {
        let count = (run.size - read).min(PIECE_SIZE);
        append_piece(file, run.offset + read as u64, count, bytes)?;
        read += count;
    }
    Ok(())
}

/// Reads bytes from an offset on, and appends them.
fn append_piece<F: ReadAt>(
    file: &mut F,
    offset: u64,
    count: usize,
    bytes: &mut Vec<u8>,
) -> io::Result<()>
    requires offset { offset + count < 2 ^ 64 }
    requires small { count ≤ PIECE_SIZE }
    ensures read { IsTrue (F.contents file.old).is_fixed → OnOk result (bytes.new.items
        ≡ bytes.old.items ++ bytes_from (F.contents file.old) offset count) }
    ensures len { OnOk result (length bytes.new.items ≡ length bytes.old.items + count) }
    ensures sound { IsTrue (F.contents file.old).is_sound → offset + count ≤ length (F.contents file.old).bytes →
        IfErr result (λ e. error_kind e ≡ ErrorKind.OutOfMemory) }
    ensures kept { F.contents file.new ≡ F.contents file.old }
{
    let start = bytes.len();
    bytes.resize(start + count, 0)?;
    fill(file, offset, &mut bytes[start..])
}

/// Opens the file at a path as a source that reads it as its bytes are requested.
///
/// # Errors
/// Fails if the file can't be opened, or can't tell its size, as a pipe can't.
pub fn open_path<R: Files, P: AsPath>(
    files: &R,
    path: P,
) -> io::Result<FileSource<SeekFile<R::File>>> {
    FileSource::new(SeekFile::new(fs::open(files, path)?))
}
