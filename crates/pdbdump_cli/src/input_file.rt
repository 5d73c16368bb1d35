//! A file whose bytes are read as they are needed.

ghost use Rattle.std.specs.Prelude.{IfOk};
ghost use Rattle.pdb_msf.specs.Source.{IsKept};
ghost use Rattle.pdbdump_cli.specs.InputFile.{IsFront, bytes_state};

use pdb_cli::read_all;
use pdb_container::{Error, Result, Source};
use pdb_msf::{ReadView, SourceSlice};
use std::alloc::Global;
use std::io;
use std::io::{ErrorKind, Read};

/// The bytes of a file: in memory, or in a source that is read as they are needed.
#[derive(Drop)]
pub enum FileBytes<S> {
    /// The file was read whole.
    Memory(Vec<u8>),
    /// The file is read as its bytes are needed.
    Stored(S),
}

impl<S: Source + Drop> Source for FileBytes<S> {
    ghost state = { bytes_state S.state };

    fn view(&mut self, alloc: Global, slices: &[SourceSlice]) -> io::Result<ReadView> {
        match self {
            FileBytes::Memory(bytes) => bytes.view(alloc, slices),
            FileBytes::Stored(source) => source.view(alloc, slices),
        }
    }

    fn into_view(self, alloc: Global, slices: &[SourceSlice]) -> io::Result<ReadView> {
        match self {
            FileBytes::Memory(bytes) => bytes.into_view(alloc, slices),
            FileBytes::Stored(source) => source.into_view(alloc, slices),
        }
    }
}

/// A file that is open: the source of its bytes, and its size.
#[derive(Drop)]
pub struct InputFile<S: Source> {
    /// Where the bytes come from.
    pub source: S,
    /// The size of the file in bytes, as it was when the file was opened.
    pub size: u64,
}

/// Returns the error of a call that meets an error of a source.
fn fault_of(error: io::Error) -> Error {
    match error.kind() {
        ErrorKind::OutOfMemory => Error::OutOfMemory,
        _ => Error::IoError(error),
    }
}

impl<S: Source + Drop> InputFile<FileBytes<S>> {
    /// Reads the file in an input to its end.
    ///
    /// # Errors
    /// Fails as `read_all` does.
    pub fn read_whole<I: Read>(alloc: Global, input: &mut I) -> Result<Self> {
        let bytes = read_all(alloc, input)?;
        let size = bytes.len() as u64;
        Ok(InputFile {
            source: FileBytes::Memory(bytes),
            size,
        })
    }
}

impl<S: Source> InputFile<S> {
    /// Reads the first bytes, at most as many as `most`.
    ///
    /// # Errors
    /// Fails with `IoError` if the source fails, and with `OutOfMemory` if an allocation fails.
    pub(crate) fn front(&mut self, alloc: Global, most: u64) -> Result<ReadView>
        ensures front { IfOk result (IsFront (S.state self.old.source)) }
        ensures kept { IsKept (S.state self.old.source) (S.state self.new.source) }
    {
        let first = SourceSlice {
            offset: 0,
            size: self.size.min(most) as usize,
        };
        match self.source.view(alloc, &[first]) {
            Ok(front) => Ok(front),
            Err(error) => Err(fault_of(error)),
        }
    }
}
