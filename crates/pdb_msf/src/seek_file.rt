//! Files that are read after a seek, such as those that a process has opened.

ghost use Rattle.std.specs.Prelude.{[], false};

use crate::read_at::ReadAt;
use std::io;
use std::io::{Read, Seek, SeekFrom};

/// A file that can be read and sought, such as one that a process has opened. Nothing is known of
/// its bytes: they are not fixed, since another process may write to the file.
#[derive(Debug, Drop)]
pub struct SeekFile<F> {
    file: F,
}

impl<F: Read + Seek> SeekFile<F> {
    /// Wraps a file.
    pub fn new(file: F) -> Self {
        SeekFile { file }
    }
}

impl<F: Read + Seek> ReadAt for SeekFile<F> {
    ghost use Rattle.std.specs.Prelude.{[], false};
    ghost use Rattle.pdb_msf.specs.ReadAt.{FileContents};

    ghost contents = { λ _. record { bytes = []; is_fixed = false; is_sound = false } };

    fn size(&mut self) -> io::Result<u64> {
        self.file.seek(SeekFrom::End(0))
    }

    fn read_at(&mut self, offset: u64, room: &mut [u8]) -> io::Result<usize> {
        self.file.seek(SeekFrom::Start(offset))?;
        self.file.read(room)
    }
}
