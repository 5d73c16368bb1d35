//! Files that are read as they are asked: whole, byte by byte with interruptions, and after they
//! became shorter.

use super::sources::{Views, is_view, sees};
use pdb_fixtures::{Want, s1};
use pdb_msf::{FileSource, Msf, SeekFile, Source, SourceSlice, open_msf};
use std::alloc::Global;
use std::io;
use std::io::{Cursor, ErrorKind, Read, Seek, SeekFrom};
use std::test::Fail;

/// A file of which a read gives one byte, and every other read is interrupted. It tells a size of
/// some bytes more than it has, as one that became shorter since.
#[derive(Drop)]
struct Halting {
    file: Cursor<Vec<u8>>,
    is_interrupted: bool,
    lost: u64,
}

impl Read for Halting {
    fn read(&mut self, room: &mut [u8]) -> io::Result<usize> {
        self.is_interrupted = !self.is_interrupted;
        if self.is_interrupted {
            return Err(io::Error::from(ErrorKind::Interrupted));
        }
        let count = room.len().min(1);
        self.file.read(&mut room[..count])
    }
}

impl Seek for Halting {
    fn seek(&mut self, to: SeekFrom) -> io::Result<u64> {
        let place = self.file.seek(to)?;
        Ok(match to {
            SeekFrom::End(_) => place.saturating_add(self.lost),
            _ => place,
        })
    }
}

/// Returns a source that reads these bytes so, of a file that lost some.
fn open_halting(bytes: Vec<u8>, lost: u64) -> io::Result<FileSource<SeekFile<Halting>>> {
    FileSource::new(SeekFile::new(Halting {
        file: Cursor::new(bytes),
        is_interrupted: false,
        lost,
    }))
}

/// Whether the views of a file with these bytes are these.
pub(super) fn are_read(alloc: Global, bytes: &[u8], views: Views) -> pdb_base::Result<bool> {
    let whole = SeekFile::new(Cursor::new(bytes.to_vec(alloc)?));
    let seen = sees(alloc, &mut FileSource::new(whole)?, views);
    Ok(seen && sees(alloc, &mut open_halting(bytes.to_vec(alloc)?, 0)?, views))
}

#[test]
fn halting_files(rt: HostRuntime) -> Result<(), Fail> {
    let alloc = rt.alloc();
    let mut file = open_msf(alloc, open_halting(s1(alloc)?, 0)?)?;
    assert!(rt; Want::Front(600).fits(&file.get(alloc, 1, None)));
    Ok(())
}

/// Slices of a file of six bytes that told a size of eight, with the bytes of a view of them or the
/// kind of its error.
const SHRUNK: &[(u64, usize, Result<&[u8], ErrorKind>)] = &[
    (4, 2, Ok(b"ef")),
    (5, 3, Err(ErrorKind::InvalidData)),
    (6, 1, Err(ErrorKind::InvalidData)),
    (7, 2, Err(ErrorKind::UnexpectedEof)),
    (0, 6, Ok(b"abcdef")),
];

/// Whether a view of a slice has these bytes or this kind of error.
fn is_seen<S: Source>(
    alloc: Global,
    source: &mut S,
    slice: SourceSlice,
    want: &Result<&[u8], ErrorKind>,
) -> bool {
    let view = source.view(alloc, &[slice]);
    match want {
        Ok(bytes) => is_view(view, Some(*bytes)),
        Err(kind) => matches!(view, Err(error) if error.kind() == *kind),
    }
}

#[test]
fn shrunk_files(rt: HostRuntime) -> Result<(), Fail> {
    let alloc = rt.alloc();
    let mut source = open_halting(Vec::from_slice(alloc, b"abcdef")?, 2)?;
    for (offset, size, want) in SHRUNK {
        let (offset, size) = (*offset, *size);
        let seen = is_seen(alloc, &mut source, SourceSlice { offset, size }, want);
        assert!(rt; seen, "{size} from {offset}");
    }
    Ok(())
}
