//! Files whose bytes are read at any offset.

ghost use Rattle.std.specs.Prelude.{◌≡◌, ◌≢◌, ◌++◌, ◌+◌, ◌<◌, ◌≤◌, ◌^◌, drop, length, min, take, IsTrue, IfOk, IfErr};
ghost use Rattle.std.specs.Prelude.{IsOk, OnOk};
ghost use Rattle.std.specs.IoError.{error_kind};
ghost use Rattle.pdb_msf.specs.ReadAt.{FileContents, IsRead, bytes_from, memory_file};

use std::io;
use std::io::ErrorKind;

/// A file whose bytes are read at any offset.
pub trait ReadAt {
    // The bytes, whether they are fixed, and whether the file is sound.
    ghost contents: { Self → FileContents };

    /// Returns the size of the file in bytes.
    ///
    /// # Errors
    /// Fails if the file can't tell its size.
    fn size(&mut self) -> io::Result<u64>
        ensures fixed { IsTrue (contents self.old).is_fixed →
            IfOk result (λ size. size ≡ length (contents self.old).bytes) }
        ensures sound { IsTrue (contents self.old).is_sound →
            IsOk result × IfOk result (λ size. size ≡ length (contents self.old).bytes) }
        ensures kept { contents self.new ≡ contents self.old };

    /// Reads bytes from an offset on into `room`, and returns how many. They may be fewer than there
    /// is room for. They are none only if there is no room or the file ends at the offset.
    ///
    /// # Errors
    /// Fails if the file can't be read. With kind `Interrupted`, the read can be tried again.
    fn read_at(&mut self, offset: u64, room: &mut [u8]) -> io::Result<usize>
        ensures read { IfOk result (IsRead (contents self.old) offset (length room.old) room.new) }
        ensures sound { IsTrue (contents self.old).is_sound → IsOk result }
        ensures kept { contents self.new ≡ contents self.old };
}

/// A file in memory.
impl ReadAt for Vec<u8> {
    ghost contents = { λ file. memory_file file.items };

    fn size(&mut self) -> io::Result<u64> {
        Ok(self.len() as u64)
    }

    #[tactic(auto, using(crate::proofs::ReadLemmas::front_read))]
    fn read_at(&mut self, offset: u64, room: &mut [u8]) -> io::Result<usize> {
        Ok(copy_front(from_offset(self.as_slice(), offset), room))
    }
}

/// Returns the bytes from an offset on, or none if it is past the end.
#[tactic(auto, using(std::proofs::lemmas::List::drop_min))]
fn from_offset(bytes: &[u8], offset: u64) -> &[u8]
    ensures { result.now ≡ drop offset bytes.now }
{
    &bytes[bytes.len().min(offset as usize)..]
}

/// Copies as many bytes as both slices have, and returns how many.
fn copy_front(from: &[u8], to: &mut [u8]) -> usize
    ensures count { result ≡ min (length from.now) (length to.old) }
    ensures copied { to.new ≡ take result from.now ++ drop result to.old }
{
    let count = from.len().min(to.len());
    to[..count].copy_from_slice(&from[..count]);
    count
}

/// Reads bytes from an offset on, as `read_at` does, and tries again if the read is interrupted.
fn read_uninterrupted<F: ReadAt>(file: &mut F, offset: u64, room: &mut [u8]) -> io::Result<usize>
    ensures read { IfOk result (IsRead (F.contents file.old) offset (length room.old) room.new) }
    ensures sound { IsTrue (F.contents file.old).is_sound → IsOk result }
    ensures retried { IfErr result (λ e. error_kind e ≢ ErrorKind.Interrupted) }
    ensures kept { F.contents file.new ≡ F.contents file.old }
{
    for _ in 0..u64::MAX {
        match file.read_at(offset, room) {
            Ok(count) => return Ok(count),
            Err(error) => match error.kind() {
                ErrorKind::Interrupted => {}
                _ => return Err(error),
            },
        }
    }
    Err(io::Error::other("each read was interrupted"))
}

/// Fills `room` with the bytes from an offset on, by as many reads as it takes.
///
/// # Errors
/// Fails as `read_at` does, and with kind `InvalidData` if the file ends before `room` is full.
pub fn fill<F: ReadAt>(file: &mut F, offset: u64, room: &mut [u8]) -> io::Result<()>
    requires { offset + length room.old < 2 ^ 64 }
    ensures read { IsTrue (F.contents file.old).is_fixed →
        OnOk result (room.new ≡ bytes_from (F.contents file.old) offset (length room.old)) }
    ensures sound { IsTrue (F.contents file.old).is_sound →
        offset + length room.old ≤ length (F.contents file.old).bytes → IsOk result }
    ensures kept { F.contents file.new ≡ F.contents file.old }
{
    let mut filled = 0;
    while filled < room.len() {
        let count = read_uninterrupted(file, offset + filled as u64, &mut room[filled..])?;
        if count == 0 {
            return Err(io::Error::from(ErrorKind::InvalidData));
        }
        filled += count;
    }
    Ok(())
}
