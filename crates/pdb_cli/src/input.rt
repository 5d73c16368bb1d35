//! Reading of a whole input.

ghost use Rattle.std.specs.Prelude.{◌≡◌, IfOk, IfErr, IfSome, OnOk};
ghost use Rattle.std.specs.Io.KnownBytes.{IsAtEnd};
ghost use Rattle.pdb_cli.specs.Channels.{IsUnread};

use pdb_container::Result;
use std::alloc::Global;
use std::io;
use std::io::{ErrorKind, Read};

/// The number of bytes that are requested at a time.
const BLOCK_SIZE: usize = 65_536;

/// The most reads that an input may take.
pub const MOST_READS: u32 = u32::MAX;

const _: () = prove!(MOST_READS == 4_294_967_295);

/// Reads all bytes to the end of an input, with no more than `most` reads.
///
/// # Errors
/// Fails with `IoError` if a read fails, or with one of kind `Other` if the input has not ended
/// after `most` reads; and with `OutOfMemory` if an allocation fails. A read that was interrupted
/// is tried again. It counts as a read, and so does the empty read that shows the end.
pub fn read_within<R: Read>(alloc: Global, input: &mut R, most: u32) -> Result<Vec<u8>>
    ensures bytes { IfOk result (λ file. IfSome (R.remaining input.old) (λ xs. file.items ≡ xs)) }
    ensures end { OnOk result (IsAtEnd (R.remaining input.new)) }
    ensures refused { IfErr result IsUnread }
{
    let mut block = vec![in alloc; 0; BLOCK_SIZE]?;
    let mut bytes = Vec::new(alloc);
    for _ in 0..most {
        match input.read(&mut block) {
            Ok(0) => return Ok(bytes),
            Ok(count) => bytes.extend_from_slice(&block[..count])?,
            Err(error) if error.kind() == ErrorKind::Interrupted => {}
            Err(error) => return Err(error.into()),
        }
    }
    Err(io::Error::other("the input does not end").into())
}

/// Reads all bytes to the end of an input.
///
/// # Errors
/// Fails with `IoError` if a read fails, or with one of kind `Other` if the input has not ended
/// after 4,294,967,295 reads; and with `OutOfMemory` if an allocation fails. A read that was
/// interrupted is tried again.
pub fn read_all<R: Read>(alloc: Global, input: &mut R) -> Result<Vec<u8>>
    ensures bytes { IfOk result (λ file. IfSome (R.remaining input.old) (λ xs. file.items ≡ xs)) }
    ensures end { OnOk result (IsAtEnd (R.remaining input.new)) }
    ensures refused { IfErr result IsUnread }
{
    read_within(alloc, input, MOST_READS)
}
