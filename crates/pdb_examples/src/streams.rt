//! All streams of a file, with their sizes.

ghost use Rattle.std.specs.Prelude.{◌≡◌, IfOk, Ok};
ghost use Rattle.pdb_container.specs.Header.{Head, file_head};
ghost use Rattle.pdb_examples.specs.Uses.{sizes_by_number};

use pdb_container::{Error, Msf, Result, open_msf};
use std::alloc::Global;

/// How many numbers a stream can have that a table names: of the 16-bit numbers, 65535 is no
/// stream.
const STREAM_NUMBERS: u32 = 65535;

/// The number of each stream that a file holds, and its size in bytes.
///
/// # Errors
/// The errors of `open_msf`, and then that of `Msf::get` for the first stream that the directory
/// holds but the file does not. `OutOfMemory` if an allocation fails.
pub fn stream_sizes(alloc: Global, bytes: Vec<u8>) -> Result<Vec<(u32, usize)>>
    ensures { IfOk result (λ sizes.
        (head : Head) × (file_head bytes.items ≡ Ok head) × (sizes.items ≡ sizes_by_number 65535 bytes.items head)) }
{
    let mut file = open_msf(alloc, bytes)?;
    let mut sizes = Vec::new(alloc);
    for number in 0..STREAM_NUMBERS {
        match file.get(alloc, number, None) {
            Ok(stream) => sizes.push((number, stream.as_slice().len()))?,
            Err(Error::StreamNotFound(_)) => {}
            Err(error) => return Err(error),
        }
    }
    Ok(sizes)
}
