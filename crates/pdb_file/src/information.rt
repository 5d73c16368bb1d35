//! The header of stream 1, which identifies a program database.
ghost use Rattle.pdb_base.specs.Answer.{Gives};
ghost use Rattle.pdb_file.specs.Information.{information_of};

use crate::fields::u32_in;
use pdb_base::{Error, Result, Stream};

/// The offset of the names in bytes.
const NAMES_OFFSET: usize = 32;

/// The information in stream 1: the numbers that identify the file, and the names of streams.
///
/// It keeps its stream, and names borrow from it.
#[derive(Debug, Drop)]
pub struct PDBInformation {
    /// The version of the format, for example 20000404 for version 7.
    pub version: u32,

    /// The time at which the file was made, in seconds since 1970.
    pub signature: u32,

    /// The number of times the file was written.
    pub age: u32,

    /// The GUID that identifies this file: sixteen bytes, in the order in which the file stores
    /// them.
    pub guid: [u8; 16],

    /// The offset of the names of streams, in bytes from the stream's start.
    pub names_offset: usize,

    /// The size of the names in bytes.
    pub names_size: usize,

    pub(crate) stream: Stream,
}

impl PDBInformation {
    /// Parses stream 1: a `u32` version, a `u32` signature, a `u32` age, sixteen bytes of a GUID, a
    /// `u32` size of the names in bytes, and the names and what follows them.
    ///
    /// # Errors
    /// Fails with `UnexpectedEof` if the stream has fewer than the 32 bytes before the names.
    #[tactic(auto, unfolding(crate::specs::Information::information_of, crate::specs::Information::information))]
    pub fn parse(stream: Stream) -> Result<Self>
        ensures { Gives (λ information. information) result (information_of stream) }
    {
        let bytes = stream.as_slice();
        if bytes.len() < NAMES_OFFSET {
            return Err(Error::UnexpectedEof);
        }
        let mut guid = [0; 16];
        guid.copy_from_slice(&bytes[12..28]);
        Ok(PDBInformation {
            version: u32_in(bytes, 0),
            signature: u32_in(bytes, 4),
            age: u32_in(bytes, 8),
            guid,
            names_offset: NAMES_OFFSET,
            names_size: u32_in(bytes, 28) as usize,
            stream,
        })
    }
}
