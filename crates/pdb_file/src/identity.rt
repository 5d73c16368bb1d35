//! The numbers that identify a program database.

ghost use Rattle.std.specs.Prelude.{◌≡◌};
ghost use Rattle.pdb_msf.specs.File.{ReadsFile};
ghost use Rattle.pdb_file.specs.Identity.{age_of, cpu_name, cpu_of, file_debug_header, file_identity};
ghost use Rattle.pdb_file.specs.Identity.{machine_of, stripped_in};
ghost use Rattle.pdb_file.specs.Identity.{stripped_of};

use crate::dbi_header::{DBIHeader, HEADER_SIZE};
use crate::features::Features;
use crate::file::{DEBUG_STREAM, PDB};
use crate::key::{LowerKey, UpperKey};
use pdb_base::{Error, Result, is_bit_set};
use pdb_msf::{Msf, Source};
use std::alloc::Global;
use uuid::Uuid;

/// The bit of the header's flags that says that private symbols are stripped: `fStripped` of
/// `NewDBIHdr` in Microsoft's dbi.h.
const STRIPPED: u32 = 1;

/// The numbers that identify a program database, and the header of its debug information.
#[derive(Clone, Copy, PartialEq, Eq)]
pub struct Identity {
    /// The GUID that the linker gave the file, and wrote into the debug directory of the program
    /// too.
    pub guid: Uuid,

    /// The version of the format, for example 20000404 for version 7.
    pub version: u32,

    /// The time at which the file was made, in seconds since 1970, or a hash in its place.
    pub signature: u32,

    /// The age in stream 1: the number of times the file was written.
    pub information_age: u32,

    /// The features that stream 1 tells after the names of streams, or None if it ends too soon for
    /// these.
    pub features: Option<Features>,

    /// The header of stream 3, or None if the file has no such stream or an empty one, as the files
    /// of type servers do.
    pub debug_header: Option<DBIHeader>,
}

impl Identity {
    /// Reads what identifies a file from stream 1 and the first 64 bytes of stream 3.
    ///
    /// # Errors
    /// Fails as `PDB::pdb_information` does for stream 1, and then as `Msf::get` and
    /// `DBIHeader::parse` do for stream 3, but not if there is no such stream or if it is empty.
    #[tactic(auto, unfolding(crate::specs::Identity::file_identity))]
    pub fn of<S: Source>(alloc: Global, pdb: &mut PDB<S>) -> Result<Identity>
        ensures { ReadsFile S.state pdb.old pdb.new (λ identity. identity) result file_identity }
    {
        let information = pdb.pdb_information(alloc)?;
        let debug_header = debug_header(alloc, pdb)?;
        Ok(Identity {
            guid: Uuid::from_bytes_le(information.guid),
            version: information.version,
            signature: information.signature,
            information_age: information.age,
            features: information.features().ok(),
            debug_header,
        })
    }

    /// Returns the age under which symbol servers store the file: that of the debug information,
    /// or that of stream 1 if there is none.
    pub fn age(&self) -> u32
        ensures { result ≡ age_of self.now }
    {
        match self.debug_header {
            Some(header) => header.age,
            None => self.information_age,
        }
    }

    /// Returns the number of the machine for which the program is, as the header of an image has
    /// it, for example 0x8664 for x86-64; or None if there is no debug information.
    pub fn machine(&self) -> Option<u16>
        ensures { result ≡ machine_of self.now }
    {
        self.debug_header.map(|header| header.machine_type)
    }

    /// Returns the name that Breakpad has for the machine: `x86`, `x86_64`, `arm64`, `arm`, or
    /// `unknown` for all others and if there is no debug information.
    pub fn cpu(&self) -> &'static str
        ensures { result.now ≡ cpu_of self.now }
    {
        match self.debug_header {
            Some(header) => cpu_name(header.machine_type),
            None => "unknown",
        }
    }

    /// Returns whether private symbols are stripped from the file, or None if there is no debug
    /// information.
    pub fn is_stripped(&self) -> Option<bool>
        ensures { result ≡ stripped_of self.now }
    {
        self.debug_header.map(stripped_in)
    }

    /// Returns the key under which a symbol store keeps the file: the 32 digits of the GUID and the
    /// age, in upper case.
    pub fn key(&self) -> UpperKey
        ensures guid { result.guid ≡ self.now.guid }
        ensures age { result.age ≡ age_of self.now }
    {
        UpperKey {
            guid: self.guid,
            age: self.age(),
        }
    }

    /// Returns the same key in lower case, as the conventions for SSQP have it.
    pub fn lower_key(&self) -> LowerKey
        ensures guid { result.guid ≡ self.now.guid }
        ensures age { result.age ≡ age_of self.now }
    {
        LowerKey {
            guid: self.guid,
            age: self.age(),
        }
    }
}

/// Returns whether a header says that private symbols are stripped from the file.
fn stripped_in(header: DBIHeader) -> bool
    ensures { result ≡ stripped_in header }
{
    is_bit_set(header.flags as u32, STRIPPED)
}

/// Reads the header of stream 3, or returns None if there is no such stream or if it is empty.
#[tactic(auto, unfolding(crate::specs::Identity::file_debug_header))]
fn debug_header<S: Source>(alloc: Global, pdb: &mut PDB<S>) -> Result<Option<DBIHeader>>
    ensures { ReadsFile S.state pdb.old pdb.new (λ header. header) result file_debug_header }
{
    let stream = match pdb.get(alloc, DEBUG_STREAM, Some(HEADER_SIZE)) {
        Ok(stream) => stream,
        Err(Error::StreamNotFound(_)) => return Ok(None),
        Err(error) => return Err(error),
    };
    if stream.as_slice().is_empty() {
        return Ok(None);
    }
    Ok(Some(DBIHeader::parse(&stream)?))
}

/// Returns the name that Breakpad has for a machine: `x86`, `x86_64`, `arm64`, `arm`, or `unknown`.
/// The number is that of `IMAGE_FILE_HEADER.Machine` in Microsoft's winnt.h.
#[tactic(auto, unfolding(crate::specs::Identity::cpu_name))]
pub(crate) fn cpu_name(machine: u16) -> &'static str
    ensures { result.now ≡ cpu_name machine }
{
    match machine {
        0x14c => "x86",
        0x8664 => "x86_64",
        0xaa64 => "arm64",
        0x1c0 | 0x1c4 => "arm",
        _ => "unknown",
    }
}
