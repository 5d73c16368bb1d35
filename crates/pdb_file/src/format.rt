//! What a file is, as its first bytes say.

ghost use Rattle.std.specs.Prelude.{◌≡◌};
ghost use Rattle.pdb_file.specs.Format.{format_of};

use pdb_msf::{big, small};

/// What a file is, as far as its first bytes say. Each of these formats has to do with symbols of
/// programs, and people take one for another.
#[derive(Clone, Copy, Debug, PartialEq, Eq)]
pub enum Format {
    /// A program database in a multi-stream file of version 7.00, which this library reads.
    Msf7,

    /// A program database in a multi-stream file of version 2.00, as Visual C++ 6 and older made.
    Msf2,

    /// A portable program database, which compilers for .NET make.
    Portable,

    /// A cabinet, in which symbol servers keep a compressed file. Its name ends in `_`.
    Compressed,

    /// A program or a library itself, which has the number of its program database in its debug
    /// directory.
    Image,

    /// None of these.
    Unknown,
}

impl Format {
    /// Returns what a file is that begins with these bytes. The first 42 bytes decide.
    #[tactic(auto, unfolding(crate::specs::Format::format_of, crate::specs::Format::portable_magic, crate::specs::Format::cabinet_magic, crate::specs::Format::image_magic), using(pdb_msf::proofs::MagicLemmas::is_big, pdb_msf::proofs::MagicLemmas::is_small))]
    pub fn of(file: &[u8]) -> Format
        ensures { result ≡ format_of file.now }
    {
        if file.starts_with(big::MAGIC) {
            Format::Msf7
        } else if file.starts_with(small::MAGIC) {
            Format::Msf2
        } else if file.starts_with(b"BSJB") {
            Format::Portable
        } else if file.starts_with(b"MSCF") {
            Format::Compressed
        } else if file.starts_with(b"MZ") {
            Format::Image
        } else {
            Format::Unknown
        }
    }
}
