//! The headers of an image's sections (`IMAGE_SECTION_HEADER` of the PE format).

ghost use Rattle.std.specs.Prelude.{◌≡◌, [], length, IsUtf8, OnErr};
ghost use Rattle.pdb_base.specs.Answer.{Gives};
ghost use Rattle.pdb_base.specs.Place.{StaysWithin, left};
ghost use Rattle.pdb_space.specs.SectionHeader.{section_header, section_header_at, section_name};

use crate::section_characteristics::SectionCharacteristics;
use byteorder::{ByteOrder, LittleEndian};
use pdb_base::{ParseBuffer, Result};
use std::str;

/// The size of a header in bytes.
const HEADER_SIZE: usize = 40;

/// The header of a section: where it lies in memory and in the file, and what it is for.
#[derive(Debug, Default, PartialEq, Eq, Clone, Copy)]
pub struct ImageSectionHeader {
    /// The name, padded with NULs if it is shorter than eight bytes.
    pub name: [u8; 8],

    /// The size of the section in memory, in bytes.
    pub virtual_size: u32,

    /// The address of the section's first byte, in bytes from the image's base.
    pub virtual_address: u32,

    /// The number of bytes in the file that hold the section.
    pub size_of_raw_data: u32,

    /// The offset of those bytes in the file.
    pub pointer_to_raw_data: u32,

    /// The offset of the section's relocations in the file.
    pub pointer_to_relocations: u32,

    /// The offset of the section's line numbers in the file.
    pub pointer_to_line_numbers: u32,

    /// The number of relocations.
    pub number_of_relocations: u16,

    /// The number of line numbers.
    pub number_of_line_numbers: u16,

    /// The flags of the section, which say what it is for.
    pub characteristics: SectionCharacteristics,
}

impl ImageSectionHeader {
    /// Reads a header: its fields in order, in forty bytes, each number little-endian.
    ///
    /// # Errors
    /// Fails with `UnexpectedEof` if fewer than forty bytes are left. Nothing is read then.
    #[tactic(auto, unfolding(crate::specs::SectionHeader::section_header_at), using(pdb_base::proofs::lemmas::Records::front_length))]
    pub fn parse(buffer: &mut ParseBuffer<'_>) -> Result<Self>
        ensures read { Gives (λ header. (header, left buffer.new)) result (section_header_at (left buffer.old)) }
        ensures place { StaysWithin buffer.old buffer.new }
        ensures err { OnErr result (buffer.new ≡ buffer.old) }
    {
        Ok(ImageSectionHeader::read(buffer.take(HEADER_SIZE)?))
    }

    /// Returns the header in these forty bytes.
    #[tactic(auto, unfolding(crate::specs::SectionHeader::section_header))]
    fn read(bytes: &[u8]) -> Self
        requires { length bytes.now ≡ 40 }
        ensures { result ≡ section_header bytes.now }
    {
        let mut name = [0; 8];
        name.copy_from_slice(&bytes[..8]);
        ImageSectionHeader {
            name,
            virtual_size: LittleEndian::read_u32(&bytes[8..]),
            virtual_address: LittleEndian::read_u32(&bytes[12..]),
            size_of_raw_data: LittleEndian::read_u32(&bytes[16..]),
            pointer_to_raw_data: LittleEndian::read_u32(&bytes[20..]),
            pointer_to_relocations: LittleEndian::read_u32(&bytes[24..]),
            pointer_to_line_numbers: LittleEndian::read_u32(&bytes[28..]),
            number_of_relocations: LittleEndian::read_u16(&bytes[32..]),
            number_of_line_numbers: LittleEndian::read_u16(&bytes[34..]),
            characteristics: SectionCharacteristics(LittleEndian::read_u32(&bytes[36..])),
        }
    }

    /// Returns the bytes of the name: those before the first NUL, or all eight if there is none.
    fn name_bytes(&self) -> &[u8]
        ensures { result.now ≡ section_name self.now }
    {
        match self.name.iter().position(|byte| *byte == 0) {
            Some(end) => &self.name[..end],
            None => &self.name,
        }
    }

    /// Returns the name: the bytes before the first NUL, or all eight if there is none. It is empty
    /// if they aren't UTF-8.
    pub fn name(&self) -> &str
        ensures text { IsUtf8 (section_name self.now) → result.now ≡ section_name self.now }
        ensures no_text { ¬ IsUtf8 (section_name self.now) → result.now ≡ [] }
    {
        str::from_utf8(self.name_bytes()).unwrap_or("")
    }
}
