//! Reading of addresses and places in sections from bytes, each number little-endian.

ghost use Rattle.pdb_base.specs.Reading.{number_at};
ghost use Rattle.pdb_space.specs.SectionPlace.{section_place_at};

use crate::internal_address::PdbInternalRva;
use crate::internal_section_offset::PdbInternalSectionOffset;
use pdb_base::{Le, Parse, ParseBuffer, Result};

/// Reads a `u32`.
impl Parse<Le> for PdbInternalRva {
    ghost reads = { λ _. number_at 4 };

    fn parse_from(bytes: &[u8], context: Le) -> Result<(PdbInternalRva, usize)> {
        let (number, len) = u32::parse_from(bytes, context)?;
        Ok((PdbInternalRva(number), len))
    }
}

/// Reads the offset as a `u32`, and then the section as a `u16`.
impl Parse<Le> for PdbInternalSectionOffset {
    ghost reads = { λ _. section_place_at };

    #[tactic(auto, unfolding(crate::specs::SectionPlace::section_place_at))]
    fn parse_from(bytes: &[u8], _: Le) -> Result<(PdbInternalSectionOffset, usize)> {
        let mut buffer = ParseBuffer::from(bytes);
        let offset = buffer.parse_u32()?;
        let section = buffer.parse_u16()?;
        Ok((PdbInternalSectionOffset { offset, section }, buffer.pos()))
    }
}
