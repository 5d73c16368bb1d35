//! The places of addresses in sections.

ghost use Rattle.std.specs.Prelude.{◌≡◌};
ghost use Rattle.pdb_space.specs.Sections.{address_of, section_of};

use crate::section_header::ImageSectionHeader;
use crate::section_offset::SectionOffset;

/// Returns the place of an address: in the first section that contains it, which means that the
/// address lies less than `size_of_raw_data` bytes after the section's start.
///
/// Returns None if there is no such section before one that begins above the address, or if its
/// number doesn't fit in 16 bits.
pub(crate) fn section_of(sections: &[ImageSectionHeader], address: u32) -> Option<SectionOffset>
    ensures { result ≡ section_of sections.now address }
{
    for (place, section) in sections.iter().enumerate() {
        let offset = address.checked_sub(section.virtual_address)?;
        if offset < section.size_of_raw_data {
            let number = u16::try_from(place + 1).ok()?;
            return Some(SectionOffset::new(number, offset));
        }
    }
    None
}

/// Returns the address of a place. Returns None for section 0, for a section that doesn't exist, or
/// if the address doesn't fit in 32 bits.
#[tactic(auto, unfolding(crate::specs::Sections::address_of))]
pub(crate) fn address_of(sections: &[ImageSectionHeader], place: SectionOffset) -> Option<u32>
    ensures { result ≡ address_of sections.now place }
{
    let index = (place.section as usize).checked_sub(1)?;
    sections
        .get(index)?
        .virtual_address
        .checked_add(place.offset)
}
