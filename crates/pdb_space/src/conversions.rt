//! Conversions of addresses and places by an address map.
//!
//! If a conversion uses a table, its contract says what the result is for a sorted table, as tools
//! write them. With any other table the result is None, or is made from an address to which some
//! record of the table, with a source at or below the address that is looked up, moves that
//! address.

ghost use Rattle.std.specs.Prelude.{◌≡◌, None, Some, IfSome};
ghost use Rattle.pdb_space.specs.Omap.{MovesSomehow};
ghost use Rattle.pdb_space.specs.Conversions.{ComesSomehow, IsByTable, rva_to_internal_rva, rva_to_section_offset};
ghost use Rattle.pdb_space.specs.Conversions.{rva_to_internal_offset, internal_rva_to_rva};
ghost use Rattle.pdb_space.specs.Conversions.{internal_rva_to_section_offset, internal_rva_to_internal_offset};
ghost use Rattle.pdb_space.specs.Conversions.{section_offset_to_rva, section_offset_to_internal_rva};
ghost use Rattle.pdb_space.specs.Conversions.{section_offset_to_internal_offset, internal_offset_to_internal_rva};
ghost use Rattle.pdb_space.specs.Conversions.{internal_offset_to_rva, internal_offset_to_section_offset};

use crate::address::Rva;
use crate::address_map::{AddressMap, translate};
use crate::internal_address::PdbInternalRva;
use crate::internal_section_offset::PdbInternalSectionOffset;
use crate::section_offset::SectionOffset;
use crate::sections::{address_of, section_of};

impl Rva {
    /// Returns the address in the original image from which this one was moved, or None if there is
    /// none. Without a table it is the same number.
    #[tactic(auto, unfolding(crate::specs::Conversions::rva_to_internal_rva))]
    pub fn to_internal_rva(self, map: &AddressMap) -> Option<PdbInternalRva>
        ensures { IsByTable map.now.transformed_to_original (rva_to_internal_rva map.now self)
            (λ table. MovesSomehow table self) result }
    {
        translate(&map.transformed_to_original, self.0).map(|address| PdbInternalRva(address))
    }

    /// Returns the place of the address in the image as it is loaded: in the first section that
    /// contains it, which means that the address lies less than `size_of_raw_data` bytes after the
    /// section's start.
    ///
    /// Returns None if there is no such section before one that begins above the address, or if its
    /// number doesn't fit in 16 bits. `SectionOffset::to_rva` converts the place back to this
    /// address.
    #[tactic(auto, unfolding(crate::specs::Conversions::rva_to_section_offset, crate::specs::Conversions::section_offset_to_rva), using(crate::proofs::SectionLemmas::section_back))]
    pub fn to_section_offset(self, map: &AddressMap) -> Option<SectionOffset>
        ensures place { result ≡ rva_to_section_offset map.now self }
        ensures back { IfSome result (λ place. section_offset_to_rva map.now place ≡ Some self) }
    {
        section_of(map.loaded_sections(), self.0)
    }

    /// Returns the place, in the original image, of the address from which this one was moved, or
    /// None if there is none.
    #[tactic(auto, unfolding(crate::specs::Conversions::rva_to_internal_offset, crate::specs::Conversions::internal_rva_to_internal_offset))]
    pub fn to_internal_offset(self, map: &AddressMap) -> Option<PdbInternalSectionOffset>
        ensures { IsByTable map.now.transformed_to_original (rva_to_internal_offset map.now self)
            (ComesSomehow (Some self) (internal_rva_to_internal_offset map.now)) result }
    {
        self.to_internal_rva(map)?.to_internal_offset(map)
    }
}

impl PdbInternalRva {
    /// Returns the address in the image as it is loaded to which this one was moved, or None if
    /// there is none, for example because it was left out. Without a table it is the same number.
    #[tactic(auto, unfolding(crate::specs::Conversions::internal_rva_to_rva))]
    pub fn to_rva(self, map: &AddressMap) -> Option<Rva>
        ensures { IsByTable map.now.original_to_transformed (internal_rva_to_rva map.now self)
            (λ table. MovesSomehow table self) result }
    {
        translate(&map.original_to_transformed, self.0).map(|address| Rva(address))
    }

    /// Returns the place in the image as it is loaded to which this address was moved, or None if
    /// there is none.
    #[tactic(auto, unfolding(crate::specs::Conversions::internal_rva_to_section_offset, crate::specs::Conversions::rva_to_section_offset))]
    pub fn to_section_offset(self, map: &AddressMap) -> Option<SectionOffset>
        ensures { IsByTable map.now.original_to_transformed (internal_rva_to_section_offset map.now self)
            (ComesSomehow (Some self) (rva_to_section_offset map.now)) result }
    {
        self.to_rva(map)?.to_section_offset(map)
    }

    /// Returns the place of the address in the original image: in the first section that contains
    /// it, which means that the address lies less than `size_of_raw_data` bytes after the section's
    /// start.
    ///
    /// Returns None if there is no such section before one that begins above the address, or if its
    /// number doesn't fit in 16 bits.
    #[tactic(auto, unfolding(crate::specs::Conversions::internal_rva_to_internal_offset))]
    pub fn to_internal_offset(self, map: &AddressMap) -> Option<PdbInternalSectionOffset>
        ensures { result ≡ internal_rva_to_internal_offset map.now self }
    {
        let place = section_of(&map.original_sections, self.0)?;
        Some(PdbInternalSectionOffset::new(place.section, place.offset))
    }
}

impl SectionOffset {
    /// Returns the address of the place, or None if the image as it is loaded has no section of
    /// this number or if the address doesn't fit in 32 bits. The size of the section isn't checked.
    #[tactic(auto, unfolding(crate::specs::Conversions::section_offset_to_rva))]
    pub fn to_rva(self, map: &AddressMap) -> Option<Rva>
        ensures { result ≡ section_offset_to_rva map.now self }
    {
        address_of(map.loaded_sections(), self).map(|address| Rva(address))
    }

    /// Returns the address in the original image from which the place was moved, or None if there
    /// is none.
    #[tactic(auto, unfolding(crate::specs::Conversions::section_offset_to_internal_rva))]
    pub fn to_internal_rva(self, map: &AddressMap) -> Option<PdbInternalRva>
        ensures { IsByTable map.now.transformed_to_original (section_offset_to_internal_rva map.now self)
            (ComesSomehow (section_offset_to_rva map.now self) Some) result }
    {
        self.to_rva(map)?.to_internal_rva(map)
    }

    /// Returns the place in the original image from which this one was moved, or None if there is
    /// none. Without transformed sections it has the same section and offset, even if there is no
    /// such section.
    #[tactic(auto, unfolding(crate::specs::Conversions::section_offset_to_internal_offset))]
    pub fn to_internal_offset(self, map: &AddressMap) -> Option<PdbInternalSectionOffset>
        ensures by_table { IsByTable map.now.transformed_to_original (section_offset_to_internal_offset map.now self)
            (λ table place. IfSome map.now.transformed_sections (λ _.
            ComesSomehow (section_offset_to_rva map.now self) (internal_rva_to_internal_offset map.now) table place))
            result }
        ensures same { map.now.transformed_sections ≡ None → result ≡ Some self }
    {
        if map.transformed_sections.is_none() {
            return Some(PdbInternalSectionOffset::new(self.section, self.offset));
        }
        self.to_internal_rva(map)?.to_internal_offset(map)
    }
}

impl PdbInternalSectionOffset {
    /// Returns the address of the place, or None if the original image has no section of this
    /// number or if the address doesn't fit in 32 bits. The size of the section isn't checked.
    #[tactic(auto, unfolding(crate::specs::Conversions::internal_offset_to_internal_rva))]
    pub fn to_internal_rva(self, map: &AddressMap) -> Option<PdbInternalRva>
        ensures { result ≡ internal_offset_to_internal_rva map.now self }
    {
        let place = SectionOffset::new(self.section, self.offset);
        address_of(&map.original_sections, place).map(|address| PdbInternalRva(address))
    }

    /// Returns the address in the image as it is loaded to which the place was moved, or None if
    /// there is none.
    #[tactic(auto, unfolding(crate::specs::Conversions::internal_offset_to_rva))]
    pub fn to_rva(self, map: &AddressMap) -> Option<Rva>
        ensures { IsByTable map.now.original_to_transformed (internal_offset_to_rva map.now self)
            (ComesSomehow (internal_offset_to_internal_rva map.now self) Some) result }
    {
        self.to_internal_rva(map)?.to_rva(map)
    }

    /// Returns the place in the image as it is loaded to which this one was moved, or None if there
    /// is none. Without transformed sections it has the same section and offset, even if there is
    /// no such section.
    #[tactic(auto, unfolding(crate::specs::Conversions::internal_offset_to_section_offset))]
    pub fn to_section_offset(self, map: &AddressMap) -> Option<SectionOffset>
        ensures by_table { IsByTable map.now.original_to_transformed (internal_offset_to_section_offset map.now self)
            (λ table place. IfSome map.now.transformed_sections (λ _.
            ComesSomehow (internal_offset_to_internal_rva map.now self) (rva_to_section_offset map.now) table place))
            result }
        ensures same { map.now.transformed_sections ≡ None → result ≡ Some self }
    {
        if map.transformed_sections.is_none() {
            return Some(SectionOffset::new(self.section, self.offset));
        }
        self.to_rva(map)?.to_section_offset(map)
    }
}
