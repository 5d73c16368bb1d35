//! The order of sections.

ghost use Rattle.std.specs.Prelude.{◌≡◌, Ok};
ghost use Rattle.pdb_base.specs.Answer.{Answers};
ghost use Rattle.pdb_validation.specs.Mismatch.{asked_of};
ghost use Rattle.pdb_validation.specs.Sections.{section_mismatch, section_mismatches};

use crate::inconsistency::Inconsistency;
use crate::mismatch::{Extent, Mismatch, add};
use pdb_base::Result;
use pdb_space::ImageSectionHeader;
use std::alloc::Global;

/// Returns the mismatch of a section at a place of the list, if it begins below the end of the one
/// before it.
fn section_mismatch(stream: u32, least: u64, place: usize, address: u32) -> Option<Mismatch>
    ensures { result ≡ section_mismatch stream least place address }
{
    let overlaps = (address as u64) < least;
    overlaps.then_some(Mismatch {
        stream: Some(stream),
        index: Some(place as u64),
        byte: None,
        what: Inconsistency::SectionsOverlap,
    })
}

/// Returns the sections that begin below the end of the section before them, each with its place in
/// the list, from 0 on. Sections ascend by their virtual addresses, and a section ends where its
/// virtual size says (the Portable Executable specification). The list is that of a stream. All are
/// returned, or one, as `extent` says.
///
/// # Errors
/// Fails with `OutOfMemory` if an allocation fails.
pub fn check_section_order(
    alloc: Global,
    sections: &[ImageSectionHeader],
    stream: u32,
    extent: Extent,
) -> Result<Vec<Mismatch>>
    ensures { Answers (λ mismatches. mismatches.items) result
        (Ok (asked_of extent (section_mismatches stream 0 0 sections.now))) }
{
    let mut mismatches = Vec::new(alloc);
    let mut least = 0u64;
    for (place, section) in sections.iter().enumerate() {
        let found = section_mismatch(stream, least, place, section.virtual_address);
        add(&mut mismatches, extent, found)?;
        least = section.virtual_address as u64 + section.virtual_size as u64;
    }
    Ok(mismatches)
}
