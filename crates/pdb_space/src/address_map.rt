//! The sections of an image before and after a tool rearranged it, and where its addresses were
//! moved.

ghost use Rattle.std.specs.Prelude.{◌≡◌, ◌≤◌, [], None, All, IfSome, length, option_map};
ghost use Rattle.std.specs.Iterator.{YieldsFirst, item_count};
ghost use Rattle.pdb_space.specs.Omap.{IsSortedBySource, MovesSomehow};
ghost use Rattle.pdb_space.specs.Ranges.{IsNotEmpty, end_to_end, pointwise};
ghost use Rattle.pdb_space.specs.Conversions.{loaded_sections, translation_by, translated_parts};

use crate::address::Rva;
use crate::internal_address::PdbInternalRva;
use crate::omap_table::OMAPTable;
use crate::range_iter::RangeIter;
use crate::section_header::ImageSectionHeader;
use std::alloc::Global;
use std::iter::FusedIterator;
use std::marker::Model;
use std::ops::Range;

/// The sections of an image before and after a tool rearranged it, and the tables that convert
/// addresses of one into those of the other.
///
/// A program database refers to the original image. If no tool has rearranged it, there are no
/// transformed sections and no tables, and addresses keep their numbers.
#[derive(Debug, Drop)]
pub struct AddressMap {
    pub(crate) original_sections: Vec<ImageSectionHeader>,
    pub(crate) transformed_sections: Option<Vec<ImageSectionHeader>>,
    pub(crate) transformed_to_original: Option<OMAPTable>,
    pub(crate) original_to_transformed: Option<OMAPTable>,
}

impl Model for AddressMap {
    ghost use Rattle.std.specs.Prelude.{option_map};
    ghost use Rattle.pdb_space.specs.Conversions.{AddressMapValue};

    ghost Value = { AddressMapValue };

    ghost view = { λ m. record {
      original_sections = m.original_sections.items;
      transformed_sections = option_map (λ sections. sections.items) m.transformed_sections;
      transformed_to_original = m.transformed_to_original;
      original_to_transformed = m.original_to_transformed;
    } };
}

impl AddressMap {
    /// Returns the map of an image with these sections in the original image, these in the image as
    /// it is loaded if they are others, and these tables that lead from one to the other.
    pub fn new(
        original_sections: Vec<ImageSectionHeader>,
        transformed_sections: Option<Vec<ImageSectionHeader>>,
        transformed_to_original: Option<OMAPTable>,
        original_to_transformed: Option<OMAPTable>,
    ) -> Self
        ensures { result ≡ record {
          original_sections = original_sections.items;
          transformed_sections = option_map (λ sections. sections.items) transformed_sections;
          transformed_to_original = transformed_to_original;
          original_to_transformed = original_to_transformed;
        } }
    {
        AddressMap {
            original_sections,
            transformed_sections,
            transformed_to_original,
            original_to_transformed,
        }
    }

    /// Returns the map of an image that was not rearranged and of which no section is known.
    pub fn empty(alloc: Global) -> Self
        ensures { result ≡ record {
          original_sections = [];
          transformed_sections = None;
          transformed_to_original = None;
          original_to_transformed = None;
        } }
    {
        AddressMap::new(Vec::new(alloc), None, None, None)
    }

    /// Returns the ranges of the image as it is loaded to which the addresses of a range of the
    /// original image are moved. No range is empty.
    ///
    /// Together, the ranges hold in order what `PdbInternalRva::to_rva` returns for the addresses
    /// one by one, except those that it moves to 0xffffffff. This needn't hold if the table isn't
    /// sorted, but there is always at most one range for each of its records. Without a table there
    /// is one range, the given one, unless it is empty.
    pub fn rva_ranges(&self, range: Range<PdbInternalRva>) -> RvaRangeIter<'_>
        ensures parts { IfSome self.now.original_to_transformed IsSortedBySource →
            result ≡ translated_parts self.now.original_to_transformed range }
        ensures laid { IfSome self.now.original_to_transformed IsSortedBySource →
            end_to_end result ≡ pointwise (translation_by self.now.original_to_transformed) range }
        ensures few { IfSome self.now.original_to_transformed (λ table. length result ≤ length table) }
        ensures not_empty { All IsNotEmpty result }
    {
        RvaRangeIter {
            ranges: translate_range(&self.original_to_transformed, range.start.0..range.end.0),
        }
    }

    /// Returns the ranges of the original image from which the addresses of a range of the image as
    /// it is loaded were moved. No range is empty.
    ///
    /// Together, the ranges hold in order what `Rva::to_internal_rva` returns for the addresses one
    /// by one, except those that it moves to 0xffffffff. This needn't hold if the table isn't
    /// sorted, but there is always at most one range for each of its records. Without a table there
    /// is one range, the given one, unless it is empty.
    pub fn internal_rva_ranges(&self, range: Range<Rva>) -> PdbInternalRvaRangeIter<'_>
        ensures parts { IfSome self.now.transformed_to_original IsSortedBySource →
            result ≡ translated_parts self.now.transformed_to_original range }
        ensures laid { IfSome self.now.transformed_to_original IsSortedBySource →
            end_to_end result ≡ pointwise (translation_by self.now.transformed_to_original) range }
        ensures few { IfSome self.now.transformed_to_original (λ table. length result ≤ length table) }
        ensures not_empty { All IsNotEmpty result }
    {
        PdbInternalRvaRangeIter {
            ranges: translate_range(&self.transformed_to_original, range.start.0..range.end.0),
        }
    }

    /// Returns the sections of the image as it is loaded, which are the original ones if no others
    /// are given.
    pub(crate) fn loaded_sections(&self) -> &[ImageSectionHeader]
        ensures { result.now ≡ loaded_sections self.now }
    {
        match &self.transformed_sections {
            Some(sections) => sections.as_slice(),
            None => self.original_sections.as_slice(),
        }
    }
}

/// Returns where a table moves an address, as `OMAPTable::lookup` does, or the address itself if
/// there is no table.
pub(crate) fn translate(table: &Option<OMAPTable>, address: u32) -> Option<u32>
    ensures exact { IfSome table.now IsSortedBySource → result ≡ translation_by table.now address }
    ensures unsorted { IfSome table.now (λ records. IfSome result (MovesSomehow records address)) }
{
    match table {
        Some(table) => table.lookup(address),
        None => Some(address),
    }
}

/// Returns the ranges to which a table moves the addresses of a range, or the range itself if there
/// is no table. No range is empty.
#[tactic(auto, unfolding(crate::specs::Conversions::translated_parts), using(crate::proofs::RangeLemmas::untouched_laid, crate::proofs::RangeLemmas::untouched_not_empty))]
fn translate_range(table: &Option<OMAPTable>, range: Range<u32>) -> RangeIter<'_>
    ensures parts { IfSome table.now IsSortedBySource → result ≡ translated_parts table.now range }
    ensures laid { IfSome table.now IsSortedBySource → end_to_end result ≡ pointwise (translation_by table.now) range }
    ensures few { IfSome table.now (λ records. length result ≤ length records) }
    ensures not_empty { All IsNotEmpty result }
{
    match table {
        Some(table) => table.lookup_range(range),
        None => RangeIter::identity(range),
    }
}

/// An iterator over ranges of addresses in an image as it is loaded.
#[derive(Debug, Drop)]
pub struct RvaRangeIter<'t> {
    ranges: RangeIter<'t>,
}

impl<'t> Model for RvaRangeIter<'t> {
    ghost use Rattle.std.specs.Prelude.{ℕ, List};
    ghost use Rattle.std.specs.declared.ops.Range.{Range};

    ghost Value = { List (Range ℕ) };

    ghost view = { λ i. i.ranges };
}

impl<'t> Iterator for RvaRangeIter<'t> {
    type Item = Range<Rva>;

    ghost next_gives = { YieldsFirst (λ ranges. ranges) };

    ghost remaining = { item_count (λ ranges. ranges) };

    fn next(&mut self) -> Option<Range<Rva>> {
        let range = self.ranges.next()?;
        Some(Rva(range.start)..Rva(range.end))
    }
}

impl<'t> FusedIterator for RvaRangeIter<'t> {}

/// An iterator over ranges of addresses in an image before a tool rearranged it.
#[derive(Debug, Drop)]
pub struct PdbInternalRvaRangeIter<'t> {
    ranges: RangeIter<'t>,
}

impl<'t> Model for PdbInternalRvaRangeIter<'t> {
    ghost use Rattle.std.specs.Prelude.{ℕ, List};
    ghost use Rattle.std.specs.declared.ops.Range.{Range};

    ghost Value = { List (Range ℕ) };

    ghost view = { λ i. i.ranges };
}

impl<'t> Iterator for PdbInternalRvaRangeIter<'t> {
    type Item = Range<PdbInternalRva>;

    ghost next_gives = { YieldsFirst (λ ranges. ranges) };

    ghost remaining = { item_count (λ ranges. ranges) };

    fn next(&mut self) -> Option<Range<PdbInternalRva>> {
        let range = self.ranges.next()?;
        Some(PdbInternalRva(range.start)..PdbInternalRva(range.end))
    }
}

impl<'t> FusedIterator for PdbInternalRvaRangeIter<'t> {}
