//! What the definitions of addresses, of the tables that move them and of the string table come to.
//! The functions do nothing: each contract is a law.

ghost use Rattle.std.specs.Prelude.{◌≡◌, ◌↔◌, ℕ, List, Some, length};
ghost use Rattle.std.specs.declared.ops.Range.{Range};
ghost use Rattle.pdb_base.specs.Rules.{FollowsRules};
ghost use Rattle.pdb_space.specs.Omap.{OmapValue, IsSortedBySource, mappings_of, omap_table_of, shift};
ghost use Rattle.pdb_space.specs.Ranges.{end_to_end, parts, pointwise};
ghost use Rattle.pdb_space.specs.declared.section_header.ImageSectionHeader.{ImageSectionHeader};
ghost use Rattle.pdb_space.specs.SectionPlace.{SectionPlace};
ghost use Rattle.pdb_space.specs.Sections.{address_of, section_of};
ghost use Rattle.pdb_space.specs.Sum.{Fits};
ghost use Rattle.pdb_space.specs.Conversions.{AddressMapValue};
ghost use Rattle.pdb_space.specs.Laws.{EndsForGood, IsCutToFit, IsFirstToReach, IsReached, KeepsNumbers};
ghost use Rattle.pdb_space.specs.Laws.{OrdersByNumber, OrdersBySource, OrdersWithinSections, TellsApart, UndoEachOther};
ghost use Rattle.pdb_space.specs.Laws.{omap_rules};
ghost use Rattle.pdb_space.specs.StringTable.{name_of, names_of};
ghost use Rattle.pdb_space.specs.StringTableLaws.{FindsName, FindsNames, HoldsNames, IsNameAt, RefusesByFirstFault};
ghost use Rattle.pdb_space.specs.StringTableLaws.{name_rules, names_rules};

use crate::address::Rva;
use crate::address_map::{PdbInternalRvaRangeIter, RvaRangeIter};
use crate::internal_address::PdbInternalRva;
use crate::internal_section_offset::PdbInternalSectionOffset;
use crate::omap_record::OMAPRecord;
use crate::omap_records::OMAPRecords;
use crate::range_iter::RangeIter;
use crate::section_offset::SectionOffset;
use crate::string_ref::StringRef;

pub mod derived;

/// Each way to add gives the plain sum if that fits in 32 bits, and a start and the distance from
/// it to a number add up to that number.
pub fn sums()
    ensures cut { (number : ℕ) → IsCutToFit number }
    ensures reached { (start number : ℕ) → IsReached start number }
{}

/// Addresses compare as their numbers do, and two are equal exactly if neither is less. Equal ones
/// hash alike, which the trait `Hash` demands of each type.
pub fn addresses()
    ensures equal { TellsApart ⟦<Rva as PartialEq>⟧.eq }
    ensures order { OrdersByNumber ⟦<Rva as Ord>⟧.cmp }
    ensures internal_equal { TellsApart ⟦<PdbInternalRva as PartialEq>⟧.eq }
    ensures internal_order { OrdersByNumber ⟦<PdbInternalRva as Ord>⟧.cmp }
{}

/// Only places in the same section compare, and they are equal exactly if they are the same place.
/// Equal ones hash alike, which the trait `Hash` demands of each type.
pub fn section_offsets()
    ensures equal { TellsApart ⟦<SectionOffset as PartialEq>⟧.eq }
    ensures order { OrdersWithinSections ⟦<SectionOffset as PartialOrd>⟧.partial_cmp }
    ensures internal_equal { TellsApart ⟦<PdbInternalSectionOffset as PartialEq>⟧.eq }
    ensures internal_order { OrdersWithinSections ⟦<PdbInternalSectionOffset as PartialOrd>⟧.partial_cmp }
{}

/// A number made an address and back is that number, and an address made a number and back that
/// address.
pub fn conversions()
    ensures loaded { UndoEachOther ⟦<Rva as From<u32>>⟧.from_gives ⟦<u32 as From<Rva>>⟧.from_gives }
    ensures internal { UndoEachOther
        ⟦<PdbInternalRva as From<u32>>⟧.from_gives
        ⟦<u32 as From<PdbInternalRva>>⟧.from_gives }
{}

/// References to names are their numbers: they compare as these do, and convert into them and back.
/// Equal ones hash alike, which the trait `Hash` demands of each type.
pub fn string_refs()
    ensures equal { TellsApart ⟦<StringRef as PartialEq>⟧.eq }
    ensures order { OrdersByNumber ⟦<StringRef as Ord>⟧.cmp }
    ensures conversions { UndoEachOther
        ⟦<StringRef as From<u32>>⟧.from_gives
        ⟦<u32 as From<StringRef>>⟧.from_gives }
{}

/// The names of a stream are those that follow a good header in it, as many bytes as the header
/// says. Any other stream gives the first of four errors.
#[tactic(auto, using(crate::proofs::StringTableLemmas::finds_names, crate::proofs::StringTableLemmas::refuses_by_first_fault))]
pub fn string_tables()
    ensures found { (stream : List ℕ) → FindsNames stream }
    ensures refused { (stream : List ℕ) → RefusesByFirstFault stream }
{}

/// A name is found exactly if there is a NUL among the names at the offset or after it, and it is
/// the bytes before the first one.
#[tactic(auto, using(crate::proofs::NameLemmas::finds_name))]
pub fn names()
    ensures { (names : List ℕ) (offset : ℕ) → FindsName names offset }
{}

/// The names of a stream have the error of the first rule of their list that the stream breaks, and
/// a name that of the first rule that the names break. An OMAP table has an error exactly if its
/// length is no multiple of eight.
#[tactic(auto, using(crate::proofs::lemmas::Faults::names_follow, crate::proofs::lemmas::Faults::name_follows, crate::proofs::lemmas::Faults::omap_follows))]
pub fn faults()
    ensures string_table { (stream : List ℕ) →
        FollowsRules (names_rules stream) (HoldsNames stream) (names_of stream) }
    ensures name { (names : List ℕ) (offset : ℕ) →
        FollowsRules (name_rules names offset) (IsNameAt names offset) (name_of names offset) }
    ensures omap { (stream : List ℕ) →
        FollowsRules (omap_rules stream) (λ table. table ≡ mappings_of stream) (omap_table_of stream) }
{}

/// The parts into which a table moves a range are, laid end to end, what it makes of the range's
/// addresses one by one.
#[tactic(auto, using(crate::proofs::RangeLemmas::parts_are_pointwise))]
pub fn parts()
    ensures { (table : List OmapValue) (asked : Range ℕ) → IsSortedBySource table →
        end_to_end (parts table asked) ≡ pointwise (shift table) asked }
{}

/// The place of an address is in the first section that reaches it, and leads back to it.
#[tactic(auto, using(crate::proofs::SectionLemmas::section_back))]
pub fn places()
    ensures first { (sections : List ImageSectionHeader) (address : ℕ) (place : SectionPlace) →
        (section_of sections address ≡ Some place) ↔ IsFirstToReach sections address place }
    ensures back { (sections : List ImageSectionHeader) (address : ℕ) (place : SectionPlace) → Fits address →
        section_of sections address ≡ Some place → address_of sections place ≡ Some address }
{}

/// Without a table that leads to the other image, an address keeps its number.
#[tactic(auto, unfolding(crate::specs::Conversions::rva_to_internal_rva, crate::specs::Conversions::internal_rva_to_rva))]
pub fn without_tables()
    ensures { (map : AddressMapValue) (address : ℕ) → KeepsNumbers map address }
{}

/// Records of a table compare by their source, and those of one source by their target.
pub fn records()
    ensures equal { TellsApart ⟦<OMAPRecord as PartialEq>⟧.eq }
    ensures order { OrdersBySource ⟦<OMAPRecord as Ord>⟧.cmp }
{}

/// Iterators over records and ranges end, and then return None for good.
pub fn iterators()
    ensures records { EndsForGood ⟦<OMAPRecords<'static> as Iterator>⟧.next_gives length }
    ensures ranges { EndsForGood ⟦<RangeIter<'static> as Iterator>⟧.next_gives length }
    ensures loaded { EndsForGood ⟦<RvaRangeIter<'static> as Iterator>⟧.next_gives length }
    ensures internal { EndsForGood ⟦<PdbInternalRvaRangeIter<'static> as Iterator>⟧.next_gives length }
{}
