//! OMAP tables, the ranges to which they move a range of addresses, and the four forms of an address
//! or a place: in the image as it is loaded and in the original one, which a program database
//! refers to.

ghost use Rattle.std.specs.Prelude.{◌≡◌, map, Ok, Some};
ghost use Rattle.pdb_base.specs.Answer.{Answers};
ghost use Rattle.pdb_handles.specs.Addresses.{omap_info, WritesMoved, WritesRangesOf, span_of, AreForms};
ghost use Rattle.pdb_handles.specs.Addresses.{TellsOrder, Translates, place_or_none, translation_of};

use crate::copied::{copy_list, copy_nothing};
use crate::fault::{Fault, NONE};
use crate::found::{tell_found, tell_value};
use crate::frames::flag;
use pdb_base::Result;
use pdb_space::{
    AddressMap, OMAPRecord, OMAPTable, PdbInternalRva, PdbInternalRvaRangeIter,
    PdbInternalSectionOffset, RangeIter, Rva, RvaRangeIter, SectionOffset,
};
use std::alloc::Global;
use std::ops::Range;

/// A record of an OMAP table, which moves the addresses from its source up to the next record's.
#[repr(C)]
#[derive(Clone, Copy)]
pub struct OmapRow {
    /// The first address that the record moves.
    pub source: u32,
    /// The address to which it moves that one, or 0 if it moves it nowhere.
    pub target: u32,
}

/// Converts a record for the caller.
fn omap_row(moved: OMAPRecord) -> OmapRow
    ensures { result ≡ omap_info moved }
{
    OmapRow {
        source: moved.source_address(),
        target: moved.target_address(),
    }
}

/// Returns the records of a table, in their order, for the caller.
///
/// # Errors
/// Fails only with `OutOfMemory`, if an allocation fails.
pub fn records_in(alloc: Global, table: &OMAPTable) -> Result<Vec<OmapRow>>
    ensures { Answers (λ rows. rows.items) result (Ok (map omap_info table.now)) }
{
    Ok(table.records().map(omap_row).collect(alloc)?)
}

/// Writes 1 if no record of a table has a source below that of the record before it, and 0 if one
/// has.
pub fn tell_order(table: &OMAPTable, is_sorted: &mut u32) -> Fault
    ensures { TellsOrder table.now (record { fault = result; value = is_sorted.new }) }
{
    tell_value(flag(table.is_sorted()), is_sorted)
}

/// A range of addresses, its end excluded.
#[repr(C)]
#[derive(Clone, Copy)]
pub struct Span {
    /// The first address.
    pub start: u32,
    /// The address after the last one.
    pub end: u32,
}

impl Span {
    /// Returns the range from a first address to the one after the last.
    fn of(start: u32, end: u32) -> Span
        ensures { result ≡ record { start = start; end = end } }
    {
        Span { start, end }
    }
}

/// Converts all ranges that are left in an iterator for the caller.
fn spans_in(alloc: Global, ranges: RangeIter<'_>) -> Result<Vec<Span>>
    ensures { Answers (λ spans. spans.items) result (Ok (map span_of ranges.entry)) }
{
    let spans = ranges.map(|range| Span::of(range.start, range.end));
    Ok(spans.collect(alloc)?)
}

/// Converts all ranges of the image as it is loaded that are left in an iterator for the caller.
fn loaded_spans_in(alloc: Global, ranges: RvaRangeIter<'_>) -> Result<Vec<Span>>
    ensures { Answers (λ spans. spans.items) result (Ok (map span_of ranges.entry)) }
{
    let spans = ranges.map(|range| Span::of(range.start.0, range.end.0));
    Ok(spans.collect(alloc)?)
}

/// Converts all ranges of the original image that are left in an iterator for the caller.
fn internal_spans_in(alloc: Global, ranges: PdbInternalRvaRangeIter<'_>) -> Result<Vec<Span>>
    ensures { Answers (λ spans. spans.items) result (Ok (map span_of ranges.entry)) }
{
    let spans = ranges.map(|range| Span::of(range.start.0, range.end.0));
    Ok(spans.collect(alloc)?)
}

/// Writes the ranges to which a table moves the addresses of a range.
#[tactic(auto, unfolding(pdb_space::specs::Conversions::translated_parts))]
pub fn write_moved(
    alloc: Global,
    table: &OMAPTable,
    asked: Range<u32>,
    room: &mut [Span],
    length: &mut usize,
) -> Fault
    ensures { WritesMoved (Some table.now) asked room.old
        (record { fault = result; length = length.new; room = room.new }) }
{
    copy_list(spans_in(alloc, table.lookup_range(asked)), room, length)
}

/// Writes where the addresses of a range lie in the other image, for a range of the image as it is
/// loaded if the form is 0, and of the original one if it is 2. Returns a fault of status `NONE` for
/// any other form.
pub fn write_ranges(
    alloc: Global,
    map: &AddressMap,
    form: u32,
    asked: Range<u32>,
    room: &mut [Span],
    length: &mut usize,
) -> Fault
    ensures { WritesRangesOf map.now form asked room.old
        (record { fault = result; length = length.new; room = room.new }) }
{
    match form {
        0 => {
            let ranges = map.internal_rva_ranges(Rva(asked.start)..Rva(asked.end));
            copy_list(internal_spans_in(alloc, ranges), room, length)
        }
        2 => {
            let ranges = map.rva_ranges(PdbInternalRva(asked.start)..PdbInternalRva(asked.end));
            copy_list(loaded_spans_in(alloc, ranges), room, length)
        }
        _ => copy_nothing(Fault::status(NONE), length),
    }
}

/// A place in a section of an image.
#[repr(C)]
#[derive(Clone, Copy)]
pub struct Place {
    /// The offset of the place from the section's start, in bytes.
    pub offset: u32,
    /// The number of the section, counted from 1.
    pub section: u32,
}

/// The four forms of an address or a place. A form that doesn't exist is 0, and so is its flag.
#[repr(C)]
#[derive(Clone, Copy)]
pub struct Translation {
    /// Whether there is an address in the image as it is loaded, as 0 or 1.
    pub has_rva: u32,
    /// That address.
    pub rva: u32,
    /// Whether there is a place in a section of the image as it is loaded, as 0 or 1.
    pub has_section_offset: u32,
    /// That place.
    pub section_offset: Place,
    /// Whether there is an address in the original image, as 0 or 1.
    pub has_internal_rva: u32,
    /// That address.
    pub internal_rva: u32,
    /// Whether there is a place in a section of the original image, as 0 or 1.
    pub has_internal_section_offset: u32,
    /// That place.
    pub internal_section_offset: Place,
}

/// The forms that exist.
#[derive(Clone, Copy)]
struct Forms {
    rva: Option<Rva>,
    place: Option<SectionOffset>,
    internal_rva: Option<PdbInternalRva>,
    internal_place: Option<PdbInternalSectionOffset>,
}

/// Returns the forms of what is given, whose own form is 0 for an address and 1 for a place in the
/// image as it is loaded, 2 for an address and 3 for a place in the original one. Returns None for
/// any other form.
fn forms_of(map: &AddressMap, form: u32, section: u16, offset: u32) -> Option<Forms>
    ensures { AreForms map.now form (record { section = section; offset = offset }) result }
{
    match form {
        0 => {
            let rva = Rva(offset);
            Some(Forms {
                rva: Some(rva),
                place: rva.to_section_offset(map),
                internal_rva: rva.to_internal_rva(map),
                internal_place: rva.to_internal_offset(map),
            })
        }
        1 => {
            let place = SectionOffset::new(section, offset);
            Some(Forms {
                rva: place.to_rva(map),
                place: Some(place),
                internal_rva: place.to_internal_rva(map),
                internal_place: place.to_internal_offset(map),
            })
        }
        2 => {
            let internal_rva = PdbInternalRva(offset);
            Some(Forms {
                rva: internal_rva.to_rva(map),
                place: internal_rva.to_section_offset(map),
                internal_rva: Some(internal_rva),
                internal_place: internal_rva.to_internal_offset(map),
            })
        }
        3 => {
            let internal_place = PdbInternalSectionOffset::new(section, offset);
            Some(Forms {
                rva: internal_place.to_rva(map),
                place: internal_place.to_section_offset(map),
                internal_rva: internal_place.to_internal_rva(map),
                internal_place: Some(internal_place),
            })
        }
        _ => None,
    }
}

/// Converts a place in a section of the image as it is loaded for the caller.
fn place_in(place: Option<SectionOffset>) -> Place
    ensures { result ≡ place_or_none place }
{
    let (section, offset) = place.map_or((0, 0), |place| (place.section, place.offset));
    Place {
        offset,
        section: section as u32,
    }
}

/// Converts a place in a section of the original image for the caller.
fn internal_place_in(place: Option<PdbInternalSectionOffset>) -> Place
    ensures { result ≡ place_or_none place }
{
    place_in(place.map(|place| SectionOffset::new(place.section, place.offset)))
}

impl Translation {
    /// Converts forms for the caller.
    fn of(forms: &Forms) -> Translation
        ensures { result ≡ translation_of forms.now }
    {
        Translation {
            has_rva: flag(forms.rva.is_some()),
            rva: forms.rva.map_or(0, |rva| rva.0),
            has_section_offset: flag(forms.place.is_some()),
            section_offset: place_in(forms.place),
            has_internal_rva: flag(forms.internal_rva.is_some()),
            internal_rva: forms.internal_rva.map_or(0, |rva| rva.0),
            has_internal_section_offset: flag(forms.internal_place.is_some()),
            internal_section_offset: internal_place_in(forms.internal_place),
        }
    }
}

/// Writes all forms of what is given, whose own form is a number as in `forms_of`, or returns a
/// fault of status `NONE` for any other number.
pub fn translate(
    map: &AddressMap,
    form: u32,
    section: u16,
    offset: u32,
    translation: &mut Translation,
) -> Fault
    ensures { Translates map.now form (record { section = section; offset = offset }) translation.old
        (record { fault = result; value = translation.new }) }
{
    let translated = match forms_of(map, form, section, offset) {
        Some(forms) => Some(Translation::of(&forms)),
        None => None,
    };
    tell_found(translated, Fault::status(NONE), translation)
}
