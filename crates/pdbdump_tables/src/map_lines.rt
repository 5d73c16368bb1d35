//! The lines of what an address map makes of an address, one for each conversion.

#![tactic(auto, using(pdbdump_rows::proofs::lemmas::Sink::adding_lines))]

ghost use Rattle.pdbdump_rows.specs.Sink.{AddsLines};

use pdb_base::RawString;
use pdb_space::{AddressMap, PdbInternalRva, PdbInternalSectionOffset, Rva, SectionOffset};
use pdbdump_rows::{Rows, Value, optional_hexadecimal, optional_number, optional_text};
use std::io::Write;

/// What a line is about: the word of its address, if there are several, and the name of what the
/// address is.
#[derive(Clone, Copy)]
pub(crate) struct Given<'w> {
    pub(crate) word: Option<&'w str>,
    pub(crate) from: &'static str,
}

/// Writes the line of an address that is made of another.
fn write_address<W: Write>(
    rows: &mut Rows<'_, W>,
    given: Given<'_>,
    to: &'static str,
    address: Option<u32>,
)
    ensures { AddsLines rows.old rows.new }
{
    rows.row(&[
        ("of", optional_text(given.word.map(RawString::from))),
        ("from", Value::Word(given.from)),
        ("to", Value::Word(to)),
        ("found", Value::Flag(address.is_some())),
        ("address", optional_hexadecimal(address)),
    ]);
}

/// Writes the line of a place in a section that is made of an address.
fn write_place<W: Write>(
    rows: &mut Rows<'_, W>,
    given: Given<'_>,
    to: &'static str,
    place: Option<SectionOffset>,
)
    ensures { AddsLines rows.old rows.new }
{
    let section = place.map(|place| place.section as u32);
    let offset = place.map(|place| place.offset);
    rows.row(&[
        ("of", optional_text(given.word.map(RawString::from))),
        ("from", Value::Word(given.from)),
        ("to", Value::Word(to)),
        ("found", Value::Flag(place.is_some())),
        ("section", optional_number(section)),
        ("offset", optional_hexadecimal(offset)),
    ]);
}

/// Writes the line of an address of the image as it is loaded.
fn write_rva<W: Write>(rows: &mut Rows<'_, W>, given: Given<'_>, address: Option<Rva>)
    ensures { AddsLines rows.old rows.new }
{
    write_address(rows, given, "rva", address.map(|address| address.0));
}

/// Writes the lines of an address of the original image, and of its place in a section there.
fn write_internal<W: Write>(
    rows: &mut Rows<'_, W>,
    given: Given<'_>,
    address: Option<PdbInternalRva>,
    place: Option<PdbInternalSectionOffset>,
)
    ensures { AddsLines rows.old rows.new }
{
    write_address(
        rows,
        given,
        "internal_rva",
        address.map(|address| address.0),
    );
    write_internal_place(rows, given, place);
}

/// Writes the line of a place in a section of the original image.
fn write_internal_place<W: Write>(
    rows: &mut Rows<'_, W>,
    given: Given<'_>,
    place: Option<PdbInternalSectionOffset>,
)
    ensures { AddsLines rows.old rows.new }
{
    let place = place.map(|place| SectionOffset::new(place.section, place.offset));
    write_place(rows, given, "internal_offset", place);
}

/// Writes what a map makes of an address in the image as it is loaded.
pub(crate) fn write_of_rva<W: Write>(
    rows: &mut Rows<'_, W>,
    map: &AddressMap,
    address: Rva,
    word: Option<&str>,
)
    ensures { AddsLines rows.old rows.new }
{
    let given = Given { word, from: "rva" };
    write_place(
        rows,
        given,
        "section_offset",
        address.to_section_offset(map),
    );
    write_internal(
        rows,
        given,
        address.to_internal_rva(map),
        address.to_internal_offset(map),
    );
}

/// Writes what a map makes of an address in the original image.
pub(crate) fn write_of_internal_rva<W: Write>(
    rows: &mut Rows<'_, W>,
    map: &AddressMap,
    address: PdbInternalRva,
    word: Option<&str>,
)
    ensures { AddsLines rows.old rows.new }
{
    let given = Given {
        word,
        from: "internal_rva",
    };
    write_internal_place(rows, given, address.to_internal_offset(map));
    write_rva(rows, given, address.to_rva(map));
    write_place(
        rows,
        given,
        "section_offset",
        address.to_section_offset(map),
    );
}

/// Writes what a map makes of a place in a section of the image as it is loaded.
pub(crate) fn write_of_place<W: Write>(
    rows: &mut Rows<'_, W>,
    map: &AddressMap,
    place: SectionOffset,
    word: Option<&str>,
)
    ensures { AddsLines rows.old rows.new }
{
    let given = Given {
        word,
        from: "section_offset",
    };
    write_rva(rows, given, place.to_rva(map));
    write_internal(
        rows,
        given,
        place.to_internal_rva(map),
        place.to_internal_offset(map),
    );
}

/// Writes what a map makes of a place in a section of the original image.
pub(crate) fn write_of_internal_place<W: Write>(
    rows: &mut Rows<'_, W>,
    map: &AddressMap,
    place: PdbInternalSectionOffset,
    word: Option<&str>,
)
    ensures { AddsLines rows.old rows.new }
{
    let given = Given {
        word,
        from: "internal_offset",
    };
    let address = place.to_internal_rva(map).map(|address| address.0);
    write_address(rows, given, "internal_rva", address);
    write_rva(rows, given, place.to_rva(map));
    write_place(rows, given, "section_offset", place.to_section_offset(map));
}
