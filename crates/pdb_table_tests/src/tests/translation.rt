//! OMAP tables, sections, and the conversions by them.

use super::searching::omap;
use super::stream;
use pdb_base::{Count, Error, ParseBuffer};
use pdb_space::{
    AddressMap, ImageSectionHeader, OMAPRecord, OMAPRecords, OMAPTable, PdbInternalRva,
    PdbInternalRvaRangeIter, PdbInternalSectionOffset, RangeIter, Rva, RvaRangeIter,
    SectionCharacteristics, SectionOffset,
};
use std::alloc::Global;
use std::ops::Range;
use std::test::Fail;

/// A query of a table, and its answer.
enum TableRow {
    /// Whether it is sorted.
    Sorted(bool),
    /// Its records, which are two.
    Records([(u32, u32); 2]),
    /// Where an address is moved.
    Address(u32, Option<u32>),
    /// Where an address is moved, and the least and the most sources that are compared.
    Counted(u32, Option<u32>, u64, u64),
    /// Where the range of a start and an end is moved.
    Range(u32, u32, &'static [Range<u32>]),
}

use TableRow::{Address, Counted, Records, Sorted};

/// The records of a table, each a source and a target.
type Table = &'static [(u32, u32)];

const UNMAPPED: Table = &[(0x1000, 0), (0x1008, 0x15d44)];

const LAST: Table = &[(0x10, 0xffff_fff8)];

const EQUAL: Table = &[(0x10, 0x100), (0x10, 0x200)];

const NOWHERE: Table = &[(5, 0x10), (5, 0x20), (5, 0)];

const DECREASING: Table = &[(2, 1), (1, 2)];

/// Tables, and what they answer.
const TABLES: &[(Table, TableRow)] = rows! {
    &[], Sorted(true);
    &[], Address(0x10, None);
    &[], Counted(15999, None, 0, 0);
    UNMAPPED, Sorted(true);
    UNMAPPED, Address(0x0fff, None);
    UNMAPPED, Address(0x1007, None);
    UNMAPPED, Address(0x1008, Some(0x15d44));
    UNMAPPED, TableRow::Range(0, 0x1010, &[0x15d44..0x15d4c]);
    LAST, Sorted(true);
    LAST, Address(0x0f, None);
    LAST, Address(0x17, Some(0xffff_ffff));
    LAST, Address(0x18, None);
    LAST, TableRow::Range(0x10, 0x20, &[0xffff_fff8..0xffff_ffff]);
    EQUAL, Sorted(true);
    EQUAL, Address(0x10, Some(0x200));
    EQUAL, TableRow::Range(0x10, 0x12, &[0x200..0x202]);
    NOWHERE, Address(5, None);
    NOWHERE, TableRow::Range(5, 9, &[]);
    DECREASING, Sorted(false);
    DECREASING, Records([(2, 1), (1, 2)]);
};

/// What a table of 1000 records answers, of which record k moves 16k to 16k + 0x100000. The first
/// range lies over three of them.
const OF_A_THOUSAND: &[TableRow] = rows! {
    Address(15999, Some(1_064_575));
    Counted(15999, Some(1_064_575), 1, 10);
    TableRow::Range(15966, 15986, &[1_064_542..1_064_544, 1_064_544..1_064_560, 1_064_560..1_064_562]);
    TableRow::Range(15990, 16002, &[1_064_566..1_064_578]);
};

/// Those 1000 records.
fn thousand(alloc: Global) -> Result<Vec<(u32, u32)>, Fail> {
    let mut records = Vec::new(alloc);
    for k in 0..1000u32 {
        records.push((16 * k, 16 * k + 0x10_0000))?;
    }
    Ok(records)
}

/// Whether these are all records: the sources and targets of two.
fn are_records(mut records: OMAPRecords<'_>, [first, second]: &[(u32, u32); 2]) -> bool {
    records.next() == Some(OMAPRecord::new(first.0, first.1))
        && records.next() == Some(OMAPRecord::new(second.0, second.1))
        && records.next().is_none()
}

/// Whether a table moves an address so, and compares a number of sources within these bounds.
fn counts(table: &OMAPTable, address: u32, want: Option<u32>, least: u64, most: u64) -> bool {
    let mut count = Count::new();
    let moved = table.lookup_counted(address, &mut count);
    moved == want && least <= count.get() && count.get() <= most
}

/// Whether these are all ranges.
fn are_ranges(mut ranges: RangeIter<'_>, want: &[Range<u32>]) -> bool {
    for range in want {
        if ranges.next() != Some(range.start..range.end) {
            return false;
        }
    }
    ranges.next().is_none()
}

/// Whether a table answers so.
fn answers(table: &OMAPTable, row: &TableRow) -> bool {
    match row {
        Sorted(want) => table.is_sorted() == *want,
        Records(want) => are_records(table.records(), want),
        Address(address, want) => table.lookup(*address) == *want,
        Counted(address, want, least, most) => counts(table, *address, *want, *least, *most),
        TableRow::Range(start, end, want) => are_ranges(table.lookup_range(*start..*end), want),
    }
}

/// Whether the table of these records answers so.
fn is_answered(alloc: Global, records: &[(u32, u32)], row: &TableRow) -> Result<bool, Fail> {
    Ok(answers(&omap(alloc, records)?, row))
}

/// Whether a record says its source and its target, and is ordered by them in this order; and
/// whether iterators that are empty, or so by default, have no range, and one over a range has it.
fn are_parts() -> bool {
    let first = OMAPRecord::new(1, 9);
    (first.source_address(), first.target_address()) == (1, 9)
        && first < OMAPRecord::new(2, 0)
        && first > OMAPRecord::new(1, 8)
        && are_ranges(RangeIter::empty(), &[])
        && are_ranges(RangeIter::default(), &[])
        && RangeIter::identity(0..3).next() == Some(0..3)
}

#[test]
fn tables(rt: HostRuntime) -> Result<(), Fail> {
    for (place, (records, row)) in TABLES.iter().enumerate() {
        assert!(rt; is_answered(rt.alloc(), records, row)?, "row {place}");
    }
    let thousand = thousand(rt.alloc())?;
    for (place, row) in OF_A_THOUSAND.iter().enumerate() {
        let is_well = is_answered(rt.alloc(), &thousand, row)?;
        assert!(rt; is_well, "row {place} of a thousand");
    }
    let odd = OMAPTable::parse(stream(rt.alloc(), b"twelve bytes")?);
    assert!(rt; matches!(odd, Err(Error::InvalidStreamLength("OMAP"))) && are_parts());
    Ok(())
}

/// The bytes of a section's header.
const HEADER: &[u8] =
    b".data\0\0\0\x48\x35\x09\x00\x00\xd0\x1e\x00\x00\xfe\x00\x00\x00\xa2\x1e\x00\x00\x00\x00\x00\x00\x00\x00\x00\x00\x00\x00\x00\x40\x00\x00\xc8";

/// What that header says.
const FIELDS: ImageSectionHeader = ImageSectionHeader {
    name: *b".data\0\0\0",
    virtual_size: 0x93548,
    virtual_address: 0x1e_d000,
    size_of_raw_data: 0xfe00,
    pointer_to_raw_data: 0x1e_a200,
    pointer_to_relocations: 0,
    pointer_to_line_numbers: 0,
    number_of_relocations: 0,
    number_of_line_numbers: 0,
    characteristics: WORD,
};

/// The word of characteristics at its end.
const WORD: SectionCharacteristics = SectionCharacteristics(0xc800_0040);

/// Whether the header at the start of bytes says this, and has 40 of them.
fn is_header(bytes: &[u8], want: &ImageSectionHeader) -> bool {
    let mut buffer = ParseBuffer::from(bytes);
    let read = ImageSectionHeader::parse(&mut buffer);
    matches!(read, Ok(header) if header == *want) && buffer.pos() == 40
}

/// Whether bytes end before their header does, and none of them is read then.
fn ends_soon(bytes: &[u8]) -> bool {
    let mut buffer = ParseBuffer::from(bytes);
    let read = ImageSectionHeader::parse(&mut buffer);
    matches!(read, Err(Error::UnexpectedEof)) && buffer.pos() == 0
}

/// Whether a word says data that is initialized, stays in memory, and can be read and written; and
/// neither code nor that it is kept out of caches.
fn is_data(flags: SectionCharacteristics) -> bool {
    flags.initialized_data()
        && (flags.not_paged() && flags.read() && flags.write())
        && !(flags.execute() || flags.not_cached() || flags.executable())
}

/// Whether bytes are read as this word, which is made of its bits again.
fn is_word(bytes: &[u8], want: SectionCharacteristics) -> bool {
    matches!(ParseBuffer::from(bytes).parse::<SectionCharacteristics>(), Ok(word) if word == want)
        && SectionCharacteristics::new(want.bits()) == want
}

/// A query of a section or its characteristics, and its answer.
enum SectionRow {
    /// A name as it is stored: as it reads.
    Name([u8; 8], &'static str),
    /// Characteristics: the alignment that they say.
    Alignment(u32, Option<u16>),
    /// The start of a section of 0x100 bytes, and an address: its section and its offset.
    Place(u32, u32, Option<(u16, u32)>),
    /// A section, where the one section lies at 0x10000000: the internal address of offset 0x1234.
    Address(u16, Option<u32>),
}

/// Questions, and what is answered.
const SECTIONS: &[SectionRow] = &[
    SectionRow::Name(*b".data\0\0\0", ".data"),
    SectionRow::Name(*b"\xff\0\0\0\0\0\0\0", ""),
    SectionRow::Name(*b"no nul..", "no nul.."),
    SectionRow::Alignment(0xc800_0040, None),
    SectionRow::Alignment(0x8, Some(1)),
    SectionRow::Alignment(0x10_0000, Some(1)),
    SectionRow::Alignment(0x70_0000, Some(64)),
    SectionRow::Alignment(0xe0_0000, Some(8192)),
    SectionRow::Alignment(0xf0_0000, None),
    SectionRow::Alignment(0x70_0008, None),
    SectionRow::Alignment(0, None),
    SectionRow::Place(0x1000, 0x10ff, Some((1, 0xff))),
    SectionRow::Place(0x1000, 0x1100, None),
    SectionRow::Place(0x1000, 0x0fff, None),
    SectionRow::Place(0xffff_fff0, 0xffff_ffff, Some((1, 0xf))),
    SectionRow::Address(1, Some(0x1000_1234)),
    SectionRow::Address(2, None),
    SectionRow::Address(0, None),
];

/// A map of one section, without OMAP tables.
fn map_of(alloc: Global, section: ImageSectionHeader) -> Result<AddressMap, Fail> {
    Ok(AddressMap::new(Vec::from_slice(alloc, &[section])?, None, None, None))
}

/// A section of a name.
fn named(name: [u8; 8]) -> ImageSectionHeader {
    ImageSectionHeader {
        name,
        ..ImageSectionHeader::default()
    }
}

/// A section at an address, with so many bytes in the file.
fn section(virtual_address: u32, size_of_raw_data: u32) -> ImageSectionHeader {
    ImageSectionHeader {
        virtual_address,
        size_of_raw_data,
        ..ImageSectionHeader::default()
    }
}

/// Whether a map has this place of an address.
fn is_place(map: &AddressMap, address: u32, want: Option<(u16, u32)>) -> bool {
    let place = Rva(address).to_section_offset(map);
    place == want.map(|(section, offset)| SectionOffset::new(section, offset))
}

/// Whether a map has this internal address of the offset 0x1234 in a section.
fn is_address(map: &AddressMap, section: u16, want: Option<u32>) -> bool {
    let place = PdbInternalSectionOffset::new(section, 0x1234);
    place.to_internal_rva(map) == want.map(PdbInternalRva::from)
}

/// Whether this is what is answered.
fn is_so(alloc: Global, row: &SectionRow) -> Result<bool, Fail> {
    Ok(match row {
        SectionRow::Name(name, want) => named(*name).name() == *want,
        SectionRow::Alignment(word, want) => SectionCharacteristics(*word).alignment() == *want,
        SectionRow::Place(start, address, want) => {
            is_place(&map_of(alloc, section(*start, 0x100))?, *address, *want)
        }
        SectionRow::Address(number, want) => {
            is_address(&map_of(alloc, section(0x1000_0000, 0))?, *number, *want)
        }
    })
}

#[test]
fn sections(rt: HostRuntime) -> Result<(), Fail> {
    assert!(rt; is_header(HEADER, &FIELDS) && ends_soon(&HEADER[..39]));
    assert!(rt; is_data(WORD) && is_word(&HEADER[36..], WORD));
    for (place, row) in SECTIONS.iter().enumerate() {
        assert!(rt; is_so(rt.alloc(), row)?, "row {place}");
    }
    Ok(())
}

/// Whether a map moves the range of a start and an end of internal addresses to this one alone, or
/// nowhere.
fn moves_out(map: &AddressMap, start: u32, end: u32, want: Option<Range<Rva>>) -> bool {
    let mut ranges: RvaRangeIter<'_> = map.rva_ranges(PdbInternalRva(start)..PdbInternalRva(end));
    ranges.next() == want && ranges.next().is_none()
}

/// Whether a map moves the range of a start and an end of addresses to this one alone, or nowhere.
fn moves_in(map: &AddressMap, start: u32, end: u32, want: Option<Range<PdbInternalRva>>) -> bool {
    let mut ranges: PdbInternalRvaRangeIter<'_> = map.internal_rva_ranges(Rva(start)..Rva(end));
    ranges.next() == want && ranges.next().is_none()
}

/// Whether a map keeps the address 5, of which it has no place, and the place of offset 7 in section 0.
fn keeps_places(map: &AddressMap) -> bool {
    let place = SectionOffset::new(0, 7);
    let internal = PdbInternalSectionOffset::new(0, 7);
    Rva(5).to_internal_rva(map) == Some(PdbInternalRva(5))
        && PdbInternalRva(5).to_rva(map) == Some(Rva(5))
        && Rva(5).to_section_offset(map).is_none()
        && place.to_internal_offset(map) == Some(internal)
        && internal.to_section_offset(map) == Some(place)
}

/// Whether a map keeps a range, and moves an empty one nowhere, internally or not.
fn keeps_ranges(map: &AddressMap) -> bool {
    moves_out(map, 0, 0x10, Some(Rva(0)..Rva(0x10)))
        && moves_out(map, 5, 5, None)
        && moves_in(map, 5, 5, None)
}

/// A map whose one section lay at 0x1000, and lies at 0x2000.
fn rearranged_map(alloc: Global) -> Result<AddressMap, Fail> {
    let before = Vec::from_slice(alloc, &[section(0x1000, 0x1000)])?;
    let after = Vec::from_slice(alloc, &[section(0x2000, 0x1000)])?;
    let to_internal = omap(alloc, &[(0x2000, 0x1000)])?;
    let from_internal = omap(alloc, &[(0x1000, 0x2000)])?;
    Ok(AddressMap::new(before, Some(after), Some(to_internal), Some(from_internal)))
}

const ADDRESS: Rva = Rva(0x2010);

const INTERNAL: PdbInternalRva = PdbInternalRva(0x1010);

/// Whether a map moves each way the addresses above and offset 0x10 of section 1, which is theirs,
/// and an address that lies before all sections nowhere.
fn moves_places(map: &AddressMap) -> bool {
    let place = SectionOffset::new(1, 0x10);
    let internal = PdbInternalSectionOffset::new(1, 0x10);
    internal.to_internal_rva(map) == Some(INTERNAL)
        && internal.to_rva(map) == Some(ADDRESS)
        && internal.to_section_offset(map) == Some(place)
        && place.to_rva(map) == Some(ADDRESS)
        && place.to_internal_rva(map) == Some(INTERNAL)
        && place.to_internal_offset(map) == Some(internal)
        && ADDRESS.to_internal_offset(map) == Some(internal)
        && Rva(0x1fff).to_internal_rva(map).is_none()
        && INTERNAL.to_section_offset(map) == Some(place)
        && INTERNAL.to_internal_offset(map) == Some(internal)
}

/// Whether a map moves a range of internal addresses, and its image back.
fn moves_ranges(map: &AddressMap) -> bool {
    moves_out(map, 0x1010, 0x1020, Some(Rva(0x2010)..Rva(0x2020)))
        && moves_in(
            map,
            0x2010,
            0x2020,
            Some(PdbInternalRva(0x1010)..PdbInternalRva(0x1020)),
        )
}

#[test]
fn maps(rt: HostRuntime) -> Result<(), Fail> {
    let empty = AddressMap::empty(rt.alloc());
    assert!(rt; keeps_places(&empty) && keeps_ranges(&empty));
    let rearranged = rearranged_map(rt.alloc())?;
    assert!(rt; moves_places(&rearranged) && moves_ranges(&rearranged));
    Ok(())
}
