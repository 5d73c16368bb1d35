//! Calls that allocate nothing. `fixtures` makes what they are called on, and `calls` makes it too
//! and calls them: so both allocate equally often.

ghost use Rattle.std.specs.Prelude.{◌≡◌};

use pdb_base::{
    Count, Error, FallibleIterator, IdIndex, ParseBuffer, RawString, Result, Stream, StreamIndex,
    TypeIndex, Variant,
};
use pdb_container::{
    AddressMap, FrameTable, Id, IdData, IdInformation, ImageSectionHeader, OMAPRecord, OMAPTable,
    PdbInternalRva, Rva, SectionOffset, StringRef, StringTable, Type, TypeData, TypeFinder,
    TypeInformation, TypeProperties, type_data_for_primitive,
};
use pdb_fixtures::roles::ORIGINAL;
use pdb_fixtures::{MOVES, STRINGS, pages_of, s1, stream_of, table_of, with_bytes};
use pdb_msf::{BigMSF, Msf, PageList, ReadView, SourceView, open_msf};
use std::alloc::Global;
use std::test::Fail;

/// Numbers of each width, and texts.
const BYTES: &[u8] =
    b"\x01\x02\x03\x04\x05\x06\x07\x08\x09\x0a\x0b\x0c\x0d\x0e\x0f\x10\x11\x12\x13\x14\x15\x16\x17\x18\x19\x1a\x1b\x1c\x1d\x1e\x1f\x20text\0\x04text\x05\0\x00\x80\x05";

/// Whether numbers are read one behind the other, and then signed ones and an index.
fn are_numbers_read(buffer: &mut ParseBuffer<'_>) -> bool {
    matches!(buffer.peek_u8(), Ok(1))
        && matches!(buffer.peek_u16(), Ok(0x0201))
        && matches!(buffer.parse_u8(), Ok(1))
        && matches!(buffer.parse_u16(), Ok(0x0302))
        && matches!(buffer.parse_u32(), Ok(0x0706_0504))
        && matches!(buffer.parse_u64(), Ok(0x0f0e_0d0c_0b0a_0908))
        && matches!(buffer.parse_i16(), Ok(0x1110))
        && matches!(buffer.parse_i32(), Ok(0x1514_1312))
        && matches!(buffer.parse(), Ok(TypeIndex(0x1918_1716)))
        && buffer.pos() == 25
}

/// Whether a text was read.
fn is_text(read: Result<RawString<'_>>) -> bool {
    matches!(read, Ok(text) if text.as_bytes() == b"text".as_slice())
}

/// Whether texts are read behind those, then numbers of variable width, and no more than there is.
fn are_texts_read(buffer: &mut ParseBuffer<'_>) -> bool {
    matches!(buffer.take(7), Ok(bytes) if bytes.len() == 7)
        && is_text(buffer.parse_cstring())
        && is_text(buffer.parse_u8_pascal_string())
        && matches!(buffer.parse_num(), Ok(5))
        && matches!(buffer.parse_variant(), Ok(Variant::U8(5)))
        && buffer.is_empty()
}

/// Whether a buffer's position moves to a given one, and a read at the end fails, and one of an
/// unknown prefix.
fn is_moved(buffer: &mut ParseBuffer<'_>) -> bool {
    let unknown = ParseBuffer::from(b"\x05\x80".as_slice()).parse_num();
    buffer.seek(5);
    buffer.align(4).is_ok()
        && buffer.pos() == 8
        && buffer.truncate(10).is_ok()
        && buffer.len() == 2
        && matches!(buffer.parse_u32(), Err(Error::UnexpectedEof))
        && matches!(unknown, Err(Error::UnexpectedNumericPrefix(0x8005)))
}

/// Whether a buffer yields the expected values.
fn is_buffer_read(bytes: &[u8]) -> bool {
    let mut buffer = ParseBuffer::from(bytes);
    are_numbers_read(&mut buffer)
        && are_texts_read(&mut buffer)
        && is_moved(&mut buffer)
        && StreamIndex(7).msf_number() == Some(7)
}

/// Whether a stream's bytes have the expected values, and are all in a view.
fn is_stream_read(stream: Stream) -> bool {
    let read = is_buffer_read(stream.as_slice()) && stream.parse_buffer().len() == BYTES.len();
    let view = ReadView::new(stream.into_bytes());
    read && view.as_slice().len() == BYTES.len()
}

/// Whether a list of pages is truncated as expected.
fn is_list_cut(mut list: PageList) -> bool {
    let whole = list.len() == 24576 && list.source_slices().len() == 4;
    list.truncate(10000);
    whole && list.is_truncated() && list.len() == 10000 && list.source_slices().len() == 2
}

/// The position of the size of S1's directory.
const DIRECTORY_SIZE: usize = 44;

/// Reads a stream of a file, which locates its directory.
///
/// # Errors
/// `OutOfMemory` if an allocation fails.
fn locate(alloc: Global, file: &mut BigMSF<Vec<u8>>) -> Result<()> {
    match file.get(alloc, 9, None) {
        Err(Error::OutOfMemory) => Err(Error::OutOfMemory),
        _ => Ok(()),
    }
}

/// S1 with a directory of so many bytes.
fn open_s1(alloc: Global, size: u8) -> Result<BigMSF<Vec<u8>>> {
    open_msf(alloc, with_bytes(s1(alloc)?, &[(DIRECTORY_SIZE, size)]))
}

/// Whether a stream has an error: the directory ends too soon for it if `is_ended`, and otherwise
/// it is absent.
fn is_refused(answer: Result<Stream>, is_ended: bool) -> bool {
    match &answer {
        Err(Error::UnexpectedEof) => is_ended,
        Err(Error::StreamNotFound(_)) => !is_ended,
        _ => false,
    }
}

/// Whether a located file has the expected size, and the expected error for each of these streams.
fn is_file(alloc: Global, file: &mut BigMSF<Vec<u8>>, size: u8, refused: &[(u32, bool)]) -> bool {
    let told = file.located() && file.asked() >= u64::from(size) && file.source().len() == 4096;
    for (number, is_ended) in refused {
        if !is_refused(file.get(alloc, *number, None), *is_ended) {
            return false;
        }
    }
    told
}

/// Locates a file's directory, once more if an allocation fails, and returns whether the file is as
/// expected. Without `calls`, nothing else is called.
fn is_located(
    alloc: Global,
    file: &mut BigMSF<Vec<u8>>,
    size: u8,
    refused: &[(u32, bool)],
    calls: bool,
) -> Result<bool> {
    settled!(locate(alloc, file))?;
    Ok(!calls || is_file(alloc, file, size, refused))
}

/// Three types: a pointer, a list of arguments with a false count, and a structure.
const TYPES: &[&[u8]] = &[
    b"\x02\x10\x74\0\0\0\x0c\0\x01\0",
    b"\x01\x12\xff\xff\xff\xff\x74\0\0\0",
    b"\x09\x16\0\x02\0\0\x16\x10\0\0\0\0\0\0\0\0\0\0\x02\0\x06\0H_size\0.?AUH_size@@\0",
];

/// Two ids: a text, and what a module was built with, with a false count.
const IDS: &[&[u8]] = &[b"\x05\x16\0\0\0\0a\0", b"\x03\x16\x03\0\x01\x10\0\0"];

/// Whether a type is the expected one: at 0x1000 the pointer, at 0x74 a primitive type, and at
/// 0x1002 the structure.
fn is_so(data: &TypeData<'_>, index: u32) -> bool {
    match data {
        TypeData::Pointer(_) => index == 0x1000,
        TypeData::Primitive(_) => index == 0x74,
        _ => index == 0x1002 && data.name() == Some(RawString::from("H_size")),
    }
}

/// Whether parsing a type has the expected result: the list at 0x1001 ends too soon.
fn is_read_so(read: Result<TypeData<'_>>, index: u32) -> bool {
    match &read {
        Ok(data) => is_so(data, index),
        Err(Error::UnexpectedEof) => index == 0x1001,
        Err(_) => false,
    }
}

/// Whether a type's index, length and kind are the expected ones.
fn is_told(item: &Type<'_>, index: u32) -> bool {
    item.index() == TypeIndex(index)
        && !item.is_empty()
        && (index != 0x1001 || item.len() == 10)
        && (index != 0x1002 || item.raw_kind() == 0x1609)
}

/// Whether a type without a list, or with a false count, has the expected index and the expected
/// result of parsing.
fn is_type_read(alloc: Global, step: Result<Option<Type<'_>>>, index: u32) -> bool {
    match &step {
        Ok(Some(item)) => is_told(item, index) && is_read_so(item.parse(alloc), index),
        _ => false,
    }
}

/// Whether types without a list, and one with a false count, have the expected results; and whether
/// a primitive type and a flag have them.
fn are_types_read(alloc: Global, table: &TypeInformation) -> bool {
    let mut walk = table.iter();
    for index in 0x1000..0x1003u32 {
        if !is_type_read(alloc, walk.next(), index) {
            return false;
        }
    }
    is_read_so(type_data_for_primitive(TypeIndex(0x74)), 0x74)
        && TypeProperties::new(0x2000).intrinsic_type()
}

/// Whether a type was found, or else is not there.
fn is_known(found: Result<Type<'_>>, is_there: bool) -> bool {
    match &found {
        Ok(_) => is_there,
        Err(Error::TypeNotFound(0x1003)) => !is_there,
        Err(_) => false,
    }
}

/// Whether a finder that was fed the table finds the expected types.
fn is_finding(finder: &TypeFinder<'_>) -> bool {
    let mut count = Count::new();
    is_known(finder.find_counted(TypeIndex(0x1002), &mut count), true)
        && count.get() == 3
        && is_known(finder.find(TypeIndex(0x1003)), false)
        && finder.max_index() == TypeIndex(0x1002)
}

/// Whether a finder that is fed the table finds the expected types.
fn is_found<'t>(table: &'t TypeInformation, finder: &mut TypeFinder<'t>) -> bool
    requires { finder.old.table ≡ table.now }
{
    let mut walk = table.iter();
    let stepped = walk.next().is_ok();
    finder.update(&walk);
    finder.update_all(&[walk]);
    stepped && is_finding(finder)
}

/// Whether a table has the expected length and header.
fn is_header_told(table: &TypeInformation) -> bool {
    table.len() == 3 && !table.is_empty() && table.header().header_size == 56
}

/// Whether a table of types has the expected results. Without `calls`, only its finder is made.
fn are_types(alloc: Global, table: &TypeInformation, calls: bool) -> Result<bool> {
    let mut finder = settled!(table.finder(alloc))?;
    Ok(
        !calls
            || (is_header_told(table)
                && is_found(table, &mut finder)
                && are_types_read(alloc, table)),
    )
}

/// Whether parsing an id without a list, or with a false count, has the expected result.
fn is_id(alloc: Global, step: Result<Option<Id<'_>>>, index: u32, is_whole: bool) -> bool {
    let Ok(Some(item)) = step else {
        return false;
    };
    item.index() == IdIndex(index)
        && match &item.parse(alloc) {
            Ok(_) => is_whole,
            Err(error) => !is_whole && matches!(error, Error::UnexpectedEof),
        }
}

/// Whether parsing an id without a list, and one with a false count, has the expected results.
fn are_ids_read(alloc: Global, table: &IdInformation) -> bool {
    let mut walk = table.iter();
    is_id(alloc, walk.next(), 0x1000, true) && is_id(alloc, walk.next(), 0x1001, false)
}

/// Two new frames, at 0x10 and 0x30.
const FRAMES: &[u8] =
    b"\x10\0\0\0\x08\0\0\0\0\0\0\0\0\0\0\0\0\0\0\0\0\0\0\0\0\0\0\0\0\0\0\0\x30\0\0\0\x08\0\0\0\0\0\0\0\0\0\0\0\0\0\0\0\0\0\0\0\0\0\0\0\0\0\0\0";

/// Whether a name of this length was read, or the table ends too soon for any.
fn is_name(name: Result<RawString<'_>>, wanted: Option<usize>) -> bool {
    match &name {
        Ok(name) => wanted == Some(name.len()),
        Err(Error::UnexpectedEof) => wanted.is_none(),
        Err(_) => false,
    }
}

/// Whether names are found as expected.
fn is_named(names: &StringTable) -> bool {
    is_name(names.get(StringRef(1)), Some(3)) && is_name(StringRef(5).to_raw_string(names), None)
}

/// Whether addresses are moved as expected.
fn is_moved_so(omap: &OMAPTable) -> bool {
    let mut count = Count::new();
    let looked = omap.lookup_counted(0x1008, &mut count) == omap.lookup(0x1008);
    let moved = omap.lookup_range(0..0x1010).next() == Some(0x15d44..0x15d4c);
    looked && moved && omap.is_sorted() && omap.records().next() == Some(OMAPRecord::new(0x1000, 0))
}

/// Whether places are found as expected.
fn is_placed(map: &AddressMap) -> bool {
    let place = Rva(0x1005).to_section_offset(map);
    place == Some(SectionOffset::new(1, 5))
        && PdbInternalRva(0x1005).to_rva(map) == Some(Rva(0x1005))
        && map
            .rva_ranges(PdbInternalRva(0)..PdbInternalRva(0x10))
            .next()
            .is_some()
        && map.internal_rva_ranges(Rva(5)..Rva(5)).next().is_none()
}

/// Whether an iterator over all frames yields one, and one from behind the last frame yields none.
fn are_frames(frames: &FrameTable) -> bool {
    let mut all = frames.iter();
    let mut behind = frames.iter_at_rva(PdbInternalRva(0x40));
    matches!(all.next(), Ok(Some(_))) && !matches!(behind.next(), Ok(Some(_))) && !frames.is_empty()
}

/// Whether a section has the expected name, and places in it are found as expected.
fn are_sections(sections: Vec<ImageSectionHeader>) -> bool {
    let is_section = matches!(sections.as_slice(), [section] if section.name() == ".text");
    is_section && is_placed(&AddressMap::new(sections, None, None, None))
}

/// What a stream is read as.
enum Kind {
    Bytes,
    Types,
    Ids,
    Names,
    Moved,
    Frames,
}

/// What is made, and what is called on it with `calls`.
enum Fixture {
    /// S1 with a directory of so many bytes, located; and streams that have an error, with whether
    /// the directory ends too soon for them: it has no count of streams, too few sizes, or too few
    /// page numbers. Others are absent.
    Directory(u8, &'static [(u32, bool)]),
    /// A list of these pages.
    Pages(&'static [u32]),
    /// One section.
    Section(&'static [u8]),
    /// A stream of these bytes.
    Stream(&'static [u8], Kind),
    /// A stream that is the table of these records.
    Table(&'static [&'static [u8]], Kind),
}

/// The fixtures, each with a name.
const FIXTURES: &[(&str, Fixture)] = rows! {
    "no directory", Fixture::Directory(0, &[(0, true)]);
    "within a size", Fixture::Directory(19, &[(3, true), (0, true)]);
    "within page numbers", Fixture::Directory(24, &[(3, true)]);
    "a directory", Fixture::Directory(32, &[(2, false), (4, false)]);
    "pages", Fixture::Pages(&[0, 1, 4, 5, 2, 2]);
    "a section", Fixture::Section(ORIGINAL);
    "bytes", Fixture::Stream(BYTES, Kind::Bytes);
    "types", Fixture::Table(TYPES, Kind::Types);
    "ids", Fixture::Table(IDS, Kind::Ids);
    "names", Fixture::Stream(STRINGS, Kind::Names);
    "moved addresses", Fixture::Stream(MOVES, Kind::Moved);
    "frames", Fixture::Stream(FRAMES, Kind::Frames);
};

/// Whether types have the expected results. Without `calls`, nothing is called on them.
fn are_typed(alloc: Global, types: Result<TypeInformation>, calls: bool) -> Result<bool> {
    match &types {
        Ok(types) => are_types(alloc, types, calls),
        Err(_) => Ok(false),
    }
}

/// Whether a stream is read as something that has the expected results.
macro_rules! reads {
    ($read:expr, $value:ident => $is:expr) => {
        match &$read {
            Ok($value) => $is,
            Err(_) => false,
        }
    };
}

/// Whether a stream has the expected results. Without `calls`, nothing is called on it.
fn is_stream(alloc: Global, stream: Stream, kind: &Kind, calls: bool) -> Result<bool> {
    match kind {
        Kind::Bytes => Ok(!calls || is_stream_read(stream)),
        Kind::Types => are_typed(alloc, TypeInformation::parse(stream), calls),
        Kind::Ids => Ok(
            reads!(IdInformation::parse(stream), ids => !calls || are_ids_read(alloc, ids)),
        ),
        Kind::Names => Ok(reads!(StringTable::parse(stream), names => !calls || is_named(names))),
        Kind::Moved => Ok(reads!(OMAPTable::parse(stream), omap => !calls || is_moved_so(omap))),
        Kind::Frames => {
            let frames = FrameTable::parse(None, Some(stream));
            Ok(reads!(frames, frames => !calls || are_frames(frames)))
        }
    }
}

/// Whether a fixture can be made and has the expected results. There is a function for each kind of
/// fixture, since the proof of a single one takes long.
fn has_directory(alloc: Global, size: u8, refused: &[(u32, bool)], calls: bool) -> Result<bool> {
    is_located(alloc, &mut open_s1(alloc, size)?, size, refused, calls)
}

fn has_pages(alloc: Global, pages: &[u32], calls: bool) -> Result<bool> {
    let list = pages_of(alloc, pages)?;
    Ok(!calls || is_list_cut(list))
}

fn has_section(alloc: Global, bytes: &[u8], calls: bool) -> Result<bool> {
    let section = ImageSectionHeader::parse(&mut ParseBuffer::from(bytes))?;
    let sections = Vec::from_slice(alloc, &[section])?;
    Ok(!calls || are_sections(sections))
}

fn has_stream(alloc: Global, bytes: Vec<u8>, kind: &Kind, calls: bool) -> Result<bool> {
    is_stream(alloc, stream_of(bytes)?, kind, calls)
}

/// Whether a fixture can be made and has the expected results. Without `calls`, nothing is called
/// on it.
fn has(alloc: Global, fixture: &Fixture, calls: bool) -> Result<bool> {
    match fixture {
        Fixture::Directory(size, refused) => has_directory(alloc, *size, refused, calls),
        Fixture::Pages(pages) => has_pages(alloc, pages, calls),
        Fixture::Section(bytes) => has_section(alloc, bytes, calls),
        Fixture::Stream(bytes, kind) => {
            has_stream(alloc, Vec::from_slice(alloc, bytes)?, kind, calls)
        }
        Fixture::Table(records, kind) => has_stream(alloc, table_of(alloc, records)?, kind, calls),
    }
}

/// Whether a fixture has the expected results. It is made again if an allocation fails.
fn is_settled(alloc: Global, fixture: &Fixture, calls: bool) -> Result<bool> {
    settled!(has(alloc, fixture, calls))
}

#[test]
fn nothing(rt: HostRuntime) {
    let _ = rt.alloc();
}

#[test]
fn fixtures(rt: HostRuntime) -> std::result::Result<(), Fail> {
    for (name, fixture) in FIXTURES {
        assert!(rt; is_settled(rt.alloc(), fixture, false)?, "{name}");
    }
    Ok(())
}

#[test]
fn calls(rt: HostRuntime) -> std::result::Result<(), Fail> {
    for (name, fixture) in FIXTURES {
        assert!(rt; is_settled(rt.alloc(), fixture, true)?, "{name}");
    }
    Ok(())
}
