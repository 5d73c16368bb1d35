//! Each use, over one file of eleven streams, of which one is absent.

use pdb_container::{
    AddressMap, FrameData, FrameType, Msf, PdbInternalRva, PdbInternalSectionOffset, Result, Rva,
    Stream, StringRef, TypeData, TypeFinder, TypeIndex, TypeInformation, open_msf,
};
use pdb_examples::{
    class_fields, finder_of, frames_at, map_of, name_at, stream_and_views, stream_sizes,
    there_and_back, types_named,
};
use pdb_fixtures::roles::{Frames, NONE, file_with};
use std::alloc::Global;
use std::test::Fail;

/// The types of stream 2: 0x1000, a list of the field `x`, a 4-byte integer, and 0x1001, the struct
/// `S` of that field.
const TYPES: &[&[u8]] = &[
    b"\x03\x12\x0d\x15\x03\0\x74\0\0\0\0\0x\0",
    b"\x05\x15\x01\0\0\0\0\x10\0\0\0\0\0\0\0\0\0\0\x04\0S\0",
];

/// The roles of streams 10, 7, 8, 6 and 5: frames of the older format, OMAP to source and from
/// source, section headers and the original ones.
const ROLES: [u16; 11] = [10, NONE, NONE, 7, 8, 6, NONE, NONE, NONE, NONE, 5];

/// The file that the uses are tried on, of whose streams the tenth is absent.
pub(super) fn build_file(alloc: Global) -> Result<Vec<u8>> {
    file_with(alloc, &ROLES, TYPES, Frames::OldAlone)
}

/// The streams, and the bytes of each.
const SIZES: &[(u32, usize)] = rows! {
    0, 0; 1, 74; 2, 96; 3, 86; 4, 17; 5, 40; 6, 40; 7, 8; 8, 8; 10, 16;
};

/// Whether a type is the member `x`, a 4-byte integer.
fn is_x(value: &TypeData<'_>) -> bool {
    match value {
        TypeData::Member(member) => {
            member.name.as_bytes() == b"x".as_slice() && member.field_type == TypeIndex(0x74)
        }
        _ => false,
    }
}

/// Whether the member `x` is the one field of the class that a finder knows.
fn has_x(alloc: Global, finder: &TypeFinder<'_>) -> bool {
    let fields = class_fields(alloc, finder, TypeIndex(0x1001));
    matches!(&fields, Ok(fields) if matches!(fields.as_slice(), [field] if is_x(field)))
}

/// Whether the member `x` is the one field of the class in these types.
fn is_class_of_x(alloc: Global, types: Result<TypeInformation>) -> bool {
    let Ok(types) = &types else {
        return false;
    };
    match &finder_of(alloc, types) {
        Ok(finder) => has_x(alloc, finder),
        Err(_) => false,
    }
}

/// The types of the file.
fn types_in(alloc: Global, file: Vec<u8>) -> Result<TypeInformation> {
    let mut file = open_msf(alloc, file)?;
    TypeInformation::parse(file.get(alloc, 2, None)?)
}

/// Whether an address is moved there and back.
fn is_moved(map: Result<AddressMap>) -> bool {
    let place = PdbInternalSectionOffset::new(1, 0x10);
    match &map {
        Ok(map) => there_and_back(map, Rva(0x5010)) == Some((place, Some(Rva(0x5010)))),
        Err(_) => false,
    }
}

/// Whether a frame of the older format is of the code from 0x10 on.
fn is_fpo(frame: &FrameData) -> bool {
    frame.code_start == PdbInternalRva(0x10) && frame.ty == FrameType::FPO
}

/// Whether that frame alone was found.
fn is_frame(found: Result<Vec<FrameData>>) -> bool {
    match &found {
        Ok(found) => matches!(found.as_slice(), [frame] if is_fpo(frame)),
        Err(_) => false,
    }
}

/// Whether the stream of OMAP to source was read by four views.
fn is_viewed(given: Result<(Stream, u64)>) -> bool {
    match &given {
        Ok((stream, views)) => {
            stream.as_slice() == b"\0P\0\0\0\x10\0\0".as_slice() && *views == 4
        }
        Err(_) => false,
    }
}

/// A use of the file.
#[derive(Clone, Copy, Debug)]
enum Use {
    Streams,
    Types,
    Fields,
    Addresses,
    Frames,
    Names,
    Sources,
}

use Use::{Addresses, Fields, Names, Sources, Streams, Types};

/// Whether a use of the file answers as it should.
fn is_answered(alloc: Global, asked: Use, file: Vec<u8>) -> bool {
    match asked {
        Streams => { matches!(stream_sizes(alloc, file), Ok(sizes) if sizes.as_slice() == SIZES) }
        Types => {
            let found = types_named(alloc, file, b"S");
            matches!(found, Ok(found) if found.as_slice() == [TypeIndex(0x1001)].as_slice())
        }
        Fields => is_class_of_x(alloc, types_in(alloc, file)),
        Addresses => is_moved(map_of(alloc, file)),
        Use::Frames => is_frame(frames_at(alloc, file, PdbInternalRva(0x13))),
        Names => {
            let name = name_at(alloc, file, StringRef(1));
            matches!(name, Ok(name) if name.as_slice() == b"foo".as_slice())
        }
        Sources => is_viewed(stream_and_views(alloc, file, 7)),
    }
}

#[test]
fn uses(rt: HostRuntime) -> std::result::Result<(), Fail> {
    for asked in [
        Streams,
        Types,
        Fields,
        Addresses,
        Use::Frames,
        Names,
        Sources,
    ] {
        let file = build_file(rt.alloc())?;
        assert!(rt; is_answered(rt.alloc(), asked, file), "{asked:?}");
    }
    Ok(())
}
