//! What a file says by the roles and the names of its streams.

use pdb_base::{Error, FallibleIterator, Result as Answer};
use pdb_file::PDB;
use pdb_fixtures::is_error;
use pdb_fixtures::roles::{Frames, NAMES, NONE, file_with};
use pdb_frames::FrameDataIter;
use pdb_space::{AddressMap, PdbInternalRva, Rva, StringRef};
use std::alloc::Global;
use std::test::Fail;

/// The streams of some roles. The others have none.
#[derive(Drop)]
pub(crate) enum Roles {
    /// Of an address map: the section headers, the original ones, OMAP to source and OMAP from
    /// source.
    Map([u16; 4]),
    /// Of a frame table: the FPO stream and the frame data.
    Frames([u16; 2]),
}

/// What an address map answers: where the original address 0x1010 goes; where the address 0x5010 of
/// the image as it is loaded came from; and whether the original address 0x1010 is in a section, and
/// whether the addresses 0x1010 and 0x5010 of the image as it is loaded are.
type Translation = (u32, u32, (bool, bool, bool));

const NOT_STORED_2: Error = Error::StreamNotFound(2);

const NOT_STORED_99: Error = Error::StreamNotFound(99);

const BAD_OMAP: Error = Error::InvalidStreamLength("OMAP");

/// Streams of the roles of an address map, and that the file has one, what it answers, or the error.
const MAPS: &[(&str, [u16; 4], Result<Option<Translation>, Error>)] = rows! {
    "a map without a role", [NONE, NONE, NONE, NONE], Ok(None);
    "sections, and OMAP tables that are not asked for", [6, NONE, 99, 99], Ok(None);
    "sections, and original ones", [6, 5, NONE, NONE], Ok(None);
    "empty streams", [0, 0, 0, 0], Ok(None);
    "absent sections", [2, 99, 0, 0], Err(NOT_STORED_2);
    "no such sections", [99, 2, 0, 0], Err(NOT_STORED_99);
    "no sections 65534", [65534, 5, 0, 0], Err(Error::StreamNotFound(65534));
    "cut sections", [9, 99, 0, 0], Err(Error::UnexpectedEof);
    "no such original ones", [6, 99, 2, 2], Err(NOT_STORED_99);
    "cut original ones", [6, 10, 2, 2], Err(Error::UnexpectedEof);
    "absent OMAP to source", [6, 5, 2, 99], Err(NOT_STORED_2);
    "bad OMAP to source", [6, 5, 4, 99], Err(BAD_OMAP);
    "no such OMAP from source", [6, 5, 7, 99], Err(NOT_STORED_99);
    "bad OMAP from source", [6, 5, 7, 4], Err(BAD_OMAP);
    "all but sections", [NONE, 5, 7, 8], Ok(None);
    "addresses with original sections", [6, 5, 7, 8], Ok(Some((0x5010, 0x1010, (true, false, true))));
    "addresses without original sections", [6, NONE, 7, 8], Ok(Some((0x1010, 0x5010, (false, false, true))));
    "addresses without a role", [NONE, NONE, NONE, NONE], Ok(Some((0x1010, 0x5010, (false, false, false))));
};

/// Streams of the roles of a frame table, and where the first two frames of the file start, or the
/// error.
const FRAMES: &[(&str, [u16; 2], Result<(Option<u32>, Option<u32>), Error>)] = rows! {
    "no frames", [NONE, NONE], Ok((None, None));
    "old frames", [9, NONE], Ok((Some(0x10), None));
    "new frames", [NONE, 10], Ok((Some(0x20), None));
    "both", [9, 10], Ok((Some(0x10), Some(0x20)));
    "empty old frames", [0, 10], Ok((Some(0x20), None));
    "bad old frames", [4, 9], Err(Error::InvalidStreamLength("FPO"));
    "bad new frames", [9, 9], Err(Error::InvalidStreamLength("FrameData"));
    "absent old frames", [2, 99], Err(NOT_STORED_2);
    "no such new frames", [4, 99], Err(NOT_STORED_99);
};

/// The streams of all roles in the order of the debug header.
fn numbers(roles: &Roles) -> [u16; 11] {
    match roles {
        Roles::Map([sections, original, to, from]) => [
            NONE, NONE, NONE, *to, *from, *sections, NONE, NONE, NONE, NONE, *original,
        ],
        Roles::Frames([old, new]) => [
            *old, NONE, NONE, NONE, NONE, NONE, NONE, NONE, NONE, *new, NONE,
        ],
    }
}

/// The bytes of a file of eleven streams with these roles, of which stream 2 is absent.
pub(crate) fn bytes_of(alloc: Global, roles: &Roles) -> Answer<Vec<u8>> {
    file_with(alloc, &numbers(roles), &[], Frames::Both)
}

/// A file with these roles.
fn file(alloc: Global, roles: &Roles) -> Result<PDB<Vec<u8>>, Fail> {
    Ok(PDB::open(alloc, bytes_of(alloc, roles)?)?)
}

/// Whether the addresses lie so.
fn lie(map: &AddressMap, want: (bool, bool, bool)) -> bool {
    PdbInternalRva(0x1010).to_internal_offset(map).is_some() == want.0
        && Rva(0x1010).to_section_offset(map).is_some() == want.1
        && Rva(0x5010).to_section_offset(map).is_some() == want.2
}

/// Whether an address map answers so.
fn translates(map: &AddressMap, (there, back, want): &Translation) -> bool {
    PdbInternalRva(0x1010).to_rva(map) == Some(Rva(*there))
        && Rva(0x5010).to_internal_rva(map) == Some(PdbInternalRva(*back))
        && lie(map, *want)
}

/// Whether a file with these roles has an address map that answers so, or this error.
fn is_mapped(
    alloc: Global,
    roles: [u16; 4],
    want: &Result<Option<Translation>, Error>,
) -> Result<bool, Fail> {
    let mut file = file(alloc, &Roles::Map(roles))?;
    Ok(match (file.address_map(alloc), want) {
        (Ok(map), Ok(Some(want))) => translates(&map, want),
        (Ok(_), Ok(None)) => true,
        (Err(error), Err(want)) => is_error(&error, want),
        _ => false,
    })
}

/// Whether the next frame starts there, or there is none.
fn steps_to(frames: &mut FrameDataIter<'_>, want: Option<u32>) -> bool {
    matches!(frames.next(), Ok(frame) if frame.map(|frame| frame.code_start.0) == want)
}

/// Whether the first two frames start there.
fn start(mut frames: FrameDataIter<'_>, (first, second): (Option<u32>, Option<u32>)) -> bool {
    steps_to(&mut frames, first) && steps_to(&mut frames, second)
}

/// Whether a file with these roles has a frame table whose first two frames start there, or this
/// error.
fn is_framed(
    alloc: Global,
    roles: [u16; 2],
    want: &Result<(Option<u32>, Option<u32>), Error>,
) -> Result<bool, Fail> {
    let mut file = file(alloc, &Roles::Frames(roles))?;
    Ok(match (file.frame_table(alloc), want) {
        (Ok(table), Ok(starts)) => start(table.iter(), *starts),
        (Err(error), Err(want)) => is_error(&error, want),
        _ => false,
    })
}

/// Whether a file has no stream of the names `/a` and `/b`, and then still one of the name `/names`.
fn has_names(alloc: Global, file: &mut PDB<Vec<u8>>) -> bool {
    matches!(
        file.named_stream(alloc, b"/a"),
        Err(Error::StreamNotFound(2))
    ) && matches!(
        file.named_stream(alloc, b"/b"),
        Err(Error::StreamNameNotFound)
    ) && matches!(file.named_stream(alloc, b"/names"), Ok(stream) if stream.as_slice() == NAMES)
}

/// Whether the first name of a file is `foo`.
fn has_foo(alloc: Global, file: &mut PDB<Vec<u8>>) -> Answer<bool> {
    let table = file.string_table(alloc)?;
    Ok(matches!(table.get(StringRef(1)), Ok(name) if name.as_bytes() == b"foo".as_slice()))
}

/// Whether a file has the age 1, and no stream of old frames.
fn has_age_alone(alloc: Global, file: &mut PDB<Vec<u8>>) -> Answer<bool> {
    let age = file.pdb_information(alloc)?.age;
    let fpo = file.extra_streams(alloc)?.fpo;
    Ok(age == 1 && fpo.is_none())
}

#[test]
fn address_maps(rt: HostRuntime) -> Result<(), Fail> {
    for (name, roles, want) in MAPS {
        assert!(rt; is_mapped(rt.alloc(), *roles, want)?, "{name}");
    }
    Ok(())
}

#[test]
fn frame_tables(rt: HostRuntime) -> Result<(), Fail> {
    for (name, roles, want) in FRAMES {
        assert!(rt; is_framed(rt.alloc(), *roles, want)?, "{name}");
    }
    Ok(())
}

#[test]
fn names_and_parts(rt: HostRuntime) -> Result<(), Fail> {
    let mut file = file(rt.alloc(), &Roles::Frames([NONE, NONE]))?;
    assert!(rt; has_names(rt.alloc(), &mut file));
    assert!(rt; has_foo(rt.alloc(), &mut file)?);
    assert!(rt; has_age_alone(rt.alloc(), &mut file)?);
    Ok(())
}
