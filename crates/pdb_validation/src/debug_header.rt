//! The header of stream 3.

ghost use Rattle.std.specs.Prelude.{◌≡◌, Ok};
ghost use Rattle.pdb_base.specs.Answer.{Answers};
ghost use Rattle.pdb_validation.specs.DebugHeader.{debug_fields, debug_header_mismatches, parts_size};
ghost use Rattle.pdb_validation.specs.HeaderFields.{debug_versions, is_one_of, known_machines};
ghost use Rattle.pdb_validation.specs.Mismatch.{asked_of};

use crate::header_fields::{FieldCheck, check_fields};
use crate::inconsistency::Inconsistency;
use crate::mismatch::{Extent, Mismatch};
use crate::roles::DEBUG_STREAM;
use pdb_base::{Result, Stream};
use pdb_file::DBIHeader;
use std::alloc::Global;

/// The size of the header in bytes.
const HEADER_SIZE: u64 = 64;

/// The versions of the format.
const VERSIONS: [u32; 5] = [930803, 19960307, 19970606, 19990903, 20091201];

/// The machines that have a number.
const MACHINES: [u16; 39] = [
    0, 0x13, 0x14c, 0x162, 0x166, 0x168, 0x169, 0x184, 0x1a2, 0x1a3, 0x1a4, 0x1a6, 0x1a8, 0x1c0,
    0x1c2, 0x1c4, 0x1d3, 0x1f0, 0x1f1, 0x200, 0x266, 0x284, 0x366, 0x466, 0x520, 0xcef, 0xebc,
    0x3a64, 0x5032, 0x5064, 0x5128, 0x6232, 0x6264, 0x8664, 0x9041, 0xa641, 0xa64e, 0xaa64, 0xc0ee,
];

/// Returns whether a version of the format is known.
fn is_version(version: u32) -> bool
    ensures { result ≡ is_one_of debug_versions version }
{
    VERSIONS.contains(&version)
}

/// Returns whether a machine has this number.
fn is_machine(number: u16) -> bool
    ensures { result ≡ is_one_of known_machines number }
{
    MACHINES.contains(&number)
}

/// Returns how many bytes the header and the parts behind it have, as the header says it.
fn parts_size(header: &DBIHeader) -> u64
    ensures { result ≡ parts_size header.now }
{
    HEADER_SIZE
        + header.module_list_size as u64
        + header.section_contribution_size as u64
        + header.section_map_size as u64
        + header.file_info_size as u64
        + header.type_server_map_size as u64
        + header.ec_substream_size as u64
        + header.debug_header_size as u64
}

/// Returns the fields that are checked of the header of a stream of a size.
fn debug_fields(size: u64, header: &DBIHeader) -> [FieldCheck; 3]
    ensures { result ≡ debug_fields size (Ok header.now) }
{
    [
        FieldCheck {
            is_wrong: parts_size(header) != size,
            byte: None,
            what: Inconsistency::DebugSizes,
        },
        FieldCheck {
            is_wrong: !is_version(header.version),
            byte: Some(4),
            what: Inconsistency::UnknownVersion(header.version),
        },
        FieldCheck {
            is_wrong: !is_machine(header.machine_type),
            byte: Some(58),
            what: Inconsistency::UnknownMachine(header.machine_type),
        },
    ]
}

/// Returns what is inconsistent in the header of stream 3 (`NewDBIHdr` in Microsoft's dbi.h): that
/// the header and the parts whose sizes it says do not have as many bytes together as the stream,
/// and a version or a machine that is not known. An empty stream 3 has no header, and of one that
/// can't be read nothing is said. All are returned, or one, as `extent` says.
///
/// # Errors
/// Fails with `OutOfMemory` if an allocation fails.
#[tactic(auto, unfolding(crate::specs::DebugHeader::debug_header_mismatches))]
pub fn check_debug_header(alloc: Global, stream: &Stream, extent: Extent) -> Result<Vec<Mismatch>>
    ensures { Answers (λ mismatches. mismatches.items) result
        (Ok (asked_of extent (debug_header_mismatches stream.now))) }
{
    match DBIHeader::parse(stream) {
        Ok(header) => {
            let fields = debug_fields(stream.as_slice().len() as u64, &header);
            check_fields(alloc, Some(DEBUG_STREAM), &fields, extent)
        }
        Err(_) => check_fields(alloc, Some(DEBUG_STREAM), &[], extent),
    }
}
