//! What is found wrong in a file.

ghost use Rattle.std.specs.Prelude.{◌≡◌, map, Ok};
ghost use Rattle.pdb_base.specs.Answer.{Answers};
ghost use Rattle.pdb_validation.specs.Finding.{finding_view};
ghost use Rattle.pdb_handles.specs.Findings.{extent_of, finding_of, findings_said, inconsistency_numbers, part_number};

use crate::fault::{FINE, Fault};
use crate::frames::flag;
use pdb_base::Result;
use pdb_validation::{Extent, Finding, Inconsistency, Part, Problem, validate};
use std::alloc::Global;

/// What is found wrong in a part of a file, and where.
#[repr(C)]
#[derive(Clone, Copy)]
pub struct FoundFault {
    /// The index of the record at which the fault is, or 0.
    pub index: u64,
    /// The byte of the stream at which the fault is, or 0.
    pub byte: u64,
    /// The byte of the file that is this byte of the stream, or 0.
    pub file_byte: u64,
    /// The part, numbered as in `pdb_part`.
    pub part: u32,
    /// Whether the fault is in a stream, as 0 or 1.
    pub has_stream: u32,
    /// The number of that stream, or 0.
    pub stream: u32,
    /// Whether the fault is at a record, as 0 or 1.
    pub has_index: u32,
    /// Whether the fault is at a byte of the stream, as 0 or 1.
    pub has_byte: u32,
    /// Whether that byte is in the file, as 0 or 1.
    pub has_file_byte: u32,
    /// Whether files of known tools have it too, as 0 or 1.
    pub is_warning: u32,
    /// What is inconsistent, numbered as in `pdb_inconsistency`, or 0 for an error.
    pub inconsistency: u32,
    /// The number that goes with what is inconsistent, or 0.
    pub number: u32,
    /// The error of the part.
    pub fault: Fault,
}

/// Returns the number of a part.
fn part_number(part: Part) -> u32
    ensures { result ≡ part_number part }
{
    match part {
        Part::Header => 0,
        Part::Directory => 1,
        Part::Sizes => 2,
        Part::Stream => 3,
        Part::Names => 4,
        Part::StringTable => 5,
        Part::Roles => 6,
        Part::Types => 7,
        Part::Ids => 8,
        Part::SectionHeaders => 9,
        Part::OriginalSectionHeaders => 10,
        Part::OmapToSource => 11,
        Part::OmapFromSource => 12,
        Part::OldFrames => 13,
        Part::NewFrames => 14,
    }
}

/// Returns the number of what is inconsistent, and the number that goes with it, or 0.
fn inconsistency_numbers(what: Inconsistency) -> (u32, u32)
    ensures { result ≡ inconsistency_numbers what }
{
    match what {
        Inconsistency::DirectoryTooLarge => (1, 0),
        Inconsistency::StreamsTooLarge => (2, 0),
        Inconsistency::OutOfOrder => (3, 0),
        Inconsistency::PageShared(page) => (4, page),
        Inconsistency::PageFree(page) => (5, page),
        Inconsistency::StreamMissing(stream) => (6, stream),
        Inconsistency::DebugSizes => (7, 0),
        Inconsistency::ReferenceNotBelow(index) => (8, index),
        Inconsistency::RecordUnaligned => (9, 0),
        Inconsistency::KindNotRead(kind) => (10, kind as u32),
        Inconsistency::HashCount(count) => (11, count),
        Inconsistency::HashTooLarge(value) => (12, value),
        Inconsistency::IndexOffset(index) => (13, index),
        Inconsistency::BucketsCut => (14, 0),
        Inconsistency::NameOffset(offset) => (15, offset),
        Inconsistency::NameCount(count) => (16, count),
        Inconsistency::SectionsOverlap => (17, 0),
        Inconsistency::FreePageMap(number) => (18, number),
        Inconsistency::PageCount(count) => (19, count),
        Inconsistency::UnknownVersion(version) => (20, version),
        Inconsistency::UnknownMachine(machine) => (21, machine as u32),
        Inconsistency::NamedStreamCount(count) => (22, count),
        Inconsistency::RecordBytes(number) => (23, number),
        Inconsistency::HashSize(size) => (24, size),
        Inconsistency::NoHashStream => (25, 0),
        Inconsistency::HashPart(size) => (26, size),
        Inconsistency::NameUnreached(offset) => (27, offset),
        Inconsistency::ModuleCut => (28, 0),
        Inconsistency::ModuleSizes(stream) => (29, stream),
        Inconsistency::SymbolHashVersion(version) => (30, version),
        Inconsistency::SymbolHashSizes => (31, 0),
        Inconsistency::PublicSizes => (32, 0),
        Inconsistency::SymbolCut => (33, 0),
    }
}

/// Converts what was found for the caller.
fn finding_of(found: &Finding) -> FoundFault
    ensures { result ≡ finding_of (finding_view found.now) }
{
    let (inconsistency, number, fault) = match &found.problem {
        Problem::Error(error) => (0, 0, Fault::of(error)),
        Problem::Inconsistent(what) => {
            let (inconsistency, number) = inconsistency_numbers(*what);
            (inconsistency, number, Fault::status(FINE))
        }
    };
    FoundFault {
        index: found.index.unwrap_or(0),
        byte: found.byte.unwrap_or(0),
        file_byte: found.file_byte.unwrap_or(0),
        part: part_number(found.part),
        has_stream: flag(found.stream.is_some()),
        stream: found.stream.unwrap_or(0),
        has_index: flag(found.index.is_some()),
        has_byte: flag(found.byte.is_some()),
        has_file_byte: flag(found.file_byte.is_some()),
        is_warning: flag(found.problem.is_warning()),
        inconsistency,
        number,
        fault,
    }
}

/// Converts all that was found for the caller.
fn findings_listed(alloc: Global, found: &[Finding]) -> Result<Vec<FoundFault>>
    ensures { Answers (λ rows. rows.items) result (Ok (map (λ one. finding_of (finding_view one)) found.now)) }
{
    let mut rows = Vec::new(alloc);
    for one in found {
        rows.push(finding_of(one))?;
    }
    Ok(rows)
}

/// Returns how much of each part is told: the first thing for 0, and everything for any other
/// number.
fn extent_of(every: u32) -> Extent
    ensures { result ≡ extent_of every }
{
    if every == 0 {
        Extent::First
    } else {
        Extent::All
    }
}

/// Returns what is found wrong in a file: the first fault of each part, or every one.
///
/// # Errors
/// Fails only with `OutOfMemory`, if an allocation fails.
pub fn findings_in(alloc: Global, file: &[u8], every: u32) -> Result<Vec<FoundFault>>
    ensures { Answers (λ rows. rows.items) result (findings_said every file.now) }
{
    let found = validate(alloc, file, extent_of(every))?;
    findings_listed(alloc, &found)
}
