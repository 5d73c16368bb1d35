//! Stream 3 and the streams to which it gives roles.

ghost use Rattle.std.specs.Prelude.{◌≡◌, Ok, Some};
ghost use Rattle.std.specs.Option.{option_map};
ghost use Rattle.pdb_base.specs.Answer.{Answers};
ghost use Rattle.pdb_msf.specs.Source.{ReadsSource};
ghost use Rattle.pdb_file.specs.DebugHeader.{extra_streams_of};
ghost use Rattle.pdb_validation.specs.Finding.{finding_view, stream_fault};
ghost use Rattle.pdb_validation.specs.Names.{fault_of_answer};
ghost use Rattle.pdb_validation.specs.Problem.{problem_view};
ghost use Rattle.pdb_validation.specs.Roles.{frames_problem, known_roles, numbered_fault, omap_problem, role_fault};
ghost use Rattle.pdb_validation.specs.Roles.{role_index, role_problem, roles_fault, sections_problem, sources_rise};
ghost use Rattle.pdb_validation.specs.Roles.{starts_rise, unless_sorted};
ghost use Rattle.pdb_validation.specs.declared.finding.Part.TheVariants as parts;

use crate::finding::{Finding, Part, absence, in_stream};
use crate::inconsistency::Inconsistency;
use crate::problem::Problem;
use crate::read::read;
use crate::scope::Scope;
use pdb_base::{Error, FallibleIterator, Result, Stream, StreamIndex};
use pdb_file::DBIExtraStreams;
use pdb_file::section_headers::section_headers;
use pdb_frames::{FrameDataIter, FrameTable};
use pdb_msf::{CountedSource, Source};
use pdb_space::OMAPTable;
use std::alloc::Global;

/// The number of the stream of debug information.
pub(crate) const DEBUG_STREAM: u32 = 3;

/// Returns what is wrong in a list of records: that it is out of order, unless it is sorted.
fn unless_sorted(is_sorted: bool) -> Option<Problem>
    ensures { option_map problem_view result ≡ unless_sorted is_sorted }
{
    if is_sorted {
        return None;
    }
    Some(Problem::Inconsistent(Inconsistency::OutOfOrder))
}

/// Returns what is wrong in a stream of section headers.
#[tactic(auto, unfolding(crate::specs::Roles::sections_problem))]
fn check_sections(alloc: Global, stream: &Stream) -> Result<Option<Problem>>
    ensures { Answers (option_map problem_view) result (Ok (sections_problem stream.now)) }
{
    match section_headers(alloc, stream) {
        Ok(_) => Ok(None),
        Err(Error::OutOfMemory) => Err(Error::OutOfMemory),
        Err(error) => Ok(Some(Problem::Error(error))),
    }
}

/// Returns whether the sources of an OMAP table don't decrease.
fn sources_rise(table: &OMAPTable) -> bool
    ensures { result ≡ sources_rise table.now }
{
    let mut least = 0;
    for record in table.records() {
        if record.source_address() < least {
            return false;
        }
        least = record.source_address();
    }
    true
}

/// Returns what is wrong in the stream of an OMAP table, whose sources must not decrease.
#[tactic(auto, unfolding(crate::specs::Roles::omap_problem))]
fn check_omap(stream: Stream) -> Option<Problem>
    ensures { option_map problem_view result ≡ omap_problem stream }
{
    match OMAPTable::parse(stream) {
        Ok(table) => unless_sorted(sources_rise(&table)),
        Err(error) => Some(Problem::Error(error)),
    }
}

/// Returns whether each of some frames starts above the one before it.
fn starts_rise(mut frames: FrameDataIter<'_>) -> bool
    ensures { result ≡ starts_rise frames.entry }
{
    let mut least = 0u64;
    loop {
        match frames.next() {
            Ok(Some(frame)) => {
                let start = frame.code_start.0 as u64;
                if start < least {
                    return false;
                }
                least = start + 1;
            }
            _ => return true,
        }
    }
}

/// Returns what is wrong in a stream of frames, each of which must start above the one before it.
/// One of the streams is absent.
#[tactic(auto, unfolding(crate::specs::Roles::frames_problem))]
fn check_frames(old: Option<Stream>, new: Option<Stream>) -> Option<Problem>
    ensures { option_map problem_view result ≡ frames_problem old new }
{
    match FrameTable::parse(old, new) {
        Ok(frames) => unless_sorted(starts_rise(frames.iter())),
        Err(error) => Some(Problem::Error(error)),
    }
}

/// Returns what is wrong in the bytes of a stream by its role.
#[tactic(auto, unfolding(crate::specs::Roles::role_problem))]
fn check_role_bytes(alloc: Global, part: Part, stream: Stream) -> Result<Option<Problem>>
    ensures { Answers (option_map problem_view) result (Ok (role_problem part stream)) }
{
    match part {
        Part::SectionHeaders => check_sections(alloc, &stream),
        Part::OriginalSectionHeaders => check_sections(alloc, &stream),
        Part::OmapToSource => Ok(check_omap(stream)),
        Part::OmapFromSource => Ok(check_omap(stream)),
        Part::OldFrames => Ok(check_frames(Some(stream), None)),
        Part::NewFrames => Ok(check_frames(None, Some(stream))),
        _ => Ok(None),
    }
}

/// Returns the stream that has the role by which a part is found.
#[tactic(auto, unfolding(crate::specs::Roles::role_index))]
pub(crate) fn role_index(part: Part, roles: &DBIExtraStreams) -> StreamIndex
    ensures { result.0 ≡ role_index part roles.now }
{
    match part {
        Part::SectionHeaders => roles.section_headers,
        Part::OriginalSectionHeaders => roles.original_section_headers,
        Part::OmapToSource => roles.omap_to_src,
        Part::OmapFromSource => roles.omap_from_src,
        Part::OldFrames => roles.fpo,
        Part::NewFrames => roles.framedata,
        _ => StreamIndex::none(),
    }
}

/// Returns the finding of the bytes of a stream that has a role, if something is wrong with them.
fn check_bytes_of(alloc: Global, part: Part, number: u32, stream: Stream) -> Result<Option<Finding>>
    ensures { Answers (option_map finding_view) result
        (Ok (option_map (stream_fault part number) (role_problem part stream))) }
{
    match check_role_bytes(alloc, part, stream)? {
        Some(problem) => Ok(Some(in_stream(part, number, problem))),
        None => Ok(None),
    }
}

/// Returns the finding of the stream with a number, if it has an error.
fn check_numbered<S: Source>(
    scope: &Scope<'_>,
    source: &mut CountedSource<S>,
    part: Part,
    number: u32,
) -> Result<Option<Finding>>
    ensures { ReadsSource (S.state source.old.source) (S.state source.new.source) (option_map finding_view) result
        (λ file. Ok (numbered_fault scope.now.layout.now file part (Some number))) }
{
    match read(scope, source, number)? {
        Ok(stream) => check_bytes_of(scope.alloc, part, number, stream),
        Err(error) => Ok(absence(part, number, error)),
    }
}

/// Returns the finding of the stream of a role, if it has an error.
pub(crate) fn check_role<S: Source>(
    scope: &Scope<'_>,
    source: &mut CountedSource<S>,
    roles: &Option<DBIExtraStreams>,
    part: Part,
) -> Result<Option<Finding>>
    ensures { ReadsSource (S.state source.old.source) (S.state source.new.source) (option_map finding_view) result
        (λ file. Ok (role_fault scope.now.layout.now file part roles.now)) }
{
    let Some(roles) = roles else {
        return Ok(None);
    };
    match role_index(part, roles).msf_number() {
        Some(number) => check_numbered(scope, source, part, number),
        None => Ok(None),
    }
}

/// Returns the roles that stream 3 gives, if its bytes can be read and give roles.
#[tactic(auto, unfolding(crate::specs::Roles::known_roles))]
pub(crate) fn known_roles<S: Source>(
    scope: &Scope<'_>,
    source: &mut CountedSource<S>,
) -> Result<Option<DBIExtraStreams>>
    ensures { ReadsSource (S.state source.old.source) (S.state source.new.source) (λ roles. roles) result
        (λ file. Ok (known_roles scope.now.layout.now file)) }
{
    match read(scope, source, DEBUG_STREAM)? {
        Ok(stream) => Ok(DBIExtraStreams::new(&stream).ok()),
        Err(_) => Ok(None),
    }
}

/// Returns the finding that the bytes of stream 3 give no roles, if they don't.
fn check_debug_stream(stream: &Stream) -> Option<Finding>
    ensures { option_map finding_view result ≡ fault_of_answer parts.Roles 3 (extra_streams_of stream.now) }
{
    match DBIExtraStreams::new(stream) {
        Ok(_) => None,
        Err(error) => Some(in_stream(Part::Roles, DEBUG_STREAM, Problem::Error(error))),
    }
}

/// Returns the finding of stream 3, if its header or its roles have an error.
#[tactic(auto, unfolding(crate::specs::Roles::roles_fault))]
pub(crate) fn check_roles<S: Source>(
    scope: &Scope<'_>,
    source: &mut CountedSource<S>,
) -> Result<Option<Finding>>
    ensures { ReadsSource (S.state source.old.source) (S.state source.new.source) (option_map finding_view) result
        (λ file. Ok (roles_fault scope.now.layout.now file)) }
{
    match read(scope, source, DEBUG_STREAM)? {
        Ok(stream) => Ok(check_debug_stream(&stream)),
        Err(_) => Ok(None),
    }
}
