//! Whether a file is whole.

ghost use Rattle.std.specs.Prelude.{◌≡◌, ◌<◌, ◌↔◌, [], ◌∷◌, ◌++◌, map, Ok, IfOk, IsTrue};
ghost use Rattle.std.specs.Option.{option_to_list};
ghost use Rattle.pdb_base.specs.Answer.{Answers, AnswersUnless};
ghost use Rattle.pdb_msf.specs.Header.{IsHeader, file_head, header_view};
ghost use Rattle.pdb_msf.specs.Layout.{layout_of};
ghost use Rattle.pdb_msf.specs.Source.{IsFixed, ReadsSource};
ghost use Rattle.pdb_validation.specs.Finding.{by_extent, error_count, file_fault, finding_view};
ghost use Rattle.pdb_validation.specs.IsWhole.{IsWhole};
ghost use Rattle.pdb_validation.specs.Problem.{problem_view};
ghost use Rattle.pdb_validation.specs.Roles.{role_fault};
ghost use Rattle.pdb_validation.specs.Whole.{faults_by, faults_of, fixed_faults, opened_faults, part_faults};
ghost use Rattle.pdb_validation.specs.Whole.{refused_faults, sized_faults, table_faults_by, with_roles};

use crate::checked_index::CheckedIndex;
use crate::finding::{Finding, Part, add, in_file};
use crate::inconsistency::Inconsistency;
use crate::mismatch::Extent;
use crate::names::check_names;
use crate::places::StreamPages;
use crate::problem::Problem;
use crate::read::read;
use crate::relations::add_relations;
use crate::roles::{check_role, check_roles, known_roles};
use crate::scope::Scope;
use crate::sizes::{nameable, streams_size};
use crate::streams::add_streams;
use crate::tables::add_table;
use pdb_base::{IdIndex, Result, TypeIndex};
use pdb_file::DBIExtraStreams;
use pdb_msf::{CountedSource, Header, Layout, Source, comes_from_outside};
use std::alloc::Global;

/// Adds the findings of the table of types or of ids, if its stream can be read.
#[tactic(auto, unfolding(crate::specs::Whole::table_faults_by))]
fn add_table_stream<I: CheckedIndex, S: Source>(
    scope: &Scope<'_>,
    source: &mut CountedSource<S>,
    findings: &mut Vec<Finding>,
) -> Result<()>
    ensures { ReadsSource (S.state source.old.source) (S.state source.new.source)
        (λ done. map finding_view findings.new.items) result (λ file. Ok (map finding_view findings.old.items
        ++ by_extent scope.now.extent (table_faults_by I.PART I.STREAM I.checked scope.now.layout.now file))) }
{
    match read(scope, source, I::STREAM)? {
        Ok(stream) => {
            let pages = StreamPages::of(scope, I::STREAM)?;
            add_table::<I>(scope.alloc, stream, &pages, scope.extent, findings)
        }
        Err(_) => Ok(()),
    }
}

/// Returns the findings of the bytes of streams, and of the parts whose streams have fixed numbers.
#[tactic(auto, unfolding(crate::specs::Whole::fixed_faults))]
fn check_fixed<S: Source>(scope: &Scope<'_>, source: &mut CountedSource<S>) -> Result<Vec<Finding>>
    ensures { ReadsSource (S.state source.old.source) (S.state source.new.source)
        (λ findings. map finding_view findings.items) result (λ file. Ok (fixed_faults scope.now.extent
        scope.now.layout.now file)) }
{
    let mut findings = Vec::new(scope.alloc);
    add_streams(scope, source, nameable(scope.layout), &mut findings)?;
    add(&mut findings, check_names(scope, source)?)?;
    add(&mut findings, check_roles(scope, source)?)?;
    add_table_stream::<TypeIndex, S>(scope, source, &mut findings)?;
    add_table_stream::<IdIndex, S>(scope, source, &mut findings)?;
    Ok(findings)
}

/// Adds the finding of the stream of a role, if it has an error.
fn add_role<S: Source>(
    scope: &Scope<'_>,
    source: &mut CountedSource<S>,
    roles: &Option<DBIExtraStreams>,
    part: Part,
    findings: &mut Vec<Finding>,
) -> Result<()>
    ensures { ReadsSource (S.state source.old.source) (S.state source.new.source)
        (λ done. map finding_view findings.new.items) result (λ file. Ok (map finding_view findings.old.items
        ++ option_to_list (role_fault scope.now.layout.now file part roles.now))) }
{
    let found = check_role(scope, source, roles, part)?;
    add(findings, found)
}

/// Adds the findings of the streams of all roles that are read.
#[tactic(auto, unfolding(crate::specs::Whole::with_roles))]
fn add_roles<S: Source>(
    scope: &Scope<'_>,
    source: &mut CountedSource<S>,
    roles: &Option<DBIExtraStreams>,
    findings: &mut Vec<Finding>,
) -> Result<()>
    ensures { ReadsSource (S.state source.old.source) (S.state source.new.source)
        (λ done. map finding_view findings.new.items) result (λ file. Ok (with_roles scope.now.layout.now file roles.now
        (map finding_view findings.old.items))) }
{
    add_role(scope, source, roles, Part::SectionHeaders, findings)?;
    add_role(scope, source, roles, Part::OriginalSectionHeaders, findings)?;
    add_role(scope, source, roles, Part::OmapToSource, findings)?;
    add_role(scope, source, roles, Part::OmapFromSource, findings)?;
    add_role(scope, source, roles, Part::OldFrames, findings)?;
    add_role(scope, source, roles, Part::NewFrames, findings)
}

/// Returns the findings of each part of a file whose directory can be read, by itself.
#[tactic(auto, unfolding(crate::specs::Whole::refused_faults))]
fn check_each<S: Source>(scope: &Scope<'_>, source: &mut CountedSource<S>) -> Result<Vec<Finding>>
    ensures { ReadsSource (S.state source.old.source) (S.state source.new.source)
        (λ findings. map finding_view findings.items) result (λ file. Ok (refused_faults scope.now.extent
        scope.now.layout.now file)) }
{
    let mut findings = check_fixed(scope, source)?;
    let roles = known_roles(scope, source)?;
    add_roles(scope, source, &roles, &mut findings)?;
    Ok(findings)
}

/// Returns the findings of all parts of a file whose directory can be read, and then what is
/// inconsistent between them.
#[tactic(auto, unfolding(crate::specs::Whole::part_faults))]
fn check_parts<S: Source>(scope: &Scope<'_>, source: &mut CountedSource<S>) -> Result<Vec<Finding>>
    requires layout { IsFixed (S.state source.old.source) →
        layout_of (S.state source.old.source).bytes ≡ Ok scope.now.layout.now }
    ensures { ReadsSource (S.state source.old.source) (S.state source.new.source)
        (λ findings. map finding_view findings.items) result (λ file. Ok (part_faults scope.now.extent
        scope.now.layout.now file)) }
{
    let mut findings = check_each(scope, source)?;
    add_relations(scope, source, &mut findings)?;
    Ok(findings)
}

/// Returns the finding of a part alone that no stream holds.
fn only(alloc: Global, part: Part, problem: Problem) -> Result<Vec<Finding>>
    ensures { Answers (λ findings. map finding_view findings.items) result
        (Ok (file_fault part (problem_view problem) ∷ [])) }
{
    let findings = vec![in alloc; in_file(part, problem)]?;
    Ok(findings)
}

/// Returns the findings of a file whose directory can be read: that the streams are larger than the
/// file, or those of all parts.
#[tactic(auto, unfolding(crate::specs::Whole::sized_faults))]
fn check_sized<S: Source>(
    alloc: Global,
    layout: &Layout,
    source: &mut CountedSource<S>,
    extent: Extent,
) -> Result<Vec<Finding>>
    requires sized { 0 < layout.now.head.geometry.page_size }
    requires layout { IsFixed (S.state source.old.source) →
        layout_of (S.state source.old.source).bytes ≡ Ok layout.now }
    ensures { ReadsSource (S.state source.old.source) (S.state source.new.source)
        (λ findings. map finding_view findings.items) result (λ file. Ok (sized_faults extent layout.now file)) }
{
    if streams_size(layout) > source.size(alloc)? {
        let problem = Problem::Inconsistent(Inconsistency::StreamsTooLarge);
        return only(alloc, Part::Sizes, problem);
    }
    let scope = Scope {
        alloc,
        layout,
        extent,
    };
    check_parts(&scope, source)
}

/// Returns the findings of a file whose directory is no larger than it: that the directory can't be
/// read, or those of the other parts.
#[tactic(auto, unfolding(pdb_msf::specs::Layout::layout_of))]
fn check_directory<S: Source>(
    alloc: Global,
    source: &mut CountedSource<S>,
    header: Header,
    extent: Extent,
) -> Result<Vec<Finding>>
    requires header { IsHeader header }
    requires head { IsFixed (S.state source.old.source) →
        file_head (S.state source.old.source).bytes ≡ Ok (header_view header) }
    ensures { ReadsSource (S.state source.old.source) (S.state source.new.source)
        (λ findings. map finding_view findings.items) result (λ file. Ok (faults_by extent file (layout_of file))) }
{
    match Layout::behind(alloc, source, header) {
        Ok(layout) => check_sized(alloc, &layout, source, extent),
        Err(error) => {
            if comes_from_outside(&error) {
                return Err(error);
            }
            only(alloc, Part::Directory, Problem::Error(error))
        }
    }
}

/// Returns the findings of a file whose header was read: that the directory is larger than the
/// file, or those of the directory and of the other parts.
fn check_opened<S: Source>(
    alloc: Global,
    source: &mut CountedSource<S>,
    header: Header,
    extent: Extent,
) -> Result<Vec<Finding>>
    requires header { IsHeader header }
    requires head { IsFixed (S.state source.old.source) →
        file_head (S.state source.old.source).bytes ≡ Ok (header_view header) }
    ensures { ReadsSource (S.state source.old.source) (S.state source.new.source)
        (λ findings. map finding_view findings.items) result (λ file. Ok (opened_faults extent file)) }
{
    if header.geometry.directory_size as u64 > source.size(alloc)? {
        let problem = Problem::Inconsistent(Inconsistency::DirectoryTooLarge);
        return only(alloc, Part::Sizes, problem);
    }
    check_directory(alloc, source, header, extent)
}

/// Returns the findings of a file: that of the header, or those of the other parts.
#[tactic(auto, unfolding(crate::specs::Whole::faults_of))]
fn check_file<S: Source>(
    alloc: Global,
    source: &mut CountedSource<S>,
    extent: Extent,
) -> Result<Vec<Finding>>
    ensures { ReadsSource (S.state source.old.source) (S.state source.new.source)
        (λ findings. map finding_view findings.items) result (λ file. Ok (faults_of extent file)) }
{
    match Header::read(alloc, source) {
        Ok(header) => check_opened(alloc, source, header, extent),
        Err(error) => {
            if comes_from_outside(&error) {
                return Err(error);
            }
            only(alloc, Part::Header, Problem::Error(error))
        }
    }
}

/// Returns what is found wrong in a file: the first fault of each part that breaks the definitions
/// of this library, or every one. Either list has no error exactly if the file is whole.
///
/// These parts are checked:
/// - the header; if it has an error, nothing else is checked;
/// - the size of the directory, which must not be larger than the file; if it is, nothing else is
///   checked;
/// - the directory; if it has an error, nothing else is checked;
/// - the sizes of the streams, which together must not be larger than the file, as they are if two
///   of them share pages; if they are, nothing else is checked;
/// - the bytes of each stream that is present, among the numbers of 16 bits; if those of a stream
///   can't be read, what they mean isn't checked;
/// - stream 1, which must be there, and the names of streams; and the string table with each of its
///   names, if the file names one;
/// - the header of stream 3 and the roles of streams, if stream 3 is there;
/// - the tables of types and of ids in streams 2 and 4, if these are there: the header, each record
///   of a kind that this library reads, that a field list is continued by one below it, and that
///   there are as many records as the header counts, of which the first that is missing is told;
/// - the streams by their roles, which must be there: the section headers of both images, both OMAP
///   tables, whose sources must not decrease, and the frames of both formats, whose starts must
///   increase.
///
/// Behind these comes what is inconsistent between the parts, each in a list of its own: the pages
/// that the header counts, pages with two owners or marked as free, the references, sizes and kinds
/// of records, the header and the hash stream of a table, streams that have a name or a role and are
/// missing, the version of stream 1, the buckets of the string table, the header of stream 3, the
/// sizes of modules and of the streams of symbols, and sections that overlap. Some of it is no more
/// than a warning. Modules and symbols are not read.
///
/// Streams are read one at a time: each for its bytes, and those of the parts again for what they
/// hold and for what is inconsistent. Since streams are read only if they are no larger together
/// than the file, and so is the directory, the work is linear in the size of the file. Of the
/// file's bytes no more than one stream, the directory and a page of the free page map are kept in
/// memory at a time, and of each page to whom it belongs.
///
/// # Errors
/// Fails with `IoError` if the source fails otherwise than by the end of its bytes, and with
/// `OutOfMemory` if an allocation fails. All other errors are findings.
#[tactic(auto, using(pdb_msf::proofs::lemmas::Kept::unsound))]
pub fn validate<S: Source + Drop>(alloc: Global, source: S, extent: Extent) -> Result<Vec<Finding>>
    ensures findings { IsFixed (S.state source) → AnswersUnless (¬ IsTrue (S.state source).is_sound)
        (λ findings. map finding_view findings.items) result (Ok (faults_of extent (S.state source).bytes)) }
    ensures whole { IsFixed (S.state source) → IfOk result (λ findings.
        (error_count (map finding_view findings.items) ≡ 0) ↔ IsWhole (S.state source).bytes) }
{
    check_file(alloc, &mut CountedSource::new(source), extent)
}
