//! What is inconsistent between the parts of a file, as far as these can be read.

ghost use Rattle.std.specs.Prelude.{◌≡◌, ◌<◌, ◌++◌, ℕ, List, map, Ok, IfOk, OnOk};
ghost use Rattle.pdb_base.specs.Answer.{Answers};
ghost use Rattle.pdb_base.specs.Index.{stream_number};
ghost use Rattle.pdb_base.specs.Memory.{FailsOnlyForMemory};
ghost use Rattle.pdb_validation.specs.Mismatch.{asked_of};
ghost use Rattle.pdb_msf.specs.Layout.{layout_of, stream_by};
ghost use Rattle.pdb_msf.specs.Source.{IsFixed, ReadsSource};
ghost use Rattle.pdb_validation.specs.Finding.{FaultPlace, finding_view};
ghost use Rattle.pdb_validation.specs.Names.{string_table_number};
ghost use Rattle.pdb_validation.specs.Places.{stream_pages};
ghost use Rattle.pdb_validation.specs.Relations.{buckets_of, container_relations, end_in, hashes_by};
ghost use Rattle.pdb_validation.specs.Relations.{header_relations, in_information, mismatch_fault, name_relations};
ghost use Rattle.pdb_validation.specs.Relations.{related_faults, section_relations, sections_in, sections_relation};
ghost use Rattle.pdb_validation.specs.Relations.{table_number, table_relations, with_relations};

use crate::checked_index::CheckedIndex;
use crate::debug::add_debug_relations;
use crate::file_header::check_header;
use crate::finding::{Finding, Part};
use crate::hashes::check_hashes;
use crate::information::check_information;
use crate::mismatch::Mismatch;
use crate::missing_streams::check_named_streams;
use crate::names::INFORMATION_STREAM;
use crate::pages::check_pages;
use crate::places::LastPages;
use crate::problem::Problem;
use crate::read::read;
use crate::records::check_records;
use crate::roles::{known_roles, role_index};
use crate::scope::Scope;
use crate::sections::check_section_order;
use crate::string_table::check_buckets;
use crate::table_header::check_table_header;
use crate::tables::learn;
use pdb_base::{Error, IdIndex, ItemIndex, Result, Stream, StreamIndex, TypeIndex};
use pdb_file::PDBInformation;
use pdb_file::section_headers::section_headers;
use pdb_msf::{CountedSource, Source};
use pdb_tpi::{ItemInformation, OpenTable};

/// The end of the indexes of a table that is not there.
const NO_END: u32 = 0xffff_ffff;

/// Returns what is inconsistent, as a finding of a part.
fn finding_of(
    scope: &Scope<'_>,
    part: Part,
    mismatch: Mismatch,
    last: &mut LastPages,
) -> Result<Finding>
    requires last { last.old.pages ≡ stream_pages scope.now.layout.now last.old.number }
    ensures finding { IfOk result (λ finding. finding_view finding ≡ mismatch_fault scope.now.layout.now part
        mismatch) }
    ensures memory { FailsOnlyForMemory result }
    ensures kept { OnOk result (last.new.pages ≡ stream_pages scope.now.layout.now last.new.number) }
{
    let file_byte = last.place_of(scope, mismatch.stream, mismatch.byte)?;
    Ok(Finding {
        part,
        stream: mismatch.stream,
        index: mismatch.index,
        byte: mismatch.byte,
        file_byte,
        problem: Problem::Inconsistent(mismatch.what),
    })
}

/// Adds what is inconsistent in a part.
#[tactic(auto, using(crate::proofs::RelationLemmas::mismatches_more))]
pub(crate) fn add_mismatches(
    scope: &Scope<'_>,
    part: Part,
    mismatches: &[Mismatch],
    findings: &mut Vec<Finding>,
) -> Result<()>
    ensures ok { OnOk result (map finding_view findings.new.items
        ≡ map finding_view findings.old.items ++ map (mismatch_fault scope.now.layout.now part) mismatches.now) }
    ensures memory { FailsOnlyForMemory result }
{
    let mut last = LastPages::first(scope)?;
    for mismatch in mismatches {
        let finding = finding_of(scope, part, *mismatch, &mut last)?;
        findings.push(finding)?;
    }
    Ok(())
}

/// Returns what is inconsistent in the hash stream of a table, if it has one.
#[tactic(auto, using(crate::proofs::RelationLemmas::nothing_asked))]
fn hash_mismatches<I: ItemIndex, S: Source>(
    scope: &Scope<'_>,
    source: &mut CountedSource<S>,
    table: &OpenTable<I>,
) -> Result<Vec<Mismatch>>
    ensures { ReadsSource (S.state source.old.source) (S.state source.new.source)
        (λ mismatches. mismatches.items) result (λ file. Ok (asked_of scope.now.extent (hashes_by
        scope.now.layout.now file table.now.table
        (stream_number table.now.table.header.tpi_hash_stream)))) }
{
    let header = table.items().header();
    let Some(number) = StreamIndex(header.tpi_hash_stream).msf_number() else {
        return Ok(Vec::new(scope.alloc));
    };
    match read(scope, source, number)? {
        Ok(hashes) => check_hashes(scope.alloc, number, table, hashes.as_slice(), scope.extent),
        Err(_) => Ok(Vec::new(scope.alloc)),
    }
}

/// Adds what is inconsistent in the header of a table, and in its hash stream.
fn add_header_relations<I: CheckedIndex, S: Source>(
    scope: &Scope<'_>,
    source: &mut CountedSource<S>,
    table: ItemInformation<I>,
    findings: &mut Vec<Finding>,
) -> Result<()>
    ensures { ReadsSource (S.state source.old.source) (S.state source.new.source)
        (λ done. map finding_view findings.new.items) result (λ file. Ok (with_relations scope.now.extent
        scope.now.layout.now
        (header_relations scope.now.layout.now file I.PART I.STREAM table) (map finding_view findings.old.items))) }
{
    let table = learn(scope.alloc, table)?;
    let header = check_table_header(scope, I::STREAM, &table)?;
    add_mismatches(scope, I::PART, &header, findings)?;
    let hashes = hash_mismatches(scope, source, &table)?;
    add_mismatches(scope, I::PART, &hashes, findings)
}

/// Adds what is inconsistent in these bytes of stream 1, and which of the streams that it names are
/// missing, and returns the number of the stream of the string table, if it names one.
#[tactic(auto, unfolding(crate::specs::Relations::in_information, crate::specs::Relations::named_streams, crate::specs::Names::string_table_number), using(crate::proofs::RelationLemmas::nothing_related))]
fn add_in_information(
    scope: &Scope<'_>,
    stream: Stream,
    findings: &mut Vec<Finding>,
) -> Result<Option<u32>>
    ensures told { Answers (λ number. map finding_view findings.new.items) result (Ok (with_relations
        scope.now.extent scope.now.layout.now
        (in_information scope.now.layout.now (Ok stream)) (map finding_view findings.old.items))) }
    ensures number { IfOk result (λ number. number ≡ table_number (string_table_number stream)) }
{
    let mismatches = check_information(scope.alloc, &stream, scope.extent)?;
    add_mismatches(scope, Part::Names, &mismatches, findings)?;
    let Ok(information) = PDBInformation::parse(stream) else {
        return Ok(None);
    };
    match information.stream_names(scope.alloc) {
        Ok(names) => {
            let missing = check_named_streams(scope, &names)?;
            add_mismatches(scope, Part::Names, &missing, findings)?;
            Ok(names.number(b"/names").ok())
        }
        Err(Error::OutOfMemory) => Err(Error::OutOfMemory),
        Err(_) => Ok(None),
    }
}

/// Returns what is inconsistent in the string table in the stream of a number, if there is one.
#[tactic(auto, using(crate::proofs::RelationLemmas::nothing_asked))]
fn buckets_of<S: Source>(
    scope: &Scope<'_>,
    source: &mut CountedSource<S>,
    number: Option<u32>,
) -> Result<Vec<Mismatch>>
    ensures { ReadsSource (S.state source.old.source) (S.state source.new.source)
        (λ mismatches. mismatches.items) result (λ file. Ok (asked_of scope.now.extent (buckets_of
        scope.now.layout.now file number))) }
{
    let Some(number) = number else {
        return Ok(Vec::new(scope.alloc));
    };
    match read(scope, source, number)? {
        Ok(stream) => check_buckets(scope.alloc, number, stream.as_slice(), scope.extent),
        Err(_) => Ok(Vec::new(scope.alloc)),
    }
}

/// Returns which of the sections in the stream of a number overlap, if there is a number.
#[tactic(auto, using(crate::proofs::RelationLemmas::nothing_asked))]
fn sections_in<S: Source>(
    scope: &Scope<'_>,
    source: &mut CountedSource<S>,
    number: Option<u32>,
) -> Result<Vec<Mismatch>>
    ensures { ReadsSource (S.state source.old.source) (S.state source.new.source)
        (λ mismatches. mismatches.items) result (λ file. Ok (asked_of scope.now.extent (sections_in
        scope.now.layout.now file number))) }
{
    let Some(number) = number else {
        return Ok(Vec::new(scope.alloc));
    };
    let Ok(stream) = read(scope, source, number)? else {
        return Ok(Vec::new(scope.alloc));
    };
    match section_headers(scope.alloc, &stream) {
        Ok(sections) => check_section_order(scope.alloc, &sections, number, scope.extent),
        Err(Error::OutOfMemory) => Err(Error::OutOfMemory),
        Err(_) => Ok(Vec::new(scope.alloc)),
    }
}

/// Returns which of the sections in the stream of a role overlap.
#[tactic(auto, unfolding(crate::specs::Relations::sections_relation), using(crate::proofs::RelationLemmas::nothing_asked))]
fn section_mismatches<S: Source>(
    scope: &Scope<'_>,
    source: &mut CountedSource<S>,
    part: Part,
) -> Result<Vec<Mismatch>>
    ensures { ReadsSource (S.state source.old.source) (S.state source.new.source)
        (λ mismatches. mismatches.items) result (λ file. Ok (asked_of scope.now.extent
        (sections_relation scope.now.layout.now file part))) }
{
    match known_roles(scope, source)? {
        Some(roles) => {
            let number = role_index(part, &roles).msf_number();
            sections_in(scope, source, number)
        }
        None => Ok(Vec::new(scope.alloc)),
    }
}

/// Adds what is inconsistent in the header and in the pages of a file.
#[tactic(auto, unfolding(crate::specs::Relations::container_relations))]
fn add_container_relations<S: Source>(
    scope: &Scope<'_>,
    source: &mut CountedSource<S>,
    findings: &mut Vec<Finding>,
) -> Result<()>
    requires layout { IsFixed (S.state source.old.source) →
        layout_of (S.state source.old.source).bytes ≡ Ok scope.now.layout.now }
    ensures { ReadsSource (S.state source.old.source) (S.state source.new.source)
        (λ done. map finding_view findings.new.items) result (λ file. Ok (with_relations scope.now.extent
        scope.now.layout.now
        (container_relations scope.now.layout.now file) (map finding_view findings.old.items))) }
{
    let header = check_header(scope, source)?;
    add_mismatches(scope, Part::Header, &header, findings)?;
    let mismatches = check_pages(scope.alloc, scope.layout, source, scope.extent)?;
    add_mismatches(scope, Part::Stream, &mismatches, findings)
}

/// Adds what is inconsistent in the records of a table, in its header and in its hash stream, where
/// types have indexes below `types`, and returns the end of its indexes.
#[tactic(auto, unfolding(crate::specs::Relations::table_relations), using(crate::proofs::RelationLemmas::nothing_related))]
fn add_table_relations<I: CheckedIndex, S: Source>(
    scope: &Scope<'_>,
    source: &mut CountedSource<S>,
    types: u32,
    findings: &mut Vec<Finding>,
) -> Result<u32>
    ensures { ReadsSource {A = ℕ × List FaultPlace} (S.state source.old.source) (S.state source.new.source)
        (λ end. (end, map finding_view findings.new.items)) result
        (λ file. Ok (
          end_in (stream_by scope.now.layout.now file I.STREAM None),
          with_relations scope.now.extent scope.now.layout.now
              (table_relations scope.now.layout.now file I.PART I.STREAM (I.wrong types)) (map finding_view
              findings.old.items),
        )) }
{
    let Ok(stream) = read(scope, source, I::STREAM)? else {
        return Ok(NO_END);
    };
    let Ok(table) = ItemInformation::<I>::parse(stream) else {
        return Ok(NO_END);
    };
    let end = table.header().maximum_index;
    let records = check_records(scope.alloc, &table, types, scope.extent)?;
    add_mismatches(scope, I::PART, &records, findings)?;
    add_header_relations(scope, source, table, findings)?;
    Ok(end)
}

/// Adds what is inconsistent in stream 1, the names of streams and the string table.
#[tactic(auto, unfolding(crate::specs::Relations::name_relations, crate::specs::Relations::in_information, crate::specs::Relations::buckets_relation), using(crate::proofs::RelationLemmas::nothing_related))]
fn add_name_relations<S: Source>(
    scope: &Scope<'_>,
    source: &mut CountedSource<S>,
    findings: &mut Vec<Finding>,
) -> Result<()>
    ensures { ReadsSource (S.state source.old.source) (S.state source.new.source)
        (λ done. map finding_view findings.new.items) result (λ file. Ok (with_relations scope.now.extent
        scope.now.layout.now
        (name_relations scope.now.layout.now file) (map finding_view findings.old.items))) }
{
    let Ok(stream) = read(scope, source, INFORMATION_STREAM)? else {
        return Ok(());
    };
    let number = add_in_information(scope, stream, findings)?;
    let buckets = buckets_of(scope, source, number)?;
    add_mismatches(scope, Part::StringTable, &buckets, findings)
}

/// Adds which sections overlap.
#[tactic(auto, unfolding(crate::specs::Relations::section_relations))]
fn add_section_relations<S: Source>(
    scope: &Scope<'_>,
    source: &mut CountedSource<S>,
    findings: &mut Vec<Finding>,
) -> Result<()>
    ensures { ReadsSource (S.state source.old.source) (S.state source.new.source)
        (λ done. map finding_view findings.new.items) result (λ file. Ok (with_relations scope.now.extent
        scope.now.layout.now
        (section_relations scope.now.layout.now file) (map finding_view findings.old.items))) }
{
    let sections = section_mismatches(scope, source, Part::SectionHeaders)?;
    add_mismatches(scope, Part::SectionHeaders, &sections, findings)?;
    let original = section_mismatches(scope, source, Part::OriginalSectionHeaders)?;
    add_mismatches(scope, Part::OriginalSectionHeaders, &original, findings)
}

/// Adds what is inconsistent between the parts of a file, as far as these can be read.
#[tactic(auto, unfolding(crate::specs::Relations::related_faults, crate::specs::Relations::types_end))]
pub(crate) fn add_relations<S: Source>(
    scope: &Scope<'_>,
    source: &mut CountedSource<S>,
    findings: &mut Vec<Finding>,
) -> Result<()>
    requires layout { IsFixed (S.state source.old.source) →
        layout_of (S.state source.old.source).bytes ≡ Ok scope.now.layout.now }
    ensures { ReadsSource (S.state source.old.source) (S.state source.new.source)
        (λ done. map finding_view findings.new.items) result (λ file. Ok (related_faults scope.now.extent
        scope.now.layout.now file
        (map finding_view findings.old.items))) }
{
    add_container_relations(scope, source, findings)?;
    // A type refers to no index from its own on, wherever those of types end.
    let end = add_table_relations::<TypeIndex, S>(scope, source, NO_END, findings)?;
    add_table_relations::<IdIndex, S>(scope, source, end, findings)?;
    add_name_relations(scope, source, findings)?;
    add_debug_relations(scope, source, findings)?;
    add_section_relations(scope, source, findings)
}
