//! What is inconsistent in stream 3, and in the streams of symbols to which it leads.

ghost use Rattle.std.specs.Prelude.{◌≡◌, ◌<◌, map, Ok};
ghost use Rattle.pdb_base.specs.Answer.{Answers};
ghost use Rattle.pdb_validation.specs.Mismatch.{asked_of};
ghost use Rattle.pdb_msf.specs.Source.{ReadsSource};
ghost use Rattle.pdb_validation.specs.Finding.{finding_view};
ghost use Rattle.pdb_validation.specs.Relations.{debug_relations, in_debug_stream, in_symbol_streams};
ghost use Rattle.pdb_validation.specs.Relations.{roles_in_stream, symbol_index, symbol_mismatches, symbol_relations};
ghost use Rattle.pdb_validation.specs.Relations.{symbols_in, with_relations};

use crate::debug_header::check_debug_header;
use crate::finding::{Finding, Part};
use crate::mismatch::{Extent, Mismatch};
use crate::missing_streams::check_roles;
use crate::modules::check_modules;
use crate::read::read;
use crate::relations::add_mismatches;
use crate::roles::DEBUG_STREAM;
use crate::scope::Scope;
use crate::symbols::{check_globals, check_publics, check_symbols};
use pdb_base::{Result, Stream, StreamIndex};
use pdb_file::{DBIExtraStreams, DBIHeader};
use pdb_msf::{CountedSource, Source};
use std::alloc::Global;

/// A stream of symbols.
#[derive(Clone, Copy)]
enum SymbolStream {
    /// The one by which globals are found.
    Globals,
    /// The one by which publics are found.
    Publics,
    /// The one with the records of both.
    Records,
}

impl SymbolStream {
    /// Returns the index of the stream.
    fn index(self, header: &DBIHeader) -> StreamIndex
        ensures { result.0 ≡ symbol_index self header.now }
    {
        match self {
            SymbolStream::Globals => header.gs_symbols_stream,
            SymbolStream::Publics => header.ps_symbols_stream,
            SymbolStream::Records => header.symbol_records_stream,
        }
    }

    /// Returns what is inconsistent in the bytes of the stream, which has a number.
    fn check(
        self,
        alloc: Global,
        number: u32,
        stream: &Stream,
        extent: Extent,
    ) -> Result<Vec<Mismatch>>
        ensures { Answers (λ mismatches. mismatches.items) result
            (Ok (asked_of extent (symbol_mismatches self number stream.now))) }
    {
        match self {
            SymbolStream::Globals => check_globals(alloc, number, stream.as_slice(), extent),
            SymbolStream::Publics => check_publics(alloc, number, stream.as_slice(), extent),
            SymbolStream::Records => check_symbols(alloc, number, stream.as_slice(), extent),
        }
    }
}

/// Returns what is inconsistent in a stream of symbols, if it is there.
#[tactic(auto, using(crate::proofs::RelationLemmas::nothing_asked))]
fn symbols_in<S: Source>(
    scope: &Scope<'_>,
    source: &mut CountedSource<S>,
    symbols: SymbolStream,
    header: &DBIHeader,
) -> Result<Vec<Mismatch>>
    ensures { ReadsSource (S.state source.old.source) (S.state source.new.source)
        (λ mismatches. mismatches.items) result (λ file. Ok (asked_of scope.now.extent
        (symbols_in scope.now.layout.now file symbols header.now))) }
{
    let Some(number) = symbols.index(header).msf_number() else {
        return Ok(Vec::new(scope.alloc));
    };
    match read(scope, source, number)? {
        Ok(stream) => symbols.check(scope.alloc, number, &stream, scope.extent),
        Err(_) => Ok(Vec::new(scope.alloc)),
    }
}

/// Returns which of the streams that have roles in these bytes of stream 3 are missing.
#[tactic(auto, unfolding(crate::specs::Relations::roles_in_stream), using(crate::proofs::RelationLemmas::nothing_asked))]
fn roles_in_stream(scope: &Scope<'_>, stream: &Stream) -> Result<Vec<Mismatch>>
    ensures { Answers (λ mismatches. mismatches.items) result
        (Ok (asked_of scope.now.extent (roles_in_stream scope.now.layout.now stream.now))) }
{
    let Ok(header) = DBIHeader::parse(stream) else {
        return Ok(Vec::new(scope.alloc));
    };
    match DBIExtraStreams::new(stream) {
        Ok(roles) => check_roles(scope, &header, &roles),
        Err(_) => Ok(Vec::new(scope.alloc)),
    }
}

/// Adds what is inconsistent in these bytes of stream 3: in the header, the roles and the modules.
#[tactic(auto, unfolding(crate::specs::Relations::in_debug_stream))]
fn add_in_debug_stream(
    scope: &Scope<'_>,
    stream: &Stream,
    findings: &mut Vec<Finding>,
) -> Result<()>
    ensures { Answers (λ done. map finding_view findings.new.items) result
        (Ok (with_relations scope.now.extent scope.now.layout.now (in_debug_stream scope.now.layout.now (Ok stream.now))
        (map finding_view findings.old.items))) }
{
    let header = check_debug_header(scope.alloc, stream, scope.extent)?;
    add_mismatches(scope, Part::Roles, &header, findings)?;
    let roles = roles_in_stream(scope, stream)?;
    add_mismatches(scope, Part::Roles, &roles, findings)?;
    let modules = check_modules(scope.alloc, scope.layout, stream, scope.extent)?;
    add_mismatches(scope, Part::Roles, &modules, findings)
}

/// Adds what is inconsistent in the streams of symbols that a header of stream 3 gives.
#[tactic(auto, unfolding(crate::specs::Relations::in_symbol_streams))]
fn add_in_symbol_streams<S: Source>(
    scope: &Scope<'_>,
    source: &mut CountedSource<S>,
    header: &DBIHeader,
    findings: &mut Vec<Finding>,
) -> Result<()>
    ensures { ReadsSource (S.state source.old.source) (S.state source.new.source)
        (λ done. map finding_view findings.new.items) result (λ file. Ok (with_relations scope.now.extent
        scope.now.layout.now
        (in_symbol_streams scope.now.layout.now file (Ok header.now)) (map finding_view findings.old.items))) }
{
    let globals = symbols_in(scope, source, SymbolStream::Globals, header)?;
    add_mismatches(scope, Part::Roles, &globals, findings)?;
    let publics = symbols_in(scope, source, SymbolStream::Publics, header)?;
    add_mismatches(scope, Part::Roles, &publics, findings)?;
    let records = symbols_in(scope, source, SymbolStream::Records, header)?;
    add_mismatches(scope, Part::Roles, &records, findings)
}

/// Adds what is inconsistent in stream 3, which is read once, and in the streams of symbols.
#[tactic(auto, unfolding(crate::specs::Relations::in_debug_stream, crate::specs::Relations::in_symbol_streams), using(crate::proofs::RelationLemmas::nothing_related))]
pub(crate) fn add_debug_relations<S: Source>(
    scope: &Scope<'_>,
    source: &mut CountedSource<S>,
    findings: &mut Vec<Finding>,
) -> Result<()>
    ensures { ReadsSource (S.state source.old.source) (S.state source.new.source)
        (λ done. map finding_view findings.new.items) result (λ file. Ok (with_relations scope.now.extent
        scope.now.layout.now
        (symbol_relations scope.now.layout.now file) (with_relations scope.now.extent scope.now.layout.now
        (debug_relations scope.now.layout.now file)
        (map finding_view findings.old.items)))) }
{
    let Ok(stream) = read(scope, source, DEBUG_STREAM)? else {
        return Ok(());
    };
    add_in_debug_stream(scope, &stream, findings)?;
    match DBIHeader::parse(&stream) {
        Ok(header) => add_in_symbol_streams(scope, source, &header, findings),
        Err(_) => Ok(()),
    }
}
