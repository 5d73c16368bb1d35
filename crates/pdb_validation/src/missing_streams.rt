//! Streams that have a name or a role.

ghost use Rattle.std.specs.Prelude.{◌≡◌, ◌++◌, Ok};
ghost use Rattle.pdb_base.specs.Answer.{Answers};
ghost use Rattle.pdb_msf.specs.Layout.{size_by};
ghost use Rattle.pdb_validation.specs.Mismatch.{asked_of, with_further};
ghost use Rattle.pdb_validation.specs.MissingStreams.{index_mismatch, indexes_mismatches, is_missing};
ghost use Rattle.pdb_validation.specs.MissingStreams.{names_mismatches};
ghost use Rattle.pdb_validation.specs.MissingStreams.{role_indexes, symbol_indexes};

use crate::inconsistency::Inconsistency;
use crate::mismatch::{Extent, Mismatch, add};
use crate::names::INFORMATION_STREAM;
use crate::roles::DEBUG_STREAM;
use crate::scope::Scope;
use pdb_base::{Error, Result, StreamIndex};
use pdb_file::{DBIExtraStreams, DBIHeader, StreamNames};
use pdb_msf::Layout;

/// Returns whether a layout has no stream of a number.
pub(crate) fn is_missing(layout: &Layout, number: u32) -> bool
    ensures { result ≡ is_missing (size_by layout.now number) }
{
    match layout.stream_size(number) {
        Err(Error::StreamNotFound(_)) => true,
        _ => false,
    }
}

/// Returns the mismatch of an index that names a stream which the layout does not have. A stream
/// says the index.
fn index_mismatch(layout: &Layout, stream: u32, index: StreamIndex) -> Option<Mismatch>
    ensures { result ≡ index_mismatch layout.now stream index.0 }
{
    let number = index.msf_number()?;
    is_missing(layout, number).then_some(Mismatch {
        stream: Some(stream),
        index: None,
        byte: None,
        what: Inconsistency::StreamMissing(number),
    })
}

/// Adds the mismatches of some indexes.
#[tactic(auto, unfolding(crate::specs::MissingStreams::indexes_mismatches))]
fn add_missing(
    layout: &Layout,
    stream: u32,
    indexes: &[StreamIndex],
    extent: Extent,
    mismatches: &mut Vec<Mismatch>,
) -> Result<()>
    ensures { Answers (λ done. mismatches.new.items) result
        (Ok (with_further extent mismatches.old.items (indexes_mismatches layout.now stream indexes.now))) }
{
    for index in indexes {
        add(mismatches, extent, index_mismatch(layout, stream, *index))?;
    }
    Ok(())
}

/// Returns the streams that have a name in stream 1 and that the layout does not have. All are
/// returned, or one, as `extent` says.
///
/// # Errors
/// Fails with `OutOfMemory` if an allocation fails.
pub(crate) fn check_named_streams(
    scope: &Scope<'_>,
    names: &StreamNames<'_>,
) -> Result<Vec<Mismatch>>
    ensures { Answers (λ mismatches. mismatches.items) result
        (Ok (asked_of scope.now.extent (names_mismatches scope.now.layout.now names.now))) }
{
    let mut mismatches = Vec::new(scope.alloc);
    let entries = names.as_slice();
    for name in entries {
        add(
            &mut mismatches,
            scope.extent,
            index_mismatch(scope.layout, INFORMATION_STREAM, name.stream_id),
        )?;
    }
    Ok(mismatches)
}

/// Returns the streams to which stream 3 gives a role and that the layout does not have: those of
/// the symbols, by the header, and those of the debug header (`NewDBIHdr` and `DBGTYPE` in
/// Microsoft's dbi.h). All are returned, or one, as `extent` says.
///
/// # Errors
/// Fails with `OutOfMemory` if an allocation fails.
pub(crate) fn check_roles(
    scope: &Scope<'_>,
    header: &DBIHeader,
    roles: &DBIExtraStreams,
) -> Result<Vec<Mismatch>>
    ensures { Answers (λ mismatches. mismatches.items) result
        (Ok (asked_of scope.now.extent (indexes_mismatches scope.now.layout.now 3 (symbol_indexes header.now)
        ++ indexes_mismatches scope.now.layout.now 3 (role_indexes roles.now)))) }
{
    let mut mismatches = Vec::new(scope.alloc);
    let symbols = [
        header.gs_symbols_stream,
        header.ps_symbols_stream,
        header.symbol_records_stream,
    ];
    add_missing(
        scope.layout,
        DEBUG_STREAM,
        &symbols,
        scope.extent,
        &mut mismatches,
    )?;
    let roles = [
        roles.fpo,
        roles.exception,
        roles.fixup,
        roles.omap_to_src,
        roles.omap_from_src,
        roles.section_headers,
        roles.token_rid_map,
        roles.xdata,
        roles.pdata,
        roles.framedata,
        roles.original_section_headers,
    ];
    add_missing(
        scope.layout,
        DEBUG_STREAM,
        &roles,
        scope.extent,
        &mut mismatches,
    )?;
    Ok(mismatches)
}
