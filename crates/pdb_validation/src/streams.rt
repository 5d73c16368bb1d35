//! The bytes of each stream.

ghost use Rattle.std.specs.Prelude.{◌++◌, map, Ok};
ghost use Rattle.std.specs.Option.{option_map};
ghost use Rattle.pdb_msf.specs.Source.{ReadsSource};
ghost use Rattle.pdb_validation.specs.Finding.{by_extent, finding_view};
ghost use Rattle.pdb_validation.specs.Streams.{bytes_fault, streams_faults};

use crate::finding::{Finding, Part, add_until, in_stream};
use crate::problem::Problem;
use crate::read::read;
use crate::scope::Scope;
use pdb_base::{Error, Result};
use pdb_msf::{CountedSource, Source};

/// Returns the finding that the bytes of a stream can't be read, unless there is no such stream.
#[tactic(auto, unfolding(crate::specs::Streams::bytes_fault))]
fn check_bytes<S: Source>(
    scope: &Scope<'_>,
    source: &mut CountedSource<S>,
    number: u32,
) -> Result<Option<Finding>>
    ensures { ReadsSource (S.state source.old.source) (S.state source.new.source) (option_map finding_view) result
        (λ file. Ok (bytes_fault scope.now.layout.now file number)) }
{
    match read(scope, source, number)? {
        Ok(_) => Ok(None),
        Err(Error::StreamNotFound(_)) => Ok(None),
        Err(error) => Ok(Some(in_stream(Part::Stream, number, Problem::Error(error)))),
    }
}

/// Adds the findings of the first streams whose bytes can't be read.
pub(crate) fn add_streams<S: Source>(
    scope: &Scope<'_>,
    source: &mut CountedSource<S>,
    count: u32,
    findings: &mut Vec<Finding>,
) -> Result<()>
    ensures { ReadsSource (S.state source.old.source) (S.state source.new.source)
        (λ done. map finding_view findings.new.items) result (λ file. Ok (map finding_view findings.old.items
        ++ by_extent scope.now.extent (streams_faults scope.now.layout.now file count))) }
{
    for number in 0..count {
        let found = check_bytes(scope, source, number)?;
        if add_until(scope.extent, findings, found)? {
            return Ok(());
        }
    }
    Ok(())
}
