//! Streams of a file, or the errors with which reading them fails.

ghost use Rattle.std.specs.Prelude.{None, Ok};
ghost use Rattle.pdb_msf.specs.Source.{ReadsSource};
ghost use Rattle.pdb_msf.specs.Layout.{stream_by};
ghost use Rattle.pdb_validation.specs.Streams.{answer_of_call};

use crate::scope::Scope;
use pdb_base::{Result, Stream};
use pdb_msf::{CountedSource, Source, comes_from_outside};

/// Reads a stream: returns its bytes, or the error in the file that keeps it from being read.
///
/// # Errors
/// Fails with `IoError` if the source fails, and with `OutOfMemory` if an allocation fails.
pub(crate) fn read<S: Source>(
    scope: &Scope<'_>,
    source: &mut CountedSource<S>,
    number: u32,
) -> Result<Result<Stream>>
    ensures { ReadsSource (S.state source.old.source) (S.state source.new.source) answer_of_call result
        (λ file. Ok (stream_by scope.now.layout.now file number None)) }
{
    match scope.layout.stream(scope.alloc, source, number, None) {
        Ok(stream) => Ok(Ok(stream)),
        Err(error) => {
            if comes_from_outside(&error) {
                return Err(error);
            }
            Ok(Err(error))
        }
    }
}
