//! What `declare` does with a file.

ghost use Rattle.pdbdump_cli.specs.Requests.{type_bytes};
ghost use Rattle.pdbdump_tables.specs.Reading.{AnswersRead};
ghost use Rattle.pdbdump_types.specs.Shown.{ShowsTypes};

use crate::command::Declarations;
use crate::input_file::InputFile;
use crate::laid_out::type_stream;
use pdb_container::{Result, Source};
use pdb_output::Output;
use pdbdump_declarations::declare;
use std::alloc::Global;
use std::io::Write;

/// Writes a header of types of a file, and returns whether each name was found and no type was left
/// out.
pub(crate) fn declare_in<S: Source + Drop, O: Write, E: Write>(
    alloc: Global,
    file: InputFile<S>,
    asked: &Declarations<'_, '_>,
    out: &mut Output<O>,
    err: &mut Output<E>,
) -> Result<bool>
    ensures { AnswersRead (S.state file.source) type_bytes (λ stream. ShowsTypes stream err.old err.new) result }
{
    let stream = type_stream(alloc, file.source)?;
    declare(alloc, stream, asked.names, &asked.options, out, err)
}
