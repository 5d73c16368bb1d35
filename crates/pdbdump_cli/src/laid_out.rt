//! What `layout` does with a file.

ghost use Rattle.pdbdump_cli.specs.Requests.{stream_bytes, type_bytes};
ghost use Rattle.pdbdump_tables.specs.Reading.{AnswersRead, Reads};
ghost use Rattle.pdbdump_types.specs.Shown.{ShowsTypes};

use crate::command::Layouts;
use crate::input_file::InputFile;
use pdb_base::Stream;
use pdb_container::{PDB, Result, Source};
use pdb_file::TYPE_STREAM;
use pdb_output::Output;
use pdbdump_layouts::show_layouts;
use pdbdump_rows::Form;
use pdbdump_tables::last_stream;
use std::alloc::Global;
use std::io::Write;

/// Returns the stream of a file that has this number.
pub(crate) fn stream_in<S: Source + Drop>(alloc: Global, source: S, number: u32) -> Result<Stream>
    ensures { Reads (S.state source) (stream_bytes number) result }
{
    let file = PDB::open(alloc, source)?;
    last_stream(alloc, file, number)
}

/// Returns the stream of types of a file.
pub(crate) fn type_stream<S: Source + Drop>(alloc: Global, source: S) -> Result<Stream>
    ensures { Reads (S.state source) type_bytes result }
{
    stream_in(alloc, source, TYPE_STREAM)
}

/// Shows layouts of the classes of a file, and returns whether each name was found and no class has
/// an error.
pub(crate) fn show_in<S: Source + Drop, O: Write, E: Write>(
    alloc: Global,
    file: InputFile<S>,
    asked: &Layouts<'_, '_>,
    form: Form,
    out: &mut Output<O>,
    err: &mut Output<E>,
) -> Result<bool>
    ensures { AnswersRead (S.state file.source) type_bytes (λ stream. ShowsTypes stream err.old err.new) result }
{
    let stream = type_stream(alloc, file.source)?;
    show_layouts(alloc, stream, asked.names, &asked.options, form, out, err)
}
