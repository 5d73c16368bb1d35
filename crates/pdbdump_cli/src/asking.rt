//! Questions about a file, read and answered on the program's channels.

ghost use Rattle.pdbdump_cli.specs.Requests.{AreAnswered};
ghost use Rattle.pdbdump_cli.specs.Served.{EndsAnswer, IsFileServed};

use crate::ask;
use crate::input_file::InputFile;
use crate::sentences::tell;
use crate::served::end_as;
use pdb_container::{Result, Source};
use pdb_output::Output;
use pdbdump_rows::Form;
use std::alloc::Global;
use std::io::{Read, Write};

/// Reads questions about a file from an input, and writes the answer to each before more is read.
/// Returns the status with which the program ends: 1 if a question is not answered, or after a fault
/// of the file, which may be that it can't be opened, or of a channel, which is written to the error
/// channel, unless it is that the output was closed.
pub fn serve_questions<S: Source + Drop, Q: Read, O: Write, E: Write>(
    alloc: Global,
    form: Form,
    opened: Result<InputFile<S>>,
    questions: &mut Q,
    out: &mut Output<O>,
    err: &mut Output<E>,
) -> u8
    ensures { IsFileServed S.state (λ file. EndsAnswer (AreAnswered form file) out.old out.new err.old err.new result)
        opened out.old out.new err.old err.new result }
{
    match opened {
        Ok(file) => {
            let answered = ask(alloc, file.source, questions, form, out);
            end_as(alloc, answered, out, err)
        }
        Err(unopened) => tell(alloc, &unopened, err),
    }
}
