//! The errors of the library, reported in sentences.

ghost use Rattle.pdbdump_cli.specs.Sentences.{IsFaultTold};

use pdb_container::Error;
use pdb_output::Output;
use pdbdump_rows::sentence;
use std::alloc::Global;
use std::io::Write;

/// Writes a fault to the error channel: by a sentence, where its own text is only its name or has an
/// index as a decimal number. Returns the status, which is 1.
#[tactic(auto, unfolding(crate::specs::Sentences::IsFaultTold))]
pub(crate) fn tell<E: Write>(alloc: Global, fault: &Error, err: &mut Output<E>) -> u8
    ensures { IsFaultTold fault.now err.old err.new result }
{
    if let Ok(Some(mut line)) = sentence(alloc, fault) {
        if line.push(b'\n').is_ok() {
            err.report(&line);
            return 1;
        }
    }
    pdb_cli::tell(alloc, fault, err)
}
