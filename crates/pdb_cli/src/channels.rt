//! The program between its channels: what it reads, what it writes, and how it ends.

ghost use Rattle.std.specs.Prelude.{◌≡◌, [], map, string_bytes, IfOk, IfErr, OnErr};
ghost use Rattle.pdb_cli.specs.Channels.{IsOutputCut, IsFault, IsServed, IsShownOf, IsShownOfCall, IsFaultReported};
ghost use Rattle.pdb_cli.specs.Channels.{IsOutcomeWritten};

use crate::arguments::{texts_of, words_of};
use crate::input::read_all;
use crate::outcome::{Outcome, act, usage};
use crate::refusal::error_line;
use pdb_container::{Error, Result};
use pdb_output::Output;
use std::alloc::Global;
use std::env::Args;
use std::io;
use std::io::{ErrorKind, Read, Write};

/// The line that is written if there is no memory for another.
const NO_MEMORY: &[u8] = b"OutOfMemory\n";

/// Returns the outcome of the query that the words after the program's name spell, for the file in
/// an input. Without words nothing is read.
fn act_on<I: Read>(alloc: Global, words: &[String], input: &mut I) -> Result<Outcome>
    ensures shown { IfOk result (IsShownOf (map string_bytes words.now) (I.remaining input.old)) }
    ensures unread { words.now ≡ [] → input.new ≡ input.old }
    ensures refused { IfErr result IsFault }
{
    if words.is_empty() {
        return act(alloc, &[], Vec::new(alloc));
    }
    let file = read_all(alloc, input)?;
    let texts = texts_of(alloc, words)?;
    act(alloc, &texts, file)
}

/// Returns the outcome of the words that the system hands over. If one of them isn't a text, the
/// outcome is that of bad words, and the input is read all the same.
///
/// # Errors
/// Fails with the error of reading the words or the input, or with `OutOfMemory` if an allocation
/// fails.
fn attempt<I: Read>(alloc: Global, arguments: io::Result<Args>, input: &mut I) -> Result<Outcome>
    ensures shown { IfOk result (IsShownOfCall arguments (I.remaining input.old)) }
    ensures refused { IfErr result IsFault }
{
    match arguments {
        Ok(arguments) => {
            let words = words_of(alloc, arguments)?;
            act_on(alloc, &words, input)
        }
        Err(error) if error.kind() == ErrorKind::InvalidData => {
            read_all(alloc, input)?;
            usage(alloc)
        }
        Err(error) if error.kind() == ErrorKind::OutOfMemory => Err(Error::OutOfMemory),
        Err(error) => Err(Error::from(error)),
    }
}

/// Writes an outcome, each part to its output, flushes standard output, and returns the status.
///
/// # Errors
/// Fails if standard output fails, which may then have got a prefix of its part.
fn show<O: Write, E: Write>(
    outcome: &Outcome,
    out: &mut Output<O>,
    err: &mut Output<E>,
) -> Result<u8>
    ensures ok { IfOk result (IsOutcomeWritten outcome.now out.old out.new err.old err.new) }
    ensures cut { IfErr result (IsOutputCut outcome.now out.old out.new) }
    ensures err { OnErr result (err.new ≡ err.old) }
{
    out.write(&outcome.out)?;
    out.flush()?;
    err.report(&outcome.err);
    Ok(outcome.status)
}

/// Writes the line of a fault to standard error, or `OutOfMemory` if there is no memory for that
/// line. Returns the status, which is 1.
pub fn tell<E: Write>(alloc: Global, fault: &Error, err: &mut Output<E>) -> u8
    ensures { IsFaultReported fault.now err.old err.new result }
{
    match error_line(alloc, fault) {
        Ok(line) => err.report(&line),
        Err(_) => err.report(NO_MEMORY),
    }
    1
}

/// Serves one call of the program: reads the input if there are words after the program's name,
/// answers the query that they spell about the file in it, writes the answer, or why there is none,
/// and returns the exit status: 0 if the query was answered, 1 if something failed, 2 for bad
/// words.
pub fn serve<I: Read, O: Write, E: Write>(
    alloc: Global,
    arguments: io::Result<Args>,
    input: &mut I,
    out: &mut Output<O>,
    err: &mut Output<E>,
) -> u8
    ensures { IsServed arguments (I.remaining input.old) out.old out.new err.old err.new result }
{
    let outcome = match attempt(alloc, arguments, input) {
        Ok(outcome) => outcome,
        Err(fault) => return tell(alloc, &fault, err),
    };
    match show(&outcome, out, err) {
        Ok(status) => status,
        Err(fault) => tell(alloc, &fault, err),
    }
}
