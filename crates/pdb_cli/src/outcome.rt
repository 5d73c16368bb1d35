//! What the program does with its words and a file, apart from input and output.

ghost use Rattle.std.specs.Prelude.{◌⊎◌, map, IfOk};
ghost use Rattle.pdb_base.specs.Memory.{FailsOnlyForMemory};
ghost use Rattle.pdb_container.specs.Refusal.{refusal_of, out_of_memory};
ghost use Rattle.pdb_container.specs.Reply.{IsReply, answer_of};
ghost use Rattle.pdb_cli.specs.Printed.{IsAnsweredBy, IsRefused, IsUsage, IsOutcomeOf, ShowsReply, question_of, Shows};

use crate::lines::reply_lines;
use crate::refusal::error_line;
use crate::words;
use pdb_container::{Error, Query, Reply, Result, run};
use pdb_fixtures::s1;
use std::alloc::Global;

/// What the program writes, and the status that it ends with.
#[derive(Debug, Drop)]
pub struct Outcome {
    /// The exit status: 0 for an answer, 1 for an error, 2 for bad words.
    pub status: u8,
    /// What goes to standard output.
    pub out: Vec<u8>,
    /// What goes to standard error.
    pub err: Vec<u8>,
}

/// Returns the outcome of an answer: status 0, and its lines on standard output.
fn answer_outcome(alloc: Global, out: Vec<u8>) -> Outcome
    ensures { IsAnsweredBy out.items result }
{
    Outcome {
        status: 0,
        out,
        err: Vec::new(alloc),
    }
}

/// Returns the outcome of an error: status 1, and its text on a line of standard error.
fn error_outcome(alloc: Global, error: &Error) -> Result<Outcome>
    ensures ok { IfOk result (IsRefused (refusal_of error.now)) }
    ensures memory { FailsOnlyForMemory result }
{
    Ok(Outcome {
        status: 1,
        out: Vec::new(alloc),
        err: error_line(alloc, error)?,
    })
}

/// Returns the outcome of bad words: status 2, and how to call the program on a line of standard
/// error.
///
/// # Errors
/// Fails with `OutOfMemory` if an allocation fails.
pub fn usage(alloc: Global) -> Result<Outcome>
    ensures ok { IfOk result IsUsage }
    ensures memory { FailsOnlyForMemory result }
{
    let usage =
        b"usage: pdbq stream N [LIMIT] | type S I | id S I | name S O | ranges S A B | fields S I\n".as_slice();
    Ok(Outcome {
        status: 2,
        out: Vec::new(alloc),
        err: Vec::from_slice(alloc, usage)?,
    })
}

/// Returns the outcome of a reply: status 0 with its lines on standard output, or status 1 for an
/// error.
fn reply_outcome(alloc: Global, reply: &Reply) -> Result<Outcome>
    ensures ok { IfOk result (ShowsReply reply.now) }
    ensures memory { FailsOnlyForMemory result }
{
    match reply {
        Reply::Refused(error) => error_outcome(alloc, error),
        reply => Ok(answer_outcome(alloc, reply_lines(alloc, reply)?)),
    }
}

/// Returns the reply of a run with one query. If the file can't be opened, that error is the reply.
fn reply_to(alloc: Global, file: Vec<u8>, query: Query) -> Reply
    ensures { IsReply ⊥ result (answer_of file.items query) }
{
    match run(alloc, file, &[query]) {
        Ok(mut replies) => match replies.pop() {
            Some(reply) => reply,
            None => unreachable!(),
        },
        Err(error) => Reply::Refused(error),
    }
}

/// Answers a query about a file and returns the outcome: status 0 with the reply on standard
/// output, or status 1.
fn answer(alloc: Global, file: Vec<u8>, query: Query) -> Result<Outcome>
    ensures ok { IfOk result (λ o. IsOutcomeOf (answer_of file.items query) o ⊎ IsRefused out_of_memory o) }
    ensures memory { FailsOnlyForMemory result }
{
    reply_outcome(alloc, &reply_to(alloc, file, query))
}

/// Does what the program does, apart from input and output: parses the words as a query, answers it
/// about the file, and returns what to write and the status to end with. Without words the query is
/// for stream 1 of the example file S1.
///
/// # Errors
/// Fails with `OutOfMemory` if an allocation fails.
pub fn act(alloc: Global, words: &[&str], file: Vec<u8>) -> Result<Outcome>
    ensures ok { IfOk result (Shows (question_of (map (λ word. word.now) words.now) file.items)) }
    ensures memory { FailsOnlyForMemory result }
{
    if words.is_empty() {
        let example = s1(alloc)?;
        let query = Query::Stream {
            number: 1,
            limit: None,
        };
        return answer(alloc, example, query);
    }
    match words::query(words) {
        Some(query) => answer(alloc, file, query),
        None => usage(alloc),
    }
}
