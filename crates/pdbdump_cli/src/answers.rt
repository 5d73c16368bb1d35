//! The answers to questions about one file, each as it is read.

ghost use Rattle.std.specs.Prelude.{◌≤◌, length, IfOk, Ok, OnOk};
ghost use Rattle.pdbdump_cli.specs.Asked.{IsReady};
ghost use Rattle.pdb_msf.specs.Header.{file_head};
ghost use Rattle.pdbdump_rows.specs.Rows.{WritesLines};
ghost use Rattle.pdbdump_tables.specs.Reading.{AnswersRead};

use crate::answer::{is_answer, write_answered};
use crate::question::{is_line_end, query_in};
use pdb_cli::MOST_READS;
use pdb_container::{BigMSF, OpenTables, Reply, Result, Source, open_msf};
use pdb_output::Output;
use pdbdump_rows::Form;
use std::alloc::Global;
use std::io;
use std::io::{ErrorKind, Read, Write};

/// The number of bytes of questions that are requested at a time.
const BLOCK_SIZE: usize = 65_536;

/// A file that stays open for questions, the tables that stay open between them, and what was read
/// of a line that has not ended.
#[derive(Drop)]
pub struct AskedFile<S: Source> {
    alloc: Global,
    file: BigMSF<S>,
    tables: OpenTables,
    rest: Vec<u8>,
}

/// Reads the next bytes of an input into a block, and returns how many they are: none at its end.
///
/// # Errors
/// Fails with `IoError` if a read fails, or if too many are interrupted.
fn read_block<R: Read>(input: &mut R, block: &mut [u8]) -> Result<usize>
    ensures { IfOk result (λ count. count ≤ length block.new) }
{
    for _ in 0..MOST_READS {
        match input.read(block) {
            Ok(count) => return Ok(count),
            Err(error) if error.kind() == ErrorKind::Interrupted => {}
            Err(error) => return Err(error.into()),
        }
    }
    Err(io::Error::other("each read was interrupted").into())
}

impl<S: Source> AskedFile<S> {
    /// Returns the reply to the question of the line, or None if the line has no question.
    fn reply(&mut self) -> Result<Option<Reply>>
        requires ready { IsReady S.state self.old }
        ensures kept { IsReady S.state self.new }
    {
        match query_in(self.alloc, &self.rest)? {
            Some(query) => Ok(Some(self.tables.reply(self.alloc, &mut self.file, query))),
            None => Ok(None),
        }
    }

    /// Writes the line and the answer to its question, unless the line is empty. Returns whether
    /// the question is answered, if there is one.
    #[tactic(auto, using(pdbdump_rows::proofs::lemmas::Rows::lines_none))]
    fn answer_line<W: Write>(&mut self, form: Form, out: &mut Output<W>) -> Result<bool>
        requires ready { IsReady S.state self.old }
        ensures lines { OnOk result (WritesLines form out.old out.new (Ok tt)) }
        ensures kept { IsReady S.state self.new }
    {
        if self.rest.is_empty() {
            return Ok(true);
        }
        let reply = self.reply()?;
        write_answered(self.alloc, form, &self.rest, reply.as_ref(), out)?;
        self.rest.clear();
        Ok(is_answer(reply.as_ref()))
    }

    /// Adds a byte to the line, or answers the line if the byte ends it. Returns whether its
    /// question is answered, if there is one.
    #[tactic(auto, using(pdbdump_rows::proofs::lemmas::Rows::lines_none))]
    fn take_byte<W: Write>(&mut self, form: Form, byte: u8, out: &mut Output<W>) -> Result<bool>
        requires ready { IsReady S.state self.old }
        ensures lines { OnOk result (WritesLines form out.old out.new (Ok tt)) }
        ensures kept { IsReady S.state self.new }
    {
        if is_line_end(byte) {
            return self.answer_line(form, out);
        }
        self.rest.push(byte)?;
        Ok(true)
    }

    /// Answers the questions of the lines that end in a block of bytes, and keeps what follows
    /// them. Returns whether all are answered.
    #[tactic(auto, using(pdbdump_rows::proofs::lemmas::Rows::lines_none, pdbdump_rows::proofs::lemmas::Rows::lines_more))]
    fn answer_block<W: Write>(
        &mut self,
        form: Form,
        block: &[u8],
        out: &mut Output<W>,
    ) -> Result<bool>
        requires ready { IsReady S.state self.old }
        ensures lines { OnOk result (WritesLines form out.old out.new (Ok tt)) }
        ensures kept { IsReady S.state self.new }
    {
        let mut all = true;
        for byte in block {
            all &= self.take_byte(form, *byte, out)?;
        }
        Ok(all)
    }

    /// Answers the questions in an input to its end, a block at a time. What was answered is flushed
    /// before more is read.
    #[tactic(auto, using(pdbdump_rows::proofs::lemmas::Rows::lines_none))]
    fn answer_all<Q: Read, W: Write>(
        &mut self,
        form: Form,
        questions: &mut Q,
        block: &mut [u8],
        out: &mut Output<W>,
    ) -> Result<bool>
        requires ready { IsReady S.state self.old }
        ensures { OnOk result (WritesLines form out.old out.new (Ok tt)) }
    {
        let mut all = true;
        for _ in 0..MOST_READS {
            out.flush()?;
            let count = read_block(questions, block)?;
            if count == 0 {
                all &= self.answer_line(form, out)?;
                return Ok(all);
            }
            all &= self.answer_block(form, &block[..count], out)?;
        }
        Err(io::Error::other("the input does not end").into())
    }
}

/// Asks a file the questions in an input, one for each line that is not empty, and writes each line
/// and the answer after it, before more is read. Returns whether all are answered. If a question
/// has an error, or a line has no question, the answer is a line that says so, and the other
/// questions are answered all the same.
///
/// The last table of each kind (types, ids, names, OMAP) stays open.
///
/// # Errors
/// Fails as `open_msf` does for the file, before a question is read; with `IoError` if a read of
/// the questions fails, behind the answers to those that were read, or if the writer fails; and
/// with `OutOfMemory` if an allocation for the file, a question or an answer fails.
pub fn ask<S: Source + Drop, Q: Read, W: Write>(
    alloc: Global,
    file: S,
    questions: &mut Q,
    form: Form,
    out: &mut Output<W>,
) -> Result<bool>
    ensures { AnswersRead (S.state file) file_head (λ head all. WritesLines form out.old out.new (Ok tt)) result }
{
    let file = open_msf(alloc, file)?;
    let mut block = vec![in alloc; 0; BLOCK_SIZE]?;
    let mut asked = AskedFile {
        alloc,
        file,
        tables: OpenTables::default(),
        rest: Vec::new(alloc),
    };
    asked.answer_all(form, questions, &mut block, out)
}
