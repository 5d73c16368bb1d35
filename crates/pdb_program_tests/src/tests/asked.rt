//! What S1 answers to questions, case by case.

use pdb_base::Error;
use pdb_container::Result;
use pdb_fixtures::{s1, s1_with};
use pdb_output::Output;
use pdbdump_cli::ask;
use pdbdump_rows::Form;
use std::alloc::Global;
use std::cell::RefCell;
use std::io;
use std::io::{BufWriter, ErrorKind, Read, Write};
use std::test::Fail;

/// Questions, of which so many bytes are read at a time, whether the last read was interrupted, as
/// each other read is, and whether a read fails in the end.
#[derive(Drop)]
struct Questions<'t> {
    bytes: &'t [u8],
    at_once: usize,
    was_interrupted: bool,
    is_failing: bool,
}

impl Read for Questions<'_> {
    fn read(&mut self, room: &mut [u8]) -> io::Result<usize> {
        self.was_interrupted = !self.was_interrupted;
        if self.was_interrupted {
            return Err(io::Error::from(ErrorKind::Interrupted));
        }
        if self.bytes.is_empty() && self.is_failing {
            return Err(io::Error::from(ErrorKind::PermissionDenied));
        }
        let count = self.bytes.len().min(self.at_once).min(room.len());
        room[..count].copy_from_slice(&self.bytes[..count]);
        self.bytes = &self.bytes[count..];
        Ok(count)
    }
}

/// A case: the questions, the form, what is written, and whether all are answered.
type Asked = (&'static [u8], Form, &'static str, bool);

const ASKED: &[Asked] = rows! {
    b"", Form::Text, "", true;
    b"stream 3\nstream 0x3 2\n", Form::Text, "question=stream 3\nbytes=68656c6c6f\nquestion=stream 0x3 2\nbytes=6865\n", true;
    b"stream 9\r\n\r\n \tstream\t3 ", Form::Text,
        "question=stream 9\nerror=The requested stream (9) is not stored in this file\n\
        question= \\tstream\\t3 \nbytes=68656c6c6f\n",
        false;
    b"strom 3\ntype 3\xff 1\nranges 0 1 2", Form::Json,
        "{\"question\":\"strom 3\"}\n{\"error\":\"no question: stream N [LIMIT] | type S I | id S I | name S O | ranges S A B | fields S I\"}\n\
        {\"question\":\"type 3\u{fffd} 1\"}\n{\"error\":\"no question: stream N [LIMIT] | type S I | id S I | name S O | ranges S A B | fields S I\"}\n\
        {\"question\":\"ranges 0 1 2\"}\n",
        false;
    b"stream 3", Form::Json, "{\"question\":\"stream 3\"}\n{\"bytes\":\"68656c6c6f\"}\n", true;
};

/// Whether S1 answers this, of questions that are read so many bytes at a time.
fn answers(alloc: Global, row: &Asked, at_once: usize) -> Result<bool> {
    let (bytes, form, lines, all) = *row;
    let mut questions = Questions {
        bytes,
        at_once,
        was_interrupted: false,
        is_failing: false,
    };
    let mut out = Output::new(Vec::new(alloc));
    let answered = ask(alloc, s1(alloc)?, &mut questions, form, &mut out)?;
    Ok(answered == all && out.into_inner().as_slice() == lines.as_bytes())
}

/// A string table whose only name looks like the line of a question, and would end a line.
const HOSTILE_NAMES: &[u8] =
    b"\xfe\xef\xfe\xef\x01\0\0\0\x12\0\0\0\0question=stream\n\0\0\0\0\0\0\0\0\0";

/// What is answered to a question for that name.
const HOSTILE_ANSWER: &[u8] = b"question=name 3 1\nstring=question=stream\\n\n";

/// Whether that is answered to it.
fn is_name_escaped(alloc: Global) -> Result<bool> {
    let mut out = Output::new(Vec::new(alloc));
    let mut questions = b"name 3 1".as_slice();
    let file = s1_with(alloc, HOSTILE_NAMES)?;
    let answered = ask(alloc, file, &mut questions, Form::Text, &mut out)?;
    Ok(answered && out.into_inner().as_slice() == HOSTILE_ANSWER)
}

#[test]
fn each_question(rt: HostRuntime) -> std::result::Result<(), Fail> {
    for row in ASKED {
        for at_once in [1, 5, 100_000] {
            let (questions, _, lines, _) = row;
            let is_answered = answers(rt.alloc(), row, at_once)?;
            assert!(rt; is_answered, "{questions:?}, {at_once} at once: {lines}");
        }
    }
    assert!(rt; is_name_escaped(rt.alloc())?);
    Ok(())
}

/// Whether the error is the one with which these questions fail.
fn is_denied(found: &Result<bool>) -> bool {
    matches!(found, Err(Error::IoError(fault)) if fault.kind() == ErrorKind::PermissionDenied)
}

#[test]
fn unread_questions(rt: HostRuntime) -> std::result::Result<(), Fail> {
    let mut questions = Questions {
        bytes: b"stream 3 1\nstream 3 2\nstream 3",
        at_once: 4,
        was_interrupted: false,
        is_failing: true,
    };
    let mut out = Output::new(Vec::new(rt.alloc()));
    let file = s1(rt.alloc())?;
    let found = ask(rt.alloc(), file, &mut questions, Form::Text, &mut out);
    let written = out.into_inner();
    let wanted: &[u8] = b"question=stream 3 1\nbytes=68\nquestion=stream 3 2\nbytes=6865\n";
    let is_well = is_denied(&found) && written.as_slice() == wanted;
    assert!(rt; is_well, "{written:?}");
    Ok(())
}

/// An output that is seen by those who write the questions.
#[derive(Drop)]
struct Seen<'t>(&'t RefCell<Vec<u8>>);

impl Write for Seen<'_> {
    fn write(&mut self, bytes: &[u8]) -> io::Result<usize> {
        match self.0.try_borrow_mut() {
            Ok(mut seen) => {
                seen.extend_from_slice(bytes)?;
                Ok(bytes.len())
            }
            Err(_) => Err(io::Error::from(ErrorKind::ResourceBusy)),
        }
    }

    fn flush(&mut self) -> io::Result<()> {
        Ok(())
    }
}

/// Questions that are written one after another, each once so many bytes of answers are seen.
#[derive(Drop)]
struct Talk<'t> {
    parts: &'t [(&'t [u8], usize)],
    at: usize,
    seen: &'t RefCell<Vec<u8>>,
}

impl Read for Talk<'_> {
    fn read(&mut self, room: &mut [u8]) -> io::Result<usize> {
        let Some((part, length)) = self.parts.get(self.at) else {
            return Ok(0);
        };
        let is_seen = matches!(self.seen.try_borrow(), Ok(seen) if seen.len() == *length);
        if !is_seen || part.len() > room.len() {
            return Err(io::Error::from(ErrorKind::WouldBlock));
        }
        room[..part.len()].copy_from_slice(part);
        self.at = self.at.saturating_add(1);
        Ok(part.len())
    }
}

/// Parts of questions, and how many bytes of answers are seen before each is written.
const TALK: &[(&[u8], usize)] = &[
    (b"stream 3 1\n", 0),
    (b"stream 3", 29),
    (b" 2\nstream 9\nstr", 29),
    (b"eam 3 1", 136),
];

#[test]
fn answers_before_the_next(rt: HostRuntime) -> std::result::Result<(), Fail> {
    let seen = RefCell::new(Vec::new(rt.alloc()));
    let mut questions = Talk {
        parts: TALK,
        at: 0,
        seen: &seen,
    };
    let buffer = BufWriter::with_capacity(rt.alloc(), 1000, Seen(&seen))?;
    let mut out = Output::new(buffer);
    let file = s1(rt.alloc())?;
    let answered = ask(rt.alloc(), file, &mut questions, Form::Text, &mut out);
    let is_well = matches!(answered, Ok(false)) && questions.at == TALK.len();
    assert!(rt; is_well, "{answered:?}");
    Ok(())
}
