//! Channels: inputs that are slow, interrupted, failing or too long, and outputs that are slow or
//! failing. An error of a channel has a text of its own, which is printed unchanged. The input is
//! read before the words are looked at, so that where it fails, bad words are not reported.

use super::printed::ABSENT_2;
use pdb_base::{Error, Result};
use pdb_cli::{read_all, read_within, serve};
use pdb_fixtures::{GONE, STREAM_1_LINES, s1};
use pdb_output::Output;
use std::alloc::Global;
use std::env::Args;
use std::io;
use std::io::{ErrorKind, Read, Write};
use std::test::Fail;

/// An input of so many sevens, a few of them a read, of which one read fails.
#[derive(Drop)]
struct Sevens {
    left: usize,
    at_once: usize,
    fault: Option<(usize, ErrorKind)>,
}

impl Read for Sevens {
    fn read(&mut self, room: &mut [u8]) -> io::Result<usize> {
        if let Some((bytes, kind)) = self.fault {
            if self.left <= bytes {
                self.fault = None;
                return Err(io::Error::new(kind, GONE));
            }
        }
        let count = self.left.min(self.at_once).min(room.len());
        room[..count].fill(7);
        self.left -= count;
        Ok(count)
    }
}

impl Sevens {
    fn new(left: usize, at_once: usize, fault: Option<(usize, ErrorKind)>) -> Self {
        Sevens {
            left,
            at_once,
            fault,
        }
    }
}

/// How many sevens an input has, how many come at once, and with how many left a read fails, and
/// how; the most reads, if they are bounded; and the error of the input, if it isn't read whole.
type Input = (
    usize,
    usize,
    Option<(usize, ErrorKind)>,
    Option<u32>,
    Option<ErrorKind>,
);

/// The kinds of failed reads.
const INTERRUPTED: ErrorKind = ErrorKind::Interrupted;

const DENIED: ErrorKind = ErrorKind::PermissionDenied;

const INPUTS: &[Input] = rows! {
    0, 1, None, None, None;
    100_000, 1, None, None, None;
    1_100_000, 1, None, None, None;
    100_000, 65_536, None, None, None;
    100_000, 65_536, Some((100_000, INTERRUPTED)), None, None;
    200_000, 70_000, Some((70_000, INTERRUPTED)), None, None;
    100_000, 10_000, Some((100_000, DENIED)), None, Some(DENIED);
    100_000, 10_000, Some((30_000, DENIED)), None, Some(DENIED);
    100_000, 10_000, Some((0, DENIED)), None, Some(DENIED);
    usize::MAX, usize::MAX, None, Some(3), Some(ErrorKind::Other);
    20, 10, None, Some(2), Some(ErrorKind::Other);
    20, 10, None, Some(3), None;
};

/// Reads an input, with no more than so many reads if they are bounded.
fn read(alloc: Global, input: &mut Sevens, most: Option<u32>) -> Result<Vec<u8>> {
    match most {
        Some(most) => read_within(alloc, input, most),
        None => read_all(alloc, input),
    }
}

/// Whether these are so many sevens.
fn are_sevens(bytes: &[u8], count: usize) -> bool {
    for byte in bytes {
        if *byte != 7 {
            return false;
        }
    }
    bytes.len() == count
}

/// Whether reading an input fails with an `IoError` of a kind, or gives so many sevens if it isn't
/// to fail.
fn is_read(read: Result<Vec<u8>>, count: usize, refused: Option<ErrorKind>) -> bool {
    match (&read, refused) {
        (Ok(bytes), None) => are_sevens(bytes, count),
        (Err(Error::IoError(error)), Some(kind)) => error.kind() == kind,
        _ => false,
    }
}

/// Whether an input is read as its case says.
fn is_input(alloc: Global, row: &Input) -> bool {
    let (left, at_once, fault, most, refused) = *row;
    let mut input = Sevens::new(left, at_once, fault);
    is_read(read(alloc, &mut input, most), left, refused)
}

#[test]
fn inputs(rt: HostRuntime) {
    for row in INPUTS {
        assert!(rt;
            is_input(rt.alloc(), row),
            "{} sevens, {} at once",
            row.0,
            row.1
        );
    }
}

/// An output that takes a few bytes at a time, and then as many as it has room for.
#[derive(Drop)]
struct Slow {
    taken: Vec<u8>,
    at_once: usize,
    room: usize,
}

impl Write for Slow {
    fn write(&mut self, bytes: &[u8]) -> io::Result<usize> {
        let count = bytes.len().min(self.at_once).min(self.room);
        if count == 0 && !bytes.is_empty() {
            return Err(io::Error::new(ErrorKind::StorageFull, GONE));
        }
        self.taken.extend_from_slice(&bytes[..count])?;
        self.room -= count;
        Ok(count)
    }

    fn flush(&mut self) -> io::Result<()> {
        Ok(())
    }
}

impl Slow {
    fn new(alloc: Global, at_once: usize, room: usize) -> Self {
        Slow {
            taken: Vec::new(alloc),
            at_once,
            room,
        }
    }
}

/// How the line of an error of the system begins, and the line of one of a channel.
const IO_ERROR: &str = "IO error while reading PDB: ";

const TOLD: &str = "IO error while reading PDB: the disk is gone\n";

/// What the system hands over: words, or an error.
pub(crate) type Words = std::result::Result<&'static [&'static str], ErrorKind>;

/// What is read.
#[derive(Clone, Copy)]
enum Source {
    /// No byte.
    Empty,
    /// S1.
    Example,
    /// A hundred sevens, of which a read fails.
    Hundred(Option<(usize, ErrorKind)>),
}

use Source::{Empty, Example, Hundred};

/// The words, and the input. The output: how many bytes it takes at once, how many it has room for,
/// and what it gets. The channel of errors: these two numbers, and the beginning of what it gets.
/// And the status.
type Call = (
    Words,
    Source,
    (usize, usize, &'static str),
    (usize, usize, &'static str),
    u8,
);

const CALLS: &[Call] = rows! {
    Ok(&["stream", "3"]), Example, (3, 100, "68656c6c6f\n"), (5, 200, ""), 0;
    Ok(&["stream", "2"]), Example, (3, 100, ""), (5, 200, ABSENT_2), 1;
    Ok(&["stream"]), Example, (3, 100, ""), (5, 200, "usage: pdbq "), 2;
    Ok(&["stream", "3"]), Example, (3, 10, "68656c6c6f"), (5, 200, TOLD), 1;
    Ok(&["stream", "3"]), Example, (3, 0, ""), (5, 200, TOLD), 1;
    Ok(&[]), Hundred(None), (1000, 10_000, STREAM_1_LINES), (1000, 10_000, ""), 0;
    Ok(&[]), Hundred(None), (1000, 0, ""), (1000, 200, TOLD), 1;
    Err(ErrorKind::InvalidData), Empty, (100, 100, ""), (100, 200, "usage: pdbq "), 2;
    Err(ErrorKind::OutOfMemory), Empty, (100, 100, ""), (100, 200, "OutOfMemory\n"), 1;
    Err(DENIED), Empty, (100, 100, ""), (100, 200, IO_ERROR), 1;
    Ok(&["stream"]), Empty, (100, 100, ""), (100, 0, ""), 2;
};

/// Words, good and bad, with which an input is read that fails.
const UNREAD: &[Words] = &[
    Ok(&["stream", "1"]),
    Ok(&["stream"]),
    Ok(&["streams", "3"]),
    Ok(&["stream", "-1"]),
    Ok(&["stream", "4294967296"]),
    Ok(&[""]),
    Err(ErrorKind::InvalidData),
];

/// Whether a call with these words prints the error of an input that fails at a read.
fn is_unread(alloc: Global, words: &Words) -> Result<bool> {
    let input = Hundred(Some((50, DENIED)));
    is_called(alloc, &(*words, input, (100, 100, ""), (100, 200, TOLD), 1))
}

/// What the system hands over, behind the program's name.
pub(crate) fn arguments(alloc: Global, words: &Words) -> Result<io::Result<Args>> {
    let words = match words {
        Ok(words) => words,
        Err(kind) => return Ok(Err(io::Error::from(*kind))),
    };
    let mut call = Vec::new(alloc);
    call.push(String::from_str(alloc, "pdbq")?)?;
    for word in *words {
        call.push(String::from_str(alloc, word)?)?;
    }
    Ok(Ok(call.into_iter()))
}

/// Whether a channel of errors got this line, or something that begins so if no whole line is
/// wanted, or nothing if nothing is.
fn is_told(got: &[u8], wanted: &str) -> bool {
    if wanted.is_empty() || wanted.ends_with("\n") {
        got == wanted.as_bytes()
    } else {
        got.starts_with(wanted.as_bytes())
    }
}

/// Whether a call over an input ends, and writes, as its case says.
fn is_served<I: Read>(alloc: Global, row: &Call, input: &mut I) -> Result<bool> {
    let (words, _, (out_at_once, out_room, wanted), (at_once, room, told), status) = row;
    let words = arguments(alloc, words)?;
    let mut out = Output::new(Slow::new(alloc, *out_at_once, *out_room));
    let mut err = Output::new(Slow::new(alloc, *at_once, *room));
    let ended = serve(alloc, words, input, &mut out, &mut err);
    let has_room = *room > 0;
    Ok(
        ended == *status
            && err.has_failed() != has_room
            && out.into_inner().taken.as_slice() == wanted.as_bytes()
            && is_told(&err.into_inner().taken, told),
    )
}

/// Whether a call over S1 ends so.
fn is_served_of_s1(alloc: Global, row: &Call) -> Result<bool> {
    let file = s1(alloc)?;
    is_served(alloc, row, &mut file.as_slice())
}

/// Whether a call over sevens ends so, and reads none if there are no words.
fn is_served_of_sevens(
    alloc: Global,
    row: &Call,
    fault: Option<(usize, ErrorKind)>,
) -> Result<bool> {
    let mut input = Sevens::new(100, 10, fault);
    let is_served = is_served(alloc, row, &mut input)?;
    Ok(is_served && (input.left == 100) == matches!(row.0, Ok([])))
}

/// Whether a call ends as its case says.
fn is_called(alloc: Global, row: &Call) -> Result<bool> {
    match row.1 {
        Empty => is_served(alloc, row, &mut b"".as_slice()),
        Example => is_served_of_s1(alloc, row),
        Hundred(fault) => is_served_of_sevens(alloc, row, fault),
    }
}

#[test]
fn calls(rt: HostRuntime) -> std::result::Result<(), Fail> {
    for row in CALLS {
        assert!(rt; is_called(rt.alloc(), row)?, "status {}, {}", row.4, row.3.2);
    }
    for words in UNREAD {
        assert!(rt; is_unread(rt.alloc(), words)?, "{words:?}");
    }
    Ok(())
}
