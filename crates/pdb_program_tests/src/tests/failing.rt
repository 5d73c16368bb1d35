//! Outputs and inputs that fail at each of their calls in turn.

use super::channels::arguments;
use super::uses::build_file;
use pdb_base::Result;
use pdb_output::Output;
use pdbdump_cli::{FileBytes, InputFile, parse, request_of, serve, serve_questions};
use pdbdump_rows::Form;
use std::alloc::Global;
use std::io;
use std::io::{ErrorKind, Read, Write};
use std::test::Fail;

/// A channel that fails at a call: it holds what it took, and how many bytes of it are flushed, or
/// gives what is left of its bytes.
#[derive(Drop)]
struct Failing {
    bytes: Vec<u8>,
    flushed: usize,
    at: usize,
    calls: usize,
    kind: ErrorKind,
}

impl Failing {
    fn new(bytes: Vec<u8>, calls: usize, kind: ErrorKind) -> Self {
        Failing {
            bytes,
            flushed: 0,
            at: 0,
            calls,
            kind,
        }
    }

    /// Counts a call, and fails if it is the one to fail at.
    fn call(&mut self) -> io::Result<()> {
        if self.calls == 0 {
            return Err(io::Error::from(self.kind));
        }
        self.calls -= 1;
        Ok(())
    }
}

impl Write for Failing {
    fn write(&mut self, bytes: &[u8]) -> io::Result<usize> {
        self.call()?;
        self.bytes.extend_from_slice(bytes)?;
        Ok(bytes.len())
    }

    fn flush(&mut self) -> io::Result<()> {
        self.call()?;
        self.flushed = self.bytes.len();
        Ok(())
    }
}

impl Read for Failing {
    fn read(&mut self, room: &mut [u8]) -> io::Result<usize> {
        self.call()?;
        let Some(rest) = self.bytes.get(self.at..) else {
            return Ok(0);
        };
        let count = rest.len().min(room.len()).min(1000);
        room[..count].copy_from_slice(&rest[..count]);
        self.at = self.at.saturating_add(count);
        Ok(count)
    }
}

/// A program between its channels.
#[derive(Clone, Copy, Debug)]
enum Served {
    /// The bytes of stream 1 that `pdbq` prints.
    Query,
    /// The OMAP records that `pdbdump` lists.
    Records(Form),
    /// The answers of `pdbdump ask` to two questions.
    Answers(Form),
    /// The key that `pdbdump id` writes.
    Key(Form),
    /// The stream that `pdbdump extract` writes.
    Stream,
    /// What `pdbdump validate` finds.
    Findings(Form),
    /// The layout of a class that `pdbdump layout` shows.
    Layout(Form),
}

/// The status of no program, for words that it doesn't take.
const MISUSED: u8 = 9;

/// Returns the file in an input, which is read whole.
fn whole<I: Read>(alloc: Global, input: &mut I) -> Result<InputFile<FileBytes<Vec<u8>>>> {
    InputFile::read_whole(alloc, input)
}

/// Serves a call of `pdbdump`, and returns its status.
fn serve_call(
    alloc: Global,
    words: &[&str],
    form: Form,
    input: &mut Failing,
    out: &mut Output<Failing>,
    err: &mut Output<Failing>,
) -> u8 {
    let Ok(matches) = parse(alloc, words) else {
        return MISUSED;
    };
    match matches.subcommand() {
        Some((name, matches)) => {
            let request = request_of(name, matches, "a.pdb", &["S"]);
            serve(alloc, &request, form, whole(alloc, input), out, err)
        }
        None => MISUSED,
    }
}

/// Runs a program, and returns its status.
fn run(
    alloc: Global,
    served: Served,
    input: &mut Failing,
    out: &mut Output<Failing>,
    err: &mut Output<Failing>,
) -> Result<u8> {
    let (words, form): (&[&str], Form) = match served {
        Served::Query => {
            let words = arguments(alloc, &Ok(&["stream", "1"]))?;
            return Ok(pdb_cli::serve(alloc, words, input, out, err));
        }
        Served::Answers(form) => {
            let mut questions = b"stream 3\nstream 1 2\n".as_slice();
            let file = whole(alloc, input);
            return Ok(serve_questions(alloc, form, file, &mut questions, out, err));
        }
        Served::Records(form) => (&["omap", "--stream", "7", "a.pdb"], form),
        Served::Key(form) => (&["id", "a.pdb"], form),
        Served::Stream => (&["extract", "a.pdb", "1"], Form::Text),
        Served::Findings(form) => (&["validate", "a.pdb"], form),
        Served::Layout(form) => (&["layout", "a.pdb", "S"], form),
    };
    Ok(serve_call(alloc, words, form, input, out, err))
}

const IO_ERROR: &[u8] = b"IO error while reading PDB: ";

/// More calls than any program makes.
const NEVER: usize = 1_000_000;

/// The status of a run in which a channel fails at a call, what each output then has, and how many
/// bytes of standard output are flushed.
#[derive(Drop)]
struct Ended {
    status: u8,
    out: Vec<u8>,
    flushed: usize,
    out_failed: bool,
    err: Vec<u8>,
    err_failed: bool,
}

/// The calls at which the input, the output and the channel of errors fail, and how the output
/// does.
type Calls = (usize, usize, usize, ErrorKind);

/// Runs a program with these calls.
fn end_of(alloc: Global, served: Served, calls: Calls) -> Result<Ended> {
    let (reads, writes, messages, kind) = calls;
    let mut input = Failing::new(build_file(alloc)?, reads, ErrorKind::BrokenPipe);
    let mut out = Output::new(Failing::new(Vec::new(alloc), writes, kind));
    let mut err = Output::new(Failing::new(Vec::new(alloc), messages, ErrorKind::StorageFull));
    let status = run(alloc, served, &mut input, &mut out, &mut err)?;
    let (out_failed, err_failed) = (out.has_failed(), err.has_failed());
    let Failing { bytes, flushed, .. } = out.into_inner();
    Ok(Ended {
        status,
        out: bytes,
        flushed,
        out_failed,
        err: err.into_inner().bytes,
        err_failed,
    })
}

/// Whether a run reports an error, with status 1.
fn is_told(ended: &Ended) -> bool {
    ended.status == 1 && ended.err.starts_with(IO_ERROR)
}

/// Whether an output that was closed ends a program in silence.
fn is_silent(served: Served, kind: ErrorKind) -> bool {
    kind == ErrorKind::BrokenPipe && !matches!(served, Served::Query)
}

/// Whether a run whose output failed wrote a prefix of the whole output, and ended as it must.
fn is_cut(served: Served, kind: ErrorKind, whole: &Ended, ended: &Ended) -> bool {
    let is_ended = if is_silent(served, kind) {
        ended.status == whole.status && ended.err.is_empty()
    } else {
        is_told(ended)
    };
    is_ended && whole.out.starts_with(&ended.out)
}

/// Whether a program whose output fails at each call in turn ends as it must, and flushes all that
/// it writes where none fails; and how many calls it makes.
fn fails_at_each_write(alloc: Global, served: Served, kind: ErrorKind) -> Result<Option<usize>> {
    let whole = end_of(alloc, served, (NEVER, NEVER, NEVER, kind))?;
    for call in 0..NEVER {
        let run = end_of(alloc, served, (NEVER, call, NEVER, kind))?;
        if !run.out_failed {
            let is_whole = run.status == whole.status && run.out == whole.out;
            let is_flushed = run.flushed == run.out.len();
            return Ok(if is_whole && is_flushed && run.err.is_empty() {
                Some(call)
            } else {
                None
            });
        }
        if !is_cut(served, kind, &whole, &run) {
            return Ok(None);
        }
    }
    Ok(None)
}

/// Whether a program whose input fails at each read in turn says so and writes nothing, even if the
/// channel of errors fails.
fn fails_at_each_read(alloc: Global, served: Served) -> Result<bool> {
    for call in 0..NEVER {
        let run = end_of(alloc, served, (call, NEVER, NEVER, ErrorKind::StorageFull))?;
        if !run.out.is_empty() {
            return Ok(call > 4 && run.err.is_empty());
        }
        let silent = end_of(alloc, served, (call, NEVER, 0, ErrorKind::StorageFull))?;
        let is_alone = silent.status == 1 && silent.err_failed && silent.err.is_empty();
        if !(is_told(&run) && run.out.is_empty() && is_alone) {
            return Ok(false);
        }
    }
    Ok(false)
}

/// The programs, and how many calls of its output each makes: in JSON, one for each of eight lines of
/// findings.
const SERVED: &[(Served, usize)] = &[
    (Served::Query, 2),
    (Served::Records(Form::Text), 3),
    (Served::Records(Form::Json), 3),
    (Served::Answers(Form::Text), 7),
    (Served::Answers(Form::Json), 7),
    (Served::Key(Form::Text), 2),
    (Served::Key(Form::Json), 2),
    (Served::Stream, 2),
    (Served::Findings(Form::Text), 2),
    (Served::Findings(Form::Json), 9),
    (Served::Layout(Form::Text), 2),
    (Served::Layout(Form::Json), 2),
];

#[test]
fn outputs_and_inputs(rt: HostRuntime) -> std::result::Result<(), Fail> {
    for (served, calls) in SERVED {
        for kind in [ErrorKind::StorageFull, ErrorKind::BrokenPipe] {
            let found = fails_at_each_write(rt.alloc(), *served, kind)?;
            assert!(rt; found == Some(*calls), "{served:?}: {found:?}");
        }
        assert!(rt; fails_at_each_read(rt.alloc(), *served)?, "{served:?}");
    }
    Ok(())
}
