//! The program on the channels of its process.

use crate::channels::serve;
use pdb_output::Output;
use std::io::{ErrorKind, Write};
use std::rt::Env;
use std::{env, io};

/// The error channel of a process as a writer of text.
#[derive(Drop)]
pub struct Errors<'a, P> {
    /// The process.
    pub process: &'a P,
}

impl<P: Eprint> Write for Errors<'_, P> {
    fn write(&mut self, bytes: &[u8]) -> io::Result<usize> {
        match str::from_utf8(bytes) {
            Ok(text) => {
                self.process.eprint(text)?;
                Ok(bytes.len())
            }
            Err(_) => Err(io::Error::from(ErrorKind::InvalidData)),
        }
    }

    fn flush(&mut self) -> io::Result<()> {
        Ok(())
    }
}

/// Runs the program with the words, the input and the two outputs of its process, and returns the
/// status that it ends with.
pub fn program<P: Env + Input + Print + Eprint + AllocGlobal>(process: &P) -> u8 {
    serve(
        process.alloc(),
        env::args(process),
        &mut process.reader(),
        &mut Output::new(io::writer(process)),
        &mut Output::new(Errors { process }),
    )
}
