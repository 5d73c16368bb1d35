//! An output that knows whether it failed.

ghost use Rattle.std.specs.Prelude.{◌≡◌, false, IfErr, OnErr, OnOk};
ghost use Rattle.std.specs.Io.KnownBytes.{Appends};
ghost use Rattle.pdb_output.specs.Output.{Flushes, GetsUnlessFailed, IsFailed, IsPrefix, Writes};

use pdb_base::{Error, Result};
use std::io;
use std::io::{ErrorKind, Write};
use std::marker::Model;

/// A writer, whether it has failed, and whether all that was written is flushed.
#[derive(Drop)]
pub struct Output<W: Write> {
    writer: W,
    has_failed: bool,
    is_flushed: bool,
}

impl<W: Write> Model for Output<W> {
    ghost use Rattle.pdb_output.specs.Output.{OutputState};

    ghost Value = { OutputState };

    ghost view = { λ output. record {
      contents = W.contents output.writer;
      has_failed = output.has_failed;
      is_flushed = output.is_flushed;
    } };
}

/// Writes all bytes. A write that was interrupted is tried again.
fn write_bytes<W: Write>(bytes: &[u8], writer: &mut W) -> io::Result<()>
    ensures all { OnOk result (Appends (W.contents writer.old) (W.contents writer.new) bytes.now) }
    ensures prefix { OnErr result (IsPrefix bytes.now (W.contents writer.old) (W.contents writer.new)) }
{
    let mut rest = bytes;
    for _ in 0..u64::MAX {
        if rest.is_empty() {
            return Ok(());
        }
        match writer.write(rest) {
            Ok(0) => return Err(io::Error::from(ErrorKind::WriteZero)),
            Ok(count) => rest = &rest[count..],
            Err(fault) if fault.kind() == ErrorKind::Interrupted => {}
            Err(fault) => return Err(fault),
        }
    }
    Err(io::Error::from(ErrorKind::Interrupted))
}

impl<W: Write> Output<W> {
    ghost use Rattle.pdb_output.specs.Output.{OutputState};

    /// Returns an output to a writer, which has not failed.
    pub fn new(writer: W) -> Self
        ensures { result ≡ record { contents = W.contents writer; has_failed = false; is_flushed = false } }
    {
        Output {
            writer,
            has_failed: false,
            is_flushed: false,
        }
    }

    /// Returns whether the writer has failed.
    pub fn has_failed(&self) -> bool
        ensures { result ≡ self.now.has_failed }
    {
        self.has_failed
    }

    /// Returns the writer.
    pub fn into_inner(self) -> W
        ensures { W.contents result ≡ self.contents }
    {
        self.writer
    }

    /// Writes all bytes. Nothing is written to an output that has failed.
    ///
    /// # Errors
    /// Fails with `IoError` if the writer fails or takes no bytes, or has failed before. It may
    /// then have got a prefix of the bytes.
    pub fn write(&mut self, bytes: &[u8]) -> Result<()>
        ensures bytes { Writes bytes.now self.old self.new result }
        ensures good { OnOk result (self.new.has_failed ≡ false) }
        ensures failed { IfErr result (IsFailed self.new) }
    {
        if self.has_failed {
            return Err(io::Error::other("the output has failed before").into());
        }
        self.is_flushed = false;
        match write_bytes(bytes, &mut self.writer) {
            Ok(()) => Ok(()),
            Err(fault) => {
                self.has_failed = true;
                Err(Error::IoError(fault))
            }
        }
    }

    /// Writes a message without returning whether it was written. `has_failed` says so.
    pub fn report(&mut self, message: &[u8])
        ensures { GetsUnlessFailed self.old self.new message.now }
    {
        let _ = self.write(message);
    }

    /// Flushes the writer.
    ///
    /// # Errors
    /// Fails with `IoError` if the writer fails or has failed before.
    pub fn flush(&mut self) -> Result<()>
        ensures bytes { Flushes self.old self.new result }
        ensures good { OnOk result (self.new.has_failed ≡ false) }
        ensures failed { IfErr result (IsFailed self.new) }
    {
        if self.has_failed {
            return Err(io::Error::other("the output has failed before").into());
        }
        match self.writer.flush() {
            Ok(()) => {
                self.is_flushed = true;
                Ok(())
            }
            Err(fault) => {
                self.has_failed = true;
                Err(Error::IoError(fault))
            }
        }
    }
}
