//! Two ways to read a stream: from a file that stays open, and from one that the read consumes.

ghost use Rattle.std.specs.Prelude.{◌≡◌, ℕ, Bool, true, false, List, Option, Some, None, IsSome};
ghost use Rattle.pdb_base.specs.Answer.{Answer, AnswersUnless};
ghost use Rattle.pdb_msf.specs.{File.stream_of, Source.HasFailed, Source.IsFixed};
ghost use Rattle.pdb_container.specs.ReadStreams.{StaysOpen, WasFixed, WasSound, stays_open, stream_once};

use pdb_base::{Error, Result, Stream};
use pdb_msf::{BigMSF, Msf, Source};
use std::alloc::Global;

/// A file whose streams are read.
pub trait ReadStreams {
    // Whether another stream can be read after the next one; whether the bytes of the source are
    // fixed; the stream of a number, cut to a limit; whether one can still be read; whether the
    // source failed between two states; and what stays true from one to the next, also where nothing
    // is read.
    ghost lasts: { Bool };

    ghost is_fixed: { Self → Type 0 };

    ghost stream: { Self → ℕ → Option ℕ → Answer (List ℕ) };

    ghost can_read: { Self → Type 0 };

    ghost failed: { Self → Self → Type 0 };

    ghost kept: { Self → Self → Type 0 };

    /// Returns whether another stream can be read after the next one.
    fn is_lasting() -> bool
        ensures { result ≡ lasts };

    /// Returns the bytes of a stream, at most as many as the limit.
    fn read(&mut self, alloc: Global, number: u32, limit: Option<usize>) -> Result<Stream>
        requires { can_read self.old }
        ensures answer { is_fixed self.old → AnswersUnless (failed self.old self.new) (λ stream. stream) result
            (stream self.old number limit) }
        ensures kept { kept self.old self.new };

    ghost stays: { (file : Self) → kept file file };
}

impl<S: Source> ReadStreams for BigMSF<S> {
    ghost lasts = { true };

    ghost is_fixed = { λ file. IsFixed (S.state file.source) };

    ghost stream = { λ file. stream_of (S.state file.source).bytes file.head };

    ghost can_read = { λ _. Unit {0} };

    ghost failed = { λ old new. HasFailed (S.state old.source) (S.state new.source) };

    ghost kept = { λ old new. StaysOpen S.state old new };

    ghost stays = { λ file. stays_open S.state file };

    fn is_lasting() -> bool {
        true
    }

    fn read(&mut self, alloc: Global, number: u32, limit: Option<usize>) -> Result<Stream> {
        self.get(alloc, number, limit)
    }
}

/// A file that the next read consumes.
impl<S: Source + Drop> ReadStreams for Option<BigMSF<S>> {
    ghost lasts = { false };

    ghost is_fixed = { λ file. WasFixed S.state file };

    ghost stream = { λ file. stream_once S.state file };

    ghost can_read = { λ file. IsSome file };

    ghost failed = { λ old new. ¬ WasSound S.state old };

    ghost kept = { λ old new. Unit {0} };

    ghost stays = { λ _. tt };

    fn is_lasting() -> bool {
        false
    }

    fn read(&mut self, alloc: Global, number: u32, limit: Option<usize>) -> Result<Stream> {
        match self.take() {
            Some(file) => file.into_stream(alloc, number, limit),
            None => Err(Error::StreamNotFound(number)),
        }
    }
}
