//! A source that fails once, with an error that has a text of its own.

ghost use Rattle.std.specs.Prelude.{◌≡◌, ◌==◌, length, IfOk, IfErr, MatchBool, IsErrAnd};
ghost use Rattle.std.specs.IoError.{error_kind};
ghost use Rattle.pdb_msf.specs.Source.{HasFailed, IsKept, IsLastFault, IsOther, ShowsBytes, bytes_at, positions};
ghost use Rattle.pdb_fixtures.specs.Failing.{counted_down, state_of};

use pdb_msf::{ReadView, Source, SourceSlice};
use std::alloc::Global;
use std::io;
use std::io::ErrorKind;
use std::marker::Model;

/// The text of the error of a source.
pub const GONE: &str = "the disk is gone";

/// A source of bytes in memory of which one view fails, whatever it requests. Every other view is
/// that of the bytes.
#[derive(Debug, Drop)]
pub struct Failing {
    bytes: Vec<u8>,
    until: u64,
    kind: ErrorKind,
    faults: u64,
}

impl Model for Failing {
    ghost use Rattle.std.specs.Prelude.{◌≡◌, ◌<◌};
    ghost use Rattle.pdb_msf.specs.Source.{IsOther};
    ghost use Rattle.pdb_fixtures.specs.Failing.{Countdown};

    ghost Value = { Countdown };

    ghost view = { λ f. record { bytes = f.bytes.items; until = f.until; kind = f.kind; faults = f.faults } };

    ghost invariant = { λ f. (0 < f.until → f.faults ≡ 0) × IsOther f.kind };
}

impl Failing {
    /// Returns a source of these bytes whose view number `n`, counted from 1, fails with kind
    /// `Other`. If `n` is 0, no view fails.
    pub fn new(bytes: Vec<u8>, n: u64) -> Self
        ensures { result ≡ record { bytes = bytes.items; until = n; kind = ErrorKind.Other; faults = 0 } }
    {
        Failing::of_kind(bytes, n, ErrorKind::Other)
    }

    /// Returns the source that `new` returns, except that its view fails with this kind, which must
    /// be neither `UnexpectedEof` nor `OutOfMemory`.
    pub fn of_kind(bytes: Vec<u8>, n: u64, kind: ErrorKind) -> Self
        requires { IsOther kind }
        ensures { result ≡ record { bytes = bytes.items; until = n; kind = kind; faults = 0 } }
    {
        Failing {
            bytes,
            until: n,
            kind,
            faults: 0,
        }
    }
}

impl Source for Failing {
    ghost state = { state_of };

    /// Returns the bytes that the slices name, or an error of the source's kind if this is the view
    /// that fails.
    fn view(&mut self, alloc: Global, slices: &[SourceSlice]) -> Result<ReadView, io::Error>
        ensures view { ShowsBytes (HasFailed (state_of self.old) (state_of self.new)) (λ v. v) result
            (bytes_at self.old.bytes (positions slices.now)) }
        ensures len { IfOk result (λ v. length v ≡ length (positions slices.now)) }
        ensures kind { IfErr result (λ e. IsLastFault (state_of self.new) (error_kind e)) }
        ensures kept { IsKept (state_of self.old) (state_of self.new) }
        ensures counts { self.new ≡ counted_down self.old }
        ensures fails { MatchBool (self.old.until == 1) (IsErrAnd result (λ e. error_kind e ≡ self.old.kind))
            (ShowsBytes ⊥ (λ v. v) result (bytes_at self.old.bytes (positions slices.now))) }
    {
        if self.until == 1 {
            self.until = 0;
            self.faults += 1;
            return Err(io::Error::new(self.kind, GONE));
        }
        self.until = self.until.saturating_sub(1);
        self.bytes.view(alloc, slices)
    }
}
