//! A source that notes the slices that are requested from it.

ghost use Rattle.std.specs.Prelude.{◌≡◌, ◌⊎◌, ◌∷◌, ◌++◌, [], length, map, IfOk, IfErr, IsErrAnd};
ghost use Rattle.std.specs.IoError.{error_kind};
ghost use Rattle.std.specs.declared.io.ErrorKind.TheVariants.{OutOfMemory};
ghost use Rattle.pdb_msf.specs.Source.{HasFailed, IsKept, IsLastFault, ShowsBytes, bytes_at, positions};
ghost use Rattle.pdb_fixtures.specs.Noting.{state_of};

use pdb_msf::{ReadView, Source, SourceSlice};
use std::alloc::{AllocError, Global};
use std::io;
use std::marker::Model;

/// A source of bytes in memory that notes the slices of each view, in the order of the views.
#[derive(Debug, Drop)]
pub struct Noting {
    bytes: Vec<u8>,
    notes: Vec<Vec<SourceSlice>>,
}

impl Model for Noting {
    ghost use Rattle.std.specs.Prelude.{map};
    ghost use Rattle.pdb_fixtures.specs.Noting.{Noted};

    ghost Value = { Noted };

    ghost view = { λ n. record { bytes = n.bytes.items; notes = map (λ note. note.items) n.notes.items } };
}

impl Noting {
    /// Returns a source of these bytes, without notes.
    pub fn new(alloc: Global, bytes: Vec<u8>) -> Self
        ensures { result ≡ record { bytes = bytes.items; notes = [] } }
    {
        Noting {
            bytes,
            notes: Vec::new(alloc),
        }
    }

    /// Returns the slices of each view so far.
    pub fn notes(&self) -> &[Vec<SourceSlice>]
        ensures { map (λ note. note.items) result.now ≡ self.now.notes }
    {
        self.notes.as_slice()
    }
}

impl Source for Noting {
    ghost state = { state_of };

    /// Notes the slices, and then returns the bytes that they name. If the allocation for the note
    /// fails, the view fails with kind `OutOfMemory`, and nothing is noted.
    fn view(&mut self, alloc: Global, slices: &[SourceSlice]) -> Result<ReadView, io::Error>
        ensures view { ShowsBytes (HasFailed (state_of self.old) (state_of self.new)) (λ v. v) result
            (bytes_at self.old.bytes (positions slices.now)) }
        ensures len { IfOk result (λ v. length v ≡ length (positions slices.now)) }
        ensures kind { IfErr result (λ e. IsLastFault (state_of self.new) (error_kind e)) }
        ensures kept { IsKept (state_of self.old) (state_of self.new) }
        ensures noted { (self.new ≡ record self.old { notes = self.old.notes ++ slices.now ∷ [] })
            ⊎ ((self.new ≡ self.old) × IsErrAnd result (λ e. error_kind e ≡ OutOfMemory)) }
    {
        let note = slices.to_vec(alloc)?;
        self.notes.push(note).map_err(AllocError::from)?;
        self.bytes.view(alloc, slices)
    }
}
