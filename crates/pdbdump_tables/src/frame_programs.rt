//! The texts of the programs of frames.

use pdb_base::{Error, RawString, Result};
use pdb_file::PDB;
use pdb_msf::Source;
use pdb_space::{StringRef, StringTable};
use std::alloc::{AllocError, Global};

/// How many bytes the texts have at most in any file, and how many more for each frame. Compilers
/// write some hundred texts, most of them of less than 100 bytes.
const LEAST: usize = 0x100_0000;

const FOR_EACH_FRAME: usize = 512;

/// How many texts may be missing at most. Each of them may be looked for in all names.
const FAULTS: u32 = 64;

/// What is reported if the texts have more bytes.
const TOO_MUCH: Error = Error::UnimplementedFeature("programs of frames with so many bytes");

/// The texts of programs in a string table, and how many bytes of them may yet be shown, so that a
/// small file in which many frames have one long text can't become much.
#[derive(Drop)]
pub(crate) struct Programs {
    names: Option<StringTable>,
    left: usize,
    faults_left: u32,
}

impl Programs {
    /// Returns the texts in a string table, or none if there is none.
    pub(crate) fn new(names: Option<StringTable>) -> Self {
        Programs {
            names,
            left: LEAST,
            faults_left: FAULTS,
        }
    }

    /// Returns the texts in the string table of a file, or none if that can't be read.
    ///
    /// # Errors
    /// Fails if an allocation fails.
    pub(crate) fn of_file<S: Source>(
        alloc: Global,
        file: &mut PDB<S>,
    ) -> std::result::Result<Self, AllocError> {
        match file.string_table(alloc) {
            Ok(names) => Ok(Programs::new(Some(names))),
            Err(Error::OutOfMemory) => Err(AllocError),
            Err(_) => Ok(Programs::new(None)),
        }
    }

    /// Returns the text at an offset in the string table.
    ///
    /// # Errors
    /// Fails as `StringTable::get` does, and if too many texts were missing or the texts have too
    /// many bytes; then it fails for all that follow.
    fn demand(&mut self, place: StringRef) -> Result<RawString<'_>> {
        let Some(names) = &self.names else {
            return Err(Error::StreamNameNotFound);
        };
        if self.faults_left == 0 {
            return Err(TOO_MUCH);
        }
        let text = match names.get(place) {
            Ok(text) => text,
            Err(fault) => {
                self.faults_left = self.faults_left.saturating_sub(1);
                return Err(fault);
            }
        };
        self.left = self.left.saturating_add(FOR_EACH_FRAME);
        if text.len() > self.left {
            self.faults_left = 0;
            return Err(TOO_MUCH);
        }
        self.left = self.left.saturating_sub(text.len());
        Ok(text)
    }

    /// Returns the text of a program, or None if there is no program.
    ///
    /// # Errors
    /// Fails as `StringTable::get` does, and if the texts have too many bytes.
    pub(crate) fn text(&mut self, place: Option<StringRef>) -> Result<Option<RawString<'_>>> {
        match place {
            Some(place) => Ok(Some(self.demand(place)?)),
            None => Ok(None),
        }
    }

    /// Returns the text of a program, or None if there is no program or its text can't be shown.
    pub(crate) fn known_text(&mut self, place: Option<StringRef>) -> Option<RawString<'_>> {
        self.text(place).unwrap_or(None)
    }
}
