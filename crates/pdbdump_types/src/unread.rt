//! The records of a table that can't be read.

ghost use Rattle.std.specs.Prelude.{◌≡◌, false, is_some, true, OnOk};
ghost use Rattle.pdbdump_types.specs.Shown.{StaysAccounted};

use crate::classes::defines_nothing;
use crate::progress::{Progress, tell_line};
use crate::text_buffer::TextBuffer;
use pdb_base::{Error, TypeIndex};
use pdb_output::Output;
use pdb_tpi::{OpenTable, Type};
use pdb_values::TypeData;
use pdbdump_rows::error_text;
use std::alloc::{AllocError, Global};
use std::io::Write;

/// A record that can't be read.
#[derive(Debug, Drop)]
struct UnreadRecord {
    /// Its index.
    index: u32,

    /// Why it can't be read.
    fault: Error,
}

impl UnreadRecord {
    /// Returns a sentence with the record and its fault, and how many more there are.
    fn sentence(&self, alloc: Global, more: u64) -> Result<Vec<u8>, AllocError> {
        let index = self.index;
        let mut text = format!(in alloc; "the record 0x{index:x} can't be read: ")?.into_bytes();
        text.extend_from_slice(&error_text(alloc, &self.fault)?)?;
        if more > 0 {
            let more = format!(in alloc; "; nor can {more} more")?;
            text.extend_from_slice(more.as_bytes())?;
        }
        Ok(text)
    }
}

/// The records of a table that can't be read, and that may be what is looked for. What they define or
/// refer to is not among what the table has, and nothing tells what it is.
#[derive(Debug, Drop)]
pub struct Unread {
    /// The first one.
    first: Option<UnreadRecord>,

    /// How many there are behind the first.
    more: u64,
}

impl Unread {
    /// Returns that each record so far could be read.
    pub fn none() -> Self {
        Unread {
            first: None,
            more: 0,
        }
    }

    /// Returns whether each record so far could be read.
    pub fn is_none(&self) -> bool {
        self.first.is_none()
    }

    /// Counts a record of this index that can't be read, for this fault.
    pub fn count(&mut self, index: u32, fault: Error) {
        if self.first.is_some() {
            self.more = self.more.saturating_add(1);
        } else {
            self.first = Some(UnreadRecord { index, fault });
        }
    }

    /// Counts the record of a type that can't be read, unless its kind is one of those that define
    /// nothing.
    ///
    /// # Errors
    /// Fails if the fault is that an allocation failed.
    pub fn add(&mut self, item: &Type<'_>, fault: Error) -> Result<(), AllocError> {
        if let Error::OutOfMemory = fault {
            return Err(AllocError);
        }
        if !defines_nothing(item.raw_kind()) {
            self.count(item.index().0, fault);
        }
        Ok(())
    }

    /// Returns the type of an item, or None if its kind is one of those that define nothing, or if it
    /// can't be read, which is counted.
    ///
    /// # Errors
    /// Fails if an allocation fails.
    pub fn read<'t>(
        &mut self,
        alloc: Global,
        item: &Type<'t>,
    ) -> Result<Option<TypeData<'t>>, AllocError> {
        if defines_nothing(item.raw_kind()) {
            return Ok(None);
        }
        match item.parse(alloc) {
            Ok(value) => Ok(Some(value)),
            Err(fault) => {
                self.add(item, fault)?;
                Ok(None)
            }
        }
    }

    /// Returns a sentence with the first of these records and its fault, and how many more there are; or
    /// None if there is none.
    ///
    /// # Errors
    /// Fails if an allocation fails.
    pub fn sentence(&self, alloc: Global) -> Result<Option<Vec<u8>>, AllocError> {
        match &self.first {
            Some(first) => Ok(Some(first.sentence(alloc, self.more)?)),
            None => Ok(None),
        }
    }

    /// Reports that sentence in a line that begins with a mark, which is not escaped. Nothing is
    /// reported if there is none.
    ///
    /// # Errors
    /// Fails with `OutOfMemory` if an allocation fails.
    pub fn tell<E: Write>(
        &self,
        alloc: Global,
        mark: &[u8],
        progress: &mut Progress,
        err: &mut Output<E>,
    ) -> Result<(), Error>
        ensures accounted { OnOk result (StaysAccounted progress.old progress.new err.old err.new) }
        ensures told { OnOk result (is_some self.now.first ≡ true → progress.new.is_whole ≡ false) }
        ensures shown { progress.new.has_shown ≡ progress.old.has_shown }
    {
        let Some(first) = &self.first else {
            return Ok(());
        };
        let mut line = TextBuffer::new(alloc);
        line.push(mark);
        line.push_made(first.sentence(alloc, self.more));
        tell_line(line, progress, err)
    }
}

/// Returns the records of a table that may define a type and that can't be read.
///
/// # Errors
/// Fails if an allocation fails.
pub fn unread_in(alloc: Global, types: &OpenTable<TypeIndex>) -> Result<Unread, AllocError> {
    let header = types.items().header();
    let mut unread = Unread::none();
    for number in header.minimum_index..header.maximum_index {
        // No record follows the first that is missing, whatever the header counts.
        let Ok(item) = types.item(TypeIndex(number)) else {
            return Ok(unread);
        };
        unread.read(alloc, &item)?;
    }
    Ok(unread)
}
