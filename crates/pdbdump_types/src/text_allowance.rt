//! How many bytes the texts of types have at most that one call writes, so that little in a file
//! can't become much.

use crate::table::Table;
use crate::text_buffer::TextBuffer;
use pdb_base::{Result, TypeIndex};
use pdb_types::TypeText;

/// How many bytes they have in any file, and how many more for each byte of the table.
const LEAST: usize = 0x100_0000;

const FOR_EACH: usize = 16;

/// How many bytes the texts of types may yet have.
#[derive(Clone, Copy)]
pub struct TextAllowance {
    left: usize,
}

impl TextAllowance {
    /// Returns what a call may write of a table with so many bytes. The texts of all members of a file
    /// of a compiler have fewer bytes than its table.
    pub fn of_table(bytes: usize) -> Self {
        TextAllowance {
            left: bytes.saturating_mul(FOR_EACH).saturating_add(LEAST),
        }
    }

    /// Takes so many bytes from those that are left, and returns whether they were.
    pub fn take(&mut self, count: usize) -> bool {
        let is_left = count <= self.left;
        self.left = self.left.saturating_sub(count);
        is_left
    }

    /// Returns whether none are left.
    pub fn is_spent(&self) -> bool {
        self.left == 0
    }

    /// Returns the declaration of a name that has a type, cut where no more bytes are left.
    ///
    /// # Errors
    /// Fails as `Definitions::type_text` does.
    pub fn text(
        &mut self,
        table: Table<'_, '_>,
        index: TypeIndex,
        name: &[u8],
    ) -> Result<TypeText> {
        let text = table
            .definitions
            .text_within(table.alloc, index, name, self.left)?;
        self.take(text.bytes.len());
        Ok(text)
    }

    /// Returns the bytes of what `text` returns.
    ///
    /// # Errors
    /// Fails as `Definitions::type_text` does.
    pub fn bytes(
        &mut self,
        table: Table<'_, '_>,
        index: TypeIndex,
        name: &[u8],
    ) -> Result<Vec<u8>> {
        let text = self.text(table, index, name)?;
        Ok(text.bytes)
    }

    /// Appends what `bytes` returns as lines show it, with escapes for control characters.
    ///
    /// # Errors
    /// Fails as `Definitions::type_text` does.
    pub fn push(
        &mut self,
        table: Table<'_, '_>,
        index: TypeIndex,
        name: &[u8],
        out: &mut TextBuffer,
    ) -> Result<()> {
        out.push_escaped(&self.bytes(table, index, name)?);
        Ok(())
    }
}
