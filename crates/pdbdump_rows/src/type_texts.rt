//! The texts of types that lines show beside their indexes.

use crate::form::Form;
use crate::number::push_hexadecimal;
use pdb_base::TypeIndex;
use std::alloc::{AllocError, Global};

/// Texts of types that a line shows beside their indexes, and how many bytes of them it may yet
/// show, so that one long text that many fields have can't become much.
#[derive(Drop)]
pub struct TypeTexts {
    /// The form of the line.
    form: Form,

    /// The indexes of the types in increasing order.
    indexes: Vec<u32>,

    /// What is shown of each: in text its index, and behind it its text.
    texts: Vec<Vec<u8>>,

    /// How many bytes may yet be shown.
    left: usize,
}

/// Returns the index of a type, and behind it its text.
fn text_behind_index(alloc: Global, index: u32, text: &[u8]) -> Result<Vec<u8>, AllocError> {
    let mut shown = Vec::new(alloc);
    push_hexadecimal(index, &mut shown)?;
    shown.extend_from_slice(b" (")?;
    shown.extend_from_slice(text)?;
    shown.extend_from_slice(b")")?;
    Ok(shown)
}

impl TypeTexts {
    /// Returns no texts, of which a line of this form may show so many bytes.
    pub fn new(alloc: Global, form: Form, most: usize) -> Self {
        TypeTexts {
            form,
            indexes: Vec::new(alloc),
            texts: Vec::new(alloc),
            left: most,
        }
    }

    /// Adds the text of a type, whose index has to be above those of the others; otherwise it isn't
    /// found.
    ///
    /// # Errors
    /// Fails if an allocation fails.
    pub fn push(
        &mut self,
        alloc: Global,
        index: TypeIndex,
        text: Vec<u8>,
    ) -> Result<(), AllocError> {
        let shown = match self.form {
            Form::Text => text_behind_index(alloc, index.0, &text)?,
            Form::Json => text,
        };
        self.indexes.push(index.0)?;
        self.texts.push(shown)?;
        Ok(())
    }

    /// Returns the text of a type, if it is known.
    fn known(&self, index: TypeIndex) -> Option<&[u8]> {
        let place = self.indexes.partition_point(|other| *other < index.0);
        if self.indexes.get(place).copied() != Some(index.0) {
            return None;
        }
        self.texts.get(place).map(|text| text.as_slice())
    }

    /// Returns what is shown of a type, if its text is known and may be shown.
    pub(crate) fn take(&mut self, index: TypeIndex) -> Option<&[u8]> {
        let size = self.known(index)?.len();
        self.left = self.left.checked_sub(size)?;
        self.known(index)
    }
}
