//! Pieces of text.

use pdbdump_rows::{Form, push_text};
use std::alloc::{AllocError, Global};

/// Returns a text of a file as lines show it, with escapes for control characters.
///
/// # Errors
/// Fails if an allocation fails.
pub fn escape_text(alloc: Global, text: &[u8]) -> Result<Vec<u8>, AllocError> {
    let mut shown = Vec::new(alloc);
    push_text(Form::Text, text, &mut shown)?;
    Ok(shown)
}

/// Returns what the word for so many things ends with.
pub fn plural(count: u64) -> &'static str {
    if count == 1 { "" } else { "s" }
}
