//! Questions: the query that the words of a line spell.

use pdb_cli::query;
use pdb_container::Query;
use std::alloc::{AllocError, Global};

/// Returns whether a byte ends a line: a line feed or a carriage return.
pub fn is_line_end(byte: u8) -> bool {
    byte == b'\n' || byte == b'\r'
}

/// Returns the query that the words of a line spell, between its blanks and tabs, if they spell one.
pub fn query_in(alloc: Global, line: &[u8]) -> Result<Option<Query>, AllocError> {
    let Ok(line) = str::from_utf8(line) else {
        return Ok(None);
    };
    let words: Vec<&str> = line
        .split([' ', '\t'])
        .filter(|word| !word.is_empty())
        .collect(alloc)?;
    Ok(query(&words))
}
