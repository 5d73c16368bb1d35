//! Texts of a file in comments.

use pdbdump_types::TextBuffer;

/// Appends a text of a file in quotes, with escapes for what doesn't show. It may stand in a comment
/// up to the end of a line: it has no line feed, and the quote keeps a backslash from joining lines.
pub(crate) fn push_quoted(text: &[u8], out: &mut TextBuffer) {
    out.push(b"\"");
    out.push_escaped(text);
    out.push(b"\"");
}
