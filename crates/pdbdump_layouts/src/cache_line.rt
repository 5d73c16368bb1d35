//! Where the lines of a cache end in a class.

use crate::expanded::ShownRow;
use crate::options::C_WIDTH;
use pdbdump_types::TextBuffer;
use std::alloc::Global;

/// The lines of a cache along a class.
#[derive(Clone, Copy)]
pub(crate) struct CacheLines {
    /// How many bytes a line has.
    size: u64,

    /// How many have ended so far.
    ended: u64,
}

/// Returns the byte behind a field or a gap, from the start of what is shown.
fn end_of(row: &ShownRow<'_>) -> u64 {
    let bits = row.row.bits().end;
    let bytes = u64::try_from(bits.div_ceil(8)).unwrap_or(u64::MAX);
    row.start.saturating_add(bytes)
}

impl CacheLines {
    /// Returns the lines of so many bytes, of which none has ended.
    pub(crate) fn new(size: u64) -> Self {
        CacheLines { size, ended: 0 }
    }

    /// Appends the line behind a field or a gap in or with which a line of the cache ends.
    pub(crate) fn push_behind(&mut self, alloc: Global, row: &ShownRow<'_>, text: &mut TextBuffer) {
        let end = end_of(row);
        let ended = end.checked_div(self.size).unwrap_or(0);
        if ended <= self.ended {
            return;
        }
        self.ended = ended;
        let boundary = ended.saturating_mul(self.size);
        let ago = end.saturating_sub(boundary);
        text.push_indent(row.depth.saturating_add(1), C_WIDTH);
        text.push_string(format!(in alloc; "/* --- cacheline {ended} boundary ({boundary} bytes)"));
        if ago > 0 {
            text.push_string(format!(in alloc; " was {ago} bytes ago"));
        }
        text.push(b" --- */\n");
    }
}
