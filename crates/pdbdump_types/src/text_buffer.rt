//! A text that is appended to without a check each time.

ghost use Rattle.std.specs.Prelude.{◌≡◌, ◌++◌, IfOk, IsTrue};

use crate::object_buffer::ObjectBuffer;
use crate::text::escape_text;
use pdb_base::TypeIndex;
use std::alloc::{AllocError, Global};

/// Where the comment of a line begins, behind its mark.
const COMMENT: usize = 44;

/// A text that is appended to. Once an allocation fails it grows no more, which `finish` reports, so
/// that a text that lacks something is never returned.
#[derive(Drop)]
pub struct TextBuffer {
    alloc: Global,
    bytes: Vec<u8>,

    /// Whether each allocation so far succeeded.
    is_whole: bool,
}

impl TextBuffer {
    /// Returns an empty text.
    pub fn new(alloc: Global) -> Self {
        TextBuffer {
            alloc,
            bytes: Vec::new(alloc),
            is_whole: true,
        }
    }

    /// Appends bytes.
    pub fn push(&mut self, bytes: &[u8])
        ensures whole { IsTrue self.new.is_whole → IsTrue self.old.is_whole }
        ensures bytes { IsTrue self.new.is_whole
            → self.new.bytes.items ≡ self.old.bytes.items ++ bytes.now }
    {
        self.is_whole = self.is_whole && self.bytes.extend_from_slice(bytes).is_ok();
    }

    /// Appends a byte.
    pub fn push_byte(&mut self, byte: u8) {
        self.is_whole = self.is_whole && self.bytes.push(byte).is_ok();
    }

    /// Appends a text that was made, or notes that an allocation failed for it.
    pub fn push_made(&mut self, made: Result<Vec<u8>, AllocError>) {
        match made {
            Ok(text) => self.push(&text),
            Err(_) => self.is_whole = false,
        }
    }

    /// Appends a text that was formatted, or notes that an allocation failed for it.
    pub fn push_string(&mut self, made: Result<String, AllocError>) {
        match made {
            Ok(text) => self.push(text.as_bytes()),
            Err(_) => self.is_whole = false,
        }
    }

    /// Appends a text of a file as lines show it, with escapes for control characters.
    pub fn push_escaped(&mut self, text: &[u8]) {
        self.push_made(escape_text(self.alloc, text));
    }

    /// Appends another text, or notes that an allocation failed for it.
    pub fn push_text(&mut self, text: &TextBuffer) {
        self.push(&text.bytes);
        self.is_whole = self.is_whole && text.is_whole;
    }

    /// Appends a number in hexadecimal.
    pub fn push_hexadecimal(&mut self, number: u64) {
        self.push_string(format!(in self.alloc; "{number:x}"));
    }

    /// Appends the fields of an object, without the brace behind them.
    pub fn push_fields(&mut self, object: &ObjectBuffer) {
        self.push(object.as_bytes());
        self.is_whole = self.is_whole && object.is_whole();
    }

    /// Appends a comma, unless a list begins with what comes next.
    pub fn begin_item(&mut self) {
        if self.bytes.last().copied() != Some(b'[') {
            self.push(b",");
        }
    }

    /// Appends an object to a list.
    pub fn push_item(&mut self, object: &ObjectBuffer) {
        self.begin_item();
        self.push_fields(object);
        self.push(b"}");
    }

    /// Appends spaces.
    fn push_spaces(&mut self, count: usize) {
        for _ in 0..count {
            self.push_byte(b' ');
        }
    }

    /// Appends the spaces of a depth.
    pub fn push_indent(&mut self, depth: u32, width: u32) {
        for _ in 0..depth {
            self.push_spaces(width as usize);
        }
    }

    /// Appends spaces up to a column, counted from a place in the text, and at least one.
    pub fn align(&mut self, start: usize, column: usize) {
        let filled = self.bytes.len().saturating_sub(start);
        self.push_spaces(column.saturating_sub(filled).max(1));
    }

    /// Appends spaces up to a column of the last line, and at least one.
    fn align_in_line(&mut self, column: usize) {
        let line_feed = self.bytes.iter().rposition(|byte| *byte == b'\n');
        let start = match line_feed {
            Some(place) => place.saturating_add(1),
            None => 0,
        };
        self.align(start, column);
    }

    /// Begins the comment of the last line.
    pub fn begin_comment(&mut self) {
        self.align_in_line(COMMENT - 3);
        self.push(b"// ");
    }

    /// Begins what a line that is a comment says beside it.
    pub fn begin_remark(&mut self) {
        self.align_in_line(COMMENT);
    }

    /// Ends the line with which a definition begins: its comment is the index, and the size if
    /// something says it.
    pub fn end_head(&mut self, index: TypeIndex, size: Option<u64>) {
        let alloc = self.alloc;
        let index = index.0;
        self.begin_comment();
        self.push_string(match size {
            Some(size) => format!(in alloc; "0x{index:x}, size 0x{size:x}\n"),
            None => format!(in alloc; "0x{index:x}\n"),
        });
    }

    /// Returns how many bytes there are so far.
    pub fn len(&self) -> usize {
        self.bytes.len()
    }

    /// Returns the bytes so far.
    pub fn as_bytes(&self) -> &[u8] {
        &self.bytes
    }

    /// Returns the bytes.
    ///
    /// # Errors
    /// Fails if an allocation failed.
    pub fn finish(self) -> Result<Vec<u8>, AllocError>
        ensures whole { IfOk result (λ bytes. IsTrue self.is_whole) }
        ensures bytes { IfOk result (λ bytes. bytes.items ≡ self.bytes.items) }
    {
        if self.is_whole {
            Ok(self.bytes)
        } else {
            Err(AllocError)
        }
    }
}
