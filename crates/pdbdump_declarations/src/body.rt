//! The body of the definition of a class.

use crate::group::Group;
use crate::piece::{Piece, align_up};
use crate::sketch::push_number;
use pdbdump_types::TextBuffer;

/// How far a line is indented.
const WIDTH: u32 = 4;

/// What is written of a class.
#[derive(Drop)]
pub(crate) struct Body<'s> {
    /// Its pieces.
    pub(crate) pieces: &'s [Piece],

    /// Its groups.
    pub(crate) groups: &'s [Group],

    /// Whether the compiler aligns its pieces.
    pub(crate) is_natural: bool,

    /// Where the next piece goes.
    pub(crate) at: u64,
}

/// Appends lines that are so deep.
fn push_lines(depth: u32, lines: &[u8], out: &mut TextBuffer) {
    for line in lines.split(|byte| *byte == b'\n') {
        if line.is_empty() {
            continue;
        }
        out.push_indent(depth, WIDTH);
        out.push(line);
        out.push(b"\n");
    }
}

/// Appends an array of bytes that is so deep. Its name has the place where it begins, and the number
/// of the piece behind it, if there is one.
fn push_padding(depth: u32, start: u64, number: Option<usize>, width: u64, out: &mut TextBuffer) {
    out.push_indent(depth, WIDTH);
    out.push(b"unsigned char pad_0x");
    out.push_hexadecimal(start);
    if let Some(number) = number {
        push_number(b"_", number as u64, out);
    }
    push_number(b"[", width, out);
    out.push(b"];\n");
}

/// Appends an array of bytes for those of a class from a place up to another, if there are some.
fn push_gap(start: u64, end: u64, out: &mut TextBuffer) {
    if start < end {
        push_padding(1, start, None, end - start, out);
    }
}

impl<'s> Body<'s> {
    /// Returns whether what begins at a place needs padding before it behind another place, since the
    /// compiler doesn't put it there by itself.
    fn needs_padding(&self, from: u64, start: u64, alignment: u64) -> bool {
        from < start && !(self.is_natural && align_up(from, alignment) == start)
    }

    /// Appends one of the alternatives of a union that begins at a place: pieces, of which the first
    /// has this number among those of the union.
    fn push_alternative(
        &self,
        depth: u32,
        pieces: &[Piece],
        first: usize,
        start: u64,
        out: &mut TextBuffer,
    ) {
        if let [piece] = pieces {
            if !piece.is_many && piece.start == start {
                push_lines(depth, &piece.text, out);
                return;
            }
        }
        let within = depth.saturating_add(1);
        push_lines(depth, b"struct {", out);
        let mut at = start;
        for (number, piece) in pieces.iter().enumerate() {
            if self.needs_padding(at, piece.start, piece.alignment) {
                let number = first.saturating_add(number);
                let width = piece.start.saturating_sub(at);
                push_padding(within, at, Some(number), width, out);
            }
            push_lines(within, &piece.text, out);
            at = piece.end;
        }
        push_lines(depth, b"};", out);
    }

    /// Appends the alternatives of a union that begins at a place.
    pub(crate) fn push_alternatives(
        &self,
        depth: u32,
        pieces: &[Piece],
        start: u64,
        out: &mut TextBuffer,
    ) {
        let mut first: usize = 0;
        let mut end = start;
        for (number, piece) in pieces.iter().enumerate() {
            if piece.start < end {
                if let Some(alternative) = pieces.get(first..number) {
                    self.push_alternative(depth, alternative, first, start, out);
                }
                first = number;
            }
            end = piece.end;
        }
        match pieces.get(first..) {
            Some(last) if !last.is_empty() => {
                self.push_alternative(depth, last, first, start, out);
            }
            _ => {}
        }
    }

    /// Appends a group.
    fn push_group(&self, group: &Group, out: &mut TextBuffer) {
        if self.needs_padding(self.at, group.start, group.alignment) {
            push_gap(self.at, group.start, out);
        }
        let Some(pieces) = self.pieces.get(group.first..group.behind) else {
            return;
        };
        if let [piece] = pieces {
            push_lines(1, &piece.text, out);
            return;
        }
        push_lines(1, b"union {", out);
        self.push_alternatives(2, pieces, group.start, out);
        push_lines(1, b"};", out);
    }

    /// Appends the groups from one on, and what is behind them up to the size of the class.
    pub(crate) fn push_groups(
        &mut self,
        skip: usize,
        size: u64,
        alignment: u64,
        out: &mut TextBuffer,
    ) {
        for group in self.groups.iter().skip(skip) {
            self.push_group(group, out);
            self.at = group.laid_end(self.is_natural);
        }
        if self.is_natural && align_up(self.at, alignment) == size && self.at > 0 {
            return;
        }
        push_gap(self.at, size, out);
    }
}
