//! What the definition of a class is made of, before it is written.

use crate::comment::push_quoted;
use crate::context::{Context, Target};
use crate::known::Known;
use crate::mention::{declared_text, push_mention};
use crate::piece::Piece;
use pdb_base::{Result, TypeIndex};
use pdbdump_types::TextBuffer;
use std::alloc::Global;

/// What the definition of a class is made of.
#[derive(Drop)]
pub(crate) struct Sketch {
    /// The declarations of other types that it needs.
    pub(crate) before: TextBuffer,

    /// Lines of comments on what isn't declared.
    pub(crate) notes: TextBuffer,

    /// Its pieces, in the order of the records.
    pub(crate) pieces: Vec<Piece>,

    /// The names of its base classes without members, which take no bytes.
    pub(crate) empty_bases: Vec<Vec<u8>>,

    /// The assertions of where its members are.
    pub(crate) assertions: TextBuffer,
}

/// How a member is declared.
#[derive(Drop)]
pub(crate) struct Declared {
    /// The declaration.
    pub(crate) text: Vec<u8>,

    /// To how many bytes its type is aligned.
    pub(crate) alignment: u64,
}

/// A class of which a header gets the definition.
#[derive(Drop)]
pub(crate) struct Sketcher<'s, 'd, 't> {
    /// What all parts of the header are written by.
    pub(crate) context: &'s Context<'d, 't>,

    /// What the header has so far.
    pub(crate) known: &'s mut Known,

    /// The class.
    pub(crate) target: &'s Target<'t>,

    /// What its definition is made of so far.
    pub(crate) sketch: Sketch,
}

impl<'s, 'd, 't> Sketcher<'s, 'd, 't> {
    /// Returns whether the class is in a namespace, so that names in it are looked for there first.
    pub(crate) fn is_scoped(&self) -> bool {
        !self.target.name.scope.is_empty()
    }

    /// Returns how a name is declared that has a type, or None if the header can't say it.
    pub(crate) fn declared(
        &mut self,
        alloc: Global,
        index: TypeIndex,
        name: &[u8],
    ) -> Result<Option<Declared>> {
        let Some(alignment) = self.context.alignment(index, self.known)? else {
            return Ok(None);
        };
        let is_scoped = self.is_scoped();
        let before = &mut self.sketch.before;
        let text = declared_text(self.context, index, name, is_scoped, self.known, before)?;
        match text {
            Some(text) => Ok(Some(Declared { text, alignment })),
            None => Ok(None),
        }
    }

    /// Adds a line of comment on a member that isn't declared.
    pub(crate) fn push_note(&mut self, why: &str, what: &[u8]) {
        let notes = &mut self.sketch.notes;
        notes.push(b"    // ");
        notes.push(why.as_bytes());
        notes.push(b": ");
        push_quoted(what, notes);
        notes.push(b"\n");
    }
}

/// Appends the assertion of the size of a type, or of where a member of it begins.
pub(crate) fn push_assertion(
    context: &Context<'_, '_>,
    target: &Target<'_>,
    member: Option<&[u8]>,
    number: u64,
    out: &mut TextBuffer,
) {
    if context.is_c() {
        out.push(b"_Static_assert(");
    } else {
        out.push(b"static_assert(");
    }
    out.push(if member.is_some() {
        b"offsetof(".as_slice()
    } else {
        b"sizeof(".as_slice()
    });
    push_mention(context, target, false, out);
    if let Some(name) = member {
        out.push(b", ");
        out.push(name);
    }
    push_number(b") == ", number, out);
    out.push(b", \"");
    target.name.push_to(out);
    if let Some(name) = member {
        out.push(b".");
        out.push(name);
    }
    out.push(b"\");\n");
}

/// Appends a text and a number in decimal behind it.
pub(crate) fn push_number(before: &[u8], number: u64, out: &mut TextBuffer) {
    let mut buffer = itoa::Buffer::new();
    out.push(before);
    out.push(buffer.format(number).as_bytes());
}
