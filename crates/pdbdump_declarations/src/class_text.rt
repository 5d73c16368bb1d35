//! The definition of a class or a union.

use crate::body::Body;
use crate::comment::push_quoted;
use crate::context::{Context, Target};
use crate::group::{Group, greatest_alignment, groups_of, is_natural};
use crate::known::Known;
use crate::memory::AllocResult;
use crate::mention::{push_declaration, push_mention};
use crate::piece::{Piece, align_up};
use crate::sketch::{Sketch, Sketcher, push_assertion, push_number};
use crate::table_walk::Word;
use pdb_base::Result;
use pdb_types::Layout;
use pdbdump_types::TextBuffer;
use std::alloc::Global;

/// How a class is laid out in a header.
#[derive(Drop)]
struct Plan {
    groups: Vec<Group>,
    is_natural: bool,
    alignment: u64,

    /// How many groups are base classes in the head of the definition.
    bases: usize,
}

/// Returns how many of the first pieces are base classes where the compiler puts them, or 0 if not
/// all bases are.
fn inherited(pieces: &[Piece], groups: &[Group], is_natural: bool) -> usize {
    let count = pieces.iter().filter(|piece| piece.base.is_some()).count();
    let mut at = 0;
    for (piece, group) in pieces.iter().zip(groups.iter()).take(count) {
        let place = if is_natural {
            align_up(at, piece.alignment)
        } else {
            at
        };
        if piece.base.is_none() || group.is_union() || piece.start != place {
            return 0;
        }
        at = piece.end;
    }
    count
}

/// Returns one group of all pieces of a union.
fn union_groups(alloc: Global, pieces: &[Piece]) -> AllocResult<Vec<Group>> {
    let mut groups = Vec::new(alloc);
    let mut group = Group {
        first: 0,
        behind: pieces.len(),
        start: 0,
        end: 0,
        alignment: 1,
    };
    for piece in pieces {
        group.end = group.end.max(piece.end);
        group.alignment = group.alignment.max(piece.alignment);
    }
    groups.push(group)?;
    Ok(groups)
}

/// Returns how a class of a size is laid out.
fn plan_of(context: &Context<'_, '_>, word: Word, sketch: &Sketch, size: u64) -> AllocResult<Plan> {
    let pieces = &sketch.pieces;
    let groups = if word == Word::Union {
        union_groups(context.table.alloc, pieces)?
    } else {
        groups_of(context.table.alloc, pieces)?
    };
    let is_natural = is_natural(pieces, &groups, size);
    let alignment = if is_natural {
        greatest_alignment(&groups)
    } else {
        1
    };
    let has_heads = !context.is_c() && word == Word::Struct && sketch.empty_bases.is_empty();
    let bases = if has_heads {
        inherited(pieces, &groups, is_natural)
    } else {
        0
    };
    Ok(Plan {
        groups,
        is_natural,
        alignment,
        bases,
    })
}

/// Appends the base classes behind the name of a class.
fn push_bases(context: &Context<'_, '_>, sketch: &Sketch, plan: &Plan, out: &mut TextBuffer) {
    let mut mark: &[u8] = b" : ";
    for piece in sketch.pieces.iter().take(plan.bases) {
        if let Some(base) = &piece.base {
            out.push(mark);
            out.push(base);
            mark = b", ";
        }
    }
    let has_base = sketch.pieces.iter().any(|piece| piece.base.is_some());
    match sketch.empty_bases.as_slice() {
        [base] if !has_base && !context.is_c() => {
            out.push(b" : ");
            out.push(base);
        }
        _ => {}
    }
}

/// Appends the pieces of a class between its braces.
fn push_body(
    context: &Context<'_, '_>,
    word: Word,
    sketch: &Sketch,
    plan: &Plan,
    size: u64,
    out: &mut TextBuffer,
) {
    let mut body = Body {
        pieces: &sketch.pieces,
        groups: &plan.groups,
        is_natural: plan.is_natural,
        at: 0,
    };
    if word == Word::Union {
        body.push_alternatives(1, &sketch.pieces, 0, out);
        let end = plan.groups.first().map(|group| group.end).unwrap_or(0);
        if align_up(end, plan.alignment) < size {
            push_number(b"    unsigned char pad_0x0[", size, out);
            out.push(b"];\n");
        }
        return;
    }
    if sketch.pieces.is_empty() && size == 1 && !context.is_c() {
        return;
    }
    for group in plan.groups.iter().take(plan.bases) {
        body.at = group.end;
    }
    body.push_groups(plan.bases, size, plan.alignment, out);
}

/// Appends a comment with the name and the index of a type as the file has them.
pub(crate) fn push_origin(target: &Target<'_>, out: &mut TextBuffer) {
    out.push(b"// 0x");
    out.push_hexadecimal(target.index.0 as u64);
    out.push(b" ");
    push_quoted(target.named.name.as_bytes(), out);
    out.push(b"\n");
}

/// Appends the definition of a class from what it is made of.
fn push_definition(
    context: &Context<'_, '_>,
    target: &Target<'_>,
    sketch: &Sketch,
    plan: &Plan,
    size: u64,
    out: &mut TextBuffer,
) {
    if !plan.is_natural {
        out.push(b"#pragma pack(push, 1)\n");
    }
    push_mention(context, target, false, out);
    push_bases(context, sketch, plan, out);
    out.push(b" {\n");
    out.push_text(&sketch.notes);
    for base in &sketch.empty_bases {
        out.push(b"    // a base without members: ");
        out.push(base);
        out.push(b"\n");
    }
    push_body(context, target.named.word, sketch, plan, size, out);
    out.push(b"};\n");
    if !plan.is_natural {
        out.push(b"#pragma pack(pop)\n");
    }
}

/// Appends the definition of a class or a union, with the declarations before it that it needs and
/// the assertions of its size and of the places of its members.
///
/// # Errors
/// Fails as `Definitions::marked_text` and `Definitions::size_of` do for its fields.
pub(crate) fn push_class<'t>(
    context: &Context<'_, 't>,
    target: &Target<'t>,
    layout: &Layout<'t>,
    known: &mut Known,
    text: &mut TextBuffer,
) -> Result<()> {
    let mut sketcher = Sketcher {
        context,
        known,
        target,
        sketch: Sketch {
            before: TextBuffer::new(context.table.alloc),
            notes: TextBuffer::new(context.table.alloc),
            pieces: Vec::new(context.table.alloc),
            empty_bases: Vec::new(context.table.alloc),
            assertions: TextBuffer::new(context.table.alloc),
        },
    };
    sketcher.add_fields(context.table.alloc, layout)?;
    let Sketcher { known, sketch, .. } = sketcher;
    let (word, size) = (target.named.word, layout.size);
    text.push_text(&sketch.before);
    push_origin(target, text);
    if size == 0 || !target.name.scope.is_empty() {
        push_declaration(context, target, known, text)?;
    }
    known.declare(target.index);
    if size == 0 {
        text.push(b"// It has no bytes, so there is no definition.\n\n");
        return Ok(());
    }
    let plan = plan_of(context, word, &sketch, size)?;
    push_definition(context, target, &sketch, &plan, size, text);
    push_assertion(context, target, None, size, text);
    text.push_text(&sketch.assertions);
    text.push(b"\n");
    let is_empty = sketch.pieces.is_empty() && size == 1;
    known.define(target.index, plan.alignment, is_empty);
    Ok(())
}
