//! Types that a declaration mentions, and the declarations that this needs.

use crate::context::{Context, Target};
use crate::known::Known;
use crate::naming::Name;
use crate::table_walk::Word;
use pdb_base::{Result, TypeIndex};
use pdbdump_types::TextBuffer;

/// How many bytes the declaration of a member has at most.
const MOST_BYTES: usize = 65_536;

/// Returns the type of the values of an enumeration.
///
/// # Errors
/// Fails as `Definitions::marked_text` does.
pub(crate) fn underlying_text(context: &Context<'_, '_>, underlying: TypeIndex) -> Result<Vec<u8>> {
    if underlying.0 < 0x100 {
        if let Some(text) = context
            .table
            .definitions
            .marked_text(context.table.alloc, underlying, b"")?
        {
            return Ok(text);
        }
    }
    Ok(Vec::from_slice(context.table.alloc, b"int")?)
}

/// Appends the name of a type as a declaration of C or C++ mentions it, with the word for what it is.
pub(crate) fn push_mention(
    context: &Context<'_, '_>,
    target: &Target<'_>,
    is_scoped: bool,
    out: &mut TextBuffer,
) {
    if !(context.is_c() && target.named.word == Word::Enum) {
        out.push(target.named.word.text().as_bytes());
        out.push(b" ");
    }
    if is_scoped {
        out.push(b"::");
    }
    target.name.push_to(out);
}

/// Appends the namespaces of a name with their braces, and returns how many they are.
fn push_namespaces(name: &Name, out: &mut TextBuffer) -> u64 {
    let mut count: u64 = 0;
    for scope in name.scope.split(|byte| *byte == b':') {
        if !scope.is_empty() {
            out.push(b"namespace ");
            out.push(scope);
            out.push(b" { ");
            count = count.saturating_add(1);
        }
    }
    count
}

/// Appends the declaration of an enumeration over a type, in C.
fn push_alias(target: &Target<'_>, underlying: &[u8], out: &mut TextBuffer) {
    out.push(b"typedef ");
    out.push(underlying);
    out.push(b" ");
    target.name.push_to(out);
    out.push(b";\n");
}

/// Appends the declaration of a class, a union, or in C++ an enumeration over a type.
fn push_forward(target: &Target<'_>, underlying: Option<&[u8]>, out: &mut TextBuffer) {
    let count = push_namespaces(&target.name, out);
    out.push(target.named.word.text().as_bytes());
    out.push(if underlying.is_some() {
        b" class "
    } else {
        b" "
    });
    out.push(&target.name.identifier);
    if let Some(underlying) = underlying {
        out.push(b" : ");
        out.push(underlying);
    }
    out.push(b";");
    for _ in 0..count {
        out.push(b" }");
    }
    out.push(b"\n");
}

/// Appends the declaration of a type that isn't declared yet.
///
/// # Errors
/// Fails as `Definitions::marked_text` does.
pub(crate) fn push_declaration(
    context: &Context<'_, '_>,
    target: &Target<'_>,
    known: &mut Known,
    out: &mut TextBuffer,
) -> Result<()> {
    if known.declare(target.index) {
        return Ok(());
    }
    if target.named.word != Word::Enum {
        push_forward(target, None, out);
        return Ok(());
    }
    let underlying = underlying_text(context, target.named.underlying)?;
    if context.is_c() {
        push_alias(target, &underlying, out);
    } else {
        push_forward(target, Some(&underlying), out);
    }
    Ok(())
}

/// Returns the index that eight hexadecimal digits behind a mark spell.
fn index_of(digits: &[u8]) -> TypeIndex {
    let mut number: u32 = 0;
    for digit in digits {
        let value = (*digit as char).to_digit(16).unwrap_or(0);
        number = number.wrapping_mul(16).wrapping_add(value);
    }
    TypeIndex(number)
}

/// Returns the declaration of a name that has a type, with the names of the header in the place of
/// marks; appends the declarations that this needs. Returns None if it is too long, if no more texts may
/// be written, or if C can't say the type.
///
/// # Errors
/// Fails as `Definitions::marked_text` and `Definitions::definition_of` do.
pub(crate) fn declared_text(
    context: &Context<'_, '_>,
    index: TypeIndex,
    name: &[u8],
    is_scoped: bool,
    known: &mut Known,
    before: &mut TextBuffer,
) -> Result<Option<Vec<u8>>> {
    if known.texts.is_spent() {
        return Ok(None);
    }
    let Some(marked) = context
        .table
        .definitions
        .marked_text(context.table.alloc, index, name)?
    else {
        return Ok(None);
    };
    known.texts.take(marked.len());
    let mut text = TextBuffer::new(context.table.alloc);
    let mut is_first = true;
    for part in marked.split(|byte| *byte == b'@') {
        if is_first {
            text.push(part);
            is_first = false;
            continue;
        }
        let digits = part.get(..8).unwrap_or(part);
        let behind = part.get(8..).unwrap_or(b"");
        if let Some(target) = context.target(index_of(digits))? {
            known.texts.take(target.named.name.len());
            push_declaration(context, &target, known, before)?;
            push_mention(context, &target, is_scoped, &mut text);
        }
        text.push(behind);
        if text.as_bytes().len() > MOST_BYTES {
            return Ok(None);
        }
    }
    Ok(Some(text.finish()?))
}
