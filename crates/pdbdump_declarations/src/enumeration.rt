//! The definition of an enumeration.

use crate::class_text::push_origin;
use crate::context::{Context, Target};
use crate::integer::{is_int, push_constant};
use crate::known::Known;
use crate::member_names::distinct_names;
use crate::memory::AllocResult;
use crate::mention::{push_declaration, underlying_text};
use crate::sketch::push_assertion;
use pdb_base::Result;
use pdb_values::EnumerationType;
use pdbdump_types::{Enumerator, TextBuffer, enumerators_of};
use std::alloc::Global;

/// Returns the names of enumerators in a header.
fn names_of(alloc: Global, all: &[Enumerator<'_>]) -> AllocResult<Vec<Vec<u8>>> {
    let mut names = Vec::new(alloc);
    for enumerator in all {
        names.push(enumerator.name.as_bytes())?;
    }
    distinct_names(alloc, &names, b"")
}

/// Appends enumerators with these names, over a type, in C++.
fn push_cpp(
    target: &Target<'_>,
    all: &[Enumerator<'_>],
    names: &[Vec<u8>],
    underlying: &[u8],
    out: &mut TextBuffer,
) {
    out.push(b"enum class ");
    target.name.push_to(out);
    out.push(b" : ");
    out.push(underlying);
    out.push(b" {\n");
    for (enumerator, name) in all.iter().zip(names.iter()) {
        out.push(b"    ");
        out.push(name);
        out.push(b" = ");
        push_constant(enumerator.value, out);
        out.push(b",\n");
    }
    out.push(b"};\n");
}

/// Appends enumerators with these names in C, where that of the enumeration is before each: as an
/// enumeration of those that are an `int`, and as macros.
fn push_c(target: &Target<'_>, all: &[Enumerator<'_>], names: &[Vec<u8>], out: &mut TextBuffer) {
    for (enumerator, name) in all.iter().zip(names.iter()) {
        let (before, between, behind) = if is_int(enumerator.value) {
            ("enum { ", " = ", " };\n")
        } else {
            ("#define ", " ", "\n")
        };
        out.push(before.as_bytes());
        target.name.push_to(out);
        out.push(b"__");
        out.push(name);
        out.push(between.as_bytes());
        push_constant(enumerator.value, out);
        out.push(behind.as_bytes());
    }
}

/// Appends the definition of an enumeration, with the assertion of its size.
///
/// # Errors
/// Fails as `OpenTable::fields` and `Definitions::marked_text` do.
pub(crate) fn push_enumeration<'t>(
    context: &Context<'_, 't>,
    target: &Target<'t>,
    enumeration: &EnumerationType<'t>,
    known: &mut Known,
    text: &mut TextBuffer,
) -> Result<()> {
    let underlying = enumeration.underlying_type;
    let all = enumerators_of(context.table, enumeration.fields, underlying)?;
    let names = names_of(context.table.alloc, &all)?;
    push_origin(target, text);
    if context.is_c() || !target.name.scope.is_empty() {
        push_declaration(context, target, known, text)?;
    }
    known.declare(target.index);
    if context.is_c() {
        push_c(target, &all, &names, text);
    } else {
        let underlying = underlying_text(context, target.named.underlying)?;
        push_cpp(target, &all, &names, &underlying, text);
    }
    let size = context
        .table
        .definitions
        .size_of(context.table.alloc, target.index)?
        .unwrap_or(0);
    push_assertion(context, target, None, size, text);
    text.push(b"\n");
    known.define(target.index, size, false);
    Ok(())
}
