//! The header of the types that names mean.

ghost use Rattle.std.specs.Prelude.{IfOk, OnOk};
ghost use Rattle.pdbdump_types.specs.Shown.{ShowsTypes, StaysAccounted};

use crate::class_text::push_class;
use crate::context::Context;
use crate::enumeration::push_enumeration;
use crate::known::Known;
use crate::memory::AllocResult;
use crate::naming::Naming;
use crate::needed::limit_types;
use crate::options::{Language, Options};
use crate::roots::{first_types, types_named};
use crate::sketch::push_number;
use crate::table_walk::{Walked, walk};
use pdb_base::{Error, Stream, TypeIndex};
use pdb_output::Output;
use pdb_types::{DeclarationOrder, Definitions};
use pdb_values::TypeData;
use pdbdump_types::{
    Progress, Table, TextBuffer, is_pattern, learn_table, tell, tell_fault, tell_index, type_at,
};
use std::alloc::Global;
use std::io::Write;

/// Why a name or a type isn't declared.
const NO_NAME: &[u8] = b"no class, union or enumeration is defined that is called so";

const HOLDS_ITSELF: &[u8] = b"a class that holds itself, so that nothing can be declared";

/// Returns the lines with which a header begins.
fn head_text(alloc: Global, language: Language, pointer_size: u64) -> AllocResult<Vec<u8>> {
    let (word, includes) = match language {
        Language::Cpp => ("C++", "#include <stddef.h>\n\n"),
        Language::C => ("C", "#include <stdbool.h>\n#include <stddef.h>\n\n"),
    };
    let mut text = TextBuffer::new(alloc);
    text.push(b"// Types of a program database, in ");
    text.push(word.as_bytes());
    let bits = pointer_size.saturating_mul(8);
    push_number(b" for a program of ", bits, &mut text);
    text.push(b" bits.\n#pragma once\n");
    text.push(includes.as_bytes());
    text.finish()
}

/// Returns the definition of a type, with what it needs.
fn type_text<'t>(
    context: &Context<'_, 't>,
    index: TypeIndex,
    known: &mut Known,
) -> Result<Vec<u8>, Error> {
    let Some(target) = context.target(index)? else {
        return Ok(Vec::new(context.table.alloc));
    };
    let table = context.table;
    let mut text = TextBuffer::new(context.table.alloc);
    if let TypeData::Enumeration(enumeration) = table.type_at(index)? {
        push_enumeration(context, &target, &enumeration, known, &mut text)?;
    } else if let Some(layout) = table.definitions.layout_of(context.table.alloc, index)? {
        push_class(context, &target, &layout, known, &mut text)?;
    }
    Ok(text.finish()?)
}

/// Writes the definition of a type, or tells why it can't be written.
fn declare_type<O: Write, E: Write>(
    context: &Context<'_, '_>,
    index: TypeIndex,
    known: &mut Known,
    progress: &mut Progress,
    out: &mut Output<O>,
    err: &mut Output<E>,
) -> Result<(), Error>
    ensures { OnOk result (StaysAccounted progress.old progress.new err.old err.new) }
{
    match type_text(context, index, known) {
        Ok(text) => out.write(&text),
        Err(fault) => tell_fault(context.table.alloc, index, &fault, progress, err),
    }
}

/// Writes the definitions of types.
fn declare_types<O: Write, E: Write>(
    context: &Context<'_, '_>,
    types: &[TypeIndex],
    known: &mut Known,
    progress: &mut Progress,
    out: &mut Output<O>,
    err: &mut Output<E>,
) -> Result<(), Error>
    ensures { OnOk result (StaysAccounted progress.old progress.new err.old err.new) }
{
    for index in types {
        declare_type(context, *index, known, progress, out, err)?;
    }
    Ok(())
}

/// Writes a header with the definitions of types, which are in an order in which they can be declared.
fn declare_ordered<O: Write, E: Write>(
    context: &Context<'_, '_>,
    types: &[TypeIndex],
    behind: u32,
    progress: &mut Progress,
    out: &mut Output<O>,
    err: &mut Output<E>,
) -> Result<(), Error>
    ensures { OnOk result (StaysAccounted progress.old progress.new err.old err.new) }
{
    let header = context.table.definitions.types().items().header();
    let mut known = Known::new(
        context.table.alloc,
        header.minimum_index,
        behind,
        progress.texts(),
    )?;
    let head = head_text(context.table.alloc, context.language, context.pointer_size)?;
    out.write(&head)?;
    declare_types(context, types, &mut known, progress, out, err)
}

/// Tells of the types of a cycle, each of which holds the next one, and the last one the first.
fn tell_cycle<E: Write>(
    alloc: Global,
    cycle: &[TypeIndex],
    progress: &mut Progress,
    err: &mut Output<E>,
) -> Result<(), Error>
    ensures { OnOk result (StaysAccounted progress.old progress.new err.old err.new) }
{
    for index in cycle {
        tell_index(alloc, *index, HOLDS_ITSELF, progress, err)?;
    }
    Ok(())
}

/// Adds the types that a name means to some, or tells that it means none.
fn find_name<E: Write>(
    table: Table<'_, '_>,
    walked: &Walked<'_>,
    name: &str,
    found: &mut Vec<TypeIndex>,
    progress: &mut Progress,
    err: &mut Output<E>,
) -> Result<(), Error>
    ensures { OnOk result (StaysAccounted progress.old progress.new err.old err.new) }
{
    let types = types_named(table, walked, name)?;
    if types.is_empty() {
        return tell(table.alloc, name.as_bytes(), NO_NAME, progress, err);
    }
    found.extend_from_slice(&types)?;
    Ok(())
}

/// Does the same for each of some names.
fn find_names<E: Write>(
    table: Table<'_, '_>,
    walked: &Walked<'_>,
    names: &[&str],
    found: &mut Vec<TypeIndex>,
    progress: &mut Progress,
    err: &mut Output<E>,
) -> Result<(), Error>
    ensures { OnOk result (StaysAccounted progress.old progress.new err.old err.new) }
{
    for name in names {
        find_name(table, walked, name, found, progress, err)?;
    }
    Ok(())
}

/// Returns whether all types are wanted, or those of a pattern. A record that can't be read may be
/// one of these.
fn has_pattern(names: &[&str], options: &Options) -> bool {
    options.all || names.iter().any(|name| is_pattern(name.as_bytes()))
}

/// Tells of the records that can't be read, if what they define may be wanted.
fn tell_unread<E: Write>(
    alloc: Global,
    walked: &Walked<'_>,
    names: &[&str],
    options: &Options,
    progress: &mut Progress,
    err: &mut Output<E>,
) -> Result<(), Error>
    ensures { OnOk result (StaysAccounted progress.old progress.new err.old err.new) }
{
    if !has_pattern(names, options) {
        return Ok(());
    }
    walked.unread.tell(alloc, b"", progress, err)
}

/// Writes the header of the types of a table that are wanted.
fn declare_asked<O: Write, E: Write>(
    table: Table<'_, '_>,
    names: &[&str],
    options: &Options,
    progress: &mut Progress,
    out: &mut Output<O>,
    err: &mut Output<E>,
) -> Result<(), Error>
    ensures { OnOk result (StaysAccounted progress.old progress.new err.old err.new) }
{
    let walked = walk(table)?;
    let naming = Naming::new(table.alloc, &walked, options.language)?;
    let mut roots = first_types(table.alloc, &walked, options.all)?;
    find_names(table, &walked, names, &mut roots, progress, err)?;
    tell_unread(table.alloc, &walked, names, options, progress, err)?;
    limit_types(table, walked.behind, &mut roots, progress, err)?;
    let context = Context {
        table,
        naming: &naming,
        language: options.language,
        pointer_size: walked.pointer_size,
    };
    match table.definitions.declaration_order(table.alloc, &roots)? {
        DeclarationOrder::Ordered(types) => {
            declare_ordered(&context, &types, walked.behind, progress, out, err)
        }
        DeclarationOrder::Cycle(cycle) => tell_cycle(table.alloc, &cycle, progress, err),
    }
}

/// Writes a header that declares types of the table in a stream: all of them, or those that names
/// mean, in which an index such as `0x1026`, a pattern with `*` and `?`, and the name of a class, a
/// union or an enumeration are allowed; and behind each other, all that these need to be whole.
/// Returns whether each name was found and no type was left out; what went wrong is written to the
/// error channel.
///
/// Each class has the size and the members at the places that the file says, which the header asserts.
/// What the language can't say is an array of bytes. If a class holds itself, directly or through
/// others, nothing is declared.
///
/// # Errors
/// Fails with the errors of `TypeInformation::parse` and with the fault at which the table stops,
/// before anything is written; with `IoError` if the output fails; and with `OutOfMemory` if an
/// allocation fails.
pub fn declare<O: Write, E: Write>(
    alloc: Global,
    stream: Stream,
    names: &[&str],
    options: &Options,
    out: &mut Output<O>,
    err: &mut Output<E>,
) -> Result<bool, Error>
    ensures { IfOk result (ShowsTypes stream err.old err.new) }
{
    let mut progress = Progress::new(stream.as_slice().len());
    let types = learn_table(alloc, stream)?;
    let definitions = Definitions::new(alloc, &types)?;
    let table = Table {
        alloc,
        definitions: &definitions,
    };
    declare_asked(table, names, options, &mut progress, out, err)?;
    Ok(progress.is_whole)
}
