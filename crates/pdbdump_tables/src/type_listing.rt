//! Types in full.

ghost use Rattle.pdbdump_rows.specs.Line.{EndsRow, indexed};
ghost use Rattle.pdbdump_rows.specs.Lines.{full_text};
ghost use Rattle.pdbdump_tables.specs.Listed.{IsShown};

use crate::members::push_members;
use crate::refused_record::write_unread;
use crate::shown_texts::texts_of;
use pdb_base::{Result, Stream, TypeIndex};
use pdb_output::Output;
use pdb_tpi::OpenTable;
use pdb_values::TypeData;
use pdbdump_rows::{Form, Line, show_type};
use pdbdump_types::learn_table;
use std::alloc::{AllocError, Global};
use std::io::Write;
use std::result;

/// Makes the text of a type in full.
#[tactic(auto, using(pdbdump_rows::proofs::lemmas::Line::showing))]
fn make_full(
    form: Form,
    index: u32,
    leaf: u16,
    value: &TypeData<'_>,
    line: &mut Line,
) -> result::Result<(), AllocError>
    ensures { EndsRow (full_text form) (indexed index) line.new result }
{
    line.begin_full(form);
    show_type(line, index, leaf, value);
    line.finish()
}

/// Writes a type of a table in full, with the texts of the types to which it refers, and then a line
/// for each of its members.
#[tactic(auto, using(crate::proofs::ShownLemmas::unshown))]
fn write_value<W: Write>(
    alloc: Global,
    types: &OpenTable<TypeIndex>,
    index: u32,
    leaf: u16,
    value: &TypeData<'_>,
    form: Form,
    out: &mut Output<W>,
) -> Result<()>
    ensures { IsShown form index out.old out.new result }
{
    let mut line = Line::new(alloc);
    line.show_texts(texts_of(alloc, types, TypeIndex(index), value, form)?);
    make_full(form, index, leaf, value, &mut line)?;
    out.write(line.as_bytes())?;
    let mut lines = Vec::new(alloc);
    push_members(
        alloc,
        form,
        types,
        TypeIndex(index),
        value,
        &mut line,
        &mut lines,
    )?;
    out.write(&lines)?;
    Ok(())
}

/// Looks up the type of an index in the table of a stream and writes it in full, and then a line for
/// each of its members.
#[tactic(auto, using(crate::proofs::ShownLemmas::unshown))]
fn write_type<W: Write>(
    alloc: Global,
    types: &OpenTable<TypeIndex>,
    stream: u32,
    index: u32,
    form: Form,
    out: &mut Output<W>,
) -> Result<()>
    ensures { IsShown form index out.old out.new result }
{
    let item = types.item(TypeIndex(index))?;
    match item.parse(alloc) {
        Ok(value) => write_value(alloc, types, index, item.raw_kind(), &value, form, out),
        Err(fault) => write_unread(alloc, types, stream, &item, fault, form, out),
    }
}

/// Looks up the type of an index in the table in a stream and writes it in full, and then a line
/// for each of its members: the fields of a class, a union, an enumeration or a list of fields,
/// through all lists that hold them, or the methods of a list. Beside the index of a type that is no
/// list its text is shown, if the table can be walked to its end.
///
/// # Errors
/// Fails with the error of the table or the look-up, before anything is written; with the error of
/// the record, after a text that says so and where the record is; with the error of the lists of
/// fields, after the type itself; with `IoError` if the writer fails,
/// after a prefix of what is meant to be written; and with `OutOfMemory` if an allocation fails.
#[tactic(auto, using(crate::proofs::ShownLemmas::unshown))]
pub fn type_at<W: Write>(
    alloc: Global,
    stream: Stream,
    number: u32,
    index: u32,
    form: Form,
    out: &mut Output<W>,
) -> Result<()>
    ensures { IsShown form index out.old out.new result }
{
    let types = learn_table(alloc, stream)?;
    write_type(alloc, &types, number, index, form, out)
}
