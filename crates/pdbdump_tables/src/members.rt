//! The members of a type: the fields of a class, a union or an enumeration, through all lists that
//! hold them, and the methods of a list.

ghost use Rattle.std.specs.Prelude.{[], OnOk};
ghost use Rattle.pdbdump_rows.specs.Line.{AddsRow, AddsText, HasText, IsRow};
ghost use Rattle.pdbdump_rows.specs.Lines.{row_text};
ghost use Rattle.pdbdump_rows.specs.Rows.{AreLines};

use pdb_base::{Result, TypeIndex};
use pdb_tpi::OpenTable;
use pdb_types::enumerator_value;
use pdb_values::{EnumerateType, MethodListEntry, TypeData};
use pdbdump_rows::{Form, Line, append_line, show_entry, show_listed_method};
use std::alloc::Global;

/// Adds the fields of a field. The value of an enumerator is a number of the type under its
/// enumeration, if that is given.
fn show_typed(field: &TypeData<'_>, underlying_type: Option<TypeIndex>, line: &mut Line)
    ensures { AddsRow [] line.old line.new }
{
    match (field, underlying_type) {
        (TypeData::Enumerate(enumerator), Some(underlying_type)) => {
            let value = enumerator_value(enumerator.value, underlying_type);
            let typed = TypeData::Enumerate(EnumerateType {
                value,
                attributes: enumerator.attributes,
                name: enumerator.name,
            });
            show_entry(line, &typed);
        }
        _ => show_entry(line, field),
    }
}

/// Appends the line of a field.
#[tactic(auto, using(pdbdump_rows::proofs::lemmas::Line::showing))]
fn push_entry(
    form: Form,
    field: &TypeData<'_>,
    underlying_type: Option<TypeIndex>,
    line: &mut Line,
    lines: &mut Vec<u8>,
) -> Result<()>
    ensures { AddsText (IsRow (row_text form) []) lines.old.items lines.new.items result }
{
    line.begin(form);
    show_typed(field, underlying_type, line);
    append_line(line, lines)
}

/// Appends a line for each field.
#[tactic(auto, using(pdbdump_rows::proofs::lemmas::Rows::lines_none_added, pdbdump_rows::proofs::lemmas::Rows::line_added))]
fn push_entries(
    form: Form,
    fields: &[TypeData<'_>],
    underlying_type: Option<TypeIndex>,
    line: &mut Line,
    lines: &mut Vec<u8>,
) -> Result<()>
    ensures { AddsText (AreLines form) lines.old.items lines.new.items result }
{
    for field in fields {
        push_entry(form, field, underlying_type, line, lines)?;
    }
    Ok(())
}

/// Appends the line of a method.
#[tactic(auto, using(pdbdump_rows::proofs::lemmas::Line::showing))]
fn push_method(
    form: Form,
    method: MethodListEntry,
    line: &mut Line,
    lines: &mut Vec<u8>,
) -> Result<()>
    ensures { AddsText (IsRow (row_text form) []) lines.old.items lines.new.items result }
{
    line.begin(form);
    show_listed_method(line, method);
    append_line(line, lines)
}

/// Appends a line for each method.
#[tactic(auto, using(pdbdump_rows::proofs::lemmas::Rows::lines_none_added, pdbdump_rows::proofs::lemmas::Rows::line_added))]
fn push_methods(
    form: Form,
    methods: &[MethodListEntry],
    line: &mut Line,
    lines: &mut Vec<u8>,
) -> Result<()>
    ensures { AddsText (AreLines form) lines.old.items lines.new.items result }
{
    for method in methods {
        push_method(form, *method, line, lines)?;
    }
    Ok(())
}

/// Appends a line for each field of a list and of the lists in which it continues.
fn push_list(
    alloc: Global,
    form: Form,
    types: &OpenTable<TypeIndex>,
    list: TypeIndex,
    underlying_type: Option<TypeIndex>,
    line: &mut Line,
    lines: &mut Vec<u8>,
) -> Result<()>
    ensures { OnOk result (HasText (AreLines form) lines.old.items lines.new.items) }
{
    let fields = types.fields(alloc, list)?;
    push_entries(form, fields.as_slice(), underlying_type, line, lines)?;
    Ok(())
}

/// Returns the list in which the fields of a type begin: the type itself if it is a list of fields,
/// or the list that a class, a union or an enumeration names.
pub(crate) fn list_of_fields(index: TypeIndex, value: &TypeData<'_>) -> Option<TypeIndex> {
    match value {
        TypeData::Class(class) => class.fields,
        TypeData::Union(union_type) => Some(union_type.fields),
        TypeData::Enumeration(enumeration) => Some(enumeration.fields),
        TypeData::FieldList(_) => Some(index),
        _ => None,
    }
}

/// Returns the type under an enumeration, or None for another type.
fn underlying_type(value: &TypeData<'_>) -> Option<TypeIndex> {
    match value {
        TypeData::Enumeration(enumeration) => Some(enumeration.underlying_type),
        _ => None,
    }
}

/// Appends a line for each member of a type, made as this one, which shows the texts of types.
///
/// # Errors
/// Fails with the error of the lists of fields, or with `OutOfMemory` if an allocation fails.
#[tactic(auto, using(pdbdump_rows::proofs::lemmas::Rows::lines_none_added))]
pub(crate) fn push_members(
    alloc: Global,
    form: Form,
    types: &OpenTable<TypeIndex>,
    index: TypeIndex,
    value: &TypeData<'_>,
    line: &mut Line,
    lines: &mut Vec<u8>,
) -> Result<()>
    ensures { OnOk result (HasText (AreLines form) lines.old.items lines.new.items) }
{
    if let TypeData::MethodList(list) = value {
        return push_methods(form, &list.methods, line, lines);
    }
    match list_of_fields(index, value) {
        Some(list) => push_list(
            alloc,
            form,
            types,
            list,
            underlying_type(value),
            line,
            lines,
        ),
        None => Ok(()),
    }
}
