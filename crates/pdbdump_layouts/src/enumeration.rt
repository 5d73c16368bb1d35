//! Enumerations as they are shown: as declarations in C++, in the style of WinDbg's `dt`, and as
//! objects of JSON.

use crate::options::{C_WIDTH, DT_WIDTH, Style};
use pdb_base::{RawString, Result, TypeIndex};
use pdb_values::TypeData;
use pdbdump_rows::{Form, Value};
use pdbdump_types::{
    Enumerator, ObjectBuffer, Table, TextAllowance, TextBuffer, enumerators_of, push_enumerator,
    show_enumerator, type_at, unmodified,
};
use std::alloc::Global;

/// An enumeration.
#[derive(Clone, Copy)]
struct Enumeration<'t> {
    /// The index of the definition.
    index: TypeIndex,

    /// The name.
    name: RawString<'t>,

    /// The list of the enumerators.
    list: TypeIndex,

    /// The type that holds a value.
    underlying_type: TypeIndex,
}

/// An enumeration with what is shown of it.
#[derive(Drop)]
struct ShownEnumeration<'t> {
    enumeration: Enumeration<'t>,
    enumerators: Vec<Enumerator<'t>>,

    /// The text of the type that holds a value.
    type_text: Vec<u8>,

    /// How many bytes a value takes, if something says it.
    size: Option<u64>,
}

/// Returns the enumeration of a record with this index.
fn enumeration_in<'t>(index: TypeIndex, value: &TypeData<'t>) -> Option<Enumeration<'t>> {
    match value {
        TypeData::Enumeration(record) => Some(Enumeration {
            index,
            name: record.name,
            list: record.fields,
            underlying_type: record.underlying_type,
        }),
        _ => None,
    }
}

/// Returns the enumeration of an index, also of one with modifiers, or None for another type.
fn enumeration_at<'t>(table: Table<'_, 't>, index: TypeIndex) -> Result<Option<Enumeration<'t>>> {
    let types = table.definitions.types();
    let Some(index) = unmodified(table.alloc, types, index)? else {
        return Ok(None);
    };
    let Some(index) = table.definitions.definition_of(table.alloc, index)? else {
        return Ok(None);
    };
    let value = type_at(table.alloc, types, index)?;
    Ok(enumeration_in(index, &value))
}

/// Appends an enumeration as the declaration of C++.
fn push_c(alloc: Global, shown: &ShownEnumeration<'_>, text: &mut TextBuffer) {
    text.push(b"enum ");
    text.push_escaped(shown.enumeration.name.as_bytes());
    text.push(b" : ");
    text.push_escaped(&shown.type_text);
    text.push(b" {");
    text.end_head(shown.enumeration.index, Some(shown.size.unwrap_or(0)));
    for enumerator in &shown.enumerators {
        text.push_indent(1, C_WIDTH);
        push_enumerator(alloc, enumerator, text);
    }
    text.push(b"};\n");
}

/// Appends an enumeration in the style of WinDbg's `dt`.
fn push_dt(alloc: Global, shown: &ShownEnumeration<'_>, text: &mut TextBuffer) {
    text.push_escaped(shown.enumeration.name.as_bytes());
    text.push(b"\n");
    for enumerator in &shown.enumerators {
        let value = enumerator.value;
        text.push_indent(1, DT_WIDTH);
        text.push_escaped(enumerator.name.as_bytes());
        text.push_string(format!(in alloc; " = 0n{value}\n"));
    }
}

/// Appends an enumeration as a line of JSON: an object that describes it, with a list of its
/// enumerators.
fn push_json(alloc: Global, shown: &ShownEnumeration<'_>, text: &mut TextBuffer) {
    let enumeration = &shown.enumeration;
    let mut object = ObjectBuffer::new(alloc);
    object.field("index", Value::Hexadecimal(enumeration.index.0));
    object.field("kind", Value::Word("enum"));
    object.field("name", Value::Text(enumeration.name));
    if let Some(size) = shown.size {
        object.field("size", Value::Number(size));
    }
    object.field(
        "type_index",
        Value::Hexadecimal(enumeration.underlying_type.0),
    );
    object.text("type", &shown.type_text);
    text.push_fields(&object);
    text.push(b",\"rows\":[");
    for enumerator in &shown.enumerators {
        object.begin();
        show_enumerator(&mut object, enumerator);
        text.push_item(&object);
    }
    text.push(b"]}\n");
}

/// Returns the enumeration of an index as text or JSON, or None for another type.
///
/// # Errors
/// Fails as `Definitions::definition_of`, `OpenTable::fields` and `Definitions::type_text` do, and
/// with `OutOfMemory` if an allocation fails.
pub(crate) fn enumeration_text(
    table: Table<'_, '_>,
    index: TypeIndex,
    style: Style,
    form: Form,
    texts: &mut TextAllowance,
) -> Result<Option<Vec<u8>>> {
    let Some(enumeration) = enumeration_at(table, index)? else {
        return Ok(None);
    };
    let underlying_type = enumeration.underlying_type;
    let shown = ShownEnumeration {
        enumeration,
        enumerators: enumerators_of(table, enumeration.list, underlying_type)?,
        type_text: texts.bytes(table, underlying_type, b"")?,
        size: table.definitions.size_of(table.alloc, underlying_type)?,
    };
    let mut text = TextBuffer::new(table.alloc);
    match (form, style) {
        (Form::Json, _) => push_json(table.alloc, &shown, &mut text),
        (Form::Text, Style::C) => push_c(table.alloc, &shown, &mut text),
        (Form::Text, Style::Dt) => push_dt(table.alloc, &shown, &mut text),
    }
    Ok(Some(text.finish()?))
}
