//! Fields with the indexes of types, beside which their texts are shown.

#![tactic(auto, using(crate::proofs::lemmas::Line::adding))]

ghost use Rattle.std.specs.Prelude.{[]};
ghost use Rattle.pdbdump_rows.specs.Line.{AddsRow};

use crate::form::Form;
use crate::line::Line;
use crate::lists::type_numbers;
use crate::number::push_hexadecimal;
use crate::type_texts::TypeTexts;
use crate::value::Value;
use pdb_base::{RawString, TypeIndex};
use std::alloc::{AllocError, Global};

/// A field with the index of a type: its name, and that of the field with the text of the type,
/// which only JSON shows.
pub(crate) type TypeField = (&'static str, &'static str);

pub(crate) const BASE_CLASS: TypeField = ("base_class", "base_class_text");

pub(crate) const BASE_POINTER: TypeField = ("base_pointer", "base_pointer_text");

pub(crate) const CLASS_TYPE: TypeField = ("class_type", "class_type_text");

pub(crate) const CONTAINING_CLASS: TypeField = ("containing_class", "containing_class_text");

pub(crate) const ELEMENT_TYPE: TypeField = ("element_type", "element_type_text");

pub(crate) const FIELD_TYPE: TypeField = ("field_type", "field_type_text");

pub(crate) const INDEXING_TYPE: TypeField = ("indexing_type", "indexing_type_text");

pub(crate) const METHOD_TYPE: TypeField = ("method_type", "method_type_text");

pub(crate) const NESTED_TYPE: TypeField = ("nested_type", "nested_type_text");

pub(crate) const RETURN_TYPE: TypeField = ("return_type", "return_type_text");

pub(crate) const THIS_POINTER_TYPE: TypeField = ("this_pointer_type", "this_pointer_type_text");

pub(crate) const UNDERLYING_TYPE: TypeField = ("underlying_type", "underlying_type_text");

/// Adds a field with the index of a type, and what is shown of the type beside it, if that is known.
fn show_beside(line: &mut Line, field: TypeField, index: TypeIndex, text: Option<&[u8]>)
    ensures { AddsRow [] line.old line.new }
{
    let Some(text) = text else {
        return line.field(field.0, Value::Hexadecimal(index.0));
    };
    match line.form() {
        Form::Text => line.field(field.0, Value::Text(RawString::from(text))),
        Form::Json => {
            line.fields(&[
                (field.0, Value::Hexadecimal(index.0)),
                (field.1, Value::Text(RawString::from(text))),
            ]);
        }
    }
}

/// Adds a field with the index of a type.
pub(crate) fn show_type_field(line: &mut Line, field: TypeField, index: TypeIndex)
    ensures { AddsRow [] line.old line.new }
{
    let Some(mut texts) = line.texts.take() else {
        return show_beside(line, field, index, None);
    };
    show_beside(line, field, index, texts.take(index));
    line.texts = Some(texts);
}

/// Adds a field with the index of a type, if there is one.
pub(crate) fn show_optional_type(line: &mut Line, field: TypeField, index: Option<TypeIndex>)
    ensures { AddsRow [] line.old line.new }
{
    if let Some(index) = index {
        show_type_field(line, field, index);
    }
}

/// Appends the index of a type, and its text, if that is known.
fn push_type(
    index: TypeIndex,
    texts: &mut TypeTexts,
    list: &mut Vec<u8>,
) -> Result<(), AllocError> {
    match texts.take(index) {
        Some(text) => list.extend_from_slice(text),
        None => push_hexadecimal(index.0, list),
    }
}

/// Returns a list of the indexes of types with their texts.
fn list_text(
    alloc: Global,
    indexes: &[TypeIndex],
    texts: &mut TypeTexts,
) -> Result<Vec<u8>, AllocError> {
    let mut list = Vec::new(alloc);
    let mut front: &[u8] = b"[";
    for index in indexes {
        list.extend_from_slice(front)?;
        push_type(*index, texts, &mut list)?;
        front = b", ";
    }
    if indexes.is_empty() {
        list.extend_from_slice(b"[")?;
    }
    list.extend_from_slice(b"]")?;
    Ok(list)
}

/// Adds a field with a list of the indexes of types. JSON shows no texts of these.
pub(crate) fn show_type_list(line: &mut Line, name: &'static str, indexes: &[TypeIndex])
    ensures { AddsRow [] line.old line.new }
{
    let alloc = line.alloc;
    if let (Form::Text, Some(texts)) = (line.form(), &mut line.texts) {
        let list = list_text(alloc, indexes, texts);
        return line.made_text(name, list);
    }
    line.indexes(name, type_numbers(alloc, indexes));
}
