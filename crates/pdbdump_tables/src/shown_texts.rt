//! The texts of the types to which a type that is shown in full refers.

use crate::members::list_of_fields;
use crate::references::push_references;
use pdb_base::{Error, TypeIndex};
use pdb_tpi::OpenTable;
use pdb_types::Definitions;
use pdb_values::TypeData;
use pdbdump_rows::{Form, TypeTexts};
use pdbdump_types::{Table, TextAllowance};
use std::alloc::{AllocError, Global};

/// How many bytes of texts are shown of one record at most, so that a small record can't become much.
const MOST: usize = 0x100_0000;

/// Returns a failure to allocate, unless the fault is another one.
fn only_memory(fault: Error) -> Result<(), AllocError> {
    match fault {
        Error::OutOfMemory => Err(AllocError),
        _ => Ok(()),
    }
}

/// Appends the types to which the fields of a list refer, if the fields can be read.
fn push_of_fields(
    alloc: Global,
    types: &OpenTable<TypeIndex>,
    list: TypeIndex,
    found: &mut Vec<TypeIndex>,
) -> Result<(), AllocError> {
    let fields = match types.fields(alloc, list) {
        Ok(fields) => fields,
        Err(fault) => return only_memory(fault),
    };
    for field in fields.as_slice() {
        push_references(field, found)?;
    }
    Ok(())
}

/// Returns the types to which a type and its fields refer, in increasing order.
fn referred(
    alloc: Global,
    types: &OpenTable<TypeIndex>,
    index: TypeIndex,
    value: &TypeData<'_>,
) -> Result<Vec<TypeIndex>, AllocError> {
    let mut found = Vec::new(alloc);
    push_references(value, &mut found)?;
    if let Some(list) = list_of_fields(index, value) {
        push_of_fields(alloc, types, list, &mut found)?;
    }
    found.sort_by_key(|index| index.0)?;
    Ok(found)
}

/// Adds the text of a type, if it can be made of the bytes that are left for texts.
fn push_text(
    table: Table<'_, '_>,
    index: TypeIndex,
    left: &mut TextAllowance,
    texts: &mut TypeTexts,
) -> Result<(), AllocError> {
    if left.is_spent() {
        return Ok(());
    }
    match left.bytes(table, index, b"") {
        Ok(text) => texts.push(table.alloc, index, text),
        Err(fault) => only_memory(fault),
    }
}

/// Adds the texts of types, which are in increasing order.
fn push_texts(
    table: Table<'_, '_>,
    indexes: &[TypeIndex],
    texts: &mut TypeTexts,
) -> Result<(), AllocError> {
    let mut left = TextAllowance::of_table(0);
    let mut last = None;
    for index in indexes {
        if last != Some(index.0) {
            push_text(table, *index, &mut left, texts)?;
        }
        last = Some(index.0);
    }
    Ok(())
}

/// Returns the texts of the types to which a type and its fields refer, as far as they can be made:
/// none, if the table can't be walked to its end.
///
/// # Errors
/// Fails if an allocation fails.
pub(crate) fn texts_of(
    alloc: Global,
    types: &OpenTable<TypeIndex>,
    index: TypeIndex,
    value: &TypeData<'_>,
    form: Form,
) -> Result<TypeTexts, AllocError> {
    let mut texts = TypeTexts::new(alloc, form, MOST);
    let indexes = referred(alloc, types, index, value)?;
    match Definitions::new(alloc, types) {
        Ok(definitions) => {
            let table = Table {
                alloc,
                definitions: &definitions,
            };
            push_texts(table, &indexes, &mut texts)?;
        }
        Err(fault) => only_memory(fault)?,
    }
    Ok(texts)
}
