//! The classes and enumerations of a table.

use crate::defined::defined_by;
use crate::letter_case::LetterCase;
use crate::pattern::{matches, matches_ignoring_case};
use crate::table::Table;
use pdb_base::{Error, RawString, TypeIndex};
use pdb_tpi::{OpenTable, Type};
use pdb_types::Layout;
use pdb_values::constants::{
    LF_ARGLIST, LF_BITFIELD, LF_FIELDLIST, LF_LABEL, LF_METHODLIST, LF_MFUNCTION, LF_MODIFIER,
    LF_POINTER, LF_PROCEDURE, LF_VFTABLE, LF_VTSHAPE,
};
use pdb_values::{ClassKind, TypeData};
use std::alloc::{AllocError, Global};

/// How many types are read at most from one with modifiers to the one without.
const MOST_TYPES: u32 = 16;

/// What the record of a class or a union says of it.
#[derive(Clone, Copy)]
pub struct Class<'t> {
    /// What it is called in C++: `struct`, `class`, `__interface` or `union`.
    pub word: &'static str,

    /// Its name.
    pub name: RawString<'t>,
}

/// Returns what C++ calls a kind of class.
pub fn class_word(kind: ClassKind) -> &'static str {
    match kind {
        ClassKind::Class => "class",
        ClassKind::Struct => "struct",
        ClassKind::Interface => "__interface",
    }
}

/// Returns what a record says of a class or a union, or None if it is of neither.
pub fn class_of<'t>(value: &TypeData<'t>) -> Option<Class<'t>> {
    match value {
        TypeData::Class(class) => Some(Class {
            word: class_word(class.kind),
            name: class.name,
        }),
        TypeData::Union(union_type) => Some(Class {
            word: "union",
            name: union_type.name,
        }),
        _ => None,
    }
}

/// Which types are wanted.
#[derive(Clone, Copy)]
pub enum Wanted<'n> {
    /// All classes and unions.
    All,

    /// All classes, unions and enumerations.
    Named,

    /// Those classes, unions and enumerations whose names a pattern matches.
    Meant(&'n [u8], LetterCase),

    /// Those classes and unions with whose names and a point a path begins.
    Before(&'n [u8], LetterCase),
}

/// Returns the name of a class, a union or an enumeration that a record defines, if one of its kind
/// may be wanted.
pub fn name_defined<'t>(value: &TypeData<'t>, wanted: Wanted<'_>) -> Option<RawString<'t>> {
    let defined = defined_by(value)?;
    match wanted {
        Wanted::All | Wanted::Before(_, _) if defined.enumeration.is_some() => None,
        _ => Some(defined.name),
    }
}

/// Returns the steps of a path that begins with a name and a point: what is behind the name.
pub fn steps_behind<'p>(path: &'p [u8], name: &[u8], case: LetterCase) -> Option<&'p [u8]> {
    let steps = case.behind(name, path)?;
    if steps.starts_with(b".") {
        Some(steps)
    } else {
        None
    }
}

/// Returns whether a name is wanted.
fn is_name_wanted(
    alloc: Global,
    wanted: Wanted<'_>,
    name: RawString<'_>,
) -> Result<bool, AllocError> {
    let name = name.as_bytes();
    match wanted {
        Wanted::All | Wanted::Named => Ok(true),
        Wanted::Meant(pattern, LetterCase::Exact) => Ok(matches(pattern, name)),
        Wanted::Meant(pattern, LetterCase::Ignored) => matches_ignoring_case(alloc, pattern, name),
        Wanted::Before(path, case) => Ok(steps_behind(path, name, case).is_some()),
    }
}

/// Returns whether records of a kind define nothing, as most records of a table do. A kind that isn't
/// implemented may define something, unless it is known to be a label or a table of virtual functions.
pub(crate) fn defines_nothing(kind: u16) -> bool {
    match kind {
        LF_ARGLIST | LF_BITFIELD | LF_FIELDLIST | LF_METHODLIST => true,
        LF_MFUNCTION | LF_MODIFIER | LF_POINTER | LF_PROCEDURE => true,
        LF_LABEL | LF_VFTABLE | LF_VTSHAPE => true,
        _ => false,
    }
}

/// Returns whether a record defines a type that is wanted. A record that can't be read defines none.
fn is_defined(alloc: Global, item: &Type<'_>, wanted: Wanted<'_>) -> Result<bool, AllocError> {
    if defines_nothing(item.raw_kind()) {
        return Ok(false);
    }
    match item.parse(alloc) {
        Ok(value) => match name_defined(&value, wanted) {
            Some(name) => is_name_wanted(alloc, wanted, name),
            None => Ok(false),
        },
        Err(Error::OutOfMemory) => Err(AllocError),
        Err(_) => Ok(false),
    }
}

/// Returns the indexes of the types that a table defines and that are wanted, in the order of the
/// table.
///
/// # Errors
/// Fails with `OutOfMemory` if an allocation fails.
pub fn classes_in(
    alloc: Global,
    types: &OpenTable<TypeIndex>,
    wanted: Wanted<'_>,
) -> Result<Vec<TypeIndex>, AllocError> {
    let header = types.items().header();
    let mut found = Vec::new(alloc);
    for number in header.minimum_index..header.maximum_index {
        // No record follows the first that is missing, whatever the header counts.
        let Ok(item) = types.item(TypeIndex(number)) else {
            return Ok(found);
        };
        if !is_defined(alloc, &item, wanted)? {
            continue;
        }
        found.push(TypeIndex(number))?;
    }
    Ok(found)
}

/// Returns the type of an index.
///
/// # Errors
/// Fails as `OpenTable::item` and `Type::parse` do.
pub fn type_at<'t>(
    alloc: Global,
    types: &'t OpenTable<TypeIndex>,
    index: TypeIndex,
) -> Result<TypeData<'t>, Error> {
    types.item(index)?.parse(alloc)
}

/// Returns the type that a type with a modifier is without it, or None for another type.
fn modified_type(value: &TypeData<'_>) -> Option<TypeIndex> {
    match value {
        TypeData::Modifier(modifier) => Some(modifier.underlying_type),
        _ => None,
    }
}

/// Returns the type that one with modifiers is without them. Compilers write one modifier for a
/// type, and up to 15 are followed.
///
/// # Errors
/// Fails as `type_at` does.
pub fn unmodified(
    alloc: Global,
    types: &OpenTable<TypeIndex>,
    index: TypeIndex,
) -> Result<Option<TypeIndex>, Error> {
    let mut index = index;
    for _ in 0..MOST_TYPES {
        let value = type_at(alloc, types, index)?;
        match modified_type(&value) {
            Some(other) => index = other,
            None => return Ok(Some(index)),
        }
    }
    Ok(None)
}

/// Returns the layout of a class or a union, also of one with modifiers.
///
/// # Errors
/// Fails as `Definitions::layout_of` does.
pub fn class_layout<'t>(
    table: Table<'_, 't>,
    index: TypeIndex,
) -> Result<Option<Layout<'t>>, Error> {
    match unmodified(table.alloc, table.definitions.types(), index)? {
        Some(index) => table.definitions.layout_of(table.alloc, index),
        None => Ok(None),
    }
}

/// Returns the list of the fields of a class, a union or an enumeration.
fn list_in(value: &TypeData<'_>) -> Option<TypeIndex> {
    match value {
        TypeData::Class(class) => class.fields,
        TypeData::Union(union_type) => Some(union_type.fields),
        TypeData::Enumeration(enumeration) => Some(enumeration.fields),
        _ => None,
    }
}

/// Returns the list of the fields of a class, a union or an enumeration, also of one with modifiers.
///
/// # Errors
/// Fails as `Definitions::definition_of` does.
pub fn list_of(table: Table<'_, '_>, index: TypeIndex) -> Result<Option<TypeIndex>, Error> {
    let types = table.definitions.types();
    let Some(index) = unmodified(table.alloc, types, index)? else {
        return Ok(None);
    };
    let Some(definition) = table.definitions.definition_of(table.alloc, index)? else {
        return Ok(None);
    };
    let value = type_at(table.alloc, types, definition)?;
    Ok(list_in(&value))
}

/// Returns how many records a list of fields has, and the list in which it goes on.
fn records_in(value: &TypeData<'_>) -> (usize, Option<TypeIndex>) {
    match value {
        TypeData::FieldList(list) => (list.fields.len(), list.continuation),
        _ => (0, None),
    }
}

/// Returns how many records are read for the fields of a class, a union or an enumeration, and of the
/// lists in which they are, but no more than one list beyond a limit. It is as many as can be read
/// where one can't.
///
/// # Errors
/// Fails if an allocation fails.
pub fn records_of(
    table: Table<'_, '_>,
    index: TypeIndex,
    most: usize,
) -> Result<usize, AllocError> {
    let mut next = match list_of(table, index) {
        Ok(list) => list,
        Err(Error::OutOfMemory) => return Err(AllocError),
        Err(_) => return Ok(0),
    };
    let mut count = 0usize;
    for _ in 0..=most {
        let Some(list) = next else {
            return Ok(count);
        };
        let value = match table.type_at(list) {
            Ok(value) => value,
            Err(Error::OutOfMemory) => return Err(AllocError),
            Err(_) => return Ok(count),
        };
        let (records, behind) = records_in(&value);
        count = count.saturating_add(records).saturating_add(1);
        if count > most {
            return Ok(count);
        }
        next = behind;
    }
    Ok(count)
}
