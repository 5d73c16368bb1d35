//! The classes, unions and enumerations of a table, in its order.

use crate::memory::AllocResult;
use pdb_base::{RawString, TypeIndex};
use pdb_tpi::constants::{LF_ARGLIST, LF_FIELDLIST, LF_METHODLIST};
use pdb_values::TypeData;
use pdbdump_types::{Table, Unread};

/// What the word before the name of a type is.
#[derive(Clone, Copy, PartialEq, Eq)]
pub(crate) enum Word {
    /// `struct`, for classes and structures.
    Struct,

    /// `union`.
    Union,

    /// `enum`.
    Enum,
}

impl Word {
    /// Returns the word.
    pub(crate) fn text(self) -> &'static str {
        match self {
            Word::Struct => "struct",
            Word::Union => "union",
            Word::Enum => "enum",
        }
    }
}

/// What the record of a class, a union or an enumeration says of its name.
#[derive(Clone, Copy)]
pub(crate) struct Named<'t> {
    /// The word before the name.
    pub(crate) word: Word,

    /// The name.
    pub(crate) name: RawString<'t>,

    /// The decorated name, or else the name.
    pub(crate) key: RawString<'t>,

    /// Whether it is only declared.
    pub(crate) is_forward: bool,

    /// The type under an enumeration.
    pub(crate) underlying: TypeIndex,
}

/// Returns what the record of a class, a union or an enumeration says of its name, or None for
/// another record.
pub(crate) fn named_of<'t>(value: &TypeData<'t>) -> Option<Named<'t>> {
    let none = TypeIndex(0);
    let (word, properties, name, unique_name, underlying) = match value {
        TypeData::Class(it) => (Word::Struct, it.properties, it.name, it.unique_name, none),
        TypeData::Union(it) => (Word::Union, it.properties, it.name, it.unique_name, none),
        TypeData::Enumeration(it) => {
            let underlying = it.underlying_type;
            (
                Word::Enum,
                it.properties,
                it.name,
                it.unique_name,
                underlying,
            )
        }
        _ => return None,
    };
    Some(Named {
        word,
        name,
        key: unique_name.unwrap_or(name),
        is_forward: properties.forward_reference(),
        underlying,
    })
}

/// Returns the value of a record that is no list, if it can be read. One that can't be is counted.
fn value_at<'t>(
    table: Table<'_, 't>,
    index: TypeIndex,
    unread: &mut Unread,
) -> AllocResult<Option<TypeData<'t>>> {
    let Ok(item) = table.definitions.types().item(index) else {
        return Ok(None);
    };
    let kind = item.raw_kind();
    if kind == LF_FIELDLIST || kind == LF_ARGLIST || kind == LF_METHODLIST {
        return Ok(None);
    }
    match item.parse(table.alloc) {
        Ok(value) => Ok(Some(value)),
        Err(fault) => {
            unread.add(&item, fault)?;
            Ok(None)
        }
    }
}

/// Something that is found along a table.
#[derive(Clone, Copy)]
pub(crate) struct Found<'t> {
    /// The index of the type.
    pub(crate) index: TypeIndex,

    /// What it says of its name.
    pub(crate) named: Named<'t>,
}

/// What is found along a table.
#[derive(Drop)]
pub(crate) struct Walked<'t> {
    /// Its classes, unions and enumerations, in its order.
    pub(crate) found: Vec<Found<'t>>,

    /// Its records that may define a type and that can't be read.
    pub(crate) unread: Unread,

    /// How many bytes a pointer has in the program, by the first one in the table.
    pub(crate) pointer_size: u64,

    /// The index behind that of the last record.
    pub(crate) behind: u32,
}

/// Returns how many bytes a pointer has, if a record is of one of 4 or 8.
fn pointer_size(value: &TypeData<'_>) -> Option<u64> {
    match value {
        TypeData::Pointer(pointer) => match (pointer.containing_class, pointer.attributes.size()) {
            (None, 4) => Some(4),
            (None, 8) => Some(8),
            _ => None,
        },
        _ => None,
    }
}

/// Walks along the table of definitions.
///
/// # Errors
/// Fails if an allocation fails.
pub(crate) fn walk<'t>(table: Table<'_, 't>) -> AllocResult<Walked<'t>> {
    let header = table.definitions.types().items().header();
    let mut found = Vec::new(table.alloc);
    let mut unread = Unread::none();
    let mut size = None;
    let mut behind = header.minimum_index;
    for number in header.minimum_index..header.maximum_index {
        let index = TypeIndex(number);
        // No record follows the first that is missing, whatever the header counts.
        if table.definitions.types().item(index).is_err() {
            break;
        }
        behind = number.saturating_add(1);
        let Some(value) = value_at(table, index, &mut unread)? else {
            continue;
        };
        size = size.or(pointer_size(&value));
        if let Some(named) = named_of(&value) {
            found.push(Found { index, named })?;
        }
    }
    Ok(Walked {
        found,
        unread,
        pointer_size: size.unwrap_or(8),
        behind,
    })
}
