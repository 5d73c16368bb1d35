//! What the record of a class, a union or an enumeration that is defined says of it.

use crate::classes::class_word;
use crate::pattern::matches;
use pdb_base::{RawString, TypeIndex};
use pdb_values::TypeData;

/// A class, a union or an enumeration that a record defines.
#[derive(Clone, Copy)]
pub struct Defined<'t> {
    /// What it is called in C++.
    pub word: &'static str,

    /// Its name.
    pub name: RawString<'t>,

    /// Its decorated name, which no other type has.
    pub unique_name: Option<RawString<'t>>,

    /// The list of the enumerators and the type under them, if it is an enumeration.
    pub enumeration: Option<(TypeIndex, TypeIndex)>,
}

/// Returns the class, the union or the enumeration that a record defines, or None if it defines
/// none.
pub fn defined_by<'t>(value: &TypeData<'t>) -> Option<Defined<'t>> {
    match value {
        TypeData::Class(class) if !class.properties.forward_reference() => Some(Defined {
            word: class_word(class.kind),
            name: class.name,
            unique_name: class.unique_name,
            enumeration: None,
        }),
        TypeData::Union(union_type) if !union_type.properties.forward_reference() => {
            Some(Defined {
                word: "union",
                name: union_type.name,
                unique_name: union_type.unique_name,
                enumeration: None,
            })
        }
        TypeData::Enumeration(enumeration) if !enumeration.properties.forward_reference() => {
            Some(Defined {
                word: "enum",
                name: enumeration.name,
                unique_name: enumeration.unique_name,
                enumeration: Some((enumeration.fields, enumeration.underlying_type)),
            })
        }
        _ => None,
    }
}

impl<'t> Defined<'t> {
    /// Returns whether another definition has the name by which this one is paired.
    pub fn is_namesake(&self, other: &Defined<'_>) -> bool {
        match (self.unique_name, other.unique_name) {
            (Some(own), Some(name)) => own.as_bytes() == name.as_bytes(),
            (None, None) => self.name.as_bytes() == other.name.as_bytes(),
            _ => false,
        }
    }

    /// Returns whether the name is among those that are wanted, of which each may be a pattern: any
    /// is if none is given.
    pub fn is_wanted(&self, names: &[&str]) -> bool {
        let name = self.name.as_bytes();
        names.is_empty()
            || names
                .iter()
                .any(|pattern| matches(pattern.as_bytes(), name))
    }
}
