//! Enumerations and their values.

use pdb_base::{RawString, TypeIndex, Variant};
use pdb_flags::{FieldAttributes, TypeProperties};

/// An enumeration: `lfEnum` of Microsoft's cvinfo.h.
#[derive(Clone, Debug, PartialEq, Eq, Drop)]
pub struct EnumerationType<'t> {
    /// How many values it has.
    pub count: u16,

    /// Its properties, such as whether it is packed or nested in another type.
    pub properties: TypeProperties,

    /// The type that holds a value.
    pub underlying_type: TypeIndex,

    /// Its values, in a field list.
    pub fields: TypeIndex,

    /// Its name.
    pub name: RawString<'t>,

    /// The decorated name, which no other enumeration has.
    pub unique_name: Option<RawString<'t>>,
}

/// A value of an enumeration: `lfEnumerate` of Microsoft's cvinfo.h.
#[derive(Clone, Debug, PartialEq, Eq, Drop)]
pub struct EnumerateType<'t> {
    /// Its attributes, which say who may access it.
    pub attributes: FieldAttributes,

    /// The number of the enumerator.
    pub value: Variant,

    /// Its name.
    pub name: RawString<'t>,
}
