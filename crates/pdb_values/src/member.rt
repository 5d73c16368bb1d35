//! Data members and nested types of a class.

use pdb_base::{RawString, TypeIndex};
use pdb_flags::FieldAttributes;

/// A data member that each object has: `lfMember` of Microsoft's cvinfo.h.
#[derive(Clone, Debug, PartialEq, Eq, Drop)]
pub struct MemberType<'t> {
    /// Its attributes, which say who may access it.
    pub attributes: FieldAttributes,

    /// Its type.
    pub field_type: TypeIndex,

    /// Where it begins, in bytes from the start of the object.
    pub offset: u64,

    /// Its name.
    pub name: RawString<'t>,
}

/// A static data member, which the class has once: `lfSTMember` of Microsoft's cvinfo.h.
#[derive(Clone, Debug, PartialEq, Eq, Drop)]
pub struct StaticMemberType<'t> {
    /// Its attributes, which say who may access it.
    pub attributes: FieldAttributes,

    /// Its type.
    pub field_type: TypeIndex,

    /// Its name.
    pub name: RawString<'t>,
}

/// A type that is declared in a class: `lfNestType` and `lfNestTypeEx` of Microsoft's cvinfo.h.
#[derive(Clone, Debug, PartialEq, Eq, Drop)]
pub struct NestedType<'t> {
    /// Its attributes, which say who may access it. They are 0 if the record has none.
    pub attributes: FieldAttributes,

    /// The type.
    pub nested_type: TypeIndex,

    /// Its name in the class.
    pub name: RawString<'t>,
}
