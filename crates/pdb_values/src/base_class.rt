//! Base classes, and the pointer to a class's table of virtual functions.

use crate::class::ClassKind;
use pdb_base::TypeIndex;
use pdb_flags::FieldAttributes;

/// A base class: `lfBClass` of Microsoft's cvinfo.h.
#[derive(Clone, Copy, Debug, PartialEq, Eq)]
pub struct BaseClassType {
    /// Whether it is a class or an interface.
    pub kind: ClassKind,

    /// Its attributes, which say who may access it.
    pub attributes: FieldAttributes,

    /// The base class.
    pub base_class: TypeIndex,

    /// Where its part begins, in bytes from the start of the object.
    pub offset: u32,
}

/// A virtual base class, which an object has once however often it is named: `lfVBClass` of
/// Microsoft's cvinfo.h.
#[derive(Clone, Copy, Debug, PartialEq, Eq)]
pub struct VirtualBaseClassType {
    /// Whether the class itself names it, and not a base class.
    pub direct: bool,

    /// Its attributes, which say who may access it.
    pub attributes: FieldAttributes,

    /// The base class.
    pub base_class: TypeIndex,

    /// The type of the pointer to the table of virtual bases.
    pub base_pointer: TypeIndex,

    /// The offset of that pointer in bytes, from the address point.
    pub base_pointer_offset: u32,

    /// The position of the base class in that table.
    pub virtual_base_offset: u32,
}

/// The pointer to a class's table of virtual functions: `lfVFuncTab` of Microsoft's cvinfo.h.
#[derive(Clone, Copy, Debug, PartialEq, Eq)]
pub struct VirtualFunctionTablePointerType {
    /// The type of the pointer.
    pub table: TypeIndex,
}
