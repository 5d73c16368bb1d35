//! Where a record says that a field of a class begins.

ghost use Rattle.std.specs.Prelude.{◌≡◌};
ghost use Rattle.std.specs.Option.{option_map};
ghost use Rattle.pdb_values.specs.TypeView.{type_value};
ghost use Rattle.pdb_types.specs.FieldPlace.{place_of_field, place_value};

use pdb_base::{RawString, TypeIndex};
use pdb_values::TypeData;

/// A virtual base class, of which no record says where it is in an object.
#[derive(Clone, Copy, Debug, PartialEq, Eq)]
pub struct VirtualBase {
    /// The base class.
    pub base_class: TypeIndex,

    /// Whether the class itself names it, and not a base class.
    pub direct: bool,

    /// The position of the base class in the table of virtual bases.
    pub position: u32,
}

/// What a field of a class is.
#[derive(Clone, Copy, Debug, PartialEq, Eq)]
pub enum FieldKind<'t> {
    /// A base class.
    Base,

    /// A pointer to a table of virtual bases, of which a virtual base class speaks. Each record of
    /// a virtual base class states its pointer, so one pointer may be several fields.
    VirtualBasePointer(VirtualBase),

    /// A pointer to a table of virtual functions.
    VirtualFunctionPointer,

    /// A data member with this name.
    Member(RawString<'t>),
}

/// What a field of a class is, and where it begins.
#[derive(Clone, Copy, Debug, PartialEq, Eq)]
pub struct FieldPlace<'t> {
    /// What it is.
    pub kind: FieldKind<'t>,

    /// Its type.
    pub field_type: TypeIndex,

    /// Where it begins, in bytes from the start of the class.
    pub offset: u64,
}

/// Returns what a record in a list of fields says of a field and of the place where it begins. A
/// pointer to a table of virtual functions is at the start of the class. Returns None for a record
/// of anything else, such as a static data member, a method or a nested type.
pub(crate) fn place_of<'t>(value: &TypeData<'t>) -> Option<FieldPlace<'t>>
    ensures { option_map place_value result ≡ place_of_field (type_value value.now) }
{
    match value {
        TypeData::BaseClass(base) => Some(FieldPlace {
            kind: FieldKind::Base,
            field_type: base.base_class,
            offset: base.offset as u64,
        }),
        TypeData::VirtualBaseClass(base) => Some(FieldPlace {
            kind: FieldKind::VirtualBasePointer(VirtualBase {
                base_class: base.base_class,
                direct: base.direct,
                position: base.virtual_base_offset,
            }),
            field_type: base.base_pointer,
            offset: base.base_pointer_offset as u64,
        }),
        TypeData::VirtualFunctionTablePointer(pointer) => Some(FieldPlace {
            kind: FieldKind::VirtualFunctionPointer,
            field_type: pointer.table,
            offset: 0,
        }),
        TypeData::Member(member) => Some(FieldPlace {
            kind: FieldKind::Member(member.name),
            field_type: member.field_type,
            offset: member.offset,
        }),
        _ => None,
    }
}
