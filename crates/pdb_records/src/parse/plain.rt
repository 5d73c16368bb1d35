//! Records without a list.

ghost use Rattle.std.specs.Prelude.{◌≡◌};
ghost use Rattle.pdb_base.specs.Answer.{Gives};
ghost use Rattle.pdb_base.specs.Place.{left};
ghost use Rattle.pdb_values.specs.TypeView.{type_value};
ghost use Rattle.pdb_records.specs.Leaves.{plain_leaf, row_of};
ghost use Rattle.pdb_records.specs.Records.{plain_at};

use crate::parse::class::{parse_class, parse_union, parse_wide_class};
use crate::parse::derived::{parse_bitfield, parse_modifier, parse_pointer};
use crate::parse::enumeration::{parse_enumerate, parse_enumeration};
use crate::parse::function::{
    parse_member_function, parse_method, parse_overloaded_method, parse_procedure,
};
use crate::parse::member::{
    parse_base_class, parse_member, parse_nested, parse_static_member, parse_table_pointer,
    parse_virtual_base_class,
};
use crate::parse::table_shape::parse_table_shape;
use pdb_base::{ParseBuffer, Result};
use pdb_values::constants::{
    LF_BCLASS, LF_BINTERFACE, LF_BITFIELD, LF_CLASS, LF_CLASS_ST, LF_ENUM, LF_ENUM_ST,
    LF_ENUMERATE, LF_ENUMERATE_ST, LF_INTERFACE, LF_IVBCLASS, LF_MEMBER, LF_MEMBER_ST, LF_METHOD,
    LF_METHOD_ST, LF_MFUNCTION, LF_MODIFIER, LF_NESTTYPE, LF_NESTTYPE_ST, LF_NESTTYPEEX,
    LF_NESTTYPEEX_ST, LF_ONEMETHOD, LF_ONEMETHOD_ST, LF_POINTER, LF_PROCEDURE, LF_STMEMBER,
    LF_STMEMBER_ST, LF_STRUCTURE, LF_STRUCTURE_ST, LF_STRUCTURE19, LF_UNION, LF_UNION_ST,
    LF_VBCLASS, LF_VFUNCTAB, LF_VTSHAPE,
};
use pdb_values::{ClassKind, TypeData};

/// The kind of a record without a list.
#[derive(Clone, Copy)]
pub enum PlainLeaf {
    /// A class, a struct or an interface.
    Class(ClassKind),

    /// A struct with more room for properties.
    WideStruct,

    /// A data member.
    Member,

    /// A type that is defined in a class, with its attributes or without.
    Nested(bool),

    /// The type of a method.
    MemberFunction,

    /// Overloaded methods, which share one name.
    OverloadedMethod,

    /// A method that shares its name with no other.
    Method,

    /// A base class or a base interface.
    BaseClass(ClassKind),

    /// A pointer to a table of virtual functions.
    TablePointer,

    /// A static data member, which the class has once.
    StaticMember,

    /// A pointer or a reference.
    Pointer,

    /// The type of a function.
    Procedure,

    /// A type with modifiers.
    Modifier,

    /// An enumeration.
    Enumeration,

    /// A value of an enumeration.
    Enumerate,

    /// A union.
    Union,

    /// A bit field.
    Bitfield,

    /// A virtual base class, direct or not.
    VirtualBaseClass(bool),

    /// The shape of a table of virtual functions.
    TableShape,
}

impl PlainLeaf {
    /// Returns the kind of record without a list that has this number, or None if there is none.
    pub(crate) fn from_number(number: u16) -> Option<Self>
        ensures { result ≡ plain_leaf number }
    {
        match number {
            LF_CLASS | LF_CLASS_ST => Some(PlainLeaf::Class(ClassKind::Class)),
            LF_STRUCTURE | LF_STRUCTURE_ST => Some(PlainLeaf::Class(ClassKind::Struct)),
            LF_INTERFACE => Some(PlainLeaf::Class(ClassKind::Interface)),
            LF_STRUCTURE19 => Some(PlainLeaf::WideStruct),
            LF_MEMBER | LF_MEMBER_ST => Some(PlainLeaf::Member),
            LF_NESTTYPE | LF_NESTTYPE_ST => Some(PlainLeaf::Nested(false)),
            LF_NESTTYPEEX | LF_NESTTYPEEX_ST => Some(PlainLeaf::Nested(true)),
            LF_MFUNCTION => Some(PlainLeaf::MemberFunction),
            LF_METHOD | LF_METHOD_ST => Some(PlainLeaf::OverloadedMethod),
            LF_ONEMETHOD | LF_ONEMETHOD_ST => Some(PlainLeaf::Method),
            LF_BCLASS => Some(PlainLeaf::BaseClass(ClassKind::Class)),
            LF_BINTERFACE => Some(PlainLeaf::BaseClass(ClassKind::Interface)),
            LF_VFUNCTAB => Some(PlainLeaf::TablePointer),
            LF_STMEMBER | LF_STMEMBER_ST => Some(PlainLeaf::StaticMember),
            LF_POINTER => Some(PlainLeaf::Pointer),
            LF_PROCEDURE => Some(PlainLeaf::Procedure),
            LF_MODIFIER => Some(PlainLeaf::Modifier),
            LF_ENUM | LF_ENUM_ST => Some(PlainLeaf::Enumeration),
            LF_ENUMERATE | LF_ENUMERATE_ST => Some(PlainLeaf::Enumerate),
            LF_UNION | LF_UNION_ST => Some(PlainLeaf::Union),
            LF_BITFIELD => Some(PlainLeaf::Bitfield),
            LF_VBCLASS => Some(PlainLeaf::VirtualBaseClass(true)),
            LF_IVBCLASS => Some(PlainLeaf::VirtualBaseClass(false)),
            LF_VTSHAPE => Some(PlainLeaf::TableShape),
            _ => None,
        }
    }
}

/// Reads what follows the kind in a record without a list.
pub(crate) fn parse_plain<'t>(
    buffer: &mut ParseBuffer<'t>,
    number: u16,
    leaf: PlainLeaf,
) -> Result<TypeData<'t>>
    ensures { Gives (λ t. (type_value t, left buffer.new)) result (plain_at (row_of number leaf) (left buffer.old)) }
{
    match leaf {
        PlainLeaf::Class(kind) => parse_class(buffer, number, kind),
        PlainLeaf::WideStruct => parse_wide_class(buffer, number, ClassKind::Struct),
        PlainLeaf::Member => parse_member(buffer, number),
        PlainLeaf::Nested(has_attributes) => parse_nested(buffer, number, has_attributes),
        PlainLeaf::MemberFunction => parse_member_function(buffer),
        PlainLeaf::OverloadedMethod => parse_overloaded_method(buffer, number),
        PlainLeaf::Method => parse_method(buffer, number),
        PlainLeaf::BaseClass(kind) => parse_base_class(buffer, kind),
        PlainLeaf::TablePointer => parse_table_pointer(buffer),
        PlainLeaf::StaticMember => parse_static_member(buffer, number),
        PlainLeaf::Pointer => parse_pointer(buffer),
        PlainLeaf::Procedure => parse_procedure(buffer),
        PlainLeaf::Modifier => parse_modifier(buffer),
        PlainLeaf::Enumeration => parse_enumeration(buffer, number),
        PlainLeaf::Enumerate => parse_enumerate(buffer, number),
        PlainLeaf::Union => parse_union(buffer, number),
        PlainLeaf::Bitfield => parse_bitfield(buffer),
        PlainLeaf::VirtualBaseClass(direct) => parse_virtual_base_class(buffer, direct),
        PlainLeaf::TableShape => parse_table_shape(buffer),
    }
}
