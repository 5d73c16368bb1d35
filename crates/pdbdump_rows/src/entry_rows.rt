//! The entries of lists, field by field. They have no index.

#![tactic(auto, using(crate::proofs::lemmas::Line::adding))]

ghost use Rattle.std.specs.Prelude.{[]};
ghost use Rattle.pdbdump_rows.specs.Line.{AddsRow};

use crate::line::Line;
use crate::type_rows::show_fields;
use pdb_values::constants::{
    LF_ARGLIST, LF_ARRAY, LF_BCLASS, LF_BINTERFACE, LF_BITFIELD, LF_CLASS, LF_ENUM, LF_ENUMERATE,
    LF_FIELDLIST, LF_INTERFACE, LF_IVBCLASS, LF_MEMBER, LF_METHOD, LF_METHODLIST, LF_MFUNCTION,
    LF_MODIFIER, LF_NESTTYPE, LF_NULL, LF_ONEMETHOD, LF_POINTER, LF_PROCEDURE, LF_STMEMBER,
    LF_STRUCTURE, LF_UNION, LF_VBCLASS, LF_VFUNCTAB, LF_VTSHAPE,
};
use pdb_values::{BaseClassType, ClassKind, TypeData, VirtualBaseClassType};

/// Returns the record kind of a class of this kind.
fn class_leaf(kind: ClassKind) -> u16 {
    match kind {
        ClassKind::Class => LF_CLASS,
        ClassKind::Struct => LF_STRUCTURE,
        ClassKind::Interface => LF_INTERFACE,
    }
}

/// Returns the record kind of a base class.
fn base_class_leaf(base: BaseClassType) -> u16 {
    match base.kind {
        ClassKind::Interface => LF_BINTERFACE,
        _ => LF_BCLASS,
    }
}

/// Returns the record kind of a virtual base class.
fn virtual_base_leaf(base: VirtualBaseClassType) -> u16 {
    if base.direct { LF_VBCLASS } else { LF_IVBCLASS }
}

/// Returns the record kind that today's compilers write for a type like this.
fn leaf_of(data: &TypeData<'_>) -> u16 {
    match data {
        TypeData::Primitive(_) => LF_NULL,
        TypeData::Class(class) => class_leaf(class.kind),
        TypeData::Member(_) => LF_MEMBER,
        TypeData::MemberFunction(_) => LF_MFUNCTION,
        TypeData::OverloadedMethod(_) => LF_METHOD,
        TypeData::Method(_) => LF_ONEMETHOD,
        TypeData::StaticMember(_) => LF_STMEMBER,
        TypeData::Nested(_) => LF_NESTTYPE,
        TypeData::BaseClass(base) => base_class_leaf(*base),
        TypeData::VirtualBaseClass(base) => virtual_base_leaf(*base),
        TypeData::VirtualFunctionTablePointer(_) => LF_VFUNCTAB,
        TypeData::Procedure(_) => LF_PROCEDURE,
        TypeData::Pointer(_) => LF_POINTER,
        TypeData::Modifier(_) => LF_MODIFIER,
        TypeData::Enumeration(_) => LF_ENUM,
        TypeData::Enumerate(_) => LF_ENUMERATE,
        TypeData::Array(_) => LF_ARRAY,
        TypeData::Union(_) => LF_UNION,
        TypeData::Bitfield(_) => LF_BITFIELD,
        TypeData::FieldList(_) => LF_FIELDLIST,
        TypeData::ArgumentList(_) => LF_ARGLIST,
        TypeData::MethodList(_) => LF_METHODLIST,
        TypeData::VirtualTableShape(_) => LF_VTSHAPE,
    }
}

/// Adds the fields of an entry of a list of fields. Its kind is the record kind that today's
/// compilers write for it.
pub fn show_entry(line: &mut Line, data: &TypeData<'_>)
    ensures { AddsRow [] line.old line.new }
{
    show_fields(line, leaf_of(data), data)
}
