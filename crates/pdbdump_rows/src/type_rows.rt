//! Types, field by field.

#![tactic(auto, using(crate::proofs::lemmas::Line::adding))]

ghost use Rattle.std.specs.Prelude.{[]};
ghost use Rattle.pdbdump_rows.specs.Line.{AddsRow, indexed};

mod base_class;
mod class;
mod enumeration;
mod function;
mod list;
mod member;
mod method;
mod pointer;
mod primitive;

use crate::line::Line;
use crate::type_rows::base_class::{show_base_class, show_table_pointer, show_virtual_base};
use crate::type_rows::class::{show_class, show_union};
use crate::type_rows::enumeration::{show_enumerate, show_enumeration};
use crate::type_rows::function::{show_member_function, show_procedure};
use crate::type_rows::list::{
    show_argument_list, show_array, show_field_list, show_method_list, show_table_shape,
};
use crate::type_rows::member::{show_member, show_nested, show_static_member};
pub use crate::type_rows::method::show_listed_method;
use crate::type_rows::method::{show_method, show_overloaded_method};
use crate::type_rows::pointer::{show_bitfield, show_modifier, show_pointer};
use crate::type_rows::primitive::show_primitive;
use crate::value::Value;
use pdb_values::TypeData;

/// Adds the fields of what a type holds.
fn show_value(line: &mut Line, data: &TypeData<'_>)
    ensures { AddsRow [] line.old line.new }
{
    match data {
        TypeData::Primitive(primitive) => show_primitive(line, *primitive),
        TypeData::Class(class) => show_class(line, class),
        TypeData::Member(member) => show_member(line, member),
        TypeData::MemberFunction(function) => show_member_function(line, *function),
        TypeData::OverloadedMethod(methods) => show_overloaded_method(line, methods),
        TypeData::Method(method) => show_method(line, method),
        TypeData::StaticMember(member) => show_static_member(line, member),
        TypeData::Nested(nested) => show_nested(line, nested),
        TypeData::BaseClass(base) => show_base_class(line, *base),
        TypeData::VirtualBaseClass(base) => show_virtual_base(line, *base),
        TypeData::VirtualFunctionTablePointer(pointer) => show_table_pointer(line, *pointer),
        TypeData::Procedure(procedure) => show_procedure(line, *procedure),
        TypeData::Pointer(pointer) => show_pointer(line, *pointer),
        TypeData::Modifier(modifier) => show_modifier(line, *modifier),
        TypeData::Enumeration(enumeration) => show_enumeration(line, enumeration),
        TypeData::Enumerate(value) => show_enumerate(line, value),
        TypeData::Array(array) => show_array(line, array),
        TypeData::Union(union_type) => show_union(line, union_type),
        TypeData::Bitfield(bitfield) => show_bitfield(line, *bitfield),
        TypeData::FieldList(list) => show_field_list(line, list),
        TypeData::ArgumentList(list) => show_argument_list(line, list),
        TypeData::MethodList(list) => show_method_list(line, list),
        TypeData::VirtualTableShape(shape) => show_table_shape(line, *shape),
    }
}

/// Adds the fields of a type whose record is of this kind.
pub(crate) fn show_fields(line: &mut Line, leaf: u16, data: &TypeData<'_>)
    ensures { AddsRow [] line.old line.new }
{
    line.field("kind", Value::Kind(leaf));
    show_value(line, data)
}

/// Adds the fields of the type of this index, whose record is of this kind.
pub fn show_type(line: &mut Line, index: u32, leaf: u16, data: &TypeData<'_>)
    ensures { AddsRow (indexed index) line.old line.new }
{
    line.field("index", Value::Hexadecimal(index));
    show_fields(line, leaf, data)
}
