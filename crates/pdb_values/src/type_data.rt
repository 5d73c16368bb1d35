//! The values of type records.

ghost use Rattle.std.specs.Prelude.{◌≡◌, Ok};
ghost use Rattle.std.specs.Option.{option_map};
ghost use Rattle.pdb_base.specs.Answer.{Answers};
ghost use Rattle.pdb_base.specs.Memory.{LacksOnlyIf};
ghost use Rattle.pdb_values.specs.Text.{text_bytes};
ghost use Rattle.pdb_values.specs.Items.{HasListItem, HasField};
ghost use Rattle.pdb_values.specs.TypeValue.{name_of_type};
ghost use Rattle.pdb_values.specs.TypeView.{type_value, fields_value, field_list_value};

use crate::array::ArrayType;
use crate::base_class::{BaseClassType, VirtualBaseClassType, VirtualFunctionTablePointerType};
use crate::bitfield::BitfieldType;
use crate::class::ClassType;
use crate::enumeration::{EnumerateType, EnumerationType};
use crate::field_list::FieldList;
use crate::function::{ArgumentList, MemberFunctionType, ProcedureType};
use crate::member::{MemberType, NestedType, StaticMemberType};
use crate::method::{MethodList, MethodType, OverloadedMethodType};
use crate::modifier::ModifierType;
use crate::pointer::PointerType;
use crate::primitive::PrimitiveType;
use crate::table_shape::VirtualTableShapeType;
use crate::union_type::UnionType;
use pdb_base::{RawString, Result};
use std::alloc::Global;

/// The value of a type record, or a primitive type, which has no record.
#[cycle(data)]
#[derive(Debug, PartialEq, Eq, Drop)]
pub enum TypeData<'t> {
    /// A type that has no record, such as `int`.
    Primitive(PrimitiveType),

    /// A class, a structure or an interface.
    Class(ClassType<'t>),

    /// A data member that each object has.
    Member(MemberType<'t>),

    /// The type of a method.
    MemberFunction(MemberFunctionType),

    /// Overloaded methods, which share one name.
    OverloadedMethod(OverloadedMethodType<'t>),

    /// A method that shares its name with no other.
    Method(MethodType<'t>),

    /// A static data member, which the class has once.
    StaticMember(StaticMemberType<'t>),

    /// A type that is declared in a class.
    Nested(NestedType<'t>),

    /// A base class.
    BaseClass(BaseClassType),

    /// A virtual base class.
    VirtualBaseClass(VirtualBaseClassType),

    /// The pointer to a class's table of virtual functions.
    VirtualFunctionTablePointer(VirtualFunctionTablePointerType),

    /// The type of a function.
    Procedure(ProcedureType),

    /// A pointer, a reference or a pointer to a member.
    Pointer(PointerType),

    /// A type with modifiers.
    Modifier(ModifierType),

    /// An enumeration.
    Enumeration(EnumerationType<'t>),

    /// A value of an enumeration.
    Enumerate(EnumerateType<'t>),

    /// An array.
    Array(ArrayType),

    /// A union.
    Union(UnionType<'t>),

    /// A bit field.
    Bitfield(BitfieldType),

    /// The members of a class or a union, or the values of an enumeration.
    FieldList(FieldList<'t>),

    /// The types of a function's arguments.
    ArgumentList(ArgumentList),

    /// The list of the methods that share one name.
    MethodList(MethodList),

    /// The shape of a table of virtual functions.
    VirtualTableShape(VirtualTableShapeType<'t>),
}

impl<'t> TypeData<'t> {
    /// Returns the name of a class, a union or an enumeration, of a data member, static or not, of
    /// a nested type, of overloaded methods, or of a value of an enumeration. Returns None for
    /// everything else, also for a method that shares its name with no other.
    pub fn name(&self) -> Option<RawString<'t>>
        ensures { option_map text_bytes result ≡ name_of_type (type_value self.now) }
    {
        match self {
            TypeData::Class(class) => Some(class.name),
            TypeData::Member(member) => Some(member.name),
            TypeData::OverloadedMethod(methods) => Some(methods.name),
            TypeData::StaticMember(member) => Some(member.name),
            TypeData::Nested(nested) => Some(nested.name),
            TypeData::Enumeration(enumeration) => Some(enumeration.name),
            TypeData::Enumerate(value) => Some(value.name),
            TypeData::Union(union_type) => Some(union_type.name),
            _ => None,
        }
    }

    /// Returns an equal value, with memory of its own for each list.
    ///
    /// # Errors
    /// Returns `OutOfMemory` if an allocation fails. Memory is allocated only if a list has an
    /// item.
    pub fn clone(&self, alloc: Global) -> Result<Self>
        ensures copied { Answers type_value result (Ok (type_value self.now)) }
        ensures memory { LacksOnlyIf result (HasListItem (type_value self.now)) }
    {
        copy_type(alloc, self)
    }
}

/// Returns an equal type, with memory of its own for each list.
#[cycle(copy)]
pub(crate) fn copy_type<'t>(alloc: Global, original: &TypeData<'t>) -> Result<TypeData<'t>>
    ensures copied { Answers type_value result (Ok (type_value original.now)) }
    ensures memory { LacksOnlyIf result (HasListItem (type_value original.now)) }
{
    match original {
        TypeData::Array(array) => Ok(TypeData::Array(array.clone(alloc)?)),
        TypeData::FieldList(list) => Ok(TypeData::FieldList(copy_list(alloc, list)?)),
        TypeData::ArgumentList(list) => Ok(TypeData::ArgumentList(list.clone(alloc)?)),
        TypeData::MethodList(list) => Ok(TypeData::MethodList(list.clone(alloc)?)),
        TypeData::Primitive(primitive) => Ok(TypeData::Primitive(*primitive)),
        TypeData::Class(class) => Ok(TypeData::Class(ClassType { ..*class })),
        TypeData::Member(member) => Ok(TypeData::Member(MemberType { ..*member })),
        TypeData::MemberFunction(function) => Ok(TypeData::MemberFunction(*function)),
        TypeData::OverloadedMethod(methods) => {
            Ok(TypeData::OverloadedMethod(OverloadedMethodType { ..*methods }))
        }
        TypeData::Method(method) => Ok(TypeData::Method(MethodType { ..*method })),
        TypeData::StaticMember(member) => Ok(TypeData::StaticMember(StaticMemberType {
            ..*member
        })),
        TypeData::Nested(nested) => Ok(TypeData::Nested(NestedType { ..*nested })),
        TypeData::BaseClass(base) => Ok(TypeData::BaseClass(*base)),
        TypeData::VirtualBaseClass(base) => Ok(TypeData::VirtualBaseClass(*base)),
        TypeData::VirtualFunctionTablePointer(pointer) => {
            Ok(TypeData::VirtualFunctionTablePointer(*pointer))
        }
        TypeData::Procedure(procedure) => Ok(TypeData::Procedure(*procedure)),
        TypeData::Pointer(pointer) => Ok(TypeData::Pointer(*pointer)),
        TypeData::Modifier(modifier) => Ok(TypeData::Modifier(*modifier)),
        TypeData::Enumeration(enumeration) => {
            Ok(TypeData::Enumeration(EnumerationType { ..*enumeration }))
        }
        TypeData::Enumerate(value) => Ok(TypeData::Enumerate(EnumerateType { ..*value })),
        TypeData::Union(union_type) => Ok(TypeData::Union(UnionType { ..*union_type })),
        TypeData::Bitfield(bitfield) => Ok(TypeData::Bitfield(*bitfield)),
        TypeData::VirtualTableShape(shape) => Ok(TypeData::VirtualTableShape(*shape)),
    }
}

/// Returns an equal field list, with memory of its own for its fields and for their lists.
#[cycle(copy)]
pub(crate) fn copy_list<'t>(alloc: Global, list: &FieldList<'t>) -> Result<FieldList<'t>>
    ensures copied { Answers field_list_value result (Ok (field_list_value list.now)) }
    ensures memory { LacksOnlyIf result (HasListItem (field_list_value list.now)) }
{
    let fields = copy_fields(alloc, list.fields.as_slice())?;
    Ok(FieldList {
        fields,
        continuation: list.continuation,
    })
}

/// Copies fields into memory of their own. Allocates nothing if there are none.
#[cycle(copy)]
fn copy_fields<'t>(alloc: Global, fields: &[TypeData<'t>]) -> Result<Vec<TypeData<'t>>>
    ensures copied { Answers (λ copies. fields_value copies.items) result (Ok (fields_value fields.now)) }
    ensures memory { LacksOnlyIf result (HasField (fields_value fields.now)) }
{
    if fields.is_empty() {
        return Ok(Vec::new(alloc));
    }
    let mut copies = Vec::with_capacity(alloc, fields.len())?;
    for field in fields {
        let copied = copy_type(alloc, field)?;
        copies.push(copied)?;
    }
    Ok(copies)
}
