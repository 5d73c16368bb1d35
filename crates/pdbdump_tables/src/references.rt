//! The types to which the record of a type refers.

use pdb_base::TypeIndex;
use pdb_values::TypeData;
use std::alloc::AllocError;

/// Appends the indexes that are given.
fn push_given(indexes: &[Option<TypeIndex>], found: &mut Vec<TypeIndex>) -> Result<(), AllocError> {
    for index in indexes {
        if let Some(index) = index {
            found.push(*index)?;
        }
    }
    Ok(())
}

/// Appends the types to which a field of a class refers.
fn push_of_field(value: &TypeData<'_>, found: &mut Vec<TypeIndex>) -> Result<(), AllocError> {
    match value {
        TypeData::Member(member) => push_given(&[Some(member.field_type)], found),
        TypeData::StaticMember(member) => push_given(&[Some(member.field_type)], found),
        TypeData::OverloadedMethod(methods) => push_given(&[Some(methods.method_list)], found),
        TypeData::Method(method) => push_given(&[Some(method.method_type)], found),
        TypeData::Nested(nested) => push_given(&[Some(nested.nested_type)], found),
        TypeData::BaseClass(base) => push_given(&[Some(base.base_class)], found),
        TypeData::VirtualBaseClass(base) => {
            push_given(&[Some(base.base_class), Some(base.base_pointer)], found)
        }
        TypeData::VirtualFunctionTablePointer(pointer) => push_given(&[Some(pointer.table)], found),
        _ => Ok(()),
    }
}

/// Appends the types to which a class, a union or an enumeration refers.
fn push_of_definition(value: &TypeData<'_>, found: &mut Vec<TypeIndex>) -> Result<(), AllocError> {
    match value {
        TypeData::Class(class) => push_given(
            &[class.fields, class.derived_from, class.vtable_shape],
            found,
        ),
        TypeData::Union(union_type) => push_given(&[Some(union_type.fields)], found),
        TypeData::Enumeration(enumeration) => push_given(
            &[Some(enumeration.underlying_type), Some(enumeration.fields)],
            found,
        ),
        _ => push_of_field(value, found),
    }
}

/// Appends the types to which a type refers that is no list.
fn push_of_type(value: &TypeData<'_>, found: &mut Vec<TypeIndex>) -> Result<(), AllocError> {
    match value {
        TypeData::Procedure(function) => push_given(
            &[function.return_type, Some(function.argument_list)],
            found,
        ),
        TypeData::MemberFunction(function) => push_given(
            &[
                Some(function.return_type),
                Some(function.class_type),
                function.this_pointer_type,
                Some(function.argument_list),
            ],
            found,
        ),
        TypeData::Pointer(pointer) => push_given(
            &[Some(pointer.underlying_type), pointer.containing_class],
            found,
        ),
        TypeData::Modifier(modifier) => push_given(&[Some(modifier.underlying_type)], found),
        TypeData::Bitfield(bitfield) => push_given(&[Some(bitfield.underlying_type)], found),
        TypeData::Array(array) => push_given(
            &[Some(array.element_type), Some(array.indexing_type)],
            found,
        ),
        _ => push_of_definition(value, found),
    }
}

/// Appends the types to which the record of a type refers, primitive types and repetitions among
/// them.
///
/// # Errors
/// Fails if an allocation fails.
pub(crate) fn push_references(
    value: &TypeData<'_>,
    found: &mut Vec<TypeIndex>,
) -> Result<(), AllocError> {
    match value {
        TypeData::FieldList(list) => {
            for field in list.fields.iter() {
                push_of_field(field, found)?;
            }
            push_given(&[list.continuation], found)
        }
        TypeData::ArgumentList(list) => found.extend_from_slice(&list.arguments),
        TypeData::MethodList(list) => {
            for method in list.methods.iter() {
                found.push(method.method_type)?;
            }
            Ok(())
        }
        _ => push_of_type(value, found),
    }
}
