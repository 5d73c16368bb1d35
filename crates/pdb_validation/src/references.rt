//! The indexes to which the record of a type refers.

ghost use Rattle.std.specs.Prelude.{◌≡◌, map, Some, None};
ghost use Rattle.std.specs.Option.{option_map};
ghost use Rattle.pdb_values.specs.TypeView.{type_value};
ghost use Rattle.pdb_validation.specs.References.{field_references, first_from, list_references, method_references};
ghost use Rattle.pdb_validation.specs.References.{references_of};

use pdb_base::ItemIndex;
use pdb_values::{FieldList, MethodListEntry, TypeData};

/// Returns the number of an index, if there is one.
pub(crate) fn number_of<I: ItemIndex>(index: Option<I>) -> Option<u32>
    ensures { result ≡ option_map I.number index }
{
    match index {
        Some(index) => Some(index.into()),
        None => None,
    }
}

/// Returns the first of these numbers, as far as they are given, that is not below `least`.
pub(crate) fn first_from(least: u32, numbers: &[Option<u32>]) -> Option<u32>
    ensures { result ≡ first_from least numbers.now }
{
    for number in numbers {
        if let Some(number) = number {
            if *number >= least {
                return Some(*number);
            }
        }
    }
    None
}

/// Returns the first of some indexes that is not below `least`.
pub(crate) fn first_index_from<I: ItemIndex>(least: u32, indexes: &[I]) -> Option<u32>
    ensures { result ≡ first_from least (map (λ index. Some (I.number index)) indexes.now) }
{
    for index in indexes {
        let number: u32 = (*index).into();
        if number >= least {
            return Some(number);
        }
    }
    None
}

/// Returns the first of the types of methods that is not below `least`.
fn first_method_from(least: u32, methods: &[MethodListEntry]) -> Option<u32>
    ensures { result ≡ first_from least (method_references methods.now) }
{
    for method in methods {
        if method.method_type.0 >= least {
            return Some(method.method_type.0);
        }
    }
    None
}

/// Returns the first of the indexes to which a field refers, or a type that is no list, that is not
/// below `least`.
fn first_in_field(least: u32, value: &TypeData<'_>) -> Option<u32>
    ensures { result ≡ first_from least (field_references (type_value value.now)) }
{
    match value {
        TypeData::Class(class) => first_from(
            least,
            &[
                number_of(class.fields),
                number_of(class.derived_from),
                number_of(class.vtable_shape),
            ],
        ),
        TypeData::Member(member) => first_from(least, &[Some(member.field_type.0)]),
        TypeData::MemberFunction(function) => first_from(
            least,
            &[
                Some(function.return_type.0),
                Some(function.class_type.0),
                number_of(function.this_pointer_type),
                Some(function.argument_list.0),
            ],
        ),
        TypeData::OverloadedMethod(methods) => first_from(least, &[Some(methods.method_list.0)]),
        TypeData::Method(method) => first_from(least, &[Some(method.method_type.0)]),
        TypeData::StaticMember(member) => first_from(least, &[Some(member.field_type.0)]),
        TypeData::Nested(nested) => first_from(least, &[Some(nested.nested_type.0)]),
        TypeData::BaseClass(base) => first_from(least, &[Some(base.base_class.0)]),
        TypeData::VirtualBaseClass(base) => first_from(
            least,
            &[Some(base.base_class.0), Some(base.base_pointer.0)],
        ),
        TypeData::VirtualFunctionTablePointer(pointer) => {
            first_from(least, &[Some(pointer.table.0)])
        }
        TypeData::Procedure(function) => first_from(
            least,
            &[
                number_of(function.return_type),
                Some(function.argument_list.0),
            ],
        ),
        TypeData::Pointer(pointer) => first_from(
            least,
            &[
                Some(pointer.underlying_type.0),
                number_of(pointer.containing_class),
            ],
        ),
        TypeData::Modifier(modifier) => first_from(least, &[Some(modifier.underlying_type.0)]),
        TypeData::Enumeration(enumeration) => first_from(
            least,
            &[
                Some(enumeration.underlying_type.0),
                Some(enumeration.fields.0),
            ],
        ),
        TypeData::Array(array) => first_from(
            least,
            &[Some(array.element_type.0), Some(array.indexing_type.0)],
        ),
        TypeData::Union(union_type) => first_from(least, &[Some(union_type.fields.0)]),
        TypeData::Bitfield(bitfield) => first_from(least, &[Some(bitfield.underlying_type.0)]),
        TypeData::Primitive(_)
        | TypeData::Enumerate(_)
        | TypeData::FieldList(_)
        | TypeData::ArgumentList(_)
        | TypeData::MethodList(_)
        | TypeData::VirtualTableShape(_) => None,
    }
}

/// Returns the first of the indexes to which a field list refers that is not below `least`.
fn first_in_list(least: u32, list: &FieldList<'_>) -> Option<u32>
    ensures { result ≡ first_from least (list_references list.now) }
{
    for field in list.fields.iter() {
        if let Some(number) = first_in_field(least, field) {
            return Some(number);
        }
    }
    first_from(least, &[number_of(list.continuation)])
}

/// Returns the first of the indexes to which a type refers that is not below `least`.
pub(crate) fn first_reference_from(least: u32, value: &TypeData<'_>) -> Option<u32>
    ensures { result ≡ first_from least (references_of (type_value value.now)) }
{
    match value {
        TypeData::FieldList(list) => first_in_list(least, list),
        TypeData::ArgumentList(list) => first_index_from(least, list.arguments.as_slice()),
        TypeData::MethodList(list) => first_method_from(least, list.methods.as_slice()),
        _ => first_in_field(least, value),
    }
}
