//! What a class has that takes no place in its objects: methods, static members and nested types.

use crate::lookup::{field_records, take, take_records};
use pdb_base::{RawString, Result, TypeIndex};
use pdb_flags::FieldAttributes;
use pdb_values::{MethodListEntry, OverloadedMethodType, TypeData};
use pdbdump_rows::Value;
use pdbdump_types::{Allowance, ObjectBuffer, Table, TextAllowance, TextBuffer, class_of, type_at};

/// What a member is that takes no place.
#[derive(Clone, Copy, PartialEq, Eq)]
pub(crate) enum OtherRole {
    /// A method of an object.
    Method,

    /// A virtual method.
    VirtualMethod,

    /// A method without an object.
    StaticMethod,

    /// A static data member.
    StaticMember,

    /// A type that is declared in the class.
    NestedType,
}

/// A member that takes no place.
#[derive(Clone, Copy)]
pub(crate) struct OtherMember<'t> {
    /// What it is.
    pub(crate) role: OtherRole,

    /// Its name.
    pub(crate) name: RawString<'t>,

    /// Its type.
    pub(crate) type_index: TypeIndex,
}

/// Returns what a method with these attributes is.
fn method_role(attributes: FieldAttributes) -> OtherRole {
    if attributes.is_static() {
        return OtherRole::StaticMethod;
    }
    if attributes.is_virtual() || attributes.is_pure_virtual() || attributes.is_intro_virtual() {
        return OtherRole::VirtualMethod;
    }
    OtherRole::Method
}

/// Returns the member of a record that is of one that takes no place, other than overloaded methods.
fn other_in<'t>(record: &TypeData<'t>) -> Option<OtherMember<'t>> {
    match record {
        TypeData::Method(method) => Some(OtherMember {
            role: method_role(method.attributes),
            name: method.name,
            type_index: method.method_type,
        }),
        TypeData::StaticMember(member) => Some(OtherMember {
            role: OtherRole::StaticMember,
            name: member.name,
            type_index: member.field_type,
        }),
        TypeData::Nested(nested) => Some(OtherMember {
            role: OtherRole::NestedType,
            name: nested.name,
            type_index: nested.nested_type,
        }),
        _ => None,
    }
}

/// Returns the methods of a list.
fn listed_methods(table: Table<'_, '_>, list: TypeIndex) -> Result<Vec<MethodListEntry>> {
    match table.type_at(list)? {
        TypeData::MethodList(list) => Ok(list.methods),
        _ => Ok(Vec::new(table.alloc)),
    }
}

/// Appends the methods that share a name.
fn push_overloaded<'t>(
    table: Table<'_, 't>,
    overloaded: &OverloadedMethodType<'t>,
    records: &mut Allowance,
    others: &mut Vec<OtherMember<'t>>,
) -> Result<()> {
    let methods = listed_methods(table, overloaded.method_list)?;
    take(methods.len(), records)?;
    for method in &methods {
        others.push(OtherMember {
            role: method_role(method.attributes),
            name: overloaded.name,
            type_index: method.method_type,
        })?;
    }
    Ok(())
}

/// Returns the members of a class that take no place, in the order of their records.
///
/// # Errors
/// Fails with `UnimplementedFeature` if more records would be read than are allowed, as
/// `OpenTable::fields` does, and with `OutOfMemory` if an allocation fails.
pub(crate) fn others_of<'t>(
    table: Table<'_, 't>,
    class: TypeIndex,
    records: &mut Allowance,
) -> Result<Vec<OtherMember<'t>>> {
    take_records(table, class, records)?;
    let fields = field_records(table, class)?;
    let mut others = Vec::new(table.alloc);
    for field in &fields {
        if let TypeData::OverloadedMethod(overloaded) = field {
            push_overloaded(table, overloaded, records, &mut others)?;
        }
        if let Some(other) = other_in(field) {
            others.push(other)?;
        }
    }
    Ok(others)
}

/// Returns the word with which the declaration of a member begins.
fn first_word(role: OtherRole) -> &'static str {
    match role {
        OtherRole::Method => "",
        OtherRole::VirtualMethod => "virtual ",
        OtherRole::StaticMethod | OtherRole::StaticMember => "static ",
        OtherRole::NestedType => "typedef ",
    }
}

/// Returns what C++ calls a type that is declared in a class by a name, if it is a class, a union or
/// an enumeration of that name.
fn nested_word(value: &TypeData<'_>, name: &[u8]) -> Option<&'static str> {
    let (word, own) = match value {
        TypeData::Enumeration(enumeration) => ("enum", enumeration.name),
        value => {
            let class = class_of(value)?;
            (class.word, class.name)
        }
    };
    if own.as_bytes().ends_with(name) {
        Some(word)
    } else {
        None
    }
}

/// Returns the declaration of a member, without the semicolon behind it.
///
/// # Errors
/// Fails as `Definitions::type_text` does for the type of the member.
pub(crate) fn other_declaration(
    table: Table<'_, '_>,
    other: &OtherMember<'_>,
    texts: &mut TextAllowance,
) -> Result<Vec<u8>> {
    let name = other.name.as_bytes();
    let mut declared = TextBuffer::new(table.alloc);
    if other.role == OtherRole::NestedType {
        let value = table.type_at(other.type_index)?;
        if let Some(word) = nested_word(&value, name) {
            declared.push(word.as_bytes());
            declared.push(b" ");
            declared.push(name);
            return Ok(declared.finish()?);
        }
    }
    declared.push(first_word(other.role).as_bytes());
    declared.push(&texts.bytes(table, other.type_index, name)?);
    Ok(declared.finish()?)
}

/// Returns the word for what a member is.
fn role_word(role: OtherRole) -> &'static str {
    match role {
        OtherRole::Method => "method",
        OtherRole::VirtualMethod => "virtual_method",
        OtherRole::StaticMethod => "static_method",
        OtherRole::StaticMember => "static_member",
        OtherRole::NestedType => "nested_type",
    }
}

/// Adds what the object of a member holds.
///
/// # Errors
/// Fails as `Definitions::type_text` does for the type of the member.
pub(crate) fn show_other(
    table: Table<'_, '_>,
    object: &mut ObjectBuffer,
    other: &OtherMember<'_>,
    texts: &mut TextAllowance,
) -> Result<()> {
    let type_text = texts.bytes(table, other.type_index, b"")?;
    let declared = other_declaration(table, other, texts)?;
    object.field("kind", Value::Word(role_word(other.role)));
    object.field("depth", Value::Number(0));
    object.field("name", Value::Text(other.name));
    object.field("type_index", Value::Hexadecimal(other.type_index.0));
    object.text("type", &type_text);
    object.text("declaration", &declared);
    Ok(())
}
