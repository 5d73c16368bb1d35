//! Data members, nested types and base classes.

ghost use Rattle.pdb_base.specs.Answer.{Gives};
ghost use Rattle.pdb_base.specs.Place.{left};
ghost use Rattle.pdb_values.specs.TypeView.{type_value};
ghost use Rattle.pdb_records.specs.Records.{plain_at};
ghost use Rattle.pdb_records.specs.Rows.{member_row, static_member_row, nested_row, base_row, virtual_base_row};
ghost use Rattle.pdb_records.specs.Rows.{table_pointer_row};

use crate::parse::shape::{low_32_bits, parse_text, parse_type_index};
use pdb_base::{ParseBuffer, Result};
use pdb_flags::FieldAttributes;
use pdb_values::{
    BaseClassType, ClassKind, MemberType, NestedType, StaticMemberType, TypeData,
    VirtualBaseClassType, VirtualFunctionTablePointerType,
};

/// Reads a data member that each object has.
#[tactic(auto, unfolding(crate::specs::Row::row, crate::specs::Rows::member_row))]
pub(crate) fn parse_member<'t>(buffer: &mut ParseBuffer<'t>, leaf: u16) -> Result<TypeData<'t>>
    ensures { Gives (λ t. (type_value t, left buffer.new)) result (plain_at (member_row leaf) (left buffer.old)) }
{
    Ok(TypeData::Member(MemberType {
        attributes: FieldAttributes::new(buffer.parse_u16()?),
        field_type: parse_type_index(buffer)?,
        offset: buffer.parse_num()?,
        name: parse_text(buffer, leaf)?,
    }))
}

/// Reads a static data member, which the class has once.
#[tactic(auto, unfolding(crate::specs::Row::row, crate::specs::Rows::static_member_row))]
pub(crate) fn parse_static_member<'t>(
    buffer: &mut ParseBuffer<'t>,
    leaf: u16,
) -> Result<TypeData<'t>>
    ensures { Gives (λ t. (type_value t, left buffer.new)) result
        (plain_at (static_member_row leaf) (left buffer.old)) }
{
    Ok(TypeData::StaticMember(StaticMemberType {
        attributes: FieldAttributes::new(buffer.parse_u16()?),
        field_type: parse_type_index(buffer)?,
        name: parse_text(buffer, leaf)?,
    }))
}

/// Reads a type that is defined in a class. Its first word is its attributes if `has_attributes`
/// holds, and is ignored otherwise.
#[tactic(auto, unfolding(crate::specs::Row::row, crate::specs::Rows::nested_row))]
pub(crate) fn parse_nested<'t>(
    buffer: &mut ParseBuffer<'t>,
    leaf: u16,
    has_attributes: bool,
) -> Result<TypeData<'t>>
    ensures { Gives (λ t. (type_value t, left buffer.new)) result
        (plain_at (nested_row leaf has_attributes) (left buffer.old)) }
{
    let word = buffer.parse_u16()?;
    Ok(TypeData::Nested(NestedType {
        attributes: FieldAttributes::new(if has_attributes { word } else { 0 }),
        nested_type: parse_type_index(buffer)?,
        name: parse_text(buffer, leaf)?,
    }))
}

/// Reads a base class.
#[tactic(auto, unfolding(crate::specs::Row::row, crate::specs::Rows::base_row))]
pub(crate) fn parse_base_class<'t>(
    buffer: &mut ParseBuffer<'t>,
    kind: ClassKind,
) -> Result<TypeData<'t>>
    ensures { Gives (λ t. (type_value t, left buffer.new)) result (plain_at (base_row kind) (left buffer.old)) }
{
    Ok(TypeData::BaseClass(BaseClassType {
        kind,
        attributes: FieldAttributes::new(buffer.parse_u16()?),
        base_class: parse_type_index(buffer)?,
        offset: low_32_bits(buffer.parse_num()?),
    }))
}

/// Reads a virtual base class.
#[tactic(auto, unfolding(crate::specs::Row::row, crate::specs::Rows::virtual_base_row))]
pub(crate) fn parse_virtual_base_class<'t>(
    buffer: &mut ParseBuffer<'t>,
    direct: bool,
) -> Result<TypeData<'t>>
    ensures { Gives (λ t. (type_value t, left buffer.new)) result
        (plain_at (virtual_base_row direct) (left buffer.old)) }
{
    Ok(TypeData::VirtualBaseClass(VirtualBaseClassType {
        direct,
        attributes: FieldAttributes::new(buffer.parse_u16()?),
        base_class: parse_type_index(buffer)?,
        base_pointer: parse_type_index(buffer)?,
        base_pointer_offset: low_32_bits(buffer.parse_num()?),
        virtual_base_offset: low_32_bits(buffer.parse_num()?),
    }))
}

/// Reads a pointer to a table of virtual functions.
#[tactic(auto, unfolding(crate::specs::Row::row, crate::specs::Rows::table_pointer_row))]
pub(crate) fn parse_table_pointer<'t>(buffer: &mut ParseBuffer<'t>) -> Result<TypeData<'t>>
    ensures { Gives (λ t. (type_value t, left buffer.new)) result (plain_at table_pointer_row (left buffer.old)) }
{
    buffer.parse_u16()?;
    Ok(TypeData::VirtualFunctionTablePointer(VirtualFunctionTablePointerType {
        table: parse_type_index(buffer)?,
    }))
}
