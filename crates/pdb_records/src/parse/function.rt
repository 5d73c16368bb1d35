//! Functions and methods.

ghost use Rattle.pdb_base.specs.Answer.{Gives};
ghost use Rattle.pdb_base.specs.Place.{left};
ghost use Rattle.pdb_records.specs.Row.{row};
ghost use Rattle.pdb_values.specs.TypeView.{type_value};
ghost use Rattle.pdb_records.specs.Records.{plain_at};
ghost use Rattle.pdb_records.specs.Rows.{procedure_row, member_function_row, overloaded_method_row, method_row};
ghost use Rattle.pdb_records.specs.Rows.{listed_method_row};

use crate::parse::shape::{parse_some_type, parse_text, parse_type_index};
use pdb_base::{ParseBuffer, Result};
use pdb_flags::{FieldAttributes, FunctionAttributes};
use pdb_values::{
    MemberFunctionType, MethodListEntry, MethodType, OverloadedMethodType, ProcedureType, TypeData,
};

/// Reads the type of a function.
#[tactic(auto, unfolding(crate::specs::Row::row, crate::specs::Rows::procedure_row))]
pub(crate) fn parse_procedure<'t>(buffer: &mut ParseBuffer<'t>) -> Result<TypeData<'t>>
    ensures { Gives (λ t. (type_value t, left buffer.new)) result (plain_at procedure_row (left buffer.old)) }
{
    Ok(TypeData::Procedure(ProcedureType {
        return_type: parse_some_type(buffer)?,
        attributes: FunctionAttributes::new(buffer.parse_u16()?),
        parameter_count: buffer.parse_u16()?,
        argument_list: parse_type_index(buffer)?,
    }))
}

/// Reads the type of a method.
#[tactic(auto, unfolding(crate::specs::Row::row, crate::specs::Rows::member_function_row))]
pub(crate) fn parse_member_function<'t>(buffer: &mut ParseBuffer<'t>) -> Result<TypeData<'t>>
    ensures { Gives (λ t. (type_value t, left buffer.new)) result (plain_at member_function_row (left buffer.old)) }
{
    Ok(TypeData::MemberFunction(MemberFunctionType {
        return_type: parse_type_index(buffer)?,
        class_type: parse_type_index(buffer)?,
        this_pointer_type: parse_some_type(buffer)?,
        attributes: FunctionAttributes::new(buffer.parse_u16()?),
        parameter_count: buffer.parse_u16()?,
        argument_list: parse_type_index(buffer)?,
        this_adjustment: buffer.parse_u32()?,
    }))
}

/// Reads the entry for overloaded methods, which share one name.
#[tactic(auto, unfolding(crate::specs::Row::row, crate::specs::Rows::overloaded_method_row))]
pub(crate) fn parse_overloaded_method<'t>(
    buffer: &mut ParseBuffer<'t>,
    leaf: u16,
) -> Result<TypeData<'t>>
    ensures { Gives (λ t. (type_value t, left buffer.new)) result
        (plain_at (overloaded_method_row leaf) (left buffer.old)) }
{
    Ok(TypeData::OverloadedMethod(OverloadedMethodType {
        count: buffer.parse_u16()?,
        method_list: parse_type_index(buffer)?,
        name: parse_text(buffer, leaf)?,
    }))
}

/// Reads a method that shares its name with no other.
#[tactic(auto, unfolding(crate::specs::Row::row, crate::specs::Rows::method_row))]
pub(crate) fn parse_method<'t>(buffer: &mut ParseBuffer<'t>, leaf: u16) -> Result<TypeData<'t>>
    ensures { Gives (λ t. (type_value t, left buffer.new)) result (plain_at (method_row leaf) (left buffer.old)) }
{
    let attributes = FieldAttributes::new(buffer.parse_u16()?);
    Ok(TypeData::Method(MethodType {
        attributes,
        method_type: parse_type_index(buffer)?,
        vtable_offset: if attributes.is_intro_virtual() {
            Some(buffer.parse_u32()?)
        } else {
            None
        },
        name: parse_text(buffer, leaf)?,
    }))
}

/// Reads a method in a list of methods.
#[tactic(auto, unfolding(crate::specs::Row::row, crate::specs::Rows::listed_method_row))]
pub(crate) fn parse_listed_method(buffer: &mut ParseBuffer<'_>) -> Result<MethodListEntry>
    ensures { Gives (λ t. (t, left buffer.new)) result (row listed_method_row (left buffer.old)) }
{
    let attributes = FieldAttributes::new(buffer.parse_u16()?);
    buffer.parse_u16()?;
    Ok(MethodListEntry {
        attributes,
        method_type: parse_type_index(buffer)?,
        vtable_offset: if attributes.is_intro_virtual() {
            Some(buffer.parse_u32()?)
        } else {
            None
        },
    })
}
