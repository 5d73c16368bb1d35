//! Classes, structs, interfaces and unions.

ghost use Rattle.pdb_base.specs.Answer.{Gives};
ghost use Rattle.pdb_base.specs.Place.{left};
ghost use Rattle.pdb_values.specs.TypeView.{type_value};
ghost use Rattle.pdb_records.specs.Records.{plain_at};
ghost use Rattle.pdb_records.specs.Rows.{class_row, wide_class_row, union_row};

use crate::parse::shape::{
    low_16_bits, parse_some_text, parse_some_type, parse_text, parse_type_index,
};
use pdb_base::{ParseBuffer, Result};
use pdb_flags::TypeProperties;
use pdb_values::{ClassKind, ClassType, TypeData, UnionType};

/// Reads a class, a struct or an interface.
#[tactic(auto, unfolding(crate::specs::Row::row, crate::specs::Rows::class_row))]
pub(crate) fn parse_class<'t>(
    buffer: &mut ParseBuffer<'t>,
    leaf: u16,
    kind: ClassKind,
) -> Result<TypeData<'t>>
    ensures { Gives (λ t. (type_value t, left buffer.new)) result (plain_at (class_row leaf kind) (left buffer.old)) }
{
    let count = buffer.parse_u16()?;
    let properties = TypeProperties::new(buffer.parse_u16()?);
    Ok(TypeData::Class(ClassType {
        kind,
        count,
        properties,
        fields: parse_some_type(buffer)?,
        derived_from: parse_some_type(buffer)?,
        vtable_shape: parse_some_type(buffer)?,
        size: buffer.parse_num()?,
        name: parse_text(buffer, leaf)?,
        unique_name: parse_some_text(buffer, leaf, properties.has_unique_name())?,
    }))
}

/// Reads a class, a struct or an interface whose properties take 32 bits, of which the low 16 are
/// kept.
#[tactic(auto, unfolding(crate::specs::Row::row, crate::specs::Rows::wide_class_row))]
pub(crate) fn parse_wide_class<'t>(
    buffer: &mut ParseBuffer<'t>,
    leaf: u16,
    kind: ClassKind,
) -> Result<TypeData<'t>>
    ensures { Gives (λ t. (type_value t, left buffer.new)) result
        (plain_at (wide_class_row leaf kind) (left buffer.old)) }
{
    let properties = TypeProperties::new(low_16_bits(buffer.parse_u32()?));
    let fields = parse_some_type(buffer)?;
    let derived_from = parse_some_type(buffer)?;
    let vtable_shape = parse_some_type(buffer)?;
    Ok(TypeData::Class(ClassType {
        kind,
        count: buffer.parse_u16()?,
        properties,
        fields,
        derived_from,
        vtable_shape,
        size: buffer.parse_num()?,
        name: parse_text(buffer, leaf)?,
        unique_name: parse_some_text(buffer, leaf, properties.has_unique_name())?,
    }))
}

/// Reads a union.
#[tactic(auto, unfolding(crate::specs::Row::row, crate::specs::Rows::union_row))]
pub(crate) fn parse_union<'t>(buffer: &mut ParseBuffer<'t>, leaf: u16) -> Result<TypeData<'t>>
    ensures { Gives (λ t. (type_value t, left buffer.new)) result (plain_at (union_row leaf) (left buffer.old)) }
{
    let count = buffer.parse_u16()?;
    let properties = TypeProperties::new(buffer.parse_u16()?);
    Ok(TypeData::Union(UnionType {
        count,
        properties,
        fields: parse_type_index(buffer)?,
        size: buffer.parse_num()?,
        name: parse_text(buffer, leaf)?,
        unique_name: parse_some_text(buffer, leaf, properties.has_unique_name())?,
    }))
}
