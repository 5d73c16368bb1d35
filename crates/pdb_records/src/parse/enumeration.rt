//! Enumerations and their values.

ghost use Rattle.pdb_base.specs.Answer.{Gives};
ghost use Rattle.pdb_base.specs.Place.{left};
ghost use Rattle.pdb_values.specs.TypeView.{type_value};
ghost use Rattle.pdb_records.specs.Records.{plain_at};
ghost use Rattle.pdb_records.specs.Rows.{enumeration_row, enumerate_row};

use crate::parse::shape::{parse_some_text, parse_text, parse_type_index};
use pdb_base::{ParseBuffer, Result};
use pdb_flags::{FieldAttributes, TypeProperties};
use pdb_values::{EnumerateType, EnumerationType, TypeData};

/// Reads an enumeration.
#[tactic(auto, unfolding(crate::specs::Row::row, crate::specs::Rows::enumeration_row))]
pub(crate) fn parse_enumeration<'t>(buffer: &mut ParseBuffer<'t>, leaf: u16) -> Result<TypeData<'t>>
    ensures { Gives (λ t. (type_value t, left buffer.new)) result (plain_at (enumeration_row leaf) (left buffer.old)) }
{
    let count = buffer.parse_u16()?;
    let properties = TypeProperties::new(buffer.parse_u16()?);
    Ok(TypeData::Enumeration(EnumerationType {
        count,
        properties,
        underlying_type: parse_type_index(buffer)?,
        fields: parse_type_index(buffer)?,
        name: parse_text(buffer, leaf)?,
        unique_name: parse_some_text(buffer, leaf, properties.has_unique_name())?,
    }))
}

/// Reads a value of an enumeration.
#[tactic(auto, unfolding(crate::specs::Row::row, crate::specs::Rows::enumerate_row))]
pub(crate) fn parse_enumerate<'t>(buffer: &mut ParseBuffer<'t>, leaf: u16) -> Result<TypeData<'t>>
    ensures { Gives (λ t. (type_value t, left buffer.new)) result (plain_at (enumerate_row leaf) (left buffer.old)) }
{
    Ok(TypeData::Enumerate(EnumerateType {
        attributes: FieldAttributes::new(buffer.parse_u16()?),
        value: buffer.parse_variant()?,
        name: parse_text(buffer, leaf)?,
    }))
}
