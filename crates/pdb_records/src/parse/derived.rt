//! Pointers, modifiers and bit fields.

ghost use Rattle.pdb_base.specs.Answer.{Gives};
ghost use Rattle.pdb_base.specs.Place.{left};
ghost use Rattle.pdb_values.specs.TypeView.{type_value};
ghost use Rattle.pdb_records.specs.Records.{plain_at};
ghost use Rattle.pdb_records.specs.Rows.{pointer_row, modifier_row, bitfield_row};

use crate::parse::shape::parse_type_index;
use pdb_base::{Error, ParseBuffer, Result, is_bit_set};
use pdb_flags::PointerAttributes;
use pdb_values::constants::LF_POINTER;
use pdb_values::{BitfieldType, ModifierType, PointerType, TypeData};

/// Reads a pointer.
#[tactic(auto, unfolding(crate::specs::Row::row, crate::specs::Rows::pointer_row))]
pub(crate) fn parse_pointer<'t>(buffer: &mut ParseBuffer<'t>) -> Result<TypeData<'t>>
    ensures { Gives (λ t. (type_value t, left buffer.new)) result (plain_at pointer_row (left buffer.old)) }
{
    let underlying_type = parse_type_index(buffer)?;
    let Some(attributes) = PointerAttributes::new(buffer.parse_u32()?) else {
        return Err(Error::UnimplementedTypeKind(LF_POINTER));
    };
    let containing_class = if attributes.pointer_to_member() {
        Some(parse_type_index(buffer)?)
    } else {
        None
    };
    Ok(TypeData::Pointer(PointerType {
        underlying_type,
        attributes,
        containing_class,
    }))
}

/// Reads a type with modifiers.
#[tactic(auto, unfolding(crate::specs::Row::row, crate::specs::Rows::modifier_row))]
pub(crate) fn parse_modifier<'t>(buffer: &mut ParseBuffer<'t>) -> Result<TypeData<'t>>
    ensures { Gives (λ t. (type_value t, left buffer.new)) result (plain_at modifier_row (left buffer.old)) }
{
    let underlying_type = parse_type_index(buffer)?;
    let word = buffer.parse_u16()?;
    Ok(TypeData::Modifier(ModifierType {
        underlying_type,
        constant: is_bit_set(word as u32, 0),
        volatile: is_bit_set(word as u32, 1),
        unaligned: is_bit_set(word as u32, 2),
    }))
}

/// Reads a bit field.
#[tactic(auto, unfolding(crate::specs::Row::row, crate::specs::Rows::bitfield_row))]
pub(crate) fn parse_bitfield<'t>(buffer: &mut ParseBuffer<'t>) -> Result<TypeData<'t>>
    ensures { Gives (λ t. (type_value t, left buffer.new)) result (plain_at bitfield_row (left buffer.old)) }
{
    Ok(TypeData::Bitfield(BitfieldType {
        underlying_type: parse_type_index(buffer)?,
        length: buffer.parse_u8()?,
        position: buffer.parse_u8()?,
    }))
}
