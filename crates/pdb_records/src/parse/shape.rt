//! Parsers for the fields of records.

ghost use Rattle.std.specs.Prelude.{◌≡◌};
ghost use Rattle.std.specs.Option.{option_map};
ghost use Rattle.pdb_base.specs.Answer.{Gives};
ghost use Rattle.pdb_base.specs.Place.{left};
ghost use Rattle.pdb_records.specs.Shape.{read_shape, type_index, id_index, some_type, some_id, text, when};
ghost use Rattle.pdb_records.specs.Rows.{low_16, low_32};

use crate::parse::index::parse_index;
use pdb_base::{IdIndex, ParseBuffer, RawString, Result, TypeIndex};
use pdb_values::constants::LF_ST_MAX;

/// Reads the index of a type.
#[inline(always)]
pub(crate) fn parse_type_index(buffer: &mut ParseBuffer<'_>) -> Result<TypeIndex>
    ensures { Gives (λ index. (index, left buffer.new)) result (read_shape type_index (left buffer.old)) }
{
    parse_index(buffer)
}

/// Reads the index of a type, or None for 0 and 0xffff.
#[inline(always)]
pub(crate) fn parse_some_type(buffer: &mut ParseBuffer<'_>) -> Result<Option<TypeIndex>>
    ensures { Gives (λ index. (index, left buffer.new)) result (read_shape some_type (left buffer.old)) }
{
    match buffer.parse_u32()? {
        0 | 0xffff => Ok(None),
        number => Ok(Some(TypeIndex(number))),
    }
}

/// Reads the index of an id.
#[inline(always)]
pub(crate) fn parse_id_index(buffer: &mut ParseBuffer<'_>) -> Result<IdIndex>
    ensures { Gives (λ index. (index, left buffer.new)) result (read_shape id_index (left buffer.old)) }
{
    parse_index(buffer)
}

/// Reads the index of an id, or None for 0.
#[inline(always)]
pub(crate) fn parse_some_id(buffer: &mut ParseBuffer<'_>) -> Result<Option<IdIndex>>
    ensures { Gives (λ index. (index, left buffer.new)) result (read_shape some_id (left buffer.old)) }
{
    match buffer.parse_u32()? {
        0 => Ok(None),
        number => Ok(Some(IdIndex(number))),
    }
}

/// Reads a text in a record of the kind `leaf`. It ends with a NUL if the kind is above
/// `LF_ST_MAX`, and otherwise follows a byte with its length.
#[inline(always)]
pub(crate) fn parse_text<'t>(buffer: &mut ParseBuffer<'t>, leaf: u16) -> Result<RawString<'t>>
    ensures { Gives (λ name. (name.0.now, left buffer.new)) result (read_shape (text leaf) (left buffer.old)) }
{
    if leaf > LF_ST_MAX {
        buffer.parse_cstring()
    } else {
        buffer.parse_u8_pascal_string()
    }
}

/// Reads a text in a record of the kind `leaf`, if `is_there` says that the record has one.
#[inline(always)]
pub(crate) fn parse_some_text<'t>(
    buffer: &mut ParseBuffer<'t>,
    leaf: u16,
    is_there: bool,
) -> Result<Option<RawString<'t>>>
    ensures { Gives (λ name. (option_map (λ text. text.0.now) name, left buffer.new)) result
        (read_shape (when is_there (text leaf)) (left buffer.old)) }
{
    if is_there {
        Ok(Some(parse_text(buffer, leaf)?))
    } else {
        Ok(None)
    }
}

/// Returns the low 16 bits of a number.
pub(crate) fn low_16_bits(number: u32) -> u16
    ensures { result ≡ low_16 number }
{
    (number % 0x1_0000) as u16
}

/// Returns the low 32 bits of a number.
pub(crate) fn low_32_bits(number: u64) -> u32
    ensures { result ≡ low_32 number }
{
    (number % 0x1_0000_0000) as u32
}
