//! Arrays.

ghost use Rattle.std.specs.Prelude.{◌≡◌, ◌+◌};
ghost use Rattle.pdb_base.specs.Answer.{Answers, Gives};
ghost use Rattle.pdb_base.specs.Memory.{LacksOnlyIf};
ghost use Rattle.pdb_base.specs.Place.{left};
ghost use Rattle.pdb_records.specs.Dimensions.{dimension_at, dimensions_at, end_at};
ghost use Rattle.pdb_records.specs.Padding.{behind_pad, padding_at};
ghost use Rattle.pdb_values.specs.Array.{array_value};
ghost use Rattle.pdb_records.specs.Arrays.{array_at, dimensions_to_end};
ghost use Rattle.pdb_records.specs.Memory.{HoldsDimension, HoldsArray};

use crate::parse::shape::parse_type_index;
use pdb_base::{Error, ParseBuffer, Result};
use pdb_values::ArrayType;
use pdb_values::constants::LF_PAD0;
use std::alloc::Global;

/// Returns how many bytes a pad has that begins with `byte`.
fn pad_length(byte: u8) -> usize
    ensures { result ≡ behind_pad byte + 1 }
{
    (byte % 16).max(1) as usize
}

/// Skips padding.
///
/// # Errors
/// Returns `UnexpectedEof` if the bytes end within the last pad.
pub(crate) fn skip_padding(buffer: &mut ParseBuffer<'_>) -> Result<()>
    ensures { Gives (λ nothing. (tt, left buffer.new)) result (padding_at (left buffer.old)) }
{
    while !buffer.is_empty() {
        let byte = buffer.peek_u8()?;
        if (byte as u16) < LF_PAD0 {
            return Ok(());
        }
        buffer.take(pad_length(byte))?;
    }
    Ok(())
}

/// Reads one dimension.
///
/// # Errors
/// Fails as `parse_num` does, and with `UnimplementedFeature` if the dimension is above 0xffffffff.
fn parse_dimension(buffer: &mut ParseBuffer<'_>) -> Result<u32>
    ensures { Gives (λ n. (n, left buffer.new)) result (dimension_at (left buffer.old)) }
{
    let dimension = buffer.parse_num()?;
    if dimension <= 0xffff_ffff {
        Ok(dimension as u32)
    } else {
        Err(Error::UnimplementedFeature("u64 array sizes"))
    }
}

/// Returns whether a zero byte ends the dimensions here, and skips that byte.
fn ends_dimensions(buffer: &mut ParseBuffer<'_>) -> Result<bool>
    ensures { Gives (λ ends. (ends, left buffer.new)) result (end_at (left buffer.old)) }
{
    if buffer.peek_u8()? != 0 {
        return Ok(false);
    }
    buffer.parse_u8()?;
    Ok(true)
}

/// Reads the dimensions of an array.
fn parse_dimensions(alloc: Global, buffer: &mut ParseBuffer<'_>) -> Result<Vec<u32>>
    ensures read { Answers (λ list. (list.items, left buffer.new)) result (dimensions_at (left buffer.old)) }
    ensures memory { LacksOnlyIf result (HoldsDimension (left buffer.old)) }
{
    let mut dimensions = Vec::new(alloc);
    'all: loop {
        dimensions.push(parse_dimension(buffer)?)?;
        if ends_dimensions(buffer)? {
            return Ok(dimensions);
        }
    }
}

/// Reads the dimensions of an array and the padding behind them, which reach to the end of the
/// bytes.
///
/// # Errors
/// Fails as reading the dimensions or the padding does, and with `UnexpectedEof` if bytes are left
/// behind them.
#[tactic(auto, unfolding(crate::specs::Arrays::dimensions_to_end))]
fn parse_last_dimensions(alloc: Global, buffer: &mut ParseBuffer<'_>) -> Result<Vec<u32>>
    ensures read { Answers (λ list. (list.items, left buffer.new)) result (dimensions_to_end (left buffer.old)) }
    ensures memory { LacksOnlyIf result (HoldsDimension (left buffer.old)) }
{
    let dimensions = parse_dimensions(alloc, buffer)?;
    skip_padding(buffer)?;
    if buffer.is_empty() {
        Ok(dimensions)
    } else {
        Err(Error::UnexpectedEof)
    }
}

/// Reads an array, with a stride or without.
#[tactic(auto, unfolding(crate::specs::Row::row, crate::specs::Lists::array_row, crate::specs::Arrays::array_at))]
pub(crate) fn parse_array(
    alloc: Global,
    buffer: &mut ParseBuffer<'_>,
    strided: bool,
) -> Result<ArrayType>
    ensures read { Answers (λ t. (array_value t, left buffer.new)) result (array_at strided (left buffer.old)) }
    ensures memory { LacksOnlyIf result (HoldsArray strided (left buffer.old)) }
{
    Ok(ArrayType {
        element_type: parse_type_index(buffer)?,
        indexing_type: parse_type_index(buffer)?,
        stride: if strided {
            Some(buffer.parse_u32()?)
        } else {
            None
        },
        dimensions: parse_last_dimensions(alloc, buffer)?,
    })
}
