//! Lists of indexes that follow their count.

ghost use Rattle.std.specs.Prelude.{◌*◌, ◌<◌, ◌≤◌, length, IsOkAnd};
ghost use Rattle.pdb_base.specs.Answer.{Answers, Gives};
ghost use Rattle.pdb_base.specs.Memory.{LacksOnlyIf, HasItem};
ghost use Rattle.pdb_base.specs.Place.{left};
ghost use Rattle.pdb_base.specs.Reading.{number_at};
ghost use Rattle.pdb_base.specs.Repeated.{read_times};
ghost use Rattle.pdb_records.specs.Shape.{index_at};
ghost use Rattle.pdb_records.specs.Counted.{count_bytes, counted_at};

use crate::parse::index::{Index, parse_index};
use pdb_base::{Error, ParseBuffer, Result};
use std::alloc::Global;

/// How many bits a count has.
#[derive(Clone, Copy, Debug, PartialEq, Eq)]
pub enum CountWidth {
    /// 16 bits.
    Bits16,

    /// 32 bits.
    Bits32,
}

/// Reads a count.
fn parse_count(buffer: &mut ParseBuffer<'_>, width: CountWidth) -> Result<usize>
    ensures { Gives (λ count. (count, left buffer.new)) result (number_at (count_bytes width) (left buffer.old)) }
{
    match width {
        CountWidth::Bits16 => Ok(buffer.parse_u16()? as usize),
        CountWidth::Bits32 => Ok(buffer.parse_u32()? as usize),
    }
}

/// Reads `count` indexes, whose bytes are known to be left.
fn parse_held_indexes<I: Index>(
    alloc: Global,
    buffer: &mut ParseBuffer<'_>,
    count: usize,
) -> Result<Vec<I>>
    requires { 4 * count ≤ length (left buffer.old) }
    ensures read { Answers (λ list. (list.items, left buffer.new)) result
        (read_times (index_at I.said) count (left buffer.old)) }
    ensures memory { LacksOnlyIf result (0 < count) }
{
    let mut indexes = Vec::new(alloc);
    while indexes.len() < count {
        indexes.push(parse_index(buffer)?)?;
    }
    Ok(indexes)
}

/// Reads `count` indexes.
///
/// # Errors
/// Fails with `UnexpectedEof` if the bytes don't hold that many, before anything is allocated, and
/// with `OutOfMemory` if the allocation fails.
fn parse_indexes<I: Index>(
    alloc: Global,
    buffer: &mut ParseBuffer<'_>,
    count: usize,
) -> Result<Vec<I>>
    ensures read { Answers (λ list. (list.items, left buffer.new)) result
        (read_times (index_at I.said) count (left buffer.old)) }
    ensures memory { LacksOnlyIf result
        (IsOkAnd (read_times (index_at I.said) count (left buffer.old)) (λ read. HasItem read.0)) }
{
    if buffer.len() / 4 < count {
        return Err(Error::UnexpectedEof);
    }
    parse_held_indexes(alloc, buffer, count)
}

/// Reads a count and the indexes behind it.
///
/// # Errors
/// Fails with `UnexpectedEof` if the bytes end before the count does or don't hold as many indexes
/// as it says, before anything is allocated, and with `OutOfMemory` if the allocation fails.
pub(crate) fn parse_counted<I: Index>(
    alloc: Global,
    buffer: &mut ParseBuffer<'_>,
    width: CountWidth,
) -> Result<Vec<I>>
    ensures read { Answers (λ list. (list.items, left buffer.new)) result (counted_at width I.said (left buffer.old)) }
    ensures memory { LacksOnlyIf result (IsOkAnd (counted_at width I.said (left buffer.old)) (λ read. HasItem read.0)) }
{
    let count = parse_count(buffer, width)?;
    parse_indexes(alloc, buffer, count)
}
