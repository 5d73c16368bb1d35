//! Lists, of which no item is kept.

ghost use Rattle.pdb_base.specs.Answer.{Answers, Gives};
ghost use Rattle.pdb_base.specs.Memory.{LacksOnlyIf};
ghost use Rattle.pdb_base.specs.Place.{left};
ghost use Rattle.pdb_records.specs.Fields.{list_continuation_at};
ghost use Rattle.pdb_records.specs.Memory.{HoldsField};
ghost use Rattle.pdb_records.specs.Records.{arguments_end};

use crate::parse::fields::parse_entries;
use pdb_base::{ParseBuffer, Result, TypeIndex};
use std::alloc::Global;

/// Reads entries to the end of the bytes and keeps none of them. Returns the index of the list that
/// continues theirs, if there is one.
///
/// # Errors
/// Fails as `parse_field_list` does. Memory is taken only while a field that is itself a list is
/// read.
#[inline(never)]
pub fn skip_field_list(alloc: Global, buffer: &mut ParseBuffer<'_>) -> Result<Option<TypeIndex>>
    ensures read { Answers (λ next. (next, left buffer.new)) result (list_continuation_at (left buffer.old)) }
    ensures memory { LacksOnlyIf result (HoldsField (left buffer.old)) }
{
    parse_entries(alloc, buffer, &mut Vec::new(alloc), false)
}

/// Skips a count and as many indexes of types after it, which is what follows the kind LF_ARGLIST.
///
/// # Errors
/// Fails with `UnexpectedEof` if the bytes end before the count does or don't hold as many indexes
/// as it says.
#[inline(always)]
pub fn skip_arguments(buffer: &mut ParseBuffer<'_>) -> Result<()>
    ensures { Gives (λ nothing. left buffer.new) result (arguments_end (left buffer.old)) }
{
    let count = buffer.parse_u32()? as usize;
    buffer.take(4 * count)?;
    Ok(())
}
