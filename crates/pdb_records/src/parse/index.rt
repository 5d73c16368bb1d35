//! Indexes in records.

ghost use Rattle.std.specs.Prelude.{◌≡◌, ℕ};
ghost use Rattle.pdb_base.specs.Answer.{Gives};
ghost use Rattle.pdb_base.specs.Place.{left};
ghost use Rattle.pdb_records.specs.Shape.{as_id, as_type, index_at};

use pdb_base::{IdIndex, ParseBuffer, Result, TypeIndex};

/// An index that records hold as a number of four bytes.
pub(crate) trait Index: Copy {
    // The index that a number says.
    ghost said: { ℕ → Self };

    /// Returns the index with this number.
    fn from_number(number: u32) -> Self
        ensures { result ≡ said number };
}

impl Index for TypeIndex {
    ghost said = { as_type };

    fn from_number(number: u32) -> Self {
        TypeIndex(number)
    }
}

impl Index for IdIndex {
    ghost said = { as_id };

    fn from_number(number: u32) -> Self {
        IdIndex(number)
    }
}

/// Reads an index.
#[inline(always)]
pub(crate) fn parse_index<I: Index>(buffer: &mut ParseBuffer<'_>) -> Result<I>
    ensures { Gives (λ index. (index, left buffer.new)) result (index_at I.said (left buffer.old)) }
{
    Ok(I::from_number(buffer.parse_u32()?))
}
