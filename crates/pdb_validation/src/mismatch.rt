//! What is inconsistent, and where.

ghost use Rattle.std.specs.Prelude.{Ok};
ghost use Rattle.std.specs.Option.{option_to_list};
ghost use Rattle.pdb_base.specs.Answer.{Answers};
ghost use Rattle.pdb_validation.specs.Mismatch.{with_further, with_one};
ghost use Rattle.pdb_validation.specs.declared.mismatch.Extent.TheVariants as extents;

use crate::inconsistency::Inconsistency;
use pdb_base::Result;

/// How many of the mismatches a check returns.
#[derive(Clone, Copy, Debug, PartialEq, Eq)]
pub enum Extent {
    /// The first error alone, or the first warning if there is no error, so that no list is kept.
    First,
    /// All of them.
    All,
}

/// What is inconsistent, and where it is.
#[derive(Clone, Copy, Debug, PartialEq, Eq)]
pub struct Mismatch {
    /// The number of the stream in which it is, or None if it is in no stream.
    pub stream: Option<u32>,

    /// The index of the record at which it is, or None if it is at no record.
    pub index: Option<u64>,

    /// The byte of the stream at which it is, or None if it is at no byte.
    pub byte: Option<u64>,

    /// What does not hold.
    pub what: Inconsistency,
}

/// Adds a mismatch to those before it, if there is one, as far as the extent goes.
pub(crate) fn add(
    mismatches: &mut Vec<Mismatch>,
    extent: Extent,
    further: Option<Mismatch>,
) -> Result<()>
    ensures { Answers (λ done. mismatches.new.items) result
        (Ok (with_further extent mismatches.old.items (option_to_list further))) }
{
    let Some(further) = further else {
        return Ok(());
    };
    match extent {
        Extent::All => mismatches.push(further)?,
        Extent::First => keep_first(mismatches, further)?,
    }
    Ok(())
}

/// Keeps a mismatch if there is none before it, and an error in the place of a warning.
fn keep_first(mismatches: &mut Vec<Mismatch>, further: Mismatch) -> Result<()>
    ensures { Answers (λ done. mismatches.new.items) result
        (Ok (with_one extents.First mismatches.old.items further)) }
{
    match mismatches.first() {
        None => mismatches.push(further)?,
        Some(kept) => {
            if kept.what.is_warning() && !further.what.is_warning() {
                mismatches.clear();
                mismatches.push(further)?;
            }
        }
    }
    Ok(())
}
