//! Which types can be declared within the number of fields that a call may read.

ghost use Rattle.std.specs.Prelude.{◌≡◌, ◌⊎◌, false, OnOk};
ghost use Rattle.pdbdump_types.specs.Shown.{StaysAccounted};

use crate::memory::AllocResult;
use pdb_base::{Error, TypeIndex};
use pdb_output::Output;
use pdbdump_types::{Progress, TOO_MANY, Table, tell_index};
use std::alloc::{AllocError, Global};
use std::io::Write;

/// Types that others need, each of which is read once.
#[derive(Drop)]
struct Needed {
    first: u32,

    /// Whether a type was met, for each of the table.
    is_met: Vec<bool>,

    /// Those that were met and not read yet.
    unread: Vec<TypeIndex>,
}

impl Needed {
    /// Returns none of the types from one index up to another.
    fn none(alloc: Global, first: u32, end: u32) -> AllocResult<Self> {
        let mut is_met = Vec::new(alloc);
        for _ in first..end {
            is_met.push(false)?;
        }
        Ok(Needed {
            first,
            is_met,
            unread: Vec::new(alloc),
        })
    }

    /// Adds a type, if it was not met before.
    fn push(&mut self, index: TypeIndex) -> AllocResult<()> {
        let Some(place) = index.0.checked_sub(self.first) else {
            return Ok(());
        };
        let Some(is_met) = self.is_met.get_mut(place as usize) else {
            return Ok(());
        };
        if *is_met {
            return Ok(());
        }
        *is_met = true;
        self.unread.push(index)?;
        Ok(())
    }

    /// Adds the types that one needs by value. One that can't be read needs none.
    fn push_needs(&mut self, table: Table<'_, '_>, index: TypeIndex) -> AllocResult<()> {
        let needs = match table.definitions.needs_of(table.alloc, index) {
            Ok(needs) => needs,
            Err(Error::OutOfMemory) => return Err(AllocError),
            Err(_) => return Ok(()),
        };
        for need in &needs {
            self.push(*need)?;
        }
        Ok(())
    }

    /// Takes the fields of a type and of all that it needs from those that may be read, and returns
    /// whether they may be.
    fn take_fields(
        &mut self,
        table: Table<'_, '_>,
        index: TypeIndex,
        progress: &mut Progress,
    ) -> AllocResult<bool>
        ensures shown { progress.new.has_shown ≡ progress.old.has_shown }
        ensures whole { progress.new.is_whole ≡ progress.old.is_whole }
    {
        self.push(index)?;
        for _ in 0..self.is_met.len() {
            let Some(next) = self.unread.pop() else {
                return Ok(true);
            };
            if !progress.take_fields(table, next)? {
                return Ok(false);
            }
            self.push_needs(table, next)?;
        }
        Ok(true)
    }
}

/// Returns how many of the first of some types can be declared.
fn allowed_count(
    table: Table<'_, '_>,
    types: &[TypeIndex],
    end: u32,
    progress: &mut Progress,
) -> AllocResult<usize>
    ensures shown { progress.new.has_shown ≡ progress.old.has_shown }
    ensures whole { progress.new.is_whole ≡ progress.old.is_whole }
{
    let first = table.definitions.types().items().header().minimum_index;
    let mut needed = Needed::none(table.alloc, first, end)?;
    for (place, index) in types.iter().enumerate() {
        if !needed.take_fields(table, *index, progress)? {
            return Ok(place);
        }
    }
    Ok(types.len())
}

/// Leaves out the types from the first on for which, with all that they need, more records of fields
/// would be read than are allowed, and tells of it. The records of the table end before an index.
///
/// # Errors
/// Fails with `OutOfMemory` if an allocation fails.
pub(crate) fn limit_types<E: Write>(
    table: Table<'_, '_>,
    end: u32,
    types: &mut Vec<TypeIndex>,
    progress: &mut Progress,
    err: &mut Output<E>,
) -> Result<(), Error>
    ensures accounted { OnOk result (StaysAccounted progress.old progress.new err.old err.new) }
    ensures told { OnOk result ((types.new ≡ types.old) ⊎ (progress.new.is_whole ≡ false)) }
{
    let most = allowed_count(table, types, end, progress)?;
    let Some(index) = types.get(most).copied() else {
        return Ok(());
    };
    types.truncate(most);
    tell_index(table.alloc, index, TOO_MANY, progress, err)
}
