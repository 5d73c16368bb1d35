//! The type of an index.
ghost use Rattle.pdb_base.specs.Answer.{Answers};
ghost use Rattle.pdb_values.specs.TypeView.{type_value};
ghost use Rattle.pdb_types.specs.TypeAt.{type_at};

use pdb_base::{Result, TypeIndex};
use pdb_tpi::OpenTable;
use pdb_values::TypeData;
use std::alloc::Global;

/// Looks up the type of an index, and parses it.
///
/// # Errors
/// Fails as `OpenTable::item` and `Type::parse` do.
#[tactic(auto, unfolding(crate::specs::TypeAt::type_at))]
pub(crate) fn type_at<'t>(
    types: &'t OpenTable<TypeIndex>,
    alloc: Global,
    index: TypeIndex,
) -> Result<TypeData<'t>>
    ensures { Answers type_value result (type_at types.now.table index.0) }
{
    let item = types.item(index)?;
    item.parse(alloc)
}
