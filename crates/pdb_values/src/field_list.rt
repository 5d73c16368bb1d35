//! Lists of the fields of a class, a union or an enumeration.

ghost use Rattle.std.specs.Prelude.{Ok};
ghost use Rattle.pdb_base.specs.Answer.{Answers};
ghost use Rattle.pdb_base.specs.Memory.{LacksOnlyIf};
ghost use Rattle.pdb_values.specs.Items.{HasListItem};
ghost use Rattle.pdb_values.specs.TypeView.{field_list_value};

use crate::type_data::{TypeData, copy_list};
use pdb_base::{Result, TypeIndex};
use std::alloc::Global;

/// The members of a class or a union, or the values of an enumeration, in order: `lfFieldList` of
/// Microsoft's cvinfo.h.
#[cycle(data)]
#[derive(Debug, PartialEq, Eq, Drop)]
pub struct FieldList<'t> {
    /// The members or values.
    pub fields: Vec<TypeData<'t>>,

    /// The index of the list that continues this one, if there is one.
    pub continuation: Option<TypeIndex>,
}

impl<'t> FieldList<'t> {
    /// Returns an equal list, with memory of its own for its fields and for their lists.
    ///
    /// # Errors
    /// Returns `OutOfMemory` if an allocation fails. Memory is allocated only if there is a field.
    pub fn clone(&self, alloc: Global) -> Result<Self>
        ensures copied { Answers field_list_value result (Ok (field_list_value self.now)) }
        ensures memory { LacksOnlyIf result (HasListItem (field_list_value self.now)) }
    {
        copy_list(alloc, self)
    }
}
