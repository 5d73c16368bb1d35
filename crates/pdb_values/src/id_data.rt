//! The values of id records.

ghost use Rattle.std.specs.Prelude.{◌≡◌, Ok};
ghost use Rattle.std.specs.Option.{option_map};
ghost use Rattle.pdb_base.specs.Answer.{Answers};
ghost use Rattle.pdb_base.specs.Memory.{LacksOnlyIf};
ghost use Rattle.pdb_values.specs.IdValue.{id_name, id_value};
ghost use Rattle.pdb_values.specs.Items.{HasIdListItem};
ghost use Rattle.pdb_values.specs.Text.{text_bytes};

use crate::function_id::{FunctionId, MemberFunctionId};
use crate::list_id::{BuildInfoId, StringId, StringListId};
use crate::source_id::UserDefinedTypeSourceId;
use pdb_base::{RawString, Result};
use std::alloc::Global;

/// The value of an id record.
#[derive(Debug, PartialEq, Eq, Drop)]
pub enum IdData<'t> {
    /// A function.
    Function(FunctionId<'t>),

    /// A method.
    MemberFunction(MemberFunctionId<'t>),

    /// What a module was built with.
    BuildInfo(BuildInfoId),

    /// The parts of a text.
    StringList(StringListId),

    /// A text.
    String(StringId<'t>),

    /// Where a type is declared.
    UserDefinedTypeSource(UserDefinedTypeSourceId),
}

impl<'t> IdData<'t> {
    /// Returns the name of a function, a method or a text. Returns None for every other id.
    pub fn name(&self) -> Option<RawString<'t>>
        ensures { option_map text_bytes result ≡ id_name (id_value self.now) }
    {
        match self {
            IdData::Function(function) => Some(function.name),
            IdData::MemberFunction(method) => Some(method.name),
            IdData::String(text) => Some(text.name),
            _ => None,
        }
    }

    /// Returns an equal value, with memory of its own for a list.
    ///
    /// # Errors
    /// Returns `OutOfMemory` if an allocation fails. Memory is allocated only if a list has an
    /// item.
    pub fn clone(&self, alloc: Global) -> Result<Self>
        ensures copied { Answers id_value result (Ok (id_value self.now)) }
        ensures memory { LacksOnlyIf result (HasIdListItem (id_value self.now)) }
    {
        match self {
            IdData::Function(id) => Ok(IdData::Function(FunctionId { ..*id })),
            IdData::MemberFunction(id) => Ok(IdData::MemberFunction(MemberFunctionId { ..*id })),
            IdData::BuildInfo(list) => Ok(IdData::BuildInfo(list.clone(alloc)?)),
            IdData::StringList(list) => Ok(IdData::StringList(list.clone(alloc)?)),
            IdData::String(id) => Ok(IdData::String(StringId { ..*id })),
            IdData::UserDefinedTypeSource(id) => Ok(IdData::UserDefinedTypeSource(
                UserDefinedTypeSourceId { ..*id },
            )),
        }
    }
}
