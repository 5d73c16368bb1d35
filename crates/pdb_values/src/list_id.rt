//! Ids of texts and of lists.

ghost use Rattle.std.specs.Prelude.{Ok};
ghost use Rattle.pdb_base.specs.Answer.{Answers};
ghost use Rattle.pdb_base.specs.Memory.{LacksOnlyIf, HasItem};
ghost use Rattle.pdb_values.specs.IdValue.{build_arguments, text_parts};

use pdb_base::{IdIndex, RawString, Result, TypeIndex};
use std::alloc::Global;

/// What a module was built with: the tool, its arguments and so on, each as the id of a text. This
/// is `lfBuildInfo` of Microsoft's cvinfo.h.
#[derive(Debug, PartialEq, Eq, Drop)]
pub struct BuildInfoId {
    /// The ids, in order.
    pub arguments: Vec<IdIndex>,
}

/// The parts of a text, in order: `LF_SUBSTR_LIST` of Microsoft's cvinfo.h.
#[derive(Debug, PartialEq, Eq, Drop)]
pub struct StringListId {
    /// The parts.
    pub substrings: Vec<TypeIndex>,
}

/// A text: `lfStringId` of Microsoft's cvinfo.h.
#[derive(Clone, Debug, PartialEq, Eq, Drop)]
pub struct StringId<'t> {
    /// The list of its first parts, if it has parts other than the last.
    pub substrings: Option<IdIndex>,

    /// Its last part.
    pub name: RawString<'t>,
}

impl BuildInfoId {
    /// Returns an equal list, in memory of its own.
    ///
    /// # Errors
    /// Returns `OutOfMemory` if an allocation fails. Memory is allocated only if the list has an
    /// item.
    pub fn clone(&self, alloc: Global) -> Result<Self>
        ensures copied { Answers build_arguments result (Ok (build_arguments self.now)) }
        ensures memory { LacksOnlyIf result (HasItem (build_arguments self.now)) }
    {
        let mut arguments = Vec::new(alloc);
        arguments.extend_from_slice(&self.arguments)?;
        Ok(BuildInfoId { arguments })
    }
}

impl StringListId {
    /// Returns an equal list, in memory of its own.
    ///
    /// # Errors
    /// Returns `OutOfMemory` if an allocation fails. Memory is allocated only if the list has an
    /// item.
    pub fn clone(&self, alloc: Global) -> Result<Self>
        ensures copied { Answers text_parts result (Ok (text_parts self.now)) }
        ensures memory { LacksOnlyIf result (HasItem (text_parts self.now)) }
    {
        let mut substrings = Vec::new(alloc);
        substrings.extend_from_slice(&self.substrings)?;
        Ok(StringListId { substrings })
    }
}
