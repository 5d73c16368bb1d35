//! Functions, and lists of the types of their arguments.

ghost use Rattle.std.specs.Prelude.{Ok};
ghost use Rattle.pdb_base.specs.Answer.{Answers};
ghost use Rattle.pdb_base.specs.Memory.{LacksOnlyIf, HasItem};
ghost use Rattle.pdb_values.specs.Function.{argument_types};

use pdb_base::{Result, TypeIndex};
use pdb_flags::FunctionAttributes;
use std::alloc::Global;

/// The type of a function: `lfProc` of Microsoft's cvinfo.h.
#[derive(Clone, Copy, Debug, PartialEq, Eq)]
pub struct ProcedureType {
    /// The type that it returns.
    pub return_type: Option<TypeIndex>,

    /// Its attributes, which say how it is called.
    pub attributes: FunctionAttributes,

    /// How many parameters it has.
    pub parameter_count: u16,

    /// The list of their types.
    pub argument_list: TypeIndex,
}

/// The type of a method: `lfMFunc` of Microsoft's cvinfo.h.
#[derive(Clone, Copy, Debug, PartialEq, Eq)]
pub struct MemberFunctionType {
    /// The type that it returns.
    pub return_type: TypeIndex,

    /// The class that it is a method of.
    pub class_type: TypeIndex,

    /// The type of `this`, or None for a static method.
    pub this_pointer_type: Option<TypeIndex>,

    /// Its attributes, which say how it is called.
    pub attributes: FunctionAttributes,

    /// How many parameters it has, without `this`.
    pub parameter_count: u16,

    /// The list of their types.
    pub argument_list: TypeIndex,

    /// How many bytes `this` is adjusted by before it is used.
    pub this_adjustment: u32,
}

/// The types of a function's arguments, in order: `lfArgList` of Microsoft's cvinfo.h.
#[derive(Debug, PartialEq, Eq, Drop)]
pub struct ArgumentList {
    /// The types.
    pub arguments: Vec<TypeIndex>,
}

impl ArgumentList {
    /// Returns an equal list, in memory of its own.
    ///
    /// # Errors
    /// Returns `OutOfMemory` if an allocation fails. Memory is allocated only if the list has an
    /// item.
    pub fn clone(&self, alloc: Global) -> Result<Self>
        ensures copied { Answers argument_types result (Ok (argument_types self.now)) }
        ensures memory { LacksOnlyIf result (HasItem (argument_types self.now)) }
    {
        let mut arguments = Vec::new(alloc);
        arguments.extend_from_slice(&self.arguments)?;
        Ok(ArgumentList { arguments })
    }
}
