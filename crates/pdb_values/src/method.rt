//! Methods of a class.

ghost use Rattle.std.specs.Prelude.{Ok};
ghost use Rattle.pdb_base.specs.Answer.{Answers};
ghost use Rattle.pdb_base.specs.Memory.{LacksOnlyIf, HasItem};
ghost use Rattle.pdb_values.specs.Method.{listed_methods};

use pdb_base::{RawString, Result, TypeIndex};
use pdb_flags::FieldAttributes;
use std::alloc::Global;

/// Overloaded methods, which share one name: `lfMethod` of Microsoft's cvinfo.h.
#[derive(Clone, Debug, PartialEq, Eq, Drop)]
pub struct OverloadedMethodType<'t> {
    /// How many methods have the name.
    pub count: u16,

    /// The list of the methods.
    pub method_list: TypeIndex,

    /// The name.
    pub name: RawString<'t>,
}

/// A method that shares its name with no other: `lfOneMethod` of Microsoft's cvinfo.h.
#[derive(Clone, Debug, PartialEq, Eq, Drop)]
pub struct MethodType<'t> {
    /// Its attributes, which say who may access it and whether it is static or virtual.
    pub attributes: FieldAttributes,

    /// Its type.
    pub method_type: TypeIndex,

    /// Its offset in the table of virtual functions in bytes, if the method introduces one.
    pub vtable_offset: Option<u32>,

    /// Its name.
    pub name: RawString<'t>,
}

/// The methods that share one name, in order: the list of `mlMethod` behind `lfMethod` in
/// Microsoft's cvinfo.h.
#[derive(Debug, PartialEq, Eq, Drop)]
pub struct MethodList {
    /// The methods.
    pub methods: Vec<MethodListEntry>,
}

/// One of the methods that share a name: `mlMethod` of Microsoft's cvinfo.h.
#[derive(Clone, Copy, Debug, PartialEq, Eq)]
pub struct MethodListEntry {
    /// Its attributes, which say who may access it and whether it is static or virtual.
    pub attributes: FieldAttributes,

    /// Its type.
    pub method_type: TypeIndex,

    /// Its offset in the table of virtual functions in bytes, if the method introduces one.
    pub vtable_offset: Option<u32>,
}

impl MethodList {
    /// Returns an equal list, in memory of its own.
    ///
    /// # Errors
    /// Returns `OutOfMemory` if an allocation fails. Memory is allocated only if the list has an
    /// item.
    pub fn clone(&self, alloc: Global) -> Result<Self>
        ensures copied { Answers listed_methods result (Ok (listed_methods self.now)) }
        ensures memory { LacksOnlyIf result (HasItem (listed_methods self.now)) }
    {
        let mut methods = Vec::new(alloc);
        methods.extend_from_slice(&self.methods)?;
        Ok(MethodList { methods })
    }
}
