//! Ids of functions.

use pdb_base::{IdIndex, RawString, TypeIndex};

/// A function: `lfFuncId` of Microsoft's cvinfo.h.
#[derive(Clone, Debug, PartialEq, Eq, Drop)]
pub struct FunctionId<'t> {
    /// The scope that it is declared in, or None for the global scope.
    pub scope: Option<IdIndex>,

    /// Its type.
    pub function_type: TypeIndex,

    /// Its name.
    pub name: RawString<'t>,
}

/// A method: `lfMFuncId` of Microsoft's cvinfo.h.
#[derive(Clone, Debug, PartialEq, Eq, Drop)]
pub struct MemberFunctionId<'t> {
    /// The class that it is a method of.
    pub parent: TypeIndex,

    /// Its type.
    pub function_type: TypeIndex,

    /// Its name.
    pub name: RawString<'t>,
}
