//! Where a type is declared.

use pdb_base::{IdIndex, TypeIndex};
use pdb_space::StringRef;

/// The file that a type is declared in.
#[derive(Clone, Copy, Debug, PartialEq, Eq)]
pub enum UserDefinedTypeSourceFileRef {
    /// The id of the file's name.
    Local(IdIndex),

    /// The number of the module, and the offset of the file's name in the string table.
    Remote(u16, StringRef),
}

/// Where a type is declared: `lfUdtSrcLine` of Microsoft's cvinfo.h, or `lfUdtModSrcLine`, which
/// names the module too.
#[derive(Clone, Debug, PartialEq, Eq, Drop)]
pub struct UserDefinedTypeSourceId {
    /// The type.
    pub udt: TypeIndex,

    /// The file.
    pub source_file: UserDefinedTypeSourceFileRef,

    /// The line in the file, from 1 on.
    pub line: u32,
}
