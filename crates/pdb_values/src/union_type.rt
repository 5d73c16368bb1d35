//! Unions.

use pdb_base::{RawString, TypeIndex};
use pdb_flags::TypeProperties;

/// A union: `lfUnion` of Microsoft's cvinfo.h.
#[derive(Clone, Debug, PartialEq, Eq, Drop)]
pub struct UnionType<'t> {
    /// How many members its field list has.
    pub count: u16,

    /// Its properties, such as whether it is packed or nested in another type.
    pub properties: TypeProperties,

    /// Its members, in a field list.
    pub fields: TypeIndex,

    /// How many bytes it takes.
    pub size: u64,

    /// Its name.
    pub name: RawString<'t>,

    /// The decorated name, which no other union has.
    pub unique_name: Option<RawString<'t>>,
}
