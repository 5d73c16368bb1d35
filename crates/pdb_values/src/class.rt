//! Classes, structures and interfaces.

use pdb_base::{RawString, TypeIndex};
use pdb_flags::TypeProperties;

/// Whether a class is declared as a `class`, a `struct` or an `interface`.
#[derive(Clone, Copy, Debug, PartialEq, Eq)]
pub enum ClassKind {
    /// A `class`.
    Class,

    /// A `struct`.
    Struct,

    /// An `interface`.
    Interface,
}

/// A class, a structure or an interface: `lfClass` of Microsoft's cvinfo.h.
#[derive(Clone, Debug, PartialEq, Eq, Drop)]
pub struct ClassType<'t> {
    /// Whether it is a class, a structure or an interface.
    pub kind: ClassKind,

    /// How many members its field list has.
    pub count: u16,

    /// Its properties, such as whether it is packed or nested in another type.
    pub properties: TypeProperties,

    /// Its members, in a field list.
    pub fields: Option<TypeIndex>,

    /// The list of the classes that it derives from. Linkers leave it out and name base classes in
    /// the field list.
    pub derived_from: Option<TypeIndex>,

    /// The shape of its table of virtual functions.
    pub vtable_shape: Option<TypeIndex>,

    /// How many bytes an object of it takes.
    pub size: u64,

    /// Its name.
    pub name: RawString<'t>,

    /// The decorated name, which no other class has.
    pub unique_name: Option<RawString<'t>>,
}
