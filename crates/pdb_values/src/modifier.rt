//! Types with a modifier.

use pdb_base::TypeIndex;

/// A type with modifiers: `lfModifier` of Microsoft's cvinfo.h.
#[derive(Clone, Copy, Debug, PartialEq, Eq)]
pub struct ModifierType {
    /// The type that is modified.
    pub underlying_type: TypeIndex,

    /// Whether it is `const`.
    pub constant: bool,

    /// Whether it is `volatile`.
    pub volatile: bool,

    /// Whether it need not be aligned.
    pub unaligned: bool,
}
