//! Pointers and references.

use pdb_base::TypeIndex;
use pdb_flags::PointerAttributes;

/// A pointer, a reference or a pointer to a member: `lfPointer` of Microsoft's cvinfo.h.
#[derive(Clone, Copy, Debug, PartialEq, Eq)]
pub struct PointerType {
    /// The type that it points to.
    pub underlying_type: TypeIndex,

    /// What sort of pointer it is.
    pub attributes: PointerAttributes,

    /// The class whose member it points to, if it is a pointer to a member.
    pub containing_class: Option<TypeIndex>,
}
