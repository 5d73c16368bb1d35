//! Bit fields.

use pdb_base::TypeIndex;

/// A bit field, a member that takes some bits of its type: `lfBitfield` of Microsoft's cvinfo.h.
#[derive(Clone, Copy, Debug, PartialEq, Eq)]
pub struct BitfieldType {
    /// The type whose bits it takes.
    pub underlying_type: TypeIndex,

    /// How many bits it takes.
    pub length: u8,

    /// The position of its lowest bit, counted from the lowest bit of the type.
    pub position: u8,
}
