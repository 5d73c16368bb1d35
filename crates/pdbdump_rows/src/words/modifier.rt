//! Modifiers in words.

use crate::value::Flag;
use pdb_values::ModifierType;

/// Returns the flags of the modifiers that a type has.
pub(crate) fn modifier_flags(modifier: ModifierType) -> [Flag; 3] {
    [
        (modifier.constant, "constant"),
        (modifier.volatile, "volatile"),
        (modifier.unaligned, "unaligned"),
    ]
}
