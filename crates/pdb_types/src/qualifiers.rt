//! The qualifiers of types: `const`, `volatile`, `__restrict` and `__unaligned`.

use crate::memory::AllocResult;
use pdb_flags::PointerAttributes;
use pdb_values::ModifierType;

/// Which qualifiers a type has.
#[derive(Clone, Copy)]
pub(crate) struct Qualifiers {
    is_const: bool,
    is_volatile: bool,
    is_restrict: bool,
    is_unaligned: bool,
}

/// Appends a word and a space, if it is there.
fn push_word(text: &mut Vec<u8>, is_there: bool, word: &str) -> AllocResult<()> {
    if is_there {
        text.extend_from_slice(word.as_bytes())?;
        text.push(b' ')?;
    }
    Ok(())
}

impl Qualifiers {
    /// Returns the qualifiers of a type that has none.
    pub(crate) fn none() -> Self {
        Qualifiers {
            is_const: false,
            is_volatile: false,
            is_restrict: false,
            is_unaligned: false,
        }
    }

    /// Returns whether there are none.
    pub(crate) fn is_none(self) -> bool {
        !(self.is_const || self.is_volatile || self.is_restrict || self.is_unaligned)
    }

    /// Returns these qualifiers and those of a modifier.
    pub(crate) fn with_modifier(self, modifier: ModifierType) -> Self {
        Qualifiers {
            is_const: self.is_const || modifier.constant,
            is_volatile: self.is_volatile || modifier.volatile,
            is_restrict: self.is_restrict,
            is_unaligned: self.is_unaligned || modifier.unaligned,
        }
    }

    /// Returns these qualifiers and those of a pointer.
    pub(crate) fn with_pointer(self, attributes: PointerAttributes) -> Self {
        Qualifiers {
            is_const: self.is_const || attributes.is_const(),
            is_volatile: self.is_volatile || attributes.is_volatile(),
            is_restrict: self.is_restrict || attributes.is_restrict(),
            is_unaligned: self.is_unaligned || attributes.is_unaligned(),
        }
    }

    /// Appends the qualifiers as C++ spells them, with a space behind each.
    pub(crate) fn push_to(self, text: &mut Vec<u8>) -> AllocResult<()> {
        push_word(text, self.is_const, "const")?;
        push_word(text, self.is_volatile, "volatile")?;
        push_word(text, self.is_restrict, "__restrict")?;
        push_word(text, self.is_unaligned, "__unaligned")
    }
}
