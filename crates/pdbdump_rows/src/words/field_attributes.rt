//! Attributes of a member in words.

use crate::value::Flag;
use pdb_flags::FieldAttributes;

/// Returns who may access a member: `private`, `protected` or `public`, or None if the attributes
/// don't say.
pub(crate) fn access_word(word: FieldAttributes) -> Option<&'static str> {
    match word.access() {
        1 => Some("private"),
        2 => Some("protected"),
        3 => Some("public"),
        _ => None,
    }
}

/// Returns the flags of the attributes that a member has.
pub(crate) fn field_flags(word: FieldAttributes) -> [Flag; 4] {
    [
        (word.is_virtual(), "is_virtual"),
        (word.is_static(), "is_static"),
        (word.is_pure_virtual(), "is_pure_virtual"),
        (word.is_intro_virtual(), "is_intro_virtual"),
    ]
}
