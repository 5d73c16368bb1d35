//! Attributes of a function in words.

use crate::value::Flag;
use pdb_flags::FunctionAttributes;

/// Returns the flags of the attributes that a function has.
pub(crate) fn function_flags(word: FunctionAttributes) -> [Flag; 3] {
    [
        (word.cxx_return_udt(), "cxx_return_udt"),
        (word.is_constructor(), "is_constructor"),
        (
            word.is_constructor_with_virtual_bases(),
            "is_constructor_with_virtual_bases",
        ),
    ]
}
