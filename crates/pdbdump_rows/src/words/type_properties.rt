//! Properties of a type in words.

use crate::value::Flag;
use pdb_flags::TypeProperties;

/// Returns the flags of the properties that a type has.
pub(crate) fn property_flags(word: TypeProperties) -> [Flag; 12] {
    [
        (word.packed(), "packed"),
        (word.constructors(), "constructors"),
        (word.overloaded_operators(), "overloaded_operators"),
        (word.is_nested_type(), "is_nested_type"),
        (word.contains_nested_types(), "contains_nested_types"),
        (word.overloaded_assignment(), "overloaded_assignment"),
        (word.overloaded_casting(), "overloaded_casting"),
        (word.forward_reference(), "forward_reference"),
        (word.scoped_definition(), "scoped_definition"),
        (word.has_unique_name(), "has_unique_name"),
        (word.sealed(), "sealed"),
        (word.intrinsic_type(), "intrinsic_type"),
    ]
}
