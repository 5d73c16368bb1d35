//! Properties of a type.

ghost use Rattle.std.specs.Prelude.{◌≡◌};
ghost use Rattle.pdb_flags.specs.TypeProperties.{packed, constructors, overloaded_operators, is_nested_type};
ghost use Rattle.pdb_flags.specs.TypeProperties.{contains_nested_types, overloaded_assignment, overloaded_casting};
ghost use Rattle.pdb_flags.specs.TypeProperties.{forward_reference, scoped_definition, has_unique_name, sealed, hfa};
ghost use Rattle.pdb_flags.specs.TypeProperties.{intrinsic_type, mocom};

use pdb_base::{bit_field, is_bit_set};
use std::marker::Model;

/// Properties of a class, a union or an enumeration: the bits of `CV_prop_t` in Microsoft's
/// cvinfo.h.
#[derive(Clone, Copy, Debug, PartialEq, Eq)]
pub struct TypeProperties(u16);

impl Model for TypeProperties {
    ghost use Rattle.std.specs.Prelude.{ℕ};

    ghost Value = { ℕ };

    ghost view = { λ word. word.0 };

    ghost inverse = { λ n. record { 0 = n } };
}

impl TypeProperties {
    /// Returns the properties that a word states.
    pub const fn new(word: u16) -> Self
        ensures { result ≡ word }
    {
        TypeProperties(word)
    }

    /// Returns the word.
    pub const fn bits(self) -> u16
        ensures { result ≡ self }
    {
        self.0
    }

    /// Returns whether the members of the type are packed (bit 0).
    pub fn packed(self) -> bool
        ensures { result ≡ packed self }
    {
        is_bit_set(self.0 as u32, 0)
    }

    /// Returns whether the type has constructors or destructors (bit 1).
    pub fn constructors(self) -> bool
        ensures { result ≡ constructors self }
    {
        is_bit_set(self.0 as u32, 1)
    }

    /// Returns whether the type has overloaded operators (bit 2).
    pub fn overloaded_operators(self) -> bool
        ensures { result ≡ overloaded_operators self }
    {
        is_bit_set(self.0 as u32, 2)
    }

    /// Returns whether the type is nested in another type (bit 3).
    pub fn is_nested_type(self) -> bool
        ensures { result ≡ is_nested_type self }
    {
        is_bit_set(self.0 as u32, 3)
    }

    /// Returns whether other types are nested in the type (bit 4).
    pub fn contains_nested_types(self) -> bool
        ensures { result ≡ contains_nested_types self }
    {
        is_bit_set(self.0 as u32, 4)
    }

    /// Returns whether the type overloads assignment (bit 5).
    pub fn overloaded_assignment(self) -> bool
        ensures { result ≡ overloaded_assignment self }
    {
        is_bit_set(self.0 as u32, 5)
    }

    /// Returns whether the type has casting methods (bit 6).
    pub fn overloaded_casting(self) -> bool
        ensures { result ≡ overloaded_casting self }
    {
        is_bit_set(self.0 as u32, 6)
    }

    /// Returns whether the type is only declared here and another record defines it (bit 7).
    pub fn forward_reference(self) -> bool
        ensures { result ≡ forward_reference self }
    {
        is_bit_set(self.0 as u32, 7)
    }

    /// Returns whether the type is defined in a scope of its own (bit 8).
    pub fn scoped_definition(self) -> bool
        ensures { result ≡ scoped_definition self }
    {
        is_bit_set(self.0 as u32, 8)
    }

    /// Returns whether the name is followed by a second one, which no other type has (bit 9).
    pub fn has_unique_name(self) -> bool
        ensures { result ≡ has_unique_name self }
    {
        is_bit_set(self.0 as u32, 9)
    }

    /// Returns whether no class may derive from the type (bit 10).
    pub fn sealed(self) -> bool
        ensures { result ≡ sealed self }
    {
        is_bit_set(self.0 as u32, 10)
    }

    /// Returns the type's kind of homogeneous aggregate of floats, from 0 to 3 (bits 11 and 12).
    pub fn hfa(self) -> u8
        ensures { result ≡ hfa self }
    {
        bit_field(self.0 as u32, 11, 2) as u8
    }

    /// Returns whether the type is intrinsic (bit 13).
    pub fn intrinsic_type(self) -> bool
        ensures { result ≡ intrinsic_type self }
    {
        is_bit_set(self.0 as u32, 13)
    }

    /// Returns the kind of type of the component model that it is, from 0 to 3 (bits 14 and 15).
    pub fn mocom(self) -> u8
        ensures { result ≡ mocom self }
    {
        bit_field(self.0 as u32, 14, 2) as u8
    }
}
