//! Attributes of a function.

ghost use Rattle.std.specs.Prelude.{◌≡◌};
ghost use Rattle.pdb_flags.specs.FunctionAttributes.{calling_convention, cxx_return_udt, is_constructor};
ghost use Rattle.pdb_flags.specs.FunctionAttributes.{is_constructor_with_virtual_bases};

use pdb_base::{bit_field, is_bit_set};
use std::marker::Model;

/// Attributes of a function or a method: the calling convention of `CV_call_e` in the low byte, and
/// the bits of `CV_funcattr_t` above it, both of Microsoft's cvinfo.h.
#[derive(Clone, Copy, Debug, PartialEq, Eq)]
pub struct FunctionAttributes(u16);

impl Model for FunctionAttributes {
    ghost use Rattle.std.specs.Prelude.{ℕ};

    ghost Value = { ℕ };

    ghost view = { λ word. word.0 };

    ghost inverse = { λ n. record { 0 = n } };
}

impl FunctionAttributes {
    /// Returns the attributes that a word states.
    pub const fn new(word: u16) -> Self
        ensures { result ≡ word }
    {
        FunctionAttributes(word)
    }

    /// Returns the word.
    pub const fn bits(self) -> u16
        ensures { result ≡ self }
    {
        self.0
    }

    /// Returns the number of the calling convention (bits 0 to 7).
    pub fn calling_convention(self) -> u8
        ensures { result ≡ calling_convention self }
    {
        bit_field(self.0 as u32, 0, 8) as u8
    }

    /// Returns whether the function returns a user-defined type as C++ does (bit 8).
    pub fn cxx_return_udt(self) -> bool
        ensures { result ≡ cxx_return_udt self }
    {
        is_bit_set(self.0 as u32, 8)
    }

    /// Returns whether the function is a constructor (bit 9).
    pub fn is_constructor(self) -> bool
        ensures { result ≡ is_constructor self }
    {
        is_bit_set(self.0 as u32, 9)
    }

    /// Returns whether the function is a constructor of a class with virtual bases (bit 10).
    pub fn is_constructor_with_virtual_bases(self) -> bool
        ensures { result ≡ is_constructor_with_virtual_bases self }
    {
        is_bit_set(self.0 as u32, 10)
    }
}
