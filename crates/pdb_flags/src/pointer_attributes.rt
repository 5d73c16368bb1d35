//! Attributes of a pointer.

ghost use Rattle.std.specs.Prelude.{◌≡◌, IsTrue};
ghost use Rattle.pdb_flags.specs.PointerAttributes.{kind_in, mode_in, is_pointer_word, pointer_word, is_flat_32};
ghost use Rattle.pdb_flags.specs.PointerAttributes.{is_volatile, is_const, is_unaligned, is_restrict, pointer_size};
ghost use Rattle.pdb_flags.specs.PointerAttributes.{is_mocom, pointer_to_member, is_reference};
ghost use Rattle.pdb_flags.specs.PointerNumbers.{pointer_kind_number, mode_number};

use crate::pointer_kind::PointerKind;
use crate::pointer_mode::PointerMode;
use pdb_base::{bit_field, is_bit_set};
use std::marker::Model;

/// Attributes of a pointer: the bits of `lfPointerAttr` in Microsoft's cvinfo.h. The kind and the
/// mode are always ones that cvinfo.h has.
#[derive(Clone, Copy, Debug, PartialEq, Eq)]
pub struct PointerAttributes(u32);

impl Model for PointerAttributes {
    ghost use Rattle.std.specs.Prelude.{ℕ, IsTrue};

    ghost Value = { ℕ };

    ghost use Rattle.pdb_flags.specs.PointerAttributes.{is_pointer_word};

    ghost view = { λ word. word.0 };

    ghost invariant = { λ word. IsTrue (is_pointer_word word.0) };

    ghost inverse = { λ n. record { 0 = n } };
}

impl PointerAttributes {
    /// Returns the attributes that a word states, or None if its kind is above 12 or its mode above
    /// 4, which have no meaning.
    pub fn new(word: u32) -> Option<Self>
        ensures { result ≡ pointer_word word }
    {
        let kind = PointerKind::from_number(bit_field(word, 0, 5));
        let mode = PointerMode::from_number(bit_field(word, 5, 3));
        if kind.is_some() && mode.is_some() {
            Some(PointerAttributes(word))
        } else {
            None
        }
    }

    /// Returns the word, whose kind and mode are ones that cvinfo.h has.
    pub const fn bits(self) -> u32
        ensures word { result ≡ self }
        ensures good { IsTrue (is_pointer_word self) }
    {
        self.0
    }

    /// Returns the kind of the pointer (bits 0 to 4).
    pub fn pointer_kind(self) -> PointerKind
        ensures { pointer_kind_number result ≡ kind_in self }
    {
        match PointerKind::from_number(bit_field(self.0, 0, 5)) {
            Some(kind) => kind,
            None => unreachable!(),
        }
    }

    /// Returns the mode of the pointer (bits 5 to 7).
    pub fn pointer_mode(self) -> PointerMode
        ensures { mode_number result ≡ mode_in self }
    {
        match PointerMode::from_number(bit_field(self.0, 5, 3)) {
            Some(mode) => mode,
            None => unreachable!(),
        }
    }

    /// Returns whether the pointer is of the flat model of 32 bits (bit 8).
    pub fn is_flat_32(self) -> bool
        ensures { result ≡ is_flat_32 self }
    {
        is_bit_set(self.0, 8)
    }

    /// Returns whether the pointer is volatile (bit 9).
    pub fn is_volatile(self) -> bool
        ensures { result ≡ is_volatile self }
    {
        is_bit_set(self.0, 9)
    }

    /// Returns whether the pointer is const (bit 10).
    pub fn is_const(self) -> bool
        ensures { result ≡ is_const self }
    {
        is_bit_set(self.0, 10)
    }

    /// Returns whether the pointer need not be aligned (bit 11).
    pub fn is_unaligned(self) -> bool
        ensures { result ≡ is_unaligned self }
    {
        is_bit_set(self.0, 11)
    }

    /// Returns whether the pointer is the only way to reach what it points to (bit 12).
    pub fn is_restrict(self) -> bool
        ensures { result ≡ is_restrict self }
    {
        is_bit_set(self.0, 12)
    }

    /// Returns the size of the pointer in bytes (bits 13 to 18). If these bits are 0, that is the
    /// usual size for the kind: 4 for `Near32` and `Far32`, 8 for `Ptr64`, and 0 for others.
    pub fn size(self) -> u8
        ensures { result ≡ pointer_size self }
    {
        match bit_field(self.0, 13, 6) {
            0 => match self.pointer_kind() {
                PointerKind::Near32 | PointerKind::Far32 => 4,
                PointerKind::Ptr64 => 8,
                _ => 0,
            },
            size => size as u8,
        }
    }

    /// Returns whether the pointer is one of the component model (bit 19).
    pub fn is_mocom(self) -> bool
        ensures { result ≡ is_mocom self }
    {
        is_bit_set(self.0, 19)
    }

    /// Returns whether the pointer points to a data member or a method of a class.
    pub fn pointer_to_member(self) -> bool
        ensures { result ≡ pointer_to_member self }
    {
        matches!(
            self.pointer_mode(),
            PointerMode::Member | PointerMode::MemberFunction
        )
    }

    /// Returns whether the pointer is a reference of either kind.
    pub fn is_reference(self) -> bool
        ensures { result ≡ is_reference self }
    {
        matches!(
            self.pointer_mode(),
            PointerMode::LValueReference | PointerMode::RValueReference
        )
    }
}
