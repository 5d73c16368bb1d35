//! Attributes of a member.

ghost use Rattle.std.specs.Prelude.{◌≡◌};
ghost use Rattle.pdb_flags.specs.FieldAttributes.{access, method_property, is_virtual, is_static, is_pure_virtual};
ghost use Rattle.pdb_flags.specs.FieldAttributes.{is_intro_virtual};

use pdb_base::bit_field;
use std::marker::Model;

// The numbers of `CV_methodprop_e`.
const VIRTUAL: u32 = 1;

const STATIC: u32 = 2;

const INTRO: u32 = 4;

const PURE_VIRTUAL: u32 = 5;

const PURE_INTRO: u32 = 6;

/// Attributes of a member of a class: the bits of `CV_fldattr_t` in Microsoft's cvinfo.h.
#[derive(Clone, Copy, Debug, PartialEq, Eq)]
pub struct FieldAttributes(u16);

impl Model for FieldAttributes {
    ghost use Rattle.std.specs.Prelude.{ℕ};

    ghost Value = { ℕ };

    ghost view = { λ word. word.0 };

    ghost inverse = { λ n. record { 0 = n } };
}

impl FieldAttributes {
    /// Returns the attributes that a word states.
    pub const fn new(word: u16) -> Self
        ensures { result ≡ word }
    {
        FieldAttributes(word)
    }

    /// Returns the word.
    pub const fn bits(self) -> u16
        ensures { result ≡ self }
    {
        self.0
    }

    /// Returns who may access the member, as a number of `CV_access_e` from 0 to 3 (bits 0 and 1).
    pub fn access(self) -> u8
        ensures { result ≡ access self }
    {
        bit_field(self.0 as u32, 0, 2) as u8
    }

    /// Returns how the method is called, as a number of `CV_methodprop_e` (bits 2 to 4).
    fn method_property(self) -> u32
        ensures { result ≡ method_property self }
    {
        bit_field(self.0 as u32, 2, 3)
    }

    /// Returns whether the method is virtual, but neither pure nor one that introduces an entry in
    /// the table of virtual functions.
    pub fn is_virtual(self) -> bool
        ensures { result ≡ is_virtual self }
    {
        self.method_property() == VIRTUAL
    }

    /// Returns whether the method is static.
    pub fn is_static(self) -> bool
        ensures { result ≡ is_static self }
    {
        self.method_property() == STATIC
    }

    /// Returns whether the method is pure virtual and does not introduce an entry in the table of
    /// virtual functions.
    pub fn is_pure_virtual(self) -> bool
        ensures { result ≡ is_pure_virtual self }
    {
        self.method_property() == PURE_VIRTUAL
    }

    /// Returns whether the method, pure or not, introduces an entry in the table of virtual
    /// functions. The place of that entry is then in the method's record.
    pub fn is_intro_virtual(self) -> bool
        ensures { result ≡ is_intro_virtual self }
    {
        matches!(self.method_property(), INTRO | PURE_INTRO)
    }
}
