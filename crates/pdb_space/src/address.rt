//! Addresses of a loaded image.

ghost use Rattle.std.specs.Prelude.{◌≡◌, ◌+◌, ◌-◌, ◌≤◌, Some, codes};
ghost use Rattle.pdb_base.specs.ErrorText.{hexadecimal};
ghost use Rattle.pdb_base.specs.Index.{debug_text};
ghost use Rattle.pdb_space.specs.Sum.{Fits, clip_to_32_bits, distance_from, if_fits_32_bits, wrap_to_32_bits};
ghost use Rattle.pdb_space.specs.Sum.{wrapped_distance_from};

use std::fmt;
use std::marker::Model;
use std::ops::{Add, AddAssign, Sub};

/// An address in an image as it is loaded, in bytes from the image's base.
#[derive(Default, PartialEq, Eq, PartialOrd, Ord, Hash, Clone, Copy)]
pub struct Rva(pub u32);

impl Model for Rva {
    ghost use Rattle.std.specs.Prelude.{ℕ};

    ghost Value = { ℕ };

    ghost view = { λ a. a.0 };

    ghost inverse = { λ n. record { 0 = n } };
}

impl Rva {
    /// Returns the address `offset` bytes after this one, or None if it doesn't fit in 32 bits.
    pub fn checked_add(self, offset: u32) -> Option<Self>
        ensures { result ≡ if_fits_32_bits (self + offset) }
    {
        self.0.checked_add(offset).map(|sum| Rva(sum))
    }

    /// Returns the number of bytes from `other` to this address, or None if this address lies
    /// before `other`.
    pub fn checked_sub(self, other: Self) -> Option<u32>
        ensures { result ≡ distance_from other self }
    {
        self.0.checked_sub(other.0)
    }

    /// Returns the address `offset` bytes after this one, or 0xffffffff if it doesn't fit in 32
    /// bits.
    pub fn saturating_add(self, offset: u32) -> Self
        ensures { result ≡ clip_to_32_bits (self + offset) }
    {
        Rva(self.0.saturating_add(offset))
    }

    /// Returns the number of bytes from `other` to this address, or 0 if this address lies before
    /// `other`.
    pub fn saturating_sub(self, other: Self) -> u32
        ensures { result ≡ self - other }
    {
        self.0.saturating_sub(other.0)
    }

    /// Returns the address `offset` bytes after this one, modulo 2^32: 0 follows 0xffffffff.
    pub fn wrapping_add(self, offset: u32) -> Self
        ensures { result ≡ wrap_to_32_bits (self + offset) }
    {
        Rva(self.0.wrapping_add(offset))
    }

    /// Returns the number of bytes from `other` to this address, modulo 2^32: 0 follows 0xffffffff.
    pub fn wrapping_sub(self, other: Self) -> u32
        ensures { result ≡ wrapped_distance_from other self }
    {
        self.0.wrapping_sub(other.0)
    }
}

/// Returns the address a number of bytes after this one. The caller must show that it fits in 32
/// bits.
impl Add<u32> for Rva {
    type Output = Rva;

    ghost can_add = { λ address offset. Fits (address + offset) };

    ghost add_gives = { λ address offset sum. sum ≡ address + offset };

    fn add(self, offset: u32) -> Rva {
        Rva(self.0 + offset)
    }
}

/// Moves the address up by a number of bytes. The caller must show that it still fits in 32 bits.
impl AddAssign<u32> for Rva {
    ghost can_add_assign = { λ address offset. Fits (address + offset) };

    ghost add_assign_gives = { λ address offset sum. sum ≡ address + offset };

    fn add_assign(&mut self, offset: u32) {
        self.0 += offset;
    }
}

/// Returns the number of bytes from another address to this one. The caller must show that this
/// address doesn't lie before the other.
impl Sub<Rva> for Rva {
    type Output = u32;

    ghost can_sub = { λ address other. other ≤ address };

    ghost sub_gives = { λ address other bytes. bytes ≡ address - other };

    fn sub(self, other: Rva) -> u32 {
        self.0 - other.0
    }
}

impl From<u32> for Rva {
    ghost from_gives = { λ number address. address ≡ number };

    fn from(number: u32) -> Rva {
        Rva(number)
    }
}

impl From<Rva> for u32 {
    ghost from_gives = { λ address number. number ≡ address };

    fn from(address: Rva) -> u32 {
        address.0
    }
}

/// Prints `0x` and the address in lower-case hexadecimal digits.
impl fmt::Display for Rva {
    ghost output = { λ address. Some (hexadecimal address) };

    fn fmt<W: fmt::Write>(&self, f: &mut fmt::Formatter<W>) -> fmt::Result {
        let number = self.0;
        write!(f, "0x{number:x}")
    }
}

/// Prints the name of the type and, in parentheses, what `Display` prints.
impl fmt::Debug for Rva {
    ghost debug_output = { λ address. Some (debug_text (codes "Rva") address) };

    fn fmt<W: fmt::Write>(&self, f: &mut fmt::Formatter<W>) -> fmt::Result {
        write!(f, "Rva({self})")
    }
}
