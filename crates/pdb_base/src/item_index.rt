//! Indexes of items in the table of types and in the table of ids.

ghost use Rattle.std.specs.Prelude.{◌≡◌, ◌↔◌, ◌==◌, ℕ, Some, IsTrue, IsBitSet};
ghost use Rattle.std.specs.Ordering.{nat_cmp};
ghost use Rattle.std.proofs.Common.{rules};

use crate::index::{IdIndex, TypeIndex};
use std::fmt;

/// An index of an item. It holds a `u32` and nothing else, converts into that number and back, and
/// is compared as that number.
pub trait ItemIndex: Copy
    + Default
    + fmt::Debug
    + fmt::Display
    + PartialEq
    + PartialOrd
    + From<u32>
    + Into<u32> {
    // The number that the index is.
    ghost number: { Self → ℕ };

    /// Returns whether the item is in another module, which is so if bit 31 of the number is set.
    fn is_cross_module(self) -> bool
        ensures { IsTrue result ↔ IsBitSet (number self) 31 }
    {
        let number: u32 = self.into();
        number & 0x8000_0000 != 0
    }

    // The index that is made of a number is that number.
    ghost is_made_of: { (n : ℕ) (index : Self) → Self.from_gives n index → number index ≡ n };

    // An index converts into its number.
    ghost turns_into: { (index : Self) (n : ℕ) → Self.converts index n → n ≡ number index };

    // Indexes of one number are one index.
    ghost is_its_number: { (left right : Self) → number left ≡ number right → left ≡ right };

    // Indexes are equal just where their numbers are.
    ghost is_equal_by_number: { (left right : Self) → Self.eq left right ≡ (number left == number right) };

    // Indexes are ordered by their numbers.
    ghost is_ordered_by_number: { (left right : Self) →
        Self.partial_cmp left right ≡ Some (nat_cmp (number left) (number right)) };
}

impl ItemIndex for TypeIndex {
    ghost number = { λ index. index.0 };

    ghost is_made_of = { Prim.search rules };

    ghost turns_into = { Prim.search rules };

    ghost is_its_number = { Prim.search rules };

    ghost is_equal_by_number = { Prim.search rules };

    ghost is_ordered_by_number = { Prim.search rules };
}

impl ItemIndex for IdIndex {
    ghost number = { λ index. index.0 };

    ghost is_made_of = { Prim.search rules };

    ghost turns_into = { Prim.search rules };

    ghost is_its_number = { Prim.search rules };

    ghost is_equal_by_number = { Prim.search rules };

    ghost is_ordered_by_number = { Prim.search rules };
}
