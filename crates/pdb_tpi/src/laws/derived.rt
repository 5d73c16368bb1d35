//! What `Default`, `==` and `clone` of each type say. The functions do nothing: each contract is a law.

ghost use Rattle.std.specs.Prelude.{◌≡◌, ◌↔◌, IsTrue};
ghost use Rattle.pdb_base.specs.Derived.{Copies, DefaultsTo, TellsApart};
ghost use Rattle.pdb_tpi.specs.Item.{item_bytes, index_of};
ghost use Rattle.pdb_tpi.specs.declared.item.Item.{Item};
ghost use Rattle.pdb_tpi.specs.Header.{empty_header, empty_slice};

use crate::header::{Header, Slice};
use crate::item::Item;
use pdb_base::{IdIndex, TypeIndex};

/// Every field of a header and of a slice is 0 by default. Two are equal if and only if all their
/// fields are.
pub fn headers()
    ensures default { DefaultsTo ⟦<Header as Default>⟧.is_default empty_header }
    ensures equal { TellsApart ⟦<Header as PartialEq>⟧.eq }
    ensures slice_default { DefaultsTo ⟦<Slice as Default>⟧.is_default empty_slice }
    ensures slices_equal { TellsApart ⟦<Slice as PartialEq>⟧.eq }
{}

/// Items are equal if and only if their indexes and the bytes of their records are.
pub fn items()
    ensures types { (a b : Item TypeIndex) →
        IsTrue (⟦<Item<'static, TypeIndex> as PartialEq>⟧.eq a b) ↔
        ((index_of a ≡ index_of b) × (item_bytes a ≡ item_bytes b)) }
    ensures ids { (a b : Item IdIndex) →
        IsTrue (⟦<Item<'static, IdIndex> as PartialEq>⟧.eq a b) ↔
        ((index_of a ≡ index_of b) × (item_bytes a ≡ item_bytes b)) }
{}

type Parts = (
    Header,
    Slice,
    Item<'static, TypeIndex>,
    Item<'static, IdIndex>,
);

/// A clone is the value that was cloned, and cloning never fails. A law of a tuple is one of each
/// of its parts.
pub fn clones()
    ensures { Copies ⟦<Parts as Clone>⟧.is_clone ⟦<Parts as Clone>⟧.is_infallible }
{}
