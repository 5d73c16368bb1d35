//! The tables of types and of ids. Their items are read one after another or looked up by index,
//! and the fields of a type are read through all lists that hold them.
#![tactic(auto)]

mod fields;
mod finder;
mod header;
mod id_record;
mod item;
mod item_information;
mod item_iter;
pub mod laws;
mod length;
mod open_table;
mod open_walk;
mod type_record;

pub use finder::ItemFinder;
pub use header::{Header, Slice};
pub use item::Item;
pub use item_information::ItemInformation;
pub use item_iter::ItemIter;
pub use open_table::{OpenTable, RecordPlace};
pub use open_walk::OpenWalk;
use pdb_base::{IdIndex, TypeIndex};
pub use pdb_values::constants;

/// The table of types.
pub type TypeInformation = ItemInformation<TypeIndex>;

/// A finder of types by their indexes.
pub type TypeFinder<'t> = ItemFinder<'t, TypeIndex>;

/// An iterator over the types of a table.
pub type TypeIter<'t> = ItemIter<'t, TypeIndex>;

/// A type as its table holds it: an index and the bytes of its record.
pub type Type<'t> = Item<'t, TypeIndex>;

/// The table of ids.
pub type IdInformation = ItemInformation<IdIndex>;

/// A finder of ids by their indexes.
pub type IdFinder<'t> = ItemFinder<'t, IdIndex>;

/// An iterator over the ids of a table.
pub type IdIter<'t> = ItemIter<'t, IdIndex>;

/// An id as its table holds it: an index and the bytes of its record.
pub type Id<'t> = Item<'t, IdIndex>;
