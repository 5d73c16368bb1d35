//! The example file S1, and files, tables and sources to test readers with.
#![tactic(auto)]

mod answers;
mod builder;
mod bytes;
mod example;
mod failing;
mod noting;
mod records;
pub mod roles;
mod table;

pub use answers::{Want, are_slices, is_error, is_front, is_gone};
pub use builder::file_of;
pub use bytes::{pages_of, stream_of, with_bytes};
pub use example::{STREAM_1_LINES, s1, s1_with};
pub use failing::{Failing, GONE};
pub use noting::Noting;
pub use records::{FAR_LISTS, MOVES, STRINGS, TWO_LISTS};
pub use table::{item_table, items_of, table_of};
