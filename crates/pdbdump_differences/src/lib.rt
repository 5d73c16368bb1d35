//! What differs between the types of two tables: definitions that went, came or changed, and the
//! members and enumerators that make the difference.
#![tactic(auto)]

mod compared_table;
mod difference_json;
mod difference_text;
mod differences;
mod fault;
mod options;
mod pairing;
mod part;
mod part_change;
mod side;
mod tables;
mod version;

pub use compared_table::ComparedTable;
pub use differences::{Outcome, show_differences};
pub use options::DiffOptions;
pub use side::Side;
