//! Declarations of the types of a program database: a header in C++ or in C that compiles, in which
//! each class has the size and the members at the places that the file says.
#![tactic(auto)]

mod body;
mod class_text;
mod comment;
mod context;
mod enumeration;
mod fields;
mod group;
mod header;
mod held;
mod identifier;
mod integer;
mod known;
mod member_names;
mod memory;
mod mention;
mod naming;
mod needed;
mod options;
mod piece;
mod roots;
mod scopes;
mod sketch;
mod table_walk;
mod units;

pub use header::declare;
pub use options::{Language, Options};
