//! The base of the library for programs in other languages: handles and what they hold, how calls
//! end, what they report in structures of their own, and copies into a caller's arrays.
#![tactic(auto)]

pub mod addresses;
mod content;
pub mod copied;
pub mod definitions;
mod fault;
pub mod fields;
pub mod file;
pub mod findings;
pub mod found;
pub mod frames;
mod handle;
mod held;
pub mod identity;
pub mod laws;
pub mod layout_row;
pub mod names;
mod parts;
pub mod records;
pub mod roles;
mod row;
pub mod sections;
pub mod stream_names;
pub mod tables;
pub mod told;
pub mod walked;

pub use content::{Content, Records};
pub use fault::{ALREADY_OPEN, END, FINE, Fault, NO_TEXT, NONE, NOT_OPEN, TOO_SMALL, UNMAPPED};
pub use frames::{Frame, flag};
pub use handle::Handle;
pub use held::Held;
pub use row::Row;
