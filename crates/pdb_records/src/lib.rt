//! Parsers for the records of types and of ids. The values that they return are those of
//! `pdb_values`.
#![tactic(auto)]

mod id_leaf;
pub mod laws;
mod leaf;
mod parse;

pub use parse::fields::parse_field_list;
pub use parse::id_data::parse_id_data;
pub use parse::record::parse_behind_leaf;
pub use parse::skip::{skip_arguments, skip_field_list};
pub use parse::type_data::parse_type_data;
