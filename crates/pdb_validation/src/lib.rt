//! Whether a program database is whole: which parts of a file break the definitions of this
//! library, and how, and what does not hold between the parts.
#![tactic(auto)]

mod checked_index;
mod checks;
mod debug;
mod debug_header;
mod file_header;
mod finding;
mod free_map;
mod hashes;
mod header_fields;
mod id_references;
mod inconsistency;
mod information;
mod mismatch;
mod missing_streams;
mod modules;
mod name_hashes;
mod name_places;
mod names;
mod page_owners;
mod pages;
mod places;
mod problem;
mod read;
mod records;
mod references;
mod relations;
mod roles;
mod scope;
mod sections;
mod sizes;
mod streams;
mod string_table;
mod symbols;
mod table_header;
mod tables;
mod words;

pub use checked_index::CheckedIndex;
pub use checks::validate;
pub use debug_header::check_debug_header;
pub use finding::{Code, Finding, Part};
pub use hashes::check_hashes;
pub use inconsistency::Inconsistency;
pub use mismatch::{Extent, Mismatch};
pub use modules::check_modules;
pub use pages::check_pages;
pub use problem::Problem;
pub use records::check_records;
pub use sections::check_section_order;
pub use string_table::check_buckets;
pub use symbols::{check_globals, check_publics, check_symbols};
