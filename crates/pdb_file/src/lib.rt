//! A program database: which file it is, the purposes of its streams, and the parts that are found by
//! these. Stream 3 gives roles to streams by their numbers, and stream 1 gives them names.
#![tactic(auto)]

mod dbi_header;
mod debug_header;
mod features;
mod fields;
mod file;
mod format;
mod identity;
mod image;
mod information;
mod key;
pub mod laws;
mod name_ends;
pub mod section_headers;
mod stream_names;

pub use dbi_header::DBIHeader;
pub use debug_header::DBIExtraStreams;
pub use features::Features;
pub use file::{ID_STREAM, PDB, TYPE_STREAM};
pub use format::Format;
pub use identity::Identity;
pub use image::{CodeView, NoDatabase};
pub use information::PDBInformation;
pub use key::{LowerKey, UpperKey};
pub use stream_names::{StreamName, StreamNames};
