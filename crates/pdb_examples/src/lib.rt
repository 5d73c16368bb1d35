//! Short uses of the reader of program databases, a file each.
#![tactic(auto)]

mod addresses;
mod fields;
mod frames;
mod names;
mod sources;
mod streams;
mod types;

pub use addresses::{map_of, there_and_back};
pub use fields::{class_fields, finder_of};
pub use frames::frames_at;
pub use names::name_at;
pub use sources::{Counting, stream_and_views};
pub use streams::stream_sizes;
pub use types::types_named;
