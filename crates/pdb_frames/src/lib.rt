//! Frame tables: what a stack walker needs to know about the code at an address, in the two formats
//! in which program databases store it.
#![tactic(auto)]

mod addr_range;
mod frame_data;
mod frame_record;
mod frame_table;
mod frame_type;
pub mod laws;
mod new_frame_data;
mod old_frame_data;
mod search;

pub use addr_range::AddrRange;
pub use frame_data::FrameData;
pub use frame_table::{FrameDataIter, FrameTable};
pub use frame_type::FrameType;
pub use new_frame_data::NewFrameData;
pub use old_frame_data::OldFrameData;
