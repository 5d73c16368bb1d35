//! The contents of handles.

use pdb_frames::FrameTable;
use pdb_msf::Layout;
use pdb_space::{AddressMap, OMAPTable, StringTable};
use pdb_types::OpenTypes;

/// A table of types or of ids.
#[derive(Drop)]
pub struct Records {
    /// The table, and a walk along it.
    pub types: OpenTypes,
    /// Whether its items are ids.
    pub are_ids: bool,
}

/// What a handle holds.
#[derive(Drop)]
pub enum Content {
    /// The names of a string table.
    Names(StringTable),
    /// The records of an OMAP table.
    Omap(OMAPTable),
    /// The sections of an image before and after a tool rearranged it, and the tables that lead
    /// from one to the other.
    Addresses(AddressMap),
    /// The frames of a program.
    Frames(FrameTable),
    /// The header and the directory of a file.
    File(Layout),
    /// The items of a table of types or of ids.
    Table(Records),
}
