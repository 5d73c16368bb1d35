//! What is checked of a file, and how much is told of it.

ghost use Rattle.std.specs.Prelude.{◌<◌};

use crate::mismatch::Extent;
use pdb_msf::Layout;
use std::alloc::Global;

/// The layout of a file whose parts are checked, and how much is told of each part.
#[derive(Drop)]
pub(crate) struct Scope<'l> {
    /// Where lists are allocated.
    pub(crate) alloc: Global,
    /// The header and the directory of the file.
    pub(crate) layout: &'l Layout,
    /// How much is told.
    pub(crate) extent: Extent,
    ghost sized: { 0 < layout.now.head.geometry.page_size },
}
