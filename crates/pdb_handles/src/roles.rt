//! The roles of streams.

ghost use Rattle.pdb_base.specs.Answer.{Answers};
ghost use Rattle.pdb_handles.specs.File.{roles_said};

use crate::file::open_file;
use pdb_base::Result;
use std::alloc::Global;

/// The numbers of the streams in eleven roles, each 0xffff if the file has no such stream.
#[repr(C)]
#[derive(Clone, Copy)]
pub struct Roles {
    /// Frames in the older format.
    pub fpo: u16,
    /// Exception handlers.
    pub exception: u16,
    /// Fixups.
    pub fixup: u16,
    /// The OMAP table that leads from the image as it is loaded to the original one.
    pub omap_to_src: u16,
    /// The OMAP table that leads from the original image to the one that is loaded.
    pub omap_from_src: u16,
    /// The headers of the sections of the image as it is loaded.
    pub section_headers: u16,
    /// The map of the tokens of the common language runtime.
    pub token_rid_map: u16,
    /// The image's section `.xdata`.
    pub xdata: u16,
    /// The image's section `.pdata`.
    pub pdata: u16,
    /// Frames in the newer format.
    pub framedata: u16,
    /// The headers of the sections of the original image, if a tool has rearranged it.
    pub original_section_headers: u16,
}

/// Reads from a file the numbers of the streams in their roles.
///
/// # Errors
/// Fails as `open_file` and `extra_streams` do.
pub fn roles_in(alloc: Global, file: &[u8]) -> Result<Roles>
    ensures { Answers (λ roles. roles) result (roles_said file.now) }
{
    let mut file = open_file(alloc, file)?;
    let streams = file.extra_streams(alloc)?;
    Ok(Roles {
        fpo: streams.fpo.0,
        exception: streams.exception.0,
        fixup: streams.fixup.0,
        omap_to_src: streams.omap_to_src.0,
        omap_from_src: streams.omap_from_src.0,
        section_headers: streams.section_headers.0,
        token_rid_map: streams.token_rid_map.0,
        xdata: streams.xdata.0,
        pdata: streams.pdata.0,
        framedata: streams.framedata.0,
        original_section_headers: streams.original_section_headers.0,
    })
}
