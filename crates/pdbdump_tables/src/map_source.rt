//! The address map of a file, or one that is made of given streams.

ghost use Rattle.std.specs.Prelude.{◌≡◌};
ghost use Rattle.pdb_msf.specs.File.{ReadsFile};
ghost use Rattle.pdbdump_tables.specs.Given.{given_map, gives_none, map_in};

use pdb_base::Result;
use pdb_file::PDB;
use pdb_msf::Source;
use pdb_space::AddressMap;
use std::alloc::Global;

/// The numbers of the streams from which an address map is made. Each may be absent.
#[derive(Clone, Copy)]
pub struct MapStreams {
    /// The stream of the section headers of the original image.
    pub sections: Option<u32>,

    /// The stream of the section headers of the image as it is loaded, if they are others.
    pub transformed: Option<u32>,

    /// The stream of the OMAP table that leads from the image as it is loaded to the original one.
    pub to_original: Option<u32>,

    /// The stream of the OMAP table that leads from the original image to the one that is loaded.
    pub to_transformed: Option<u32>,
}

impl MapStreams {
    /// Returns whether no stream is given.
    pub fn is_empty(self) -> bool
        ensures { result ≡ gives_none self }
    {
        self.sections.is_none()
            && self.transformed.is_none()
            && self.to_original.is_none()
            && self.to_transformed.is_none()
    }
}

/// Reads the address map from the given streams. Without original section headers, the original
/// image has no sections.
#[tactic(auto, unfolding(crate::specs::Given::given_map))]
fn map_of_streams<S: Source>(
    alloc: Global,
    file: &mut PDB<S>,
    streams: MapStreams,
) -> Result<AddressMap>
    ensures { ReadsFile S.state file.old file.new (λ map. map) result (λ file head. given_map file head streams) }
{
    let sections = file.numbered_sections(alloc, streams.sections)?;
    let sections = sections.unwrap_or(Vec::new(alloc));
    let transformed = file.numbered_sections(alloc, streams.transformed)?;
    let to_original = file.numbered_omap(alloc, streams.to_original)?;
    let to_transformed = file.numbered_omap(alloc, streams.to_transformed)?;
    Ok(AddressMap::new(sections, transformed, to_original, to_transformed))
}

/// Reads the address map from the given streams, or the file's own map if no stream is given.
#[tactic(auto, unfolding(crate::specs::Given::map_in))]
pub(crate) fn map_in<S: Source>(
    alloc: Global,
    file: &mut PDB<S>,
    streams: MapStreams,
) -> Result<AddressMap>
    ensures { ReadsFile S.state file.old file.new (λ map. map) result (λ file head. map_in file head streams) }
{
    if streams.is_empty() {
        file.address_map(alloc)
    } else {
        map_of_streams(alloc, file, streams)
    }
}
