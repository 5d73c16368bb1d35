//! An address of the running image, the section of the original image that it comes from, and the
//! way back.

ghost use Rattle.std.specs.Prelude.{◌≡◌};
ghost use Rattle.pdb_container.specs.Answer.{Answers};
ghost use Rattle.pdb_examples.specs.Uses.{AreSorted, file_map, there_and_back};

use pdb_container::{AddressMap, PDB, PdbInternalSectionOffset, Result, Rva};
use std::alloc::Global;

/// The address map of a file.
///
/// # Errors
/// Fails as `PDB::open` and `PDB::address_map` do.
pub fn map_of(alloc: Global, bytes: Vec<u8>) -> Result<AddressMap>
    ensures { Answers (λ map. map) result (file_map bytes.items) }
{
    let mut file = PDB::open(alloc, bytes)?;
    file.address_map(alloc)
}

/// The place in a section of the original image from which an address of the running image comes,
/// and the address to which the map moves that place. Nothing if the address comes from no section.
pub fn there_and_back(
    map: &AddressMap,
    address: Rva,
) -> Option<(PdbInternalSectionOffset, Option<Rva>)>
    ensures { AreSorted map.now → result ≡ there_and_back map.now address }
{
    let place = address.to_internal_offset(map)?;
    Some((place, place.to_rva(map)))
}
