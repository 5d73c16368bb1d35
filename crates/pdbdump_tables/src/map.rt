//! Lists what a file's address map makes of addresses.

#![tactic(auto, using(pdbdump_rows::proofs::lemmas::Sink::adding_lines))]

ghost use Rattle.pdbdump_rows.specs.{Rows.WritesLines, Sink.AddsLines};
ghost use Rattle.pdbdump_tables.specs.Given.{map_in};
ghost use Rattle.pdbdump_tables.specs.Reading.{Reads, WritesRead};

use crate::map_lines::{
    write_of_internal_place, write_of_internal_rva, write_of_place, write_of_rva,
};
use crate::map_source::{MapStreams, map_in};
use pdb_base::Result;
use pdb_file::PDB;
use pdb_msf::Source;
use pdb_output::Output;
use pdb_space::{AddressMap, PdbInternalRva, PdbInternalSectionOffset, Rva, SectionOffset};
use pdbdump_rows::{Form, Rows, Sheet};
use std::alloc::Global;
use std::io::Write;

/// An address that is translated.
#[derive(Clone, Copy)]
pub enum Address {
    /// An address in bytes from the base of the image.
    Rva(u32),
    /// A place in a section, of the number that is counted from 1.
    Place {
        /// The number of the section.
        section: u16,
        /// The offset in it.
        offset: u32,
    },
}

/// An address that is translated, and the word by which it is given.
#[derive(Clone, Copy)]
pub struct AskedAddress<'w> {
    /// The address.
    pub address: Address,
    /// The word.
    pub word: &'w str,
}

/// Writes what a map makes of an address, first as one of the image as it is loaded, and then as one
/// of the original image. The lines have the word of the address if there is one.
fn write_made<W: Write>(
    rows: &mut Rows<'_, W>,
    map: &AddressMap,
    address: Address,
    word: Option<&str>,
)
    ensures { AddsLines rows.old rows.new }
{
    match address {
        Address::Rva(address) => {
            write_of_rva(rows, map, Rva(address), word);
            write_of_internal_rva(rows, map, PdbInternalRva(address), word);
        }
        Address::Place { section, offset } => {
            let internal = PdbInternalSectionOffset::new(section, offset);
            write_of_place(rows, map, SectionOffset::new(section, offset), word);
            write_of_internal_place(rows, map, internal, word);
        }
    }
}

/// Writes what a map makes of addresses. If there are several, each line has the word of its
/// address.
fn write_map<W: Write>(
    alloc: Global,
    map: &AddressMap,
    addresses: &[AskedAddress<'_>],
    form: Form,
    out: &mut Output<W>,
) -> Result<()>
    ensures { WritesLines form out.old out.new result }
{
    let are_several = addresses.len() > 1;
    let mut sheet = Sheet::new(alloc, form);
    let mut rows = Rows::new(&mut sheet, out);
    for asked in addresses {
        let word = are_several.then_some(asked.word);
        write_made(&mut rows, map, asked.address, word);
    }
    rows.finish()
}

/// Lists what an address map makes of addresses, with a line for each conversion, even if it has no
/// result: first as addresses of the image as it is loaded, and then as ones of the original image.
/// The map is the file's own, unless streams are given that make another.
///
/// # Errors
/// If no stream is given, fails as `address_map` does. Otherwise, for each given stream in the
/// order of the fields of `MapStreams`, fails as `Msf::get` does, and then with `UnexpectedEof` if
/// a section header is cut short, or with `InvalidStreamLength` if an OMAP record is. Fails with
/// `IoError` if the writer fails, and with `OutOfMemory` if an allocation fails.
pub fn list_map<S: Source + Drop, W: Write>(
    alloc: Global,
    mut file: PDB<S>,
    addresses: &[AskedAddress<'_>],
    streams: MapStreams,
    form: Form,
    out: &mut Output<W>,
) -> Result<()>
    ensures { WritesRead (Reads (S.state file.source) (λ bytes. map_in bytes file.head streams))
        (λ map. WritesLines form) out.old out.new result }
{
    let map = map_in(alloc, &mut file, streams)?;
    write_map(alloc, &map, addresses, form, out)
}
