//! The sections of an image.

ghost use Rattle.std.specs.Prelude.{◌≡◌};
ghost use Rattle.pdb_base.specs.Answer.{Answers};
ghost use Rattle.pdb_handles.specs.File.{section_info, sections_told};

use crate::file::stream_in;
use pdb_base::Result;
use pdb_file::section_headers::section_headers;
use pdb_msf::Layout;
use pdb_space::ImageSectionHeader;
use std::alloc::Global;

/// The header of a section: where it lies in memory and in the file, and what it is for.
#[repr(C)]
#[derive(Clone, Copy)]
pub struct Section {
    /// The name, with NULs after it if it is shorter than eight bytes.
    pub name: [u8; 8],
    /// The number of bytes that the section takes in memory.
    pub virtual_size: u32,
    /// The address of the section's first byte, in bytes from the image's base.
    pub virtual_address: u32,
    /// The number of bytes of the file that hold the section.
    pub size_of_raw_data: u32,
    /// The offset of those bytes in the file.
    pub pointer_to_raw_data: u32,
    /// The offset in the file of the section's relocations.
    pub pointer_to_relocations: u32,
    /// The offset in the file of the section's line numbers.
    pub pointer_to_line_numbers: u32,
    /// The number of relocations.
    pub number_of_relocations: u16,
    /// The number of line numbers.
    pub number_of_line_numbers: u16,
    /// What the section is for, as the PE format numbers the bits.
    pub characteristics: u32,
}

/// Converts the header of a section for the caller.
fn section_of(header: &ImageSectionHeader) -> Section
    ensures { result ≡ section_info header.now }
{
    Section {
        name: header.name,
        virtual_size: header.virtual_size,
        virtual_address: header.virtual_address,
        size_of_raw_data: header.size_of_raw_data,
        pointer_to_raw_data: header.pointer_to_raw_data,
        pointer_to_relocations: header.pointer_to_relocations,
        pointer_to_line_numbers: header.pointer_to_line_numbers,
        number_of_relocations: header.number_of_relocations,
        number_of_line_numbers: header.number_of_line_numbers,
        characteristics: header.characteristics.0,
    }
}

/// Reads the headers of the sections that a stream of a file holds.
///
/// # Errors
/// Fails as `stream_in` and `section_headers` do, and with `OutOfMemory` if an allocation fails.
pub fn sections_in(alloc: Global, layout: &Layout, file: &[u8], number: u32) -> Result<Vec<Section>>
    ensures { Answers (λ sections. sections.items) result (sections_told layout.now file.now number) }
{
    let read = section_headers(alloc, &stream_in(alloc, layout, file, number)?)?;
    let headers = read.as_slice();
    let mut sections = Vec::with_capacity(alloc, headers.len())?;
    for header in headers {
        sections.push(section_of(header))?;
    }
    Ok(sections)
}
