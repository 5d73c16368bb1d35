//! Addresses of a program image, places in its sections, the tables that convert one into another,
//! and the names of the string table.
//!
//! Addresses and places come in two kinds: those of the image as it is loaded, and, with a name
//! that begins with `PdbInternal`, those of the original image, before a tool rearranged it. The
//! records of a program database refer to the original image. An `AddressMap` converts each kind
//! into the others.
#![tactic(auto)]

mod address;
mod address_map;
mod conversions;
mod internal_address;
mod internal_section_offset;
pub mod laws;
mod omap_record;
mod omap_records;
mod omap_table;
mod parse_address;
mod range_iter;
mod search;
mod section_characteristics;
mod section_header;
mod section_offset;
mod sections;
mod source;
mod string_ref;
mod string_table;

pub use address::Rva;
pub use address_map::{AddressMap, PdbInternalRvaRangeIter, RvaRangeIter};
pub use internal_address::PdbInternalRva;
pub use internal_section_offset::PdbInternalSectionOffset;
pub use omap_record::OMAPRecord;
pub use omap_records::OMAPRecords;
pub use omap_table::OMAPTable;
pub use range_iter::RangeIter;
pub use section_characteristics::SectionCharacteristics;
pub use section_header::ImageSectionHeader;
pub use section_offset::SectionOffset;
pub use string_ref::StringRef;
pub use string_table::StringTable;
