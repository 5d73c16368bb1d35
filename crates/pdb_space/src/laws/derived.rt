//! What `Default`, `==` and `clone` of each type say that no law of addresses and records tells. The
//! functions do nothing: each contract is a law.

ghost use Rattle.std.specs.Prelude.{replicate};
ghost use Rattle.pdb_base.specs.Derived.{Copies, DefaultsTo, TellsApart};

use crate::address::Rva;
use crate::internal_address::PdbInternalRva;
use crate::internal_section_offset::PdbInternalSectionOffset;
use crate::omap_record::OMAPRecord;
use crate::section_characteristics::SectionCharacteristics;
use crate::section_header::ImageSectionHeader;
use crate::section_offset::SectionOffset;
use crate::string_ref::StringRef;

/// An address is 0 by default.
pub fn addresses()
    ensures default { DefaultsTo ⟦<Rva as Default>⟧.is_default 0 }
    ensures internal_default { DefaultsTo ⟦<PdbInternalRva as Default>⟧.is_default 0 }
{}

/// A place is offset 0 of section 0 by default, which is in no section.
pub fn section_offsets()
    ensures default { DefaultsTo ⟦<SectionOffset as Default>⟧.is_default (record { section = 0; offset = 0 }) }
    ensures internal_default { DefaultsTo
        ⟦<PdbInternalSectionOffset as Default>⟧.is_default
        (record { section = 0; offset = 0 }) }
{}

/// No flag is set by default. Flags are equal exactly if their words are.
pub fn section_characteristics()
    ensures default { DefaultsTo ⟦<SectionCharacteristics as Default>⟧.is_default (record { 0 = 0 }) }
    ensures equal { TellsApart ⟦<SectionCharacteristics as PartialEq>⟧.eq }
{}

/// Every field of a section's header is 0 by default. Headers are equal exactly if all fields are.
pub fn section_headers()
    ensures default { DefaultsTo ⟦<ImageSectionHeader as Default>⟧.is_default (record {
      name = replicate 8 0;
      virtual_size = 0;
      virtual_address = 0;
      size_of_raw_data = 0;
      pointer_to_raw_data = 0;
      pointer_to_relocations = 0;
      pointer_to_line_numbers = 0;
      number_of_relocations = 0;
      number_of_line_numbers = 0;
      characteristics = record { 0 = 0 };
    }) }
    ensures equal { TellsApart ⟦<ImageSectionHeader as PartialEq>⟧.eq }
{}

type Addresses = (Rva, PdbInternalRva, SectionOffset, PdbInternalSectionOffset);

type Records = (
    ImageSectionHeader,
    SectionCharacteristics,
    OMAPRecord,
    StringRef,
);

/// A clone is the value that was cloned, and cloning never fails. A law of a tuple is one of each
/// of its parts.
pub fn clones()
    ensures addresses { Copies ⟦<Addresses as Clone>⟧.is_clone ⟦<Addresses as Clone>⟧.is_infallible }
    ensures records { Copies ⟦<Records as Clone>⟧.is_clone ⟦<Records as Clone>⟧.is_infallible }
{}
