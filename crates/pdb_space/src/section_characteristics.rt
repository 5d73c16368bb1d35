//! The flags of a section (`Characteristics` of a section header in the PE format).

ghost use Rattle.std.specs.Prelude.{◌≡◌};
ghost use Rattle.pdb_base.specs.Reading.{number_at, read_as};
ghost use Rattle.pdb_space.specs.SectionHeader.{alignment_of};
ghost use Rattle.pdb_space.specs.SectionFlags.{executable, initialized_data, uninitialized_data, other, info, remove};
ghost use Rattle.pdb_space.specs.SectionFlags.{comdat, defer_speculative_exceptions, global_pointer_relative};
ghost use Rattle.pdb_space.specs.SectionFlags.{purgeable, locked, preload, lnk_nreloc_ovfl, discardable, not_cached};
ghost use Rattle.pdb_space.specs.SectionFlags.{not_paged, shared, execute, read, write};

use pdb_base::{Le, Parse, Result, bit_field, is_bit_set};

/// The flags of a section, as the PE format numbers their bits.
#[derive(Debug, Default, PartialEq, Eq, Clone, Copy)]
pub struct SectionCharacteristics(pub u32);

impl SectionCharacteristics {
    /// Returns the flags in a word.
    pub fn new(word: u32) -> Self
        ensures { result.0 ≡ word }
    {
        SectionCharacteristics(word)
    }

    /// Returns the word that holds the flags.
    pub fn bits(self) -> u32
        ensures { result ≡ self.0 }
    {
        self.0
    }

    /// Returns whether the section holds code (`IMAGE_SCN_CNT_CODE`, 0x00000020).
    pub fn executable(self) -> bool
        ensures { result ≡ executable self.0 }
    {
        self.0 & 0x0000_0020 != 0
    }

    /// Returns whether the section holds data that has values from the start
    /// (`IMAGE_SCN_CNT_INITIALIZED_DATA`, 0x00000040).
    pub fn initialized_data(self) -> bool
        ensures { result ≡ initialized_data self.0 }
    {
        self.0 & 0x0000_0040 != 0
    }

    /// Returns whether the section holds data that has no values at the start
    /// (`IMAGE_SCN_CNT_UNINITIALIZED_DATA`, 0x00000080).
    pub fn uninitialized_data(self) -> bool
        ensures { result ≡ uninitialized_data self.0 }
    {
        self.0 & 0x0000_0080 != 0
    }

    /// Returns whether the bit reserved for other contents is set (`IMAGE_SCN_LNK_OTHER`,
    /// 0x00000100).
    pub fn other(self) -> bool
        ensures { result ≡ other self.0 }
    {
        self.0 & 0x0000_0100 != 0
    }

    /// Returns whether the section holds comments or other information for the linker
    /// (`IMAGE_SCN_LNK_INFO`, 0x00000200).
    pub fn info(self) -> bool
        ensures { result ≡ info self.0 }
    {
        self.0 & 0x0000_0200 != 0
    }

    /// Returns whether the section is left out of the image (`IMAGE_SCN_LNK_REMOVE`, 0x00000800).
    pub fn remove(self) -> bool
        ensures { result ≡ remove self.0 }
    {
        self.0 & 0x0000_0800 != 0
    }

    /// Returns whether the section holds COMDAT data (`IMAGE_SCN_LNK_COMDAT`, 0x00001000).
    pub fn comdat(self) -> bool
        ensures { result ≡ comdat self.0 }
    {
        self.0 & 0x0000_1000 != 0
    }

    /// Returns whether the bits that defer speculative exceptions are reset for the section
    /// (`IMAGE_SCN_NO_DEFER_SPEC_EXC`, 0x00004000).
    pub fn defer_speculative_exceptions(self) -> bool
        ensures { result ≡ defer_speculative_exceptions self.0 }
    {
        self.0 & 0x0000_4000 != 0
    }

    /// Returns whether the section holds data that is reached by the global pointer
    /// (`IMAGE_SCN_GPREL`, 0x00008000).
    pub fn global_pointer_relative(self) -> bool
        ensures { result ≡ global_pointer_relative self.0 }
    {
        self.0 & 0x0000_8000 != 0
    }

    /// Returns whether the bit for memory that may be given back is set (`IMAGE_SCN_MEM_PURGEABLE`,
    /// 0x00020000).
    pub fn purgeable(self) -> bool
        ensures { result ≡ purgeable self.0 }
    {
        self.0 & 0x0002_0000 != 0
    }

    /// Returns whether the bit for memory that is kept in place is set (`IMAGE_SCN_MEM_LOCKED`,
    /// 0x00040000).
    pub fn locked(self) -> bool
        ensures { result ≡ locked self.0 }
    {
        self.0 & 0x0004_0000 != 0
    }

    /// Returns whether the bit for memory that is loaded ahead is set (`IMAGE_SCN_MEM_PRELOAD`,
    /// 0x00080000).
    pub fn preload(self) -> bool
        ensures { result ≡ preload self.0 }
    {
        self.0 & 0x0008_0000 != 0
    }

    /// Returns whether the section has more relocations than their number in the header can express
    /// (`IMAGE_SCN_LNK_NRELOC_OVFL`, 0x01000000).
    pub fn lnk_nreloc_ovfl(self) -> bool
        ensures { result ≡ lnk_nreloc_ovfl self.0 }
    {
        self.0 & 0x0100_0000 != 0
    }

    /// Returns whether the section may be discarded when it isn't needed any more
    /// (`IMAGE_SCN_MEM_DISCARDABLE`, 0x02000000).
    pub fn discardable(self) -> bool
        ensures { result ≡ discardable self.0 }
    {
        self.0 & 0x0200_0000 != 0
    }

    /// Returns whether the section may not be cached (`IMAGE_SCN_MEM_NOT_CACHED`, 0x04000000).
    pub fn not_cached(self) -> bool
        ensures { result ≡ not_cached self.0 }
    {
        self.0 & 0x0400_0000 != 0
    }

    /// Returns whether the section may not be paged out (`IMAGE_SCN_MEM_NOT_PAGED`, 0x08000000).
    pub fn not_paged(self) -> bool
        ensures { result ≡ not_paged self.0 }
    {
        self.0 & 0x0800_0000 != 0
    }

    /// Returns whether the section is shared in memory (`IMAGE_SCN_MEM_SHARED`, 0x10000000).
    pub fn shared(self) -> bool
        ensures { result ≡ shared self.0 }
    {
        self.0 & 0x1000_0000 != 0
    }

    /// Returns whether the section may be executed (`IMAGE_SCN_MEM_EXECUTE`, 0x20000000).
    pub fn execute(self) -> bool
        ensures { result ≡ execute self.0 }
    {
        self.0 & 0x2000_0000 != 0
    }

    /// Returns whether the section may be read (`IMAGE_SCN_MEM_READ`, 0x40000000).
    pub fn read(self) -> bool
        ensures { result ≡ read self.0 }
    {
        self.0 & 0x4000_0000 != 0
    }

    /// Returns whether the section may be written (`IMAGE_SCN_MEM_WRITE`, 0x80000000).
    pub fn write(self) -> bool
        ensures { result ≡ write self.0 }
    {
        self.0 & 0x8000_0000 != 0
    }

    /// Returns the alignment of the section's start in bytes, a power of two from 1 to 8192, or
    /// None if the flags give none.
    ///
    /// Bits 20 to 23 hold the exponent plus one (`IMAGE_SCN_ALIGN_1BYTES` to
    /// `IMAGE_SCN_ALIGN_8192BYTES`). Bit 3 (`IMAGE_SCN_TYPE_NO_PAD`) without these is the older
    /// form of 1; together with them it gives none.
    #[tactic(auto, unfolding(crate::specs::SectionHeader::alignment_of))]
    pub fn alignment(self) -> Option<u16>
        ensures { result ≡ alignment_of self.0 }
    {
        match (is_bit_set(self.0, 3), bit_field(self.0, 20, 4)) {
            (true, 0) => Some(1),
            (false, exponent @ 1..=14) => Some(1 << (exponent - 1)),
            _ => None,
        }
    }
}

/// Reads a `u32`.
impl Parse<Le> for SectionCharacteristics {
    ghost reads = { λ _ bytes. read_as (λ n. record { 0 = n }) (number_at 4 bytes) };

    fn parse_from(bytes: &[u8], context: Le) -> Result<(SectionCharacteristics, usize)> {
        let (word, len) = u32::parse_from(bytes, context)?;
        Ok((SectionCharacteristics(word), len))
    }
}
