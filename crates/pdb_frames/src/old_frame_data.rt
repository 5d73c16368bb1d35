//! Records of the older format.

ghost use Rattle.std.specs.Prelude.{◌≡◌, ◌≤◌};
ghost use Rattle.std.proofs.Common.{lit<};
ghost use Rattle.pdb_base.specs.Bits.{bits};
ghost use Rattle.pdb_base.specs.Bits.{is_bit_set};
ghost use Rattle.pdb_base.specs.Reading.{front_at, read_as};
ghost use Rattle.pdb_frames.specs.FrameNumbers.{frame_type_of};
ghost use Rattle.pdb_frames.specs.Stored.{old_frame, old_span};
ghost use Rattle.pdb_frames.specs.declared.old_frame_data.TheConstants.{OLD_SIZE};

use crate::addr_range::AddrRange;
use crate::frame_record::FrameRecord;
use crate::frame_type::FrameType;
use byteorder::{ByteOrder, LittleEndian};
use pdb_base::{Le, Parse, ParseBuffer, Result, bit_field, is_bit_set};

/// The size of a record of the older format in bytes.
pub(crate) const OLD_SIZE: usize = 16;

/// A record of the older format: 16 bytes, `FPO_DATA` in the PE specification.
#[derive(Clone, Copy, Debug, PartialEq, Eq)]
pub struct OldFrameData {
    /// The address of the first byte of the code.
    pub code_start: u32,

    /// The size of the code in bytes.
    pub code_size: u32,

    /// The size of the local variables, in units of 4 bytes.
    pub locals_size: u32,

    /// The size of the parameters, in units of 4 bytes.
    pub params_size: u16,

    /// The word of flags, which the methods below read.
    pub flags: u16,
}

impl OldFrameData {
    /// Returns the size of the prolog in bytes (bits 0 to 7 of the flags).
    pub fn prolog_size(&self) -> u16
        ensures { result ≡ bits self.now.flags 0 8 }
    {
        bit_field(self.flags as u32, 0, 8) as u16
    }

    /// Returns the size of the saved registers in units of 4 bytes, which is at most 7 (bits 8 to
    /// 10 of the flags).
    pub fn saved_regs_size(&self) -> u16
        ensures size { result ≡ bits self.now.flags 8 3 }
        ensures few { result ≤ 7 }
    {
        bit_field(self.flags as u32, 8, 3) as u16
    }

    /// Returns whether the code handles structured exceptions (bit 11 of the flags).
    pub fn has_seh(&self) -> bool
        ensures { result ≡ is_bit_set self.now.flags 11 }
    {
        is_bit_set(self.flags as u32, 11)
    }

    /// Returns whether the base pointer holds something other than the frame (bit 12 of the flags).
    pub fn uses_base_pointer(&self) -> bool
        ensures { result ≡ is_bit_set self.now.flags 12 }
    {
        is_bit_set(self.flags as u32, 12)
    }

    /// Returns the kind of frame (bits 14 and 15 of the flags).
    pub fn frame_type(&self) -> FrameType
        ensures { result ≡ frame_type_of (bits self.now.flags 14 2) }
    {
        match bit_field(self.flags as u32, 14, 2) {
            0 => FrameType::FPO,
            1 => FrameType::Trap,
            2 => FrameType::TSS,
            _ => FrameType::Standard,
        }
    }
}

impl AddrRange for OldFrameData {
    ghost span = { old_span };

    fn start(&self) -> u32 {
        self.code_start
    }

    fn size(&self) -> u32 {
        self.code_size
    }
}

impl FrameRecord for OldFrameData {
    ghost SIZE = { OLD_SIZE };

    const SIZE: usize = OLD_SIZE;

    ghost some = { lit< tt };

    ghost value = { old_frame };

    #[tactic(auto, unfolding(crate::specs::Stored::old_frame))]
    fn read(bytes: &[u8]) -> OldFrameData {
        OldFrameData {
            code_start: LittleEndian::read_u32(bytes),
            code_size: LittleEndian::read_u32(&bytes[4..]),
            locals_size: LittleEndian::read_u32(&bytes[8..]),
            params_size: LittleEndian::read_u16(&bytes[12..]),
            flags: LittleEndian::read_u16(&bytes[14..]),
        }
    }
}

/// Reads the fields in order, each number little-endian.
impl Parse<Le> for OldFrameData {
    ghost reads = { λ _ bytes. read_as old_frame (front_at OLD_SIZE bytes) };

    #[tactic(auto, using(pdb_base::proofs::lemmas::Records::front_length))]
    fn parse_from(bytes: &[u8], _: Le) -> Result<(OldFrameData, usize)> {
        let mut buffer = ParseBuffer::from(bytes);
        let front = buffer.take(OldFrameData::SIZE)?;
        Ok((OldFrameData::read(front), buffer.pos()))
    }
}
