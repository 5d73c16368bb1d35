//! Records of the newer format.

ghost use Rattle.std.specs.Prelude.{◌≡◌};
ghost use Rattle.std.proofs.Common.{lit<};
ghost use Rattle.pdb_base.specs.Bits.{is_bit_set};
ghost use Rattle.pdb_base.specs.Reading.{front_at, read_as};
ghost use Rattle.pdb_frames.specs.Stored.{new_frame, new_span};
ghost use Rattle.pdb_frames.specs.declared.new_frame_data.TheConstants.{NEW_SIZE};

use crate::addr_range::AddrRange;
use crate::frame_record::FrameRecord;
use byteorder::{ByteOrder, LittleEndian};
use pdb_base::{Le, Parse, ParseBuffer, Result, is_bit_set};

/// The size of a record of the newer format in bytes.
pub(crate) const NEW_SIZE: usize = 32;

/// A record of the newer format: 32 bytes, `FRAMEDATA` in Microsoft's cvinfo.h.
#[derive(Clone, Copy, Debug, PartialEq, Eq)]
pub struct NewFrameData {
    /// The address of the first byte of the code.
    pub code_start: u32,

    /// The size of the code in bytes.
    pub code_size: u32,

    /// The size of the local variables in bytes.
    pub locals_size: u32,

    /// The size of the parameters in bytes.
    pub params_size: u32,

    /// The largest number of bytes that the code pushes on the stack.
    pub max_stack_size: u32,

    /// The offset in the string table of the program that computes the caller's registers.
    pub frame_func: u32,

    /// The size of the prolog in bytes.
    pub prolog_size: u16,

    /// The size of the saved registers in bytes.
    pub saved_regs_size: u16,

    /// The word of flags, which the methods below read.
    pub flags: u32,
}

impl NewFrameData {
    /// Returns whether the code handles structured exceptions (bit 0 of the flags).
    pub fn has_seh(&self) -> bool
        ensures { result ≡ is_bit_set self.now.flags 0 }
    {
        is_bit_set(self.flags, 0)
    }

    /// Returns whether the code handles C++ exceptions (bit 1 of the flags).
    pub fn has_eh(&self) -> bool
        ensures { result ≡ is_bit_set self.now.flags 1 }
    {
        is_bit_set(self.flags, 1)
    }

    /// Returns whether a function starts with this code (bit 2 of the flags).
    pub fn is_function_start(&self) -> bool
        ensures { result ≡ is_bit_set self.now.flags 2 }
    {
        is_bit_set(self.flags, 2)
    }
}

impl AddrRange for NewFrameData {
    ghost span = { new_span };

    fn start(&self) -> u32 {
        self.code_start
    }

    fn size(&self) -> u32 {
        self.code_size
    }
}

impl FrameRecord for NewFrameData {
    ghost SIZE = { NEW_SIZE };

    const SIZE: usize = NEW_SIZE;

    ghost some = { lit< tt };

    ghost value = { new_frame };

    #[tactic(auto, unfolding(crate::specs::Stored::new_frame))]
    fn read(bytes: &[u8]) -> NewFrameData {
        NewFrameData {
            code_start: LittleEndian::read_u32(bytes),
            code_size: LittleEndian::read_u32(&bytes[4..]),
            locals_size: LittleEndian::read_u32(&bytes[8..]),
            params_size: LittleEndian::read_u32(&bytes[12..]),
            max_stack_size: LittleEndian::read_u32(&bytes[16..]),
            frame_func: LittleEndian::read_u32(&bytes[20..]),
            prolog_size: LittleEndian::read_u16(&bytes[24..]),
            saved_regs_size: LittleEndian::read_u16(&bytes[26..]),
            flags: LittleEndian::read_u32(&bytes[28..]),
        }
    }
}

/// Reads the fields in order, each number little-endian.
impl Parse<Le> for NewFrameData {
    ghost reads = { λ _ bytes. read_as new_frame (front_at NEW_SIZE bytes) };

    #[tactic(auto, using(pdb_base::proofs::lemmas::Records::front_length))]
    fn parse_from(bytes: &[u8], _: Le) -> Result<(NewFrameData, usize)> {
        let mut buffer = ParseBuffer::from(bytes);
        let front = buffer.take(NewFrameData::SIZE)?;
        Ok((NewFrameData::read(front), buffer.pos()))
    }
}
