//! Frames, as records of both formats describe them.

ghost use Rattle.std.specs.Prelude.{◌≡◌};
ghost use Rattle.pdb_frames.specs.Frames.{of_old, of_new};

use crate::frame_type::FrameType;
use crate::new_frame_data::NewFrameData;
use crate::old_frame_data::OldFrameData;
use pdb_space::{PdbInternalRva, StringRef};

/// What a stack walker needs to know about the frame of a piece of code.
#[derive(Clone, Copy, Debug, PartialEq, Eq)]
pub struct FrameData {
    /// The kind of frame.
    pub ty: FrameType,

    /// The address of the first byte of the code.
    pub code_start: PdbInternalRva,

    /// The size of the code in bytes.
    pub code_size: u32,

    /// The size of the local variables in bytes.
    pub locals_size: u32,

    /// The size of the parameters in bytes.
    pub params_size: u32,

    /// The size of the prolog in bytes.
    pub prolog_size: u16,

    /// The size of the saved registers in bytes.
    pub saved_regs_size: u16,

    /// The largest number of bytes that the code pushes on the stack, if the record says so.
    pub max_stack_size: Option<u32>,

    /// Whether the code handles structured exceptions.
    pub has_structured_eh: bool,

    /// Whether the code handles C++ exceptions.
    pub has_cpp_eh: bool,

    /// Whether a function starts with this code.
    pub is_function_start: bool,

    /// Whether the base pointer holds something other than the frame.
    pub uses_base_pointer: bool,

    /// The offset in the string table of the program that computes the caller's registers, if the
    /// record has one.
    pub program: Option<StringRef>,
}

/// Converts a record of the older format, which counts local variables, parameters and saved
/// registers in units of 4 bytes. The size of local variables in bytes is taken modulo 2^32.
impl From<&OldFrameData> for FrameData {
    ghost from_gives = { λ frame told. told ≡ of_old frame.now };

    #[tactic(auto, unfolding(crate::specs::Frames::of_old))]
    fn from(frame: &OldFrameData) -> FrameData {
        FrameData {
            ty: frame.frame_type(),
            code_start: PdbInternalRva(frame.code_start),
            code_size: frame.code_size,
            locals_size: frame.locals_size.wrapping_mul(4),
            params_size: frame.params_size as u32 * 4,
            prolog_size: frame.prolog_size(),
            saved_regs_size: frame.saved_regs_size() * 4,
            max_stack_size: None,
            has_structured_eh: frame.has_seh(),
            has_cpp_eh: false,
            is_function_start: false,
            uses_base_pointer: frame.uses_base_pointer(),
            program: None,
        }
    }
}

/// Converts a record of the newer format.
impl From<&NewFrameData> for FrameData {
    ghost from_gives = { λ frame told. told ≡ of_new frame.now };

    #[tactic(auto, unfolding(crate::specs::Frames::of_new))]
    fn from(frame: &NewFrameData) -> FrameData {
        FrameData {
            ty: FrameType::FrameData,
            code_start: PdbInternalRva(frame.code_start),
            code_size: frame.code_size,
            locals_size: frame.locals_size,
            params_size: frame.params_size,
            prolog_size: frame.prolog_size,
            saved_regs_size: frame.saved_regs_size,
            max_stack_size: Some(frame.max_stack_size),
            has_structured_eh: frame.has_seh(),
            has_cpp_eh: frame.has_eh(),
            is_function_start: frame.is_function_start(),
            uses_base_pointer: false,
            program: Some(StringRef(frame.frame_func)),
        }
    }
}
