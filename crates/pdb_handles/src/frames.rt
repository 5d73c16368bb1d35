//! Frames of a program, as a caller sees them.

ghost use Rattle.std.specs.Prelude.{◌≡◌, map, Ok};
ghost use Rattle.pdb_base.specs.Answer.{Answers};
ghost use Rattle.pdb_frames.specs.{Merge.by_heads, Merge.merge, Table.StartsIncrease};
ghost use Rattle.pdb_handles.specs.Frame.{flag, frame_of, TellsFirst};

use crate::fault::{Fault, NONE};
use crate::found::tell_found;
use pdb_base::{FallibleIterator, Result};
use pdb_frames::{FrameData, FrameTable};
use pdb_space::PdbInternalRva;
use std::alloc::Global;

/// What a stack walker needs to know of the frame of some code. Each flag is 0 or 1.
#[repr(C)]
#[derive(Clone, Copy)]
pub struct Frame {
    /// What kind of frame it is, by the numbers of `StackFrameTypeEnum`.
    pub kind: u32,
    /// The address of the first byte of the code, in the original image.
    pub code_start: u32,
    /// How many bytes of code there are.
    pub code_size: u32,
    /// The size of the local variables in bytes.
    pub locals_size: u32,
    /// The size of the parameters in bytes.
    pub params_size: u32,
    /// How many bytes of code the prolog has.
    pub prolog_size: u32,
    /// The size of the saved registers in bytes.
    pub saved_regs_size: u32,
    /// Whether the record says how many bytes the code pushes on the stack at most.
    pub has_max_stack_size: u32,
    /// The number of these bytes, or 0.
    pub max_stack_size: u32,
    /// Whether the code handles structured exceptions.
    pub has_structured_eh: u32,
    /// Whether the code handles C++ exceptions.
    pub has_cpp_eh: u32,
    /// Whether a function starts with this code.
    pub is_function_start: u32,
    /// Whether the base pointer holds something other than the frame.
    pub uses_base_pointer: u32,
    /// Whether a program computes the registers of the caller.
    pub has_program: u32,
    /// The place of that program in the string table, or 0.
    pub program: u32,
}

/// Returns 1 for true and 0 for false.
pub fn flag(test: bool) -> u32
    ensures { result ≡ flag test }
{
    if test { 1 } else { 0 }
}

impl Frame {
    /// Converts a frame for the caller.
    pub fn of(frame: &FrameData) -> Frame
        ensures { result ≡ frame_of frame.now }
    {
        Frame {
            kind: frame.ty as u32,
            code_start: frame.code_start.0,
            code_size: frame.code_size,
            locals_size: frame.locals_size,
            params_size: frame.params_size,
            prolog_size: frame.prolog_size as u32,
            saved_regs_size: frame.saved_regs_size as u32,
            has_max_stack_size: flag(frame.max_stack_size.is_some()),
            max_stack_size: frame.max_stack_size.unwrap_or(0),
            has_structured_eh: flag(frame.has_structured_eh),
            has_cpp_eh: flag(frame.has_cpp_eh),
            is_function_start: flag(frame.is_function_start),
            uses_base_pointer: flag(frame.uses_base_pointer),
            has_program: flag(frame.program.is_some()),
            program: frame.program.map_or(0, |place| place.0),
        }
    }
}

/// Writes the first frame of a table from an address on, or returns a fault of status `NONE` if
/// there is none.
pub fn tell_first(table: &FrameTable, address: u32, frame: &mut Frame) -> Fault
    ensures { TellsFirst table.now address frame.old (record { fault = result; value = frame.new }) }
{
    let mut frames = table.iter_at_rva(PdbInternalRva(address));
    let Ok(first) = frames.next() else {
        unreachable!();
    };
    let first = first.map(|frame| Frame::of(&frame));
    tell_found(first, Fault::status(NONE), frame)
}

/// Returns all frames of a table, in the order of `FrameTable::iter`, for the caller.
///
/// # Errors
/// Fails only with `OutOfMemory`, if an allocation fails.
pub fn all_frames(alloc: Global, table: &FrameTable) -> Result<Vec<Frame>>
    ensures merged { StartsIncrease table.now →
        Answers (λ frames. frames.items) result (Ok (map frame_of (merge table.now.old table.now.new))) }
    ensures heads { Answers (λ frames. frames.items) result (Ok (map frame_of (by_heads table.now.old table.now.new))) }
{
    let mut all = Vec::new(alloc);
    let mut frames = table.iter();
    while let Ok(Some(frame)) = frames.next() {
        all.push(Frame::of(&frame))?;
    }
    Ok(all)
}
