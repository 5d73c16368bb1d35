//! Frames, field by field.

#![tactic(auto, using(crate::proofs::lemmas::Line::adding))]

ghost use Rattle.pdbdump_rows.specs.Line.{AddsRow};
ghost use Rattle.std.specs.Prelude.{[]};

use crate::line::Line;
use crate::value::{Value, optional_number};
use pdb_base::RawString;
use pdb_frames::{FrameData, FrameType};
use pdb_space::StringRef;

/// Returns the name of a kind of frame, as it is printed.
fn frame_word(kind: FrameType) -> &'static str {
    match kind {
        FrameType::FPO => "fpo",
        FrameType::Trap => "trap",
        FrameType::TSS => "tss",
        FrameType::Standard => "std",
        FrameType::FrameData => "fdata",
        FrameType::Unknown => "unknown",
    }
}

/// Adds the program of a frame, if it has one: its text, or its offset in the string table if the
/// text is not known.
fn show_program(line: &mut Line, place: Option<StringRef>, program: Option<RawString<'_>>)
    ensures { AddsRow [] line.old line.new }
{
    match (program, place) {
        (Some(program), _) => line.field("program", Value::Text(program)),
        (None, Some(place)) => line.field("program_offset", Value::Hexadecimal(place.0)),
        (None, None) => {}
    }
}

/// Adds the fields of a frame, with the text of its program, if that is known.
pub fn show_frame(line: &mut Line, frame: &FrameData, program: Option<RawString<'_>>)
    ensures { AddsRow [] line.old line.new }
{
    line.fields(&[
        ("code_start", Value::Hexadecimal(frame.code_start.0)),
        ("code_size", Value::Number(frame.code_size as u64)),
        ("locals_size", Value::Number(frame.locals_size as u64)),
        ("params_size", Value::Number(frame.params_size as u64)),
        ("prolog_size", Value::Number(frame.prolog_size as u64)),
        (
            "saved_regs_size",
            Value::Number(frame.saved_regs_size as u64),
        ),
        ("max_stack_size", optional_number(frame.max_stack_size)),
        ("ty", Value::Word(frame_word(frame.ty))),
        ("has_structured_eh", Value::Flag(frame.has_structured_eh)),
        ("has_cpp_eh", Value::Flag(frame.has_cpp_eh)),
        ("is_function_start", Value::Flag(frame.is_function_start)),
        ("uses_base_pointer", Value::Flag(frame.uses_base_pointer)),
    ]);
    show_program(line, frame.program, program)
}
