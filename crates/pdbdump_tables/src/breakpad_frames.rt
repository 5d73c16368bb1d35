//! The frames of a file as lines of a symbol file of Breakpad.

#![tactic(auto, using(pdbdump_rows::proofs::lemmas::Line::adding, pdbdump_rows::proofs::lemmas::Rows::listing))]

ghost use Rattle.std.specs.Prelude.{[]};
ghost use Rattle.pdbdump_rows.specs.Line.{AddsRow};
ghost use Rattle.pdbdump_rows.specs.Rows.{WritesLines};
ghost use Rattle.pdbdump_tables.specs.Listing.{ListsLines};

use crate::frame_programs::Programs;
use pdb_base::{FallibleIterator, RawString, Result};
use pdb_file::PDB;
use pdb_frames::{FrameData, FrameTable, FrameType};
use pdb_msf::Source;
use pdb_output::Output;
use pdb_space::{AddressMap, Rva};
use pdbdump_rows::{Form, Line, Value, write_line};
use std::alloc::{AllocError, Global};
use std::io::Write;

/// Returns the number of a kind of frame, as DIA has it.
fn kind_number(kind: FrameType) -> u32 {
    match kind {
        FrameType::FPO => 0,
        FrameType::Trap => 1,
        FrameType::TSS => 2,
        FrameType::Standard => 3,
        FrameType::FrameData => 4,
        FrameType::Unknown => 0xff,
    }
}

/// Appends the numbers of a frame in hexadecimal: its kind, its start, the sizes of its code, its
/// prolog, its epilog, its parameters, its saved registers and its local variables, and that of its
/// stack. The format doesn't say the size of an epilog, which is 0 then.
fn push_numbers(
    alloc: Global,
    frame: &FrameData,
    start: Rva,
    text: &mut Vec<u8>,
) -> std::result::Result<(), AllocError> {
    let numbers = [
        kind_number(frame.ty),
        start.0,
        frame.code_size,
        frame.prolog_size as u32,
        0,
        frame.params_size,
        frame.saved_regs_size as u32,
        frame.locals_size,
        frame.max_stack_size.unwrap_or(0),
    ];
    for number in numbers {
        let digits = format!(in alloc; " {number:x}")?;
        text.extend_from_slice(digits.as_bytes())?;
    }
    Ok(())
}

/// Returns the line of a frame, without the end: its numbers, and its program, or whether it uses
/// the base pointer for something else.
fn frame_text(
    alloc: Global,
    frame: &FrameData,
    start: Rva,
    program: Option<RawString<'_>>,
) -> std::result::Result<Vec<u8>, AllocError> {
    let mut text = Vec::from_slice(alloc, b"STACK WIN")?;
    push_numbers(alloc, frame, start, &mut text)?;
    match program {
        Some(program) => {
            text.extend_from_slice(b" 1 ")?;
            text.extend_from_slice(program.as_bytes())?;
        }
        None if frame.uses_base_pointer => text.extend_from_slice(b" 0 1")?,
        None => text.extend_from_slice(b" 0 0")?,
    }
    Ok(text)
}

/// Adds the text of a frame.
fn show_text(line: &mut Line, text: &[u8])
    ensures { AddsRow [] line.old line.new }
{
    line.field("name", Value::Text(RawString::from(text)));
}

/// Writes the line of a frame.
fn write_frame<W: Write>(
    alloc: Global,
    frame: &FrameData,
    start: Rva,
    program: Option<RawString<'_>>,
    line: &mut Line,
    out: &mut Output<W>,
) -> Result<()>
    ensures { WritesLines Form.Text out.old out.new result }
{
    let text = frame_text(alloc, frame, start, program)?;
    line.begin(Form::Text);
    show_text(line, &text);
    write_line(line, out)
}

/// Writes the line of each frame of a table that has an address in the image as it is loaded.
fn write_frames<W: Write>(
    alloc: Global,
    table: &FrameTable,
    map: &AddressMap,
    programs: &mut Programs,
    out: &mut Output<W>,
) -> Result<()>
    ensures { ListsLines Form.Text out.old out.new result }
{
    let mut line = Line::new(alloc);
    let mut frames = table.iter();
    while let Ok(Some(frame)) = frames.next() {
        let program = programs.text(frame.program)?;
        if let Some(start) = frame.code_start.to_rva(map) {
            write_frame(alloc, &frame, start, program, &mut line, out)?;
        }
    }
    Ok(())
}

/// Returns whether a frame of a table has a program.
fn has_program(table: &FrameTable) -> bool {
    let mut frames = table.iter();
    while let Ok(Some(frame)) = frames.next() {
        if frame.program.is_some() {
            return true;
        }
    }
    false
}

/// Reads the programs of the frames of a table.
fn programs_of<S: Source>(
    alloc: Global,
    file: &mut PDB<S>,
    table: &FrameTable,
) -> Result<Programs> {
    if !has_program(table) {
        return Ok(Programs::new(None));
    }
    Ok(Programs::new(Some(file.string_table(alloc)?)))
}

/// Reads where the code of a file was moved to, if it was moved.
fn map_of<S: Source>(alloc: Global, file: &mut PDB<S>) -> Result<AddressMap> {
    if file.extra_streams(alloc)?.omap_from_src.is_none() {
        return Ok(AddressMap::empty(alloc));
    }
    file.address_map(alloc)
}

/// Writes a line `STACK WIN` of a symbol file of Breakpad for each frame of a file, by their starts,
/// with their addresses in the image as it is loaded. Frames that have none there are left out.
///
/// # Errors
/// Fails as `frame_table` does, as `address_map` does if code was moved, as `string_table` does if a
/// frame has a program, and as `StringTable::get` does for a program, after the lines before it; with
/// `UnimplementedFeature` if the programs have too many bytes; with `IoError` if the writer fails;
/// and with `OutOfMemory` if an allocation fails.
pub fn list_breakpad_frames<S: Source + Drop, W: Write>(
    alloc: Global,
    mut file: PDB<S>,
    out: &mut Output<W>,
) -> Result<()>
    ensures { ListsLines Form.Text out.old out.new result }
{
    let table = file.frame_table(alloc)?;
    let map = map_of(alloc, &mut file)?;
    let mut programs = programs_of(alloc, &mut file, &table)?;
    write_frames(alloc, &table, &map, &mut programs, out)
}
