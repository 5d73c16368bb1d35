//! Section headers, field by field.

#![tactic(auto, using(crate::proofs::lemmas::Line::adding))]

ghost use Rattle.pdbdump_rows.specs.Line.{AddsRow, numbered};

use crate::line::Line;
use crate::value::Value;
use crate::words::section_flags;
use pdb_base::RawString;
use pdb_space::ImageSectionHeader;

/// Returns the bytes of a section's name: those before the first NUL, or all eight.
fn name_bytes(header: &ImageSectionHeader) -> &[u8] {
    match header.name.iter().position(|byte| *byte == 0) {
        Some(end) => &header.name[..end],
        None => &header.name,
    }
}

/// Returns the value of the multiple at which a section begins, or `Absent` if it states none.
fn alignment<'t>(multiple: Option<u16>) -> Value<'t> {
    match multiple {
        Some(multiple) => Value::Number(multiple as u64),
        None => Value::Absent,
    }
}

/// Adds the fields of the section header with this number.
pub fn show_section(line: &mut Line, number: u32, header: &ImageSectionHeader)
    ensures { AddsRow (numbered number) line.old line.new }
{
    let name = RawString::from(name_bytes(header));
    line.field("number", Value::Number(number as u64));
    line.fields(&[
        ("name", Value::Text(name)),
        (
            "virtual_address",
            Value::Hexadecimal(header.virtual_address),
        ),
        ("virtual_size", Value::Number(header.virtual_size as u64)),
        (
            "pointer_to_raw_data",
            Value::Hexadecimal(header.pointer_to_raw_data),
        ),
        (
            "size_of_raw_data",
            Value::Number(header.size_of_raw_data as u64),
        ),
        (
            "pointer_to_relocations",
            Value::Hexadecimal(header.pointer_to_relocations),
        ),
        (
            "number_of_relocations",
            Value::Number(header.number_of_relocations as u64),
        ),
        (
            "pointer_to_line_numbers",
            Value::Hexadecimal(header.pointer_to_line_numbers),
        ),
        (
            "number_of_line_numbers",
            Value::Number(header.number_of_line_numbers as u64),
        ),
    ]);
    line.field(
        "characteristics",
        Value::Words(&section_flags(header.characteristics)),
    );
    line.field("alignment", alignment(header.characteristics.alignment()));
}
