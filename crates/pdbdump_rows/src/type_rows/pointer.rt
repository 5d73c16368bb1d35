//! Pointers, modified types and bit fields, field by field.

#![tactic(auto, using(crate::proofs::lemmas::Line::adding))]

ghost use Rattle.std.specs.Prelude.{[]};
ghost use Rattle.pdbdump_rows.specs.Line.{AddsRow};

use crate::line::Line;
use crate::type_fields::{CONTAINING_CLASS, UNDERLYING_TYPE, show_optional_type, show_type_field};
use crate::value::Value;
use crate::words::{kind_word, mode_word, modifier_flags, pointer_flags};
use pdb_values::{BitfieldType, ModifierType, PointerType};

/// Adds the fields of a pointer.
pub(crate) fn show_pointer(line: &mut Line, pointer: PointerType)
    ensures { AddsRow [] line.old line.new }
{
    let word = pointer.attributes;
    show_type_field(line, UNDERLYING_TYPE, pointer.underlying_type);
    line.fields(&[
        ("pointer_kind", Value::Word(kind_word(word.pointer_kind()))),
        ("pointer_mode", Value::Word(mode_word(word.pointer_mode()))),
    ]);
    line.field("attributes", Value::Words(&pointer_flags(word)));
    line.field("size", Value::Number(word.size() as u64));
    show_optional_type(line, CONTAINING_CLASS, pointer.containing_class);
}

/// Adds the fields of a type with modifiers.
pub(crate) fn show_modifier(line: &mut Line, modifier: ModifierType)
    ensures { AddsRow [] line.old line.new }
{
    show_type_field(line, UNDERLYING_TYPE, modifier.underlying_type);
    line.field("modifiers", Value::Words(&modifier_flags(modifier)));
}

/// Adds the fields of a bit field, a member that takes some bits of its type.
pub(crate) fn show_bitfield(line: &mut Line, bitfield: BitfieldType)
    ensures { AddsRow [] line.old line.new }
{
    show_type_field(line, UNDERLYING_TYPE, bitfield.underlying_type);
    line.fields(&[
        ("length", Value::Number(bitfield.length as u64)),
        ("position", Value::Number(bitfield.position as u64)),
    ]);
}
