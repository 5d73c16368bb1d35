//! Base classes and pointers to tables of virtual functions, field by field.

#![tactic(auto, using(crate::proofs::lemmas::Line::adding))]

ghost use Rattle.std.specs.Prelude.{[]};
ghost use Rattle.pdbdump_rows.specs.Line.{AddsRow};

use crate::line::Line;
use crate::type_fields::{BASE_CLASS, BASE_POINTER, show_type_field};
use crate::value::{Value, optional_word, type_index};
use crate::words::{access_word, field_flags};
use pdb_values::{BaseClassType, VirtualBaseClassType, VirtualFunctionTablePointerType};

/// Adds the fields of a base class.
pub(crate) fn show_base_class(line: &mut Line, base: BaseClassType)
    ensures { AddsRow [] line.old line.new }
{
    let attributes = field_flags(base.attributes);
    line.field("access", optional_word(access_word(base.attributes)));
    line.field("attributes", Value::Words(&attributes));
    show_type_field(line, BASE_CLASS, base.base_class);
    line.field("offset", Value::Number(base.offset as u64));
}

/// Adds the fields of a virtual base class.
pub(crate) fn show_virtual_base(line: &mut Line, base: VirtualBaseClassType)
    ensures { AddsRow [] line.old line.new }
{
    let attributes = field_flags(base.attributes);
    line.fields(&[
        ("direct", Value::Flag(base.direct)),
        ("access", optional_word(access_word(base.attributes))),
    ]);
    line.field("attributes", Value::Words(&attributes));
    show_type_field(line, BASE_CLASS, base.base_class);
    show_type_field(line, BASE_POINTER, base.base_pointer);
    line.fields(&[
        (
            "base_pointer_offset",
            Value::Number(base.base_pointer_offset as u64),
        ),
        (
            "virtual_base_offset",
            Value::Number(base.virtual_base_offset as u64),
        ),
    ]);
}

/// Adds the fields of the pointer to a table of virtual functions.
pub(crate) fn show_table_pointer(line: &mut Line, pointer: VirtualFunctionTablePointerType)
    ensures { AddsRow [] line.old line.new }
{
    line.field("table", type_index(pointer.table));
}
