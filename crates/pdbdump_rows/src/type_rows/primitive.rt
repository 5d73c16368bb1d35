//! Types without a record, field by field.

#![tactic(auto, using(crate::proofs::lemmas::Line::adding))]

ghost use Rattle.std.specs.Prelude.{[]};
ghost use Rattle.pdbdump_rows.specs.Line.{AddsRow};

use crate::line::Line;
use crate::value::Value;
use crate::words::{indirection_word, primitive_word};
use pdb_values::{Indirection, PrimitiveType};

/// Returns the value of the kind of pointer to a primitive type, or `Absent` if it isn't a pointer.
fn indirection<'t>(pointer: Option<Indirection>) -> Value<'t> {
    match pointer {
        Some(pointer) => Value::Word(indirection_word(pointer)),
        None => Value::Absent,
    }
}

/// Adds the fields of a type that has no record.
pub(crate) fn show_primitive(line: &mut Line, primitive: PrimitiveType)
    ensures { AddsRow [] line.old line.new }
{
    line.fields(&[
        (
            "primitive_kind",
            Value::Word(primitive_word(primitive.kind)),
        ),
        ("indirection", indirection(primitive.indirection)),
    ]);
}
