//! Classes and unions, field by field.

#![tactic(auto, using(crate::proofs::lemmas::Line::adding))]

ghost use Rattle.std.specs.Prelude.{[]};
ghost use Rattle.pdbdump_rows.specs.Line.{AddsRow};

use crate::line::Line;
use crate::value::{Value, nonzero, optional_text, optional_type, type_index};
use crate::words::property_flags;
use pdb_values::{ClassType, UnionType};

/// Adds the fields of a class, a structure or an interface.
pub(crate) fn show_class(line: &mut Line, class: &ClassType<'_>)
    ensures { AddsRow [] line.old line.new }
{
    line.fields(&[
        ("name", Value::Text(class.name)),
        ("count", Value::Number(class.count as u64)),
    ]);
    line.field(
        "properties",
        Value::Words(&property_flags(class.properties)),
    );
    line.fields(&[
        ("hfa", nonzero(class.properties.hfa())),
        ("mocom", nonzero(class.properties.mocom())),
        ("fields", optional_type(class.fields)),
        ("derived_from", optional_type(class.derived_from)),
        ("vtable_shape", optional_type(class.vtable_shape)),
        ("size", Value::Number(class.size)),
        ("unique_name", optional_text(class.unique_name)),
    ]);
}

/// Adds the fields of a union.
pub(crate) fn show_union(line: &mut Line, union_type: &UnionType<'_>)
    ensures { AddsRow [] line.old line.new }
{
    line.fields(&[
        ("name", Value::Text(union_type.name)),
        ("count", Value::Number(union_type.count as u64)),
    ]);
    line.field(
        "properties",
        Value::Words(&property_flags(union_type.properties)),
    );
    line.fields(&[
        ("hfa", nonzero(union_type.properties.hfa())),
        ("mocom", nonzero(union_type.properties.mocom())),
        ("fields", type_index(union_type.fields)),
        ("size", Value::Number(union_type.size)),
        ("unique_name", optional_text(union_type.unique_name)),
    ]);
}
