//! Methods, field by field.

#![tactic(auto, using(crate::proofs::lemmas::Line::adding))]

ghost use Rattle.std.specs.Prelude.{[]};
ghost use Rattle.pdbdump_rows.specs.Line.{AddsRow};

use crate::line::Line;
use crate::type_fields::{METHOD_TYPE, show_type_field};
use crate::value::{Value, optional_number, optional_word, type_index};
use crate::words::{access_word, field_flags};
use pdb_values::{MethodListEntry, MethodType, OverloadedMethodType};

/// Adds the fields of the methods of one name.
pub(crate) fn show_overloaded_method(line: &mut Line, methods: &OverloadedMethodType<'_>)
    ensures { AddsRow [] line.old line.new }
{
    line.fields(&[
        ("name", Value::Text(methods.name)),
        ("count", Value::Number(methods.count as u64)),
        ("method_list", type_index(methods.method_list)),
    ]);
}

/// Adds the fields of a method that shares its name with no other.
pub(crate) fn show_method(line: &mut Line, method: &MethodType<'_>)
    ensures { AddsRow [] line.old line.new }
{
    line.fields(&[
        ("name", Value::Text(method.name)),
        ("access", optional_word(access_word(method.attributes))),
    ]);
    line.field("attributes", Value::Words(&field_flags(method.attributes)));
    show_type_field(line, METHOD_TYPE, method.method_type);
    line.field("vtable_offset", optional_number(method.vtable_offset));
}

/// Adds the fields of one of the methods of a name.
pub fn show_listed_method(line: &mut Line, method: MethodListEntry)
    ensures { AddsRow [] line.old line.new }
{
    let attributes = field_flags(method.attributes);
    line.field("access", optional_word(access_word(method.attributes)));
    line.field("attributes", Value::Words(&attributes));
    show_type_field(line, METHOD_TYPE, method.method_type);
    line.field("vtable_offset", optional_number(method.vtable_offset));
}
