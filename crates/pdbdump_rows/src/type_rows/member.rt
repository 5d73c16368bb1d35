//! Data members and nested types, field by field.

#![tactic(auto, using(crate::proofs::lemmas::Line::adding))]

ghost use Rattle.std.specs.Prelude.{[]};
ghost use Rattle.pdbdump_rows.specs.Line.{AddsRow};

use crate::line::Line;
use crate::type_fields::{FIELD_TYPE, NESTED_TYPE, show_type_field};
use crate::value::{Value, optional_word};
use crate::words::{access_word, field_flags};
use pdb_values::{MemberType, NestedType, StaticMemberType};

/// Adds the fields of a data member.
pub(crate) fn show_member(line: &mut Line, member: &MemberType<'_>)
    ensures { AddsRow [] line.old line.new }
{
    line.fields(&[
        ("name", Value::Text(member.name)),
        ("access", optional_word(access_word(member.attributes))),
    ]);
    line.field("attributes", Value::Words(&field_flags(member.attributes)));
    show_type_field(line, FIELD_TYPE, member.field_type);
    line.field("offset", Value::Number(member.offset));
}

/// Adds the fields of a static data member.
pub(crate) fn show_static_member(line: &mut Line, member: &StaticMemberType<'_>)
    ensures { AddsRow [] line.old line.new }
{
    line.fields(&[
        ("name", Value::Text(member.name)),
        ("access", optional_word(access_word(member.attributes))),
    ]);
    line.field("attributes", Value::Words(&field_flags(member.attributes)));
    show_type_field(line, FIELD_TYPE, member.field_type);
}

/// Adds the fields of a type that is declared in a class.
pub(crate) fn show_nested(line: &mut Line, nested: &NestedType<'_>)
    ensures { AddsRow [] line.old line.new }
{
    line.fields(&[
        ("name", Value::Text(nested.name)),
        ("access", optional_word(access_word(nested.attributes))),
    ]);
    line.field("attributes", Value::Words(&field_flags(nested.attributes)));
    show_type_field(line, NESTED_TYPE, nested.nested_type);
}
