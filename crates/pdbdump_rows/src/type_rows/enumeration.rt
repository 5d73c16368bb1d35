//! Enumerations and their values, field by field.

#![tactic(auto, using(crate::proofs::lemmas::Line::adding))]

ghost use Rattle.std.specs.Prelude.{[]};
ghost use Rattle.pdbdump_rows.specs.Line.{AddsRow};

use crate::line::Line;
use crate::type_fields::{UNDERLYING_TYPE, show_type_field};
use crate::value::{Value, nonzero, optional_text, optional_word, type_index};
use crate::words::{access_word, field_flags, property_flags};
use pdb_base::Variant;
use pdb_values::{EnumerateType, EnumerationType};

/// Adds the fields of an enumeration.
pub(crate) fn show_enumeration(line: &mut Line, enumeration: &EnumerationType<'_>)
    ensures { AddsRow [] line.old line.new }
{
    line.fields(&[
        ("name", Value::Text(enumeration.name)),
        ("count", Value::Number(enumeration.count as u64)),
    ]);
    line.field(
        "properties",
        Value::Words(&property_flags(enumeration.properties)),
    );
    line.field("hfa", nonzero(enumeration.properties.hfa()));
    line.field("mocom", nonzero(enumeration.properties.mocom()));
    show_type_field(line, UNDERLYING_TYPE, enumeration.underlying_type);
    line.fields(&[
        ("fields", type_index(enumeration.fields)),
        ("unique_name", optional_text(enumeration.unique_name)),
    ]);
}

/// Returns the value of a number of any width that an enumeration's values may have.
fn variant<'t>(number: Variant) -> Value<'t> {
    match number {
        Variant::U8(number) => Value::Number(number as u64),
        Variant::U16(number) => Value::Number(number as u64),
        Variant::U32(number) => Value::Number(number as u64),
        Variant::U64(number) => Value::Number(number),
        Variant::I8(number) => Value::Signed(number as i64),
        Variant::I16(number) => Value::Signed(number as i64),
        Variant::I32(number) => Value::Signed(number as i64),
        Variant::I64(number) => Value::Signed(number),
    }
}

/// Adds the fields of a value of an enumeration.
pub(crate) fn show_enumerate(line: &mut Line, value: &EnumerateType<'_>)
    ensures { AddsRow [] line.old line.new }
{
    line.fields(&[
        ("name", Value::Text(value.name)),
        ("access", optional_word(access_word(value.attributes))),
    ]);
    line.field("attributes", Value::Words(&field_flags(value.attributes)));
    line.field("value", variant(value.value));
}
