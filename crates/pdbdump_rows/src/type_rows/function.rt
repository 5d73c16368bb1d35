//! Types of functions, field by field.

#![tactic(auto, using(crate::proofs::lemmas::Line::adding))]

ghost use Rattle.std.specs.Prelude.{[]};
ghost use Rattle.pdbdump_rows.specs.Line.{AddsRow};

use crate::line::Line;
use crate::type_fields::{
    CLASS_TYPE, RETURN_TYPE, THIS_POINTER_TYPE, show_optional_type, show_type_field,
};
use crate::value::{Value, type_index};
use crate::words::function_flags;
use pdb_values::{MemberFunctionType, ProcedureType};

/// Adds the fields of the type of a function.
pub(crate) fn show_procedure(line: &mut Line, procedure: ProcedureType)
    ensures { AddsRow [] line.old line.new }
{
    let convention = procedure.attributes.calling_convention();
    show_optional_type(line, RETURN_TYPE, procedure.return_type);
    line.field("calling_convention", Value::Number(convention as u64));
    line.field(
        "attributes",
        Value::Words(&function_flags(procedure.attributes)),
    );
    line.fields(&[
        (
            "parameter_count",
            Value::Number(procedure.parameter_count as u64),
        ),
        ("argument_list", type_index(procedure.argument_list)),
    ]);
}

/// Adds the fields of the type of a method.
pub(crate) fn show_member_function(line: &mut Line, function: MemberFunctionType)
    ensures { AddsRow [] line.old line.new }
{
    let convention = function.attributes.calling_convention();
    show_type_field(line, RETURN_TYPE, function.return_type);
    show_type_field(line, CLASS_TYPE, function.class_type);
    show_optional_type(line, THIS_POINTER_TYPE, function.this_pointer_type);
    line.field("calling_convention", Value::Number(convention as u64));
    line.field(
        "attributes",
        Value::Words(&function_flags(function.attributes)),
    );
    line.fields(&[
        (
            "parameter_count",
            Value::Number(function.parameter_count as u64),
        ),
        ("argument_list", type_index(function.argument_list)),
        (
            "this_adjustment",
            Value::Number(function.this_adjustment as u64),
        ),
    ]);
}
