//! Records with a list, field by field.

#![tactic(auto, using(crate::proofs::lemmas::Line::adding))]

ghost use Rattle.std.specs.Prelude.{[]};
ghost use Rattle.pdbdump_rows.specs.Line.{AddsRow};

use crate::line::Line;
use crate::lists::{byte_numbers, method_numbers};
use crate::type_fields::{ELEMENT_TYPE, INDEXING_TYPE, show_type_field, show_type_list};
use crate::value::{Value, optional_number, optional_type};
use pdb_values::{ArgumentList, ArrayType, FieldList, MethodList, VirtualTableShapeType};

/// Adds the fields of an array.
pub(crate) fn show_array(line: &mut Line, array: &ArrayType)
    ensures { AddsRow [] line.old line.new }
{
    show_type_field(line, ELEMENT_TYPE, array.element_type);
    show_type_field(line, INDEXING_TYPE, array.indexing_type);
    line.fields(&[
        ("stride", optional_number(array.stride)),
        ("dimensions", Value::Numbers(&array.dimensions)),
    ]);
}

/// Adds the fields of a list of fields.
pub(crate) fn show_field_list(line: &mut Line, list: &FieldList<'_>)
    ensures { AddsRow [] line.old line.new }
{
    line.fields(&[
        ("count", Value::Number(list.fields.as_slice().len() as u64)),
        ("continuation", optional_type(list.continuation)),
    ]);
}

/// Adds the fields of the types of a function's arguments.
pub(crate) fn show_argument_list(line: &mut Line, list: &ArgumentList)
    ensures { AddsRow [] line.old line.new }
{
    show_type_list(line, "arguments", &list.arguments)
}

/// Adds the fields of a list of methods.
pub(crate) fn show_method_list(line: &mut Line, list: &MethodList)
    ensures { AddsRow [] line.old line.new }
{
    let methods = list.methods.as_slice();
    line.field("count", Value::Number(methods.len() as u64));
    let alloc = line.alloc;
    line.indexes("methods", method_numbers(alloc, methods));
}

/// Adds the fields of the shape of a table of virtual functions.
pub(crate) fn show_table_shape(line: &mut Line, shape: VirtualTableShapeType<'_>)
    ensures { AddsRow [] line.old line.new }
{
    line.field("count", Value::Number(shape.count as u64));
    let alloc = line.alloc;
    line.indexes("descriptors", byte_numbers(alloc, shape.descriptors));
}
