//! Ids, field by field.

#![tactic(auto, using(crate::proofs::lemmas::Line::adding))]

ghost use Rattle.std.specs.Prelude.{[]};
ghost use Rattle.pdbdump_rows.specs.Line.{AddsRow, indexed};

use crate::line::Line;
use crate::lists::{id_numbers, type_numbers};
use crate::value::{Value, optional_id, type_index};
use pdb_values::{
    BuildInfoId, FunctionId, IdData, MemberFunctionId, StringId, StringListId,
    UserDefinedTypeSourceFileRef, UserDefinedTypeSourceId,
};

/// Adds the fields of a function.
fn show_function(line: &mut Line, id: &FunctionId<'_>)
    ensures { AddsRow [] line.old line.new }
{
    line.fields(&[
        ("name", Value::Text(id.name)),
        ("scope", optional_id(id.scope)),
        ("function_type", type_index(id.function_type)),
    ]);
}

/// Adds the fields of a method.
fn show_member_function(line: &mut Line, id: &MemberFunctionId<'_>)
    ensures { AddsRow [] line.old line.new }
{
    line.fields(&[
        ("name", Value::Text(id.name)),
        ("parent", type_index(id.parent)),
        ("function_type", type_index(id.function_type)),
    ]);
}

/// Adds the fields of what a module was built with.
fn show_build_info(line: &mut Line, id: &BuildInfoId)
    ensures { AddsRow [] line.old line.new }
{
    let alloc = line.alloc;
    line.indexes("arguments", id_numbers(alloc, &id.arguments));
}

/// Adds the fields of the parts of a text.
fn show_string_list(line: &mut Line, id: &StringListId)
    ensures { AddsRow [] line.old line.new }
{
    let alloc = line.alloc;
    line.indexes("substrings", type_numbers(alloc, &id.substrings));
}

/// Adds the fields of a text.
fn show_string(line: &mut Line, id: &StringId<'_>)
    ensures { AddsRow [] line.old line.new }
{
    line.fields(&[
        ("name", Value::Text(id.name)),
        ("substrings", optional_id(id.substrings)),
    ]);
}

/// Returns the value of the number of the module whose file it is, or `Absent` if the file isn't
/// named in the string table.
fn source_module<'t>(file: UserDefinedTypeSourceFileRef) -> Value<'t> {
    match file {
        UserDefinedTypeSourceFileRef::Local(_) => Value::Absent,
        UserDefinedTypeSourceFileRef::Remote(module, _) => Value::Number(module as u64),
    }
}

/// Returns the value of the id of the file's name, or of the name's offset in the string table.
fn source_file<'t>(file: UserDefinedTypeSourceFileRef) -> Value<'t> {
    match file {
        UserDefinedTypeSourceFileRef::Local(id) => Value::Hexadecimal(id.0),
        UserDefinedTypeSourceFileRef::Remote(_, place) => Value::Hexadecimal(place.0),
    }
}

/// Adds the fields of the place where a type is declared.
fn show_source(line: &mut Line, id: &UserDefinedTypeSourceId)
    ensures { AddsRow [] line.old line.new }
{
    line.fields(&[
        ("udt", type_index(id.udt)),
        ("source_file", source_file(id.source_file)),
        ("module", source_module(id.source_file)),
        ("line", Value::Number(id.line as u64)),
    ]);
}

/// Adds the fields of what an id holds.
fn show_value(line: &mut Line, data: &IdData<'_>)
    ensures { AddsRow [] line.old line.new }
{
    match data {
        IdData::Function(id) => show_function(line, id),
        IdData::MemberFunction(id) => show_member_function(line, id),
        IdData::BuildInfo(id) => show_build_info(line, id),
        IdData::StringList(id) => show_string_list(line, id),
        IdData::String(id) => show_string(line, id),
        IdData::UserDefinedTypeSource(id) => show_source(line, id),
    }
}

/// Adds the fields of an id whose record is of this kind.
fn show_fields(line: &mut Line, leaf: u16, data: &IdData<'_>)
    ensures { AddsRow [] line.old line.new }
{
    line.field("kind", Value::Kind(leaf));
    show_value(line, data)
}

/// Adds the fields of the id of this index, whose record is of this kind.
pub fn show_id(line: &mut Line, index: u32, leaf: u16, data: &IdData<'_>)
    ensures { AddsRow (indexed index) line.old line.new }
{
    line.field("index", Value::Hexadecimal(index));
    show_fields(line, leaf, data)
}
