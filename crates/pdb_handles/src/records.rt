//! What the record of a type or of an id says: its numbers, its name and its lists.

ghost use Rattle.std.specs.Prelude.{map, [], Ok, ◌≡◌, ℕ, List, Option};
ghost use Rattle.std.specs.Option.{option_map};
ghost use Rattle.pdb_base.specs.{declared.index.TypeIndex.TypeIndex, Answer.Answer, Answer.Answers, Answer.Gives};
ghost use Rattle.pdb_values.specs.TypeValue.{TypeValue, argument_list, field_list, no_field};
ghost use Rattle.pdb_values.specs.{Text.text_bytes, TypeView.type_value, IdValue.id_value};
ghost use Rattle.pdb_records.specs.Fields.{type_record};
ghost use Rattle.pdb_tpi.specs.Record.{id_of, type_of};
ghost use Rattle.pdb_handles.specs.Records.{id_info, method_info, said_methods, said_name, said_numbers, said_row};
ghost use Rattle.pdb_handles.specs.Records.{said_view, said_unique_name, value_at};
ghost use Rattle.pdb_handles.specs.Copied.{IsAnswerTold};
ghost use Rattle.pdb_handles.specs.Row.{type_info};

use crate::content::Records;
use crate::fault::{FINE, Fault};
use crate::row::{Numbers, Row, index_in, row};
use pdb_base::{ParseBuffer, RawString, Result, TypeIndex};
use pdb_records::{parse_behind_leaf, parse_id_data, skip_arguments, skip_field_list};
use pdb_values::constants::{LF_ARGLIST, LF_FIELDLIST};
use pdb_values::{
    FIRST_RECORD, IdData, MethodListEntry, TypeData, UserDefinedTypeSourceFileRef,
    type_data_for_primitive,
};
use std::alloc::Global;

/// Writes the numbers in a record that was parsed, or returns the fault of its error.
#[inline(always)]
fn write_row(parsed: &Result<TypeData<'_>>, row: &mut Row) -> Fault
    ensures { (meant : Answer TypeValue) → Answers type_value parsed.now meant
        → IsAnswerTold (λ value. type_info value) meant row.old result row.new }
{
    match parsed {
        Ok(value) => {
            row.set_type(value);
            Fault::status(FINE)
        }
        Err(error) => Fault::of(error),
    }
}

/// Writes the numbers in a list of fields, of which only the continuation was read, or returns the
/// fault of its error.
#[inline(always)]
fn write_list_row(read: &Result<Option<TypeIndex>>, row: &mut Row) -> Fault
    ensures { (rest : List ℕ) (meant : Answer (Option TypeIndex × List ℕ))
        → Answers (λ next. (next, rest)) read.now meant
        → IsAnswerTold (λ read. type_info (field_list no_field read.0)) meant row.old result row.new }
{
    match read {
        Ok(continuation) => {
            *row = row!(19; list_index: index_in(*continuation));
            Fault::status(FINE)
        }
        Err(error) => Fault::of(error),
    }
}

/// Writes the numbers in a list of arguments that was skipped, of which there are none, or returns
/// the fault of its error.
#[inline(always)]
fn write_arguments_row(skipped: &Result<()>, row: &mut Row) -> Fault
    ensures { (rest : List ℕ) (meant : Answer (List ℕ)) → Gives (λ nothing. rest) skipped.now meant
        → IsAnswerTold (λ rest. type_info (argument_list [])) meant row.old result row.new }
{
    match skipped {
        Ok(_) => {
            *row = Row::of(20, &Numbers::default());
            Fault::status(FINE)
        }
        Err(error) => Fault::of(error),
    }
}

/// Writes the numbers in a record, or returns the fault of its error. No field and no argument of a
/// list is kept, since the numbers say nothing of them.
#[inline(always)]
fn write_record_row(alloc: Global, bytes: &[u8], row: &mut Row) -> Fault
    ensures { IsAnswerTold (λ value. type_info value) (type_record bytes.now) row.old result row.new }
{
    let mut buffer = ParseBuffer::from(bytes);
    let kind = match buffer.parse_u16() {
        Ok(kind) => kind,
        Err(error) => return Fault::of(&error),
    };
    if kind == LF_FIELDLIST {
        return write_list_row(&skip_field_list(alloc, &mut buffer), row);
    }
    if kind == LF_ARGLIST {
        return write_arguments_row(&skip_arguments(&mut buffer), row);
    }
    // What a function in between returned would be copied.
    write_row(&parse_behind_leaf(alloc, &mut buffer, kind), row)
}

/// Writes the numbers in the record of a type, or returns the fault of its error. An index below
/// 0x1000 is that of a primitive type, which needs no record.
#[inline(always)]
#[tactic(auto, unfolding(pdb_tpi::specs::Record::type_of))]
pub fn write_type_row(alloc: Global, bytes: &[u8], index: u32, row: &mut Row) -> Fault
    ensures { IsAnswerTold (λ value. type_info value) (type_of index bytes.now) row.old result row.new }
{
    if index < FIRST_RECORD {
        return write_row(&type_data_for_primitive(TypeIndex(index)), row);
    }
    write_record_row(alloc, bytes, row)
}

/// Returns the `Row` of an id.
fn row_of_id(value: &IdData<'_>) -> Row
    ensures { result ≡ id_info (id_value value.now) }
{
    match value {
        IdData::Function(id) => row!(32;
            type_index: Some(id.function_type.0), second_index: id.scope.map(|scope| scope.0)),
        IdData::MemberFunction(id) => row!(33;
            type_index: Some(id.function_type.0), third_index: Some(id.parent.0)),
        IdData::BuildInfo(_) => Row::of(34, &Numbers::default()),
        IdData::StringList(_) => Row::of(35, &Numbers::default()),
        IdData::String(id) => row!(36; list_index: id.substrings.map(|list| list.0)),
        IdData::UserDefinedTypeSource(id) => match id.source_file {
            UserDefinedTypeSourceFileRef::Local(file) => row!(37;
                type_index: Some(id.udt.0), second_index: Some(file.0), extra: Some(id.line)),
            UserDefinedTypeSourceFileRef::Remote(module, place) => row!(37;
                type_index: Some(id.udt.0), third_index: Some(module as u32),
                number: Some(place.0 as u64), extra: Some(id.line)),
        },
    }
}

/// Writes the numbers in the record of an id, or returns the fault of its error.
pub(crate) fn write_id_row(alloc: Global, bytes: &[u8], row: &mut Row) -> Fault
    ensures { IsAnswerTold (λ value. id_info value) (id_of bytes.now) row.old result row.new }
{
    match id_in(alloc, bytes) {
        Ok(value) => {
            *row = row_of_id(&value);
            Fault::status(FINE)
        }
        Err(error) => Fault::of(&error),
    }
}

/// Parses the record of an id.
///
/// # Errors
/// Fails as `parse_id_data` does.
#[tactic(auto, unfolding(pdb_tpi::specs::Record::id_of))]
fn id_in<'t>(alloc: Global, bytes: &'t [u8]) -> Result<IdData<'t>>
    ensures { Answers id_value result (id_of bytes.now) }
{
    parse_id_data(alloc, bytes)
}

/// What the record of a type or of an id says.
#[derive(Drop)]
pub enum Said<'t> {
    /// That of a type.
    Type(TypeData<'t>),
    /// That of an id.
    Id(IdData<'t>),
}

/// Returns what the type or the id of an index is.
///
/// # Errors
/// Fails as `OpenTable::item`, `Type::parse` and `parse_id_data` do.
pub fn said_at<'t>(alloc: Global, records: &'t Records, index: u32) -> Result<Said<'t>>
    ensures { Answers said_view result (value_at records.now index) }
{
    let item = records.types.table().item(TypeIndex(index))?;
    if records.are_ids {
        Ok(Said::Id(id_in(alloc, item.as_bytes())?))
    } else {
        Ok(Said::Type(item.parse(alloc)?))
    }
}

/// Returns the `Row` of a type or of an id.
pub fn row_of(said: &Said<'_>) -> Row
    ensures { result ≡ said_row (said_view said.now) }
{
    match said {
        Said::Type(value) => Row::of_type(value),
        Said::Id(value) => row_of_id(value),
    }
}

/// Returns the name of a type, or of an id that is a function, a method or a text.
pub fn name_of<'t>(said: &Said<'t>) -> Option<RawString<'t>>
    ensures { option_map text_bytes result ≡ said_name (said_view said.now) }
{
    match said {
        Said::Type(value) => value.name(),
        Said::Id(value) => value.name(),
    }
}

/// Returns the unique name of a class, a union or an enumeration.
pub fn unique_name_of<'t>(said: &Said<'t>) -> Option<RawString<'t>>
    ensures { option_map text_bytes result ≡ said_unique_name (said_view said.now) }
{
    match said {
        Said::Type(TypeData::Class(class)) => class.unique_name,
        Said::Type(TypeData::Union(union)) => union.unique_name,
        Said::Type(TypeData::Enumeration(enumeration)) => enumeration.unique_name,
        _ => None,
    }
}

/// Returns the numbers of type indexes.
///
/// # Errors
/// Fails with `OutOfMemory` if an allocation fails.
pub(crate) fn numbers_in(alloc: Global, indexes: &[TypeIndex]) -> Result<Vec<u32>>
    ensures { Answers (λ numbers. numbers.items) result (Ok (map (λ index. index.0) indexes.now)) }
{
    Ok(indexes.iter().map(|index| index.0).collect(alloc)?)
}

/// Returns the numbers that a record lists: the arguments of a list of arguments, the dimensions of
/// an array, or the ids in a list of ids or of texts.
///
/// # Errors
/// Fails with `OutOfMemory` if an allocation fails.
pub fn numbers_of(alloc: Global, said: &Said<'_>) -> Result<Option<Vec<u32>>>
    ensures { Answers (option_map (λ numbers. numbers.items)) result (Ok (said_numbers (said_view said.now))) }
{
    match said {
        Said::Type(TypeData::ArgumentList(list)) => Ok(Some(numbers_in(alloc, &list.arguments)?)),
        Said::Type(TypeData::Array(array)) => Ok(Some(array.dimensions.to_vec(alloc)?)),
        Said::Id(IdData::BuildInfo(list)) => {
            Ok(Some(list.arguments.iter().map(|index| index.0).collect(alloc)?))
        }
        Said::Id(IdData::StringList(list)) => Ok(Some(numbers_in(alloc, &list.substrings)?)),
        _ => Ok(None),
    }
}

/// Returns the `Row` of a method in a list, for the caller.
fn method_row(method: &MethodListEntry) -> Row
    ensures { result ≡ method_info method.now }
{
    row!(5;
        attributes: Some(method.attributes.bits() as u32), type_index: Some(method.method_type.0),
        extra: method.vtable_offset)
}

/// Returns a `Row` for each method, for the caller.
fn method_rows(alloc: Global, methods: &[MethodListEntry]) -> Result<Vec<Row>>
    ensures { Answers (λ rows. rows.items) result (Ok (map method_info methods.now)) }
{
    let mut rows = Vec::with_capacity(alloc, methods.len())?;
    for method in methods {
        rows.push(method_row(method))?;
    }
    Ok(rows)
}

/// Returns a `Row` for each method of a list of methods.
///
/// # Errors
/// Fails with `OutOfMemory` if an allocation fails.
pub fn methods_of(alloc: Global, said: &Said<'_>) -> Result<Option<Vec<Row>>>
    ensures { Answers (option_map (λ rows. rows.items)) result (Ok (said_methods (said_view said.now))) }
{
    match said {
        Said::Type(TypeData::MethodList(list)) => Ok(Some(method_rows(alloc, &list.methods)?)),
        _ => Ok(None),
    }
}
