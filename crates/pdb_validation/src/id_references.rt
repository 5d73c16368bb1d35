//! The indexes to which the record of an id refers.

ghost use Rattle.std.specs.Prelude.{◌≡◌};
ghost use Rattle.pdb_values.specs.IdValue.{id_value};
ghost use Rattle.pdb_validation.specs.References.{file_reference, first_from, id_reference_from, id_references};
ghost use Rattle.pdb_validation.specs.References.{type_references};

use crate::references::{first_from, first_index_from, number_of};
use pdb_values::{IdData, UserDefinedTypeSourceFileRef};

/// Returns the number of the id of a file's name, if it is one.
fn file_reference(file: UserDefinedTypeSourceFileRef) -> Option<u32>
    ensures { result ≡ file_reference file }
{
    match file {
        UserDefinedTypeSourceFileRef::Local(id) => Some(id.0),
        UserDefinedTypeSourceFileRef::Remote(_, _) => None,
    }
}

/// Returns the first of the ids to which an id refers that is not below `least`.
fn first_in_ids(least: u32, value: &IdData<'_>) -> Option<u32>
    ensures { result ≡ first_from least (id_references (id_value value.now)) }
{
    match value {
        IdData::Function(id) => first_from(least, &[number_of(id.scope)]),
        IdData::String(id) => first_from(least, &[number_of(id.substrings)]),
        IdData::UserDefinedTypeSource(id) => first_from(least, &[file_reference(id.source_file)]),
        IdData::BuildInfo(list) => first_index_from(least, list.arguments.as_slice()),
        IdData::StringList(list) => first_index_from(least, list.substrings.as_slice()),
        IdData::MemberFunction(_) => None,
    }
}

/// Returns the first of the types to which an id refers that is not below `least`.
fn first_in_types(least: u32, value: &IdData<'_>) -> Option<u32>
    ensures { result ≡ first_from least (type_references (id_value value.now)) }
{
    match value {
        IdData::Function(id) => first_from(least, &[Some(id.function_type.0)]),
        IdData::MemberFunction(id) => {
            first_from(least, &[Some(id.parent.0), Some(id.function_type.0)])
        }
        IdData::UserDefinedTypeSource(id) => first_from(least, &[Some(id.udt.0)]),
        IdData::BuildInfo(_) | IdData::StringList(_) | IdData::String(_) => None,
    }
}

/// Returns the first of the ids to which an id refers that is not below its index, or of the types
/// that is not below `types`.
pub(crate) fn id_reference_from(types: u32, index: u32, value: &IdData<'_>) -> Option<u32>
    ensures { result ≡ id_reference_from types index (id_value value.now) }
{
    match first_in_ids(index, value) {
        Some(number) => Some(number),
        None => first_in_types(types, value),
    }
}
