//! Id records without a list.

ghost use Rattle.std.specs.Prelude.{◌≡◌};
ghost use Rattle.pdb_base.specs.Answer.{Gives};
ghost use Rattle.pdb_base.specs.Place.{left};
ghost use Rattle.pdb_values.specs.IdValue.{id_value};
ghost use Rattle.pdb_records.specs.Ids.{id_row_of, plain_id_at, plain_id_leaf};
ghost use Rattle.pdb_records.specs.IdRows.{function_id_row, member_function_id_row, string_id_row, source_row};
ghost use Rattle.pdb_records.specs.IdRows.{remote_source_row};

use crate::parse::shape::{parse_id_index, parse_some_id, parse_text, parse_type_index};
use pdb_base::{ParseBuffer, Result};
use pdb_space::StringRef;
use pdb_values::constants::{
    LF_FUNC_ID, LF_MFUNC_ID, LF_STRING_ID, LF_UDT_MOD_SRC_LINE, LF_UDT_SRC_LINE,
};
use pdb_values::{
    FunctionId, IdData, MemberFunctionId, StringId, UserDefinedTypeSourceFileRef,
    UserDefinedTypeSourceId,
};

/// The kind of an id record without a list.
#[derive(Clone, Copy)]
pub enum PlainIdLeaf {
    /// A function.
    Function,

    /// A method.
    MemberFunction,

    /// A text.
    String,

    /// Where a type is declared.
    Source,

    /// Where a type is declared, and in which module.
    RemoteSource,
}

impl PlainIdLeaf {
    /// Returns the kind of id record without a list that has this number, or None if there is none.
    pub(crate) fn from_number(number: u16) -> Option<Self>
        ensures { result ≡ plain_id_leaf number }
    {
        match number {
            LF_FUNC_ID => Some(PlainIdLeaf::Function),
            LF_MFUNC_ID => Some(PlainIdLeaf::MemberFunction),
            LF_STRING_ID => Some(PlainIdLeaf::String),
            LF_UDT_SRC_LINE => Some(PlainIdLeaf::Source),
            LF_UDT_MOD_SRC_LINE => Some(PlainIdLeaf::RemoteSource),
            _ => None,
        }
    }
}

/// Reads what follows the kind in an id record without a list.
pub(crate) fn parse_plain_id<'t>(
    buffer: &mut ParseBuffer<'t>,
    number: u16,
    leaf: PlainIdLeaf,
) -> Result<IdData<'t>>
    ensures { Gives (λ id. (id_value id, left buffer.new)) result
        (plain_id_at (id_row_of number leaf) (left buffer.old)) }
{
    match leaf {
        PlainIdLeaf::Function => parse_function_id(buffer, number),
        PlainIdLeaf::MemberFunction => parse_member_function_id(buffer, number),
        PlainIdLeaf::String => parse_string_id(buffer, number),
        PlainIdLeaf::Source => parse_source(buffer),
        PlainIdLeaf::RemoteSource => parse_remote_source(buffer),
    }
}

/// Reads the id of a function.
#[tactic(auto, unfolding(crate::specs::Row::row, crate::specs::IdRows::function_id_row))]
fn parse_function_id<'t>(buffer: &mut ParseBuffer<'t>, leaf: u16) -> Result<IdData<'t>>
    ensures { Gives (λ id. (id_value id, left buffer.new)) result
        (plain_id_at (function_id_row leaf) (left buffer.old)) }
{
    Ok(IdData::Function(FunctionId {
        scope: parse_some_id(buffer)?,
        function_type: parse_type_index(buffer)?,
        name: parse_text(buffer, leaf)?,
    }))
}

/// Reads the id of a method.
#[tactic(auto, unfolding(crate::specs::Row::row, crate::specs::IdRows::member_function_id_row))]
fn parse_member_function_id<'t>(buffer: &mut ParseBuffer<'t>, leaf: u16) -> Result<IdData<'t>>
    ensures { Gives (λ id. (id_value id, left buffer.new)) result
        (plain_id_at (member_function_id_row leaf) (left buffer.old)) }
{
    Ok(IdData::MemberFunction(MemberFunctionId {
        parent: parse_type_index(buffer)?,
        function_type: parse_type_index(buffer)?,
        name: parse_text(buffer, leaf)?,
    }))
}

/// Reads the id of a text.
#[tactic(auto, unfolding(crate::specs::Row::row, crate::specs::IdRows::string_id_row))]
fn parse_string_id<'t>(buffer: &mut ParseBuffer<'t>, leaf: u16) -> Result<IdData<'t>>
    ensures { Gives (λ id. (id_value id, left buffer.new)) result (plain_id_at (string_id_row leaf) (left buffer.old)) }
{
    Ok(IdData::String(StringId {
        substrings: parse_some_id(buffer)?,
        name: parse_text(buffer, leaf)?,
    }))
}

/// Reads where a type is declared.
#[tactic(auto, unfolding(crate::specs::Row::row, crate::specs::IdRows::source_row))]
fn parse_source<'t>(buffer: &mut ParseBuffer<'t>) -> Result<IdData<'t>>
    ensures { Gives (λ id. (id_value id, left buffer.new)) result (plain_id_at source_row (left buffer.old)) }
{
    Ok(IdData::UserDefinedTypeSource(UserDefinedTypeSourceId {
        udt: parse_type_index(buffer)?,
        source_file: UserDefinedTypeSourceFileRef::Local(parse_id_index(buffer)?),
        line: buffer.parse_u32()?,
    }))
}

/// Reads where a type is declared, and in which module.
#[tactic(auto, unfolding(crate::specs::Row::row, crate::specs::IdRows::remote_source_row))]
fn parse_remote_source<'t>(buffer: &mut ParseBuffer<'t>) -> Result<IdData<'t>>
    ensures { Gives (λ id. (id_value id, left buffer.new)) result (plain_id_at remote_source_row (left buffer.old)) }
{
    let udt = parse_type_index(buffer)?;
    let file = StringRef(buffer.parse_u32()?);
    let line = buffer.parse_u32()?;
    let module = buffer.parse_u16()?;
    Ok(IdData::UserDefinedTypeSource(UserDefinedTypeSourceId {
        udt,
        source_file: UserDefinedTypeSourceFileRef::Remote(module, file),
        line,
    }))
}
