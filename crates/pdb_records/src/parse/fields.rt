//! Lists of fields.

ghost use Rattle.std.specs.Prelude.{◌≡◌, ◌==◌, [], Ok, IsTrue, IfOk};
ghost use Rattle.pdb_base.specs.Answer.{Answers, Gives};
ghost use Rattle.pdb_base.specs.Memory.{LacksOnlyIf};
ghost use Rattle.pdb_base.specs.Place.{left};
ghost use Rattle.pdb_records.specs.Row.{row};
ghost use Rattle.pdb_values.specs.TypeView.{fields_value, type_value};
ghost use Rattle.pdb_values.specs.TypeValue as values;
ghost use Rattle.pdb_records.specs.Fields.{field_list_at, list_continuation_at};
ghost use Rattle.pdb_records.specs.Rows.{continuation_row};
ghost use Rattle.pdb_records.specs.Memory.{HoldsField};

use crate::parse::array::skip_padding;
use crate::parse::record::parse_behind_leaf;
use crate::parse::shape::parse_type_index;
use pdb_base::{ParseBuffer, Result, TypeIndex};
use pdb_values::constants::LF_INDEX;
use pdb_values::{FieldList, TypeData};
use std::alloc::Global;

/// Reads the index of the list that continues a list of fields. Two bytes of padding, whatever they
/// are, come before it.
#[inline(always)]
#[tactic(auto, unfolding(crate::specs::Row::row, crate::specs::Rows::continuation_row))]
pub(crate) fn parse_continuation(buffer: &mut ParseBuffer<'_>) -> Result<TypeIndex>
    ensures { Gives (λ index. (index, left buffer.new)) result (row continuation_row (left buffer.old)) }
{
    buffer.parse_u16()?;
    parse_type_index(buffer)
}

/// Returns a list of these fields, with the index of the list that continues it, if there is one.
fn field_list<'t>(fields: Vec<TypeData<'t>>, continuation: Option<TypeIndex>) -> TypeData<'t>
    ensures { type_value result ≡ values.field_list (fields_value fields.entry.items) continuation }
{
    TypeData::FieldList(FieldList {
        fields,
        continuation,
    })
}

/// The size in bytes of a short entry, by which memory is reserved for those that are left.
const ENTRY_SIZE: usize = 16;

/// Reads entries to the end of the bytes, and appends their fields to `fields` if `keep` holds.
/// Returns the index of the list that continues theirs, if there is one.
#[inline(always)]
pub(crate) fn parse_entries<'t>(
    alloc: Global,
    buffer: &mut ParseBuffer<'t>,
    fields: &mut Vec<TypeData<'t>>,
    keep: bool,
) -> Result<Option<TypeIndex>>
    requires { fields.old.items ≡ [] }
    ensures read { Answers (λ next. (next, left buffer.new)) result (list_continuation_at (left buffer.old)) }
    ensures kept { IsTrue keep → IfOk result (λ next. field_list_at (left buffer.old)
        ≡ Ok (values.field_list (fields_value fields.new.items) next, left buffer.new)) }
    ensures memory { LacksOnlyIf result (HoldsField (left buffer.old)) }
{
    let mut continuation = None;
    'entries: while !buffer.is_empty() {
        let number = buffer.parse_u16()?;
        if number == LF_INDEX {
            continuation = Some(parse_continuation(buffer)?);
            skip_padding(buffer)?;
            continue;
        }
        let field = parse_behind_leaf(alloc, buffer, number)?;
        skip_padding(buffer)?;
        if keep {
            if fields.len() == fields.capacity() {
                fields.reserve(1 + buffer.len() / ENTRY_SIZE)?;
            }
            fields.push_reserved(field);
        } else {
            drop(field);
        }
    }
    Ok(continuation)
}

/// Reads entries to the end of the bytes, and returns them as a list of fields.
#[inline(never)]
pub fn parse_field_list<'t>(alloc: Global, buffer: &mut ParseBuffer<'t>) -> Result<TypeData<'t>>
    ensures read { Answers (λ t. (type_value t, left buffer.new)) result (field_list_at (left buffer.old)) }
    ensures memory { LacksOnlyIf result (HoldsField (left buffer.old)) }
{
    let mut fields = Vec::new(alloc);
    let continuation = parse_entries(alloc, buffer, &mut fields, true)?;
    Ok(field_list(fields, continuation))
}
