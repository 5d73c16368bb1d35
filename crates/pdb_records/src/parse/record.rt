//! Parsers for what follows the kind of a record.

ghost use Rattle.pdb_base.specs.Answer.{Answers};
ghost use Rattle.pdb_base.specs.Memory.{LacksOnlyIf};
ghost use Rattle.pdb_base.specs.Place.{left};
ghost use Rattle.pdb_values.specs.TypeView.{type_value};
ghost use Rattle.pdb_records.specs.Records.{behind_leaf, data_at};
ghost use Rattle.pdb_records.specs.Memory.{HoldsItem, HoldsItemBehind};

use crate::leaf::Leaf;
use crate::parse::array::parse_array;
use crate::parse::counted::{CountWidth, parse_counted};
use crate::parse::list::parse_method_list;
use crate::parse::plain::parse_plain;
use pdb_base::{Error, ParseBuffer, Result};
use pdb_values::{ArgumentList, TypeData};
use std::alloc::Global;

/// Reads what follows the kind in a record of this kind, whose number is `number`.
#[inline(always)]
fn parse_leaf<'t>(
    alloc: Global,
    buffer: &mut ParseBuffer<'t>,
    number: u16,
    leaf: Leaf,
) -> Result<TypeData<'t>>
    ensures read { Answers (λ t. (type_value t, left buffer.new)) result (data_at number leaf (left buffer.old)) }
    ensures memory { LacksOnlyIf result (HoldsItem leaf (left buffer.old)) }
{
    match leaf {
        Leaf::Plain(leaf) => parse_plain(buffer, number, leaf),
        Leaf::ArgumentList => {
            let arguments = parse_counted(alloc, buffer, CountWidth::Bits32)?;
            Ok(TypeData::ArgumentList(ArgumentList { arguments }))
        }
        Leaf::MethodList => Ok(TypeData::MethodList(parse_method_list(alloc, buffer)?)),
        Leaf::Array(strided) => Ok(TypeData::Array(parse_array(alloc, buffer, strided)?)),
    }
}

/// Reads what follows the kind in a record of the kind with this number, except for a list of
/// fields.
///
/// # Errors
/// Returns `UnimplementedTypeKind` if the record kind is not read here or is a list of fields, and
/// otherwise fails as reading the record does.
#[inline(never)]
#[tactic(auto, unfolding(crate::specs::Records::behind_leaf))]
pub fn parse_behind_leaf<'t>(
    alloc: Global,
    buffer: &mut ParseBuffer<'t>,
    number: u16,
) -> Result<TypeData<'t>>
    ensures read { Answers (λ t. (type_value t, left buffer.new)) result (behind_leaf number (left buffer.old)) }
    ensures memory { LacksOnlyIf result (HoldsItemBehind number (left buffer.old)) }
{
    match Leaf::from_number(number) {
        Some(leaf) => parse_leaf(alloc, buffer, number, leaf),
        None => Err(Error::UnimplementedTypeKind(number)),
    }
}
