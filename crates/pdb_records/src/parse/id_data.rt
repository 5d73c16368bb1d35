//! Id records.

ghost use Rattle.std.specs.Prelude.{◌≡◌, ◌*◌, ◌≤◌, ℕ, List, length, Err, IfOk};
ghost use Rattle.pdb_base.specs.declared.error.Error.TheVariants.{UnexpectedEof};
ghost use Rattle.pdb_base.specs.Refusal.{Refusal};
ghost use Rattle.pdb_base.specs.Answer.{Answers};
ghost use Rattle.pdb_base.specs.Memory.{LacksOnlyIf};
ghost use Rattle.pdb_base.specs.Place.{left};
ghost use Rattle.pdb_values.specs.IdValue.{IdValue, id_value};
ghost use Rattle.pdb_records.specs.Ids.{id_data_at, behind_id_leaf, id_at, id_record, IsId, NoId};
ghost use Rattle.pdb_records.specs.IdLists.{item_count, HoldsIdItem, IsCutIdList, SaysIdItem};
ghost use Rattle.pdb_records.specs.Assigned.{SaysAssigned, ShowsOrLacks, RefusesOrLacks};

use crate::id_leaf::IdLeaf;
use crate::parse::counted::{CountWidth, parse_counted};
use crate::parse::id_plain::parse_plain_id;
use pdb_base::{Error, ParseBuffer, Result};
use pdb_values::{BuildInfoId, IdData, StringListId};
use std::alloc::Global;

/// Reads what follows the kind in an id record of this kind, whose number is `number`.
fn parse_id_leaf<'t>(
    alloc: Global,
    buffer: &mut ParseBuffer<'t>,
    number: u16,
    leaf: IdLeaf,
) -> Result<IdData<'t>>
    ensures read { Answers (λ id. (id_value id, left buffer.new)) result (id_data_at number leaf (left buffer.old)) }
    ensures memory { LacksOnlyIf result (SaysIdItem (id_data_at number leaf (left buffer.old))) }
{
    match leaf {
        IdLeaf::Plain(leaf) => parse_plain_id(buffer, number, leaf),
        IdLeaf::BuildInfo => {
            let arguments = parse_counted(alloc, buffer, CountWidth::Bits16)?;
            Ok(IdData::BuildInfo(BuildInfoId { arguments }))
        }
        IdLeaf::StringList => {
            let substrings = parse_counted(alloc, buffer, CountWidth::Bits32)?;
            Ok(IdData::StringList(StringListId { substrings }))
        }
    }
}

/// Reads what follows the kind in an id record of the kind with this number.
///
/// # Errors
/// Returns `UnimplementedTypeKind` if no id record of this kind is read here, and otherwise fails
/// as reading the record does.
#[tactic(auto, unfolding(crate::specs::Ids::behind_id_leaf))]
fn parse_behind_id_leaf<'t>(
    alloc: Global,
    buffer: &mut ParseBuffer<'t>,
    number: u16,
) -> Result<IdData<'t>>
    ensures read { Answers (λ id. (id_value id, left buffer.new)) result (behind_id_leaf number (left buffer.old)) }
    ensures memory { LacksOnlyIf result (SaysIdItem (behind_id_leaf number (left buffer.old))) }
{
    match IdLeaf::from_number(number) {
        Some(leaf) => parse_id_leaf(alloc, buffer, number, leaf),
        None => Err(Error::UnimplementedTypeKind(number)),
    }
}

/// Reads the id record at the start of a buffer.
#[tactic(auto, unfolding(crate::specs::Ids::id_at))]
fn parse_id_record<'t>(alloc: Global, buffer: &mut ParseBuffer<'t>) -> Result<IdData<'t>>
    ensures read { Answers (λ id. (id_value id, left buffer.new)) result (id_at (left buffer.old)) }
    ensures memory { LacksOnlyIf result (SaysIdItem (id_at (left buffer.old))) }
{
    let number = buffer.parse_u16()?;
    parse_behind_id_leaf(alloc, buffer, number)
}

/// Reads an id record: the bytes of an item of the table of ids, from its kind on. Names borrow
/// from the bytes; memory is taken for lists alone.
///
/// The layouts are those of Microsoft's cvinfo.h, of the record kinds that it names `LF_FUNC_ID`
/// and so on. A scope, or the list of a text's first parts, is None if its number is 0. Bytes
/// behind the last field of a record are ignored.
///
/// # Errors
/// Fails with the first fault of the record: `UnexpectedEof` if the bytes end before a field does,
/// or hold fewer items than a list's count says; or `UnimplementedTypeKind` with the number of the
/// record kind if that is not read here. Fails with `OutOfMemory` if the allocation for a list that
/// the bytes hold fails.
pub fn parse_id_data<'t>(alloc: Global, bytes: &'t [u8]) -> Result<IdData<'t>>
    ensures read { Answers id_value result (id_record bytes.now) }
    ensures answers { SaysAssigned id_value (IsId bytes.now) (NoId bytes.now) result }
    ensures answered { (value : IdValue) (rest : List ℕ) →
        IsId bytes.now value rest → ShowsOrLacks id_value value result }
    ensures refused { (refusal : Refusal) → NoId bytes.now refusal → RefusesOrLacks refusal result }
    ensures memory { LacksOnlyIf result (HoldsIdItem bytes.now) }
    ensures cut { IsCutIdList bytes.now → result ≡ Err UnexpectedEof }
    ensures short { IfOk result (λ id. 2 * item_count (id_value id) ≤ length bytes.now) }
{
    let mut buffer = ParseBuffer::from(bytes);
    parse_id_record(alloc, &mut buffer)
}
