//! Type records.

ghost use Rattle.std.specs.Prelude.{◌≡◌, ℕ, List, length, Err, IfOk};
ghost use Rattle.pdb_base.specs.declared.error.Error.TheVariants.{UnexpectedEof};
ghost use Rattle.pdb_base.specs.Refusal.{Refusal};
ghost use Rattle.pdb_base.specs.Answer.{Answers};
ghost use Rattle.pdb_base.specs.Memory.{LacksOnlyIf};
ghost use Rattle.pdb_base.specs.Place.{left};
ghost use Rattle.pdb_values.specs.TypeValue.{TypeValue};
ghost use Rattle.pdb_values.specs.TypeView.{type_value};
ghost use Rattle.pdb_records.specs.Fields.{record_at, type_record};
ghost use Rattle.pdb_records.specs.Grammar.{IsRecord, NoRecord};
ghost use Rattle.pdb_records.specs.Memory.{NeedsMemory, IsFalseCount};
ghost use Rattle.pdb_records.specs.Short.{IsShort};
ghost use Rattle.pdb_records.specs.Assigned.{SaysAssigned, ShowsOrLacks, RefusesOrLacks};

use crate::parse::fields::parse_field_list;
use crate::parse::record::parse_behind_leaf;
use pdb_base::{ParseBuffer, Result};
use pdb_values::TypeData;
use pdb_values::constants::LF_FIELDLIST;
use std::alloc::Global;

/// Reads the type record at the start of a buffer.
#[inline(always)]
#[tactic(auto, unfolding(crate::specs::Fields::record_at))]
fn parse_record<'t>(alloc: Global, buffer: &mut ParseBuffer<'t>) -> Result<TypeData<'t>>
    ensures read { Answers (λ t. (type_value t, left buffer.new)) result (record_at (left buffer.old)) }
    ensures memory { LacksOnlyIf result (NeedsMemory (left buffer.old)) }
{
    let number = buffer.parse_u16()?;
    if number == LF_FIELDLIST {
        parse_field_list(alloc, buffer)
    } else {
        parse_behind_leaf(alloc, buffer, number)
    }
}

/// Reads a type record: the bytes of an item of the table of types, from its kind on. Names and the
/// descriptors of a virtual table's shape borrow from the bytes, also those of records within it;
/// memory is taken for lists alone.
///
/// The layouts are those of Microsoft's cvinfo.h, of the record kinds that it names `LF_CLASS` and
/// so on. The records within a list of fields are read one level deep. Bytes behind the last field
/// of a record are ignored, except in arrays, lists of methods and lists of fields, which reach to
/// the end.
///
/// # Errors
/// Fails with the first fault of the record: `UnexpectedEof` if the bytes end before a field does,
/// or if an array has bytes behind its dimensions and their padding; `UnexpectedNumericPrefix` if a
/// number of variable width has an unknown prefix; `UnimplementedTypeKind` with the number of the
/// record kind if that is not read here, for a list of fields within one, and for a pointer whose
/// kind or mode is unknown; or `UnimplementedFeature` for an array's dimension above 0xffffffff.
///
/// Fails with `OutOfMemory` if the allocation for a list fails. It is made only once the bytes are
/// known to hold the list's first item. So an argument list whose count says more than the bytes
/// hold gives `UnexpectedEof`, also as the first entry of a list of fields.
#[inline(always)]
pub fn parse_type_data<'t>(alloc: Global, bytes: &'t [u8]) -> Result<TypeData<'t>>
    ensures read { Answers type_value result (type_record bytes.now) }
    ensures answers { SaysAssigned type_value (IsRecord bytes.now) (NoRecord bytes.now) result }
    ensures answered { (value : TypeValue) (rest : List ℕ) →
        IsRecord bytes.now value rest → ShowsOrLacks type_value value result }
    ensures refused { (refusal : Refusal) → NoRecord bytes.now refusal → RefusesOrLacks refusal result }
    ensures memory { LacksOnlyIf result (NeedsMemory bytes.now) }
    ensures cut { IsFalseCount bytes.now → result ≡ Err UnexpectedEof }
    ensures short { IfOk result (λ value. IsShort (length bytes.now) (type_value value)) }
{
    let mut buffer = ParseBuffer::from(bytes);
    parse_record(alloc, &mut buffer)
}
