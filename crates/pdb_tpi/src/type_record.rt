//! The values of the items of the table of types.

ghost use Rattle.std.specs.Prelude.{◌≡◌, ℕ, ◌<◌, ◌≤◌, List, length, Err, IfOk};
ghost use Rattle.pdb_base.specs.declared.error.Error.TheVariants.{UnexpectedEof};
ghost use Rattle.pdb_base.specs.Refusal.{Refusal};
ghost use Rattle.pdb_base.specs.Answer.{Answers, Gives};
ghost use Rattle.pdb_base.specs.Memory.{LacksOnlyIf};
ghost use Rattle.pdb_values.specs.Primitive.{first_record};
ghost use Rattle.pdb_values.specs.TypeValue.{TypeValue};
ghost use Rattle.pdb_values.specs.TypeView.{primitive_of, type_value};
ghost use Rattle.pdb_records.specs.Grammar.{IsRecord, NoRecord};
ghost use Rattle.pdb_records.specs.Memory.{NeedsMemory, IsFalseCount};
ghost use Rattle.pdb_records.specs.Short.{IsShort};
ghost use Rattle.pdb_records.specs.Assigned.{SaysAssigned, ShowsOrLacks, RefusesOrLacks};
ghost use Rattle.pdb_tpi.specs.Item.{item_bytes, index_of};
ghost use Rattle.pdb_tpi.specs.Record.{type_of};

use crate::item::Item;
use pdb_base::{ParseBuffer, Result, TypeIndex};
use pdb_records::{parse_behind_leaf, parse_field_list};
use pdb_values::constants::LF_FIELDLIST;
use pdb_values::{FIRST_RECORD, TypeData, type_data_for_primitive};
use std::alloc::Global;

impl<'t> Item<'t, TypeIndex> {
    /// Parses the type: returns the primitive type that the index names if that is below 0x1000,
    /// and otherwise the value of the record. Names and the descriptors of a virtual table's shape
    /// borrow from the table, also those of records within it; memory is taken for lists alone.
    ///
    /// # Errors
    /// Returns `TypeNotFound` for an index below 0x1000 that names no type.
    ///
    /// For any other index, fails with the first fault of the record: `UnexpectedEof` if its bytes
    /// end before a field does, or if an array has bytes behind its dimensions and their padding;
    /// `UnexpectedNumericPrefix` if a number of variable width has an unknown prefix;
    /// `UnimplementedTypeKind` with the number of the record kind if that is not read here, for a
    /// list of fields within one, and for a pointer whose kind or mode is unknown; or
    /// `UnimplementedFeature` for an array's dimension above 0xffffffff.
    ///
    /// Fails with `OutOfMemory` if the allocation for a list fails. It is made only once the bytes
    /// are known to hold the list's first item. So an argument list whose count says more than the
    /// bytes hold gives `UnexpectedEof`, also as the first entry of a list of fields.
    #[inline(always)]
    #[tactic(auto, using(crate::proofs::RecordLemmas::primitive_no_want, crate::proofs::RecordLemmas::gives_no_want), unfolding(crate::specs::Record::type_of))]
    pub fn parse(&self, alloc: Global) -> Result<TypeData<'t>>
        ensures read { Answers type_value result (type_of (index_of self.now).0 (item_bytes self.now)) }
        ensures primitive { (index_of self.now).0 < first_record →
            Gives type_value result (primitive_of (index_of self.now).0) }
        ensures answers { first_record ≤ (index_of self.now).0 →
            SaysAssigned type_value (IsRecord (item_bytes self.now)) (NoRecord (item_bytes self.now)) result }
        ensures answered { first_record ≤ (index_of self.now).0 → (value : TypeValue) (rest : List ℕ) →
            IsRecord (item_bytes self.now) value rest → ShowsOrLacks type_value value result }
        ensures refused { first_record ≤ (index_of self.now).0 → (refusal : Refusal) →
            NoRecord (item_bytes self.now) refusal → RefusesOrLacks refusal result }
        ensures memory { LacksOnlyIf result ((first_record ≤ (index_of self.now).0)
            × NeedsMemory (item_bytes self.now)) }
        ensures cut { first_record ≤ (index_of self.now).0 →
            IsFalseCount (item_bytes self.now) → result ≡ Err UnexpectedEof }
        ensures short { IfOk result (λ value. IsShort (length (item_bytes self.now)) (type_value value)) }
    {
        let index = self.index;
        if index.0 < FIRST_RECORD {
            return type_data_for_primitive(index);
        }
        // As `parse_type_data` does, but with no function in between whose result would be copied.
        let mut buffer = ParseBuffer::from(self.bytes);
        let kind = buffer.parse_u16()?;
        if kind == LF_FIELDLIST {
            return parse_field_list(alloc, &mut buffer);
        }
        parse_behind_leaf(alloc, &mut buffer, kind)
    }
}
