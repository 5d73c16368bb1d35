//! The values of the items of the table of ids.

ghost use Rattle.std.specs.Prelude.{◌≡◌, ◌*◌, ◌≤◌, ℕ, List, length, Err, IfOk};
ghost use Rattle.pdb_base.specs.declared.error.Error.TheVariants.{UnexpectedEof};
ghost use Rattle.pdb_base.specs.Refusal.{Refusal};
ghost use Rattle.pdb_base.specs.Answer.{Answers};
ghost use Rattle.pdb_base.specs.Memory.{LacksOnlyIf};
ghost use Rattle.pdb_values.specs.IdValue.{IdValue, id_value};
ghost use Rattle.pdb_records.specs.Ids.{IsId, NoId};
ghost use Rattle.pdb_records.specs.IdLists.{item_count, HoldsIdItem, IsCutIdList};
ghost use Rattle.pdb_records.specs.Assigned.{SaysAssigned, ShowsOrLacks, RefusesOrLacks};
ghost use Rattle.pdb_tpi.specs.Item.{item_bytes};
ghost use Rattle.pdb_tpi.specs.Record.{id_of};

use crate::item::Item;
use pdb_base::{IdIndex, Result};
use pdb_records::parse_id_data;
use pdb_values::IdData;
use std::alloc::Global;

impl<'t> Item<'t, IdIndex> {
    /// Parses the record of the id, whatever its index. Names borrow from the table; memory is
    /// taken for lists alone.
    ///
    /// # Errors
    /// Fails with the first fault of the record: `UnexpectedEof` if its bytes end before a field
    /// does, or hold fewer items than a list's count says; or `UnimplementedTypeKind` with the
    /// number of the record kind if that is not read here. Fails with `OutOfMemory` if the
    /// allocation for a list that the bytes hold fails.
    #[tactic(auto, unfolding(crate::specs::Record::id_of))]
    pub fn parse(&self, alloc: Global) -> Result<IdData<'t>>
        ensures read { Answers id_value result (id_of (item_bytes self.now)) }
        ensures answers { SaysAssigned id_value (IsId (item_bytes self.now)) (NoId (item_bytes self.now)) result }
        ensures answered { (value : IdValue) (rest : List ℕ) →
            IsId (item_bytes self.now) value rest → ShowsOrLacks id_value value result }
        ensures refused { (refusal : Refusal) → NoId (item_bytes self.now) refusal → RefusesOrLacks refusal result }
        ensures memory { LacksOnlyIf result (HoldsIdItem (item_bytes self.now)) }
        ensures cut { IsCutIdList (item_bytes self.now) → result ≡ Err UnexpectedEof }
        ensures short { IfOk result (λ id. 2 * item_count (id_value id) ≤ length (item_bytes self.now)) }
    {
        parse_id_data(alloc, self.bytes)
    }
}
