//! The fields of a class, a union or an enumeration, through all lists that hold them.

ghost use Rattle.std.specs.Prelude.{◌≡◌, ◌≢◌, ◌+◌, ◌*◌, ◌≤◌, Err, IfOk, length, map};
ghost use Rattle.std.specs.List.{sum_by};
ghost use Rattle.pdb_base.specs.declared.error.Error.TheVariants.{OutOfMemory};
ghost use Rattle.pdb_base.specs.Answer.{Answers, Gives};
ghost use Rattle.pdb_base.specs.Count.{calls_of, after_calls};
ghost use Rattle.pdb_base.specs.Memory.{LacksOnlyIf};
ghost use Rattle.pdb_values.specs.TypeView.{type_value};
ghost use Rattle.pdb_tpi.specs.Finder.{IsLearned, find_of, item_of, reads_of, reads_from};
ghost use Rattle.pdb_tpi.specs.Item.{item_bytes, index_of};
ghost use Rattle.pdb_tpi.specs.LookUp.{answers, reads_in};
ghost use Rattle.pdb_tpi.specs.LookedUp.{ListNeedsMemory, OneNeedsMemory, lists_looked_up};
ghost use Rattle.pdb_tpi.specs.Chain.{fields_of, list_of, as_field_list, listed_value};

use crate::Type;
use crate::finder::ItemFinder;
use crate::open_table::OpenTable;
use pdb_base::{Count, Error, Result, TypeIndex};
use pdb_values::constants::LF_FIELDLIST;
use pdb_values::{FieldList, TypeData};
use std::alloc::Global;

/// Returns the list of fields that a type is.
///
/// # Errors
/// Returns `UnimplementedTypeKind` with this kind if the type is not a list of fields.
#[tactic(auto, using(pdb_values::proofs::lemmas::Fields::listed))]
fn list_in<'t>(value: TypeData<'t>, kind: u16) -> Result<FieldList<'t>>
    ensures { Gives listed_value result (as_field_list kind (type_value value.entry)) }
{
    match value {
        TypeData::FieldList(list) => Ok(list),
        _ => Err(Error::UnimplementedTypeKind(kind)),
    }
}

/// Where types are looked up by their indexes.
#[derive(Clone, Copy)]
pub(crate) enum Types<'f, 't> {
    /// Among those that a finder knows.
    Known(&'f ItemFinder<'t, TypeIndex>),
    /// In the whole table.
    All(&'t OpenTable<TypeIndex>),
}

impl<'f, 't> Types<'f, 't> {
    /// Looks up the type of an index, and counts the lengths that are read.
    fn look_up(self, index: TypeIndex, count: &mut Count) -> Result<Type<'t>>
        ensures item { Gives item_bytes result (answers self.entry index.0) }
        ensures index { IfOk result (λ item. index_of item ≡ index) }
        ensures counted { calls_of count.new ≡ after_calls (reads_in self.entry index.0) (calls_of count.old) }
    {
        match self {
            Types::Known(finder) => finder.find_counted(index, count),
            Types::All(table) => table.item_counted(index, count),
        }
    }
}

/// Looks up a list of fields by its index, parses it, and counts the lengths that are read.
#[tactic(auto, using(crate::proofs::LookUpLemmas::answers_no_want, crate::proofs::LookUpLemmas::passes_no_want), unfolding(crate::specs::Chain::list_of))]
fn field_list<'t>(
    types: Types<'_, 't>,
    alloc: Global,
    index: TypeIndex,
    count: &mut Count,
) -> Result<FieldList<'t>>
    ensures list { Answers listed_value result (list_of (answers types.entry) index.0) }
    ensures counted { calls_of count.new ≡ after_calls (reads_in types.entry index.0) (calls_of count.old) }
    ensures memory { LacksOnlyIf result (ListNeedsMemory (answers types.entry) index.0) }
{
    let item = types.look_up(index, count)?;
    let kind = item.raw_kind();
    if kind != LF_FIELDLIST {
        return Err(Error::UnimplementedTypeKind(kind));
    }
    let value = item.parse(alloc)?;
    list_in(value, kind)
}

/// Returns the fields of a list and of the lists that continue it, moved out of them, and counts the
/// lengths that are read.
fn join_fields<'t>(
    types: Types<'_, 't>,
    alloc: Global,
    index: TypeIndex,
    count: &mut Count,
) -> Result<Vec<TypeData<'t>>>
    ensures fields { Answers (λ fields. map type_value fields.items) result (fields_of (answers types.entry) index.0) }
    ensures counted { result ≢ Err OutOfMemory → calls_of count.new ≡
        after_calls (sum_by (reads_in types.entry) (lists_looked_up (answers types.entry) index.0))
        (calls_of count.old) }
    ensures few { calls_of count.new ≤
        calls_of count.old + sum_by (reads_in types.entry) (lists_looked_up (answers types.entry) index.0) }
    ensures memory { LacksOnlyIf result
        (OneNeedsMemory (answers types.entry) (lists_looked_up (answers types.entry) index.0)) }
{
    let list = field_list(types, alloc, index, count)?;
    let mut fields = list.fields;
    let mut continuation = list.continuation;
    let mut above = index;
    while let Some(next) = continuation {
        if next >= above {
            return Err(Error::UnimplementedFeature("field list continuation not below its list"));
        }
        let mut list = field_list(types, alloc, next, count)?;
        fields.append(&mut list.fields)?;
        continuation = list.continuation;
        above = next;
    }
    Ok(fields)
}

impl<'t> ItemFinder<'t, TypeIndex> {
    /// Returns the fields of a list and of the lists that continue it: those of the list with this
    /// index first, and then those of its continuations, each of which has an index below the one
    /// before. Counts the lengths that are read, which are eight at most for each list.
    ///
    /// The fields are moved out of their lists and not copied. Names borrow from the table.
    ///
    /// # Errors
    /// Fails with the first error along the lists, tried in this order for each list: those of
    /// `find`; `UnimplementedTypeKind` with the item's kind if the item is not a list of fields
    /// (LF_FIELDLIST); those of `parse`; and `UnimplementedFeature` if the list continues in one
    /// whose index is not below its own. Fails with `OutOfMemory` if an allocation fails, which is
    /// made only for a list that has a field.
    pub fn fields_counted(
        &self,
        alloc: Global,
        index: TypeIndex,
        count: &mut Count,
    ) -> Result<Vec<TypeData<'t>>>
        ensures fields { Answers (λ fields. map type_value fields.items) result
            (fields_of (find_of self.now.table self.now.known) index.0) }
        ensures counted { let lists = lists_looked_up (find_of self.now.table self.now.known) index.0 in
            result ≢ Err OutOfMemory → calls_of count.new ≡
            after_calls (sum_by (reads_of self.now.table self.now.known) lists) (calls_of count.old) }
        ensures few { calls_of count.new ≤ calls_of count.old
            + 8 * length (lists_looked_up (find_of self.now.table self.now.known) index.0) }
        ensures memory { let look = find_of self.now.table self.now.known in
            LacksOnlyIf result (OneNeedsMemory look (lists_looked_up look index.0)) }
    {
        join_fields(Types::Known(self), alloc, index, count)
    }

    /// Returns the fields of a list and of the lists that continue it.
    ///
    /// # Errors
    /// Fails as `fields_counted` does.
    pub fn fields(&self, alloc: Global, index: TypeIndex) -> Result<Vec<TypeData<'t>>>
        ensures fields { Answers (λ fields. map type_value fields.items) result
            (fields_of (find_of self.now.table self.now.known) index.0) }
        ensures memory { let look = find_of self.now.table self.now.known in
            LacksOnlyIf result (OneNeedsMemory look (lists_looked_up look index.0)) }
    {
        self.fields_counted(alloc, index, &mut Count::new())
    }
}

impl OpenTable<TypeIndex> {
    /// Returns the fields of a list and of the lists that continue it, wherever in the table they
    /// are. Counts the lengths that are read, which are eight at most for each list once all blocks up
    /// to that of the index are learned.
    ///
    /// # Errors
    /// Fails as `ItemFinder::fields_counted` does, with the errors of `OpenTable::item` in place of
    /// those of `ItemFinder::find`.
    pub fn fields_counted(
        &self,
        alloc: Global,
        index: TypeIndex,
        count: &mut Count,
    ) -> Result<Vec<TypeData<'_>>>
        ensures fields { Answers (λ fields. map type_value fields.items) result
            (fields_of (item_of self.now.table) index.0) }
        ensures counted { let lists = lists_looked_up (item_of self.now.table) index.0 in
            result ≢ Err OutOfMemory → calls_of count.new ≡
            after_calls (sum_by (reads_from self.now.table self.now.known) lists) (calls_of count.old) }
        ensures few { IsLearned self.now.table self.now.known index.0 → calls_of count.new ≤
            calls_of count.old + 8 * length (lists_looked_up (item_of self.now.table) index.0) }
        ensures memory { LacksOnlyIf result
            (OneNeedsMemory (item_of self.now.table) (lists_looked_up (item_of self.now.table) index.0)) }
    {
        join_fields(Types::All(self), alloc, index, count)
    }

    /// Returns the fields of a list and of the lists that continue it, wherever in the table they
    /// are.
    ///
    /// # Errors
    /// Fails as `fields_counted` does.
    pub fn fields(&self, alloc: Global, index: TypeIndex) -> Result<Vec<TypeData<'_>>>
        ensures fields { Answers (λ fields. map type_value fields.items) result
            (fields_of (item_of self.now.table) index.0) }
        ensures memory { LacksOnlyIf result
            (OneNeedsMemory (item_of self.now.table) (lists_looked_up (item_of self.now.table) index.0)) }
    {
        self.fields_counted(alloc, index, &mut Count::new())
    }
}
