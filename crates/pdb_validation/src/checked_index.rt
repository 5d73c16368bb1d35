//! Indexes of types and of ids, and for what the record of each is checked.

ghost use Rattle.std.specs.Prelude.{◌≡◌, ℕ, List, Option, Ok, Err};
ghost use Rattle.std.specs.Option.{option_map};
ghost use Rattle.pdb_base.specs.Answer.{Answer, Answers, Gives};
ghost use Rattle.pdb_base.specs.Refusal.{refusal_of};
ghost use Rattle.pdb_base.specs.declared.error.Error.{Error};
ghost use Rattle.pdb_tpi.specs.Item.{item_bytes, index_of};
ghost use Rattle.pdb_tpi.specs.Table.{Table};
ghost use Rattle.pdb_values.specs.TypeView.{type_value};
ghost use Rattle.pdb_validation.specs.Records.{id_inconsistency, is_not_read, type_inconsistency};
ghost use Rattle.pdb_validation.specs.Tables.{checked_id, checked_type, continued_in, continues_at, fail_with};
ghost use Rattle.pdb_validation.specs.Tables.{read_in, refusal_in, unless_unread};
ghost use Rattle.pdb_validation.specs.declared.finding.Part.{Part};
ghost use Rattle.pdb_validation.specs.declared.finding.Part.TheVariants as parts;
ghost use Rattle.pdb_validation.specs.declared.inconsistency.Inconsistency.{Inconsistency};
ghost use Rattle.pdb_validation.specs.declared.inconsistency.Inconsistency.TheVariants.{ReferenceNotBelow};

use crate::finding::Part;
use crate::id_references::id_reference_from;
use crate::inconsistency::Inconsistency;
use crate::references::first_reference_from;
use pdb_base::{Error, IdIndex, ItemIndex, Result, TypeIndex};
use pdb_file::{ID_STREAM, TYPE_STREAM};
use pdb_tpi::constants::{LF_FIELDLIST, LF_POINTER};
use pdb_tpi::{Item, OpenTable};
use pdb_values::TypeData;
use std::alloc::Global;

/// An index of a record that is checked: that of a type, or of an id.
pub trait CheckedIndex: ItemIndex {
    ghost PART: { Part };

    /// The part that the table of such records is.
    const PART: Part;

    ghost STREAM: { ℕ };

    /// The number of the stream that has the table.
    const STREAM: u32;

    // What is inconsistent in the bytes of the record of an index, where types have indexes below a number.
    ghost wrong: { ℕ → ℕ → List ℕ → Option Inconsistency };

    // What the bytes of the record of an index of a table are by the definitions.
    ghost checked: { Table → ℕ → List ℕ → Answer (Unit {0}) };

    /// Returns what is inconsistent in a record, where types have indexes below `types`.
    fn inconsistency(
        alloc: Global,
        item: &Item<'_, Self>,
        types: u32,
    ) -> Result<Option<Inconsistency>>
        ensures { Answers (λ what. what) result
            (Ok (wrong types (Self.number (index_of item.now)) (item_bytes item.now))) };

    /// Returns the error of a record of a table, if it has one.
    fn error(alloc: Global, table: &OpenTable<Self>, item: &Item<'_, Self>) -> Result<Option<Error>>
        ensures { Answers (option_map refusal_of) result
            (Ok (refusal_in (checked table.now.table (Self.number (index_of item.now)) (item_bytes item.now)))) };
}

/// Returns whether an error is for the kind of a record alone, which is then not read.
fn is_not_read(kind: u16, error: &Error) -> bool
    ensures { result ≡ is_not_read kind (refusal_of error.now) }
{
    match error {
        Error::UnimplementedTypeKind(other) => {
            *other == kind && kind != LF_POINTER && kind != LF_FIELDLIST
        }
        _ => false,
    }
}

/// Returns the inconsistency of a reference that is not below an index, if there is one.
fn not_below(index: Option<u32>) -> Option<Inconsistency>
    ensures { result ≡ option_map (λ index. ReferenceNotBelow index) index }
{
    index.map(Inconsistency::ReferenceNotBelow)
}

/// Checks that a field list is continued by a list below it.
#[tactic(auto, unfolding(crate::specs::Tables::continues_at))]
fn check_continuation(types: &OpenTable<TypeIndex>, index: TypeIndex, next: TypeIndex) -> Result<()>
    ensures { Gives (λ done. done) result (continues_at types.now.table index.0 next.0) }
{
    if next.0 >= index.0 {
        return Err(Error::UnimplementedFeature("field list continuation not below its list"));
    }
    let list = types.item(next)?;
    if list.raw_kind() != LF_FIELDLIST {
        return Err(Error::UnimplementedTypeKind(list.raw_kind()));
    }
    Ok(())
}

/// Checks that a type is continued by a list below it, if it is a field list with a continuation.
fn check_value(types: &OpenTable<TypeIndex>, index: TypeIndex, value: &TypeData<'_>) -> Result<()>
    ensures { Gives (λ done. done) result (continued_in types.now.table index.0 (type_value value.now)) }
{
    match value {
        TypeData::FieldList(list) => match list.continuation {
            Some(next) => check_continuation(types, index, next),
            None => Ok(()),
        },
        _ => Ok(()),
    }
}

/// Returns whether a type was read, or the error.
fn without_value(read: Result<TypeData<'_>>) -> Result<()>
    ensures { (error : Error) → read.entry ≡ Err error → result ≡ Err error }
{
    read?;
    Ok(())
}

/// Reads the record of a type, and checks its continuation.
#[tactic(auto, unfolding(crate::specs::Tables::read_in))]
fn read_type(alloc: Global, types: &OpenTable<TypeIndex>, item: &Item<'_, TypeIndex>) -> Result<()>
    ensures { Answers (λ done. done) result (read_in types.now.table (index_of item.now).0 (item_bytes item.now)) }
{
    let read = item.parse(alloc);
    // The value is borrowed where it is, since it is large to move.
    match &read {
        Ok(value) => check_value(types, item.index(), value),
        Err(_) => without_value(read),
    }
}

/// Returns an error of a record of a kind, unless that kind is not read.
fn unless_unread(kind: u16, error: Error) -> Option<Error>
    ensures { option_map refusal_of result ≡ refusal_in (unless_unread kind (fail_with (refusal_of error))) }
{
    if is_not_read(kind, &error) {
        return None;
    }
    Some(error)
}

impl CheckedIndex for TypeIndex {
    ghost PART = { parts.Types };

    const PART: Part = Part::Types;

    ghost STREAM = { 2 };

    const STREAM: u32 = TYPE_STREAM;

    ghost wrong = { λ types. type_inconsistency };

    ghost checked = { checked_type };

    #[tactic(auto, unfolding(crate::specs::Records::type_inconsistency))]
    fn inconsistency(
        alloc: Global,
        item: &Item<'_, TypeIndex>,
        _types: u32,
    ) -> Result<Option<Inconsistency>> {
        let kind = item.raw_kind();
        // The value is borrowed where it is, since it is large to move.
        match &item.parse(alloc) {
            Ok(value) => Ok(not_below(first_reference_from(item.index().0, value))),
            Err(Error::OutOfMemory) => Err(Error::OutOfMemory),
            Err(error) => Ok(is_not_read(kind, error).then_some(Inconsistency::KindNotRead(kind))),
        }
    }

    #[tactic(auto, unfolding(crate::specs::Tables::checked_type))]
    fn error(
        alloc: Global,
        table: &OpenTable<TypeIndex>,
        item: &Item<'_, TypeIndex>,
    ) -> Result<Option<Error>> {
        match read_type(alloc, table, item) {
            Ok(()) => Ok(None),
            Err(Error::OutOfMemory) => Err(Error::OutOfMemory),
            Err(error) => Ok(unless_unread(item.raw_kind(), error)),
        }
    }
}

impl CheckedIndex for IdIndex {
    ghost PART = { parts.Ids };

    const PART: Part = Part::Ids;

    ghost STREAM = { 4 };

    const STREAM: u32 = ID_STREAM;

    ghost wrong = { id_inconsistency };

    ghost checked = { λ table. checked_id };

    #[tactic(auto, unfolding(crate::specs::Records::id_inconsistency))]
    fn inconsistency(
        alloc: Global,
        item: &Item<'_, IdIndex>,
        types: u32,
    ) -> Result<Option<Inconsistency>> {
        let kind = item.raw_kind();
        match &item.parse(alloc) {
            Ok(value) => Ok(not_below(id_reference_from(types, item.index().0, value))),
            Err(Error::OutOfMemory) => Err(Error::OutOfMemory),
            Err(error) => Ok(is_not_read(kind, error).then_some(Inconsistency::KindNotRead(kind))),
        }
    }

    #[tactic(auto, unfolding(crate::specs::Tables::checked_id))]
    fn error(
        alloc: Global,
        _table: &OpenTable<IdIndex>,
        item: &Item<'_, IdIndex>,
    ) -> Result<Option<Error>> {
        match item.parse(alloc) {
            Ok(_) => Ok(None),
            Err(Error::OutOfMemory) => Err(Error::OutOfMemory),
            Err(error) => Ok(unless_unread(item.raw_kind(), error)),
        }
    }
}
