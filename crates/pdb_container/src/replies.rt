//! Replies from tables that are open.

ghost use Rattle.std.specs.Prelude.{◌≡◌, ◌≢◌, ◌+◌, ◌*◌, ◌≤◌, length, map, Err, IfOk, Ok};
ghost use Rattle.std.specs.List.{sum_by};
ghost use Rattle.pdb_base.specs.declared.error.Error.TheVariants.{OutOfMemory};
ghost use Rattle.std.specs.Option.{option_map};
ghost use Rattle.pdb_base.specs.Count.{after_calls, calls_of};
ghost use Rattle.pdb_tpi.specs.Finder.{IsLearned, item_of, known_up_to, reads_from};
ghost use Rattle.pdb_tpi.specs.LookedUp.{lists_looked_up};
ghost use Rattle.pdb_values.specs.{Text.text_bytes, TypeValue.name_of_type, TypeView.type_value};
ghost use Rattle.pdb_container.specs.Reply.{Replies, fields_in, id_in, moved, name_in, type_in};

use crate::query::Reply;
use pdb_base::{Count, IdIndex, RawString, Result, TypeIndex};
use pdb_space::{OMAPTable, StringRef, StringTable};
use pdb_tpi::OpenTable;
use pdb_values::TypeData;
use std::alloc::{AllocError, Global};
use std::ops::Range;
use std::result;

/// Copies a name, if there is one.
fn owned_name(
    alloc: Global,
    name: Option<RawString<'_>>,
) -> result::Result<Option<Vec<u8>>, AllocError>
    ensures { IfOk result (λ copy. option_map (λ bytes. bytes.items) copy ≡ option_map text_bytes name.entry) }
{
    match name {
        Some(name) => Ok(Some(Vec::from_slice(alloc, name.as_bytes())?)),
        None => Ok(None),
    }
}

/// Replies with the type of an index: its kind, and its name if it has one. The look-up reads eight
/// record lengths at most, if nothing is left to learn for it.
#[inline(never)]
#[tactic(auto, unfolding(crate::specs::Reply::type_in))]
pub fn type_reply(
    alloc: Global,
    types: &OpenTable<TypeIndex>,
    index: u32,
    count: &mut Count,
) -> Result<Reply>
    ensures reply { Replies result (type_in index types.now.table) }
    ensures counted { calls_of count.new ≡
        after_calls (reads_from types.now.table types.now.known index) (calls_of count.old) }
    ensures few { IsLearned types.now.table types.now.known index → calls_of count.new ≤ calls_of count.old + 8 }
{
    let item = types.item_counted(TypeIndex(index), count)?;
    let value = item.parse(alloc)?;
    Ok(Reply::Record {
        index,
        kind: item.raw_kind(),
        name: owned_name(alloc, value.name())?,
    })
}

/// Replies with the id of an index: its kind, and its name if it has one. The look-up reads eight
/// record lengths at most, if nothing is left to learn for it.
#[inline(never)]
#[tactic(auto, unfolding(crate::specs::Reply::id_in))]
pub fn id_reply(
    alloc: Global,
    ids: &OpenTable<IdIndex>,
    index: u32,
    count: &mut Count,
) -> Result<Reply>
    ensures reply { Replies result (id_in index ids.now.table) }
    ensures counted { calls_of count.new ≡
        after_calls (reads_from ids.now.table ids.now.known index) (calls_of count.old) }
    ensures few { IsLearned ids.now.table ids.now.known index → calls_of count.new ≤ calls_of count.old + 8 }
{
    let item = ids.item_counted(IdIndex(index), count)?;
    let value = item.parse(alloc)?;
    Ok(Reply::Record {
        index,
        kind: item.raw_kind(),
        name: owned_name(alloc, value.name())?,
    })
}

/// Copies the names of fields, with None for each field that has no name.
fn names_of(
    alloc: Global,
    fields: &[TypeData<'_>],
) -> result::Result<Vec<Option<Vec<u8>>>, AllocError>
    ensures { IfOk result (λ names.
        map (λ name. option_map (λ copy. copy.items) name) names.items ≡
        map name_of_type (map type_value fields.now)) }
{
    let mut names = Vec::with_capacity(alloc, fields.len())?;
    for field in fields {
        names.push(owned_name(alloc, field.name())?)?;
    }
    Ok(names)
}

/// Replies with the names of the fields of a list and of the lists that continue it. The look-up of
/// each list reads eight record lengths at most.
#[inline(never)]
#[tactic(auto, unfolding(crate::specs::Reply::fields_in))]
pub fn fields_reply(
    alloc: Global,
    types: &mut OpenTable<TypeIndex>,
    index: u32,
    count: &mut Count,
) -> Result<Reply>
    ensures reply { Replies result (fields_in index types.old.table) }
    ensures counted { let reads = reads_from types.old.table (known_up_to types.old.table types.old.known index) in
        result ≢ Err OutOfMemory → calls_of count.new ≡
        after_calls (sum_by reads (lists_looked_up (item_of types.old.table) index)) (calls_of count.old) }
    ensures few { calls_of count.new ≤
        calls_of count.old + 8 * length (lists_looked_up (item_of types.old.table) index) }
    ensures kept { types.new.table ≡ types.old.table }
{
    types.learn(TypeIndex(index));
    let fields = types.fields_counted(alloc, TypeIndex(index), count)?;
    Ok(Reply::Fields(names_of(alloc, &fields)?))
}

/// Replies with the name at an offset in a string table.
#[inline(never)]
#[tactic(auto, unfolding(crate::specs::Reply::name_in))]
pub fn name_reply(alloc: Global, names: &StringTable, offset: u32) -> Result<Reply>
    ensures { Replies result (name_in offset names.now) }
{
    let name = names.get(StringRef(offset))?;
    Ok(Reply::Name(Vec::from_slice(alloc, name.as_bytes())?))
}

/// Replies with where an OMAP table moves the addresses of a range.
#[inline(never)]
pub fn ranges_reply(alloc: Global, table: &OMAPTable, addresses: Range<u32>) -> Result<Reply>
    ensures { Replies result (Ok (moved table.now addresses)) }
{
    Ok(Reply::Ranges(table.lookup_range(addresses).collect(alloc)?))
}
