//! The tables that a run keeps open, and replies from them.

ghost use Rattle.std.specs.Prelude.{List, ℕ, ◌≡◌, ◌+◌, ◌*◌, ◌≤◌, IsTrue};
ghost use Rattle.pdb_base.specs.Answer.{Answer, Answers};
ghost use Rattle.pdb_base.specs.Count.{calls_of};
ghost use Rattle.pdb_container.specs.OpenTables.{AreOf, IsOf, OpensTable, items_in, most_look_ups, unlearned};
ghost use Rattle.pdb_container.specs.Reply.{IsReply, RepliesUnless, reply_by};
ghost use Rattle.pdb_space.specs.{Omap.omap_table_of, StringTable.names_of};

use crate::query::{Query, Reply};
use crate::read_streams::ReadStreams;
use crate::replies::{fields_reply, id_reply, name_reply, ranges_reply, type_reply};
use pdb_base::{Count, IdIndex, ItemIndex, Result, Stream, TypeIndex};
use pdb_space::{OMAPTable, StringTable};
use pdb_tpi::{ItemInformation, OpenTable};
use std::alloc::Global;

/// A table that a stream holds.
pub trait Table: Sized + Drop {
    // The table in the bytes of a stream, and a table as it was before look-ups learned of it.
    ghost table_in: { List ℕ → Answer Self };

    ghost before: { Self → Self };

    /// Parses the table in a stream.
    fn parse_in(alloc: Global, stream: Stream) -> Result<Self>
        ensures { Answers before result (table_in stream) };
}

impl<I: ItemIndex> Table for OpenTable<I> {
    ghost table_in = { items_in };

    ghost before = { unlearned };

    #[tactic(auto, unfolding(crate::specs::OpenTables::items_in))]
    fn parse_in(alloc: Global, stream: Stream) -> Result<Self> {
        OpenTable::new(alloc, ItemInformation::parse(stream)?)
    }
}

impl Table for StringTable {
    ghost table_in = { names_of };

    ghost before = { λ table. table };

    fn parse_in(_alloc: Global, stream: Stream) -> Result<Self> {
        StringTable::parse(stream)
    }
}

impl Table for OMAPTable {
    ghost table_in = { omap_table_of };

    ghost before = { λ table. table };

    fn parse_in(_alloc: Global, stream: Stream) -> Result<Self> {
        OMAPTable::parse(stream)
    }
}

/// A table, and the number of the stream that holds it. The table is boxed, so that it is not
/// copied each time it is put into the struct or taken out of it.
#[derive(Drop)]
pub struct Numbered<T> {
    number: u32,
    table: Box<T>,
}

/// Reads the table in a stream.
#[inline(never)]
fn read_table<T: Table, F: ReadStreams>(
    alloc: Global,
    file: &mut F,
    number: u32,
) -> Result<Numbered<T>>
    requires { F.can_read file.old }
    ensures table { F.is_fixed file.old →
        OpensTable (F.failed file.old file.new) T.before T.table_in (F.stream file.old) number result }
    ensures kept { F.kept file.old file.new }
{
    let stream = file.read(alloc, number, None)?;
    let table = Box::new(alloc, T::parse_in(alloc, stream)?)?;
    Ok(Numbered { number, table })
}

/// Returns the table in a stream: the open one if it is that stream's, or else one that is read.
/// Only the reading is a call, so that a table that is open is not copied.
#[inline(always)]
fn table_of_stream<T: Table, F: ReadStreams>(
    alloc: Global,
    file: &mut F,
    number: u32,
    last: Option<Numbered<T>>,
) -> Result<Numbered<T>>
    requires can_read { F.can_read file.old }
    requires of { F.is_fixed file.old → IsOf T.before T.table_in (F.stream file.old) last }
    ensures table { F.is_fixed file.old →
        OpensTable (F.failed file.old file.new) T.before T.table_in (F.stream file.old) number result }
    ensures kept { F.kept file.old file.new }
{
    if let Some(last) = last {
        if last.number == number {
            return Ok(last);
        }
    }
    read_table(alloc, file, number)
}

/// The last table of each kind that was opened, and a count of the record lengths that look-ups in
/// them read.
#[derive(Default, Drop)]
pub struct OpenTables {
    types: Option<Numbered<OpenTable<TypeIndex>>>,
    ids: Option<Numbered<OpenTable<IdIndex>>>,
    names: Option<Numbered<StringTable>>,
    omap: Option<Numbered<OMAPTable>>,
    reads: Count,
}

impl OpenTables {
    /// Answers a query from the table that it is about, which is opened if it is not open yet. A look-up
    /// reads eight record lengths at most. The last query of a file that it consumes learns no places
    /// of items, so that it takes no memory beyond the file, and its look-up of a type or an id walks
    /// from the first record.
    #[tactic(auto, unfolding(crate::specs::Reply::type_within, crate::specs::Reply::id_within, crate::specs::Reply::fields_within, crate::specs::Reply::name_within, crate::specs::Reply::moved_within, crate::specs::OpenTables::items_in))]
    fn attempt<F: ReadStreams>(
        &mut self,
        alloc: Global,
        file: &mut F,
        query: Query,
    ) -> Result<Reply>
        requires can_read { F.can_read file.old }
        requires of { F.is_fixed file.old → AreOf (F.stream file.old) self.old }
        ensures reply { F.is_fixed file.old →
            RepliesUnless (F.failed file.old file.new) result (reply_by (F.stream file.old) query) }
        ensures of { F.is_fixed file.old → AreOf (F.stream file.old) self.new }
        ensures few { IsTrue F.lasts → F.is_fixed file.old → calls_of self.new.reads ≤
            calls_of self.old.reads + 8 * most_look_ups (F.stream file.old) query }
        ensures kept { F.kept file.old file.new }
    {
        match query {
            Query::Stream { number, limit } => {
                let stream = file.read(alloc, number, limit)?;
                Ok(Reply::Bytes(stream.into_bytes()))
            }
            Query::TypeRecord { stream, index } => {
                let types = table_of_stream(alloc, file, stream, self.types.take())?;
                let types = self.types.insert(types);
                if F::is_lasting() {
                    types.table.learn(TypeIndex(index));
                }
                type_reply(alloc, &types.table, index, &mut self.reads)
            }
            Query::Fields { stream, index } => {
                let types = table_of_stream(alloc, file, stream, self.types.take())?;
                let types = self.types.insert(types);
                fields_reply(alloc, &mut types.table, index, &mut self.reads)
            }
            Query::IdRecord { stream, index } => {
                let ids = table_of_stream(alloc, file, stream, self.ids.take())?;
                let ids = self.ids.insert(ids);
                if F::is_lasting() {
                    ids.table.learn(IdIndex(index));
                }
                id_reply(alloc, &ids.table, index, &mut self.reads)
            }
            Query::Name { stream, offset } => {
                let names = table_of_stream(alloc, file, stream, self.names.take())?;
                let names = self.names.insert(names);
                name_reply(alloc, &names.table, offset)
            }
            Query::Ranges { omap, start, end } => {
                let table = table_of_stream(alloc, file, omap, self.omap.take())?;
                let table = self.omap.insert(table);
                ranges_reply(alloc, &table.table, start..end)
            }
        }
    }

    /// Answers a query. An error is a reply too.
    pub fn reply<F: ReadStreams>(&mut self, alloc: Global, file: &mut F, query: Query) -> Reply
        requires can_read { F.can_read file.old }
        requires of { F.is_fixed file.old → AreOf (F.stream file.old) self.old }
        ensures reply { F.is_fixed file.old →
            IsReply (F.failed file.old file.new) result (reply_by (F.stream file.old) query) }
        ensures of { F.is_fixed file.old → AreOf (F.stream file.old) self.new }
        ensures few { IsTrue F.lasts → F.is_fixed file.old → calls_of self.new.reads ≤
            calls_of self.old.reads + 8 * most_look_ups (F.stream file.old) query }
        ensures kept { F.kept file.old file.new }
    {
        match self.attempt(alloc, file, query) {
            Ok(reply) => reply,
            Err(error) => Reply::Refused(error),
        }
    }
}
