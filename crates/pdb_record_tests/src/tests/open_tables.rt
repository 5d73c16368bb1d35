//! Tables that stay open.

use super::tables::{Fields, has_bytes, has_fields, is_long};
use pdb_base::{Error, Result as Answer, TypeIndex};
use pdb_tpi::{OpenTable, OpenWalk, RecordPlace, TypeInformation};
use std::alloc::Global;
use std::process::Abort;

/// A call of an open table, with its answer.
pub(super) enum OpenAsk {
    /// The place that the next step of its walk gives.
    Step(Option<RecordPlace>),
    /// Its walk is moved back to its start.
    Rewind,
    /// It learns an index.
    Learn(u32),
    /// The index of the next item of its walk, and how many indexes it counts.
    Index(u64, usize),
    /// An index: the place of its record.
    Find(u32, Option<RecordPlace>),
    /// An index that it does not have.
    NotFound(u32),
    /// An index: how many bytes its item has.
    Len(u32, usize),
    /// An index: the bytes of its item.
    Bytes(u32, &'static [u8]),
    /// The index of a list: its fields, or an error.
    Fields(u32, Fields),
}

/// Whether the answer is this place, or that there is none.
fn is_at(answer: Answer<Option<RecordPlace>>, want: Option<RecordPlace>) -> bool {
    matches!(answer, Ok(place) if place == want)
}

/// Whether an open table answers so.
fn open_answers(alloc: Global, open: &OpenWalk<TypeIndex>, ask: &OpenAsk) -> bool {
    match ask {
        OpenAsk::Index(index, count) => open.index() == *index
            && open.table().items().len() == *count,
        OpenAsk::Find(index, want) => is_at(open.table().find(TypeIndex(*index)), *want),
        OpenAsk::NotFound(index) => {
            let found = open.table().find(TypeIndex(*index));
            matches!(found, Err(Error::TypeNotFound(bad)) if bad == *index)
        }
        OpenAsk::Len(index, len) => is_long(open.table().item(TypeIndex(*index)), *len),
        OpenAsk::Bytes(index, bytes) => has_bytes(open.table().item(TypeIndex(*index)), bytes),
        OpenAsk::Fields(index, want) => has_fields(
            &open.table().fields(alloc, TypeIndex(*index)),
            want,
        ),
        _ => false,
    }
}

/// Whether an open table answers so, once it has done what it is to do.
fn open_does(alloc: Global, open: &mut OpenWalk<TypeIndex>, ask: &OpenAsk) -> bool {
    match ask {
        OpenAsk::Step(want) => is_at(open.step(), *want),
        OpenAsk::Rewind => {
            open.rewind();
            true
        }
        OpenAsk::Learn(index) => {
            open.learn(TypeIndex(*index));
            true
        }
        _ => open_answers(alloc, open, ask),
    }
}

/// Whether an open table answers each of these so, one after the other.
fn open_tells(alloc: Global, open: &mut OpenWalk<TypeIndex>, asks: &[OpenAsk]) -> bool {
    for ask in asks {
        if !open_does(alloc, open, ask) {
            return false;
        }
    }
    true
}

/// Whether a table that is opened answers each of these so, one after the other.
pub(super) fn opened_tells(
    rt: &impl Abort,
    alloc: Global,
    table: TypeInformation,
    asks: &[OpenAsk],
) -> bool {
    let mut open = OpenWalk::new(OpenTable::new(alloc, table).expect(rt, "an open table"));
    open_tells(alloc, &mut open, asks)
}
