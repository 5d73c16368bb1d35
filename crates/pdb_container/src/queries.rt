//! Runs of queries over one file.

ghost use Rattle.std.specs.Prelude.{◌≡◌, ◌≤◌, [], IsTrue, length, vec_capacity};
ghost use Rattle.pdb_msf.specs.Source.{IsFixed};
ghost use Rattle.pdb_container.specs.Reply.{AreReplies, IsRun};

use crate::open_tables::OpenTables;
use crate::query::{Query, Reply};
use pdb_base::Result;
use pdb_msf::{BigMSF, Source, open_msf};
use std::alloc::Global;

/// Answers queries one after another, and appends the replies to a list that has room for them. The
/// last query consumes the file.
fn answer_all<S: Source + Drop>(
    alloc: Global,
    mut file: BigMSF<S>,
    queries: &[Query],
    mut replies: Vec<Reply>,
) -> Vec<Reply>
    requires none { replies.items ≡ [] }
    requires room { length queries.now ≤ vec_capacity replies }
    ensures { IsFixed (S.state file.source) → AreReplies (¬ IsTrue (S.state file.source).is_sound)
        (S.state file.source).bytes file.head queries.now result.items }
{
    let Some((last, first)) = queries.split_last() else {
        return replies;
    };
    let mut tables = OpenTables::default();
    for query in first {
        replies.push_reserved(tables.reply(alloc, &mut file, *query));
    }
    replies.push_reserved(tables.reply(alloc, &mut Some(file), *last));
    replies
}

/// Opens a file, runs all queries on it, and returns one reply to each, in order. On a sound
/// source, a query that fails does not affect the next.
///
/// The last table of each kind (types, ids, names, OMAP) stays open, so queries that alternate
/// between two tables of one kind read them anew each time. The last query consumes the file: a
/// `Vec<u8>` keeps its memory for the stream's bytes, so that a single query allocates nothing to
/// hold its stream's bytes if the stream's pages have increasing numbers.
///
/// # Errors
/// Fails as `open_msf` does, or with `OutOfMemory` if there is no room for the list of replies. An
/// allocation that fails within a query is the reply to that query alone.
pub fn run<S: Source + Drop>(alloc: Global, source: S, queries: &[Query]) -> Result<Vec<Reply>>
    ensures { IsFixed (S.state source) →
        IsRun (¬ IsTrue (S.state source).is_sound) (S.state source).bytes queries.now result }
{
    let file = open_msf(alloc, source)?;
    let replies = Vec::with_capacity(alloc, queries.len())?;
    Ok(answer_all(alloc, file, queries, replies))
}
