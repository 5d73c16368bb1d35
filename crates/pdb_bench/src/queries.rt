//! Many queries in one run.

use pdb_container::{Query, Reply, run};
use std::alloc::Global;

/// A query of the type of each index in the table in a stream.
fn queries_of(alloc: Global, stream: u32, indexes: &[u32]) -> Option<Vec<Query>> {
    let mut queries = Vec::with_capacity(alloc, indexes.len()).ok()?;
    for index in indexes {
        let index = *index;
        queries.push(Query::TypeRecord { stream, index }).ok()?;
    }
    Some(queries)
}

/// 1 and the length of the name of a record; 0 of another reply.
fn size_of(reply: &Reply) -> u64 {
    match reply {
        Reply::Record {
            name: Some(name),
            ..
        } => (name.len() as u64).wrapping_add(1),
        Reply::Record { name: None, .. } => 1,
        _ => 0,
    }
}

/// Runs all queries over a file. Returns `sum` plus the size of each reply.
#[inline(never)]
fn ask(alloc: Global, file: &[u8], queries: &[Query], mut sum: u64) -> u64 {
    let Ok(replies) = run(alloc, file, queries) else {
        return sum;
    };
    for reply in replies {
        sum = sum.wrapping_add(size_of(&reply));
    }
    sum
}

/// Queries the types of these indexes in the table in a stream of a file, in one run. Sums 1 and
/// the length of the name for each record that is replied.
#[unsafe(no_mangle)]
pub extern "C" fn bench_queries(
    alloc: Global,
    file: &[u8],
    stream: u32,
    indexes: &[u32],
    turns: u32,
) -> u64 {
    let Some(queries) = queries_of(alloc, stream, indexes) else {
        return 0;
    };
    repeated!(turns, sum => ask(alloc, file, &queries, sum))
}
