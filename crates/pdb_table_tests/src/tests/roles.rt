//! Test cases of the roles and the names of streams, a file a topic.

mod files;
mod headers;
mod names;
mod refusals;

/// The first so many bytes, or all where there are fewer.
fn front(bytes: &[u8], len: usize) -> &[u8] {
    &bytes[..len.min(bytes.len())]
}
