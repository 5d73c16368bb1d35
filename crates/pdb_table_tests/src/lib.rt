//! Test cases of files, pages and buffers, of addresses, translation, names, frames and the roles
//! of streams.
#![tactic(auto)]

#[cfg(test)]
mod tests;
