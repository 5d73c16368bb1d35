//! Test cases of whole queries, of questions about a file, of channels that fail, and of the short
//! uses.
#![tactic(auto)]

#[cfg(test)]
mod tests;
