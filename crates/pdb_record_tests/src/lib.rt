//! Test cases of flag words, tables of items and primitive types, and of the records of types and
//! ids.
#![tactic(auto)]

#[cfg(test)]
mod tests;
