//! Test cases of whole files, of what holds between their parts, of types, and of calls for programs
//! in other languages.
#![tactic(auto)]

#[cfg(test)]
mod tests;
