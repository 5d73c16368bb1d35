//! Counts that the bytes don't bear out, failed allocations and failing sources, as tests.
#![tactic(auto)]

#[cfg(test)]
mod tests;
