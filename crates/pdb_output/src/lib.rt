//! An output that knows whether it failed, so that an error of the output is never made up.
#![tactic(auto)]

mod output;

pub use output::Output;
