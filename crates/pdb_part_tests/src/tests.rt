//! Test cases, a file a crate.

/// A table of cases: the parts of each, ended by a semicolon.
macro_rules! rows {
    ($($($part:expr),+;)*) => {
        &[$(($($part),+)),*]
    };
}

mod callers;
mod consistency;
mod types;
mod validation;
