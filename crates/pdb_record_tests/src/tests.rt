//! Test cases, a file a topic.

/// A table of cases: the parts of each, ended by a semicolon.
macro_rules! rows {
    ($($($part:expr),+;)*) => {
        &[$(($($part),+)),*]
    };
}

mod equal;
mod flags;
mod ids;
mod leaves;
mod lists;
mod open_tables;
mod plain;
mod primitives;
mod read;
mod refused;
mod tables;
