//! Test cases of the programs, a file a topic, and the short uses of the library.

/// A table of cases: the parts of each, ended by a semicolon.
macro_rules! rows {
    ($($($part:expr),+;)*) => {
        &[$(($($part),+)),*]
    };
}

mod asked;
mod channels;
mod failing;
mod printed;
mod uses;
