//! What a file of a stranger, or a machine without memory, may do to a reader.

/// The result of a call, which is repeated once if it is `OutOfMemory`.
macro_rules! settled {
    ($call:expr) => {
        match $call {
            Err(Error::OutOfMemory) => $call,
            answer => answer,
        }
    };
}

/// A table of cases: the parts of each, ended by a semicolon.
macro_rules! rows {
    ($($($part:expr),+;)*) => {
        &[$(($($part),+)),*]
    };
}

mod claims;
mod failing;
mod refused;
mod rows;
mod sweep;
mod untaken;
