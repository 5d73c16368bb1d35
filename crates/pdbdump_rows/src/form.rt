//! The forms in which a `Row` is written.

/// How a `Row` is written.
#[derive(Clone, Copy, Debug, PartialEq, Eq)]
pub enum Form {
    /// A line to be read by people.
    Text,

    /// A line that holds one object of JSON (RFC 8259).
    Json,
}
