//! Questions to a file, and what it replies.

use pdb_base::Error;
use std::ops::Range;

/// A question to a file.
#[derive(Clone, Copy, Debug, PartialEq, Eq)]
pub enum Query {
    /// The bytes of a stream.
    Stream {
        /// The stream's number.
        number: u32,
        /// How many bytes to return at most, or None for all of them.
        limit: Option<usize>,
    },
    /// A type: its kind, and its name if it has one.
    TypeRecord {
        /// The number of the stream that holds the table of types.
        stream: u32,
        /// The type's index.
        index: u32,
    },
    /// An id: its kind, and its name if it has one.
    IdRecord {
        /// The number of the stream that holds the table of ids.
        stream: u32,
        /// The id's index.
        index: u32,
    },
    /// A name in a string table.
    Name {
        /// The number of the stream that holds the string table.
        stream: u32,
        /// The name's offset in bytes from the start of the names.
        offset: u32,
    },
    /// Where an OMAP table moves the addresses of a range.
    Ranges {
        /// The number of the stream that holds the OMAP table.
        omap: u32,
        /// The first address.
        start: u32,
        /// The address behind the last.
        end: u32,
    },
    /// The names of the fields of a class, a union or an enumeration.
    Fields {
        /// The number of the stream that holds the table of types.
        stream: u32,
        /// The index of the list of fields.
        index: u32,
    },
}

/// The reply to a query.
#[derive(Debug, Drop)]
pub enum Reply {
    /// The bytes of a stream.
    Bytes(Vec<u8>),
    /// A type or an id.
    Record {
        /// The index of the item that is looked up.
        index: u32,
        /// The kind: the first two bytes of the record, the lowest first.
        kind: u16,
        /// The bytes of the name, if it has one.
        name: Option<Vec<u8>>,
    },
    /// The bytes of a name.
    Name(Vec<u8>),
    /// Where the addresses are moved: one range for each record that moves some of them.
    Ranges(Vec<Range<u32>>),
    /// The name of each field of a list and of the lists that continue it, in order, with None for
    /// a field that has no name.
    Fields(Vec<Option<Vec<u8>>>),
    /// Why there is no answer: the first error of the stream, of the table in it, of the look-up
    /// and of the record, tried in this order; or an allocation that failed on the way.
    Refused(Error),
}
