//! Whether a listing is complete.

ghost use Rattle.std.specs.Prelude.{◌≡◌, ◌-◌, ◌↔◌, IsTrue};

use pdb_tpi::Header;
use std::alloc::{AllocError, Global};

/// How many records the header of a table counts, and how many the table has.
#[derive(Clone, Copy)]
pub struct RecordCounts {
    /// The number of the table's stream.
    pub stream: u32,

    /// How many records the header counts.
    pub counted: u64,

    /// How many records there are.
    pub present: u64,
}

impl RecordCounts {
    /// Returns the counts of a table with this header and so many records.
    pub(crate) fn of(stream: u32, header: Header, present: u64) -> Self
        ensures counted { result.counted ≡ header.maximum_index - header.minimum_index }
        ensures present { result.present ≡ present }
    {
        let counted = header.maximum_index.saturating_sub(header.minimum_index);
        RecordCounts {
            stream,
            counted: counted as u64,
            present,
        }
    }

    /// Returns the counts of a table with this header, whose walk ends before an index.
    pub(crate) fn up_to(stream: u32, header: Header, index: u64) -> Self
        ensures counted { result.counted ≡ header.maximum_index - header.minimum_index }
        ensures present { result.present ≡ index - header.minimum_index }
    {
        let present = index.saturating_sub(header.minimum_index as u64);
        RecordCounts::of(stream, header, present)
    }

    /// Returns whether the table has as many records as its header counts.
    pub fn agree(&self) -> bool
        ensures { IsTrue result ↔ (self.now.counted ≡ self.now.present) }
    {
        self.counted == self.present
    }

    /// Returns a sentence with both counts.
    ///
    /// # Errors
    /// Fails if an allocation fails.
    pub fn sentence(&self, alloc: Global) -> Result<String, AllocError> {
        let RecordCounts {
            stream,
            counted,
            present,
        } = *self;
        format!(in alloc; "the table in stream {stream} counts {counted} records and has {present}")
    }
}

/// What is known of a listing beside its lines.
#[derive(Clone, Copy)]
pub struct Completeness {
    /// Whether each part and each record that is listed so far could be read.
    pub is_whole: bool,

    /// How many records the table that is listed has, or that of types in a summary; or None if it
    /// was not walked to its end.
    pub counts: Option<RecordCounts>,

    /// How many records the table of ids has that is in a summary beside that of types.
    pub id_counts: Option<RecordCounts>,
}

impl Completeness {
    /// Returns what is known of a listing that has not begun.
    pub fn new() -> Self {
        Completeness {
            is_whole: true,
            counts: None,
            id_counts: None,
        }
    }
}
