//! An object of JSON to which fields are added without a check each time.

use pdb_base::RawString;
use pdbdump_rows::{Form, Line, Value};
use std::alloc::Global;

/// An object of JSON to which fields are added. Once an allocation fails it grows no more, which the
/// text to which it is appended reports.
#[derive(Drop)]
pub struct ObjectBuffer {
    line: Line,

    /// Whether each allocation for the objects before it succeeded.
    was_whole: bool,
}

impl ObjectBuffer {
    /// Returns an object without fields.
    pub fn new(alloc: Global) -> Self {
        let mut line = Line::new(alloc);
        line.begin(Form::Json);
        ObjectBuffer {
            line,
            was_whole: true,
        }
    }

    /// Begins another object. The fields so far are gone, but not that an allocation failed.
    pub fn begin(&mut self) {
        self.was_whole = self.is_whole();
        self.line.begin(Form::Json);
    }

    /// Adds a field.
    pub fn field(&mut self, name: &'static str, value: Value<'_>) {
        self.line.field(name, value);
    }

    /// Adds a field that is a text.
    pub fn text(&mut self, name: &'static str, text: &[u8]) {
        self.field(name, Value::Text(RawString::from(text)));
    }

    /// Returns the bytes so far, without the brace behind the fields.
    pub(crate) fn as_bytes(&self) -> &[u8] {
        self.line.as_bytes()
    }

    /// Returns whether each allocation so far succeeded.
    pub(crate) fn is_whole(&self) -> bool {
        self.was_whole && self.line.is_whole()
    }
}
