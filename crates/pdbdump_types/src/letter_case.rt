//! Whether the case of letters counts.

/// Whether an ASCII letter of the other case is another letter.
#[derive(Clone, Copy)]
pub enum LetterCase {
    /// It is.
    Exact,

    /// It isn't.
    Ignored,
}

impl LetterCase {
    /// Returns whether two names are the same.
    pub fn is_same(self, name: &[u8], other: &[u8]) -> bool {
        match self {
            LetterCase::Exact => name == other,
            LetterCase::Ignored => name.eq_ignore_ascii_case(other),
        }
    }

    /// Returns what is behind a name in a text that begins with it.
    pub fn behind<'t>(self, name: &[u8], text: &'t [u8]) -> Option<&'t [u8]> {
        let start = text.get(..name.len())?;
        if self.is_same(name, start) {
            text.get(name.len()..)
        } else {
            None
        }
    }
}
