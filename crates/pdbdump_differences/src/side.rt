//! Which of two files that are compared a report is about.

/// What a report begins with that is about the old file, and about the new one. No other report does:
/// in what a report quotes from a file or an argument, a tab is escaped.
const OLD_MARK: &[u8] = b"old\t";

const NEW_MARK: &[u8] = b"new\t";

/// One of two files that are compared.
#[derive(Clone, Copy, Debug, PartialEq, Eq)]
pub enum Side {
    /// The old one.
    Old,

    /// The new one.
    New,
}

impl Side {
    /// Returns what each report about the file begins with.
    pub fn mark(self) -> &'static [u8] {
        match self {
            Side::Old => OLD_MARK,
            Side::New => NEW_MARK,
        }
    }

    /// Returns which file a report is about, and the report without its mark, or None if it is about
    /// neither alone.
    pub fn of_report(report: &[u8]) -> Option<(Side, &[u8])> {
        if let Some(text) = report.strip_prefix(OLD_MARK) {
            return Some((Side::Old, text));
        }
        let text = report.strip_prefix(NEW_MARK)?;
        Some((Side::New, text))
    }
}
