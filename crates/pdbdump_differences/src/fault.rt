//! Why it can't be said what became of a definition.

use crate::side::Side;
use pdb_base::{Error, TypeIndex};

/// A definition, for what is reported of it.
#[derive(Clone, Copy, Debug)]
pub(crate) struct Subject {
    /// The file that has it.
    pub(crate) side: Side,

    /// Its index.
    pub(crate) index: TypeIndex,
}

/// Why it can't be said what became of a definition.
#[derive(Debug, Drop)]
pub(crate) struct Fault {
    /// The definition that can't be read.
    pub(crate) subject: Subject,

    /// Why it can't be read.
    pub(crate) error: Error,
}

impl Subject {
    /// Returns what was read of the definition, or the fault that is about it.
    pub(crate) fn blame<T>(self, read: Result<T, Error>) -> Result<T, Fault> {
        match read {
            Ok(value) => Ok(value),
            Err(error) => Err(Fault {
                subject: self,
                error,
            }),
        }
    }
}
