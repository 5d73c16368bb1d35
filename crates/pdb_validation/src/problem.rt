//! What is wrong in a part of a file.

ghost use Rattle.std.specs.Prelude.{◌≡◌};
ghost use Rattle.pdb_base.specs.Refusal.{refusal_of};
ghost use Rattle.pdb_validation.specs.Code.{error_code};
ghost use Rattle.pdb_validation.specs.Problem.{is_tolerated, problem_view};

use crate::inconsistency::Inconsistency;
use pdb_base::Error;
use std::fmt;

/// What is wrong in a part of a file.
#[derive(Debug, Drop)]
pub enum Problem {
    /// The part fails to be read, with this error.
    Error(Error),

    /// The part can be read, and this does not hold in it.
    Inconsistent(Inconsistency),
}

impl Problem {
    /// Returns whether it is no more than a warning: whether files of known tools have it too, so
    /// that it makes no file damaged.
    pub fn is_warning(&self) -> bool
        ensures { result ≡ is_tolerated (problem_view self.now) }
    {
        match self {
            Problem::Error(_) => false,
            Problem::Inconsistent(what) => what.is_warning(),
        }
    }
}

/// Returns the part of a code that says which error it is, or nothing for those that have none.
pub(crate) fn error_code(error: &Error) -> &'static str
    ensures { result.now ≡ error_code (refusal_of error.now) }
{
    match error {
        Error::UnexpectedEof | Error::IoError(_) => "-CUT",
        Error::PageReferenceOutOfRange(_) => "-PAGE-RANGE",
        Error::InvalidPageSize(_) => "-PAGE-SIZE",
        Error::StreamNotFound(_) => "-MISSING",
        _ => "",
    }
}

impl fmt::Display for Problem {
    fn fmt<W: fmt::Write>(&self, f: &mut fmt::Formatter<W>) -> fmt::Result {
        match self {
            Problem::Error(error) => write!(f, "{error}"),
            Problem::Inconsistent(what) => write!(f, "{what}"),
        }
    }
}
