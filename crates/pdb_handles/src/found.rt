//! Values that may be missing, and results that may be errors.

ghost use Rattle.std.specs.Prelude.{◌≡◌};
ghost use Rattle.pdb_base.specs.Answer.{Answer, Answers, Gives};
ghost use Rattle.pdb_handles.specs.{Fault.fine, Found.answer_or_fault, Found.value_or_fault, Copied.IsAnswerTold};

use crate::fault::{FINE, Fault};
use pdb_base::Result;

/// Writes a value.
pub fn tell_value<T: Copy>(given: T, value: &mut T) -> Fault
    ensures fault { result ≡ fine }
    ensures value { value.new ≡ given }
{
    *value = given;
    Fault::status(FINE)
}

/// Writes a value that was found, or returns the fault `missing` if there is none.
pub fn tell_found<T: Copy>(answer: Option<T>, missing: Fault, value: &mut T) -> Fault
    ensures { record { fault = result; value = value.new } ≡ value_or_fault missing value.old answer }
{
    match answer {
        Some(number) => tell_value(number, value),
        None => missing,
    }
}

/// Writes the value of an answer, or returns the fault of its error.
pub fn tell_answered<T: Copy>(answer: Result<T>, value: &mut T) -> Fault
    ensures given { (meant : Answer T) → Gives (λ number. number) answer meant
        → record { fault = result; value = value.new } ≡ answer_or_fault value.old meant }
    ensures read { (meant : Answer T) → Answers (λ number. number) answer meant
        → IsAnswerTold (λ number. number) meant value.old result value.new }
{
    match answer {
        Ok(number) => tell_value(number, value),
        Err(error) => Fault::of(&error),
    }
}
