//! Fields of headers that may be wrong.

ghost use Rattle.std.specs.Prelude.{◌≡◌, Ok};
ghost use Rattle.pdb_base.specs.Answer.{Answers};
ghost use Rattle.pdb_validation.specs.HeaderFields.{field_mismatch, fields_mismatches};
ghost use Rattle.pdb_validation.specs.Mismatch.{asked_of, with_further};

use crate::inconsistency::Inconsistency;
use crate::mismatch::{Extent, Mismatch, add};
use pdb_base::Result;
use std::alloc::Global;

/// A field of a header that may be wrong.
#[derive(Clone, Copy)]
pub(crate) struct FieldCheck {
    /// Whether it is wrong.
    pub(crate) is_wrong: bool,
    /// The byte of the stream at which it is, or None if it is at no byte.
    pub(crate) byte: Option<u64>,
    /// What does not hold if it is wrong.
    pub(crate) what: Inconsistency,
}

/// Returns the mismatch of a field in a stream, or in none, if the field is wrong.
fn field_mismatch(stream: Option<u32>, field: FieldCheck) -> Option<Mismatch>
    ensures { result ≡ field_mismatch stream field }
{
    field.is_wrong.then_some(Mismatch {
        stream,
        index: None,
        byte: field.byte,
        what: field.what,
    })
}

/// Adds the mismatches of the fields of a header.
#[tactic(auto, unfolding(crate::specs::HeaderFields::fields_mismatches))]
pub(crate) fn add_fields(
    stream: Option<u32>,
    fields: &[FieldCheck],
    extent: Extent,
    mismatches: &mut Vec<Mismatch>,
) -> Result<()>
    ensures { Answers (λ done. mismatches.new.items) result
        (Ok (with_further extent mismatches.old.items (fields_mismatches stream fields.now))) }
{
    for field in fields {
        add(mismatches, extent, field_mismatch(stream, *field))?;
    }
    Ok(())
}

/// Returns the mismatches of the fields of a header.
#[tactic(auto, using(crate::proofs::MismatchLemmas::asked_are))]
pub(crate) fn check_fields(
    alloc: Global,
    stream: Option<u32>,
    fields: &[FieldCheck],
    extent: Extent,
) -> Result<Vec<Mismatch>>
    ensures { Answers (λ mismatches. mismatches.items) result
        (Ok (asked_of extent (fields_mismatches stream fields.now))) }
{
    let mut mismatches = Vec::new(alloc);
    add_fields(stream, fields, extent, &mut mismatches)?;
    Ok(mismatches)
}
