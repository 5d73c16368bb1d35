//! How far the fields of a class go.

ghost use Rattle.std.specs.Prelude.{◌≡◌};
ghost use Rattle.pdb_base.specs.Answer.{Answers};
ghost use Rattle.pdb_values.specs.TypeView.{type_value};
ghost use Rattle.pdb_types.specs.Extent.{bits_of, extent_at, extent_of_size, field_bits};

use crate::definitions::Definitions;
use crate::span::Span;
use crate::type_at::type_at;
use pdb_base::{Result, TypeIndex};
use pdb_values::{BitfieldType, TypeData};
use std::alloc::Global;

/// How far a field of a class goes from its offset.
#[derive(Clone, Copy, Debug, PartialEq, Eq)]
pub enum Extent {
    /// It takes this number of bytes, the size of its type.
    Bytes(u64),

    /// It takes some bits.
    Bits(BitfieldType),

    /// Nothing says how large its type is.
    Unknown,
}

impl Extent {
    /// Returns the bits of a field that begins at an offset in bytes, counted from the start of the
    /// class: those of all bytes of its type, or those of a bit field. Returns a span without a
    /// place if nothing says how large its type is.
    ///
    /// The bits of an offset and a size up to 2^64 - 1 bytes are below 2^68.
    pub fn bits(self, offset: u64) -> Span
        ensures { result ≡ bits_of offset self }
    {
        let start = offset as u128 * 8;
        match self {
            Extent::Bytes(size) => Span {
                start,
                end: start + size as u128 * 8,
            },
            Extent::Bits(field) => {
                let start = start + field.position as u128;
                Span {
                    start,
                    end: start + field.length as u128,
                }
            }
            Extent::Unknown => Span { start, end: start },
        }
    }
}

/// Returns the extent of a field whose type has a size that may be known.
fn extent_of_size(size: Option<u64>) -> Extent
    ensures { result ≡ extent_of_size size }
{
    match size {
        Some(size) => Extent::Bytes(size),
        None => Extent::Unknown,
    }
}

/// Returns the bits that a type takes if it is a bit field.
fn field_bits(value: &TypeData<'_>) -> Option<BitfieldType>
    ensures { result ≡ field_bits (type_value value.now) }
{
    match value {
        TypeData::Bitfield(field) => Some(*field),
        _ => None,
    }
}

impl<'t> Definitions<'t> {
    /// Returns the extent of a field with the type of an index: the bits of a bit field, and else
    /// the size of the type.
    ///
    /// # Errors
    /// Fails as `OpenTable::item`, `Type::parse` and `size_of` do.
    #[tactic(auto, unfolding(crate::specs::Extent::extent_at))]
    pub(crate) fn extent(&self, alloc: Global, index: TypeIndex) -> Result<Extent>
        ensures { Answers (λ extent. extent) result (extent_at self.now index.0) }
    {
        let value = type_at(self.types(), alloc, index)?;
        match field_bits(&value) {
            Some(field) => Ok(Extent::Bits(field)),
            None => Ok(extent_of_size(self.size_of(alloc, index)?)),
        }
    }
}
