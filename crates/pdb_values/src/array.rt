//! Arrays.

ghost use Rattle.std.specs.Prelude.{Ok};
ghost use Rattle.pdb_base.specs.Answer.{Answers};
ghost use Rattle.pdb_base.specs.Memory.{LacksOnlyIf, HasItem};
ghost use Rattle.pdb_values.specs.Array.{array_value};

use pdb_base::{Result, TypeIndex};
use std::alloc::Global;

/// An array: `lfArray` of Microsoft's cvinfo.h, or `lfStridedArray`, which states a stride.
#[derive(Debug, PartialEq, Eq, Drop)]
pub struct ArrayType {
    /// The type of an element.
    pub element_type: TypeIndex,

    /// The type of an index.
    pub indexing_type: TypeIndex,

    /// The distance from one element to the next in bytes, if the record states it.
    pub stride: Option<u32>,

    /// For each dimension, the innermost first, the size in bytes of the array up to that
    /// dimension: a `float[4][4]` has `[16, 64]`. Most compilers write a single dimension, and an
    /// array of arrays for more.
    pub dimensions: Vec<u32>,
}

impl ArrayType {
    /// Returns an equal array, in memory of its own.
    ///
    /// # Errors
    /// Returns `OutOfMemory` if an allocation fails. Memory is allocated only if there is a
    /// dimension.
    pub fn clone(&self, alloc: Global) -> Result<Self>
        ensures copied { Answers array_value result (Ok (array_value self.now)) }
        ensures memory { LacksOnlyIf result (HasItem (array_value self.now).dimensions) }
    {
        let mut dimensions = Vec::new(alloc);
        dimensions.extend_from_slice(&self.dimensions)?;
        Ok(ArrayType {
            element_type: self.element_type,
            indexing_type: self.indexing_type,
            stride: self.stride,
            dimensions,
        })
    }
}
