//! Lists of numbers that a line shows.

use pdb_base::{IdIndex, TypeIndex};
use pdb_values::MethodListEntry;
use std::alloc::{AllocError, Global};

/// Returns the numbers of type indexes.
pub(crate) fn type_numbers(alloc: Global, indexes: &[TypeIndex]) -> Result<Vec<u32>, AllocError> {
    indexes.iter().map(|index| index.0).collect(alloc)
}

/// Returns the numbers of id indexes.
pub(crate) fn id_numbers(alloc: Global, indexes: &[IdIndex]) -> Result<Vec<u32>, AllocError> {
    indexes.iter().map(|index| index.0).collect(alloc)
}

/// Returns the numbers of methods' types.
pub(crate) fn method_numbers(
    alloc: Global,
    methods: &[MethodListEntry],
) -> Result<Vec<u32>, AllocError> {
    methods
        .iter()
        .map(|method| method.method_type.0)
        .collect(alloc)
}

/// Returns bytes as numbers.
pub(crate) fn byte_numbers(alloc: Global, bytes: &[u8]) -> Result<Vec<u32>, AllocError> {
    let mut numbers = Vec::with_capacity(alloc, bytes.len())?;
    for byte in bytes {
        numbers.push(*byte as u32)?;
    }
    Ok(numbers)
}
