//! The types that names mean.

use crate::memory::AllocResult;
use crate::table_walk::{Found, Walked};
use pdb_base::{Error, TypeIndex};
use pdbdump_types::{Table, index_named, matches};
use std::alloc::{AllocError, Global};

/// Returns whether the name of a type matches a pattern, if there is one.
fn is_wanted(found: &Found<'_>, pattern: Option<&[u8]>) -> bool {
    match pattern {
        Some(pattern) => matches(pattern, found.named.name.as_bytes()),
        None => true,
    }
}

/// Returns the definitions along a table whose names match a pattern, or all of them.
///
/// # Errors
/// Fails if an allocation fails.
fn matching(
    alloc: Global,
    walked: &Walked<'_>,
    pattern: Option<&[u8]>,
) -> AllocResult<Vec<TypeIndex>> {
    let mut types = Vec::new(alloc);
    for found in &walked.found {
        if !found.named.is_forward && is_wanted(found, pattern) {
            types.push(found.index)?;
        }
    }
    Ok(types)
}

/// Returns the definitions along a table if all are declared, and else none.
///
/// # Errors
/// Fails if an allocation fails.
pub(crate) fn first_types(
    alloc: Global,
    walked: &Walked<'_>,
    has_all: bool,
) -> AllocResult<Vec<TypeIndex>> {
    if has_all {
        matching(alloc, walked, None)
    } else {
        Ok(Vec::new(alloc))
    }
}

/// Returns the definition of the type of an index, or none.
fn definition_at(table: Table<'_, '_>, index: TypeIndex) -> AllocResult<Vec<TypeIndex>> {
    let mut types = Vec::new(table.alloc);
    match table.definitions.definition_of(table.alloc, index) {
        Ok(Some(definition)) => types.push(definition)?,
        Err(Error::OutOfMemory) => return Err(AllocError),
        Ok(None) | Err(_) => {}
    }
    Ok(types)
}

/// Returns the definitions that a name means: that of an index such as `0x1026`, those of a pattern
/// with `*` or `?`, or those of the name.
///
/// # Errors
/// Fails with `OutOfMemory` if an allocation fails.
pub(crate) fn types_named(
    table: Table<'_, '_>,
    walked: &Walked<'_>,
    name: &str,
) -> Result<Vec<TypeIndex>, Error> {
    if let Some(index) = index_named(name) {
        return Ok(definition_at(table, index)?);
    }
    Ok(matching(table.alloc, walked, Some(name.as_bytes()))?)
}
