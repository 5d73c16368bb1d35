//! What names mean in a table.

use crate::member_path::{Path, PathEnd, follow};
use pdb_base::{Result, TypeIndex};
use pdbdump_types::{
    Allowance, LetterCase, Table, Wanted, class_of, classes_in, index_named, steps_behind, type_at,
};

/// Returns the types that a name means: that of an index such as `0x1026`, those of a pattern with
/// `*` or `?`, or the definitions of the name.
///
/// # Errors
/// Fails with `OutOfMemory` if an allocation fails.
pub(crate) fn types_named(
    table: Table<'_, '_>,
    name: &str,
    case: LetterCase,
) -> Result<Vec<TypeIndex>> {
    if let Some(index) = index_named(name) {
        return Ok(vec![in table.alloc; index]?);
    }
    let wanted = Wanted::Meant(name.as_bytes(), case);
    Ok(classes_in(table.alloc, table.definitions.types(), wanted)?)
}

/// Returns the paths that begin with the name of a class and a point, those with the longest names
/// first.
fn paths_of<'p>(table: Table<'_, '_>, path: &'p [u8], case: LetterCase) -> Result<Vec<Path<'p>>> {
    let mut paths = Vec::new(table.alloc);
    let classes = classes_in(
        table.alloc,
        table.definitions.types(),
        Wanted::Before(path, case),
    )?;
    for class in &classes {
        let value = table.type_at(*class)?;
        let name = class_of(&value).map(|class| class.name);
        let steps = name.and_then(|name| steps_behind(path, name.as_bytes(), case));
        if let Some(steps) = steps {
            paths.push(Path {
                class: *class,
                bytes: path,
                steps,
                case,
            })?;
        }
    }
    paths.sort_by_key(|path| path.steps.len())?;
    Ok(paths)
}

/// Returns whether a path leads to a member.
fn is_member(end: &PathEnd<'_, '_>) -> bool {
    matches!(end, PathEnd::Member(_))
}

/// Returns where a path ends such as `Derived.inner.tag`, from the first definition of the longest
/// name before a point from which it leads to a member, or else where it ends from the first; or None
/// if no class has a name before a point.
///
/// # Errors
/// Fails as `follow` does for a class with whose name the path begins, and with `OutOfMemory` if an
/// allocation fails.
pub(crate) fn path_end<'t, 'p>(
    table: Table<'_, 't>,
    path: &'p [u8],
    case: LetterCase,
    records: &mut Allowance,
) -> Result<Option<PathEnd<'t, 'p>>> {
    let mut first = None;
    let paths = paths_of(table, path, case)?;
    for path in &paths {
        let end = follow(table, path, records)?;
        if is_member(&end) {
            return Ok(Some(end));
        }
        first = first.or(Some(end));
    }
    Ok(first)
}
