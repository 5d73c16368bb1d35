//! The fields of a class.

ghost use Rattle.std.specs.Prelude.{◌≡◌, IfOk, map};
ghost use Rattle.pdb_container.specs.Answer.{Answers};
ghost use Rattle.pdb_examples.specs.Uses.{FindsAll, fields_of_class, field_list_in};
ghost use Rattle.pdb_container.specs.Finder.{find_of};
ghost use Rattle.pdb_container.specs.TypeView.{type_value};

use pdb_container::{FallibleIterator, Result, TypeData, TypeFinder, TypeIndex, TypeInformation};
use std::alloc::Global;

/// A finder of all types of a table.
///
/// # Errors
/// The first fault along the types, and `OutOfMemory` if an allocation fails.
pub fn finder_of(alloc: Global, types: &TypeInformation) -> Result<TypeFinder<'_>>
    ensures { IfOk result (FindsAll types.now) }
{
    let mut finder = types.finder(alloc)?;
    let mut items = types.iter();
    while let Some(_) = items.next()? {
        finder.update(&items);
    }
    Ok(finder)
}

/// The list of the fields of a class.
fn list_in(value: &TypeData<'_>) -> Option<TypeIndex>
    ensures { result ≡ field_list_in (type_value value.now) }
{
    match value {
        TypeData::Class(class) => class.fields,
        _ => None,
    }
}

/// The fields of a class, those of the lists in which its list continues included. A type that is
/// no class, or a class without a list, has none.
///
/// # Errors
/// The errors of `TypeFinder::find`, `Type::parse` and `TypeFinder::fields`.
pub fn class_fields<'t>(
    alloc: Global,
    finder: &TypeFinder<'t>,
    class: TypeIndex,
) -> Result<Vec<TypeData<'t>>>
    ensures { Answers (λ fields. map type_value fields.items) result
        (fields_of_class (find_of finder.now.table finder.now.known) class.0) }
{
    let value = finder.find(class)?.parse(alloc)?;
    match list_in(&value) {
        Some(list) => finder.fields(alloc, list),
        None => Ok(Vec::new(alloc)),
    }
}
