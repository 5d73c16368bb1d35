//! Types by their name.

ghost use Rattle.std.specs.Prelude.{◌≡◌, Ok, IfOk, map};
ghost use Rattle.pdb_examples.specs.Uses.{has_name, types_in, types_of};
ghost use Rattle.pdb_container.specs.Item.{item_bytes, index_of};
ghost use Rattle.pdb_container.specs.Record.{type_of};

use pdb_container::{
    Error, FallibleIterator, Msf, Result, Type, TypeIndex, TypeInformation, open_msf,
};
use std::alloc::Global;

/// Whether a type has this name. A type of a kind that isn't read has none.
fn is_named(alloc: Global, item: &Type<'_>, name: &[u8]) -> Result<bool>
    ensures { IfOk result (λ is. is ≡ has_name name.now (type_of (index_of item.now).0 (item_bytes item.now))) }
{
    match item.parse(alloc) {
        Ok(data) => Ok(matches!(data.name(), Some(text) if text.as_bytes() == name)),
        Err(Error::UnimplementedTypeKind(_)) => Ok(false),
        Err(error) => Err(error),
    }
}

/// The indexes of all types of a name in a table.
fn those_named(alloc: Global, types: &TypeInformation, name: &[u8]) -> Result<Vec<TypeIndex>>
    ensures { IfOk result (λ found. types_in name.now types.now ≡ map (λ index. index.0) found.items) }
{
    let mut items = types.iter();
    let mut found = Vec::new(alloc);
    while let Some(item) = items.next()? {
        if is_named(alloc, &item, name)? {
            found.push(item.index())?;
        }
    }
    Ok(found)
}

/// The indexes of all types of a name.
///
/// # Errors
/// The errors of `open_msf`, of `Msf::get` for stream 2 and of `TypeInformation::parse`, and then
/// the first error along the types. `OutOfMemory` if an allocation fails.
pub fn types_named(alloc: Global, bytes: Vec<u8>, name: &[u8]) -> Result<Vec<TypeIndex>>
    ensures { IfOk result (λ found. types_of name.now bytes.items ≡ Ok (map (λ index. index.0) found.items)) }
{
    let mut file = open_msf(alloc, bytes)?;
    let types = TypeInformation::parse(file.get(alloc, 2, None)?)?;
    those_named(alloc, &types, name)
}
