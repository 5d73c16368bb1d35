//! One of two tables that are compared.

use crate::pairing::hash_of_definition;
use crate::version::Version;
use pdb_base::{Error, FallibleIterator, TypeIndex};
use pdb_tpi::{OpenTable, Type};
use pdb_types::Definitions;
use pdbdump_types::{Allowance, Defined, Table, Unread, defined_by, records_of};
use std::alloc::{AllocError, Global};

/// Why definitions aren't compared.
const TOO_MANY: &str = "comparison of so many fields, so that more is left out";

/// One of two tables that are compared.
#[derive(Drop)]
pub struct ComparedTable<'t> {
    /// How many bytes its records have.
    pub(crate) bytes: usize,

    /// The definitions of the table.
    definitions: Definitions<'t>,

    /// Those whose names are wanted, in the order of the table.
    pub(crate) wanted: Vec<TypeIndex>,

    /// The hashes of the names by which these are paired with others.
    pub(crate) hashes: Vec<u64>,

    /// The records that may define a type and that can't be read.
    pub(crate) unread: Unread,
}

/// Returns the definition that an item is, or None if it is none, or if it can't be read, which is
/// counted.
fn defined_in<'t>(
    alloc: Global,
    item: &Type<'t>,
    unread: &mut Unread,
) -> Result<Option<Defined<'t>>, AllocError> {
    match unread.read(alloc, item)? {
        Some(value) => Ok(defined_by(&value)),
        None => Ok(None),
    }
}

impl<'t> ComparedTable<'t> {
    /// Finds the definitions of a table whose names are wanted: all if no name is given, in which
    /// `*` and `?` are allowed.
    ///
    /// # Errors
    /// Fails with the fault at which the walk along the table stops if that is before its end, and
    /// with `OutOfMemory` if an allocation fails.
    pub fn new(
        alloc: Global,
        types: &'t OpenTable<TypeIndex>,
        wanted: &[&str],
    ) -> Result<Self, Error> {
        let definitions = Definitions::new(alloc, types)?;
        let mut table = ComparedTable {
            bytes: 0,
            definitions,
            wanted: Vec::new(alloc),
            hashes: Vec::new(alloc),
            unread: Unread::none(),
        };
        let mut items = types.items().iter();
        for _ in 0..u64::MAX {
            let Some(item) = items.next()? else {
                break;
            };
            table.bytes = table.bytes.saturating_add(item.len());
            let Some(defined) = defined_in(alloc, &item, &mut table.unread)? else {
                continue;
            };
            if defined.is_wanted(wanted) {
                table.wanted.push(item.index())?;
                table.hashes.push(hash_of_definition(&defined))?;
            }
        }
        Ok(table)
    }

    /// Returns whether one of the definitions that are wanted has a name, which may be a pattern.
    ///
    /// # Errors
    /// Fails if an allocation fails.
    pub(crate) fn has(&self, alloc: Global, name: &str) -> Result<bool, AllocError> {
        // Each of these could be read.
        let mut unread = Unread::none();
        for index in &self.wanted {
            let Ok(item) = self.definitions.types().item(*index) else {
                continue;
            };
            if let Some(defined) = defined_in(alloc, &item, &mut unread)? {
                if defined.is_wanted(&[name]) {
                    return Ok(true);
                }
            }
        }
        Ok(false)
    }

    /// Returns the table with its definitions.
    fn table(&self, alloc: Global) -> Table<'_, 't> {
        Table {
            alloc,
            definitions: &self.definitions,
        }
    }

    /// Returns the definition with an index.
    ///
    /// # Errors
    /// Fails as `Version::at` does.
    pub(crate) fn version(
        &self,
        alloc: Global,
        index: TypeIndex,
    ) -> Result<Option<Version<'_, 't>>, Error> {
        Version::at(self.table(alloc), index)
    }

    /// Takes the records of the fields of a definition from those that may yet be read.
    ///
    /// # Errors
    /// Fails with `UnimplementedFeature` if there aren't as many, and with `OutOfMemory` if an
    /// allocation fails.
    pub(crate) fn take_records(
        &self,
        alloc: Global,
        index: TypeIndex,
        records: &mut Allowance,
    ) -> Result<(), Error> {
        let count = records_of(self.table(alloc), index, records.left())?;
        if records.take(count) {
            Ok(())
        } else {
            Err(Error::UnimplementedFeature(TOO_MANY))
        }
    }
}
