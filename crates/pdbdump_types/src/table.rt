//! The table of types that a call reads, and what is defined in it.

ghost use Rattle.pdb_base.specs.Answer.{Answers};
ghost use Rattle.pdb_tpi.specs.Table.{table_of};

use crate::classes::type_at;
use pdb_base::{Error, Stream, TypeIndex};
use pdb_tpi::{OpenTable, TypeInformation};
use pdb_types::Definitions;
use pdb_values::TypeData;
use std::alloc::Global;

/// Returns the table in a stream, which knows where all its types are.
///
/// # Errors
/// Fails with the errors of `TypeInformation::parse`, and with `OutOfMemory` if an allocation fails.
pub fn learn_table(alloc: Global, stream: Stream) -> Result<OpenTable<TypeIndex>, Error>
    ensures { Answers (λ types. types.table) result (table_of stream) }
{
    let table = TypeInformation::parse(stream)?;
    let last = table.header().maximum_index.saturating_sub(1);
    let mut types = OpenTable::new(alloc, table)?;
    types.learn(TypeIndex(last));
    Ok(types)
}

/// A table of types with its definitions, and where what is made of it is allocated.
#[derive(Clone, Copy)]
pub struct Table<'d, 't> {
    /// Where lists and texts are allocated.
    pub alloc: Global,

    /// The definitions of the table.
    pub definitions: &'d Definitions<'t>,
}

impl<'t> Table<'_, 't> {
    /// Returns the type of an index.
    ///
    /// # Errors
    /// Fails as `OpenTable::item` and `Type::parse` do.
    pub fn type_at(self, index: TypeIndex) -> Result<TypeData<'t>, Error> {
        type_at(self.alloc, self.definitions.types(), index)
    }
}
