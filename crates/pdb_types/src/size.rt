//! The sizes of types.

ghost use Rattle.pdb_base.specs.Answer.{Answers};
ghost use Rattle.pdb_types.specs.Size.{size_of, source_of_size};

use crate::definitions::Definitions;
use crate::size_source::{SizeSource, size_source};
use crate::type_at::type_at;
use pdb_base::{Result, TypeIndex};
use std::alloc::Global;

impl<'t> Definitions<'t> {
    /// Returns what says the size of the type of an index: its record, or that of its definition.
    #[tactic(auto, unfolding(crate::specs::Size::source_of_size, crate::specs::Definition::definition_of))]
    pub(crate) fn size_source(&self, alloc: Global, index: TypeIndex) -> Result<SizeSource>
        ensures { Answers (λ source. source) result (source_of_size self.now index.0) }
    {
        let value = type_at(self.types(), alloc, index)?;
        match self.definition_by(alloc, index, &value)? {
            Some(definition) if definition != index => {
                Ok(size_source(&type_at(self.types(), alloc, definition)?))
            }
            _ => Ok(size_source(&value)),
        }
    }

    /// Returns the size of a type in bytes, or None if nothing says it.
    ///
    /// A primitive type has the size that its kind implies, or that of the pointer if it is one: 2
    /// bytes for a near pointer of 16 bits, 4 for the other pointers of 16 and 32 bits, and 8 and
    /// 16 for those of 64 and 128. A pointer has the size that its attributes state; an array its
    /// last dimension; a class or a union the size that its record states. An enumeration is as
    /// large as its underlying type, a bit field as the type whose bits it takes, and a type with a
    /// modifier as the one without. A forward reference is as large as its definition. Nothing says
    /// the size of `void`, of a function, of a list, and of a forward reference that the table
    /// doesn't define.
    ///
    /// Compilers write a type behind those that it refers to. So nothing says the size of a type
    /// that is said to be as large as one of its own or a higher index.
    ///
    /// # Errors
    /// Fails with the first error along the types that it is said to be as large as: those of
    /// `OpenTable::item` and `Type::parse`. Fails with `OutOfMemory` if an allocation fails.
    pub fn size_of(&self, alloc: Global, index: TypeIndex) -> Result<Option<u64>>
        ensures { Answers (λ size. size) result (size_of self.now index.0) }
    {
        let mut index = self.along_shortcut(index);
        loop {
            match self.size_source(alloc, index)? {
                SizeSource::Stated(size) => return Ok(Some(size)),
                SizeSource::SameAs(other) => {
                    if other >= index {
                        return Ok(None);
                    }
                    index = self.along_shortcut(other);
                }
                SizeSource::Unknown => return Ok(None),
            }
        }
    }
}
