//! How a member holds its type.

use crate::context::Context;
use crate::known::Known;
use pdb_base::{Result, TypeIndex};
use pdb_flags::PointerMode;
use pdb_values::{ArrayType, Indirection, PointerType, TypeData};
use pdbdump_types::type_at;

/// How many types are gone through at most of which each is within the one before.
const MOST_WITHIN: u32 = 32;

/// Returns the type whose definition a type needs, if that is within it: the type without modifiers,
/// that of the elements, or the one whose bits a bit field takes.
fn inner_type(value: &TypeData<'_>) -> Option<TypeIndex> {
    match value {
        TypeData::Modifier(modifier) => Some(modifier.underlying_type),
        TypeData::Array(array) => Some(array.element_type),
        TypeData::Bitfield(field) => Some(field.underlying_type),
        _ => None,
    }
}

/// Returns how many bytes a pointer to a primitive type has, if programs still have such pointers.
fn indirection_size(indirection: Indirection) -> Option<u64> {
    match indirection {
        Indirection::Near32 => Some(4),
        Indirection::Near64 => Some(8),
        _ => None,
    }
}

/// Returns whether an array has a whole number of elements in each of its dimensions.
fn has_whole_dimensions(array: &ArrayType, element: u64) -> bool {
    let mut part = element;
    for dimension in &array.dimensions {
        let whole = *dimension as u64;
        if part == 0 || whole % part != 0 {
            return false;
        }
        part = whole;
    }
    true
}

impl<'d, 't> Context<'d, 't> {
    /// Returns to how many bytes a pointer to a primitive type is aligned, if the program's compiler
    /// has such pointers.
    fn indirection_alignment(&self, indirection: Indirection) -> Option<u64> {
        let size = indirection_size(indirection)?;
        if size == self.pointer_size {
            Some(size)
        } else {
            None
        }
    }

    /// Returns whether a pointer is one that the program's compiler has: one of its size, to an
    /// object or a function.
    fn is_plain(&self, pointer: &PointerType) -> bool {
        let is_to_member = match pointer.attributes.pointer_mode() {
            PointerMode::Member | PointerMode::MemberFunction => true,
            _ => pointer.containing_class.is_some(),
        };
        !is_to_member && pointer.attributes.size() as u64 == self.pointer_size
    }

    /// Returns to how many bytes a pointer is aligned, or None if C can't say it. What it points to
    /// may be defined later, but not if that is an array.
    fn pointer_alignment(&self, pointer: &PointerType, known: &Known) -> Result<Option<u64>> {
        if !self.is_plain(pointer) {
            return Ok(None);
        }
        let value = self.table.type_at(pointer.underlying_type)?;
        if let TypeData::Array(array) = &value {
            if let Some(needed) = self
                .table
                .definitions
                .held_definition(self.table.alloc, array.element_type)?
            {
                if known.alignment(needed).is_none() {
                    return Ok(None);
                }
            }
        }
        Ok(Some(self.pointer_size))
    }

    /// Returns to how many bytes a type of no other type is aligned, or None if a header can't have a
    /// member of it.
    fn last_alignment(
        &self,
        index: TypeIndex,
        value: &TypeData<'t>,
        known: &Known,
    ) -> Result<Option<u64>> {
        match value {
            TypeData::Primitive(primitive) => match primitive.indirection {
                Some(indirection) => Ok(self.indirection_alignment(indirection)),
                None => self.table.definitions.size_of(self.table.alloc, index),
            },
            TypeData::Pointer(pointer) => self.pointer_alignment(pointer, known),
            _ => match self
                .table
                .definitions
                .definition_of(self.table.alloc, index)?
            {
                Some(definition) => Ok(known.alignment(definition)),
                None => Ok(None),
            },
        }
    }

    /// Returns to how many bytes a type is aligned, or None if a header can't have a member of it: if
    /// it isn't defined before, if its array isn't whole, or if it is a pointer that the program's
    /// compiler hasn't.
    ///
    /// # Errors
    /// Fails as `Definitions::size_of` does.
    pub(crate) fn alignment(&self, index: TypeIndex, known: &Known) -> Result<Option<u64>> {
        let mut index = index;
        for _ in 0..MOST_WITHIN {
            let value = self.table.type_at(index)?;
            if let TypeData::Array(array) = &value {
                let element = self
                    .table
                    .definitions
                    .size_of(self.table.alloc, array.element_type)?;
                if !has_whole_dimensions(array, element.unwrap_or(0)) {
                    return Ok(None);
                }
            }
            match inner_type(&value) {
                Some(inner) => index = inner,
                None => return self.last_alignment(index, &value, known),
            }
        }
        Ok(None)
    }
}
