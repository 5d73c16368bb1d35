//! The text of types in C, in which another names the classes.

ghost use Rattle.pdb_types.specs.Text.{FailsAsTable};

use crate::budget::{Budget, MOST_BYTES, Naming};
use crate::definitions::Definitions;
use crate::text::MOST_DEPTH;
use pdb_base::{Result, TypeIndex};
use pdb_values::PrimitiveKind;
use std::alloc::Global;

/// Returns the words by which C and C++ both call a primitive type where `wchar_t` and `bool` are
/// there, or None for a type that Microsoft's C has no name for.
pub(crate) fn common_name(kind: PrimitiveKind) -> Option<&'static str> {
    match kind {
        PrimitiveKind::Void => Some("void"),
        PrimitiveKind::RChar => Some("char"),
        PrimitiveKind::Char | PrimitiveKind::I8 => Some("signed char"),
        PrimitiveKind::UChar | PrimitiveKind::U8 => Some("unsigned char"),
        PrimitiveKind::WChar => Some("wchar_t"),
        PrimitiveKind::Bool8 => Some("bool"),
        PrimitiveKind::Short | PrimitiveKind::I16 => Some("short"),
        PrimitiveKind::RChar16
        | PrimitiveKind::UShort
        | PrimitiveKind::U16
        | PrimitiveKind::Bool16 => Some("unsigned short"),
        PrimitiveKind::I32 => Some("int"),
        PrimitiveKind::RChar32 | PrimitiveKind::U32 | PrimitiveKind::Bool32 => Some("unsigned int"),
        PrimitiveKind::HRESULT | PrimitiveKind::Long => Some("long"),
        PrimitiveKind::ULong => Some("unsigned long"),
        PrimitiveKind::Quad | PrimitiveKind::I64 => Some("long long"),
        PrimitiveKind::UQuad | PrimitiveKind::U64 | PrimitiveKind::Bool64 => {
            Some("unsigned long long")
        }
        PrimitiveKind::F32 | PrimitiveKind::F32PP => Some("float"),
        PrimitiveKind::F64 => Some("double"),
        _ => None,
    }
}

impl<'t> Definitions<'t> {
    /// Returns the declaration of a name that has a type, as C and C++ both spell it, with a mark in
    /// the place of the name of each class, union and enumeration: `@` and the index that the table
    /// refers to it by, in eight hexadecimal digits. A writer of declarations puts names of its own
    /// there. A reference is a pointer.
    ///
    /// Returns None for a type that C has no words for, such as a pointer to a member and a number
    /// of 128 bits, and where `type_text` is cut.
    ///
    /// # Errors
    /// Fails as `type_text` does.
    pub fn marked_text(
        &self,
        alloc: Global,
        index: TypeIndex,
        name: &[u8],
    ) -> Result<Option<Vec<u8>>>
        ensures { FailsAsTable self.now result }
    {
        let mut budget = Budget::new(Naming::Marked, MOST_BYTES);
        let name = budget.take(name);
        let text = self.declare(alloc, index, name, MOST_DEPTH, &mut budget)?;
        if budget.is_cut || text.len() > MOST_BYTES {
            return Ok(None);
        }
        Ok(Some(text))
    }
}
