//! The sizes of primitive types.

ghost use Rattle.std.specs.Prelude.{◌≡◌};
ghost use Rattle.pdb_types.specs.PrimitiveSize.{kind_size, primitive_pointer_size, primitive_size};

use pdb_values::{Indirection, PrimitiveKind, PrimitiveType};

/// Returns the size of a value of a primitive type in bytes. `void`, and a type that isn't stated,
/// have no values and no size.
fn kind_size(kind: PrimitiveKind) -> Option<u64>
    ensures { result ≡ kind_size kind }
{
    match kind {
        PrimitiveKind::NoType | PrimitiveKind::Void => None,
        PrimitiveKind::Char
        | PrimitiveKind::UChar
        | PrimitiveKind::I8
        | PrimitiveKind::U8
        | PrimitiveKind::RChar
        | PrimitiveKind::Bool8 => Some(1),
        PrimitiveKind::WChar
        | PrimitiveKind::RChar16
        | PrimitiveKind::Short
        | PrimitiveKind::UShort
        | PrimitiveKind::I16
        | PrimitiveKind::U16
        | PrimitiveKind::F16
        | PrimitiveKind::Bool16 => Some(2),
        PrimitiveKind::HRESULT
        | PrimitiveKind::RChar32
        | PrimitiveKind::Long
        | PrimitiveKind::ULong
        | PrimitiveKind::I32
        | PrimitiveKind::U32
        | PrimitiveKind::F32
        | PrimitiveKind::F32PP
        | PrimitiveKind::Bool32 => Some(4),
        PrimitiveKind::F48 => Some(6),
        PrimitiveKind::Quad
        | PrimitiveKind::UQuad
        | PrimitiveKind::I64
        | PrimitiveKind::U64
        | PrimitiveKind::F64
        | PrimitiveKind::Complex32
        | PrimitiveKind::Bool64 => Some(8),
        PrimitiveKind::F80 => Some(10),
        PrimitiveKind::Octa
        | PrimitiveKind::UOcta
        | PrimitiveKind::I128
        | PrimitiveKind::U128
        | PrimitiveKind::F128
        | PrimitiveKind::Complex64 => Some(16),
        PrimitiveKind::Complex80 => Some(20),
        PrimitiveKind::Complex128 => Some(32),
    }
}

/// Returns the size of a pointer to a primitive type in bytes.
fn pointer_size(indirection: Indirection) -> u64
    ensures { result ≡ primitive_pointer_size indirection }
{
    match indirection {
        Indirection::Near16 => 2,
        Indirection::Far16 | Indirection::Huge16 | Indirection::Near32 | Indirection::Far32 => 4,
        Indirection::Near64 => 8,
        Indirection::Near128 => 16,
    }
}

/// Returns the size of a primitive type in bytes: that of the pointer if it is one, and otherwise
/// that of a value.
pub(crate) fn primitive_size(primitive: PrimitiveType) -> Option<u64>
    ensures { result ≡ primitive_size primitive }
{
    match primitive.indirection {
        Some(indirection) => Some(pointer_size(indirection)),
        None => kind_size(primitive.kind),
    }
}
