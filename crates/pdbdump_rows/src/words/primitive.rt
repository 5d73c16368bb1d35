//! Primitive types in words.

use pdb_values::{Indirection, PrimitiveKind};

/// Returns the name of a primitive type.
pub(crate) fn primitive_word(kind: PrimitiveKind) -> &'static str {
    match kind {
        PrimitiveKind::NoType => "NoType",
        PrimitiveKind::Void => "Void",
        PrimitiveKind::HRESULT => "HRESULT",
        PrimitiveKind::Char => "Char",
        PrimitiveKind::UChar => "UChar",
        PrimitiveKind::I8 => "I8",
        PrimitiveKind::U8 => "U8",
        PrimitiveKind::RChar => "RChar",
        PrimitiveKind::WChar => "WChar",
        PrimitiveKind::RChar16 => "RChar16",
        PrimitiveKind::RChar32 => "RChar32",
        PrimitiveKind::Short => "Short",
        PrimitiveKind::UShort => "UShort",
        PrimitiveKind::I16 => "I16",
        PrimitiveKind::U16 => "U16",
        PrimitiveKind::Long => "Long",
        PrimitiveKind::ULong => "ULong",
        PrimitiveKind::I32 => "I32",
        PrimitiveKind::U32 => "U32",
        PrimitiveKind::Quad => "Quad",
        PrimitiveKind::UQuad => "UQuad",
        PrimitiveKind::I64 => "I64",
        PrimitiveKind::U64 => "U64",
        PrimitiveKind::Octa => "Octa",
        PrimitiveKind::UOcta => "UOcta",
        PrimitiveKind::I128 => "I128",
        PrimitiveKind::U128 => "U128",
        PrimitiveKind::F16 => "F16",
        PrimitiveKind::F32 => "F32",
        PrimitiveKind::F32PP => "F32PP",
        PrimitiveKind::F48 => "F48",
        PrimitiveKind::F64 => "F64",
        PrimitiveKind::F80 => "F80",
        PrimitiveKind::F128 => "F128",
        PrimitiveKind::Complex32 => "Complex32",
        PrimitiveKind::Complex64 => "Complex64",
        PrimitiveKind::Complex80 => "Complex80",
        PrimitiveKind::Complex128 => "Complex128",
        PrimitiveKind::Bool8 => "Bool8",
        PrimitiveKind::Bool16 => "Bool16",
        PrimitiveKind::Bool32 => "Bool32",
        PrimitiveKind::Bool64 => "Bool64",
    }
}

/// Returns the name of a kind of pointer to a primitive type.
pub(crate) fn indirection_word(pointer: Indirection) -> &'static str {
    match pointer {
        Indirection::Near16 => "Near16",
        Indirection::Far16 => "Far16",
        Indirection::Huge16 => "Huge16",
        Indirection::Near32 => "Near32",
        Indirection::Far32 => "Far32",
        Indirection::Near64 => "Near64",
        Indirection::Near128 => "Near128",
    }
}
