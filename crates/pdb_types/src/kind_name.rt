//! The names of primitive types.

use pdb_values::PrimitiveKind;

/// Returns the name of a number, or None if the type is none.
fn number_name(kind: PrimitiveKind) -> Option<&'static str> {
    match kind {
        PrimitiveKind::I8 => Some("__int8"),
        PrimitiveKind::U8 => Some("unsigned __int8"),
        PrimitiveKind::Short => Some("short"),
        PrimitiveKind::UShort => Some("unsigned short"),
        PrimitiveKind::I16 => Some("__int16"),
        PrimitiveKind::U16 => Some("unsigned __int16"),
        PrimitiveKind::Long => Some("long"),
        PrimitiveKind::ULong => Some("unsigned long"),
        PrimitiveKind::I32 => Some("int"),
        PrimitiveKind::U32 => Some("unsigned int"),
        PrimitiveKind::Quad | PrimitiveKind::I64 => Some("__int64"),
        PrimitiveKind::UQuad | PrimitiveKind::U64 => Some("unsigned __int64"),
        PrimitiveKind::Octa | PrimitiveKind::I128 => Some("__int128"),
        PrimitiveKind::UOcta | PrimitiveKind::U128 => Some("unsigned __int128"),
        _ => None,
    }
}

/// Returns the name of a floating-point type, or None if the type is none.
fn float_name(kind: PrimitiveKind) -> Option<&'static str> {
    match kind {
        PrimitiveKind::F16 => Some("__half"),
        PrimitiveKind::F32 | PrimitiveKind::F32PP => Some("float"),
        PrimitiveKind::F48 => Some("__float48"),
        PrimitiveKind::F64 => Some("double"),
        PrimitiveKind::F80 => Some("long double"),
        PrimitiveKind::F128 => Some("__float128"),
        PrimitiveKind::Complex32 => Some("_Complex float"),
        PrimitiveKind::Complex64 => Some("_Complex double"),
        PrimitiveKind::Complex80 => Some("_Complex long double"),
        PrimitiveKind::Complex128 => Some("_Complex __float128"),
        _ => None,
    }
}

/// Returns the name of a type that is no number.
fn other_name(kind: PrimitiveKind) -> &'static str {
    match kind {
        PrimitiveKind::Void => "void",
        PrimitiveKind::HRESULT => "HRESULT",
        PrimitiveKind::Char => "signed char",
        PrimitiveKind::UChar => "unsigned char",
        PrimitiveKind::RChar => "char",
        PrimitiveKind::WChar => "wchar_t",
        PrimitiveKind::RChar16 => "char16_t",
        PrimitiveKind::RChar32 => "char32_t",
        PrimitiveKind::Bool8 => "bool",
        PrimitiveKind::Bool16 => "__bool16",
        PrimitiveKind::Bool32 => "__bool32",
        PrimitiveKind::Bool64 => "__bool64",
        _ => "<no type>",
    }
}

/// Returns the name of a primitive type as LLVM spells it, and `unsigned int` in full. It is
/// `<no type>` if no type is stated.
pub(crate) fn kind_name(kind: PrimitiveKind) -> &'static str {
    match number_name(kind) {
        Some(name) => name,
        None => match float_name(kind) {
            Some(name) => name,
            None => other_name(kind),
        },
    }
}
