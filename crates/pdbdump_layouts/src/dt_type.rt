//! Types as WinDbg's `dt` writes them.

use pdb_base::{Result, TypeIndex};
use pdb_flags::PointerMode;
use pdb_values::{ArrayType, Indirection, PointerType, PrimitiveKind, PrimitiveType, TypeData};
use pdbdump_types::{Table, TextAllowance, TextBuffer, type_at};

/// How many types one text goes through at most.
const MOST_TYPES: u32 = 32;

/// Returns the name of a primitive type, or None for one that `dt` has no name for.
fn kind_name(kind: PrimitiveKind) -> Option<&'static str> {
    match kind {
        PrimitiveKind::Void => Some("Void"),
        PrimitiveKind::Char | PrimitiveKind::RChar | PrimitiveKind::I8 => Some("Char"),
        PrimitiveKind::UChar | PrimitiveKind::U8 => Some("UChar"),
        PrimitiveKind::WChar | PrimitiveKind::RChar16 => Some("Wchar"),
        PrimitiveKind::Short | PrimitiveKind::I16 => Some("Int2B"),
        PrimitiveKind::UShort | PrimitiveKind::U16 => Some("Uint2B"),
        PrimitiveKind::Long | PrimitiveKind::I32 => Some("Int4B"),
        PrimitiveKind::ULong | PrimitiveKind::U32 => Some("Uint4B"),
        PrimitiveKind::Quad | PrimitiveKind::I64 => Some("Int8B"),
        PrimitiveKind::UQuad | PrimitiveKind::U64 => Some("Uint8B"),
        PrimitiveKind::F32 => Some("Float"),
        PrimitiveKind::F64 => Some("Double"),
        PrimitiveKind::Bool8 => Some("Bool"),
        _ => None,
    }
}

/// Returns the word for a pointer to a primitive type.
fn indirection_word(indirection: Indirection) -> &'static str {
    match indirection {
        Indirection::Near64 => "Ptr64 ",
        Indirection::Near128 => "Ptr128 ",
        Indirection::Near16 | Indirection::Far16 | Indirection::Huge16 => "Ptr16 ",
        Indirection::Near32 | Indirection::Far32 => "Ptr32 ",
    }
}

/// Appends a primitive type, if `dt` has a name for it, and returns whether it has.
fn push_primitive(primitive: PrimitiveType, text: &mut TextBuffer) -> bool {
    let Some(name) = kind_name(primitive.kind) else {
        return false;
    };
    if let Some(indirection) = primitive.indirection {
        text.push(indirection_word(indirection).as_bytes());
    }
    text.push(name.as_bytes());
    true
}

/// Returns whether a pointer is one to an object, and no reference or pointer to a member.
fn is_plain(pointer: &PointerType) -> bool {
    pointer.attributes.pointer_mode() == PointerMode::Pointer
}

/// Appends the dimensions of an array.
fn push_array<'t>(table: Table<'_, 't>, array: &ArrayType, text: &mut TextBuffer) -> Result<()> {
    let mut part = table
        .definitions
        .size_of(table.alloc, array.element_type)?
        .unwrap_or(0);
    let mut all = TextBuffer::new(table.alloc);
    for dimension in &array.dimensions {
        let whole = *dimension as u64;
        let count = if part == 0 { 0 } else { whole / part };
        let mut brackets = TextBuffer::new(table.alloc);
        brackets.push_string(format!(in table.alloc; "[{count}] "));
        brackets.push_text(&all);
        all = brackets;
        part = whole;
    }
    text.push_text(&all);
    Ok(())
}

/// Appends what a type says of the type within it, and returns that type; or returns None for a
/// type that has none, or that is written as C++ spells it.
fn push_outer<'t>(
    table: Table<'_, 't>,
    value: &TypeData<'t>,
    text: &mut TextBuffer,
) -> Result<Option<TypeIndex>> {
    match value {
        TypeData::Modifier(modifier) => Ok(Some(modifier.underlying_type)),
        TypeData::Pointer(pointer) if is_plain(pointer) => {
            let bits = pointer.attributes.size() as u32 * 8;
            text.push_string(format!(in table.alloc; "Ptr{bits} "));
            Ok(Some(pointer.underlying_type))
        }
        TypeData::Array(array) => {
            push_array(table, array, text)?;
            Ok(Some(array.element_type))
        }
        _ => Ok(None),
    }
}

/// Appends a type that no other type is within.
fn push_last<'t>(
    table: Table<'_, 't>,
    index: TypeIndex,
    value: &TypeData<'t>,
    texts: &mut TextAllowance,
    text: &mut TextBuffer,
) -> Result<()> {
    if let TypeData::Primitive(primitive) = value {
        if push_primitive(*primitive, text) {
            return Ok(());
        }
    }
    texts.push(table, index, b"", text)
}

/// Appends a type as WinDbg's `dt` writes it, such as `Ptr64 Node` or `[4] Uint4B`; one that is no
/// pointer, no array and no number as C++ spells it. The text is cut with `..` behind 32 types of
/// which each is within the one before.
pub(crate) fn push_dt_type<'t>(
    table: Table<'_, 't>,
    index: TypeIndex,
    texts: &mut TextAllowance,
    text: &mut TextBuffer,
) -> Result<()> {
    let mut index = index;
    for _ in 0..MOST_TYPES {
        let value = table.type_at(index)?;
        match push_outer(table, &value, text)? {
            Some(next) => index = next,
            None => return push_last(table, index, &value, texts, text),
        }
    }
    text.push(b"..");
    Ok(())
}
