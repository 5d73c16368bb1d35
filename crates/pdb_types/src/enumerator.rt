//! The values of enumerators, as numbers of the types under their enumerations.

ghost use Rattle.std.specs.Prelude.{◌≡◌, ◌<◌, ◌^◌, Some};
ghost use Rattle.pdb_values.specs.TypeView.{type_value};
ghost use Rattle.pdb_types.specs.Enumerator.{enumerator_value, integer_in, integer_kind, integer_under, value_as};
ghost use Rattle.pdb_types.specs.Enumerator.{value_bits};

use pdb_base::{TypeIndex, Variant};
use pdb_values::{FIRST_RECORD, PrimitiveKind, TypeData, type_data_for_primitive};

/// An integer type, of at most 64 bits.
#[derive(Clone, Copy, Debug, PartialEq, Eq)]
pub(crate) enum Integer {
    /// Of 8 bits, without a sign.
    U8,

    /// Of 16 bits, without a sign.
    U16,

    /// Of 32 bits, without a sign.
    U32,

    /// Of 64 bits, without a sign.
    U64,

    /// Of 8 bits, with a sign.
    I8,

    /// Of 16 bits, with a sign.
    I16,

    /// Of 32 bits, with a sign.
    I32,

    /// Of 64 bits, with a sign.
    I64,
}

/// Returns the integers that are of a primitive type, or None if there are none of at most 64 bits.
fn integer_kind(kind: PrimitiveKind) -> Option<Integer>
    ensures { result ≡ integer_kind kind }
{
    match kind {
        PrimitiveKind::UChar | PrimitiveKind::U8 | PrimitiveKind::Bool8 => Some(Integer::U8),
        PrimitiveKind::WChar
        | PrimitiveKind::RChar16
        | PrimitiveKind::UShort
        | PrimitiveKind::U16
        | PrimitiveKind::Bool16 => Some(Integer::U16),
        PrimitiveKind::RChar32
        | PrimitiveKind::ULong
        | PrimitiveKind::U32
        | PrimitiveKind::Bool32 => Some(Integer::U32),
        PrimitiveKind::UQuad | PrimitiveKind::U64 | PrimitiveKind::Bool64 => Some(Integer::U64),
        PrimitiveKind::Char | PrimitiveKind::RChar | PrimitiveKind::I8 => Some(Integer::I8),
        PrimitiveKind::Short | PrimitiveKind::I16 => Some(Integer::I16),
        PrimitiveKind::HRESULT | PrimitiveKind::Long | PrimitiveKind::I32 => Some(Integer::I32),
        PrimitiveKind::Quad | PrimitiveKind::I64 => Some(Integer::I64),
        _ => None,
    }
}

/// Returns the integers that are of a type, if it is a primitive one.
fn integer_in(value: &TypeData<'_>) -> Option<Integer>
    ensures { result ≡ integer_in (type_value value.now) }
{
    match value {
        TypeData::Primitive(primitive) => match primitive.indirection {
            Some(_) => None,
            None => integer_kind(primitive.kind),
        },
        _ => None,
    }
}

/// Returns the integers that are of the type of an index, if it is a primitive one.
#[tactic(auto, unfolding(crate::specs::Enumerator::integer_under))]
fn integer_under(index: TypeIndex) -> Option<Integer>
    ensures { result ≡ integer_under index.0 }
{
    if index.0 >= FIRST_RECORD {
        return None;
    }
    match type_data_for_primitive(index) {
        Ok(value) => integer_in(&value),
        Err(_) => None,
    }
}

/// Returns a number in 64 bits, in two's complement if it is below 0. One that was read as a `U8`
/// has a sign.
pub(crate) fn value_bits(value: Variant) -> u64
    ensures is { result ≡ value_bits value }
    ensures within { result < 2 ^ 64 }
{
    match value {
        Variant::U8(n) => i64::from(n.cast_signed()).cast_unsigned(),
        Variant::U16(n) => n as u64,
        Variant::U32(n) => n as u64,
        Variant::U64(n) => n,
        Variant::I8(n) => i64::from(n).cast_unsigned(),
        Variant::I16(n) => i64::from(n).cast_unsigned(),
        Variant::I32(n) => i64::from(n).cast_unsigned(),
        Variant::I64(n) => n.cast_unsigned(),
    }
}

/// Returns the number of an integer type that has the lowest of these bits.
fn value_as(bits: u64, integer: Integer) -> Variant
    ensures { result ≡ value_as bits integer }
{
    let (byte, word, long) = (bits % 0x100, bits % 0x1_0000, bits % 0x1_0000_0000);
    match integer {
        Integer::U8 => Variant::U8(byte as u8),
        Integer::U16 => Variant::U16(word as u16),
        Integer::U32 => Variant::U32(long as u32),
        Integer::U64 => Variant::U64(bits),
        Integer::I8 => Variant::I8((byte as u8).cast_signed()),
        Integer::I16 => Variant::I16((word as u16).cast_signed()),
        Integer::I32 => Variant::I32((long as u32).cast_signed()),
        Integer::I64 => Variant::I64(bits.cast_signed()),
    }
}

/// Returns the value of an enumerator as a number of the type under its enumeration, which gives it
/// its width and its sign.
///
/// The record has it in the width that it needs, and a compiler writes one below 0, or one of a
/// type without a sign whose highest bits are ones, with a sign: `LF_CHAR`, which is read as a
/// `U8`, is a signed char in Microsoft's cvinfo.h. So 0x80 of a `char` is -128, and 0xff of an
/// `unsigned __int64` is 18,446,744,073,709,551,615. The value is the one that was read if the type
/// isn't a primitive one of integers of at most 64 bits.
pub fn enumerator_value(value: Variant, underlying_type: TypeIndex) -> Variant
    ensures { result ≡ enumerator_value value underlying_type.0 }
{
    match integer_under(underlying_type) {
        Some(integer) => value_as(value_bits(value), integer),
        None => value,
    }
}
