//! Primitive types, by their index.

use Indirection::{Far16, Far32, Huge16, Near16, Near32, Near64, Near128};
use PrimitiveKind::{
    Bool8, Bool16, Bool32, Bool64, Char, Complex32, Complex64, Complex80, Complex128, F16, F32,
    F32PP, F48, F64, F80, F128, HRESULT, I8, I16, I32, I64, I128, Long, NoType, Octa, Quad, RChar,
    RChar16, RChar32, Short, U8, U16, U32, U64, U128, UChar, ULong, UOcta, UQuad, UShort, Void,
    WChar,
};
use pdb_base::{Error, TypeIndex};
use pdb_values::{Indirection, PrimitiveKind, PrimitiveType, TypeData, type_data_for_primitive};

/// Indexes, and the kinds and indirections that they name.
const PRIMITIVES: &[(u32, PrimitiveKind, Option<Indirection>)] = rows! {
    0x74, I32, None; 0x674, I32, Some(Near64); 0x000, NoType, None; 0x103, Void, Some(Near16);
    0x208, HRESULT, Some(Far16); 0x310, Char, Some(Huge16); 0x420, UChar, Some(Near32);
    0x568, I8, Some(Far32); 0x669, U8, Some(Near64); 0x770, RChar, Some(Near128); 0x71, WChar, None;
    0x7a, RChar16, None; 0x7b, RChar32, None; 0x11, Short, None; 0x21, UShort, None;
    0x72, I16, None; 0x73, U16, None; 0x12, Long, None; 0x22, ULong, None; 0x75, U32, None;
    0x13, Quad, None; 0x23, UQuad, None; 0x76, I64, None; 0x77, U64, None; 0x14, Octa, None;
    0x24, UOcta, None; 0x78, I128, None; 0x79, U128, None; 0x46, F16, None; 0x40, F32, None;
    0x45, F32PP, None; 0x44, F48, None; 0x41, F64, None; 0x42, F80, None; 0x43, F128, None;
    0x50, Complex32, None; 0x51, Complex64, None; 0x52, Complex80, None; 0x53, Complex128, None;
    0x30, Bool8, None; 0x31, Bool16, None; 0x32, Bool32, None; 0x33, Bool64, None;
};

/// The primitive type that is read, or the number in the error, which is 0 if it has none.
fn primitive_or_index(read: &pdb_base::Result<TypeData<'_>>) -> Result<PrimitiveType, u32> {
    match read {
        Ok(TypeData::Primitive(primitive)) => Ok(*primitive),
        Err(Error::TypeNotFound(number)) => Err(*number),
        _ => Err(0),
    }
}

/// The primitive type of an index, or the number in the error, which is 0 if it has none.
fn primitive(index: u32) -> Result<PrimitiveType, u32> {
    if index >= 0x1000 {
        return Err(0);
    }
    primitive_or_index(&type_data_for_primitive(TypeIndex(index)))
}

#[test]
fn primitives(rt: HostRuntime) {
    for (index, kind, indirection) in PRIMITIVES {
        let want = PrimitiveType {
            kind: *kind,
            indirection: *indirection,
        };
        assert!(rt; primitive(*index) == Ok(want), "index {index}");
    }
    for index in [0x01, 0x874, 0xf74, 0x7c, 0xff, 0x601] {
        assert!(rt; primitive(index) == Err(index), "index {index}");
    }
}
