//! Types that have no record of their own.

ghost use Rattle.std.specs.Prelude.{◌≡◌, ◌<◌};
ghost use Rattle.pdb_base.specs.Answer.{Gives};
ghost use Rattle.pdb_values.specs.Primitive.{primitive_kinds, indirections, beside_number, first_record};
ghost use Rattle.pdb_values.specs.TypeView.{type_value, primitive_of};

use crate::type_data::TypeData;
use pdb_base::{Error, Result, TypeIndex, bit_field};

/// A type that has no record of its own: one of the machine or of a language, or a pointer to one.
#[derive(Clone, Copy, Debug, PartialEq, Eq)]
pub struct PrimitiveType {
    /// The type, or what the pointer points to.
    pub kind: PrimitiveKind,

    /// How the pointer is held, if it is one.
    pub indirection: Option<Indirection>,
}

/// How a pointer to a primitive type is held, as `CV_prmode_e` of Microsoft's cvinfo.h numbers it.
#[derive(Clone, Copy, Debug, PartialEq, Eq)]
pub enum Indirection {
    /// 16 bits, within a segment.
    Near16,

    /// A segment and 16 bits.
    Far16,

    /// A segment and 16 bits, and sums carry into the segment.
    Huge16,

    /// 32 bits.
    Near32,

    /// A segment and 32 bits.
    Far32,

    /// 64 bits.
    Near64,

    /// 128 bits.
    Near128,
}

impl Indirection {
    /// Returns the indirection with this number: `Some(None)` for 0, which is no pointer, or None
    /// for a number above 7, which means nothing.
    fn from_number(number: u32) -> Option<Option<Self>>
        ensures { result ≡ beside_number indirections number }
    {
        match number {
            0 => Some(None),
            1 => Some(Some(Indirection::Near16)),
            2 => Some(Some(Indirection::Far16)),
            3 => Some(Some(Indirection::Huge16)),
            4 => Some(Some(Indirection::Near32)),
            5 => Some(Some(Indirection::Far32)),
            6 => Some(Some(Indirection::Near64)),
            7 => Some(Some(Indirection::Near128)),
            _ => None,
        }
    }
}

/// The kind of a primitive type, as `TYPE_ENUM_e` of Microsoft's cvinfo.h numbers it.
#[derive(Clone, Copy, Debug, PartialEq, Eq)]
pub enum PrimitiveKind {
    /// No type is stated.
    NoType,

    /// `void`.
    Void,

    /// The result of an OLE call.
    HRESULT,

    /// A signed character of 8 bits.
    Char,

    /// An unsigned character of 8 bits.
    UChar,

    /// A signed number of 8 bits.
    I8,

    /// An unsigned number of 8 bits.
    U8,

    /// A character of 8 bits.
    RChar,

    /// A wide character.
    WChar,

    /// A character of 16 bits.
    RChar16,

    /// A character of 32 bits.
    RChar32,

    /// A `short`, signed, of 16 bits.
    Short,

    /// An unsigned `short` of 16 bits.
    UShort,

    /// A signed number of 16 bits.
    I16,

    /// An unsigned number of 16 bits.
    U16,

    /// A `long`, signed, of 32 bits.
    Long,

    /// An unsigned `long` of 32 bits.
    ULong,

    /// A signed number of 32 bits.
    I32,

    /// An unsigned number of 32 bits.
    U32,

    /// A quadword, signed, of 64 bits.
    Quad,

    /// An unsigned quadword of 64 bits.
    UQuad,

    /// A signed number of 64 bits.
    I64,

    /// An unsigned number of 64 bits.
    U64,

    /// An octaword, signed, of 128 bits.
    Octa,

    /// An unsigned octaword of 128 bits.
    UOcta,

    /// A signed number of 128 bits.
    I128,

    /// An unsigned number of 128 bits.
    U128,

    /// A float of 16 bits.
    F16,

    /// A float of 32 bits.
    F32,

    /// A float of 32 bits, of partial precision.
    F32PP,

    /// A float of 48 bits.
    F48,

    /// A float of 64 bits.
    F64,

    /// A float of 80 bits.
    F80,

    /// A float of 128 bits.
    F128,

    /// A complex number of two floats of 32 bits.
    Complex32,

    /// A complex number of two floats of 64 bits.
    Complex64,

    /// A complex number of two floats of 80 bits.
    Complex80,

    /// A complex number of two floats of 128 bits.
    Complex128,

    /// A truth value of 8 bits.
    Bool8,

    /// A truth value of 16 bits.
    Bool16,

    /// A truth value of 32 bits.
    Bool32,

    /// A truth value of 64 bits.
    Bool64,
}

impl PrimitiveKind {
    /// Returns the primitive type with this number, or None if there is none.
    fn from_number(number: u32) -> Option<Self>
        ensures { result ≡ beside_number primitive_kinds number }
    {
        match number {
            0x00 => Some(PrimitiveKind::NoType),
            0x03 => Some(PrimitiveKind::Void),
            0x08 => Some(PrimitiveKind::HRESULT),
            0x10 => Some(PrimitiveKind::Char),
            0x11 => Some(PrimitiveKind::Short),
            0x12 => Some(PrimitiveKind::Long),
            0x13 => Some(PrimitiveKind::Quad),
            0x14 => Some(PrimitiveKind::Octa),
            0x20 => Some(PrimitiveKind::UChar),
            0x21 => Some(PrimitiveKind::UShort),
            0x22 => Some(PrimitiveKind::ULong),
            0x23 => Some(PrimitiveKind::UQuad),
            0x24 => Some(PrimitiveKind::UOcta),
            0x30 => Some(PrimitiveKind::Bool8),
            0x31 => Some(PrimitiveKind::Bool16),
            0x32 => Some(PrimitiveKind::Bool32),
            0x33 => Some(PrimitiveKind::Bool64),
            0x40 => Some(PrimitiveKind::F32),
            0x41 => Some(PrimitiveKind::F64),
            0x42 => Some(PrimitiveKind::F80),
            0x43 => Some(PrimitiveKind::F128),
            0x44 => Some(PrimitiveKind::F48),
            0x45 => Some(PrimitiveKind::F32PP),
            0x46 => Some(PrimitiveKind::F16),
            0x50 => Some(PrimitiveKind::Complex32),
            0x51 => Some(PrimitiveKind::Complex64),
            0x52 => Some(PrimitiveKind::Complex80),
            0x53 => Some(PrimitiveKind::Complex128),
            0x68 => Some(PrimitiveKind::I8),
            0x69 => Some(PrimitiveKind::U8),
            0x70 => Some(PrimitiveKind::RChar),
            0x71 => Some(PrimitiveKind::WChar),
            0x72 => Some(PrimitiveKind::I16),
            0x73 => Some(PrimitiveKind::U16),
            0x74 => Some(PrimitiveKind::I32),
            0x75 => Some(PrimitiveKind::U32),
            0x76 => Some(PrimitiveKind::I64),
            0x77 => Some(PrimitiveKind::U64),
            0x78 => Some(PrimitiveKind::I128),
            0x79 => Some(PrimitiveKind::U128),
            0x7a => Some(PrimitiveKind::RChar16),
            0x7b => Some(PrimitiveKind::RChar32),
            _ => None,
        }
    }
}

/// The least index of a type that has a record: those below it are of primitive types.
pub const FIRST_RECORD: u32 = 0x1000;

/// Returns the primitive type of an index below 0x1000. The index's low byte is the number of the
/// type, and the bits above say whether it is a pointer to that type, and which kind of pointer.
///
/// # Errors
/// Returns `TypeNotFound` if the byte or the bits are no number that cvinfo.h has.
#[tactic(auto, unfolding(crate::specs::Primitive::primitive_kind, crate::specs::Primitive::primitive_indirection, crate::specs::Primitive::primitive_type, crate::specs::TypeView::primitive_of))]
pub fn type_data_for_primitive<'t>(index: TypeIndex) -> Result<TypeData<'t>>
    requires { index.0 < first_record }
    ensures { Gives type_value result (primitive_of index.0) }
{
    let kind = bit_field(index.0, 0, 8);
    let kind = PrimitiveKind::from_number(kind).ok_or(Error::TypeNotFound(index.0))?;
    let indirection = bit_field(index.0, 8, 4);
    let indirection = Indirection::from_number(indirection).ok_or(Error::TypeNotFound(index.0))?;
    Ok(TypeData::Primitive(PrimitiveType { kind, indirection }))
}
