//! The number of a numeric leaf, with the width that it was written in.

ghost use Rattle.std.specs.Prelude.{Some};
ghost use Rattle.pdb_base.specs.Numeric.{variant_text};

use std::fmt;

/// A number of one of the widths that a numeric leaf can have, such as the value of an enumerator.
///
/// `ParseBuffer::parse_variant` reads one, but never an `I8`: it reads the prefix 0x8000
/// (`LF_CHAR`), which cvinfo.h gives to a signed char, as that of a `U8`.
#[derive(Debug, Clone, Copy, PartialEq, Eq)]
pub enum Variant {
    /// A `u8`.
    U8(u8),

    /// A `u16`.
    U16(u16),

    /// A `u32`.
    U32(u32),

    /// A `u64`.
    U64(u64),

    /// An `i8`.
    I8(i8),

    /// An `i16`.
    I16(i16),

    /// An `i32`.
    I32(i32),

    /// An `i64`.
    I64(i64),
}

/// Displays the number in decimal.
impl fmt::Display for Variant {
    ghost output = { λ value. Some (variant_text value) };

    fn fmt<W: fmt::Write>(&self, f: &mut fmt::Formatter<W>) -> fmt::Result {
        match self {
            Variant::U8(number) => write!(f, "{number}"),
            Variant::U16(number) => write!(f, "{number}"),
            Variant::U32(number) => write!(f, "{number}"),
            Variant::U64(number) => write!(f, "{number}"),
            Variant::I8(number) => write!(f, "{number}"),
            Variant::I16(number) => write!(f, "{number}"),
            Variant::I32(number) => write!(f, "{number}"),
            Variant::I64(number) => write!(f, "{number}"),
        }
    }
}
