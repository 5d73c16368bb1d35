//! Values that are read from the start of bytes.

ghost use Rattle.std.specs.Prelude.{◌≤◌, ℕ, List, length, drop, IfOk};
ghost use Rattle.std.specs.Int.{w8, w16, w32, w64};
ghost use Rattle.pdb_base.specs.Answer.{Answer, Gives};
ghost use Rattle.pdb_base.specs.Reading.{number_at, signed_at};
ghost use Rattle.pdb_base.specs.Numeric.{variant_at};

use crate::buffer::ParseBuffer;
use crate::error::Result;
use crate::variant::Variant;

/// The rule that the lowest byte of a number comes first (little-endian).
#[derive(Clone, Copy, Debug, Default, PartialEq, Eq)]
pub struct Le;

/// A value that is read from the start of bytes, by the rule that a context gives.
pub trait Parse<C>: Sized {
    // What is read of bytes, and what is behind it.
    ghost reads: { C → List ℕ → Answer (Self × List ℕ) };

    /// Returns the value at the start of the bytes and how many of them it takes, which is never
    /// more than there are.
    ///
    /// # Errors
    /// Returns `UnexpectedEof` if the bytes end before the value does. Some values have errors of
    /// their own.
    fn parse_from(bytes: &[u8], context: C) -> Result<(Self, usize)>
        ensures read { Gives (λ read. (read.0, drop read.1 bytes.now)) result (reads context bytes.now) }
        ensures within { IfOk result (λ read. read.1 ≤ length bytes.now) };
}

impl Parse<Le> for u8 {
    ghost reads = { λ _. number_at 1 };

    fn parse_from(bytes: &[u8], _: Le) -> Result<(u8, usize)> {
        let mut buffer = ParseBuffer::from(bytes);
        let number = buffer.parse_u8()?;
        Ok((number, buffer.pos()))
    }
}

impl Parse<Le> for u16 {
    ghost reads = { λ _. number_at 2 };

    fn parse_from(bytes: &[u8], _: Le) -> Result<(u16, usize)> {
        let mut buffer = ParseBuffer::from(bytes);
        let number = buffer.parse_u16()?;
        Ok((number, buffer.pos()))
    }
}

impl Parse<Le> for u32 {
    ghost reads = { λ _. number_at 4 };

    fn parse_from(bytes: &[u8], _: Le) -> Result<(u32, usize)> {
        let mut buffer = ParseBuffer::from(bytes);
        let number = buffer.parse_u32()?;
        Ok((number, buffer.pos()))
    }
}

impl Parse<Le> for u64 {
    ghost reads = { λ _. number_at 8 };

    fn parse_from(bytes: &[u8], _: Le) -> Result<(u64, usize)> {
        let mut buffer = ParseBuffer::from(bytes);
        let number = buffer.parse_u64()?;
        Ok((number, buffer.pos()))
    }
}

impl Parse<Le> for i8 {
    ghost reads = { λ _. signed_at w8 1 };

    #[tactic(auto, unfolding(crate::specs::Reading::signed_at))]
    fn parse_from(bytes: &[u8], _: Le) -> Result<(i8, usize)> {
        let mut buffer = ParseBuffer::from(bytes);
        let number = buffer.parse_u8()?.cast_signed();
        Ok((number, buffer.pos()))
    }
}

impl Parse<Le> for i16 {
    ghost reads = { λ _. signed_at w16 2 };

    fn parse_from(bytes: &[u8], _: Le) -> Result<(i16, usize)> {
        let mut buffer = ParseBuffer::from(bytes);
        let number = buffer.parse_i16()?;
        Ok((number, buffer.pos()))
    }
}

impl Parse<Le> for i32 {
    ghost reads = { λ _. signed_at w32 4 };

    fn parse_from(bytes: &[u8], _: Le) -> Result<(i32, usize)> {
        let mut buffer = ParseBuffer::from(bytes);
        let number = buffer.parse_i32()?;
        Ok((number, buffer.pos()))
    }
}

impl Parse<Le> for i64 {
    ghost reads = { λ _. signed_at w64 8 };

    fn parse_from(bytes: &[u8], _: Le) -> Result<(i64, usize)> {
        let mut buffer = ParseBuffer::from(bytes);
        let number = buffer.parse_i64()?;
        Ok((number, buffer.pos()))
    }
}

/// A number in the width that its prefix announces, as `ParseBuffer::parse_variant` reads it.
impl Parse<Le> for Variant {
    ghost reads = { λ _. variant_at };

    fn parse_from(bytes: &[u8], _: Le) -> Result<(Variant, usize)> {
        let mut buffer = ParseBuffer::from(bytes);
        let value = buffer.parse_variant()?;
        Ok((value, buffer.pos()))
    }
}
