//! A slice of bytes that is parsed from its start on.

ghost use Rattle.std.specs.Prelude.{◌≡◌, ◌≢◌, ◌+◌, ◌↔◌, [], length, min, IsTrue, OnErr};
ghost use Rattle.std.specs.Int.{w16, w32, w64};
ghost use Rattle.pdb_base.specs.Answer.{Gives};
ghost use Rattle.pdb_base.specs.Place.{left, StaysWithin, align_to, truncate_at};
ghost use Rattle.pdb_base.specs.Reading.{front_at, lowest_first, number_at, signed_at, peek_number, text_at};
ghost use Rattle.pdb_base.specs.Reading.{pascal_text_at};

use crate::error::{Error, Result};
use crate::nul::first_nul;
use crate::parse::{Le, Parse};
use crate::raw_string::RawString;
use byteorder::{ByteOrder, LittleEndian};
use std::marker::Model;

/// A slice of bytes and a position in it, from which fields are read one after another.
///
/// A read that fails does not move the position, except that `parse_u8_pascal_string` may have
/// moved it past the length.
#[derive(Clone, Debug, Drop)]
pub struct ParseBuffer<'b> {
    slice: &'b [u8],
    pos: usize,
}

impl<'b> Model for ParseBuffer<'b> {
    ghost use Rattle.std.specs.Prelude.{◌≤◌, length};
    ghost use Rattle.pdb_base.specs.Place.{Place};

    ghost Value = { Place };

    ghost view = { λ b. record { slice = b.slice.now; pos = b.pos } };

    ghost invariant = { λ b. b.pos ≤ length b.slice.now };
}

impl<'b> From<&'b [u8]> for ParseBuffer<'b> {
    ghost from_gives = { λ bytes buffer. buffer ≡ record { slice = bytes.now; pos = 0 } };

    fn from(slice: &'b [u8]) -> Self {
        ParseBuffer { slice, pos: 0 }
    }
}

/// The default is a buffer of an empty slice.
impl<'b> Default for ParseBuffer<'b> {
    ghost is_default = { λ buffer. buffer ≡ record { slice = []; pos = 0 } };

    fn default() -> Self {
        ParseBuffer::from([].as_slice())
    }
}

impl<'b> ParseBuffer<'b> {
    /// Returns the whole slice, however much of it was read.
    pub(crate) fn whole(&self) -> &'b [u8]
        ensures { result.now ≡ self.now.slice }
    {
        self.slice
    }

    /// Returns the bytes that are left to read.
    #[inline(always)]
    fn rest(&self) -> &'b [u8]
        ensures { result.now ≡ left self.now }
    {
        &self.slice[self.pos..]
    }

    /// Returns how many bytes are left to read.
    pub fn len(&self) -> usize
        ensures { result ≡ length (left self.now) }
    {
        self.slice.len() - self.pos
    }

    /// Returns whether no bytes are left to read.
    pub fn is_empty(&self) -> bool
        ensures { IsTrue result ↔ (left self.now ≡ []) }
    {
        self.len() == 0
    }

    /// Returns the position, which is the number of bytes of the slice before those that are left.
    pub fn pos(&self) -> usize
        ensures { result ≡ self.now.pos }
    {
        self.pos
    }

    /// Takes the next `count` bytes, which borrow from the slice.
    ///
    /// # Errors
    /// Returns `UnexpectedEof` if fewer than `count` bytes are left.
    #[inline(always)]
    #[tactic(auto, unfolding(crate::specs::Reading::front_at))]
    pub fn take(&mut self, count: usize) -> Result<&'b [u8]>
        ensures read { Gives (λ bytes. (bytes.now, left self.new)) result (front_at count (left self.old)) }
        ensures place { StaysWithin self.old self.new }
        ensures err { OnErr result (self.new ≡ self.old) }
    {
        if self.slice.len() - self.pos < count {
            return Err(Error::UnexpectedEof);
        }
        let start = self.pos;
        self.pos += count;
        Ok(&self.slice[start..start + count])
    }

    /// Moves to a position, or to the end of the slice if the position is past it.
    pub fn seek(&mut self, pos: usize)
        ensures { self.new ≡ record self.old { pos = min pos (length self.old.slice) } }
    {
        self.pos = pos.min(self.slice.len());
    }

    /// Moves forward to the next position that is a multiple of `alignment`, or stays at one that
    /// is. The alignment must not be 0.
    ///
    /// # Errors
    /// Returns `UnexpectedEof` if that position is past the end of the slice.
    #[tactic(auto, unfolding(crate::specs::Place::align_to), using(crate::proofs::MultipleLemmas::next_multiple))]
    pub fn align(&mut self, alignment: usize) -> Result<()>
        requires { alignment ≢ 0 }
        ensures place { Gives (λ _. self.new) result (align_to alignment self.old) }
        ensures err { OnErr result (self.new ≡ self.old) }
    {
        let step = (alignment - self.pos % alignment) % alignment;
        if self.slice.len() - self.pos < step {
            return Err(Error::UnexpectedEof);
        }
        self.pos += step;
        Ok(())
    }

    /// Cuts the slice to its first `len` bytes. A position behind them moves to the new end.
    ///
    /// # Errors
    /// Returns `UnexpectedEof` if the slice has fewer than `len` bytes.
    #[tactic(auto, unfolding(crate::specs::Place::truncate_at))]
    pub fn truncate(&mut self, len: usize) -> Result<()>
        ensures place { Gives (λ _. self.new) result (truncate_at len self.old) }
        ensures err { OnErr result (self.new ≡ self.old) }
    {
        if self.slice.len() < len {
            return Err(Error::UnexpectedEof);
        }
        self.slice = &self.slice[..len];
        self.pos = self.pos.min(len);
        Ok(())
    }

    /// Reads a value by the rule that the context gives.
    ///
    /// # Errors
    /// Fails as `Parse::parse_from` of the value does.
    pub fn parse_with<T: Parse<C>, C>(&mut self, context: C) -> Result<T>
        ensures read { Gives (λ value. (value, left self.new)) result (T.reads context (left self.old)) }
        ensures place { StaysWithin self.old self.new }
        ensures err { OnErr result (self.new ≡ self.old) }
    {
        let (value, len) = T::parse_from(self.rest(), context)?;
        self.pos += len;
        Ok(value)
    }

    /// Reads a value, with the lowest byte of each number first (little-endian).
    ///
    /// # Errors
    /// Fails as `Parse::parse_from` of the value does.
    pub fn parse<T: Parse<Le>>(&mut self) -> Result<T>
        ensures read { Gives (λ value. (value, left self.new)) result (T.reads lowest_first (left self.old)) }
        ensures place { StaysWithin self.old self.new }
        ensures err { OnErr result (self.new ≡ self.old) }
    {
        self.parse_with(Le)
    }

    /// Reads a `u8`.
    ///
    /// # Errors
    /// Returns `UnexpectedEof` if no byte is left.
    #[inline(always)]
    #[tactic(auto, unfolding(crate::specs::Reading::number_at, crate::specs::Reading::front_at))]
    pub fn parse_u8(&mut self) -> Result<u8>
        ensures read { Gives (λ number. (number, left self.new)) result (number_at 1 (left self.old)) }
        ensures place { StaysWithin self.old self.new }
        ensures err { OnErr result (self.new ≡ self.old) }
    {
        Ok(self.take(1)?[0])
    }

    /// Reads a `u16`, its lowest byte first.
    ///
    /// # Errors
    /// Returns `UnexpectedEof` if fewer than two bytes are left.
    #[inline(always)]
    #[tactic(auto, unfolding(crate::specs::Reading::number_at, crate::specs::Reading::front_at))]
    pub fn parse_u16(&mut self) -> Result<u16>
        ensures read { Gives (λ number. (number, left self.new)) result (number_at 2 (left self.old)) }
        ensures place { StaysWithin self.old self.new }
        ensures err { OnErr result (self.new ≡ self.old) }
    {
        Ok(LittleEndian::read_u16(self.take(2)?))
    }

    /// Reads a `u32`, its lowest byte first.
    ///
    /// # Errors
    /// Returns `UnexpectedEof` if fewer than four bytes are left.
    #[inline(always)]
    #[tactic(auto, unfolding(crate::specs::Reading::number_at, crate::specs::Reading::front_at))]
    pub fn parse_u32(&mut self) -> Result<u32>
        ensures read { Gives (λ number. (number, left self.new)) result (number_at 4 (left self.old)) }
        ensures place { StaysWithin self.old self.new }
        ensures err { OnErr result (self.new ≡ self.old) }
    {
        Ok(LittleEndian::read_u32(self.take(4)?))
    }

    /// Reads a `u64`, its lowest byte first.
    ///
    /// # Errors
    /// Returns `UnexpectedEof` if fewer than eight bytes are left.
    #[inline(always)]
    #[tactic(auto, unfolding(crate::specs::Reading::number_at, crate::specs::Reading::front_at))]
    pub fn parse_u64(&mut self) -> Result<u64>
        ensures read { Gives (λ number. (number, left self.new)) result (number_at 8 (left self.old)) }
        ensures place { StaysWithin self.old self.new }
        ensures err { OnErr result (self.new ≡ self.old) }
    {
        Ok(LittleEndian::read_u64(self.take(8)?))
    }

    /// Reads an `i16`, its lowest byte first.
    ///
    /// # Errors
    /// Returns `UnexpectedEof` if fewer than two bytes are left.
    #[inline(always)]
    #[tactic(auto, unfolding(crate::specs::Reading::signed_at, crate::specs::Reading::number_at, crate::specs::Reading::front_at))]
    pub fn parse_i16(&mut self) -> Result<i16>
        ensures read { Gives (λ number. (number, left self.new)) result (signed_at w16 2 (left self.old)) }
        ensures place { StaysWithin self.old self.new }
        ensures err { OnErr result (self.new ≡ self.old) }
    {
        Ok(LittleEndian::read_i16(self.take(2)?))
    }

    /// Reads an `i32`, its lowest byte first.
    ///
    /// # Errors
    /// Returns `UnexpectedEof` if fewer than four bytes are left.
    #[inline(always)]
    #[tactic(auto, unfolding(crate::specs::Reading::signed_at, crate::specs::Reading::number_at, crate::specs::Reading::front_at))]
    pub fn parse_i32(&mut self) -> Result<i32>
        ensures read { Gives (λ number. (number, left self.new)) result (signed_at w32 4 (left self.old)) }
        ensures place { StaysWithin self.old self.new }
        ensures err { OnErr result (self.new ≡ self.old) }
    {
        Ok(LittleEndian::read_i32(self.take(4)?))
    }

    /// Reads an `i64`, its lowest byte first.
    ///
    /// # Errors
    /// Returns `UnexpectedEof` if fewer than eight bytes are left.
    #[inline(always)]
    #[tactic(auto, unfolding(crate::specs::Reading::signed_at, crate::specs::Reading::number_at, crate::specs::Reading::front_at))]
    pub fn parse_i64(&mut self) -> Result<i64>
        ensures read { Gives (λ number. (number, left self.new)) result (signed_at w64 8 (left self.old)) }
        ensures place { StaysWithin self.old self.new }
        ensures err { OnErr result (self.new ≡ self.old) }
    {
        Ok(LittleEndian::read_i64(self.take(8)?))
    }

    /// Returns the next `u8` without moving past it.
    ///
    /// # Errors
    /// Returns `UnexpectedEof` if no byte is left.
    #[tactic(auto, unfolding(crate::specs::Reading::peek_number))]
    pub fn peek_u8(&self) -> Result<u8>
        ensures { Gives (λ number. number) result (peek_number 1 (left self.now)) }
    {
        ParseBuffer::from(self.rest()).parse_u8()
    }

    /// Returns the next `u16`, its lowest byte first, without moving past it.
    ///
    /// # Errors
    /// Returns `UnexpectedEof` if fewer than two bytes are left.
    #[tactic(auto, unfolding(crate::specs::Reading::peek_number))]
    pub fn peek_u16(&self) -> Result<u16>
        ensures { Gives (λ number. number) result (peek_number 2 (left self.now)) }
    {
        ParseBuffer::from(self.rest()).parse_u16()
    }

    /// Reads the text up to the next NUL, and moves past the NUL.
    ///
    /// # Errors
    /// Returns `UnexpectedEof` if no NUL is left.
    #[inline(always)]
    #[tactic(auto, using(crate::proofs::TextLemmas::text_found, crate::proofs::TextLemmas::text_cut))]
    pub fn parse_cstring(&mut self) -> Result<RawString<'b>>
        ensures read { Gives (λ text. (text.0.now, left self.new)) result (text_at (left self.old)) }
        ensures place { StaysWithin self.old self.new }
        ensures err { OnErr result (self.new ≡ self.old) }
    {
        let Some(len) = first_nul(self.slice, self.pos) else {
            return Err(Error::UnexpectedEof);
        };
        let text = RawString::from(&self.rest()[..len]);
        self.pos += len + 1;
        Ok(text)
    }

    /// Reads the text behind a `u8` that gives its length in bytes.
    ///
    /// # Errors
    /// Returns `UnexpectedEof` if no byte is left, or if fewer bytes are left behind the length
    /// than it says. In the second case the position is then behind the length.
    #[inline(always)]
    #[tactic(auto, unfolding(crate::specs::Reading::pascal_text_at))]
    pub fn parse_u8_pascal_string(&mut self) -> Result<RawString<'b>>
        ensures read { Gives (λ text. (text.0.now, left self.new)) result (pascal_text_at (left self.old)) }
        ensures place { StaysWithin self.old self.new }
        ensures err { OnErr result (
            self.new ≡ record self.old { pos = self.old.pos + min 1 (length (left self.old)) }) }
    {
        let len = self.parse_u8()?;
        let text = self.take(len as usize)?;
        Ok(RawString::from(text))
    }
}
