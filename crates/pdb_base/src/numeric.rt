//! Numbers of variable width: the numeric leaves of Microsoft's cvinfo.h.

ghost use Rattle.std.specs.Prelude.{◌≡◌, ◌≤◌, length, OnErr};
ghost use Rattle.pdb_base.specs.Answer.{Gives};
ghost use Rattle.pdb_base.specs.Place.{left, StaysWithin};
ghost use Rattle.pdb_base.specs.Numeric.{unsigned_leaves, numeric_leaves, numeral_behind, as_num, num_at, as_variant};
ghost use Rattle.pdb_base.specs.Numeric.{variant_at};

use crate::buffer::ParseBuffer;
use crate::error::{Error, Result};
use crate::numeric_leaf::{
    LF_CHAR, LF_LONG, LF_NUMERIC, LF_QUADWORD, LF_SHORT, LF_ULONG, LF_UQUADWORD, LF_USHORT,
};
use crate::variant::Variant;

impl<'b> ParseBuffer<'b> {
    /// Reads a number of variable width without a sign. Two bytes below 0x8000 are the number
    /// itself. Two bytes from 0x8000 on are a prefix that announces the number behind it: 0x8000
    /// (`LF_CHAR` in cvinfo.h) a `u8`, 0x8002 (`LF_USHORT`) a `u16`, 0x8004 (`LF_ULONG`) a `u32`,
    /// and 0x800a (`LF_UQUADWORD`) a `u64`.
    ///
    /// # Errors
    /// Returns `UnexpectedNumericPrefix` if there is any other prefix, and `UnexpectedEof` if the
    /// bytes end before the number does.
    #[inline(always)]
    #[tactic(auto, unfolding(crate::specs::Numeric::num_at, crate::specs::Numeric::numeral_at), using(crate::proofs::NumericLemmas::stays))]
    pub fn parse_num(&mut self) -> Result<u64>
        ensures read { Gives (λ number. (number, left self.new)) result (num_at (left self.old)) }
        ensures place { StaysWithin self.old self.new }
        ensures err { OnErr result (self.new ≡ self.old) }
    {
        let start = self.pos();
        let prefix = self.parse_u16()?;
        let number = self.num_behind(prefix);
        if number.is_err() {
            self.seek(start);
        }
        number
    }

    /// Reads a number of variable width with or without a sign. Two bytes below 0x8000 are the
    /// number itself, a `U16`. Two bytes from 0x8000 on are a prefix that announces the number
    /// behind it: 0x8000 (`LF_CHAR` in cvinfo.h) a `u8`, 0x8001 (`LF_SHORT`) an `i16`, 0x8002
    /// (`LF_USHORT`) a `u16`, 0x8003 (`LF_LONG`) an `i32`, 0x8004 (`LF_ULONG`) a `u32`, 0x8009
    /// (`LF_QUADWORD`) an `i64`, and 0x800a (`LF_UQUADWORD`) a `u64`.
    ///
    /// # Errors
    /// Returns `UnexpectedNumericPrefix` if there is any other prefix, and `UnexpectedEof` if the
    /// bytes end before the number does.
    #[inline(always)]
    #[tactic(auto, unfolding(crate::specs::Numeric::variant_at, crate::specs::Numeric::numeral_at), using(crate::proofs::NumericLemmas::stays))]
    pub fn parse_variant(&mut self) -> Result<Variant>
        ensures read { Gives (λ value. (value, left self.new)) result (variant_at (left self.old)) }
        ensures place { StaysWithin self.old self.new }
        ensures err { OnErr result (self.new ≡ self.old) }
    {
        let start = self.pos();
        let prefix = self.parse_u16()?;
        let value = self.variant_behind(prefix);
        if value.is_err() {
            self.seek(start);
        }
        value
    }

    /// Reads the number without a sign that a prefix announces, or returns the prefix itself if it
    /// is below 0x8000.
    #[inline(always)]
    #[tactic(auto, unfolding(crate::specs::Numeric::numeral_behind))]
    fn num_behind(&mut self, prefix: u16) -> Result<u64>
        requires { self.old.pos ≤ length self.old.slice }
        ensures read { Gives (λ number. (number, left self.new)) result
            (as_num (numeral_behind unsigned_leaves prefix (left self.old))) }
        ensures place { StaysWithin self.old self.new }
    {
        if prefix < LF_NUMERIC {
            return Ok(prefix as u64);
        }
        match prefix {
            LF_CHAR => Ok(self.parse_u8()? as u64),
            LF_USHORT => Ok(self.parse_u16()? as u64),
            LF_ULONG => Ok(self.parse_u32()? as u64),
            LF_UQUADWORD => Ok(self.parse_u64()?),
            _ => Err(Error::UnexpectedNumericPrefix(prefix)),
        }
    }

    /// Reads the number that a prefix announces, in its width, or returns the prefix itself if it
    /// is below 0x8000.
    #[inline(always)]
    #[tactic(auto, unfolding(crate::specs::Numeric::numeral_behind, crate::specs::Reading::signed_at))]
    fn variant_behind(&mut self, prefix: u16) -> Result<Variant>
        requires { self.old.pos ≤ length self.old.slice }
        ensures read { Gives (λ value. (value, left self.new)) result
            (as_variant (numeral_behind numeric_leaves prefix (left self.old))) }
        ensures place { StaysWithin self.old self.new }
    {
        if prefix < LF_NUMERIC {
            return Ok(Variant::U16(prefix));
        }
        match prefix {
            LF_CHAR => self.parse_u8().map(Variant::U8),
            LF_SHORT => self.parse_i16().map(Variant::I16),
            LF_USHORT => self.parse_u16().map(Variant::U16),
            LF_LONG => self.parse_i32().map(Variant::I32),
            LF_ULONG => self.parse_u32().map(Variant::U32),
            LF_QUADWORD => self.parse_i64().map(Variant::I64),
            LF_UQUADWORD => self.parse_u64().map(Variant::U64),
            _ => Err(Error::UnexpectedNumericPrefix(prefix)),
        }
    }
}
