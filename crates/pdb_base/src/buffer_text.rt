//! How a buffer is printed.

ghost use Rattle.std.specs.Prelude.{Some, flat_map};
ghost use Rattle.std.specs.Fmt.{DisplaysOnOk};
ghost use Rattle.pdb_base.specs.BufferText.{escape_of, buffer_text};

use crate::buffer::ParseBuffer;
use std::fmt;

/// A byte that is displayed as in a literal: `\x` and two hexadecimal digits.
#[derive(Clone, Copy)]
struct EscapedByte(u8);

impl fmt::Display for EscapedByte {
    ghost output = { λ byte. Some (escape_of byte.0) };

    #[tactic(auto, using(crate::proofs::lemmas::Padding::padded_to_two))]
    fn fmt<W: fmt::Write>(&self, f: &mut fmt::Formatter<W>) -> fmt::Result {
        let byte = self.0;
        write!(f, "\\x{byte:02x}")
    }
}

/// Bytes that are displayed as in a literal, one after the other.
#[derive(Clone, Copy)]
struct EscapedBytes<'b>(&'b [u8]);

impl fmt::Display for EscapedBytes<'_> {
    ghost output = { λ bytes. Some (flat_map escape_of bytes.0.now) };

    fn fmt<W: fmt::Write>(&self, f: &mut fmt::Formatter<W>) -> fmt::Result {
        for byte in self.0 {
            write!(f, "{}", EscapedByte(*byte))?;
        }
        Ok(())
    }
}

/// Displays the bytes of the whole slice as a literal, and the position, as in
/// `ParseBuf::from("\x01\x02\x03").as_bytes() at offset 1`.
impl fmt::LowerHex for ParseBuffer<'_> {
    fn fmt<W: fmt::Write>(&self, f: &mut fmt::Formatter<W>) -> fmt::Result
        ensures writes { DisplaysOnOk W.write_str_gives f.old result (Some (buffer_text self.now)) f.new }
    {
        let bytes = EscapedBytes(self.whole());
        let pos = self.pos();
        write!(f, "ParseBuf::from(\"{bytes}\").as_bytes() at offset {pos}")
    }
}
