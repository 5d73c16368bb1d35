//! Numbers as they are written.

ghost use Rattle.std.specs.Prelude.{◌≡◌, ◌<◌, ◌++◌, false, OnOk};
ghost use Rattle.std.specs.Fmt.{decimal, digit_glyph, digits, signed_decimal};
ghost use Rattle.pdb_base.specs.ErrorText.{hexadecimal};
ghost use Rattle.pdbdump_rows.specs.Text.{four_digits};

use itoa::Buffer;
use std::alloc::AllocError;

/// Appends a number in decimal.
pub(crate) fn push_decimal(number: u64, out: &mut Vec<u8>) -> Result<(), AllocError>
    ensures { OnOk result (out.new.items ≡ out.old.items ++ decimal number) }
{
    let mut buffer = Buffer::new();
    out.extend_from_slice(buffer.format(number).as_bytes())
}

/// Appends a signed number in decimal.
pub(crate) fn push_signed(number: i64, out: &mut Vec<u8>) -> Result<(), AllocError>
    ensures { OnOk result (out.new.items ≡ out.old.items ++ signed_decimal number) }
{
    let mut buffer = Buffer::new();
    out.extend_from_slice(buffer.format(number).as_bytes())
}

/// Returns the hexadecimal digit of a number below 16, in lower case.
fn digit(number: u32) -> u8
    requires { number < 16 }
    ensures { result ≡ digit_glyph false number }
{
    if number < 10 {
        b'0' + number as u8
    } else {
        b'a' + (number as u8 - 10)
    }
}

/// Appends the hexadecimal digits of a number.
#[tactic(auto, using(crate::proofs::Digits::hexadecimal_more, std::proofs::lemmas::Fmt::hex_one_digit))]
fn push_digits(number: u32, out: &mut Vec<u8>) -> Result<(), AllocError>
    ensures { OnOk result (out.new.items ≡ out.old.items ++ digits 16 false number) }
{
    if number < 16 {
        out.push(digit(number))?;
        return Ok(());
    }
    push_digits(number / 16, out)?;
    out.push(digit(number % 16))?;
    Ok(())
}

/// Appends a number as `0x` and its hexadecimal digits.
pub(crate) fn push_hexadecimal(number: u32, out: &mut Vec<u8>) -> Result<(), AllocError>
    ensures { OnOk result (out.new.items ≡ out.old.items ++ hexadecimal number) }
{
    out.extend_from_slice(b"0x")?;
    push_digits(number, out)
}

/// Returns the four hexadecimal digits of the low 16 bits of a number, the highest first.
pub(crate) fn four_digits(number: u32) -> [u8; 4]
    ensures { result ≡ four_digits number }
{
    [
        digit(number / 4096 % 16),
        digit(number / 256 % 16),
        digit(number / 16 % 16),
        digit(number % 16),
    ]
}
