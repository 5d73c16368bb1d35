//! The bytes of a stream as a hex dump, in the form of the program `xxd`.

ghost use Rattle.std.specs.Prelude.{⊤};
ghost use Rattle.pdbdump_rows.specs.Line.{WritesWhat};

use crate::extraction::part_of;
use pdb_base::{Error, Stream};
use pdb_output::Output;
use std::alloc::{AllocError, Global};
use std::io::Write;

/// How many bytes a line has.
const LINE_SIZE: usize = 16;

/// The hexadecimal digits.
const DIGITS: &[u8; 16] = b"0123456789abcdef";

/// Appends the digits of a byte.
fn push_byte(byte: u8, text: &mut Vec<u8>) -> Result<(), AllocError> {
    text.push(DIGITS[(byte / 16) as usize])?;
    text.push(DIGITS[(byte % 16) as usize])?;
    Ok(())
}

/// Appends the digits of at most sixteen bytes, in groups of two, and as many blanks as the digits of
/// those that are missing would take.
fn push_digits(bytes: &[u8], text: &mut Vec<u8>) -> Result<(), AllocError> {
    for place in 0..LINE_SIZE {
        match bytes.get(place) {
            Some(byte) => push_byte(*byte, text)?,
            None => text.extend_from_slice(b"  ")?,
        }
        if place % 2 == 1 {
            text.push(b' ')?;
        }
    }
    Ok(())
}

/// Appends bytes as text, with a dot for each that isn't printable.
fn push_printable(bytes: &[u8], text: &mut Vec<u8>) -> Result<(), AllocError> {
    for byte in bytes {
        let is_printable = (0x20..0x7f).contains(byte);
        text.push(if is_printable { *byte } else { b'.' })?;
    }
    Ok(())
}

/// Returns the line of at most sixteen bytes, which begin at an offset.
fn dump_line(alloc: Global, offset: u64, bytes: &[u8]) -> Result<Vec<u8>, AllocError> {
    let mut text = format!(in alloc; "{offset:08x}: ")?.into_bytes();
    push_digits(bytes, &mut text)?;
    text.push(b' ')?;
    push_printable(bytes, &mut text)?;
    text.push(b'\n')?;
    Ok(text)
}

/// Writes the line of at most sixteen bytes, which begin at an offset.
fn write_line<W: Write>(
    alloc: Global,
    offset: u64,
    bytes: &[u8],
    out: &mut Output<W>,
) -> Result<(), Error>
    ensures { WritesWhat (λ text. ⊤) out.old out.new result }
{
    let line = dump_line(alloc, offset, bytes)?;
    out.write(&line)
}

/// Writes the lines of bytes, which begin at an offset.
fn write_lines<W: Write>(
    alloc: Global,
    start: u32,
    all: &[u8],
    out: &mut Output<W>,
) -> Result<(), Error>
    ensures { WritesWhat (λ text. ⊤) out.old out.new result }
{
    let mut offset = start as u64;
    for bytes in all.chunks(LINE_SIZE) {
        write_line(alloc, offset, bytes, out)?;
        offset = offset.saturating_add(LINE_SIZE as u64);
    }
    Ok(())
}

/// Writes the bytes of a stream after the first `skip`, and of these at most `limit`, as a hex dump:
/// a line for each sixteen of them, with the offset in the stream, the bytes in groups of two, and
/// their text.
///
/// # Errors
/// Fails with `IoError` if the writer fails, and with `OutOfMemory` if an allocation fails.
pub fn write_dump<W: Write>(
    alloc: Global,
    stream: &Stream,
    skip: u32,
    limit: Option<u32>,
    out: &mut Output<W>,
) -> Result<(), Error>
    ensures { WritesWhat (λ text. ⊤) out.old out.new result }
{
    let part = part_of(stream.as_slice(), skip, limit);
    write_lines(alloc, skip, part, out)
}
