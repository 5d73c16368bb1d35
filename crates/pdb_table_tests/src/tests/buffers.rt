//! What a buffer reads, and its position after that.

use super::{shows, stream};
use pdb_base::{Error, ParseBuffer, RawString, SymbolIndex, Variant};
use std::alloc::Global;
use std::fmt;
use std::process::Abort;
use std::test::Fail;

/// A call of a buffer, and what it answers: a value, or nothing where the bytes end too soon.
enum Call {
    PeekU8(Option<u8>),
    U8(Option<u8>),
    PeekU16(Option<u16>),
    U16(Option<u16>),
    U32(Option<u32>),
    U64(Option<u64>),
    I16(Option<i16>),
    I32(Option<i32>),
    I64(Option<i64>),
    /// A number of variable width, or one with this unknown prefix.
    Numeric(Option<Variant>),
    RefusedVariant(u16),
    /// A number of variable width without a sign, or one with an unknown prefix.
    Num(Option<u64>),
    RefusedNum(u16),
    /// What is read by the rule that its type says.
    Parsed(Variant),
    RefusedParsed(u16),
    ParsedSymbol(SymbolIndex),
    /// A text that a NUL ends, and one behind its length.
    Text(Option<&'static str>),
    PascalText(Option<&'static str>),
    /// So many bytes.
    Take(usize, Option<&'static [u8]>),
    /// A place to go to.
    Seek(usize),
    /// A length to cut to, and whether that is done; and whether the next multiple of four is
    /// reached.
    Truncate(usize, bool),
    AlignTo4(bool),
    /// The buffer in hexadecimal.
    Printed(&'static str),
}

use Call::{
    AlignTo4, I16, I32, I64, Num, Numeric, Parsed, ParsedSymbol, PascalText, PeekU8, PeekU16,
    Printed, RefusedNum, RefusedParsed, RefusedVariant, Seek, Take, Text, Truncate, U8, U16, U32,
    U64,
};

/// The name of a case, its bytes, and one call after another, each with the buffer's position after
/// it and how many bytes are left.
type Row = (&'static str, &'static [u8], &'static [(Call, usize, usize)]);

/// Numbers of one byte and of two.
const SHORT_NUMBERS: &[Row] = rows! {
    "numbers of one byte", b"\x01\x02\x03\x04",
        &[(PeekU8(Some(1)), 0, 4), (PeekU8(Some(1)), 0, 4), (U8(Some(1)), 1, 3),
            (PeekU8(Some(2)), 1, 3), (PeekU8(Some(2)), 1, 3), (U8(Some(2)), 2, 2),
            (PeekU8(Some(3)), 2, 2), (PeekU8(Some(3)), 2, 2), (U8(Some(3)), 3, 1),
            (PeekU8(Some(4)), 3, 1), (PeekU8(Some(4)), 3, 1), (U8(Some(4)), 4, 0),
            (PeekU8(None), 4, 0), (U8(None), 4, 0)];
    "numbers of two bytes", b"\x01\x02\x03",
        &[(PeekU16(Some(0x0201)), 0, 3), (PeekU16(Some(0x0201)), 0, 3), (U16(Some(0x0201)), 2, 1),
            (PeekU16(None), 2, 1), (U16(None), 2, 1), (Take(1, Some(b"\x03")), 3, 0),
            (U16(None), 3, 0)];
};

/// Numbers of more bytes, or with a sign.
const NUMBERS: &[Row] = rows! {
    "numbers of four bytes", b"\x01\x02\x03\x04\x05\x06\x07",
        &[(U32(Some(0x0403_0201)), 4, 3), (Seek(4), 4, 3), (U32(None), 4, 3), (Seek(5), 5, 2),
            (U32(None), 5, 2), (Seek(6), 6, 1), (U32(None), 6, 1), (Seek(7), 7, 0),
            (U32(None), 7, 0)];
    "numbers of eight bytes", b"\x01\x02\x03\x04\x05\x06\x07\x08\x09\x0a\x0b\x0c\x0d\x0e\x0f",
        &[(U64(Some(0x0807_0605_0403_0201)), 8, 7), (U64(None), 8, 7)];
    "signed numbers of two bytes", b"\xfe\xff\x00", &[(I16(Some(-2)), 2, 1), (I16(None), 2, 1)];
    "signed numbers of four bytes", b"\xfe\xff\xff\xff\x05\x06\x07",
        &[(I32(Some(-2)), 4, 3), (I32(None), 4, 3), (U32(None), 4, 3)];
    "signed numbers of eight bytes", b"\xff\xff\xff\xff\xff\xff\xff\xff\x00",
        &[(I64(Some(-1)), 8, 1), (I64(None), 8, 1)];
    "a number and bytes", b"\x01\x02\x03\x04ab",
        &[(U32(Some(0x0403_0201)), 4, 2), (U32(None), 4, 2), (Take(2, Some(b"ab")), 6, 0)];
};

/// Whole numbers of variable width without a sign.
const UNSIGNED: &[Row] = rows! {
    "a number without a prefix", b"\xff\x7f\xff", &[(Num(Some(0x7fff)), 2, 1)];
    "a number of one byte", b"\x00\x80\xff", &[(Num(Some(255)), 3, 0)];
    "a number of two bytes", b"\x02\x80\x00\x80", &[(Num(Some(0x8000)), 4, 0)];
    "a number of four bytes", b"\x04\x80\x01\x00\x00\x80\x00", &[(Num(Some(0x8000_0001)), 6, 1)];
    "a number of eight bytes", b"\x0a\x80\xff\xff\xff\xff\xff\xff\xff\xff",
        &[(Num(Some(u64::MAX)), 10, 0)];
    "the prefix of a number with a sign, of two bytes", b"\x01\x80", &[(RefusedNum(0x8001), 0, 2)];
    "a number with a sign, of four bytes", b"\x03\x80\x00\x00\x00\x00",
        &[(RefusedNum(0x8003), 0, 6)];
    "a number of another prefix", b"\xff\xff", &[(RefusedNum(0xffff), 0, 2)];
};

/// Numbers of variable width.
const VARIANTS: &[Row] = rows! {
    "a variant without a prefix", b"\x00\x7f", &[(Numeric(Some(Variant::U16(0x7f00))), 2, 0)];
    "a variant of one byte", b"\x00\x80\xff", &[(Numeric(Some(Variant::U8(255))), 3, 0)];
    "a variant of two bytes", b"\x01\x80\xfe\xff", &[(Numeric(Some(Variant::I16(-2))), 4, 0)];
    "a variant of two bytes without a sign", b"\x02\x80\x00\x80",
        &[(Numeric(Some(Variant::U16(0x8000))), 4, 0)];
    "a variant of four bytes", b"\x03\x80\x00\x00\x00\x80",
        &[(Numeric(Some(Variant::I32(-0x8000_0000))), 6, 0)];
    "a variant of four bytes without a sign", b"\x04\x80\xff\xff\xff\xff",
        &[(Numeric(Some(Variant::U32(0xffff_ffff))), 6, 0)];
    "a variant of eight bytes", b"\x09\x80\xff\xff\xff\xff\xff\xff\xff\xff",
        &[(Numeric(Some(Variant::I64(-1))), 10, 0)];
    "a variant of eight bytes without a sign", b"\x0a\x80\xff\xff\xff\xff\xff\xff\xff\xff",
        &[(Numeric(Some(Variant::U64(u64::MAX))), 10, 0)];
};

/// Those that are refused or cut, and what is read by the rule that its type says.
const OTHER_VARIANTS: &[Row] = rows! {
    "a variant of another prefix", b"\x05\x80\x00\x00\x00\x00",
        &[(RefusedVariant(0x8005), 0, 6), (RefusedParsed(0x8005), 0, 6)];
    "a variant of three bytes in place of four", b"\x04\x80\x01\x02\x03",
        &[(Numeric(None), 0, 5), (Num(None), 0, 5)];
    "a prefix alone", b"\x00\x80", &[(Numeric(None), 0, 2), (Num(None), 0, 2)];
    "half a prefix", b"\x00", &[(Numeric(None), 0, 1), (Num(None), 0, 1)];
    "variants one behind another", b"\x00\x80\xff\x09\x80\xff\xff\xff\xff\xff\xff\xff\xff\x05\x80",
        &[(Parsed(Variant::U8(255)), 3, 12), (Parsed(Variant::I64(-1)), 13, 2),
            (RefusedParsed(0x8005), 13, 2)];
    "the index of a symbol", b"\x42\x00\x00\x00", &[(ParsedSymbol(SymbolIndex(0x42)), 4, 0)];
};

/// Places.
const PLACES: &[Row] = rows! {
    "places", b"hello", &[(Seek(5), 5, 0), (Seek(2), 2, 3), (Seek(10), 5, 0)];
    "a truncation", b"\x01\x02\x03\x04\x05\x06\x07",
        &[(Seek(4), 4, 3), (Truncate(8, false), 4, 3), (Truncate(2, true), 2, 0)];
    "an alignment by one byte", b"1234", &[(Take(3, Some(b"123")), 3, 1), (AlignTo4(true), 4, 0)];
    "an alignment by three bytes", b"1234", &[(Take(1, Some(b"1")), 1, 3), (AlignTo4(true), 4, 0)];
    "an alignment with a byte behind", b"12345",
        &[(Take(3, Some(b"123")), 3, 2), (AlignTo4(true), 4, 1)];
    "an aligned place", b"12345", &[(Take(4, Some(b"1234")), 4, 1), (AlignTo4(true), 4, 1)];
    "an alignment past the end", b"123", &[(Take(3, Some(b"123")), 3, 0), (AlignTo4(false), 3, 0)];
};

/// Texts, and the buffer in hexadecimal.
const TEXTS: &[Row] = rows! {
    "texts", b"hello\0world\0\0\x01",
        &[(Text(Some("hello")), 6, 8), (Text(Some("world")), 12, 2), (Text(Some("")), 13, 1),
            (Text(None), 13, 1)];
    "texts behind their lengths", b"\x05hello\x05world\x00\x01",
        &[(PascalText(Some("hello")), 6, 8), (PascalText(Some("world")), 12, 2),
            (PascalText(Some("")), 13, 1), (PascalText(None), 14, 0)];
    "in hexadecimal", b"\x01\x02\x03",
        &[(U8(Some(1)), 1, 2),
            (Printed("ParseBuf::from(\"\\x01\\x02\\x03\").as_bytes() at offset 1"), 1, 2)];
    "nothing in hexadecimal", b"",
        &[(Printed("ParseBuf::from(\"\").as_bytes() at offset 0"), 0, 0)];
};

/// Whether a call fails with `UnexpectedEof`.
fn ends<T: Drop>(answer: pdb_base::Result<T>) -> bool {
    matches!(answer, Err(Error::UnexpectedEof))
}

/// Whether a call returns this value, or fails with `UnexpectedEof` if there is none.
fn reads<T: Copy + PartialEq + Drop>(answer: pdb_base::Result<T>, want: Option<T>) -> bool {
    match want {
        Some(value) => matches!(answer, Ok(found) if found == value),
        None => ends(answer),
    }
}

/// Whether a call that returns no value succeeds, or fails with `UnexpectedEof` if it isn't `done`.
fn is_done(answer: pdb_base::Result<()>, done: bool) -> bool {
    if done { answer.is_ok() } else { ends(answer) }
}

/// Whether a call returns this text, or fails with `UnexpectedEof` if there is none.
fn reads_text(answer: pdb_base::Result<RawString<'_>>, want: Option<&str>) -> bool {
    match want {
        Some(text) => matches!(answer, Ok(found) if found.as_bytes() == text.as_bytes()),
        None => ends(answer),
    }
}

/// Whether a number has the error of this unknown prefix.
fn names<T: Drop>(answer: pdb_base::Result<T>, prefix: u16) -> bool {
    matches!(answer, Err(Error::UnexpectedNumericPrefix(found)) if found == prefix)
}

/// A buffer in hexadecimal. The `x` of a format string is for integers alone.
#[derive(Drop)]
struct InHexadecimal<'a, 'b>(&'a ParseBuffer<'b>);

impl fmt::Display for InHexadecimal<'_, '_> {
    fn fmt<W: fmt::Write>(&self, f: &mut fmt::Formatter<W>) -> fmt::Result {
        fmt::LowerHex::fmt(self.0, f)
    }
}

/// Whether a buffer is at this position, with so many bytes left.
fn stands(buffer: &ParseBuffer<'_>, pos: usize, left: usize) -> bool {
    buffer.pos() == pos && buffer.len() == left && buffer.is_empty() == (left == 0)
}

/// Whether a call answers as it says.
fn is_answered(alloc: Global, buffer: &mut ParseBuffer<'_>, call: &Call) -> bool {
    match call {
        Call::PeekU8(want) => reads(buffer.peek_u8(), *want),
        Call::U8(want) => reads(buffer.parse_u8(), *want),
        Call::PeekU16(want) => reads(buffer.peek_u16(), *want),
        Call::U16(want) => reads(buffer.parse_u16(), *want),
        Call::U32(want) => reads(buffer.parse_u32(), *want),
        Call::U64(want) => reads(buffer.parse_u64(), *want),
        _ => is_signed_answered(alloc, buffer, call),
    }
}

/// Whether a call for a number with a sign or of variable width answers as it says.
fn is_signed_answered(alloc: Global, buffer: &mut ParseBuffer<'_>, call: &Call) -> bool {
    match call {
        Call::I16(want) => reads(buffer.parse_i16(), *want),
        Call::I32(want) => reads(buffer.parse_i32(), *want),
        Call::I64(want) => reads(buffer.parse_i64(), *want),
        Call::Numeric(want) => reads(buffer.parse_variant(), *want),
        Call::RefusedVariant(prefix) => names(buffer.parse_variant(), *prefix),
        _ => is_parsed(alloc, buffer, call),
    }
}

/// Whether a call for a number of variable width without a sign, or for one by the rule of its
/// type, answers as it says.
fn is_parsed(alloc: Global, buffer: &mut ParseBuffer<'_>, call: &Call) -> bool {
    match call {
        Call::Num(want) => reads(buffer.parse_num(), *want),
        Call::RefusedNum(prefix) => names(buffer.parse_num(), *prefix),
        Call::Parsed(want) => reads(buffer.parse(), Some(*want)),
        Call::RefusedParsed(prefix) => names(buffer.parse::<Variant>(), *prefix),
        Call::ParsedSymbol(want) => reads(buffer.parse(), Some(*want)),
        _ => is_placed(alloc, buffer, call),
    }
}

/// Whether a call for a text, for bytes or for a place answers as it says.
fn is_placed(alloc: Global, buffer: &mut ParseBuffer<'_>, call: &Call) -> bool {
    match call {
        Call::Text(want) => reads_text(buffer.parse_cstring(), *want),
        Call::PascalText(want) => reads_text(buffer.parse_u8_pascal_string(), *want),
        Call::Take(count, want) => reads(buffer.take(*count), *want),
        Call::Truncate(to, done) => is_done(buffer.truncate(*to), *done),
        Call::AlignTo4(done) => is_done(buffer.align(4), *done),
        Call::Seek(to) => {
            buffer.seek(*to);
            true
        }
        Call::Printed(text) => shows(alloc, &InHexadecimal(buffer), text),
        _ => false,
    }
}

/// Whether each of these calls answers as it says, and leaves the buffer where it says.
fn are_answered(
    alloc: Global,
    mut buffer: ParseBuffer<'_>,
    calls: &[(Call, usize, usize)],
) -> bool {
    for (call, pos, left) in calls {
        if !is_answered(alloc, &mut buffer, call) || !stands(&buffer, *pos, *left) {
            return false;
        }
    }
    true
}

/// Whether each of these calls answers as it says over these bytes, and over a stream of them.
fn is_row(alloc: Global, bytes: &[u8], calls: &[(Call, usize, usize)]) -> pdb_base::Result<bool> {
    let stream = stream(alloc, bytes)?;
    Ok(
        are_answered(alloc, stream.parse_buffer(), calls)
            && are_answered(alloc, ParseBuffer::from(bytes), calls),
    )
}

/// Stops the test at the first case of which a call answers otherwise.
fn test_rows(rt: &impl Abort, alloc: Global, rows: &[Row]) {
    for (name, bytes, calls) in rows {
        assert!(rt;
            is_row(alloc, bytes, calls).expect(rt, "a stream"),
            "{name}"
        );
    }
}

#[test]
fn short_numbers(rt: HostRuntime) {
    test_rows(&rt, rt.alloc(), SHORT_NUMBERS);
}

#[test]
fn numbers(rt: HostRuntime) {
    test_rows(&rt, rt.alloc(), NUMBERS);
}

#[test]
fn unsigned(rt: HostRuntime) {
    test_rows(&rt, rt.alloc(), UNSIGNED);
}

#[test]
fn variants(rt: HostRuntime) {
    test_rows(&rt, rt.alloc(), VARIANTS);
}

#[test]
fn other_variants(rt: HostRuntime) {
    test_rows(&rt, rt.alloc(), OTHER_VARIANTS);
}

#[test]
fn places(rt: HostRuntime) {
    test_rows(&rt, rt.alloc(), PLACES);
}

#[test]
fn texts(rt: HostRuntime) {
    test_rows(&rt, rt.alloc(), TEXTS);
}

#[test]
fn nothing(rt: HostRuntime) {
    assert!(rt; stands(&ParseBuffer::default(), 0, 0));
}

/// Whether so many letters are read as a text if a NUL follows them among so many bytes, of which
/// the first stands behind some NULs.
fn ends_at_nul(alloc: Global, before: usize, letters: usize, len: usize) -> pdb_base::Result<bool> {
    let mut bytes = vec![in alloc; 0; before]?;
    bytes.resize(before.saturating_add(letters.min(len)), b'a')?;
    bytes.resize(before.saturating_add(len), 0)?;
    let mut buffer = ParseBuffer::from(bytes.as_slice());
    buffer.seek(before);
    let read = buffer.parse_cstring();
    Ok(if letters < len {
        matches!(read, Ok(text) if text.len() == letters) && buffer.len() == len - letters - 1
    } else {
        ends(read) && buffer.len() == len
    })
}

#[test]
fn ends_of_strings(rt: HostRuntime) -> Result<(), Fail> {
    for before in [0, 3, 20] {
        for len in [1, 15, 16, 17, 40, 41] {
            for letters in [0, 7, 15, 16, 17, 31, 40, 41] {
                let is_ended = ends_at_nul(rt.alloc(), before, letters, len)?;
                let is_well = is_ended;
                assert!(rt; is_well, "{letters} letters of {len} bytes behind {before}");
            }
        }
    }
    Ok(())
}
