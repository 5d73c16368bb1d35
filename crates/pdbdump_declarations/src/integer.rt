//! Integers as C and C++ write them.

use crate::sketch::push_number;
use pdbdump_types::TextBuffer;

/// Returns the type without a sign that has so many bytes.
pub(crate) fn unsigned_type(size: u64) -> Option<&'static str> {
    match size {
        1 => Some("unsigned char"),
        2 => Some("unsigned short"),
        4 => Some("unsigned int"),
        8 => Some("unsigned long long"),
        _ => None,
    }
}

/// Returns whether a value is an `int`.
pub(crate) fn is_int(value: i128) -> bool {
    i32::try_from(value).is_ok()
}

/// Appends a value of at most 64 bits as a constant of C and C++.
pub(crate) fn push_constant(value: i128, out: &mut TextBuffer) {
    if value == i64::MIN as i128 {
        out.push(b"(-0x7fffffffffffffffll - 1)");
        return;
    }
    if value < 0 {
        out.push(b"-");
    }
    push_number(
        b"",
        u64::try_from(value.unsigned_abs()).unwrap_or(u64::MAX),
        out,
    );
    let suffix: &[u8] = match value {
        -0x7fff_ffff..=0x7fff_ffff => b"",
        0x8000_0000..=0xffff_ffff => b"u",
        0.. => b"ull",
        _ => b"ll",
    };
    out.push(suffix);
}
