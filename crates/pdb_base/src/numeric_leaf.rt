//! The numeric leaves of Microsoft's cvinfo.h: the prefixes of numbers of variable width.

// Prefixes of numbers.
pub const LF_NUMERIC: u16 = 0x8000;

pub const LF_CHAR: u16 = 0x8000;

pub const LF_SHORT: u16 = 0x8001;

pub const LF_USHORT: u16 = 0x8002;

pub const LF_LONG: u16 = 0x8003;

pub const LF_ULONG: u16 = 0x8004;

pub const LF_REAL32: u16 = 0x8005;

pub const LF_REAL64: u16 = 0x8006;

pub const LF_REAL80: u16 = 0x8007;

pub const LF_REAL128: u16 = 0x8008;

pub const LF_QUADWORD: u16 = 0x8009;

pub const LF_UQUADWORD: u16 = 0x800a;

pub const LF_REAL48: u16 = 0x800b;

pub const LF_COMPLEX32: u16 = 0x800c;

pub const LF_COMPLEX64: u16 = 0x800d;

pub const LF_COMPLEX80: u16 = 0x800e;

pub const LF_COMPLEX128: u16 = 0x800f;

pub const LF_VARSTRING: u16 = 0x8010;

// Prefixes of numbers that were added later.
pub const LF_OCTWORD: u16 = 0x8017;

pub const LF_UOCTWORD: u16 = 0x8018;

pub const LF_DECIMAL: u16 = 0x8019;

pub const LF_DATE: u16 = 0x801a;

pub const LF_UTF8STRING: u16 = 0x801b;

pub const LF_REAL16: u16 = 0x801c;
