//! Bytes of streams and of items.

/// The items of a table: a list of the field B, and one of the field A that continues in the list
/// 0x1000.
pub const TWO_LISTS: &[u8] =
    b"\x0c\x00\x03\x12\x02\x15\x03\x00\x01\x00B\x00\xf2\xf1\x12\x00\x03\x12\x02\x15\x03\x00\x00\x00A\x00\x04\x14\x00\x00\x00\x10\x00\x00";

/// The list of B, seven empty lists, and in another block of the table, at 0x1008, the one of A.
pub const FAR_LISTS: &[u8] =
    b"\x0c\x00\x03\x12\x02\x15\x03\x00\x01\x00B\x00\xf2\xf1\x02\x00\x03\x12\x02\x00\x03\x12\x02\x00\x03\x12\x02\x00\x03\x12\x02\x00\x03\x12\x02\x00\x03\x12\x02\x00\x03\x12\x12\x00\x03\x12\x02\x15\x03\x00\x00\x00A\x00\x04\x14\x00\x00\x00\x10\x00\x00";

/// A string table: seven bytes of names, the last of which has no NUL among them, and a NUL behind.
pub const STRINGS: &[u8] = b"\xfe\xef\xfe\xef\x01\0\0\0\x07\0\0\0\0foo\0ba\0";

/// An OMAP table, which moves the addresses from 0x1000 on nowhere, and those from 0x1008 on to
/// 0x15d44.
pub const MOVES: &[u8] = b"\x00\x10\0\0\0\0\0\0\x08\x10\0\0\x44\x5d\x01\0";
