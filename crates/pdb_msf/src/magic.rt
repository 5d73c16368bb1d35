//! The first bytes of a file, by which its format is known.

/// The format that is read: MSF 7.00.
pub mod big {
    /// The 32 bytes at the start of a file.
    pub const MAGIC: &[u8] = b"Microsoft C/C++ MSF 7.00\r\n\x1a\x44\x53\x00\x00\x00";
}

/// The format before it, 2.00, which is not read.
pub mod small {
    /// The 42 bytes at the start of a file.
    pub const MAGIC: &[u8] = b"Microsoft C/C++ program database 2.00\r\n\x1a\x4a\x47";
}
