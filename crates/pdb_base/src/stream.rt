//! The bytes of one stream.

ghost use Rattle.std.specs.Prelude.{◌≡◌, ◌<◌, length};

use crate::buffer::ParseBuffer;
use std::marker::Model;

/// The bytes of one stream of a file, or only the first of them if there was a limit.
#[derive(Debug, Drop)]
pub struct Stream {
    bytes: Vec<u8>,
}

impl Model for Stream {
    ghost use Rattle.std.specs.Prelude.{List, ℕ, ◌<◌, length};

    ghost Value = { List ℕ };

    ghost view = { λ s. s.bytes.items };

    ghost invariant = { λ s. length s.bytes.items < 0xffffffff };
}

impl Stream {
    /// Returns a stream of these bytes, of which there must be fewer than 4,294,967,295.
    pub fn new(bytes: Vec<u8>) -> Self
        requires { length bytes.items < 0xffffffff }
        ensures { result ≡ bytes.items }
    {
        Stream { bytes }
    }

    /// Returns the bytes of the stream.
    pub fn as_slice(&self) -> &[u8]
        ensures bytes { result.now ≡ self.now }
        ensures short { length self.now < 0xffffffff }
    {
        self.bytes.as_slice()
    }

    /// Returns the bytes of the stream as a vector.
    pub fn into_bytes(self) -> Vec<u8>
        ensures { result.items ≡ self }
    {
        let Stream { bytes } = self;
        bytes
    }

    /// Returns a buffer at the start of the bytes.
    pub fn parse_buffer(&self) -> ParseBuffer<'_>
        ensures { result ≡ record { slice = self.now; pos = 0 } }
    {
        ParseBuffer::from(self.as_slice())
    }
}
