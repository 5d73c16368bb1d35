//! The string table: names that other parts of a program database refer to by their offsets.

ghost use Rattle.std.specs.Prelude.{◌≡◌};
ghost use Rattle.pdb_base.specs.Answer.{Gives};
ghost use Rattle.pdb_base.specs.Place.{left};
ghost use Rattle.pdb_space.specs.StringTable.{header_at, is_known_version, name_of, names_of};

use crate::string_ref::StringRef;
use pdb_base::{Error, ParseBuffer, RawString, Result, Stream};
use std::marker::Model;

/// The signature at the start of every string table.
const SIGNATURE: u32 = 0xeffe_effe;

/// The size of the header in bytes.
const HEADER_SIZE: usize = 12;

/// The header of a string table, which precedes the names.
#[derive(Clone, Copy)]
struct Header {
    signature: u32,
    /// The version of the rule by which names are hashed, in a part of the table that isn't read
    /// here.
    hash_version: u32,
    /// The size of the names in bytes.
    names_size: u32,
}

/// Names, each ended by a NUL, that other parts of a program database refer to by a [`StringRef`].
///
/// The table keeps its stream, and names borrow from it. The layout is that of `NMT` in Microsoft's
/// nmt.h.
#[derive(Debug, Drop)]
pub struct StringTable {
    stream: Stream,
    names_size: usize,
}

impl Model for StringTable {
    ghost use Rattle.std.specs.Prelude.{List, ℕ, ◌+◌, ◌≤◌, length, take, drop};

    ghost Value = { List ℕ };

    ghost view = { λ t. take t.names_size (drop 12 t.stream) };

    ghost invariant = { λ t. 12 + t.names_size ≤ length t.stream };
}

/// Reads the header, whose numbers are little-endian `u32`.
#[tactic(auto, unfolding(crate::specs::StringTable::header_at))]
fn read_header(buffer: &mut ParseBuffer<'_>) -> Result<Header>
    ensures { Gives (λ header. (header, left buffer.new)) result (header_at (left buffer.old)) }
{
    let signature = buffer.parse_u32()?;
    let hash_version = buffer.parse_u32()?;
    let names_size = buffer.parse_u32()?;
    Ok(Header {
        signature,
        hash_version,
        names_size,
    })
}

/// Returns whether the format has this version of the rule by which names are hashed: 1 or 2.
fn is_known_version(hash_version: u32) -> bool
    ensures { result ≡ is_known_version hash_version }
{
    hash_version == 1 || hash_version == 2
}

/// Returns the bytes of the names in the stream of a string table.
#[tactic(auto, unfolding(crate::specs::StringTable::names_of))]
fn names_of(stream: &[u8]) -> Result<&[u8]>
    ensures { Gives (λ names. names.now) result (names_of stream.now) }
{
    let mut buffer = ParseBuffer::from(stream);
    let header = read_header(&mut buffer)?;
    if header.signature != SIGNATURE {
        return Err(Error::UnimplementedFeature("invalid string table signature"));
    }
    let names = buffer.take(header.names_size as usize)?;
    if !is_known_version(header.hash_version) {
        return Err(Error::UnimplementedFeature("unknown string table hash version"));
    }
    Ok(names)
}

impl StringTable {
    /// Parses the string table in a stream: a `u32` signature 0xeffeeffe, a `u32` hash version, a
    /// `u32` size of the names in bytes, and the names. What follows the names isn't read.
    ///
    /// # Errors
    /// Fails with the first of these that applies:
    /// - `UnexpectedEof` if the stream has fewer than the header's 12 bytes;
    /// - `UnimplementedFeature("invalid string table signature")` if the signature is another one;
    /// - `UnexpectedEof` if the names don't fit in the stream;
    /// - `UnimplementedFeature("unknown string table hash version")` if the version is neither 1
    ///   nor 2.
    pub fn parse(stream: Stream) -> Result<Self>
        ensures { Gives (λ names. names) result (names_of stream) }
    {
        let names_size = names_of(stream.as_slice())?.len();
        Ok(StringTable { stream, names_size })
    }

    /// Returns the bytes of the names.
    fn names(&self) -> &[u8]
        ensures { result.now ≡ self.now }
    {
        let stream = self.stream.as_slice();
        &stream[HEADER_SIZE..HEADER_SIZE + self.names_size]
    }

    /// Returns the name at an offset in bytes from the first name: the bytes from there up to the
    /// first NUL.
    ///
    /// # Errors
    /// Fails with `UnexpectedEof` if there is no NUL among the names at or after the offset.
    #[inline(always)]
    #[tactic(auto, unfolding(crate::specs::StringTable::name_of), using(std::proofs::lemmas::List::drop_min))]
    pub fn get(&self, offset: StringRef) -> Result<RawString<'_>>
        ensures { Gives (λ name. name.0.now) result (name_of self.now offset) }
    {
        let mut names = ParseBuffer::from(self.names());
        names.seek(offset.0 as usize);
        names.parse_cstring()
    }
}
