//! The header of a table of items.

ghost use Rattle.std.specs.Prelude.{◌<◌, ◌^◌, IfOk};
ghost use Rattle.pdb_base.specs.Answer.{Gives};
ghost use Rattle.pdb_base.specs.Place.{left};
ghost use Rattle.pdb_tpi.specs.Header.{slice_of, header_fields, check_header, header_of};

use pdb_base::{Error, ParseBuffer, Result};

/// How many bytes the fields of a header take.
const FIELDS_SIZE: u32 = 56;

/// How many bytes a header takes at most.
const MOST_SIZE: u32 = 1024;

/// The least index of an item: those below name primitive types.
const LEAST_INDEX: u32 = 4096;

/// A part of the hash stream that goes with a table.
#[derive(Clone, Copy, Debug, Default, PartialEq, Eq)]
pub struct Slice {
    /// Where it begins in that stream, in bytes.
    pub offset: i32,
    /// How many bytes it takes.
    pub size: u32,
}

/// The header of a table of items, field by field (`HDR` in Microsoft's tpi.h).
#[derive(Clone, Copy, Debug, Default, PartialEq, Eq)]
pub struct Header {
    /// The version of the format.
    pub version: u32,
    /// How many bytes the header takes. The items begin at this offset.
    pub header_size: u32,
    /// The index of the first item.
    pub minimum_index: u32,
    /// One more than the index of the last item.
    pub maximum_index: u32,
    /// How many bytes the items take.
    pub gprec_size: u32,
    /// The number of the hash stream, or 0xffff for none.
    pub tpi_hash_stream: u16,
    /// The number of the stream of further hashes, or 0xffff for none.
    pub tpi_hash_pad_stream: u16,
    /// How many bytes a hash takes.
    pub hash_key_size: u32,
    /// How many buckets the hashes fall into.
    pub hash_bucket_size: u32,
    /// The hashes of the items.
    pub hash_values: Slice,
    /// The positions of some items.
    pub ti_off: Slice,
    /// The items that were moved to the start of their bucket.
    pub hash_adj: Slice,
}

/// Reads a slice of the hash stream.
#[tactic(auto, unfolding(crate::specs::Header::slice_of))]
fn read_slice(buffer: &mut ParseBuffer<'_>) -> Result<Slice>
    ensures { Gives (λ slice. (slice, left buffer.new)) result (slice_of (left buffer.old)) }
{
    let offset = buffer.parse_i32()?;
    let size = buffer.parse_u32()?;
    Ok(Slice { offset, size })
}

/// Reads the fields of a header.
#[tactic(auto, unfolding(crate::specs::Header::header_fields))]
fn read_fields(buffer: &mut ParseBuffer<'_>) -> Result<Header>
    ensures { Gives (λ header. (header, left buffer.new)) result (header_fields (left buffer.old)) }
{
    let version = buffer.parse_u32()?;
    let header_size = buffer.parse_u32()?;
    let minimum_index = buffer.parse_u32()?;
    let maximum_index = buffer.parse_u32()?;
    let gprec_size = buffer.parse_u32()?;
    let tpi_hash_stream = buffer.parse_u16()?;
    let tpi_hash_pad_stream = buffer.parse_u16()?;
    let hash_key_size = buffer.parse_u32()?;
    let hash_bucket_size = buffer.parse_u32()?;
    let hash_values = read_slice(buffer)?;
    let ti_off = read_slice(buffer)?;
    let hash_adj = read_slice(buffer)?;
    Ok(Header {
        version,
        header_size,
        minimum_index,
        maximum_index,
        gprec_size,
        tpi_hash_stream,
        tpi_hash_pad_stream,
        hash_key_size,
        hash_bucket_size,
        hash_values,
        ti_off,
        hash_adj,
    })
}

impl Header {
    /// Fails for a header that no table of `len` bytes has.
    #[tactic(auto, unfolding(crate::specs::Header::check_header))]
    fn check(self, len: usize) -> Result<()>
        ensures { Gives (λ x. x) result (check_header self len) }
    {
        if self.header_size < FIELDS_SIZE {
            return Err(Error::InvalidTypeInformationHeader("header size is impossibly small"));
        }
        if self.header_size > MOST_SIZE {
            return Err(Error::InvalidTypeInformationHeader("header size is unreasonably large"));
        }
        if self.header_size as usize > len {
            return Err(Error::UnexpectedEof);
        }
        if self.minimum_index < LEAST_INDEX {
            return Err(Error::InvalidTypeInformationHeader("minimum type index is < 4096"));
        }
        if self.maximum_index < self.minimum_index {
            return Err(Error::InvalidTypeInformationHeader(
                "maximum type index is < minimum type index",
            ));
        }
        Ok(())
    }
}

/// Reads the header at the start of a table's bytes. Every field is 0 if the table has no bytes.
#[tactic(auto, unfolding(crate::specs::Header::header_of, crate::specs::Header::read_header_of))]
pub fn read_header(bytes: &[u8]) -> Result<Header>
    ensures header { Gives (λ header. header) result (header_of bytes.now) }
    ensures indexed { IfOk result (λ header. header.maximum_index < 2 ^ 32) }
{
    if bytes.is_empty() {
        return Ok(Header::default());
    }
    let header = read_fields(&mut ParseBuffer::from(bytes))?;
    header.check(bytes.len())?;
    Ok(header)
}
