//! The header of the stream of debug information.

ghost use Rattle.std.specs.Prelude.{◌≡◌, ◌≤◌, length};
ghost use Rattle.pdb_base.specs.Answer.{Gives};
ghost use Rattle.pdb_file.specs.DbiHeader.{dbi_header, dbi_header_of};

use crate::fields::{u16_in, u32_in};
use pdb_base::{Error, ParseBuffer, Result, Stream, StreamIndex};

/// The signature at the start of every header except those of the oldest format.
const SIGNATURE: u32 = 0xffff_ffff;

/// The size of a header in bytes.
pub const HEADER_SIZE: usize = 64;

/// The header of stream 3, which holds the debug information (DBI): `NewDBIHdr` in Microsoft's
/// dbi.h.
#[derive(Clone, Copy, Debug, PartialEq, Eq)]
pub struct DBIHeader {
    /// Always 0xffffffff.
    pub signature: u32,

    /// The version of the format, for example 19990903 for version 7.
    pub version: u32,

    /// The number of times the file was written.
    pub age: u32,

    /// The stream by which global symbols are found.
    pub gs_symbols_stream: StreamIndex,

    /// The version of the tools that wrote the file.
    pub internal_version: u16,

    /// The stream by which public symbols are found.
    pub ps_symbols_stream: StreamIndex,

    /// The version of the library that wrote the file.
    pub pdb_dll_build_version: u16,

    /// The stream of symbol records.
    pub symbol_records_stream: StreamIndex,

    /// The rebuild of the library that wrote the file.
    pub pdb_dll_rbld_version: u16,

    /// The size of the list of modules in bytes.
    pub module_list_size: u32,

    /// The size of the section contributions in bytes.
    pub section_contribution_size: u32,

    /// The size of the section map in bytes.
    pub section_map_size: u32,

    /// The size of the file info in bytes.
    pub file_info_size: u32,

    /// The size of the type server map in bytes.
    pub type_server_map_size: u32,

    /// The index of the type server of MFC.
    pub mfc_type_server_index: u32,

    /// The size of the debug header in bytes.
    pub debug_header_size: u32,

    /// The size of the names for edit and continue in bytes.
    pub ec_substream_size: u32,

    /// A word of flags.
    pub flags: u16,

    /// The machine that the program is for, for example 0x8664 for x86-64.
    pub machine_type: u16,

    /// A field without meaning.
    pub reserved: u32,
}

impl DBIHeader {
    /// Parses the header at the start of stream 3: its fields in order, each number little-endian.
    ///
    /// # Errors
    /// Fails with the first of these that applies:
    /// - `UnexpectedEof` if the stream has fewer than four bytes;
    /// - `UnimplementedFeature("ancient DBI header")` if these aren't the signature;
    /// - `UnexpectedEof` if the stream has fewer than the header's 64 bytes.
    #[tactic(auto, unfolding(crate::specs::DbiHeader::dbi_header_of))]
    pub fn parse(stream: &Stream) -> Result<Self>
        ensures { Gives (λ header. header) result (dbi_header_of stream.now) }
    {
        let bytes = stream.as_slice();
        let signature = ParseBuffer::from(bytes).parse_u32()?;
        if signature != SIGNATURE {
            return Err(Error::UnimplementedFeature("ancient DBI header"));
        }
        if bytes.len() < HEADER_SIZE {
            return Err(Error::UnexpectedEof);
        }
        Ok(DBIHeader::fields(bytes))
    }

    /// Returns the header with its fields, each read at its offset.
    #[tactic(auto, unfolding(crate::specs::DbiHeader::dbi_header))]
    fn fields(bytes: &[u8]) -> Self
        requires { 64 ≤ length bytes.now }
        ensures { result ≡ dbi_header bytes.now }
    {
        DBIHeader {
            signature: u32_in(bytes, 0),
            version: u32_in(bytes, 4),
            age: u32_in(bytes, 8),
            gs_symbols_stream: StreamIndex(u16_in(bytes, 12)),
            internal_version: u16_in(bytes, 14),
            ps_symbols_stream: StreamIndex(u16_in(bytes, 16)),
            pdb_dll_build_version: u16_in(bytes, 18),
            symbol_records_stream: StreamIndex(u16_in(bytes, 20)),
            pdb_dll_rbld_version: u16_in(bytes, 22),
            module_list_size: u32_in(bytes, 24),
            section_contribution_size: u32_in(bytes, 28),
            section_map_size: u32_in(bytes, 32),
            file_info_size: u32_in(bytes, 36),
            type_server_map_size: u32_in(bytes, 40),
            mfc_type_server_index: u32_in(bytes, 44),
            debug_header_size: u32_in(bytes, 48),
            ec_substream_size: u32_in(bytes, 52),
            flags: u16_in(bytes, 56),
            machine_type: u16_in(bytes, 58),
            reserved: u32_in(bytes, 60),
        }
    }
}
