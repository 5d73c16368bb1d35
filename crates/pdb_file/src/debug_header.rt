//! The roles of streams, which the debug header of stream 3 lists.

ghost use Rattle.std.specs.Prelude.{◌≡◌, ◌+◌, ◌<◌, sum};
ghost use Rattle.pdb_base.specs.Answer.{Gives};
ghost use Rattle.pdb_file.specs.DebugHeader.{extra_streams, extra_streams_of, sizes_before, stream_listed_at};

use crate::dbi_header::{DBIHeader, HEADER_SIZE};
use crate::fields::u16_in;
use pdb_base::{Error, Result, Stream, StreamIndex};

/// The size in bytes of the stream numbers that have a role.
const ROLES_SIZE: usize = 22;

/// The streams of eleven roles. The index of a role names no stream if the file has none in that
/// role. By default, no index names a stream.
#[derive(Clone, Copy, Debug, Default, PartialEq, Eq)]
pub struct DBIExtraStreams {
    /// Frames in the older format.
    pub fpo: StreamIndex,

    /// Exception handlers.
    pub exception: StreamIndex,

    /// Fixups.
    pub fixup: StreamIndex,

    /// The OMAP table that leads from the image as it is loaded to the original one.
    pub omap_to_src: StreamIndex,

    /// The OMAP table that leads from the original image to the one that is loaded.
    pub omap_from_src: StreamIndex,

    /// The headers of the sections of the image as it is loaded.
    pub section_headers: StreamIndex,

    /// The map of the tokens of the common language runtime.
    pub token_rid_map: StreamIndex,

    /// The image's section `.xdata`.
    pub xdata: StreamIndex,

    /// The image's section `.pdata`.
    pub pdata: StreamIndex,

    /// Frames in the newer format.
    pub framedata: StreamIndex,

    /// The headers of the sections of the original image, if a tool has rearranged it.
    pub original_section_headers: StreamIndex,
}

/// Returns the stream at index `place` of a list of stream numbers, or an index that names no
/// stream if the list ends before that number does.
fn stream_listed_at(list: &[u8], place: usize) -> StreamIndex
    requires { place < 11 }
    ensures { result ≡ stream_listed_at place list.now }
{
    if 2 * place + 2 <= list.len() {
        StreamIndex(u16_in(list, 2 * place))
    } else {
        StreamIndex::none()
    }
}

/// Returns the number of bytes before the debug header.
#[tactic(auto)]
fn size_before(header: &DBIHeader) -> usize
    ensures { result ≡ sum (sizes_before header.now) }
{
    HEADER_SIZE
        + header.module_list_size as usize
        + header.section_contribution_size as usize
        + header.section_map_size as usize
        + header.file_info_size as usize
        + header.type_server_map_size as usize
        + header.ec_substream_size as usize
}

impl DBIExtraStreams {
    /// Reads the roles from the debug header in stream 3. If the stream is empty, no role has a
    /// stream.
    ///
    /// The parts of the stream are in this order: the header, modules, section contributions, the
    /// section map, file info, the type server map, names for edit and continue, the debug header.
    /// The header says the sizes of the parts after it.
    ///
    /// # Errors
    /// Fails as `DBIHeader::parse` does, then with `UnexpectedEof` if the stream ends before the
    /// debug header does, and then as `parse` does.
    #[tactic(auto, unfolding(crate::specs::DebugHeader::extra_streams_of, crate::specs::DebugHeader::debug_header_behind))]
    pub fn new(stream: &Stream) -> Result<Self>
        ensures { Gives (λ roles. roles) result (extra_streams_of stream.now) }
    {
        if stream.as_slice().is_empty() {
            return DBIExtraStreams::parse(stream.as_slice());
        }
        let header = DBIHeader::parse(stream)?;
        let mut buffer = stream.parse_buffer();
        buffer.take(size_before(&header))?;
        let list = buffer.take(header.debug_header_size as usize)?;
        DBIExtraStreams::parse(list)
    }

    /// Parses a debug header: stream numbers, each a little-endian `u16`, of which the first eleven
    /// are those of the roles in order. A role after the last number has no stream.
    ///
    /// # Errors
    /// Fails with `UnexpectedEof` if one of the first eleven numbers is cut in half.
    #[tactic(auto, unfolding(crate::specs::DebugHeader::extra_streams, crate::specs::DebugHeader::roles_in))]
    pub fn parse(list: &[u8]) -> Result<Self>
        ensures { Gives (λ roles. roles) result (extra_streams list.now) }
    {
        if list.len() < ROLES_SIZE && list.len() % 2 != 0 {
            return Err(Error::UnexpectedEof);
        }
        Ok(DBIExtraStreams {
            fpo: stream_listed_at(list, 0),
            exception: stream_listed_at(list, 1),
            fixup: stream_listed_at(list, 2),
            omap_to_src: stream_listed_at(list, 3),
            omap_from_src: stream_listed_at(list, 4),
            section_headers: stream_listed_at(list, 5),
            token_rid_map: stream_listed_at(list, 6),
            xdata: stream_listed_at(list, 7),
            pdata: stream_listed_at(list, 8),
            framedata: stream_listed_at(list, 9),
            original_section_headers: stream_listed_at(list, 10),
        })
    }
}
