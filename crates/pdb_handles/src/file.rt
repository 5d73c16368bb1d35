//! A caller's file, its streams, and the parts of it that are found by the roles and names of these.

ghost use Rattle.std.specs.Prelude.{◌≡◌, IfOk, None};
ghost use Rattle.pdb_base.specs.Answer.{Answers};
ghost use Rattle.pdb_msf.specs.{Header.file_head, Layout.stream_by};
ghost use Rattle.pdb_handles.specs.Copied.{CopiesOrLacks};
ghost use Rattle.pdb_handles.specs.File.{addresses_said, frames_said, layout_said, names_said, omap_said, sizes_in};
ghost use Rattle.pdb_handles.specs.File.{copied_of_number, number_said, stream_copied};

use crate::content::Content;
use crate::copied::{copy_nothing, copy_stream};
use crate::fault::{Fault, TOO_SMALL};
use crate::handle::Handle;
use pdb_base::{Result, Stream};
use pdb_file::PDB;
use pdb_msf::{CountedSource, Layout};
use pdb_space::OMAPTable;
use std::alloc::Global;

/// A file that a caller opened. The bytes stay with the caller.
#[repr(C)]
pub struct OpenFile<'f> {
    /// The handle that holds the layout.
    pub handle: Handle,
    /// The bytes with which it was opened.
    pub bytes: &'f [u8],
}

/// The sizes in a file.
#[repr(C)]
#[derive(Clone, Copy)]
pub struct Sizes {
    /// The size of a page in bytes.
    pub page_size: u32,
    /// The number of streams in the directory, including absent ones.
    pub stream_count: u32,
}

/// Opens a file over the caller's bytes.
///
/// # Errors
/// Fails as `PDB::open` does.
pub fn open_file<'f>(alloc: Global, file: &'f [u8]) -> Result<PDB<&'f [u8]>>
    ensures head { Answers (λ file. file.head) result (file_head file.now) }
    ensures bytes { IfOk result (λ opened. opened.source.now ≡ file.now) }
{
    PDB::open(alloc, file)
}

/// Reads the header and the directory of a file.
///
/// # Errors
/// Fails as `Layout::read` does.
pub fn layout_in(alloc: Global, file: &[u8]) -> Result<Content>
    ensures { Answers (λ content. content) result (layout_said file.now) }
{
    let mut source = CountedSource::new(file);
    Ok(Content::File(Layout::read(alloc, &mut source)?))
}

/// Returns the sizes in a file.
///
/// # Errors
/// Fails as `Layout::stream_count` does.
pub fn sizes_in(layout: &Layout) -> Result<Sizes>
    ensures { Answers (λ sizes. sizes) result (sizes_in layout.now) }
{
    Ok(Sizes {
        page_size: layout.page_size(),
        stream_count: layout.stream_count()?,
    })
}

/// Reads a stream of a file by its layout.
///
/// # Errors
/// Fails as `Layout::stream` does.
pub fn stream_in(alloc: Global, layout: &Layout, file: &[u8], number: u32) -> Result<Stream>
    ensures { Answers (λ stream. stream) result (stream_by layout.now file.now number None) }
{
    let mut source = CountedSource::new(file);
    layout.stream(alloc, &mut source, number, None)
}

/// Copies the first bytes of a stream, at most as many as the limit, to the caller's array. If that
/// has no room for them by the size in the directory, and the file is as large, the stream isn't
/// read.
pub fn copy_front(
    alloc: Global,
    layout: &Layout,
    file: &[u8],
    number: u32,
    limit: usize,
    room: &mut [u8],
    length: &mut usize,
) -> Fault
    ensures { CopiesOrLacks (record { fault = result; length = length.new; room = room.new }) room.old
        (stream_copied layout.now file.now number limit room.old) }
{
    let size = match layout.stream_size(number) {
        Ok(size) => limit.min(size as usize),
        Err(error) => return copy_nothing(Fault::of(&error), length),
    };
    if room.len() < size && size <= file.len() {
        *length = size;
        return Fault::status(TOO_SMALL);
    }
    let mut source = CountedSource::new(file);
    copy_stream(
        layout.stream(alloc, &mut source, number, Some(limit)),
        room,
        length,
    )
}

/// Returns the number of the first stream with this name.
///
/// # Errors
/// Fails as `open_file`, `pdb_information`, `stream_names` and `StreamNames::number` do.
#[tactic(auto, unfolding(pdb_file::specs::File::file_number))]
pub fn number_in(alloc: Global, file: &[u8], name: &[u8]) -> Result<u32>
    ensures { Answers (λ number. number) result (number_said name.now file.now) }
{
    let mut file = open_file(alloc, file)?;
    let information = file.pdb_information(alloc)?;
    let streams = information.stream_names(alloc)?;
    Ok(streams.number(name)?)
}

/// Copies the bytes of the first stream with this name to the caller's array, as `copy_front` does.
pub fn copy_named(
    alloc: Global,
    layout: &Layout,
    file: &[u8],
    name: &[u8],
    room: &mut [u8],
    length: &mut usize,
) -> Fault
    ensures { CopiesOrLacks (record { fault = result; length = length.new; room = room.new }) room.old
        (copied_of_number layout.now file.now room.old (number_said name.now file.now)) }
{
    match number_in(alloc, file, name) {
        Ok(number) => copy_front(alloc, layout, file, number, usize::MAX, room, length),
        Err(error) => copy_nothing(Fault::of(&error), length),
    }
}

/// Reads the string table of a file.
///
/// # Errors
/// Fails as `open_file` and `string_table` do.
pub fn names_in(alloc: Global, file: &[u8]) -> Result<Content>
    ensures { Answers (λ content. content) result (names_said file.now) }
{
    let mut file = open_file(alloc, file)?;
    Ok(Content::Names(file.string_table(alloc)?))
}

/// Reads the OMAP table in a stream.
///
/// # Errors
/// Fails as `stream_in` and `OMAPTable::parse` do.
pub fn omap_in(alloc: Global, layout: &Layout, file: &[u8], number: u32) -> Result<Content>
    ensures { Answers (λ content. content) result (omap_said layout.now file.now number) }
{
    let stream = stream_in(alloc, layout, file, number)?;
    Ok(Content::Omap(OMAPTable::parse(stream)?))
}

/// Reads the address map of a file.
///
/// # Errors
/// Fails as `open_file` and `address_map` do.
pub fn addresses_in(alloc: Global, file: &[u8]) -> Result<Content>
    ensures { Answers (λ content. content) result (addresses_said file.now) }
{
    let mut file = open_file(alloc, file)?;
    Ok(Content::Addresses(file.address_map(alloc)?))
}

/// Reads the frame table of a file.
///
/// # Errors
/// Fails as `open_file` and `frame_table` do.
pub fn frames_in(alloc: Global, file: &[u8]) -> Result<Content>
    ensures { Answers (λ content. content) result (frames_said file.now) }
{
    let mut file = open_file(alloc, file)?;
    Ok(Content::Frames(file.frame_table(alloc)?))
}
