//! Files: their streams, what is found by the roles and names of these, what identifies a file, and
//! whether it is whole.

ghost use Rattle.std.specs.Prelude.{◌≡◌, ◌==◌, if◌then◌else◌};
ghost use Rattle.pdb_msf.specs.Layout.{size_by};
ghost use Rattle.pdb_file.specs.Format.{format_of};
ghost use Rattle.pdb_handles.specs.Copied.{CopiesAnswer, CopiesOrLacks, copied_of, text_if_copied};
ghost use Rattle.pdb_handles.specs.File.{layout_said, named_asked, roles_said, sections_told, sizes_in};
ghost use Rattle.pdb_handles.specs.File.{front_asked};
ghost use Rattle.pdb_handles.specs.{Findings.findings_said, Found.AsksAnswer, Found.answered_of, Handle.Opens};
ghost use Rattle.pdb_handles.specs.{Handle.file_held, Identity.format_number, Identity.identity_said};
ghost use Rattle.pdb_handles.specs.{Identity.key_text, Listing.RowsOrLacks, Listing.listing_asked};
ghost use Rattle.pdb_handles.specs.StreamNames.{stream_names_said};
ghost use Rattle.pdb_handles.specs.Kept.{KeepsFile};

use pdb_file::Format;
use pdb_handles::copied::{copy_list, write_listing};
use pdb_handles::file::{OpenFile, Sizes, copy_front, copy_named, layout_in, sizes_in};
use pdb_handles::findings::{FoundFault, findings_in};
use pdb_handles::found::tell_answered;
use pdb_handles::identity::{FileIdentity, copy_key, format_number, identity_in};
use pdb_handles::roles::{Roles, roles_in};
use pdb_handles::sections::{Section, sections_in};
use pdb_handles::stream_names::{NamedStream, stream_names_in};
use pdb_handles::{FINE, Fault};
use std::alloc::Global;

/// Opens a file: reads its header and its directory, and keeps them. The bytes stay with the caller.
#[unsafe(no_mangle)]
pub extern "C" fn pdb_file_open<'f>(alloc: Global, bytes: &'f [u8], file: &mut OpenFile<'f>) -> u32
    ensures opens { Opens file.old.handle.held.content (layout_said bytes.now) file.new.handle.fault
        file.new.handle.held.content }
    ensures bytes { file.new.bytes.now ≡ (if result == 0 then bytes.now else file.old.bytes.now) }
    ensures status { result ≡ file.new.handle.fault.status }
{
    let told = open!(file.handle, alloc, layout_in(alloc, bytes));
    if told.status == FINE {
        file.bytes = bytes;
    }
    file.handle.keep(told)
}

/// Writes the sizes in a file.
#[unsafe(no_mangle)]
pub extern "C" fn pdb_file_sizes(alloc: Global, file: &mut OpenFile<'_>, sizes: &mut Sizes) -> u32
    ensures answer { AsksAnswer sizes_in sizes.old (file_held file.old.handle.held.content)
        file.new.handle.fault sizes.new }
    ensures kept { KeepsFile file.old file.new result }
{
    ask!(file.handle, alloc, File(layout) => tell_answered(sizes_in(layout), sizes))
}

/// Writes the size of a stream of the file in bytes.
#[unsafe(no_mangle)]
pub extern "C" fn pdb_file_stream_size(
    alloc: Global,
    file: &mut OpenFile<'_>,
    number: u32,
    size: &mut u32,
) -> u32
    ensures answer { record { fault = file.new.handle.fault; value = size.new }
        ≡ answered_of size.old (λ layout. size_by layout number) (file_held file.old.handle.held.content) }
    ensures kept { KeepsFile file.old file.new result }
{
    ask!(file.handle, alloc, File(layout) => tell_answered(layout.stream_size(number), size))
}

/// Copies the bytes of a stream of the file into the caller's array, at most `limit` of them.
#[unsafe(no_mangle)]
pub extern "C" fn pdb_file_stream(
    alloc: Global,
    file: &mut OpenFile<'_>,
    number: u32,
    limit: usize,
    room: &mut [u8],
    length: &mut usize,
) -> u32
    ensures answer { CopiesOrLacks (record { fault = file.new.handle.fault; length = length.new; room = room.new })
        room.old (front_asked file.old.bytes.now number limit room.old (file_held file.old.handle.held.content)) }
    ensures kept { KeepsFile file.old file.new result }
{
    *length = 0;
    let bytes = file.bytes;
    ask!(file.handle, alloc, File(layout) => {
        copy_front(alloc, layout, bytes, number, limit, room, length)
    })
}

/// Copies the bytes of the first stream with this name into the caller's array.
#[unsafe(no_mangle)]
pub extern "C" fn pdb_file_named_stream(
    alloc: Global,
    file: &mut OpenFile<'_>,
    name: &[u8],
    room: &mut [u8],
    length: &mut usize,
) -> u32
    ensures answer { CopiesOrLacks (record { fault = file.new.handle.fault; length = length.new; room = room.new })
        room.old (named_asked file.old.bytes.now name.now room.old (file_held file.old.handle.held.content)) }
    ensures kept { KeepsFile file.old file.new result }
{
    *length = 0;
    let bytes = file.bytes;
    ask!(file.handle, alloc, File(layout) => copy_named(alloc, layout, bytes, name, room, length))
}

/// Writes the streams that a file names, in the order in which it lists them, and their names.
#[unsafe(no_mangle)]
pub extern "C" fn pdb_file_stream_names(
    alloc: Global,
    file: &mut OpenFile<'_>,
    rows: &mut [NamedStream],
    count: &mut usize,
    names: &mut [u8],
    size: &mut usize,
) -> u32
    ensures answer { RowsOrLacks (record {
      fault = file.new.handle.fault;
      rows = rows.new;
      count = count.new;
      names = names.new;
      size = size.new;
    })
        rows.old names.old (listing_asked rows.old names.old (λ layout. stream_names_said file.old.bytes.now)
        (file_held file.old.handle.held.content)) }
    ensures kept { KeepsFile file.old file.new result }
{
    *count = 0;
    *size = 0;
    let bytes = file.bytes;
    ask!(file.handle, alloc, File(_) => {
        write_listing(stream_names_in(alloc, bytes), rows, count, names, size)
    })
}

/// Writes the numbers of a file's streams in their roles. If they can't be read, `roles` is left
/// unchanged.
#[unsafe(no_mangle)]
pub extern "C" fn pdb_file_roles(alloc: Global, file: &mut OpenFile<'_>, roles: &mut Roles) -> u32
    ensures answer { AsksAnswer (λ layout. roles_said file.old.bytes.now) roles.old
        (file_held file.old.handle.held.content) file.new.handle.fault roles.new }
    ensures kept { KeepsFile file.old file.new result }
{
    let bytes = file.bytes;
    ask!(file.handle, alloc, File(_) => tell_answered(roles_in(alloc, bytes), roles))
}

/// Writes the headers of the sections that a stream of the file holds.
#[unsafe(no_mangle)]
pub extern "C" fn pdb_file_sections(
    alloc: Global,
    file: &mut OpenFile<'_>,
    number: u32,
    room: &mut [Section],
    length: &mut usize,
) -> u32
    ensures answer { CopiesOrLacks (record { fault = file.new.handle.fault; length = length.new; room = room.new })
        room.old (copied_of room.old (λ layout. sections_told layout file.old.bytes.now number)
        (file_held file.old.handle.held.content)) }
    ensures kept { KeepsFile file.old file.new result }
{
    *length = 0;
    let bytes = file.bytes;
    ask!(file.handle, alloc, File(layout) => {
        copy_list(sections_in(alloc, layout, bytes, number), room, length)
    })
}

/// Writes what identifies a file.
#[unsafe(no_mangle)]
pub extern "C" fn pdb_file_identity(
    alloc: Global,
    file: &mut OpenFile<'_>,
    identity: &mut FileIdentity,
) -> u32
    ensures answer { AsksAnswer (λ layout. identity_said file.old.bytes.now) identity.old
        (file_held file.old.handle.held.content) file.new.handle.fault identity.new }
    ensures kept { KeepsFile file.old file.new result }
{
    let bytes = file.bytes;
    ask!(file.handle, alloc, File(_) => tell_answered(identity_in(alloc, bytes), identity))
}

/// Copies the text of a file's key in the form of a number.
#[unsafe(no_mangle)]
pub extern "C" fn pdb_key(
    alloc: Global,
    identity: &FileIdentity,
    form: u32,
    room: &mut [u8],
    length: &mut usize,
) -> u32
    ensures { (told : Fault) × (result ≡ told.status) ×
        CopiesOrLacks (record { fault = told; length = length.new; room = room.new }) room.old
        (text_if_copied room.old (key_text form identity.now)) }
{
    copy_key(alloc, identity, form, room, length).status
}

/// Returns the number of the format with whose prefix a file begins.
#[unsafe(no_mangle)]
pub extern "C" fn pdb_format_of(bytes: &[u8]) -> u32
    ensures { result ≡ format_number (format_of bytes.now) }
{
    format_number(Format::of(bytes))
}

/// Writes what is found wrong in a file: the first fault of each part, or every one unless `every`
/// is 0.
#[unsafe(no_mangle)]
pub extern "C" fn pdb_validate(
    alloc: Global,
    file: &[u8],
    every: u32,
    room: &mut [FoundFault],
    length: &mut usize,
) -> u32
    ensures { (told : Fault) × (result ≡ told.status) ×
        CopiesAnswer (findings_said every file.now) room.old told length.new room.new }
{
    copy_list(findings_in(alloc, file, every), room, length).status
}
