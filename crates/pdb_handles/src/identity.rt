//! What identifies a file: its numbers, its key, and its format.

ghost use Rattle.std.specs.Prelude.{◌≡◌, ℕ, List, string_bytes, Ok};
ghost use Rattle.uuid.specs.Text.{hyphenated_text, upper};
ghost use Rattle.pdb_base.specs.Answer.{Answer, Answers};
ghost use Rattle.pdb_file.specs.Identity.{file_identity};
ghost use Rattle.pdb_file.specs.Key.{lower_key, upper_key};
ghost use Rattle.pdb_handles.specs.Copied.{CopiesOrLacks, text_answered, text_copied, text_if_copied};
ghost use Rattle.pdb_handles.specs.Identity.{feature_bits, format_number, identity_of, identity_said, key_text};
ghost use Rattle.pdb_handles.specs.File.{read_of_file};

use crate::copied::{copy_nothing, copy_text};
use crate::fault::{Fault, NONE};
use crate::file::open_file;
use crate::frames::flag;
use pdb_base::Result;
use pdb_file::{Features, Format, Identity, LowerKey, UpperKey};
use std::alloc::Global;
use uuid::Uuid;

/// What identifies a file.
#[repr(C)]
#[derive(Clone, Copy)]
pub struct FileIdentity {
    /// The version of the format, such as 20000404 for version 7.
    pub version: u32,
    /// The time at which the file was made, in seconds since 1970, or a hash in its place.
    pub signature: u32,
    /// The age in the key: that of the debug information, or that of stream 1 if there is none.
    pub age: u32,
    /// The age in stream 1: how often the file was written.
    pub information_age: u32,
    /// Whether the file has debug information, as 0 or 1. The next three numbers are 0 if not.
    pub has_debug_header: u32,
    /// The age of the debug information.
    pub debug_age: u32,
    /// The machine for which the program is, as the header of an image numbers it.
    pub machine: u16,
    /// The flags of the debug information: 1 if it was linked incrementally, 2 if private symbols
    /// are stripped, and 4 if types may conflict.
    pub flags: u16,
    /// The sixteen bytes of the GUID, as they are in the file.
    pub guid: [u8; 16],
    /// Whether stream 1 reaches to the features, as 0 or 1. The next number is 0 if not.
    pub has_features: u32,
    /// The features that the file tells of itself: 1 if it is of Visual C++ 11, 2 if of Visual C++
    /// 14, 4 if types are not merged, and 8 if the debug information is minimal.
    pub features: u32,
}

/// Returns the bits of the features that a file tells of itself.
fn feature_bits(features: Features) -> u32
    ensures { result ≡ feature_bits features }
{
    flag(features.vc110)
        + 2 * flag(features.vc140)
        + 4 * flag(features.no_type_merge)
        + 8 * flag(features.minimal)
}

impl FileIdentity {
    /// Converts what identifies a file for the caller.
    fn of(identity: &Identity) -> FileIdentity
        ensures { result ≡ identity_of identity.now }
    {
        let without_header = FileIdentity {
            version: identity.version,
            signature: identity.signature,
            age: identity.information_age,
            information_age: identity.information_age,
            has_debug_header: 0,
            debug_age: 0,
            machine: 0,
            flags: 0,
            guid: identity.guid.to_bytes_le(),
            has_features: flag(identity.features.is_some()),
            features: identity.features.map_or(0, feature_bits),
        };
        match identity.debug_header {
            Some(header) => FileIdentity {
                age: header.age,
                has_debug_header: 1,
                debug_age: header.age,
                machine: header.machine_type,
                flags: header.flags,
                ..without_header
            },
            None => without_header,
        }
    }
}

/// Reads what identifies a file.
fn read_identity(alloc: Global, file: &[u8]) -> Result<Identity>
    ensures { Answers (λ identity. identity) result (read_of_file file_identity file.now) }
{
    let mut file = open_file(alloc, file)?;
    Identity::of(alloc, &mut file)
}

/// Reads what identifies a file, for the caller.
///
/// # Errors
/// Fails as `open_file` and `Identity::of` do.
pub fn identity_in(alloc: Global, file: &[u8]) -> Result<FileIdentity>
    ensures { Answers (λ identity. identity) result (identity_said file.now) }
{
    match read_identity(alloc, file) {
        Ok(identity) => Ok(FileIdentity::of(&identity)),
        Err(error) => Err(error),
    }
}

/// Returns the text of a key in upper case.
fn upper_text(alloc: Global, guid: Uuid, age: u32) -> Result<String>
    ensures { Answers string_bytes result (Ok (upper_key guid age)) }
{
    let key = UpperKey { guid, age };
    Ok(format!(in alloc; "{key}")?)
}

/// Returns the text of a key in lower case.
fn lower_text(alloc: Global, guid: Uuid, age: u32) -> Result<String>
    ensures { Answers string_bytes result (Ok (lower_key guid age)) }
{
    let key = LowerKey { guid, age };
    Ok(format!(in alloc; "{key}")?)
}

/// Copies a text that was made to the caller's array, or returns the fault of the error.
fn copy_made(made: Result<String>, room: &mut [u8], length: &mut usize) -> Fault
    ensures { (meant : Answer (List ℕ)) → Answers string_bytes made meant
        → CopiesOrLacks (record { fault = result; length = length.new; room = room.new }) room.old
        (text_answered room.old meant) }
{
    match made {
        Ok(text) => copy_text(text.as_bytes(), room, length),
        Err(error) => copy_nothing(Fault::of(&error), length),
    }
}

/// Copies the text of a GUID with hyphens to the caller's array.
fn copy_guid(guid: Uuid, room: &mut [u8], length: &mut usize) -> Fault
    ensures { record { fault = result; length = length.new; room = room.new }
        ≡ text_copied room.old (hyphenated_text upper guid) }
{
    let mut buffer = [0u8; 36];
    let text = guid.hyphenated().encode_upper(&mut buffer);
    copy_text(text.as_bytes(), room, length)
}

/// Copies the text of a file's key to the caller's array, in the form of a number: 0 for upper
/// case, 1 for lower case, and 2 for the GUID alone with hyphens. Returns a fault of status
/// `NONE` for any other number.
pub fn copy_key(
    alloc: Global,
    identity: &FileIdentity,
    form: u32,
    room: &mut [u8],
    length: &mut usize,
) -> Fault
    ensures { CopiesOrLacks (record { fault = result; length = length.new; room = room.new }) room.old
        (text_if_copied room.old (key_text form identity.now)) }
{
    let guid = Uuid::from_bytes_le(identity.guid);
    let age = identity.age;
    match form {
        0 => copy_made(upper_text(alloc, guid, age), room, length),
        1 => copy_made(lower_text(alloc, guid, age), room, length),
        2 => copy_guid(guid, room, length),
        _ => copy_nothing(Fault::status(NONE), length),
    }
}

/// Returns the number of a format.
pub fn format_number(format: Format) -> u32
    ensures { result ≡ format_number format }
{
    match format {
        Format::Unknown => 0,
        Format::Msf7 => 1,
        Format::Msf2 => 2,
        Format::Portable => 3,
        Format::Compressed => 4,
        Format::Image => 5,
    }
}
