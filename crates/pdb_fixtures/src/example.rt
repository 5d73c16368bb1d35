//! The example file S1, small enough to be written out by hand.

ghost use Rattle.std.specs.Prelude.{◌≡◌, ◌+◌, ◌≤◌, [], ◌++◌, length, take, vec_len, IfOk, OnOk};
ghost use Rattle.pdb_base.specs.Memory.{FailsOnlyForMemory};
ghost use Rattle.pdb_fixtures.specs.Example.{directory, header, location, page, s1_bytes, s1_of};

use pdb_base::Result;
use std::alloc::Global;

/// The size of a page of S1 in bytes.
pub(crate) const PAGE_SIZE: usize = 512;

/// The header: page size 512, free page map 1, 8 pages used, a directory of 32 bytes, and page 3 in
/// the list of the pages that hold the directory's page numbers.
pub const HEADER: &[u8] =
    b"Microsoft C/C++ MSF 7.00\r\n\x1a\x44\x53\x00\x00\x00\x00\x02\x00\x00\x01\x00\x00\x00\x08\x00\x00\x00\x20\x00\x00\x00\x00\x00\x00\x00\x03\x00\x00\x00";

/// The directory up to where the size of stream 3 begins: the count of four streams, and the sizes
/// of the first three, which are 0 bytes, 600 bytes, and absent.
pub const SIZES: &[u8] = b"\x04\x00\x00\x00\x00\x00\x00\x00\x58\x02\x00\x00\xff\xff\xff\xff";

/// The directory behind the size of stream 3: pages 6 and 5 of stream 1, and page 7 of stream 3.
pub const PAGES: &[u8] = b"\x06\x00\x00\x00\x05\x00\x00\x00\x07\x00\x00\x00";

/// The number of the directory's page.
pub const LOCATION: &[u8] = b"\x02\x00\x00\x00";

/// The bytes of stream 3 of S1.
pub const HELLO: &[u8] = b"hello";

/// Stream 1 of S1 in hexadecimal digits, 32 bytes a line.
pub const STREAM_1_LINES: &str = "\
6161616161616161616161616161616161616161616161616161616161616161\n\
6161616161616161616161616161616161616161616161616161616161616161\n\
6161616161616161616161616161616161616161616161616161616161616161\n\
6161616161616161616161616161616161616161616161616161616161616161\n\
6161616161616161616161616161616161616161616161616161616161616161\n\
6161616161616161616161616161616161616161616161616161616161616161\n\
6161616161616161616161616161616161616161616161616161616161616161\n\
6161616161616161616161616161616161616161616161616161616161616161\n\
6161616161616161616161616161616161616161616161616161616161616161\n\
6161616161616161616161616161616161616161616161616161616161616161\n\
6161616161616161616161616161616161616161616161616161616161616161\n\
6161616161616161616161616161616161616161616161616161616161616161\n\
6161616161616161616161616161616161616161616161616161616161616161\n\
6161616161616161616161616161616161616161616161616161616161616161\n\
6161616161616161616161616161616161616161616161616161616161616161\n\
6161616161616161616161616161616161616161616161616161616161616161\n\
6262626262626262626262626262626262626262626262626262626262626262\n\
6262626262626262626262626262626262626262626262626262626262626262\n\
626262626262626262626262626262626262626262626262\n";

/// Adds a page that begins with these bytes and is filled up with the byte `fill`.
#[tactic(auto, unfolding(crate::specs::Example::page))]
pub(crate) fn push_page(file: &mut Vec<u8>, front: &[u8], fill: u8) -> Result<()>
    requires { length front.now ≤ 512 }
    ensures page { OnOk result (file.new.items ≡ file.old.items ++ page front.now fill) }
    ensures len { OnOk result (vec_len file.new ≡ vec_len file.old + 512) }
    ensures memory { FailsOnlyForMemory result }
{
    let len = file.len() + PAGE_SIZE;
    file.extend_from_slice(front)?;
    file.resize(len, fill)?;
    Ok(())
}

/// Returns the first 512 of these bytes, or all if there are fewer.
#[tactic(auto, using(crate::proofs::Pages::front))]
fn page_of(bytes: &[u8]) -> &[u8]
    ensures front { result.now ≡ take 512 bytes.now }
    ensures len { length result.now ≤ 512 }
{
    &bytes[..PAGE_SIZE.min(bytes.len())]
}

/// Returns the directory of 32 bytes with this size of stream 3.
#[tactic(auto, using(crate::proofs::Constants::is_directory))]
fn directory(alloc: Global, size: u32) -> Result<Vec<u8>>
    ensures bytes { IfOk result (λ bytes. bytes.items ≡ directory size) }
    ensures len { IfOk result (λ bytes. vec_len bytes ≡ 32) }
    ensures memory { FailsOnlyForMemory result }
{
    let mut bytes = Vec::from_slice(alloc, SIZES)?;
    bytes.extend_from_slice(&size.to_le_bytes())?;
    bytes.extend_from_slice(PAGES)?;
    Ok(bytes)
}

/// Adds the pages before those of the streams: the header, an empty one, the directory and where it
/// lies.
#[tactic(auto, using(crate::proofs::Constants::is_header, crate::proofs::Constants::is_location))]
fn push_directory(file: &mut Vec<u8>, directory: &[u8]) -> Result<()>
    requires { length directory.now ≤ 512 }
    ensures pages { OnOk result (file.new.items ≡
        file.old.items ++ page header 0 ++ page [] 0 ++ page directory.now 0 ++ page location 0) }
    ensures len { OnOk result (vec_len file.new ≡ vec_len file.old + 2048) }
    ensures memory { FailsOnlyForMemory result }
{
    push_page(file, HEADER, 0)?;
    push_page(file, b"", 0)?;
    push_page(file, directory, 0)?;
    push_page(file, LOCATION, 0)
}

/// Adds an empty page and the pages of the streams: the second one of stream 1, its first one, and
/// the one of stream 3, which has these bytes.
fn push_streams(file: &mut Vec<u8>, stream: &[u8]) -> Result<()>
    requires { length stream.now ≤ 512 }
    ensures pages { OnOk result (file.new.items ≡
        file.old.items ++ page [] 0 ++ page [] 98 ++ page [] 97 ++ page stream.now 0) }
    ensures len { OnOk result (vec_len file.new ≡ vec_len file.old + 2048) }
    ensures memory { FailsOnlyForMemory result }
{
    push_page(file, b"", 0)?;
    push_page(file, b"", b'b')?;
    push_page(file, b"", b'a')?;
    push_page(file, stream, 0)
}

/// Returns the file S1 with other bytes as stream 3: the first 512 of `stream`, which is what a
/// page holds.
///
/// # Errors
/// Returns `OutOfMemory` if an allocation fails.
#[tactic(auto, unfolding(crate::specs::Example::s1_of))]
pub fn s1_with(alloc: Global, stream: &[u8]) -> Result<Vec<u8>>
    ensures bytes { IfOk result (λ file. file.items ≡ s1_of (take 512 stream.now)) }
    ensures len { IfOk result (λ file. vec_len file ≡ 4096) }
    ensures memory { FailsOnlyForMemory result }
{
    let stream = page_of(stream);
    let directory = directory(alloc, stream.len() as u32)?;
    let mut file = Vec::with_capacity(alloc, 8 * PAGE_SIZE)?;
    push_directory(&mut file, &directory)?;
    push_streams(&mut file, stream)?;
    Ok(file)
}

/// Returns the file S1: 4096 bytes with four streams. Stream 0 is empty, stream 1 is 512 times `a`
/// and 88 times `b`, stream 2 is absent, and stream 3 is `hello`.
///
/// # Errors
/// Returns `OutOfMemory` if an allocation fails.
#[tactic(auto, using(crate::proofs::Constants::is_hello))]
pub fn s1(alloc: Global) -> Result<Vec<u8>>
    ensures bytes { IfOk result (λ file. file.items ≡ s1_bytes) }
    ensures len { IfOk result (λ file. vec_len file ≡ 4096) }
    ensures memory { FailsOnlyForMemory result }
{
    s1_with(alloc, HELLO)
}
