//! Files that are put together of the bytes of their streams.

ghost use Rattle.pdb_base.specs.Memory.{FailsOnlyForMemory};

use crate::example::{PAGE_SIZE, push_page};
use pdb_base::Result;
use std::alloc::Global;

/// What a file begins with.
const MAGIC: &[u8] = b"Microsoft C/C++ MSF 7.00\r\n\x1aDS\0\0\0";

/// The number of the page from which the streams lie on: behind the header, two free page maps, the
/// page number of the directory and the directory.
const FIRST_PAGE: usize = 5;

/// The least number of bytes that is read as a file.
const LEAST_BYTES: usize = 4096;

/// Returns the number of the page behind the pages of these bytes.
fn page_behind(pages: &[u8]) -> u32 {
    (FIRST_PAGE + pages.len() / PAGE_SIZE).min(0xffff_ffff) as u32
}

/// Adds numbers of four bytes.
fn push_numbers(bytes: &mut Vec<u8>, numbers: &[u32]) -> Result<()>
    ensures memory { FailsOnlyForMemory result }
{
    for number in numbers {
        bytes.extend_from_slice(&number.to_le_bytes())?;
    }
    Ok(())
}

/// Adds the pages of a stream, and their numbers to the directory.
fn push_stream(directory: &mut Vec<u8>, pages: &mut Vec<u8>, stream: &[u8]) -> Result<()>
    ensures memory { FailsOnlyForMemory result }
{
    for page in stream.chunks(PAGE_SIZE) {
        push_numbers(directory, &[page_behind(pages)])?;
        push_page(pages, page, 0)?;
    }
    Ok(())
}

/// Returns a file of these streams in pages of 512 bytes, of which some may be absent. The directory
/// is in page 4 and has at most 512 bytes. The streams lie behind it, one after another. The file
/// has at least 4096 bytes.
///
/// # Errors
/// Returns `OutOfMemory` if an allocation fails.
pub fn file_of(alloc: Global, streams: &[Option<&[u8]>]) -> Result<Vec<u8>>
    ensures memory { FailsOnlyForMemory result }
{
    let mut directory = Vec::new(alloc);
    push_numbers(&mut directory, &[streams.len().min(0xffff_ffff) as u32])?;
    for stream in streams {
        let size = match stream {
            Some(bytes) => bytes.len().min(0xffff_fffe) as u32,
            None => 0xffff_ffff,
        };
        push_numbers(&mut directory, &[size])?;
    }
    let mut pages = Vec::new(alloc);
    for stream in streams {
        push_stream(&mut directory, &mut pages, stream.unwrap_or(b""))?;
    }
    let len = pages.len().max(LEAST_BYTES - FIRST_PAGE * PAGE_SIZE);
    pages.resize(len, 0)?;
    join_pages(alloc, &directory, &pages)
}

/// Returns the file of a directory and the pages of its streams.
fn join_pages(alloc: Global, directory: &[u8], pages: &[u8]) -> Result<Vec<u8>>
    ensures memory { FailsOnlyForMemory result }
{
    let directory = &directory[..directory.len().min(PAGE_SIZE)];
    let mut header = Vec::from_slice(alloc, MAGIC)?;
    push_numbers(
        &mut header,
        &[512, 1, page_behind(pages), directory.len() as u32, 0, 3],
    )?;
    let mut file = Vec::new(alloc);
    for page in [header.as_slice(), b"", b"", b"\x04\0\0\0", directory] {
        push_page(&mut file, &page[..page.len().min(PAGE_SIZE)], 0)?;
    }
    file.extend_from_slice(pages)?;
    Ok(file)
}
