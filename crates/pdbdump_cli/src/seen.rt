//! What is seen of a file while it is read: its first bytes, and its size.

use pdb_file::Format;
use std::alloc::{AllocError, Global};
use std::io;
use std::io::Read;

/// How many bytes at the start of a file say which format it has, and how large it is.
pub(crate) const FRONT_SIZE: usize = 56;

/// Where the header of a program database has the size of its pages, and how many they are.
const PAGE_SIZE_AT: usize = 32;

const PAGES_AT: usize = 40;

/// The first bytes of a file, its size as far as it was read, and of an image what is told of it by
/// a command that reads program databases.
#[derive(Drop)]
pub(crate) struct Seen {
    front: Vec<u8>,
    size: u64,
    image_text: Option<Vec<u8>>,
}

impl Seen {
    /// Returns that nothing was seen yet.
    pub(crate) fn nothing(alloc: Global) -> Self {
        Seen {
            front: Vec::new(alloc),
            size: 0,
            image_text: None,
        }
    }

    /// Adds the bytes that follow those that were seen.
    fn add(&mut self, bytes: &[u8]) -> Result<(), AllocError> {
        let left = FRONT_SIZE.saturating_sub(self.front.len());
        let count = left.min(bytes.len());
        self.front.extend_from_slice(&bytes[..count])?;
        self.size = self.size.saturating_add(bytes.len() as u64);
        Ok(())
    }

    /// Adds the first bytes of a file of this size.
    pub(crate) fn add_file(&mut self, front: &[u8], size: u64) -> Result<(), AllocError> {
        self.add(front)?;
        self.size = size;
        Ok(())
    }

    /// Returns whether something was seen of the file.
    pub(crate) fn is_begun(&self) -> bool {
        !self.front.is_empty()
    }

    /// Returns the format of the file.
    pub(crate) fn format(&self) -> Format {
        Format::of(&self.front)
    }

    /// Returns whether the file begins as an image.
    pub(crate) fn is_image(&self) -> bool {
        self.format() == Format::Image
    }

    /// Sets what is told of an image.
    pub(crate) fn set_image_text(&mut self, text: Vec<u8>) {
        self.image_text = Some(text);
    }

    /// Returns what is told of an image, if it was read.
    pub(crate) fn image_text(&self) -> Option<&[u8]> {
        self.image_text.as_deref()
    }

    /// Returns whether the file is neither a program database nor an image, whatever follows.
    fn is_other(&self) -> bool {
        self.front.len() >= FRONT_SIZE && self.format() != Format::Msf7 && !self.is_image()
    }

    /// Returns the size of the file.
    pub(crate) fn size(&self) -> u64 {
        self.size
    }

    /// Returns a number of the header.
    fn number_at(&self, at: usize) -> Option<u32> {
        match self.front.get(at..)? {
            [a, b, c, d, ..] => Some(u32::from_le_bytes([*a, *b, *c, *d])),
            _ => None,
        }
    }

    /// Returns the size that the header of a program database counts.
    fn counted(&self) -> Option<u64> {
        let page_size = self.number_at(PAGE_SIZE_AT)?;
        let pages = self.number_at(PAGES_AT)?;
        Some((page_size as u64).saturating_mul(pages as u64))
    }

    /// Returns the size that the header of a program database counts, if the file is shorter.
    pub(crate) fn wanted_size(&self) -> Option<u64> {
        match self.counted() {
            Some(counted) if self.format() == Format::Msf7 && counted > self.size => Some(counted),
            _ => None,
        }
    }
}

/// An input, and what is seen of it. If it begins as no program database or image does, it ends
/// behind the first bytes, so that an input without an end isn't read on.
#[derive(Drop)]
pub(crate) struct Watched<R: Read> {
    input: R,
    seen: Seen,
}

impl<R: Read + Drop> Watched<R> {
    /// Returns an input of which nothing was read.
    pub(crate) fn new(alloc: Global, input: R) -> Self {
        Watched {
            input,
            seen: Seen::nothing(alloc),
        }
    }

    /// Returns what was seen of the input.
    pub(crate) fn into_seen(self) -> Seen {
        self.seen
    }
}

impl<R: Read> Read for Watched<R> {
    fn read(&mut self, room: &mut [u8]) -> io::Result<usize> {
        if self.seen.is_other() {
            return Ok(0);
        }
        let count = self.input.read(room)?;
        self.seen.add(&room[..count])?;
        Ok(count)
    }
}
