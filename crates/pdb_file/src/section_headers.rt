//! The headers of all sections of an image.
ghost use Rattle.pdb_base.specs.Answer.{Answers};
ghost use Rattle.pdb_file.specs.SectionHeaders.{section_headers_of};

use pdb_base::{Error, Result, Stream};
use pdb_space::ImageSectionHeader;
use std::alloc::Global;

/// The size of a header in bytes.
const HEADER_SIZE: usize = 40;

/// Parses the section headers in a stream, forty bytes each.
///
/// # Errors
/// Fails with `UnexpectedEof` if the last header is cut short, before memory is requested, and with
/// `OutOfMemory` if an allocation fails.
#[tactic(auto, unfolding(crate::specs::SectionHeaders::section_headers_of), using(crate::proofs::HeaderLemmas::header_refused, crate::proofs::HeaderLemmas::header_step, crate::proofs::HeaderLemmas::all_headers))]
pub fn section_headers(alloc: Global, stream: &Stream) -> Result<Vec<ImageSectionHeader>>
    ensures { Answers (λ headers. headers.items) result (section_headers_of stream.now) }
{
    let mut buffer = stream.parse_buffer();
    if buffer.len() % HEADER_SIZE != 0 {
        return Err(Error::UnexpectedEof);
    }
    let count = buffer.len() / HEADER_SIZE;
    let mut headers = Vec::with_capacity(alloc, count)?;
    for _ in 0..count {
        headers.push_reserved(ImageSectionHeader::parse(&mut buffer)?);
    }
    Ok(headers)
}
