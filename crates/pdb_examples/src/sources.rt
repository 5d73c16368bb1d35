//! A file that is opened through a source of one's own.

ghost use Rattle.pdb_container.specs.Answer.{Answers};
ghost use Rattle.pdb_examples.specs.Uses.{stream_in};

use pdb_container::{Msf, ReadView, Result, Source, SourceSlice, Stream, open_msf};
use std::alloc::Global;
use std::io;

/// Bytes in memory, and how often some of them were viewed.
#[derive(Debug, Drop)]
pub struct Counting {
    bytes: Vec<u8>,
    views: u64,
}

impl Source for Counting {
    ghost use Rattle.pdb_container.specs.Source.{in_memory};

    ghost state = { λ source. in_memory source.bytes.items };

    fn view(&mut self, alloc: Global, slices: &[SourceSlice]) -> io::Result<ReadView> {
        self.views = self.views.saturating_add(1);
        self.bytes.view(alloc, slices)
    }
}

/// A stream of a file, and how often bytes of the file were viewed for it.
///
/// # Errors
/// The errors of `open_msf` and `Msf::get`.
pub fn stream_and_views(alloc: Global, bytes: Vec<u8>, number: u32) -> Result<(Stream, u64)>
    ensures { Answers (λ given. given.0) result (stream_in bytes.items number) }
{
    let source = Counting { bytes, views: 0 };
    let mut file = open_msf(alloc, source)?;
    let stream = file.get(alloc, number, None)?;
    Ok((stream, file.source().views))
}
