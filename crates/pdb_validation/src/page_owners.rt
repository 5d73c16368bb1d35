//! What owns each page of a file.

ghost use Rattle.std.specs.Prelude.{◌≡◌, ◌++◌, ◌^◌, ◌≤◌, length, map, Ok};
ghost use Rattle.pdb_base.specs.Answer.{Answers};
ghost use Rattle.pdb_msf.specs.Directory.{stream_count_in};
ghost use Rattle.pdb_msf.specs.Layout.{size_by};
ghost use Rattle.pdb_msf.specs.Source.{ReadsSource};
ghost use Rattle.pdb_validation.specs.PageOwners.{container_owner, directory_pages_of, layout_owners};
ghost use Rattle.pdb_validation.specs.PageOwners.{owners_in_stream, owners_in_streams, owners_of_stream, streams_of};

use crate::sizes::NO_STREAM;
use pdb_base::{Error, Result};
use pdb_msf::{CountedSource, Layout, Source, comes_from_outside};
use std::alloc::Global;

/// A page, and what it holds bytes of.
#[derive(Clone, Copy)]
pub(crate) struct PageOwner {
    /// The number of the stream, or None for the directory and for what locates it.
    pub(crate) stream: Option<u32>,

    /// The byte of the stream with which the page begins.
    pub(crate) byte: Option<u64>,

    /// The number of the page.
    pub(crate) page: u32,
}

/// Adds the pages of the directory, or those that locate it.
fn push_container_pages(owners: &mut Vec<PageOwner>, pages: &[u32]) -> Result<()>
    ensures { Answers (λ done. owners.new.items) result
        (Ok (owners.old.items ++ map container_owner pages.now)) }
{
    for page in pages {
        owners.push(PageOwner {
            stream: None,
            byte: None,
            page: *page,
        })?;
    }
    Ok(())
}

/// Adds the pages of a stream.
fn push_stream_pages(
    owners: &mut Vec<PageOwner>,
    number: u32,
    page_size: u32,
    pages: &[u32],
) -> Result<()>
    requires { length pages.now ≤ 2 ^ 32 }
    ensures { Answers (λ done. owners.new.items) result
        (Ok (owners.old.items ++ owners_in_stream number page_size pages.now)) }
{
    for (place, page) in pages.iter().enumerate() {
        owners.push(PageOwner {
            stream: Some(number),
            byte: Some(place as u64 * page_size as u64),
            page: *page,
        })?;
    }
    Ok(())
}

/// Adds the pages of a stream that has a size.
#[tactic(auto, using(crate::proofs::OwnerLemmas::pages_few))]
fn push_sized(
    alloc: Global,
    owners: &mut Vec<PageOwner>,
    layout: &Layout,
    number: u32,
    size: u32,
) -> Result<()>
    requires { size_by layout.now number ≡ Ok size }
    ensures { Answers (λ done. owners.new.items) result
        (Ok (owners.old.items ++ owners_of_stream layout.now number)) }
{
    match layout.stream_pages(alloc, number) {
        Ok(pages) => push_stream_pages(owners, number, layout.page_size(), &pages),
        Err(Error::OutOfMemory) => Err(Error::OutOfMemory),
        Err(_) => Ok(()),
    }
}

/// Adds the pages of a stream, if the directory has them.
fn push_stream(
    alloc: Global,
    owners: &mut Vec<PageOwner>,
    layout: &Layout,
    number: u32,
) -> Result<()>
    ensures { Answers (λ done. owners.new.items) result
        (Ok (owners.old.items ++ owners_of_stream layout.now number)) }
{
    match layout.stream_size(number) {
        Ok(size) => push_sized(alloc, owners, layout, number, size),
        Err(_) => Ok(()),
    }
}

/// Returns how many streams of a layout can be named.
fn stream_count(layout: &Layout) -> u32
    ensures { result ≡ streams_of (stream_count_in layout.now.directory) }
{
    match layout.stream_count() {
        Ok(count) => count.min(NO_STREAM),
        Err(_) => 0,
    }
}

/// Adds the pages of all streams that can be named.
#[tactic(auto, using(pdb_base::proofs::lemmas::Collected::ok_is, crate::proofs::OwnerLemmas::owners_more))]
fn push_streams(alloc: Global, owners: &mut Vec<PageOwner>, layout: &Layout) -> Result<()>
    ensures { Answers (λ done. owners.new.items) result
        (Ok (owners.old.items ++ owners_in_streams layout.now)) }
{
    for number in 0..stream_count(layout) {
        push_stream(alloc, owners, layout, number)?;
    }
    Ok(())
}

/// Adds the pages of the directory, if they can be read.
fn push_directory<S: Source>(
    alloc: Global,
    owners: &mut Vec<PageOwner>,
    layout: &Layout,
    source: &mut CountedSource<S>,
) -> Result<()>
    ensures { ReadsSource (S.state source.old.source) (S.state source.new.source) (λ done. owners.new.items) result
        (λ file. Ok (owners.old.items ++ map container_owner (directory_pages_of file layout.now))) }
{
    match layout.directory_pages(alloc, source) {
        Ok(pages) => push_container_pages(owners, &pages),
        Err(error) => {
            if comes_from_outside(&error) {
                return Err(error);
            }
            Ok(())
        }
    }
}

/// Returns the pages of a file with their owners: what locates the directory, the directory, and
/// the streams.
#[tactic(auto, unfolding(crate::specs::PageOwners::layout_owners))]
pub(crate) fn owners_of<S: Source>(
    alloc: Global,
    layout: &Layout,
    source: &mut CountedSource<S>,
) -> Result<Vec<PageOwner>>
    ensures { ReadsSource (S.state source.old.source) (S.state source.new.source) (λ owners. owners.items) result
        (λ file. Ok (layout_owners file layout.now)) }
{
    let mut owners = Vec::new(alloc);
    push_container_pages(&mut owners, layout.location_pages())?;
    push_directory(alloc, &mut owners, layout, source)?;
    push_streams(alloc, &mut owners, layout)?;
    Ok(owners)
}
