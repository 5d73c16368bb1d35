//! Who owns the pages of a file: each has at most one owner, and none of a stream is free.

ghost use Rattle.std.specs.Prelude.{◌≡◌, ◌<◌, ◌&&◌, ◌||◌, nat_lt, false, true, [], slice_index_or};
ghost use Rattle.std.specs.Prelude.{slice_set, Ok, OnOk};
ghost use Rattle.pdb_base.specs.Answer.{Answers};
ghost use Rattle.pdb_msf.specs.Layout.{layout_of};
ghost use Rattle.pdb_msf.specs.Source.{IsFixed, ReadsSource};
ghost use Rattle.pdb_validation.specs.FreeMap.{IsMapOf};
ghost use Rattle.pdb_validation.specs.Mismatch.{asked_of, with_further};
ghost use Rattle.pdb_validation.specs.Pages.{at_page, free_pages, is_free, is_in_use, is_reserved};
ghost use Rattle.pdb_validation.specs.Pages.{active_map, page_mismatches, shared_pages};

use crate::free_map::FreeMap;
use crate::inconsistency::Inconsistency;
use crate::mismatch::{Extent, Mismatch, add};
use crate::page_owners::{PageOwner, owners_of};
use pdb_base::Result;
use pdb_msf::{CountedSource, Layout, Source};
use std::alloc::Global;

/// Returns the mismatch of a page, where it begins.
fn at_page(owner: &PageOwner, what: Inconsistency) -> Mismatch
    ensures { result ≡ at_page owner.now what }
{
    Mismatch {
        stream: owner.stream,
        index: None,
        byte: owner.byte,
        what,
    }
}

/// Returns whether a page is the header or one of a free page map.
fn is_reserved(page_size: u32, page: u32) -> bool
    requires { 0 < page_size }
    ensures { result ≡ is_reserved page_size page }
{
    page == 0 || page % page_size == 1 || page % page_size == 2
}

/// Marks a page as owned, and returns whether it was marked before. A page that the file does not
/// have is not marked.
fn mark(owned: &mut Vec<bool>, page: u32) -> bool
    ensures before { result ≡ slice_index_or owned.old.items page false }
    ensures after { owned.new.items ≡ slice_set owned.old.items page true }
{
    let page = page as usize;
    if page >= owned.len() {
        return false;
    }
    let before = owned[page];
    owned[page] = true;
    before
}

/// Returns whether a page of the file has an owner already: it is reserved, or it was marked.
fn is_owned(page_size: u32, count: usize, marked: bool, page: u32) -> bool
    requires { 0 < page_size }
    ensures { result ≡ (nat_lt page count && (is_reserved page_size page || marked)) }
{
    (page as usize) < count && (is_reserved(page_size, page) || marked)
}

/// Adds the pages that have an owner already. The file has `count` pages.
fn add_shared(
    alloc: Global,
    owners: &[PageOwner],
    page_size: u32,
    count: usize,
    extent: Extent,
    mismatches: &mut Vec<Mismatch>,
) -> Result<()>
    requires { 0 < page_size }
    ensures { Answers (λ done. mismatches.new.items) result
        (Ok (with_further extent mismatches.old.items (shared_pages page_size count [] owners.now))) }
{
    let mut owned = vec![in alloc; false; count]?;
    for owner in owners {
        let marked = mark(&mut owned, owner.page);
        let is_shared = is_owned(page_size, count, marked, owner.page);
        let shared = at_page(owner, Inconsistency::PageShared(owner.page));
        add(mismatches, extent, is_shared.then_some(shared))?;
    }
    Ok(())
}

/// Returns whether a stream is one whose pages are not free.
fn is_in_use(stream: Option<u32>) -> bool
    ensures { result ≡ is_in_use stream }
{
    match stream {
        Some(number) => number != 0,
        None => false,
    }
}

/// Returns whether a page of a stream is marked as free.
fn is_used_but_free<S: Source>(
    alloc: Global,
    source: &mut CountedSource<S>,
    free: &mut FreeMap,
    owner: &PageOwner,
) -> Result<bool>
    requires sized { 0 < free.old.page_size }
    requires map { IsFixed (S.state source.old.source) → IsMapOf (S.state source.old.source).bytes free.old }
    ensures free { ReadsSource (S.state source.old.source) (S.state source.new.source) (λ is_free. is_free) result
        (λ file. Ok (is_in_use owner.now.stream
        && is_free file free.old.page_size (active_map file) owner.now.page)) }
    ensures map { OnOk result (IsFixed (S.state source.old.source) →
        IsMapOf (S.state source.old.source).bytes free.new) }
    ensures sized { free.new.page_size ≡ free.old.page_size }
{
    if !is_in_use(owner.stream) {
        return Ok(false);
    }
    free.is_free(alloc, source, owner.page)
}

/// Adds the pages of streams that the active free page map marks as free.
fn add_free<S: Source>(
    alloc: Global,
    source: &mut CountedSource<S>,
    mut free: FreeMap,
    owners: &[PageOwner],
    extent: Extent,
    mismatches: &mut Vec<Mismatch>,
) -> Result<()>
    requires sized { 0 < free.page_size }
    requires map { IsFixed (S.state source.old.source) → IsMapOf (S.state source.old.source).bytes free }
    ensures { ReadsSource (S.state source.old.source) (S.state source.new.source) (λ done. mismatches.new.items) result
        (λ file. Ok (with_further extent mismatches.old.items (free_pages file free.page_size owners.now))) }
{
    for owner in owners {
        let is_free = is_used_but_free(alloc, source, &mut free, owner)?;
        let page = at_page(owner, Inconsistency::PageFree(owner.page));
        add(mismatches, extent, is_free.then_some(page))?;
    }
    Ok(())
}

/// Returns the pages of a file that have a second owner, and then those of its streams that it
/// marks as free, each with the stream and the byte of it that the page begins with. All are
/// returned, or one, as `extent` says. The layout is that of the file.
///
/// What owns a page is the header, which is page 0, a free page map (pages 1 and 2 of each
/// `page_size` pages), what locates the directory, the directory, or a stream. They are taken in
/// that order, and streams in the order of their numbers, so that the later owner is told of.
/// Numbers of pages that the file does not have are passed over. A page of stream 0 may be marked
/// as free, as it is in files of Microsoft's tools. The format is that of Microsoft's msf.cpp.
///
/// The pages of a stream that can't be read are left out. The work is linear in the file and in the
/// sizes of the streams. One page of the free page map is kept in memory.
///
/// # Errors
/// Fails with `IoError` if the source fails, and with `OutOfMemory` if an allocation fails.
#[tactic(auto, unfolding(crate::specs::Pages::layout_mismatches))]
pub fn check_pages<S: Source>(
    alloc: Global,
    layout: &Layout,
    source: &mut CountedSource<S>,
    extent: Extent,
) -> Result<Vec<Mismatch>>
    requires sized { 0 < layout.now.head.geometry.page_size }
    requires layout { IsFixed (S.state source.old.source) →
        layout_of (S.state source.old.source).bytes ≡ Ok layout.now }
    ensures { ReadsSource (S.state source.old.source) (S.state source.new.source) (λ mismatches. mismatches.items)
        result (λ file. Ok (asked_of extent (page_mismatches file))) }
{
    let page_size = layout.page_size();
    let owners = owners_of(alloc, layout, source)?;
    let size = source.size(alloc)?;
    let free = FreeMap::of(alloc, source, page_size, size)?;
    let count = size.div_ceil(page_size as u64) as usize;
    let mut mismatches = Vec::new(alloc);
    add_shared(alloc, &owners, page_size, count, extent, &mut mismatches)?;
    add_free(alloc, source, free, &owners, extent, &mut mismatches)?;
    Ok(mismatches)
}
