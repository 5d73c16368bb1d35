//! How large the directory and the streams of a file are.

ghost use Rattle.std.specs.Prelude.{◌≡◌, ◌≤◌};
ghost use Rattle.pdb_msf.specs.Layout.{size_by};
ghost use Rattle.pdb_validation.specs.Sizes.{layout_sizes, size_or_none, streams_nameable};
ghost use Rattle.pdb_validation.specs.Sizes.{streams_size};

use pdb_msf::Layout;

/// The numbers of streams are below this one, which has 16 bits and names no stream.
pub(crate) const NO_STREAM: u32 = 0xffff;

/// Returns how many streams of a layout can be named.
pub(crate) fn nameable(layout: &Layout) -> u32
    ensures count { result ≡ streams_nameable layout.now }
    ensures few { result ≤ 0xffff }
{
    match layout.stream_count() {
        Ok(count) => count.min(NO_STREAM),
        Err(_) => NO_STREAM,
    }
}

/// Returns the size of a stream, or 0 if there is no such stream or no size of it.
pub(crate) fn size_or_none(layout: &Layout, number: u32) -> u32
    ensures { result ≡ size_or_none (size_by layout.now number) }
{
    match layout.stream_size(number) {
        Ok(size) => size,
        Err(_) => 0,
    }
}

/// Returns the sizes of all streams that can be named, added up.
#[tactic(auto, unfolding(crate::specs::Sizes::layout_sizes), using(crate::proofs::SizeLemmas::sizes_more))]
pub(crate) fn streams_size(layout: &Layout) -> u64
    ensures { result ≡ streams_size layout.now }
{
    let mut total = 0u64;
    for number in 0..nameable(layout) {
        total += size_or_none(layout, number) as u64;
    }
    total
}
