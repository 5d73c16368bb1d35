//! Spans of places, and the gaps between them.

ghost use Rattle.std.specs.Prelude.{◌≡◌, ◌++◌, IfOk, OnOk, max, min};
ghost use Rattle.std.specs.List.Sorted.{IsNonDecreasingBy};
ghost use Rattle.pdb_types.specs.Span.{AreGaps, gap_of};

use crate::memory::AllocResult;
use std::alloc::Global;

/// Places one behind another, such as the bits of a member of a class.
#[derive(Clone, Copy, Debug, PartialEq, Eq)]
pub struct Span {
    /// The first place.
    pub start: u128,

    /// The place behind the last one. There is no place in a span whose end isn't above its start.
    pub end: u128,
}

/// Returns the lesser of two places.
fn least(left: u128, right: u128) -> u128
    ensures { result ≡ min left right }
{
    if left < right { left } else { right }
}

/// Returns the greater of two places.
pub(crate) fn greatest(left: u128, right: u128) -> u128
    ensures { result ≡ max left right }
{
    if left < right { right } else { left }
}

/// Appends the gap from a place to another, if there is one.
fn push_gap(gaps: &mut Vec<Span>, start: u128, end: u128) -> AllocResult<()>
    ensures { OnOk result (gaps.new.items ≡ gaps.old.items ++ gap_of start end) }
{
    if start < end {
        gaps.push(Span { start, end })?;
    }
    Ok(())
}

/// Returns the gaps between spans that are sorted by their starts.
fn sorted_gaps(alloc: Global, spans: &[Span], end: u128) -> AllocResult<Vec<Span>>
    requires { IsNonDecreasingBy (λ span. span.start) spans.now }
    ensures { IfOk result (λ gaps. AreGaps spans.now end gaps.items) }
{
    let mut gaps = Vec::new(alloc);
    let mut at = 0;
    for span in spans {
        push_gap(&mut gaps, at, least(span.start, end))?;
        at = greatest(greatest(at, span.start), span.end);
    }
    push_gap(&mut gaps, at, end)?;
    Ok(gaps)
}

/// Sorts spans by their starts, and returns the gaps between them up to an end, in order: each
/// place before the end that no span holds is in exactly one gap, and no other place is in any. No
/// gap is empty.
///
/// The spans may overlap and come in any order, and may go beyond the end.
///
/// # Errors
/// Fails if an allocation fails.
pub fn gaps(alloc: Global, spans: &mut [Span], end: u128) -> AllocResult<Vec<Span>>
    ensures { IfOk result (λ gaps. AreGaps spans.old end gaps.items) }
{
    spans.sort_unstable_by_key(|span| span.start);
    sorted_gaps(alloc, spans, end)
}
