//! The bits of a class that no field takes.

ghost use Rattle.std.specs.Prelude.{◌≡◌, ◌++◌, ◌≤◌, ◌<◌, ◌^◌, IfOk, OnOk, map};
ghost use Rattle.std.specs.List.{All};
ghost use Rattle.pdb_types.specs.Gap.{AreGapRows, bytes_touched, greatest_end, hole_row, tail_row, tail_start};
ghost use Rattle.pdb_types.specs.Gap.{unused_row};
ghost use Rattle.pdb_types.specs.Span.{AreGaps, gap_of};

use crate::memory::AllocResult;
use crate::span::{Span, gaps, greatest};
use std::alloc::Global;

/// Why no field of a class takes the bits of a gap.
#[derive(Clone, Copy, Debug, PartialEq, Eq)]
pub enum GapKind {
    /// It is a hole: whole bytes of which no field takes a bit.
    Hole,

    /// It has the bits that are left over in bytes of which fields take other bits.
    UnusedBits,

    /// It has the virtual base classes, of which no record says where they are: the whole bytes
    /// behind all fields, in a class that has virtual base classes.
    VirtualBases,
}

/// Bits of a class that no field takes.
#[derive(Clone, Copy, Debug, PartialEq, Eq)]
pub struct Gap {
    /// Why no field takes them.
    pub kind: GapKind,

    /// The bits, counted from the start of the class.
    pub bits: Span,
}

/// Returns the bytes of which a span of bits has some.
pub(crate) fn bytes_of(bits: Span) -> Span
    ensures { result ≡ bytes_touched bits }
{
    if bits.start < bits.end {
        Span {
            start: bits.start / 8,
            end: (bits.end - 1) / 8 + 1,
        }
    } else {
        Span { start: 0, end: 0 }
    }
}

/// Returns the bytes of which spans of bits have some, a span for each.
fn bytes_of_all(alloc: Global, spans: &[Span]) -> AllocResult<Vec<Span>>
    ensures { IfOk result (λ bytes. bytes.items ≡ map bytes_touched spans.now) }
{
    let bytes = spans.iter().map(|span| bytes_of(*span)).collect(alloc)?;
    Ok(bytes)
}

/// Returns the greatest end of spans, or 0 if there is no span.
fn end_of(spans: &[Span]) -> u128
    ensures { result ≡ greatest_end spans.now }
{
    let mut end = 0;
    for span in spans {
        end = greatest(end, span.end);
    }
    end
}

/// Returns the byte where the virtual base classes begin: behind all fields if the class has any,
/// and else behind the class.
#[tactic(auto, using(crate::proofs::GapLemmas::tail_within))]
fn tail_start(bytes: &[Span], size: u64, is_virtual: bool) -> u128
    ensures is { result ≡ tail_start bytes.now size is_virtual }
    ensures within { result ≤ size }
{
    let size = size as u128;
    let end = end_of(bytes);
    if is_virtual && end < size { end } else { size }
}

/// Returns a hole of whole bytes.
fn hole_row(bytes: Span) -> Gap
    requires start { bytes.start ≤ 2 ^ 64 }
    requires end { bytes.end ≤ 2 ^ 64 }
    ensures { result ≡ hole_row bytes }
{
    Gap {
        kind: GapKind::Hole,
        bits: Span {
            start: bytes.start * 8,
            end: bytes.end * 8,
        },
    }
}

/// Returns a hole for each gap between bytes.
fn hole_rows(alloc: Global, holes: &[Span]) -> AllocResult<Vec<Gap>>
    requires some { All (λ hole. hole.start < hole.end) holes.now }
    requires within { All (λ hole. hole.end ≤ 2 ^ 64) holes.now }
    ensures { IfOk result (λ rows. rows.items ≡ map hole_row holes.now) }
{
    let mut rows = Vec::new(alloc);
    for hole in holes {
        rows.push(hole_row(*hole))?;
    }
    Ok(rows)
}

/// Appends the bytes of the virtual base classes, if there are any.
fn push_tail(rows: &mut Vec<Gap>, start: u128, size: u64) -> AllocResult<()>
    requires { start ≤ size }
    ensures { OnOk result (rows.new.items ≡ rows.old.items ++ map tail_row (gap_of start size)) }
{
    let end = size as u128;
    if start < end {
        rows.push(Gap {
            kind: GapKind::VirtualBases,
            bits: Span {
                start: start * 8,
                end: end * 8,
            },
        })?;
    }
    Ok(())
}

/// Returns the gaps between spans, which are consumed.
fn gaps_between(alloc: Global, spans: Vec<Span>, end: u128) -> AllocResult<Vec<Span>>
    ensures { IfOk result (λ gaps. AreGaps spans.items end gaps.items) }
{
    let mut spans = spans;
    gaps(alloc, &mut spans, end)
}

/// Returns spans, followed by those of the bits of gaps.
fn with_bits(spans: Vec<Span>, rows: &[Gap]) -> AllocResult<Vec<Span>>
    ensures { IfOk result (λ all. all.items ≡ spans.items ++ map (λ row. row.bits) rows.now) }
{
    let mut all = spans;
    for row in rows {
        all.push(row.bits)?;
    }
    Ok(all)
}

/// Appends the unused bits.
fn push_unused(rows: &mut Vec<Gap>, unused: &[Span]) -> AllocResult<()>
    ensures { OnOk result (rows.new.items ≡ rows.old.items ++ map unused_row unused.now) }
{
    for bits in unused {
        rows.push(Gap {
            kind: GapKind::UnusedBits,
            bits: *bits,
        })?;
    }
    Ok(())
}

/// Returns the bits of a class that no field takes: those of its holes, those of its virtual bases,
/// and then those that are unused. The spans are the bits of its fields. They may overlap, come in
/// any order and go beyond the size of the class.
///
/// # Errors
/// Fails with `OutOfMemory` if an allocation fails.
pub(crate) fn gap_rows(
    alloc: Global,
    spans: Vec<Span>,
    size: u64,
    is_virtual: bool,
) -> AllocResult<Vec<Gap>>
    ensures { IfOk result (λ rows. AreGapRows spans.items size is_virtual rows.items) }
{
    let bytes = bytes_of_all(alloc, &spans)?;
    let tail = tail_start(&bytes, size, is_virtual);
    let holes = gaps_between(alloc, bytes, tail)?;
    let mut rows = hole_rows(alloc, &holes)?;
    push_tail(&mut rows, tail, size)?;
    let taken = with_bits(spans, &rows)?;
    let unused = gaps_between(alloc, taken, size as u128 * 8)?;
    push_unused(&mut rows, &unused)?;
    Ok(rows)
}
