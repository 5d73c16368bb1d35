//! The layouts of classes, as lists of `LayoutRow`.

ghost use Rattle.std.specs.Prelude.{◌≡◌, ◌++◌, ◌<◌, ◌^◌, Ok, Some, map, IfOk, OnOk};
ghost use Rattle.std.specs.List.{All};
ghost use Rattle.pdb_base.specs.Memory.{FailsOnlyForMemory};
ghost use Rattle.pdb_types.specs.FieldPlace.{field_role};
ghost use Rattle.pdb_types.specs.Layout.{HasGaps, field_value, layout_value};
ghost use Rattle.pdb_types.specs.Part.{layout_of_type};
ghost use Rattle.pdb_handles.specs.LayoutRow.{LaysOutOrLacks, bytes_row, field_name, field_entry, gap_entry, rows_of};
ghost use Rattle.pdb_handles.specs.LayoutRow.{with_extent, entry_of_role};
ghost use Rattle.pdb_handles.specs.Listing.{ended_names, placed_rows};

use crate::copied::{Listing, copy_both, push_name, write_nothing};
use crate::fault::{Fault, NONE};
use crate::frames::flag;
use pdb_base::{Result, TypeIndex};
use pdb_types::{Definitions, Extent, FieldKind, Gap, GapKind, Layout, LayoutField, Span};
use std::alloc::Global;

/// A field of a class, or bits that no field takes.
#[repr(C)]
#[derive(Clone, Copy, Default)]
pub struct LayoutRow {
    /// Where it begins, in bytes from the start of the class.
    pub offset: u64,
    /// How many bytes it takes, if it takes whole bytes.
    pub size: u64,
    /// The number of bytes before a member's name among the names.
    pub name_offset: usize,
    /// The length of a member's name in bytes.
    pub name_length: usize,
    /// What it is: 0 for a base class, 1 for the pointer to a table of virtual bases, 2 for the
    /// pointer to a table of virtual functions, 3 for a member, 4 for a hole, 5 for unused bits, 6
    /// for the virtual bases.
    pub kind: u32,
    /// How far it goes: 0 for whole bytes, 1 for bits, 2 if nothing says it.
    pub extent: u32,
    /// The first of its bits, counted from the lowest bit of the byte where it begins.
    pub bit: u32,
    /// The number of its bits, if it takes bits.
    pub bits: u32,
    /// The type of a field.
    pub type_index: u32,
    /// The virtual base class of which a pointer to a table of virtual bases speaks.
    pub base_class: u32,
    /// The position of that base class in the table.
    pub base_position: u32,
    /// Whether the class itself names that base class, and not a base class, as 0 or 1.
    pub is_direct: u32,
}

/// Returns an entry that also says what a field is, whose name begins here.
fn with_kind(here: usize, kind: FieldKind<'_>, row: LayoutRow) -> LayoutRow
    ensures { result ≡ entry_of_role here (field_role kind.entry) row }
{
    match kind {
        FieldKind::Base => LayoutRow { kind: 0, ..row },
        FieldKind::VirtualBasePointer(base) => LayoutRow {
            kind: 1,
            base_class: base.base_class.0,
            base_position: base.position,
            is_direct: flag(base.direct),
            ..row
        },
        FieldKind::VirtualFunctionPointer => LayoutRow { kind: 2, ..row },
        FieldKind::Member(name) => LayoutRow {
            kind: 3,
            name_offset: here,
            name_length: name.len(),
            ..row
        },
    }
}

/// Returns an entry that also says how far a field goes.
fn with_extent(extent: Extent, row: LayoutRow) -> LayoutRow
    ensures { result ≡ with_extent extent row }
{
    match extent {
        Extent::Bytes(size) => LayoutRow {
            extent: 0,
            size,
            ..row
        },
        Extent::Bits(field) => LayoutRow {
            extent: 1,
            bit: field.position as u32,
            bits: field.length as u32,
            ..row
        },
        Extent::Unknown => LayoutRow { extent: 2, ..row },
    }
}

/// Returns the entry of a field, whose name begins here.
#[tactic(auto, unfolding(crate::specs::LayoutRow::field_entry))]
fn field_row(here: usize, field: &LayoutField<'_>) -> LayoutRow
    ensures { result ≡ field_entry here (field_value field.now) }
{
    let row = LayoutRow {
        offset: field.place.offset,
        type_index: field.place.field_type.0,
        ..LayoutRow::default()
    };
    with_kind(here, field.place.kind, with_extent(field.extent, row))
}

/// Returns the bytes of a field's name, none if it is no member.
fn field_name<'t>(field: &LayoutField<'t>) -> &'t [u8]
    ensures { result.now ≡ field_name (field_value field.now) }
{
    match field.place.kind {
        FieldKind::Member(name) => name.as_bytes(),
        _ => &[],
    }
}

/// Returns the entry of whole bytes that no field takes.
fn bytes_row(kind: u32, bits: Span) -> LayoutRow
    requires order { bits.start < bits.end }
    requires within { bits.end < 2 ^ 67 }
    ensures { result ≡ bytes_row kind bits }
{
    LayoutRow {
        kind,
        offset: (bits.start / 8) as u64,
        size: ((bits.end - bits.start) / 8) as u64,
        ..LayoutRow::default()
    }
}

/// Returns the entry of bits that no field takes.
#[tactic(auto, unfolding(crate::specs::LayoutRow::gap_entry))]
fn gap_row(gap: Gap) -> LayoutRow
    requires order { gap.bits.start < gap.bits.end }
    requires within { gap.bits.end < 2 ^ 67 }
    ensures { result ≡ gap_entry gap }
{
    let Span { start, end } = gap.bits;
    match gap.kind {
        GapKind::Hole => bytes_row(4, gap.bits),
        GapKind::UnusedBits => LayoutRow {
            kind: 5,
            offset: (start / 8) as u64,
            extent: 1,
            bit: (start % 8) as u32,
            bits: (end - start).min(0xffff_ffff) as u32,
            ..LayoutRow::default()
        },
        GapKind::VirtualBases => bytes_row(6, gap.bits),
    }
}

/// Collects the entries of fields, and their names.
#[tactic(auto, unfolding(crate::specs::Listing::placed_rows))]
fn fields_listed(alloc: Global, fields: &[LayoutField<'_>]) -> Result<Listing<LayoutRow>>
    ensures rows { IfOk result (λ listed. listed.rows.items ≡
        placed_rows field_entry field_name 0 (map field_value fields.now)) }
    ensures names { IfOk result (λ listed. listed.names.items ≡ ended_names field_name (map field_value fields.now)) }
    ensures memory { FailsOnlyForMemory result }
{
    let mut rows = Vec::new(alloc);
    let mut names = Vec::new(alloc);
    for field in fields {
        rows.push(field_row(names.len(), field))?;
        push_name(&mut names, field_name(field))?;
    }
    Ok(Listing { rows, names })
}

/// Appends the entries of gaps.
fn push_gaps(rows: &mut Vec<LayoutRow>, gaps: &[Gap]) -> Result<()>
    requires order { All (λ gap. gap.bits.start < gap.bits.end) gaps.now }
    requires within { All (λ gap. gap.bits.end < 2 ^ 67) gaps.now }
    ensures ok { OnOk result (rows.new.items ≡ rows.old.items ++ map gap_entry gaps.now) }
    ensures memory { FailsOnlyForMemory result }
{
    for gap in gaps {
        rows.push(gap_row(*gap))?;
    }
    Ok(())
}

/// Collects the entries of a layout, and the names of its fields.
fn collect_entries(alloc: Global, layout: &Layout<'_>) -> Result<Listing<LayoutRow>>
    requires { HasGaps layout.now }
    ensures rows { IfOk result (λ listed. listed.rows.items ≡
        rows_of (layout_value layout.now).fields layout.now.gaps.items) }
    ensures names { IfOk result (λ listed. listed.names.items ≡
        ended_names field_name (layout_value layout.now).fields) }
    ensures memory { FailsOnlyForMemory result }
{
    // A proof knows that a number fits its type once it is read: no gap ends behind the size.
    let _size = layout.size;
    let mut listed = fields_listed(alloc, &layout.fields)?;
    push_gaps(&mut listed.rows, &layout.gaps)?;
    Ok(listed)
}

/// Writes the entries of a layout and the names of its fields.
fn write_layout(
    alloc: Global,
    layout: &Layout<'_>,
    rows: &mut [LayoutRow],
    count: &mut usize,
    names: &mut [u8],
    size: &mut usize,
) -> Fault
    requires { HasGaps layout.now }
    ensures { LaysOutOrLacks rows.old names.old (Ok (Some (layout_value layout.now)))
        (record { fault = result; rows = rows.new; count = count.new; names = names.new; size = size.new }) }
{
    match collect_entries(alloc, layout) {
        Ok(listed) => copy_both(&listed.rows, &listed.names, rows, count, names, size),
        Err(error) => write_nothing(Fault::of(&error), count, size),
    }
}

/// Writes the entries of the layout of a type and the names of its fields, or returns a fault of
/// status `NONE` if it has no layout, or the fault of the error.
pub fn write_layout_of(
    alloc: Global,
    definitions: &Definitions<'_>,
    index: u32,
    rows: &mut [LayoutRow],
    count: &mut usize,
    names: &mut [u8],
    size: &mut usize,
) -> Fault
    ensures { LaysOutOrLacks rows.old names.old (layout_of_type definitions.now index)
        (record { fault = result; rows = rows.new; count = count.new; names = names.new; size = size.new }) }
{
    match definitions.layout_of(alloc, TypeIndex(index)) {
        Ok(Some(layout)) => write_layout(alloc, &layout, rows, count, names, size),
        Ok(None) => write_nothing(Fault::status(NONE), count, size),
        Err(error) => write_nothing(Fault::of(&error), count, size),
    }
}
