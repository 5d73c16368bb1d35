//! Layouts as the declarations of classes in C++.

use crate::cache_line::CacheLines;
use crate::expanded::ShownRow;
use crate::head::push_head;
use crate::layout_row::{LayoutRow, NamedGap};
use crate::options::C_WIDTH;
use crate::other_member::{OtherMember, other_declaration};
use crate::shown_class::ShownClass;
use crate::totals::totals_of;
use pdb_base::Result;
use pdb_types::Layout;
use pdbdump_types::{GapRole, Table, TextAllowance, TextBuffer, gap_place, plural, push_field};
use std::alloc::Global;

/// Appends what a gap is called.
fn push_gap_name(alloc: Global, named: &NamedGap, text: &mut TextBuffer) {
    match named.role {
        GapRole::Hole => text.push(b"// hole"),
        GapRole::Padding => text.push(b"// padding"),
        GapRole::VirtualBases => text.push(b"// virtual bases and padding"),
        GapRole::UnusedBits => {
            let bits = gap_place(0, &named.gap).bits;
            let more = plural(bits);
            text.push_string(format!(in alloc; "// {bits} bit{more} unused"));
        }
    }
}

/// Appends a gap with its place and its size, and the end of its line.
fn push_gap(alloc: Global, start: u64, named: &NamedGap, text: &mut TextBuffer) {
    let place = gap_place(start, &named.gap);
    let (offset, bit, size) = (place.offset, place.bit, place.bytes);
    push_gap_name(alloc, named, text);
    text.begin_remark();
    text.push_string(if named.role == GapRole::UnusedBits {
        format!(in alloc; "0x{offset:03x}:{bit}\n")
    } else {
        format!(in alloc; "0x{offset:03x} 0x{size:02x}\n")
    });
}

/// Appends the line of a field or a gap.
fn push_row<'t>(
    table: Table<'_, 't>,
    shown_row: &ShownRow<'t>,
    texts: &mut TextAllowance,
    text: &mut TextBuffer,
) -> Result<()> {
    let start = shown_row.start;
    text.push_indent(shown_row.depth.saturating_add(1), C_WIDTH);
    match &shown_row.row {
        LayoutRow::Field(field) => push_field(table, start, field, texts, text)?,
        LayoutRow::Gap(named) => push_gap(table.alloc, start, named, text),
    }
    Ok(())
}

/// Returns whether the fields and gaps of the class within a field are shown behind it.
fn has_inner(row: &ShownRow<'_>, next: Option<&ShownRow<'_>>) -> bool {
    match next {
        Some(next) => next.depth > row.depth,
        None => false,
    }
}

/// Appends the lines of fields and gaps, with the ends of lines of a cache.
fn push_rows<'t>(
    table: Table<'_, 't>,
    shown: &ShownClass<'_, 't>,
    texts: &mut TextAllowance,
    text: &mut TextBuffer,
) -> Result<()> {
    let mut lines = CacheLines::new(shown.line_size.unwrap_or(0) as u64);
    let rows = &shown.expansion.rows;
    for (number, row) in rows.iter().enumerate() {
        push_row(table, row, texts, text)?;
        if !has_inner(row, rows.get(number.saturating_add(1))) {
            lines.push_behind(table.alloc, row, text);
        }
    }
    Ok(())
}

/// Appends the line of a member that takes no place.
fn push_other(
    table: Table<'_, '_>,
    other: &OtherMember<'_>,
    texts: &mut TextAllowance,
    text: &mut TextBuffer,
) -> Result<()> {
    text.push_indent(1, C_WIDTH);
    text.push_escaped(&other_declaration(table, other, texts)?);
    text.push(b";\n");
    Ok(())
}

/// Appends how many bytes or bits there are of something behind a mark, if there are any, and returns
/// the mark before what comes next.
fn push_count(
    alloc: Global,
    mark: &'static str,
    count: u64,
    unit: &'static str,
    what: &'static str,
    text: &mut TextBuffer,
) -> &'static str {
    if count == 0 {
        return mark;
    }
    let more = plural(count);
    text.push_string(format!(in alloc; "{mark}{count} {unit}{more} {what}"));
    ", "
}

/// Appends how many holes there are and how many bytes they have, if there are any, and returns the
/// mark before what comes next.
fn push_holes(alloc: Global, holes: u64, bytes: u64, text: &mut TextBuffer) -> &'static str {
    if holes == 0 {
        return "  // ";
    }
    let (more, most) = (plural(holes), plural(bytes));
    text.push_string(format!(in alloc; "  // {holes} hole{more} of {bytes} byte{most}"));
    ", "
}

/// Appends the line with which the declaration of a class ends, and what its gaps add up to.
fn push_end(alloc: Global, layout: &Layout<'_>, text: &mut TextBuffer) {
    let totals = totals_of(layout);
    text.push(b"};");
    let mark = push_holes(alloc, totals.holes, totals.hole_bytes, text);
    let padding = totals.padding_bytes;
    let mark = push_count(alloc, mark, padding, "byte", "of padding", text);
    push_count(alloc, mark, totals.unused_bits, "bit", "unused", text);
    text.push(b"\n");
}

/// Appends a layout as the declaration of a class in C++, with the places of its fields and gaps in
/// comments.
pub(crate) fn push_c<'t>(
    table: Table<'_, 't>,
    shown: &ShownClass<'_, 't>,
    texts: &mut TextAllowance,
    text: &mut TextBuffer,
) -> Result<()> {
    let layout = shown.layout;
    let class = shown.class.as_ref();
    push_head(table, &layout.fields, class, texts, text)?;
    text.end_head(layout.index, Some(layout.size));
    push_rows(table, shown, texts, text)?;
    if shown.expansion.is_cut {
        text.push_indent(1, C_WIDTH);
        text.push(b"// more is left out\n");
    }
    for other in &shown.others {
        push_other(table, other, texts, text)?;
    }
    push_end(table.alloc, layout, text);
    Ok(())
}
