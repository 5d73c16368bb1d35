//! The fields of a layout and its gaps, in the order of their places.

use pdb_types::{Gap, Layout, LayoutField, Span};
use pdbdump_types::{GapRole, fields_end, gap_role};
use std::alloc::{AllocError, Global};

/// A gap, and what it is called.
#[derive(Clone, Copy)]
pub(crate) struct NamedGap {
    pub(crate) gap: Gap,
    pub(crate) role: GapRole,
}

/// A field or a gap of a layout.
#[derive(Clone, Copy)]
pub(crate) enum LayoutRow<'t> {
    /// A field of the class.
    Field(LayoutField<'t>),

    /// Bits that no field takes.
    Gap(NamedGap),
}

impl<'t> LayoutRow<'t> {
    /// Returns the bits of the field or the gap, counted from the start of the class.
    pub(crate) fn bits(&self) -> Span {
        match self {
            LayoutRow::Field(field) => field.bits(),
            LayoutRow::Gap(named) => named.gap.bits,
        }
    }
}

/// Returns the fields of a layout and its gaps, in the order of their places. Fields that begin at
/// one place are in the order of their records.
///
/// # Errors
/// Fails with `OutOfMemory` if an allocation fails.
pub(crate) fn rows_of<'t>(
    alloc: Global,
    layout: &Layout<'t>,
) -> Result<Vec<LayoutRow<'t>>, AllocError> {
    let mut rows = Vec::new(alloc);
    for field in &layout.fields {
        rows.push(LayoutRow::Field(*field))?;
    }
    let end = fields_end(&layout.fields);
    for gap in &layout.gaps {
        rows.push(LayoutRow::Gap(NamedGap {
            gap: *gap,
            role: gap_role(gap, end),
        }))?;
    }
    rows.sort_by_key(|row| row.bits().start)?;
    Ok(rows)
}
