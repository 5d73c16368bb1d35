//! The fields and gaps of a class with those of the classes within it.

ghost use Rattle.std.specs.Prelude.{◌<◌, ◌≤◌, IfOk, IsTrue};

use crate::layout_row::{LayoutRow, rows_of};
use pdb_base::{Result, TypeIndex};
use pdb_types::{Extent, FieldKind, Layout};
use pdbdump_types::{Allowance, Table, class_layout};
use std::alloc::Global;

/// How deep classes within a class are shown at most.
const MOST_DEPTH: u32 = 256;

/// How many fields and gaps of classes within a class are shown at most.
const MOST_ROWS: usize = 65_536;

/// As how many fields and gaps a class with fewer counts, so that at most 4,096 classes are shown.
const LEAST_ROWS: usize = 16;

/// For how many records a class counts as one field at least, so that no more than 1,048,576 records
/// are read of classes that are shown.
const RECORDS_PER_ROW: usize = 16;

/// A field or a gap of a class, or of a class within it.
#[derive(Clone, Copy)]
pub(crate) struct ShownRow<'t> {
    /// How deep the class is in the one that is shown, whose own fields and gaps are 0 deep.
    pub(crate) depth: u32,

    /// Where the class begins, in bytes from the start of the one that is shown.
    pub(crate) start: u64,

    /// The field or the gap.
    pub(crate) row: LayoutRow<'t>,
}

/// A class with the classes within it.
#[derive(Drop)]
pub(crate) struct Expansion<'t> {
    /// Its fields and gaps, and behind each field those of its class.
    pub(crate) rows: Vec<ShownRow<'t>>,

    /// Whether a class within was left out that is not deeper than the depth that was given.
    pub(crate) is_cut: bool,
}

/// What may yet be shown of classes within a class.
#[derive(Clone, Copy)]
struct Budget {
    /// How deep they may be.
    asked: u32,

    /// How many fields and gaps they may have.
    most: usize,

    /// Whether one was left out.
    is_cut: bool,
}

impl Budget {
    /// Returns whether a class within a field that is so deep is left out, whatever it is, since
    /// another one was already.
    fn is_spent(&self, depth: u32) -> bool {
        self.is_cut && (self.most == 0 || depth >= MOST_DEPTH)
    }

    /// Takes the fields and gaps of a class within a field that is so deep from those that may yet be
    /// shown, and returns whether it is shown. If there aren't as many, none may be shown any more.
    fn take(&mut self, depth: u32, count: usize, records: usize) -> bool
        ensures { IsTrue result → depth < MOST_DEPTH }
    {
        if depth >= MOST_DEPTH {
            self.is_cut = true;
            return false;
        }
        let count = count.max(LEAST_ROWS).max(records / RECORDS_PER_ROW);
        if count > self.most {
            self.most = 0;
            self.is_cut = true;
            return false;
        }
        self.most -= count;
        true
    }
}

/// Returns the type of a field whose own fields may be shown: that of a base class or a member.
fn inner_type(row: &LayoutRow<'_>) -> Option<TypeIndex> {
    match row {
        LayoutRow::Field(field) => match field.place.kind {
            FieldKind::Base | FieldKind::Member(_) => Some(field.place.field_type),
            _ => None,
        },
        LayoutRow::Gap(_) => None,
    }
}

/// Returns where the class within a field begins, in bytes from the start of the class that is shown.
fn inner_start(start: u64, row: &LayoutRow<'_>) -> u64 {
    match row {
        LayoutRow::Field(field) => start.saturating_add(field.place.offset),
        LayoutRow::Gap(_) => start,
    }
}

/// Returns whether a row of a class lies in a field with the class as its type. All rows do but the
/// virtual bases of a base class, which the derived class holds elsewhere.
fn is_within(outer: &LayoutRow<'_>, row: &LayoutRow<'_>) -> bool {
    match (outer, row) {
        (LayoutRow::Field(field), LayoutRow::Gap(named)) => match field.extent {
            Extent::Bytes(size) => named.gap.bits.start < size as u128 * 8,
            _ => true,
        },
        _ => true,
    }
}

/// Returns the fields and gaps of a layout that lie in a field with the class as its type.
fn inner_rows<'t>(
    alloc: Global,
    layout: &Layout<'t>,
    outer: &LayoutRow<'t>,
) -> Result<Vec<LayoutRow<'t>>> {
    let all = rows_of(alloc, layout)?;
    let mut rows = Vec::new(alloc);
    for row in &all {
        if is_within(outer, row) {
            rows.push(*row)?;
        }
    }
    Ok(rows)
}

/// Appends the fields and gaps of the class that is the type of a field, if it is one.
#[cycle(rows)]
fn push_inner<'t>(
    table: Table<'_, 't>,
    outer: ShownRow<'t>,
    budget: &mut Budget,
    shown: &mut Vec<ShownRow<'t>>,
) -> Result<()>
    requires { outer.depth ≤ MOST_DEPTH }
{
    if outer.depth >= budget.asked {
        return Ok(());
    }
    if budget.is_spent(outer.depth) {
        return Ok(());
    }
    let Some(index) = inner_type(&outer.row) else {
        return Ok(());
    };
    let Some(layout) = class_layout(table, index)? else {
        return Ok(());
    };
    let rows = inner_rows(table.alloc, &layout, &outer.row)?;
    if !budget.take(outer.depth, rows.len(), layout.records) {
        return Ok(());
    }
    push_rows(
        table,
        &rows,
        inner_start(outer.start, &outer.row),
        outer.depth + 1,
        budget,
        shown,
    )
}

/// Appends fields and gaps of a class, and behind each field those of its class.
#[cycle(rows)]
fn push_rows<'t>(
    table: Table<'_, 't>,
    rows: &[LayoutRow<'t>],
    start: u64,
    depth: u32,
    budget: &mut Budget,
    shown: &mut Vec<ShownRow<'t>>,
) -> Result<()>
    requires { depth ≤ MOST_DEPTH }
{
    for row in rows {
        let outer = ShownRow {
            depth,
            start,
            row: *row,
        };
        shown.push(outer)?;
        push_inner(table, outer, budget, shown)?;
    }
    Ok(())
}

/// Returns the fields and gaps of a layout, and behind each field those of its class, down to a
/// depth.
///
/// In a damaged file a class may hold itself. So classes within are shown at most 256 deep, and
/// only until they have 65,536 fields and gaps together, where each class counts as 16 of them at
/// least, and at least as one for 16 records that it has; and only until those of the call are as
/// many as are allowed. `is_cut` tells if one was left out, and so does `is_spent` of what is allowed.
///
/// # Errors
/// Fails as `Definitions::layout_of` does for a class within, and with `OutOfMemory` if an
/// allocation fails.
pub(crate) fn expand<'t>(
    table: Table<'_, 't>,
    layout: &Layout<'t>,
    depth: u32,
    allowed: &mut Allowance,
) -> Result<Expansion<'t>>
    ensures { IfOk result (λ expansion. IsTrue expansion.is_cut → IsTrue allowed.new.is_spent) }
{
    let most = MOST_ROWS.min(allowed.left());
    let own = rows_of(table.alloc, layout)?;
    let mut rows = Vec::new(table.alloc);
    let mut budget = Budget {
        asked: depth,
        most,
        is_cut: false,
    };
    push_rows(table, &own, 0, 0, &mut budget, &mut rows)?;
    allowed.take(most.saturating_sub(budget.most));
    allowed.note_cut(budget.is_cut);
    Ok(Expansion {
        rows,
        is_cut: budget.is_cut,
    })
}
