//! The line of an item of a table.

#![tactic(auto, using(pdbdump_rows::proofs::lemmas::Line::adding))]

ghost use Rattle.std.specs.Prelude.{[]};
ghost use Rattle.pdb_tpi.specs.Item.{index_of};
ghost use Rattle.pdbdump_rows.specs.Line.{AddsRow, EndsRow, indexed};
ghost use Rattle.pdbdump_rows.specs.Lines.{row_text};

use crate::refused_record::{ItemPlace, show_refused};
use crate::search::Search;
use crate::selection::Selection;
use pdb_base::{Error, IdIndex, ItemIndex, Result, TypeIndex};
use pdb_tpi::Item;
use pdb_values::{IdData, TypeData};
use pdbdump_rows::{Form, Line, show_id, show_type};
use std::alloc::{AllocError, Global};
use std::result;

/// What the record of an item holds.
#[derive(Drop)]
pub enum ItemData<'t> {
    /// A type.
    Type(TypeData<'t>),

    /// An id.
    Id(IdData<'t>),
}

/// Indexes of the items that are listed: those of types, and those of ids.
pub trait ListedIndex: ItemIndex {
    /// Parses the record of an item.
    ///
    /// # Errors
    /// Fails as `Item::parse` does.
    fn parse_item<'t>(alloc: Global, item: &Item<'t, Self>) -> Result<ItemData<'t>>;
}

impl ListedIndex for TypeIndex {
    fn parse_item<'t>(alloc: Global, item: &Item<'t, TypeIndex>) -> Result<ItemData<'t>> {
        Ok(ItemData::Type(item.parse(alloc)?))
    }
}

impl ListedIndex for IdIndex {
    fn parse_item<'t>(alloc: Global, item: &Item<'t, IdIndex>) -> Result<ItemData<'t>> {
        Ok(ItemData::Id(item.parse(alloc)?))
    }
}

/// Adds the fields of an item, or of why it can't be parsed. Then `is_whole` becomes false, unless
/// the reason is want of memory.
fn show_parsed<I: ListedIndex>(
    item: &Item<'_, I>,
    parsed: &Result<ItemData<'_>>,
    place: ItemPlace,
    is_whole: &mut bool,
    line: &mut Line,
)
    ensures { AddsRow (indexed (I.number (index_of item.now))) line.old line.new }
{
    let index: u32 = item.index().into();
    let leaf = item.raw_kind();
    match parsed {
        Ok(ItemData::Type(value)) => show_type(line, index, leaf, value),
        Ok(ItemData::Id(value)) => show_id(line, index, leaf, value),
        Err(Error::OutOfMemory) => line.lack(),
        Err(fault) => {
            *is_whole = false;
            show_refused(line, index, leaf, place, fault);
        }
    }
}

/// Returns whether a record is listed.
fn is_listed(
    alloc: Global,
    leaf: u16,
    parsed: &Result<ItemData<'_>>,
    selection: &Selection<'_, '_>,
    search: &mut Search<'_, '_>,
) -> result::Result<bool, AllocError> {
    match parsed {
        Ok(ItemData::Type(value)) => selection.has_type(alloc, leaf, value, search),
        Ok(ItemData::Id(value)) => selection.has_id(alloc, leaf, value, search),
        Err(Error::OutOfMemory) => Err(AllocError),
        Err(_) => Ok(selection.has_unread(leaf)),
    }
}

/// Adds the fields of an item, or of why it can't be parsed, if it is selected, and returns whether
/// it is.
///
/// # Errors
/// Fails if an allocation for the selection fails.
#[tactic(auto, using(pdbdump_rows::proofs::lemmas::Line::adding, pdbdump_rows::proofs::lemmas::Line::fields_at_all))]
pub(crate) fn show_selected<I: ListedIndex>(
    alloc: Global,
    item: &Item<'_, I>,
    place: ItemPlace,
    selection: &Selection<'_, '_>,
    search: &mut Search<'_, '_>,
    line: &mut Line,
) -> result::Result<bool, AllocError>
    ensures { AddsRow [] line.old line.new }
{
    let parsed = I::parse_item(alloc, item);
    if !is_listed(alloc, item.raw_kind(), &parsed, selection, search)? {
        search.leave_out(item.index().into(), parsed);
        return Ok(false);
    }
    let is_whole = &mut search.completeness.is_whole;
    show_parsed(item, &parsed, place, is_whole, line);
    Ok(true)
}

/// Makes the line of an item.
///
/// # Errors
/// Fails if an allocation fails.
#[tactic(auto, using(pdbdump_rows::proofs::lemmas::Line::showing))]
pub(crate) fn make_item<I: ListedIndex>(
    alloc: Global,
    form: Form,
    item: &Item<'_, I>,
    place: ItemPlace,
    is_whole: &mut bool,
    line: &mut Line,
) -> result::Result<(), AllocError>
    ensures { EndsRow (row_text form) (indexed (I.number (index_of item.now))) line.new result }
{
    let parsed = I::parse_item(alloc, item);
    line.begin(form);
    show_parsed(item, &parsed, place, is_whole, line);
    line.finish()
}
