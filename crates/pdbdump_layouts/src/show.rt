//! The layouts that a call shows: of all classes, or of those that names mean.

ghost use Rattle.std.specs.Prelude.{◌≡◌, ◌⊎◌, false, IfOk, IsTrue, OnOk};
ghost use Rattle.pdbdump_types.specs.Shown.{ShowsTypes, StaysAccounted};

use crate::c_style::push_c;
use crate::dt_style::push_dt;
use crate::enumeration::enumeration_text;
use crate::expanded::expand;
use crate::json::push_json;
use crate::member_line::{PathLine, path_line};
use crate::named::types_named;
use crate::options::{Options, Order, Style};
use crate::other_member::{OtherMember, others_of};
use crate::shown_class::ShownClass;
use crate::totals::totals_of;
use pdb_base::{Error, Stream, TypeIndex};
use pdb_output::Output;
use pdb_tpi::{OpenTable, TypeInformation};
use pdb_types::{Definitions, Layout};
use pdbdump_rows::{Form, error_text};
use pdbdump_types::{
    Allowance, Progress, TOO_MANY, Table, TextAllowance, TextBuffer, Wanted, class_layout,
    class_of, classes_in, is_pattern, learn_table, tell, tell_fault, tell_index, type_at,
    unread_in, write_layout,
};
use std::alloc::{AllocError, Global};
use std::io::Write;

/// What is asked of a table.
#[derive(Clone, Copy)]
struct Asked<'o, 'd, 't> {
    /// The table.
    table: Table<'d, 't>,

    /// Which of them are shown, and how.
    options: &'o Options,

    /// Whether they are shown as text or as JSON.
    form: Form,
}

/// By what a class is sorted: a number, the greatest first, and then a name.
#[derive(Clone, Copy)]
struct Rank<'t> {
    number: u64,
    name: &'t [u8],
    index: TypeIndex,
}

/// Why a type has no layout.
const NO_CLASS: &[u8] = b"no class, union or enumeration that is defined here";

/// Why members of classes within classes are left out.
const TOO_DEEP: &[u8] = b"more is left out, since so much was shown";

/// Returns what of a class takes no place, if it is to be shown.
fn shown_others<'t>(
    asked: &Asked<'_, '_, 't>,
    class: TypeIndex,
    records: &mut Allowance,
) -> Result<Vec<OtherMember<'t>>, Error> {
    if asked.options.has_all_members {
        others_of(asked.table, class, records)
    } else {
        Ok(Vec::new(asked.table.alloc))
    }
}

/// Returns a layout as text or JSON.
fn layout_text<'t>(
    asked: &Asked<'_, '_, 't>,
    layout: &Layout<'t>,
    records: &mut Allowance,
    rows: &mut Allowance,
    texts: &mut TextAllowance,
) -> Result<Vec<u8>, Error> {
    let (table, options) = (asked.table, asked.options);
    let class = class_of(&table.type_at(layout.index)?);
    let shown = ShownClass {
        layout,
        class,
        expansion: expand(table, layout, options.depth, rows)?,
        others: shown_others(asked, layout.index, records)?,
        line_size: options.line_size,
    };
    let mut text = TextBuffer::new(table.alloc);
    match (asked.form, options.style) {
        (Form::Json, _) => push_json(table, &shown, texts, &mut text)?,
        (Form::Text, Style::C) => push_c(table, &shown, texts, &mut text)?,
        (Form::Text, Style::Dt) => push_dt(table, &shown, texts, &mut text)?,
    }
    Ok(text.finish()?)
}

/// Returns whether a layout is among those that are wanted.
fn is_wanted(layout: &Layout<'_>, options: &Options) -> bool {
    !options.has_holes || totals_of(layout).holes > 0
}

/// Shows a layout that is wanted, or tells why it can't be written.
fn show_layout<O: Write, E: Write>(
    asked: &Asked<'_, '_, '_>,
    index: TypeIndex,
    layout: &Layout<'_>,
    progress: &mut Progress,
    out: &mut Output<O>,
    err: &mut Output<E>,
) -> Result<(), Error>
    ensures { OnOk result (StaysAccounted progress.old progress.new err.old err.new) }
{
    let records = &mut progress.records;
    let rows = &mut progress.rows;
    match layout_text(asked, layout, records, rows, &mut progress.texts) {
        Ok(text) => write_layout(&text, asked.form, progress, out),
        Err(fault) => tell_fault(asked.table.alloc, index, &fault, progress, err),
    }
}

/// Writes an enumeration, which has no hole.
fn write_enumeration<O: Write>(
    text: &[u8],
    asked: &Asked<'_, '_, '_>,
    progress: &mut Progress,
    out: &mut Output<O>,
) -> Result<(), Error>
    ensures { progress.new.is_whole ≡ progress.old.is_whole }
{
    if asked.options.has_holes {
        return Ok(());
    }
    write_layout(text, asked.form, progress, out)
}

/// Shows an enumeration, unless only classes with holes are shown; or tells that a type is none.
fn show_enumeration<O: Write, E: Write>(
    asked: &Asked<'_, '_, '_>,
    index: TypeIndex,
    progress: &mut Progress,
    out: &mut Output<O>,
    err: &mut Output<E>,
) -> Result<(), Error>
    ensures { OnOk result (StaysAccounted progress.old progress.new err.old err.new) }
{
    let (table, style) = (asked.table, asked.options.style);
    let texts = &mut progress.texts;
    match enumeration_text(table, index, style, asked.form, texts) {
        Ok(Some(text)) => write_enumeration(&text, asked, progress, out),
        Ok(None) => tell_index(asked.table.alloc, index, NO_CLASS, progress, err),
        Err(fault) => tell_fault(asked.table.alloc, index, &fault, progress, err),
    }
}

/// Shows the layout of a type, or tells why it has none.
fn show_type<O: Write, E: Write>(
    asked: &Asked<'_, '_, '_>,
    index: TypeIndex,
    progress: &mut Progress,
    out: &mut Output<O>,
    err: &mut Output<E>,
) -> Result<(), Error>
    ensures { OnOk result (StaysAccounted progress.old progress.new err.old err.new) }
{
    match class_layout(asked.table, index) {
        Ok(Some(layout)) => {
            if !is_wanted(&layout, asked.options) {
                return Ok(());
            }
            show_layout(asked, index, &layout, progress, out, err)
        }
        Ok(None) => show_enumeration(asked, index, progress, out, err),
        Err(fault) => tell_fault(asked.table.alloc, index, &fault, progress, err),
    }
}

/// Shows the layouts of types.
fn show_types<O: Write, E: Write>(
    asked: &Asked<'_, '_, '_>,
    indexes: &[TypeIndex],
    progress: &mut Progress,
    out: &mut Output<O>,
    err: &mut Output<E>,
) -> Result<(), Error>
    ensures { OnOk result (StaysAccounted progress.old progress.new err.old err.new) }
{
    for index in indexes {
        show_type(asked, *index, progress, out, err)?;
    }
    Ok(())
}

/// Returns the number by which a layout is sorted.
fn number_of(layout: &Layout<'_>, order: Order) -> u64 {
    match order {
        Order::Size => layout.size,
        Order::Holes => totals_of(layout).hole_bytes,
        Order::Name => 0,
    }
}

/// Returns the number by which a type is sorted, which is 0 if it has no layout, and in the order
/// of names, for which no layout is read.
fn rank_number(table: Table<'_, '_>, index: TypeIndex, order: Order) -> Result<u64, AllocError> {
    if order == Order::Name {
        return Ok(0);
    }
    match class_layout(table, index) {
        Ok(Some(layout)) => Ok(number_of(&layout, order)),
        Ok(None) if order == Order::Size => known_size(table, index),
        Err(Error::OutOfMemory) => Err(AllocError),
        Ok(None) | Err(_) => Ok(0),
    }
}

/// Returns the size of a type, which is 0 if nothing says it.
fn known_size(table: Table<'_, '_>, index: TypeIndex) -> Result<u64, AllocError> {
    match table.definitions.size_of(table.alloc, index) {
        Ok(size) => Ok(size.unwrap_or(0)),
        Err(Error::OutOfMemory) => Err(AllocError),
        Err(_) => Ok(0),
    }
}

/// Returns the name by which a type is sorted, which is empty if it has none.
fn rank_name<'t>(table: Table<'_, 't>, index: TypeIndex) -> Result<&'t [u8], AllocError> {
    match table.type_at(index) {
        Ok(value) => match value.name() {
            Some(name) => Ok(name.as_bytes()),
            None => Ok(b""),
        },
        Err(Error::OutOfMemory) => Err(AllocError),
        Err(_) => Ok(b""),
    }
}

/// Returns by what types are sorted.
fn ranks_of<'t>(
    table: Table<'_, 't>,
    indexes: &[TypeIndex],
    order: Order,
) -> Result<Vec<Rank<'t>>, AllocError> {
    let mut ranks = Vec::new(table.alloc);
    for index in indexes {
        ranks.push(Rank {
            number: rank_number(table, *index, order)?,
            name: rank_name(table, *index)?,
            index: *index,
        })?;
    }
    Ok(ranks)
}

/// Returns the types of ranks.
fn types_of(alloc: Global, ranks: &[Rank<'_>]) -> Result<Vec<TypeIndex>, AllocError> {
    let mut types = Vec::new(alloc);
    for rank in ranks {
        types.push(rank.index)?;
    }
    Ok(types)
}

/// Returns types in an order.
fn sort_types(
    table: Table<'_, '_>,
    indexes: Vec<TypeIndex>,
    order: Option<Order>,
) -> Result<Vec<TypeIndex>, AllocError> {
    let Some(order) = order else {
        return Ok(indexes);
    };
    let mut ranks = ranks_of(table, &indexes, order)?;
    ranks.sort_by(|left, right| {
        right
            .number
            .cmp(&left.number)
            .then_with(|| left.name.cmp(right.name))
    })?;
    types_of(table.alloc, &ranks)
}

/// Adds the types that a name means to those that are to be shown; writes the line of a member; or
/// tells that the name means nothing.
fn find_name<O: Write, E: Write>(
    asked: &Asked<'_, '_, '_>,
    name: &str,
    found: &mut Vec<TypeIndex>,
    progress: &mut Progress,
    out: &mut Output<O>,
    err: &mut Output<E>,
) -> Result<(), Error>
    ensures { OnOk result (StaysAccounted progress.old progress.new err.old err.new) }
{
    let (table, case) = (asked.table, asked.options.case);
    let types = types_named(table, name, case)?;
    if !types.is_empty() {
        found.extend_from_slice(&types)?;
        return Ok(());
    }
    let name = name.as_bytes();
    let records = &mut progress.records;
    let texts = &mut progress.texts;
    match path_line(table, name, case, asked.form, records, texts) {
        Ok(PathLine::Member(line)) => out.write(&line),
        Ok(PathLine::Missing(why)) => tell(asked.table.alloc, name, &why, progress, err),
        Err(Error::OutOfMemory) => Err(Error::OutOfMemory),
        Err(fault) => {
            let why = error_text(asked.table.alloc, &fault)?;
            tell(asked.table.alloc, name, &why, progress, err)
        }
    }
}

/// Does the same for each of some names.
fn find_names<O: Write, E: Write>(
    asked: &Asked<'_, '_, '_>,
    names: &[&str],
    found: &mut Vec<TypeIndex>,
    progress: &mut Progress,
    out: &mut Output<O>,
    err: &mut Output<E>,
) -> Result<(), Error>
    ensures { OnOk result (StaysAccounted progress.old progress.new err.old err.new) }
{
    for name in names {
        find_name(asked, name, found, progress, out, err)?;
    }
    Ok(())
}

/// Returns of how many types the fields may be read.
fn allowed_count(
    table: Table<'_, '_>,
    types: &[TypeIndex],
    progress: &mut Progress,
) -> Result<usize, AllocError>
    ensures shown { progress.new.has_shown ≡ progress.old.has_shown }
    ensures whole { progress.new.is_whole ≡ progress.old.is_whole }
{
    for (place, index) in types.iter().enumerate() {
        if !progress.take_fields(table, *index)? {
            return Ok(place);
        }
    }
    Ok(types.len())
}

/// Returns the classes of a table if all are shown, and else none.
fn first_types(
    alloc: Global,
    types: &OpenTable<TypeIndex>,
    has_all: bool,
) -> Result<Vec<TypeIndex>, AllocError> {
    if has_all {
        classes_in(alloc, types, Wanted::All)
    } else {
        Ok(Vec::new(alloc))
    }
}

/// Leaves out the types from the first on for which more records of fields would be read than are
/// allowed, and tells of it.
fn limit_types<E: Write>(
    table: Table<'_, '_>,
    found: &mut Vec<TypeIndex>,
    progress: &mut Progress,
    err: &mut Output<E>,
) -> Result<(), Error>
    ensures accounted { OnOk result (StaysAccounted progress.old progress.new err.old err.new) }
    ensures told { OnOk result ((found.new ≡ found.old) ⊎ (progress.new.is_whole ≡ false)) }
{
    let most = allowed_count(table, found, progress)?;
    let Some(index) = found.get(most).copied() else {
        return Ok(());
    };
    found.truncate(most);
    tell_index(table.alloc, index, TOO_MANY, progress, err)
}

/// Tells if members of classes within classes were left out, since so many were shown of one class
/// or of all, or since they are so deep.
fn tell_depth<E: Write>(
    alloc: Global,
    progress: &mut Progress,
    err: &mut Output<E>,
) -> Result<(), Error>
    ensures accounted { OnOk result (StaysAccounted progress.old progress.new err.old err.new) }
    ensures spent { OnOk result (progress.old.rows.left ≡ 0 → progress.new.is_whole ≡ false) }
    ensures cut { OnOk result (IsTrue progress.old.rows.is_spent → progress.new.is_whole ≡ false) }
{
    if progress.rows.left() > 0 && !progress.rows.is_spent() {
        return Ok(());
    }
    tell(alloc, b"--expand", TOO_DEEP, progress, err)
}

/// Returns whether all types are wanted, or those of a pattern. A record that can't be read may be
/// one of these.
fn has_pattern(names: &[&str], options: &Options) -> bool {
    options.all || names.iter().any(|name| is_pattern(name.as_bytes()))
}

/// Tells of the records that can't be read, if what they define may be wanted.
fn tell_unread<E: Write>(
    asked: &Asked<'_, '_, '_>,
    names: &[&str],
    progress: &mut Progress,
    err: &mut Output<E>,
) -> Result<(), Error>
    ensures { OnOk result (StaysAccounted progress.old progress.new err.old err.new) }
{
    if !has_pattern(names, asked.options) {
        return Ok(());
    }
    let table = asked.table;
    let unread = unread_in(table.alloc, table.definitions.types())?;
    unread.tell(table.alloc, b"", progress, err)
}

/// Shows the types of a table that are wanted, and tells of what is left out.
fn show_asked<O: Write, E: Write>(
    asked: &Asked<'_, '_, '_>,
    names: &[&str],
    progress: &mut Progress,
    out: &mut Output<O>,
    err: &mut Output<E>,
) -> Result<(), Error>
    ensures { OnOk result (StaysAccounted progress.old progress.new err.old err.new) }
{
    let (table, options) = (asked.table, asked.options);
    let mut found = first_types(table.alloc, table.definitions.types(), options.all)?;
    find_names(asked, names, &mut found, progress, out, err)?;
    limit_types(table, &mut found, progress, err)?;
    let ordered = sort_types(table, found, options.order)?;
    show_types(asked, &ordered, progress, out, err)?;
    tell_unread(asked, names, progress, err)?;
    tell_depth(asked.table.alloc, progress, err)
}

/// Shows the layouts of classes of the table in a stream: of all, or of those that names mean, in
/// which an index such as `0x1026`, a pattern with `*` and `?`, the name of a class or a union and
/// the path of a member behind one are allowed. Returns whether each name was found and no class
/// had an error; what went wrong is written to the error channel.
///
/// # Errors
/// Fails with the errors of `TypeInformation::parse` and with the fault at which the table stops,
/// before anything is written; with `IoError` if the output fails; and with `OutOfMemory` if an
/// allocation fails.
pub fn show_layouts<O: Write, E: Write>(
    alloc: Global,
    stream: Stream,
    names: &[&str],
    options: &Options,
    form: Form,
    out: &mut Output<O>,
    err: &mut Output<E>,
) -> Result<bool, Error>
    ensures { IfOk result (ShowsTypes stream err.old err.new) }
{
    let bytes = stream.as_slice().len();
    let types = learn_table(alloc, stream)?;
    let definitions = Definitions::new(alloc, &types)?;
    let table = Table {
        alloc,
        definitions: &definitions,
    };
    let asked = Asked {
        table,
        options,
        form,
    };
    let mut progress = Progress::new(bytes);
    show_asked(&asked, names, &mut progress, out, err)?;
    Ok(progress.is_whole)
}
