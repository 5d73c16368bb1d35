//! Layouts as objects of JSON.

use crate::expanded::ShownRow;
use crate::layout_row::LayoutRow;
use crate::other_member::show_other;
use crate::shown_class::ShownClass;
use crate::totals::totals_of;
use pdb_base::Result;
use pdbdump_rows::{Value, optional_text, optional_word};
use pdbdump_types::{ObjectBuffer, Table, TextAllowance, TextBuffer, show_declared, show_gap};

/// Adds what the object of a field or a gap holds.
fn show_row<'t>(
    table: Table<'_, 't>,
    object: &mut ObjectBuffer,
    shown: &ShownRow<'t>,
    texts: &mut TextAllowance,
) -> Result<()> {
    let (depth, start) = (shown.depth, shown.start);
    match &shown.row {
        LayoutRow::Field(part) => {
            show_declared(table, object, depth, start, part, texts)?;
        }
        LayoutRow::Gap(named) => show_gap(object, depth, start, &named.gap, named.role),
    }
    Ok(())
}

/// Appends the objects of fields and gaps, and of what takes no place.
fn push_rows<'t>(
    table: Table<'_, 't>,
    object: &mut ObjectBuffer,
    shown: &ShownClass<'_, 't>,
    texts: &mut TextAllowance,
    text: &mut TextBuffer,
) -> Result<()> {
    for row in &shown.expansion.rows {
        object.begin();
        show_row(table, object, row, texts)?;
        text.push_item(object);
    }
    for other in &shown.others {
        object.begin();
        show_other(table, object, other, texts)?;
        text.push_item(object);
    }
    Ok(())
}

/// Appends a layout as a line of JSON: an object that describes the class, with a list of its
/// fields and gaps.
pub(crate) fn push_json<'t>(
    table: Table<'_, 't>,
    shown: &ShownClass<'_, 't>,
    texts: &mut TextAllowance,
    text: &mut TextBuffer,
) -> Result<()> {
    let totals = totals_of(shown.layout);
    let class = shown.class.as_ref();
    let mut object = ObjectBuffer::new(table.alloc);
    object.field("index", Value::Hexadecimal(shown.layout.index.0));
    object.field("kind", optional_word(class.map(|class| class.word)));
    object.field("name", optional_text(class.map(|class| class.name)));
    object.field("size", Value::Number(shown.layout.size));
    object.field("holes", Value::Number(totals.holes));
    object.field("hole_bytes", Value::Number(totals.hole_bytes));
    object.field("padding_bytes", Value::Number(totals.padding_bytes));
    object.field("unused_bits", Value::Number(totals.unused_bits));
    object.field("cut", Value::Flag(shown.expansion.is_cut));
    // The last member of the object is a list, so that the line doesn't end here.
    text.push_fields(&object);
    text.push(b",\"rows\":[");
    push_rows(table, &mut object, shown, texts, text)?;
    text.push(b"]}\n");
    Ok(())
}
