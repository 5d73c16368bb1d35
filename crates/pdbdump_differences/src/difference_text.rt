//! A definition that came, went or changed, as text: a line `---` for it as it was and a line `+++`
//! as it is, and behind them the parts that differ, with the same signs.

use crate::part::Part;
use crate::part_change::PartChange;
use crate::version::Version;
use pdb_base::Result;
use pdbdump_types::{TextAllowance, TextBuffer, push_enumerator, push_field};
use std::alloc::Global;

/// Appends the line of a part behind a sign.
fn push_part(
    alloc: Global,
    sign: &[u8],
    version: &Version<'_, '_>,
    part: &Part<'_>,
    texts: &mut TextAllowance,
    text: &mut TextBuffer,
) -> Result<()> {
    text.push(sign);
    match part {
        Part::Field(field) => push_field(version.table, 0, field, texts, text)?,
        Part::Enumerator(enumerator) => push_enumerator(alloc, enumerator, text),
    }
    Ok(())
}

/// Appends the line of a definition behind a sign.
fn push_head(
    alloc: Global,
    sign: &[u8],
    version: &Version<'_, '_>,
    texts: &mut TextAllowance,
    text: &mut TextBuffer,
) -> Result<()> {
    let defined = &version.defined;
    text.push(sign);
    text.push(defined.word.as_bytes());
    text.push(b" ");
    text.push_escaped(defined.name.as_bytes());
    if let Some((_, underlying_type)) = defined.enumeration {
        text.push(b" : ");
        texts.push(version.table, underlying_type, b"", text)?;
    }
    let size = version.table.definitions.size_of(alloc, version.index)?;
    text.end_head(version.index, size);
    Ok(())
}

/// Appends a definition that went, came or changed, with the parts that differ.
///
/// # Errors
/// Fails as `Definitions::size_of` does for the definitions, and as `Definitions::type_text` does for
/// the types of the parts.
pub(crate) fn push_text<'t>(
    alloc: Global,
    old: Option<&Version<'_, 't>>,
    new: Option<&Version<'_, 't>>,
    changes: &[PartChange<'t>],
    texts: &mut TextAllowance,
    text: &mut TextBuffer,
) -> Result<()> {
    if let Some(old) = old {
        push_head(alloc, b"--- ", old, texts, text)?;
    }
    if let Some(new) = new {
        push_head(alloc, b"+++ ", new, texts, text)?;
    }
    for change in changes {
        if let (Some(old), Some(part)) = (old, &change.old) {
            push_part(alloc, b"-   ", old, part, texts, text)?;
        }
        if let (Some(new), Some(part)) = (new, &change.new) {
            push_part(alloc, b"+   ", new, part, texts, text)?;
        }
    }
    Ok(())
}
