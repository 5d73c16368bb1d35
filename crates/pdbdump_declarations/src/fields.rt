//! The fields of a class as pieces of its definition.

use crate::comment::push_quoted;
use crate::member_names::distinct_names;
use crate::memory::AllocResult;
use crate::piece::Piece;
use crate::sketch::{Sketcher, push_assertion, push_number};
use crate::units::Unit;
use pdb_base::Result;
use pdb_types::{Extent, FieldKind, Layout, LayoutField};
use pdbdump_types::TextBuffer;
use std::alloc::Global;

/// Why a field is an array of bytes.
const NO_TYPE: &str = "no member of a header has this type here";

/// Why a base class is an array of bytes.
const PART: &str = "of the class without its virtual bases";

/// Why a field isn't declared.
const BEYOND: &str = "beyond the size of the class, or without a size";

/// Returns the place behind a field that nothing says the size of: where the next one begins.
fn next_start(starts: &[u64], offset: u64) -> u64 {
    let place = starts.partition_point(|start| *start <= offset);
    starts.get(place).copied().unwrap_or(offset)
}

/// Returns where the fields of a class begin, and its size, in increasing order.
fn starts_of(alloc: Global, layout: &Layout<'_>) -> AllocResult<Vec<u64>> {
    let mut starts = Vec::new(alloc);
    for field in &layout.fields {
        starts.push(field.place.offset)?;
    }
    starts.push(layout.size)?;
    starts.sort_unstable();
    Ok(starts)
}

/// Returns whether a field is a data member.
fn is_member(field: &LayoutField<'_>) -> bool {
    matches!(field.place.kind, FieldKind::Member(_))
}

/// Returns the fields of a class in the order of a header: its bases and pointers to tables by their
/// places, and then its members.
fn ordered_fields<'t>(alloc: Global, layout: &Layout<'t>) -> AllocResult<Vec<LayoutField<'t>>> {
    let mut fields = Vec::new(alloc);
    for field in &layout.fields {
        if !is_member(field) {
            fields.push(*field)?;
        }
    }
    fields.sort_by_key(|field| field.place.offset)?;
    for field in &layout.fields {
        if is_member(field) {
            fields.push(*field)?;
        }
    }
    Ok(fields)
}

/// Returns the names of fields as the records have them, or empty ones.
fn names_of<'t>(alloc: Global, fields: &[LayoutField<'t>]) -> AllocResult<Vec<&'t [u8]>> {
    let mut names: Vec<&'t [u8]> = Vec::new(alloc);
    for field in fields {
        match field.place.kind {
            FieldKind::Member(name) => names.push(name.as_bytes())?,
            _ => names.push(b"")?,
        }
    }
    Ok(names)
}

/// Returns the name of a field in a header: that of a member, or else one with the number of the
/// field.
fn field_name(
    alloc: Global,
    field: &LayoutField<'_>,
    name: &[u8],
    number: usize,
) -> AllocResult<Vec<u8>> {
    let word = match field.place.kind {
        FieldKind::Base => "base",
        FieldKind::VirtualBasePointer(_) => "vbptr",
        FieldKind::VirtualFunctionPointer => "vfptr",
        FieldKind::Member(own) if own.as_bytes().is_empty() => "unnamed",
        FieldKind::Member(_) => return Vec::from_slice(alloc, name),
    };
    Ok(format!(in alloc; "{word}_{number}")?.into_bytes())
}

impl<'s, 'd, 't> Sketcher<'s, 'd, 't> {
    /// Adds the pieces of all fields of a class.
    ///
    /// # Errors
    /// Fails as `Definitions::marked_text` and `Definitions::size_of` do.
    pub(crate) fn add_fields(&mut self, alloc: Global, layout: &Layout<'t>) -> Result<()> {
        let fields = ordered_fields(alloc, layout)?;
        let starts = starts_of(alloc, layout)?;
        let target = self.target;
        let names = distinct_names(alloc, &names_of(alloc, &fields)?, &target.name.identifier)?;
        let mut unit: Option<Unit> = None;
        let mut taken = 0;
        for (number, (field, name)) in fields.iter().zip(names.iter()).enumerate() {
            if let Extent::Bits(bits) = field.extent {
                unit = self.add_bits(alloc, unit, field, bits, name)?;
                continue;
            }
            self.end_unit(unit)?;
            unit = None;
            // Each virtual base class states the one pointer to their table, which a base may have.
            if let FieldKind::VirtualBasePointer(_) = field.place.kind {
                if field.place.offset < taken {
                    continue;
                }
                taken = field.place.offset.saturating_add(1);
            }
            let end = match field.extent {
                Extent::Bytes(size) => field.place.offset.saturating_add(size),
                _ => next_start(&starts, field.place.offset),
            };
            if let FieldKind::Base = field.place.kind {
                taken = end;
            }
            let name = field_name(alloc, field, name, number)?;
            self.add_field(alloc, field, end.min(layout.size), &name)?;
        }
        self.end_unit(unit)?;
        Ok(())
    }

    /// Adds a field that is no bit field.
    fn add_field(
        &mut self,
        alloc: Global,
        field: &LayoutField<'t>,
        end: u64,
        name: &[u8],
    ) -> Result<()> {
        match field.place.kind {
            FieldKind::VirtualBasePointer(_) | FieldKind::VirtualFunctionPointer => {
                self.add_pointer(alloc, field, name)
            }
            FieldKind::Base => self.add_base(alloc, field, end, name),
            FieldKind::Member(_) => self.add_typed(alloc, field, end, name, None),
        }
    }

    /// Adds a pointer to a table, which is one of the program.
    fn add_pointer(&mut self, alloc: Global, field: &LayoutField<'t>, name: &[u8]) -> Result<()> {
        let size = self.context.pointer_size;
        let mut text = TextBuffer::new(alloc);
        text.push(b"void *");
        text.push(name);
        text.push(b";\n");
        self.push_piece(field.place.offset, size, text.finish()?, size, None)?;
        Ok(())
    }

    /// Adds a base class.
    fn add_base(
        &mut self,
        alloc: Global,
        field: &LayoutField<'t>,
        end: u64,
        name: &[u8],
    ) -> Result<()> {
        let index = field.place.field_type;
        let target = self.context.target(index)?;
        let mut base = TextBuffer::new(alloc);
        let mut is_empty = false;
        if let Some(target) = &target {
            base.push(b"::");
            target.name.push_to(&mut base);
            is_empty = self.known.is_empty(target.index);
        }
        let base = base.finish()?;
        if is_empty {
            self.sketch.empty_bases.push(base)?;
            return Ok(());
        }
        self.add_typed(alloc, field, end, name, Some(base))
    }

    /// Adds a field of its type, or else as an array of bytes.
    fn add_typed(
        &mut self,
        alloc: Global,
        field: &LayoutField<'t>,
        end: u64,
        name: &[u8],
        base: Option<Vec<u8>>,
    ) -> Result<()> {
        let index = field.place.field_type;
        let start = field.place.offset;
        let table = self.context.table;
        let size = table.definitions.size_of(alloc, index)?;
        let Some(width) = end.checked_sub(start) else {
            self.push_note(BEYOND, name);
            return Ok(());
        };
        let is_base = base.is_some();
        let declared = if size == Some(width) {
            self.declared(alloc, index, name)?
        } else {
            None
        };
        if !is_base && (declared.is_some() || width > 0) {
            let assertions = &mut self.sketch.assertions;
            push_assertion(self.context, self.target, Some(name), start, assertions);
        }
        match declared {
            Some(declared) => {
                let mut text = declared.text;
                text.extend_from_slice(b";\n")?;
                self.push_piece(start, width, text, declared.alignment, base)?;
            }
            None => {
                let why = if is_base { PART } else { NO_TYPE };
                self.add_bytes(alloc, field, width, name, why)?;
            }
        }
        Ok(())
    }

    /// Adds a piece of so many bytes, which a line declares.
    fn push_piece(
        &mut self,
        start: u64,
        width: u64,
        text: Vec<u8>,
        alignment: u64,
        base: Option<Vec<u8>>,
    ) -> AllocResult<()> {
        self.sketch.pieces.push(Piece {
            start,
            end: start.saturating_add(width),
            alignment,
            text,
            is_many: false,
            base,
        })?;
        Ok(())
    }

    /// Adds a field as an array of bytes, with a comment that says of what type it is, and why.
    fn add_bytes(
        &mut self,
        alloc: Global,
        field: &LayoutField<'t>,
        width: u64,
        name: &[u8],
        why: &str,
    ) -> Result<()> {
        if width == 0 {
            self.push_note(BEYOND, name);
            return Ok(());
        }
        let table = self.context.table;
        let own = self.known.texts.bytes(table, field.place.field_type, b"")?;
        let mut text = TextBuffer::new(alloc);
        text.push(b"unsigned char ");
        text.push(name);
        push_number(b"[", width, &mut text);
        text.push(b"];  // bytes ");
        text.push(why.as_bytes());
        text.push(b": ");
        push_quoted(&own, &mut text);
        text.push(b"\n");
        self.push_piece(field.place.offset, width, text.finish()?, 1, None)?;
        Ok(())
    }
}
