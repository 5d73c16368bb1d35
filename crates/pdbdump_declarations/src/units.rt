//! Bit fields, which share the units of their types.

use crate::integer::unsigned_type;
use crate::memory::AllocResult;
use crate::piece::Piece;
use crate::sketch::{Sketcher, push_number};
use pdb_base::Result;
use pdb_types::LayoutField;
use pdb_values::BitfieldType;
use pdbdump_types::TextBuffer;
use std::alloc::Global;

/// The bit fields of one unit.
#[derive(Drop)]
pub(crate) struct Unit {
    start: u64,
    size: u64,
    next_bit: u64,
    text: TextBuffer,
}

impl Unit {
    /// Returns an empty unit.
    fn new(alloc: Global, start: u64, size: u64) -> Self {
        Unit {
            start,
            size,
            next_bit: 0,
            text: TextBuffer::new(alloc),
        }
    }

    /// Declares bits without a name up to a bit.
    fn fill(&mut self, end: u64) {
        let word = unsigned_type(self.size).unwrap_or("int");
        if self.next_bit < end {
            self.text.push(word.as_bytes());
            push_number(b" : ", end - self.next_bit, &mut self.text);
            self.text.push(b";\n");
            self.next_bit = end;
        }
    }

    /// Returns whether a bit field may stand behind those of the unit.
    fn takes(&self, start: u64, size: u64, field: BitfieldType) -> bool {
        self.start == start && self.size == size && field.position as u64 >= self.next_bit
    }

    /// Declares a bit field behind those that are there.
    fn push(&mut self, declaration: &[u8], field: BitfieldType) {
        self.fill(field.position as u64);
        self.text.push(declaration);
        push_number(b" : ", field.length as u64, &mut self.text);
        self.text.push(b";\n");
        self.next_bit = (field.position as u64).saturating_add(field.length as u64);
    }

    /// Returns the unit as a piece, filled up, so that what comes next begins another one.
    fn into_piece(self) -> AllocResult<Piece> {
        let mut unit = self;
        let size = unit.size;
        unit.fill(size.saturating_mul(8));
        let Unit { start, text, .. } = unit;
        Ok(Piece {
            start,
            end: start.saturating_add(size),
            alignment: size,
            text: text.finish()?,
            is_many: true,
            base: None,
        })
    }
}

/// Returns whether a bit field lies in a unit of so many bytes.
fn is_within(field: BitfieldType, size: u64) -> bool {
    let end = (field.position as u64).saturating_add(field.length as u64);
    field.length > 0 && end <= size.saturating_mul(8)
}

impl<'s, 'd, 't> Sketcher<'s, 'd, 't> {
    /// Adds the piece of a unit, if there is one.
    pub(crate) fn end_unit(&mut self, unit: Option<Unit>) -> AllocResult<()> {
        match unit {
            Some(unit) => {
                self.sketch.pieces.push(unit.into_piece()?)?;
                Ok(())
            }
            None => Ok(()),
        }
    }

    /// Adds a bit field behind those of a unit, or begins another one with it, and returns the unit.
    pub(crate) fn add_bits(
        &mut self,
        alloc: Global,
        unit: Option<Unit>,
        field: &LayoutField<'t>,
        bits: BitfieldType,
        name: &[u8],
    ) -> Result<Option<Unit>> {
        let table = self.context.table;
        let size = table
            .definitions
            .size_of(alloc, bits.underlying_type)?
            .unwrap_or(0);
        let is_unit = unsigned_type(size).is_some() && is_within(bits, size);
        let declared = self.declared(alloc, bits.underlying_type, name)?;
        let (true, Some(declared)) = (is_unit, declared) else {
            self.push_note("bits that C can't say", name);
            return Ok(unit);
        };
        let start = field.place.offset;
        let mut unit = match unit {
            Some(unit) if unit.takes(start, size, bits) => unit,
            other => {
                self.end_unit(other)?;
                Unit::new(alloc, start, size)
            }
        };
        unit.push(&declared.text, bits);
        Ok(Some(unit))
    }
}
