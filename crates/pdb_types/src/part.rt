//! The part of a base class that lies in a class derived from it.

ghost use Rattle.std.specs.Prelude.{◌≡◌, None, map};
ghost use Rattle.std.specs.List.{list_any};
ghost use Rattle.pdb_base.specs.Answer.{Answers};
ghost use Rattle.pdb_types.specs.Layout.{field_value};
ghost use Rattle.pdb_types.specs.Part.{base_of, base_within, extent_end, field_there, fields_there, has_virtual_role};
ghost use Rattle.pdb_types.specs.Part.{last_base, later_base, outline_at, outline_of, own_end, own_field_end};
ghost use Rattle.pdb_types.specs.Part.{part_along, part_before};
ghost use Rattle.pdb_types.specs.Part.{part_extent, class_part, parted_fields, with_part};

use crate::definitions::Definitions;
use crate::extent::Extent;
use crate::field_place::FieldKind;
use crate::gap::bytes_of;
use crate::layout::{LayoutField, has_virtual_bases};
use crate::span::greatest;
use pdb_base::{Result, TypeIndex};
use std::alloc::Global;

/// Along how many base classes, of which each is one of the one before, a part is found. Beyond, a
/// base class is as large as an object of it. So a class that is said to be its own base has a part.
pub(crate) const MOST_WITHIN: u32 = 64;

/// A base class.
#[derive(Clone, Copy)]
pub(crate) struct Base {
    /// The class.
    class: TypeIndex,

    /// Where it begins, in bytes from the start of the derived class.
    offset: u64,

    /// How far an object of it goes.
    extent: Extent,
}

/// What a class says of the part of it that lies in a class derived from it.
#[derive(Clone, Copy)]
pub(crate) struct Outline {
    /// How many bytes an object takes.
    size: u64,

    /// Whether it has virtual base classes.
    is_virtual: bool,

    /// The byte behind all its fields that are no base classes.
    own_end: u128,

    /// Its last base class.
    last_base: Option<Base>,
}

/// Returns the base class that a field is, or None for another field.
fn base_of(field: &LayoutField<'_>) -> Option<Base>
    ensures { result ≡ base_of (field_value field.now) }
{
    match field.place.kind {
        FieldKind::Base => Some(Base {
            class: field.place.field_type,
            offset: field.place.offset,
            extent: field.extent,
        }),
        _ => None,
    }
}

/// Returns the byte behind those of which a field that begins at an offset has bits.
fn extent_end(offset: u64, extent: Extent) -> u128
    ensures { result ≡ extent_end offset extent }
{
    bytes_of(extent.bits(offset)).end
}

/// Returns the byte behind a field that is no base class, and 0 for a base class.
fn own_field_end(field: &LayoutField<'_>) -> u128
    ensures { let value = field_value field.now in result ≡ own_field_end value.place.role value }
{
    match field.place.kind {
        FieldKind::Base => 0,
        _ => extent_end(field.place.offset, field.extent),
    }
}

/// Returns the byte behind all fields that are no base classes.
fn own_end(fields: &[LayoutField<'_>]) -> u128
    ensures { result ≡ own_end (map field_value fields.now) }
{
    let mut end = 0;
    for field in fields {
        end = greatest(end, own_field_end(field));
    }
    end
}

/// Returns the later of two base classes: the one that begins later, or else the second.
fn later_base(last: Option<Base>, next: Option<Base>) -> Option<Base>
    ensures { result ≡ later_base last next }
{
    match (last, next) {
        (Some(last), Some(next)) => {
            if last.offset <= next.offset {
                Some(next)
            } else {
                Some(last)
            }
        }
        (None, Some(next)) => Some(next),
        (last, None) => last,
    }
}

/// Returns the base class that begins last among fields.
fn last_base(fields: &[LayoutField<'_>]) -> Option<Base>
    ensures { result ≡ last_base None (map field_value fields.now) }
{
    let mut last = None;
    for field in fields {
        last = later_base(last, base_of(field));
    }
    last
}

/// Returns whether fields have a pointer to a table of virtual bases.
#[tactic(auto, using(crate::proofs::LayoutLemmas::any_value))]
fn are_virtual(fields: &[LayoutField<'_>]) -> bool
    ensures { result ≡ list_any has_virtual_role (map field_value fields.now) }
{
    has_virtual_bases(fields)
}

/// Returns what a class of a size with these fields says of its part.
fn outline_of(size: u64, fields: &[LayoutField<'_>]) -> Outline
    ensures { result ≡ outline_of size (map field_value fields.now) }
{
    Outline {
        size,
        is_virtual: are_virtual(fields),
        own_end: own_end(fields),
        last_base: last_base(fields),
    }
}

/// Returns the extent of a base class of which this part lies in a derived class, or of one of
/// which no part is known.
fn part_extent(extent: Extent, part: Option<u64>) -> Extent
    ensures { result ≡ part_extent extent part }
{
    match part {
        Some(size) => Extent::Bytes(size),
        None => extent,
    }
}

impl Outline {
    /// Returns the last base class of a class with virtual bases.
    fn base_within(self) -> Option<Base>
        ensures { result ≡ base_within self }
    {
        if self.is_virtual {
            self.last_base
        } else {
            None
        }
    }

    /// Returns the byte behind the part, if the last base class ends there.
    fn part_before(self, end: u128) -> u64
        ensures { result ≡ part_before self end }
    {
        let last = greatest(self.own_end, end);
        if self.is_virtual && last < self.size as u128 {
            last as u64
        } else {
            self.size
        }
    }
}

impl<'t> Definitions<'t> {
    /// Returns what a class says of its part, or None for a type that is no class or union that is
    /// defined.
    #[tactic(auto, unfolding(crate::specs::Part::outline_at))]
    fn outline(&self, alloc: Global, index: TypeIndex) -> Result<Option<Outline>>
        ensures { Answers (λ outline. outline) result (outline_at self.now index.0) }
    {
        let Some(body) = self.class_at(alloc, index)? else {
            return Ok(None);
        };
        let fields = self.body_fields(alloc, body)?;
        Ok(Some(outline_of(body.size, &fields)))
    }

    /// Returns the part of a class, along at most so many base classes.
    fn part_along(&self, alloc: Global, index: TypeIndex, most: u32) -> Result<Option<u64>>
        ensures { Answers (λ part. part) result (part_along most self.now index.0) }
    {
        if most == 0 {
            return Ok(None);
        }
        let Some(outline) = self.outline(alloc, index)? else {
            return Ok(None);
        };
        let Some(last) = outline.base_within() else {
            return Ok(Some(outline.part_before(0)));
        };
        let part = self.part_along(alloc, last.class, most - 1)?;
        let end = extent_end(last.offset, part_extent(last.extent, part));
        Ok(Some(outline.part_before(end)))
    }

    /// Returns a field, as long as its part if it is a base class.
    #[tactic(auto, unfolding(crate::specs::Part::field_there, crate::specs::Part::class_part))]
    fn field_there(&self, alloc: Global, field: &LayoutField<'t>) -> Result<LayoutField<'t>>
        ensures { Answers field_value result (field_there self.now (field_value field.now)) }
    {
        match base_of(field) {
            Some(base) => {
                let part = self.part_along(alloc, base.class, MOST_WITHIN)?;
                Ok(LayoutField {
                    place: field.place,
                    extent: part_extent(field.extent, part),
                })
            }
            None => Ok(*field),
        }
    }

    /// Returns fields, of which each base class is as long as its part.
    fn parted_fields(
        &self,
        alloc: Global,
        fields: &[LayoutField<'t>],
    ) -> Result<Vec<LayoutField<'t>>>
        ensures { Answers (λ parted. map field_value parted.items) result
            (parted_fields self.now (map field_value fields.now)) }
    {
        let mut parted = Vec::new(alloc);
        for field in fields {
            parted.push(self.field_there(alloc, field)?)?;
        }
        Ok(parted)
    }

    /// Returns the fields of a class as they lie in it.
    pub(crate) fn fields_there(
        &self,
        alloc: Global,
        fields: Vec<LayoutField<'t>>,
    ) -> Result<Vec<LayoutField<'t>>>
        ensures { Answers (λ there. map field_value there.items) result
            (fields_there self.now (map field_value fields.entry.items)) }
    {
        if are_virtual(&fields) {
            self.parted_fields(alloc, &fields)
        } else {
            Ok(fields)
        }
    }
}
