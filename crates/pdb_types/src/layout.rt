//! Where the fields of a class are, and which of its bits no field takes.

ghost use Rattle.std.specs.Prelude.{◌≡◌, IfOk, IfSome, Some, map};
ghost use Rattle.std.specs.List.{list_any};
ghost use Rattle.std.specs.Option.{option_map};
ghost use Rattle.pdb_base.specs.Answer.{Answers};
ghost use Rattle.pdb_values.specs.TypeView.{type_value};
ghost use Rattle.pdb_types.specs.Layout.{HasGaps, body_fields, body_of, class_at, field_of, field_span, field_value};
ghost use Rattle.pdb_types.specs.Layout.{field_values_in};
ghost use Rattle.pdb_types.specs.Layout.{is_virtual_field, layout_value, list_there, records_of};
ghost use Rattle.pdb_types.specs.Layout.{with_field};
ghost use Rattle.pdb_types.specs.Part.{body_layout, layout_of_type};

use crate::definitions::Definitions;
use crate::extent::Extent;
use crate::field_place::{FieldKind, FieldPlace, place_of};
use crate::gap::{Gap, gap_rows};
use crate::memory::AllocResult;
use crate::span::Span;
use crate::type_at::type_at;
use pdb_base::{Result, TypeIndex};
use pdb_values::TypeData;
use std::alloc::Global;

/// A field of a class: a base class, a data member, or a pointer to a table.
#[derive(Clone, Copy, Debug, PartialEq, Eq)]
pub struct LayoutField<'t> {
    /// What it is, and where it begins.
    pub place: FieldPlace<'t>,

    /// How far it goes.
    pub extent: Extent,
}

impl<'t> LayoutField<'t> {
    /// Returns the bits that the field takes, counted from the start of the class.
    pub fn bits(&self) -> Span
        ensures { result ≡ field_span self.now }
    {
        self.extent.bits(self.place.offset)
    }

    /// Returns whether the field is a pointer to a table of virtual bases.
    fn is_virtual(&self) -> bool
        ensures { result ≡ is_virtual_field self.now }
    {
        match self.place.kind {
            FieldKind::VirtualBasePointer(_) => true,
            _ => false,
        }
    }
}

/// The layout of a class, a structure, an interface or a union.
///
/// Each bit of it, from the first up to 8 times its size, is a bit of at least one field or of
/// exactly one gap, and never of both. Fields may overlap, as those of a union do, and a damaged
/// file may state fields that go beyond the size.
#[derive(Debug, Drop)]
pub struct Layout<'t> {
    /// The index of the definition.
    pub index: TypeIndex,

    /// How many bytes an object takes.
    pub size: u64,

    /// How many records its list of fields has, with the lists in which that continues. Those of
    /// methods, nested types and the like are of no field.
    pub records: usize,

    /// The fields in the order of their records, which is mostly that of their places.
    pub fields: Vec<LayoutField<'t>>,

    /// The bits that no field takes: holes first, then virtual bases, then unused bits, each kind
    /// in the order of their places.
    pub gaps: Vec<Gap>,
}

/// What a class or a union says of its layout.
#[derive(Clone, Copy)]
pub(crate) struct ClassBody {
    /// The index of the definition.
    index: TypeIndex,

    /// How many bytes an object takes.
    pub(crate) size: u64,

    /// The list of its fields, if it has one.
    pub(crate) list: Option<TypeIndex>,
}

/// Returns the list of an index, or None for the index 0, which means no type.
pub(crate) fn list_there(list: TypeIndex) -> Option<TypeIndex>
    ensures { result ≡ list_there list }
{
    if list.0 == 0 { None } else { Some(list) }
}

/// Returns what the class, structure, interface or union of an index says of its layout, or None
/// for another type.
pub(crate) fn body_of(index: TypeIndex, value: &TypeData<'_>) -> Option<ClassBody>
    ensures { result ≡ body_of index (type_value value.now) }
{
    match value {
        TypeData::Class(class) => Some(ClassBody {
            index,
            size: class.size,
            list: class.fields,
        }),
        TypeData::Union(union_type) => Some(ClassBody {
            index,
            size: union_type.size,
            list: list_there(union_type.fields),
        }),
        _ => None,
    }
}

/// Returns the bits that fields take, a span for each.
fn spans_of(alloc: Global, fields: &[LayoutField<'_>]) -> AllocResult<Vec<Span>>
    ensures { IfOk result (λ spans. spans.items ≡ map field_span fields.now) }
{
    let mut spans = Vec::new(alloc);
    for field in fields {
        spans.push(field.bits())?;
    }
    Ok(spans)
}

/// Returns whether a class with these fields has virtual base classes.
pub(crate) fn has_virtual_bases(fields: &[LayoutField<'_>]) -> bool
    ensures { result ≡ list_any is_virtual_field fields.now }
{
    fields.iter().any(|field| field.is_virtual())
}

impl<'t> Definitions<'t> {
    /// Appends the field of a record in a list of fields, if the record is of one.
    #[tactic(auto, unfolding(crate::specs::Layout::field_of))]
    fn push_field(
        &self,
        alloc: Global,
        value: &TypeData<'t>,
        fields: &mut Vec<LayoutField<'t>>,
    ) -> Result<()>
        ensures { Answers (λ done. map field_value fields.new.items) result
            (with_field (map field_value fields.old.items) (field_of self.now (type_value value.now))) }
    {
        match place_of(value) {
            Some(place) => {
                let extent = self.extent(alloc, place.field_type)?;
                fields.push(LayoutField { place, extent })?;
                Ok(())
            }
            None => Ok(()),
        }
    }

    /// Returns the fields of records in order.
    fn fields_in(&self, alloc: Global, records: &[TypeData<'t>]) -> Result<Vec<LayoutField<'t>>>
        ensures { Answers (λ fields. map field_value fields.items) result
            (field_values_in self.now (map type_value records.now)) }
    {
        let mut fields = Vec::new(alloc);
        for value in records {
            self.push_field(alloc, value, &mut fields)?;
        }
        Ok(fields)
    }

    /// Returns the records of a list of fields and of the lists in which it continues.
    pub(crate) fn records_of(
        &self,
        alloc: Global,
        list: Option<TypeIndex>,
    ) -> Result<Vec<TypeData<'t>>>
        ensures { Answers (λ records. map type_value records.items) result (records_of self.now list) }
    {
        match list {
            Some(list) => self.types().fields(alloc, list),
            None => Ok(Vec::new(alloc)),
        }
    }

    /// Returns the fields of a class or a union that says this of it, each as large as its type.
    pub(crate) fn body_fields(&self, alloc: Global, body: ClassBody) -> Result<Vec<LayoutField<'t>>>
        ensures { Answers (λ fields. map field_value fields.items) result (body_fields self.now body) }
    {
        let records = self.records_of(alloc, body.list)?;
        self.fields_in(alloc, &records)
    }

    /// Returns the layout of a class or a union that says this of it.
    fn body_layout(&self, alloc: Global, body: ClassBody) -> Result<Layout<'t>>
        ensures fields { Answers layout_value result (body_layout self.now body) }
        ensures gaps { IfOk result HasGaps }
    {
        let records = self.records_of(alloc, body.list)?;
        let stated = self.fields_in(alloc, &records)?;
        let fields = self.fields_there(alloc, stated)?;
        let spans = spans_of(alloc, &fields)?;
        let is_virtual = has_virtual_bases(&fields);
        let gaps = gap_rows(alloc, spans, body.size, is_virtual)?;
        Ok(Layout {
            index: body.index,
            size: body.size,
            records: records.len(),
            fields,
            gaps,
        })
    }

    /// Returns what the definition of a type says of its layout, or None if
    /// it has no definition or is no class or union.
    #[tactic(auto, unfolding(crate::specs::Layout::class_at))]
    pub(crate) fn class_at(&self, alloc: Global, index: TypeIndex) -> Result<Option<ClassBody>>
        ensures { Answers (λ body. body) result (class_at self.now index.0) }
    {
        let Some(index) = self.definition_of(alloc, index)? else {
            return Ok(None);
        };
        let value = type_at(self.types(), alloc, index)?;
        Ok(body_of(index, &value))
    }

    /// Returns the layout of a class, a structure, an interface or a union: of the definition, if
    /// the type is a forward reference. Returns None for another type, and for a forward reference
    /// that the table doesn't define.
    ///
    /// The fields are the base classes, the data members, and the pointers to tables of virtual
    /// functions and of virtual bases, as the records in the list of fields state them, with the
    /// sizes that `size_of` gives for their types. A base class that has virtual bases ends before
    /// these, which the class holds elsewhere: behind the last of its own members, of its pointers
    /// and of the parts of its other base classes, along at most 64 base classes. Static data
    /// members, methods and nested types take no place.
    ///
    /// # Errors
    /// Fails with the first error along the records: those of `definition_of`, those of
    /// `OpenTable::fields`, and then those of `size_of` for the type of each field; and for a class
    /// that has virtual bases with the first of the same errors for each of its base classes. Fails
    /// with `OutOfMemory` if an allocation fails.
    #[tactic(auto, unfolding(crate::specs::Part::layout_of_type))]
    pub fn layout_of(&self, alloc: Global, index: TypeIndex) -> Result<Option<Layout<'t>>>
        ensures fields { Answers (option_map layout_value) result (layout_of_type self.now index.0) }
        ensures gaps { IfOk result (λ layout. IfSome layout HasGaps) }
    {
        match self.class_at(alloc, index)? {
            Some(body) => Ok(Some(self.body_layout(alloc, body)?)),
            None => Ok(None),
        }
    }
}
