//! Members of members of classes, by a path such as `Derived.inner.next.payload` or `Derived.grid[1]`.

use crate::lookup::{NamedField, Steps, extent_of, find_field, take};
use pdb_base::{RawString, Result, TypeIndex};
use pdb_flags::PointerMode;
use pdb_types::{Extent, FieldKind, FieldPlace, LayoutField};
use pdb_values::{ArrayType, TypeData};
use pdbdump_types::{Allowance, LetterCase, Table, cut_at, type_at, unmodified};

/// A path that is followed from the class with whose name it begins.
#[derive(Clone, Copy)]
pub(crate) struct Path<'p> {
    /// The class.
    pub(crate) class: TypeIndex,

    /// The whole path.
    pub(crate) bytes: &'p [u8],

    /// What is behind the name of the class.
    pub(crate) steps: &'p [u8],

    /// Whether the case of letters counts.
    pub(crate) case: LetterCase,
}

/// What a path leads to.
#[derive(Clone, Copy)]
pub(crate) struct FoundMember<'t> {
    /// The member, the base class or the element, and where it begins: in bytes from the start of the
    /// class with which the path begins, or of that to which the last pointer on it points.
    pub(crate) field: LayoutField<'t>,

    /// With how many bytes the path leads to that pointer, if it leads through one.
    pub(crate) pointer: Option<usize>,
}

/// Where a path ends.
#[derive(Clone, Copy)]
pub(crate) enum PathEnd<'t, 'p> {
    /// At a member.
    Member(FoundMember<'t>),

    /// A type has no such member.
    NoMember(TypeIndex, &'p [u8]),

    /// What the path leads to before a bracket is no array, or nothing says how large its elements
    /// are.
    NoElements(&'p [u8]),

    /// An array has only so many elements.
    Beyond(&'p [u8], u64),

    /// There is no number in brackets.
    NoNumber(&'p [u8]),
}

/// Where a path has led to.
#[derive(Clone, Copy)]
struct Place {
    /// The type of what is there.
    type_index: TypeIndex,

    /// Where that begins.
    offset: u64,

    /// With how many bytes the path leads to the last pointer.
    pointer: Option<usize>,
}

/// What one step of a path leads to, or where the path ends.
#[derive(Clone, Copy)]
enum Stepped<'t, 'p> {
    /// There is more of the path.
    On(Place, &'p [u8]),

    /// The path ends.
    Ends(PathEnd<'t, 'p>),
}

/// Returns the type to which a pointer or a reference points.
fn pointed_by(value: &TypeData<'_>) -> Option<TypeIndex> {
    let TypeData::Pointer(pointer) = value else {
        return None;
    };
    match pointer.attributes.pointer_mode() {
        PointerMode::Member | PointerMode::MemberFunction => None,
        _ => Some(pointer.underlying_type),
    }
}

/// Returns the type to which a type points, if it is a pointer or a reference.
fn pointed_type(table: Table<'_, '_>, index: TypeIndex) -> Result<Option<TypeIndex>> {
    let Some(index) = unmodified(table.alloc, table.definitions.types(), index)? else {
        return Ok(None);
    };
    let value = table.type_at(index)?;
    Ok(pointed_by(&value))
}

/// Returns the place to which a pointer at a place points, or the place itself if there is none.
fn behind_pointer(table: Table<'_, '_>, place: Place, walked: usize) -> Result<Place> {
    match pointed_type(table, place.type_index)? {
        Some(type_index) => Ok(Place {
            type_index,
            offset: 0,
            pointer: Some(walked),
        }),
        None => Ok(place),
    }
}

/// Returns where a step goes on that leads to a field of a class at a place.
fn at_field<'t, 'p>(
    table: Table<'_, 't>,
    place: Place,
    field: &NamedField<'t, 'p>,
) -> Result<Stepped<'t, 'p>> {
    let offset = place.offset.saturating_add(field.offset());
    if !field.behind.is_empty() {
        let next = Place {
            type_index: field.place.field_type,
            offset,
            pointer: place.pointer,
        };
        return Ok(Stepped::On(next, field.behind));
    }
    let extent = extent_of(table, field)?;
    let found = FieldPlace {
        kind: field.place.kind,
        field_type: field.place.field_type,
        offset,
    };
    Ok(Stepped::Ends(PathEnd::Member(FoundMember {
        field: LayoutField {
            place: found,
            extent,
        },
        pointer: place.pointer,
    })))
}

/// Returns the name with which steps begin.
fn first_name(steps: &[u8]) -> &[u8] {
    let (name, _) = cut_at(b'.', steps);
    let (name, _) = cut_at(b'[', name);
    name
}

/// Goes to the member of a name.
fn step_to_member<'t, 'p>(
    table: Table<'_, 't>,
    place: Place,
    steps: Steps<'p>,
    walked: usize,
    records: &mut Allowance,
) -> Result<Stepped<'t, 'p>> {
    let place = behind_pointer(table, place, walked)?;
    let class = place.type_index;
    match find_field(table, class, steps, records)? {
        Some(field) => at_field(table, place, &field),
        None => {
            let name = first_name(steps.bytes);
            Ok(Stepped::Ends(PathEnd::NoMember(class, name)))
        }
    }
}

/// The elements of an array, or those behind a pointer.
#[derive(Clone, Copy)]
struct Elements {
    /// The place of the first.
    first: Place,

    /// How many bytes each has.
    size: u64,

    /// How many there are, if it is known.
    count: Option<u64>,
}

/// Returns the size of the only dimension of an array.
fn array_size(array: &ArrayType) -> Option<u64> {
    match array.dimensions.as_slice() {
        [size] => Some(*size as u64),
        _ => None,
    }
}

/// Returns the elements of an array at a place, if something says how large they are.
fn elements_of(table: Table<'_, '_>, array: &ArrayType, place: Place) -> Result<Option<Elements>> {
    let size = table
        .definitions
        .size_of(table.alloc, array.element_type)?
        .unwrap_or(0);
    let Some(whole) = array_size(array) else {
        return Ok(None);
    };
    if size == 0 {
        return Ok(None);
    }
    Ok(Some(Elements {
        first: Place {
            type_index: array.element_type,
            ..place
        },
        size,
        count: Some(whole / size),
    }))
}

/// Returns the elements behind a pointer at a place, if something says how large they are.
fn elements_behind(table: Table<'_, '_>, place: Place, walked: usize) -> Result<Option<Elements>> {
    let Some(type_index) = pointed_type(table, place.type_index)? else {
        return Ok(None);
    };
    match table.definitions.size_of(table.alloc, type_index)? {
        Some(size) => Ok(Some(Elements {
            first: Place {
                type_index,
                offset: 0,
                pointer: Some(walked),
            },
            size,
            count: None,
        })),
        None => Ok(None),
    }
}

/// Returns the elements at a place, which has an array or a pointer.
fn elements_at(table: Table<'_, '_>, place: Place, walked: usize) -> Result<Option<Elements>> {
    let Some(index) = unmodified(table.alloc, table.definitions.types(), place.type_index)? else {
        return Ok(None);
    };
    let value = table.type_at(index)?;
    match &value {
        TypeData::Array(array) => elements_of(table, array, place),
        _ => elements_behind(table, place, walked),
    }
}

/// Returns the value of a decimal digit.
fn digit_value(digit: u8) -> Option<u64> {
    let value = digit.checked_sub(b'0')?;
    if value > 9 {
        return None;
    }
    Some(value as u64)
}

/// Returns the decimal number that is all of a text.
fn number_in(text: &[u8]) -> Option<u64> {
    if text.is_empty() {
        return None;
    }
    let mut number = 0u64;
    for digit in text {
        let value = digit_value(*digit)?;
        number = number.checked_mul(10)?.checked_add(value)?;
    }
    Some(number)
}

/// Returns the number in brackets with which steps begin behind the first bracket, and what is behind
/// the second.
fn bracketed(steps: &[u8]) -> Option<(u64, &[u8])> {
    let (digits, behind) = cut_at(b']', steps);
    let behind = behind?;
    let number = number_in(digits)?;
    match behind.first() {
        None | Some(b'.') | Some(b'[') => Some((number, behind)),
        Some(_) => None,
    }
}

/// Returns the element of a number, as large as each, where a path ends.
fn element_end<'t, 'p>(elements: &Elements, next: Place) -> PathEnd<'t, 'p> {
    PathEnd::Member(FoundMember {
        field: LayoutField {
            place: FieldPlace {
                kind: FieldKind::Member(RawString::from(b"".as_slice())),
                field_type: next.type_index,
                offset: next.offset,
            },
            extent: Extent::Bytes(elements.size),
        },
        pointer: next.pointer,
    })
}

/// Returns where a step to the element of a number leads.
fn at_element<'t, 'p>(
    elements: &Elements,
    number: u64,
    before: &'p [u8],
    behind: &'p [u8],
) -> Stepped<'t, 'p> {
    if let Some(count) = elements.count {
        if number >= count {
            return Stepped::Ends(PathEnd::Beyond(before, count));
        }
    }
    let first = elements.first;
    let next = Place {
        type_index: first.type_index,
        offset: first
            .offset
            .saturating_add(number.saturating_mul(elements.size)),
        pointer: first.pointer,
    };
    if behind.is_empty() {
        return Stepped::Ends(element_end(elements, next));
    }
    Stepped::On(next, behind)
}

/// Goes to the element whose number is in brackets.
fn step_to_element<'t, 'p>(
    table: Table<'_, 't>,
    place: Place,
    before: &'p [u8],
    steps: &'p [u8],
    records: &mut Allowance,
) -> Result<Stepped<'t, 'p>> {
    take(1, records)?;
    let Some((number, behind)) = bracketed(steps) else {
        return Ok(Stepped::Ends(PathEnd::NoNumber(before)));
    };
    match elements_at(table, place, before.len())? {
        Some(elements) => Ok(at_element(&elements, number, before, behind)),
        None => Ok(Stepped::Ends(PathEnd::NoElements(before))),
    }
}

/// Goes one step along a path, of which there are still these steps.
fn step<'t, 'p>(
    table: Table<'_, 't>,
    path: &Path<'p>,
    place: Place,
    steps: &'p [u8],
    records: &mut Allowance,
) -> Result<Stepped<'t, 'p>> {
    let walked = path.bytes.len().saturating_sub(steps.len());
    let case = path.case;
    match steps.split_first() {
        Some((b'[', bytes)) => {
            let before = path.bytes.get(..walked).unwrap_or(path.bytes);
            step_to_element(table, place, before, bytes, records)
        }
        Some((_, bytes)) => {
            let steps = Steps { bytes, case };
            step_to_member(table, place, steps, walked, records)
        }
        None => Ok(Stepped::Ends(PathEnd::NoMember(place.type_index, steps))),
    }
}

/// Follows a path from the class with whose name it begins: to members, also those of base classes
/// that aren't virtual and of what pointers point to, to base classes, and to elements.
///
/// # Errors
/// Fails with `UnimplementedFeature` if more records would be read than are allowed, as
/// `Definitions::layout_of` does for a class on the way, and with `OutOfMemory` if an allocation
/// fails.
pub(crate) fn follow<'t, 'p>(
    table: Table<'_, 't>,
    path: &Path<'p>,
    records: &mut Allowance,
) -> Result<PathEnd<'t, 'p>> {
    let mut place = Place {
        type_index: path.class,
        offset: 0,
        pointer: None,
    };
    let mut steps = path.steps;
    // Each step takes at least a byte of the path.
    for _ in 0..=path.steps.len() {
        match step(table, path, place, steps, records)? {
            Stepped::On(next, behind) => {
                place = next;
                steps = behind;
            }
            Stepped::Ends(end) => return Ok(end),
        }
    }
    Ok(PathEnd::NoMember(place.type_index, steps))
}
