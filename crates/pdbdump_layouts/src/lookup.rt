//! The member that a name means in a class, as C++ looks it up: one of the class itself hides one of
//! its base classes.

use pdb_base::{Error, Result, TypeIndex};
use pdb_types::{Extent, FieldKind, FieldPlace, LayoutField};
use pdb_values::TypeData;
use pdbdump_types::{
    Allowance, LetterCase, Table, class_layout, class_of, list_of, records_of, type_at,
};

/// Why members aren't looked up.
const TOO_MANY: &str = "members behind so many fields";

/// For how many bytes of the name of a class it counts as one more record.
const NAME_BYTES: usize = 64;

/// As how many records more than it has a class counts that lacks a name, so that few are looked
/// through where they are bases of each other.
const BASE_RECORDS: usize = 16;

/// A member or a base class that a name means.
#[derive(Clone, Copy)]
pub(crate) struct NamedField<'t, 'p> {
    /// The class or the base class that has it.
    pub(crate) class: TypeIndex,

    /// Where that begins, in bytes from the start of the class.
    pub(crate) start: u64,

    /// What its record says of it.
    pub(crate) place: FieldPlace<'t>,

    /// What is behind its name.
    pub(crate) behind: &'p [u8],
}

impl<'t, 'p> NamedField<'t, 'p> {
    /// Returns where it begins, in bytes from the start of the class.
    pub(crate) fn offset(&self) -> u64 {
        self.start.saturating_add(self.place.offset)
    }
}

/// A class in which a name is looked up, and where it begins.
#[derive(Clone, Copy)]
struct Searched {
    class: TypeIndex,
    start: u64,
}

/// Takes so many records from those that may yet be read.
///
/// # Errors
/// Fails with `UnimplementedFeature` if there aren't as many.
pub(crate) fn take(count: usize, records: &mut Allowance) -> Result<()> {
    if records.take(count) {
        Ok(())
    } else {
        Err(Error::UnimplementedFeature(TOO_MANY))
    }
}

/// Returns the name of a class, which is empty for another type. A long one counts as records that
/// are read.
///
/// # Errors
/// Fails as `take` does, as `type_at` does, and with `OutOfMemory` if an allocation fails.
fn class_name<'t>(
    table: Table<'_, 't>,
    class: TypeIndex,
    records: &mut Allowance,
) -> Result<&'t [u8]> {
    let value = table.type_at(class)?;
    let Some(class) = class_of(&value) else {
        return Ok(b"");
    };
    let name = class.name.as_bytes();
    take(name.len() / NAME_BYTES, records)?;
    Ok(name)
}

/// Takes the records of the fields of a class from those that may yet be read, and at least one.
///
/// # Errors
/// Fails as `take` and `class_name` do.
pub(crate) fn take_records(
    table: Table<'_, '_>,
    class: TypeIndex,
    records: &mut Allowance,
) -> Result<()> {
    class_name(table, class, records)?;
    let count = records_of(table, class, records.left())?;
    take(count.max(1), records)
}

/// Returns the records of the fields of a class or a union, which is none for another type.
///
/// # Errors
/// Fails as `list_of` and `OpenTable::fields` do.
pub(crate) fn field_records<'t>(
    table: Table<'_, 't>,
    class: TypeIndex,
) -> Result<Vec<TypeData<'t>>> {
    match list_of(table, class)? {
        Some(list) if list.0 != 0 => table.definitions.types().fields(table.alloc, list),
        _ => Ok(Vec::new(table.alloc)),
    }
}

/// Returns what a record says of a data member or a base class that isn't virtual.
fn place_of<'t>(record: &TypeData<'t>) -> Option<FieldPlace<'t>> {
    match record {
        TypeData::Member(member) => Some(FieldPlace {
            kind: FieldKind::Member(member.name),
            field_type: member.field_type,
            offset: member.offset,
        }),
        TypeData::BaseClass(base) => Some(FieldPlace {
            kind: FieldKind::Base,
            field_type: base.base_class,
            offset: base.offset as u64,
        }),
        _ => None,
    }
}

/// Returns what is behind a name with which steps of a path begin: nothing, or further steps.
fn behind_name<'p>(name: &[u8], steps: Steps<'p>) -> Option<&'p [u8]> {
    if name.is_empty() {
        return None;
    }
    let behind = steps.case.behind(name, steps.bytes)?;
    match behind.first() {
        None | Some(b'.') | Some(b'[') => Some(behind),
        Some(_) => None,
    }
}

/// Returns what is behind the name of a field, if the steps begin with that. That of a base class is
/// the name of the class.
fn behind_field<'p>(
    table: Table<'_, '_>,
    place: &FieldPlace<'_>,
    steps: Steps<'p>,
    records: &mut Allowance,
) -> Result<Option<&'p [u8]>> {
    match place.kind {
        FieldKind::Member(name) => Ok(behind_name(name.as_bytes(), steps)),
        FieldKind::Base => {
            let name = class_name(table, place.field_type, records)?;
            Ok(behind_name(name, steps))
        }
        _ => Ok(None),
    }
}

/// A name that is looked up: what steps of a path begin with.
#[derive(Clone, Copy)]
pub(crate) struct Steps<'p> {
    /// The steps.
    pub(crate) bytes: &'p [u8],

    /// Whether the case of letters counts.
    pub(crate) case: LetterCase,
}

/// Returns the first member or base class of a class itself with whose name steps begin.
fn own_field<'t, 'p>(
    table: Table<'_, 't>,
    searched: Searched,
    fields: &[TypeData<'t>],
    steps: Steps<'p>,
    records: &mut Allowance,
) -> Result<Option<NamedField<'t, 'p>>> {
    for field in fields {
        let Some(place) = place_of(field) else {
            continue;
        };
        if let Some(behind) = behind_field(table, &place, steps, records)? {
            return Ok(Some(NamedField {
                class: searched.class,
                start: searched.start,
                place,
                behind,
            }));
        }
    }
    Ok(None)
}

/// Returns the member or the base class with whose name steps begin: of the class itself, or else of
/// the base classes that are the fewest steps away, of which the first in the order of their records
/// counts. Virtual base classes aren't looked through, since no record says where they are.
///
/// # Errors
/// Fails with `UnimplementedFeature` if more records would be read than are allowed, as
/// `OpenTable::fields` does for a class on the way, and with `OutOfMemory` if an allocation fails.
pub(crate) fn find_field<'t, 'p>(
    table: Table<'_, 't>,
    class: TypeIndex,
    steps: Steps<'p>,
    records: &mut Allowance,
) -> Result<Option<NamedField<'t, 'p>>> {
    let mut classes = vec![in table.alloc; Searched { class, start: 0 }]?;
    // Each class takes at least one of the records that are left.
    for number in 0..=records.left() {
        let Some(searched) = classes.get(number).copied() else {
            return Ok(None);
        };
        take_records(table, searched.class, records)?;
        let fields = field_records(table, searched.class)?;
        let found = own_field(table, searched, &fields, steps, records)?;
        if found.is_some() {
            return Ok(found);
        }
        push_bases(&fields, searched.start, &mut classes)?;
        take(BASE_RECORDS, records)?;
    }
    Ok(None)
}

/// Appends the base classes that records name, other than virtual ones.
fn push_bases(records: &[TypeData<'_>], start: u64, classes: &mut Vec<Searched>) -> Result<()> {
    for record in records {
        if let TypeData::BaseClass(base) = record {
            classes.push(Searched {
                class: base.base_class,
                start: start.saturating_add(base.offset as u64),
            })?;
        }
    }
    Ok(())
}

/// Returns how far a field of a class goes.
///
/// # Errors
/// Fails as `Definitions::layout_of` does.
pub(crate) fn extent_of(table: Table<'_, '_>, field: &NamedField<'_, '_>) -> Result<Extent> {
    let Some(layout) = class_layout(table, field.class)? else {
        return Ok(Extent::Unknown);
    };
    for own in &layout.fields {
        if is_at(own, &field.place) {
            return Ok(own.extent);
        }
    }
    Ok(Extent::Unknown)
}

/// Returns whether a field is the one of which a record says this.
fn is_at(field: &LayoutField<'_>, place: &FieldPlace<'_>) -> bool {
    let own = &field.place;
    own.offset == place.offset && own.field_type.0 == place.field_type.0 && own.kind == place.kind
}
