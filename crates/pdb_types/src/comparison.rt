//! What two definitions have in common.

ghost use Rattle.std.specs.Prelude.{◌≡◌, ◌++◌, ◌∷◌, IfOk, Ok, OnOk, map};
ghost use Rattle.std.specs.List.{filter_map};
ghost use Rattle.std.specs.Option.{option_map};
ghost use Rattle.pdb_base.specs.Answer.{Answers};
ghost use Rattle.pdb_values.specs.Enumeration.{enumeration_value};
ghost use Rattle.pdb_values.specs.TypeView.{type_value};
ghost use Rattle.pdb_types.specs.Comparison.{compared, comparison_of, describe_class, describe_enumeration};
ghost use Rattle.pdb_types.specs.Comparison.{describe_value, described};
ghost use Rattle.pdb_types.specs.Comparison.{description_of, each_like, enumeration_of, enumerator_of};
ghost use Rattle.pdb_types.specs.Comparison.{enumerator_of_code, field_types};
ghost use Rattle.pdb_types.specs.Comparison.{have_one_layout, have_one_role, is_enumerator_like, is_field_like};
ghost use Rattle.pdb_types.specs.Comparison.{enumerated_number, role_types, described_types};
ghost use Rattle.pdb_types.specs.FieldPlace.{field_role};
ghost use Rattle.pdb_types.specs.Layout.{field_value};

use crate::agreement::{Tables, keyword_of};
use crate::definitions::Definitions;
use crate::enumerator::{enumerator_value, value_bits};
use crate::field_place::FieldKind;
use crate::layout::{ClassBody, LayoutField, body_of, list_there};
use crate::memory::AllocResult;
use crate::type_at::type_at;
use pdb_base::{RawString, Result, TypeIndex, Variant};
use pdb_values::{EnumerationType, TypeData};
use std::alloc::Global;

/// What two definitions have in common.
#[derive(Clone, Copy, Debug, PartialEq, Eq)]
pub enum Comparison {
    /// Their layouts, and the types of their fields by name.
    Equal,

    /// Their layouts; but the types of some field differ.
    TypesDiffer,

    /// Not even their layouts.
    LayoutDiffers,
}

/// An enumerator.
#[derive(Clone, Copy)]
pub(crate) struct Enumerator<'t> {
    /// Its name.
    name: RawString<'t>,

    /// Its value, as its record has it.
    value: Variant,
}

/// What a definition says that is compared.
#[derive(Drop)]
pub(crate) enum Description<'t> {
    /// That of a class or a union: what it is declared as, its size and its fields.
    Class(&'static [u8], u64, Vec<LayoutField<'t>>),

    /// That of an enumeration: its size, the type under it, and its enumerators.
    Enumeration(Option<u64>, TypeIndex, Vec<Enumerator<'t>>),

    /// That of any other type, which has no layout of its own: the type itself.
    Other(TypeIndex),
}

/// Returns whether two fields are of one kind, with one name.
fn have_one_role(old: &FieldKind<'_>, new: &FieldKind<'_>) -> bool
    ensures { result ≡ have_one_role (field_role old.now) (field_role new.now) }
{
    match old {
        FieldKind::Base => match new {
            FieldKind::Base => true,
            _ => false,
        },
        FieldKind::VirtualFunctionPointer => match new {
            FieldKind::VirtualFunctionPointer => true,
            _ => false,
        },
        FieldKind::VirtualBasePointer(old) => match new {
            FieldKind::VirtualBasePointer(new) => {
                old.direct == new.direct && old.position == new.position
            }
            _ => false,
        },
        FieldKind::Member(old) => match new {
            FieldKind::Member(new) => old.as_bytes() == new.as_bytes(),
            _ => false,
        },
    }
}

/// Returns whether two fields are alike: of one kind, with one name, and in the same place.
fn is_field_like(one: &LayoutField<'_>, other: &LayoutField<'_>) -> bool
    ensures { result ≡ is_field_like (field_value one.now) (field_value other.now) }
{
    let (bits, other_bits) = (one.bits(), other.bits());
    have_one_role(&one.place.kind, &other.place.kind)
        && one.place.offset == other.place.offset
        && bits.start == other_bits.start
        && bits.end == other_bits.end
}

/// Returns whether the fields of two lists are alike, one by one.
#[tactic(auto, using(crate::proofs::ComparisonLemmas::lengths_differ))]
fn are_fields_alike(ones: &[LayoutField<'_>], others: &[LayoutField<'_>]) -> bool
    ensures { result ≡ each_like is_field_like (map field_value ones.now) (map field_value others.now) }
{
    if ones.len() != others.len() {
        return false;
    }
    for (place, one) in ones.iter().enumerate() {
        if !is_field_like(one, &others[place]) {
            return false;
        }
    }
    true
}

/// Returns the value of an enumerator in 64 bits, where its enumeration is over this type.
fn enumerated_number(over: TypeIndex, enumerator: Enumerator<'_>) -> u64
    ensures { result ≡ enumerated_number over (enumerator_of_code enumerator.entry) }
{
    value_bits(enumerator_value(enumerator.value, over))
}

/// Returns whether two enumerators, of enumerations over these types, have one name and one value.
fn is_enumerator_like(
    over: TypeIndex,
    other_over: TypeIndex,
    one: Enumerator<'_>,
    other: Enumerator<'_>,
) -> bool
    ensures { result ≡ is_enumerator_like over other_over (enumerator_of_code one.entry)
        (enumerator_of_code other.entry) }
{
    one.name.as_bytes() == other.name.as_bytes()
        && enumerated_number(over, one) == enumerated_number(other_over, other)
}

/// Returns whether the enumerators of two enumerations over these types are alike, one by one.
#[tactic(auto, using(crate::proofs::ComparisonLemmas::lengths_differ))]
fn are_enumerators_alike(
    over: TypeIndex,
    other_over: TypeIndex,
    ones: &[Enumerator<'_>],
    others: &[Enumerator<'_>],
) -> bool
    ensures { result ≡ each_like (is_enumerator_like over other_over)
        (map enumerator_of_code ones.now) (map enumerator_of_code others.now) }
{
    if ones.len() != others.len() {
        return false;
    }
    for (place, one) in ones.iter().enumerate() {
        if !is_enumerator_like(over, other_over, *one, others[place]) {
            return false;
        }
    }
    true
}

/// Returns whether two definitions have one layout.
fn have_one_layout(one: &Description<'_>, other: &Description<'_>) -> bool
    ensures { result ≡ have_one_layout (described one.now) (described other.now) }
{
    match one {
        Description::Class(keyword, size, fields) => match other {
            Description::Class(other_keyword, other_size, other_fields) => {
                *keyword == *other_keyword
                    && *size == *other_size
                    && are_fields_alike(fields, other_fields)
            }
            _ => false,
        },
        Description::Enumeration(size, over, values) => match other {
            Description::Enumeration(other_size, other_over, other_values) => {
                *size == *other_size
                    && are_enumerators_alike(*over, *other_over, values, other_values)
            }
            _ => false,
        },
        Description::Other(_) => match other {
            Description::Other(_) => true,
            _ => false,
        },
    }
}

/// Appends the types that a field has: its own, and for a pointer to a table of virtual bases that
/// of the base class of which it speaks.
fn push_types(field: &LayoutField<'_>, types: &mut Vec<TypeIndex>) -> AllocResult<()>
    ensures { OnOk result (types.new.items
        ≡ types.old.items ++ field.now.place.field_type ∷ role_types (field_role field.now.place.kind)) }
{
    types.push(field.place.field_type)?;
    match field.place.kind {
        FieldKind::VirtualBasePointer(base) => {
            types.push(base.base_class)?;
            Ok(())
        }
        _ => Ok(()),
    }
}

/// Returns the types that fields have.
fn field_types(alloc: Global, fields: &[LayoutField<'_>]) -> AllocResult<Vec<TypeIndex>>
    ensures { IfOk result (λ types. types.items ≡ field_types (map field_value fields.now)) }
{
    let mut types = Vec::new(alloc);
    for field in fields {
        push_types(field, &mut types)?;
    }
    Ok(types)
}

/// Returns the types that a definition names.
fn described_types(alloc: Global, description: &Description<'_>) -> AllocResult<Vec<TypeIndex>>
    ensures { IfOk result (λ types. types.items ≡ described_types (described description.now)) }
{
    match description {
        Description::Class(_, _, fields) => field_types(alloc, fields),
        Description::Enumeration(_, over, _) => Vec::from_slice(alloc, &[*over]),
        Description::Other(index) => Vec::from_slice(alloc, &[*index]),
    }
}

/// Returns the enumeration that a type is.
fn enumeration_of<'v, 't>(value: &'v TypeData<'t>) -> Option<&'v EnumerationType<'t>>
    ensures { option_map (λ enumeration. enumeration_value enumeration.now) result ≡ enumeration_of
        (type_value value.now) }
{
    match value {
        TypeData::Enumeration(enumeration) => Some(enumeration),
        _ => None,
    }
}

/// Returns the enumerator of a record in a list of fields, if it is of one.
fn enumerator_of<'t>(value: &TypeData<'t>) -> Option<Enumerator<'t>>
    ensures { option_map enumerator_of_code result ≡ enumerator_of (type_value value.now) }
{
    match value {
        TypeData::Enumerate(enumerator) => Some(Enumerator {
            name: enumerator.name,
            value: enumerator.value,
        }),
        _ => None,
    }
}

/// Returns the enumerators among records, in order.
fn enumerators_in<'t>(alloc: Global, records: &[TypeData<'t>]) -> AllocResult<Vec<Enumerator<'t>>>
    ensures { IfOk result (λ values. map enumerator_of_code values.items
        ≡ filter_map enumerator_of (map type_value records.now)) }
{
    let mut values = Vec::new(alloc);
    for value in records {
        if let Some(enumerator) = enumerator_of(value) {
            values.push(enumerator)?;
        }
    }
    Ok(values)
}

impl<'t> Definitions<'t> {
    /// Describes a class or a union that says this of it.
    fn describe_class(
        &self,
        alloc: Global,
        keyword: &'static [u8],
        body: ClassBody,
    ) -> Result<Description<'t>>
        ensures { Answers described result (describe_class self.now keyword.now body) }
    {
        let stated = self.body_fields(alloc, body)?;
        let fields = self.fields_there(alloc, stated)?;
        Ok(Description::Class(keyword, body.size, fields))
    }

    /// Describes an enumeration with this record.
    fn describe_enumeration(
        &self,
        alloc: Global,
        enumeration: &EnumerationType<'_>,
    ) -> Result<Description<'t>>
        ensures { Answers described result (describe_enumeration self.now (enumeration_value enumeration.now)) }
    {
        let size = self.size_of(alloc, enumeration.underlying_type)?;
        let records = self.records_of(alloc, list_there(enumeration.fields))?;
        let values = enumerators_in(alloc, &records)?;
        Ok(Description::Enumeration(size, enumeration.underlying_type, values))
    }

    /// Describes the type of an index with this definition, whose record is this.
    fn describe_value(
        &self,
        alloc: Global,
        index: TypeIndex,
        definition: TypeIndex,
        value: &TypeData<'_>,
    ) -> Result<Description<'t>>
        ensures { Answers described result (describe_value self.now index definition.0 (type_value value.now)) }
    {
        if let Some(enumeration) = enumeration_of(value) {
            return self.describe_enumeration(alloc, enumeration);
        }
        match body_of(definition, value) {
            Some(body) => self.describe_class(alloc, keyword_of(value), body),
            None => Ok(Description::Other(index)),
        }
    }

    /// Describes the type of an index: its definition, if it has one.
    #[tactic(auto, unfolding(crate::specs::Comparison::description_of))]
    fn describe(&self, alloc: Global, index: TypeIndex) -> Result<Description<'t>>
        ensures { Answers described result (description_of self.now index) }
    {
        let Some(definition) = self.definition_of(alloc, index)? else {
            return Ok(Description::Other(index));
        };
        let value = type_at(self.types(), alloc, definition)?;
        self.describe_value(alloc, index, definition, &value)
    }
}

/// Returns what two definitions in these tables have in common that say this.
fn compared(
    alloc: Global,
    tables: Tables<'_, '_, '_>,
    one: &Description<'_>,
    other: &Description<'_>,
) -> Result<Comparison>
    ensures { Answers (λ comparison. comparison) result
        (Ok (compared tables.entry.first.now tables.entry.second.now (described one.now) (described other.now))) }
{
    if !have_one_layout(one, other) {
        return Ok(Comparison::LayoutDiffers);
    }
    let types = described_types(alloc, one)?;
    let other_types = described_types(alloc, other)?;
    if tables.agree(alloc, &types, &other_types)? {
        Ok(Comparison::Equal)
    } else {
        Ok(Comparison::TypesDiffer)
    }
}

/// Compares the definitions of two types, each in its own table.
///
/// `LayoutDiffers` if the keyword with which they are declared (`class`, `struct`, `interface`,
/// `union` or `enum`) or the size differs, or the number, the names, the offsets or the bits of the
/// fields, as `layout_of` gives them; of enumerations the size, or the names or the values of the
/// enumerators. `TypesDiffer` if these are the same, but the type of some field, of a base class or
/// under the enumeration doesn't agree with the other one by its name; and else `Equal`. Types
/// without a definition, such as pointers, are compared as the types of fields are.
///
/// A primitive type agrees with itself alone. A class, a union or an enumeration agrees with one
/// that has the same name, unique if both have such a name, and is declared with the same keyword,
/// whether that is a forward reference or a definition. Other types agree if they are of one kind
/// with the same attributes, such as pointers of one size or arrays of one length, and the types
/// within them agree. A type that can't be read agrees with none. At most 64 pairs of types are
/// read for each field, and 4,096 more; if that isn't enough, the types don't agree.
///
/// # Errors
/// Fails with the first error of the old definition and then of the new one: those of
/// `definition_of`, and those of `layout_of`, or for an enumeration those of `size_of` and of
/// `OpenTable::fields`. Fails with `OutOfMemory` if an allocation fails.
#[tactic(auto, unfolding(crate::specs::Comparison::comparison_of))]
pub fn compare(
    alloc: Global,
    old: &Definitions<'_>,
    old_index: TypeIndex,
    new: &Definitions<'_>,
    new_index: TypeIndex,
) -> Result<Comparison>
    ensures { Answers (λ comparison. comparison) result (comparison_of old.now old_index new.now new_index) }
{
    let one = old.describe(alloc, old_index)?;
    let other = new.describe(alloc, new_index)?;
    let tables = Tables {
        first: old,
        second: new,
    };
    compared(alloc, tables, &one, &other)
}
