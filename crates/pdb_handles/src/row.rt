//! The numbers in a record, as a `Row`.

ghost use Rattle.std.specs.Prelude.{◌≡◌, ◌*◌, ◌≤◌};
ghost use Rattle.pdb_values.specs.TypeView.{type_value};
ghost use Rattle.pdb_handles.specs.{Frame.flag, Row.index_in, Row.type_info, Row.typed_row, Row.value_numbers};
ghost use Rattle.pdb_handles.specs.{Row.value_of, Row.zeroed_row};

use crate::frames::flag;
use pdb_base::{TypeIndex, Variant};
use pdb_types::enumerator_value;
use pdb_values::TypeData;

/// The numbers in the record of a type: what it says besides names and lists. Each shape has some
/// of them.
#[repr(C)]
#[derive(Clone, Copy)]
pub struct Row {
    /// The shape of the record, numbered as in `pdb_shape`, or for an id as in `pdb_id_shape`.
    pub shape: u32,
    /// Which of the numbers below the record has: bit 0 for `kind`, bit 1 for `attributes`, and so
    /// on, bit 8 for `extra` and bit 9 for `number`. The others are 0.
    pub has: u32,
    /// The size of a class or a union; the offset of a member or a base class; for a virtual base
    /// class, the offset of the pointer to its table; an enumeration's value in 64 bits, in two's
    /// complement if it is below 0; or the offset in the string table of the name of the file that
    /// declares a type.
    pub number: u64,
    /// For a class or a base class, 0 for a class, 1 for a structure, 2 for an interface; for a
    /// virtual base class, whether it is a direct one; for an enumeration's value, whether it can
    /// be below 0; for a type with modifiers, the sum of 1 for const, 2 for volatile and 4 for
    /// unaligned.
    pub kind: u32,
    /// The word of a member's, a function's or a pointer's attributes.
    pub attributes: u32,
    /// The word of the properties of a class, a union or an enumeration.
    pub properties: u32,
    /// The number of members, values, parameters, methods or functions, or of the bits of a bit
    /// field, or of the bytes of an enumeration's value.
    pub count: u32,
    /// The type that is pointed at, modified or held; the type of a member, an element or a method;
    /// the base class; the type that a function returns; the type of an id's function; or the type
    /// that is declared.
    pub type_index: u32,
    /// The class of a method or of a pointer to a member, the pointer to a virtual base class's
    /// table, the type by which an array is indexed, the list of a class's base classes, the scope
    /// of an id, or the id of the file that declares a type.
    pub second_index: u32,
    /// The type of a method's `this`, the shape of a class's table of virtual functions, or for an
    /// id the class of a method, or the module that declares a type.
    pub third_index: u32,
    /// The list of fields, of arguments, of methods or of the parts of a text, or the list in which
    /// a list of fields continues.
    pub list_index: u32,
    /// The place of a method in the table of virtual functions, how `this` is adjusted, the place
    /// of a virtual base class in its table, an array's stride, the lowest bit of a bit field, or
    /// the line that declares a type.
    pub extra: u32,
}

/// The numbers that a record has, each as the field of its name in a `Row`.
#[derive(Clone, Copy, Default)]
pub(crate) struct Numbers {
    pub(crate) kind: Option<u32>,
    pub(crate) attributes: Option<u32>,
    pub(crate) properties: Option<u32>,
    pub(crate) count: Option<u32>,
    pub(crate) type_index: Option<u32>,
    pub(crate) second_index: Option<u32>,
    pub(crate) third_index: Option<u32>,
    pub(crate) list_index: Option<u32>,
    pub(crate) extra: Option<u32>,
    pub(crate) number: Option<u64>,
}

/// Returns the `Row` of a shape and some numbers. The others are absent.
macro_rules! row {
    ($shape:expr; $($name:ident: $value:expr),*) => {
        Row::of($shape, &Numbers { $($name: $value,)* ..Numbers::default() })
    };
}

pub(crate) use row;

/// Returns the number of an index, if there is one.
#[inline(always)]
pub(crate) fn index_in(index: Option<TypeIndex>) -> Option<u32>
    ensures { result ≡ index_in index }
{
    index.map(|index| index.0)
}

/// Returns whether a number can be below 0, its width in bytes, and the number in 64 bits, in two's
/// complement if it is below 0.
fn value_numbers(value: Variant) -> (bool, u32, u64)
    ensures { result ≡ value_numbers value }
{
    match value {
        Variant::U8(n) => (false, 1, n as u64),
        Variant::U16(n) => (false, 2, n as u64),
        Variant::U32(n) => (false, 4, n as u64),
        Variant::U64(n) => (false, 8, n),
        Variant::I8(n) => (true, 1, i64::from(n).cast_unsigned()),
        Variant::I16(n) => (true, 2, i64::from(n).cast_unsigned()),
        Variant::I32(n) => (true, 4, i64::from(n).cast_unsigned()),
        Variant::I64(n) => (true, 8, n.cast_unsigned()),
    }
}

/// Returns the value of an enumerator with these numbers, of which only that of one byte without a
/// sign is told from the others.
fn value_of(is_signed: bool, width: u32, number: u64) -> Variant
    ensures { result ≡ value_of is_signed width number }
{
    if is_signed {
        Variant::I64(number.cast_signed())
    } else if width == 1 && number < 256 {
        Variant::U8(number as u8)
    } else {
        Variant::U64(number)
    }
}

/// Returns the weight of a bit if its number is present, and 0 if not.
#[inline(always)]
fn bit(weight: u32, is_there: bool) -> u32
    requires { weight ≤ 512 }
    ensures { result ≡ weight * flag is_there }
{
    weight * flag(is_there)
}

impl Row {
    /// Returns the `Row` of a shape and its numbers.
    #[inline(always)]
    #[tactic(auto, unfolding(crate::specs::Row::zeroed_row))]
    pub(crate) fn of(shape: u32, numbers: &Numbers) -> Row
        ensures { result ≡ zeroed_row shape numbers.now }
    {
        Row {
            shape,
            has: bit(1, numbers.kind.is_some())
                + bit(2, numbers.attributes.is_some())
                + bit(4, numbers.properties.is_some())
                + bit(8, numbers.count.is_some())
                + bit(16, numbers.type_index.is_some())
                + bit(32, numbers.second_index.is_some())
                + bit(64, numbers.third_index.is_some())
                + bit(128, numbers.list_index.is_some())
                + bit(256, numbers.extra.is_some())
                + bit(512, numbers.number.is_some()),
            number: numbers.number.unwrap_or(0),
            kind: numbers.kind.unwrap_or(0),
            attributes: numbers.attributes.unwrap_or(0),
            properties: numbers.properties.unwrap_or(0),
            count: numbers.count.unwrap_or(0),
            type_index: numbers.type_index.unwrap_or(0),
            second_index: numbers.second_index.unwrap_or(0),
            third_index: numbers.third_index.unwrap_or(0),
            list_index: numbers.list_index.unwrap_or(0),
            extra: numbers.extra.unwrap_or(0),
        }
    }

    /// Writes the `Row` of a type.
    pub fn set_type(&mut self, value: &TypeData<'_>)
        ensures { self.new ≡ type_info (type_value value.now) }
    {
        match value {
            TypeData::Primitive(_) => *self = Row::of(0, &Numbers::default()),
            TypeData::Class(v) => *self = row!(1;
                kind: Some(v.kind as u32), properties: Some(v.properties.bits() as u32),
                count: Some(v.count as u32), second_index: index_in(v.derived_from),
                third_index: index_in(v.vtable_shape), list_index: index_in(v.fields),
                number: Some(v.size)),
            TypeData::Member(v) => *self = row!(2;
                attributes: Some(v.attributes.bits() as u32), type_index: Some(v.field_type.0),
                number: Some(v.offset)),
            TypeData::MemberFunction(v) => *self = row!(3;
                attributes: Some(v.attributes.bits() as u32),
                count: Some(v.parameter_count as u32), type_index: Some(v.return_type.0),
                second_index: Some(v.class_type.0), third_index: index_in(v.this_pointer_type),
                list_index: Some(v.argument_list.0), extra: Some(v.this_adjustment)),
            TypeData::OverloadedMethod(v) => *self = row!(4;
                count: Some(v.count as u32), list_index: Some(v.method_list.0)),
            TypeData::Method(v) => *self = row!(5;
                attributes: Some(v.attributes.bits() as u32), type_index: Some(v.method_type.0),
                extra: v.vtable_offset),
            TypeData::StaticMember(v) => *self = row!(6;
                attributes: Some(v.attributes.bits() as u32), type_index: Some(v.field_type.0)),
            TypeData::Nested(v) => *self = row!(7;
                attributes: Some(v.attributes.bits() as u32), type_index: Some(v.nested_type.0)),
            TypeData::BaseClass(v) => *self = row!(8;
                kind: Some(v.kind as u32), attributes: Some(v.attributes.bits() as u32),
                type_index: Some(v.base_class.0), number: Some(v.offset as u64)),
            TypeData::VirtualBaseClass(v) => *self = row!(9;
                kind: Some(flag(v.direct)), attributes: Some(v.attributes.bits() as u32),
                type_index: Some(v.base_class.0), second_index: Some(v.base_pointer.0),
                number: Some(v.base_pointer_offset as u64), extra: Some(v.virtual_base_offset)),
            TypeData::VirtualFunctionTablePointer(v) => *self = row!(10;
                type_index: Some(v.table.0)),
            TypeData::Procedure(v) => *self = row!(11;
                attributes: Some(v.attributes.bits() as u32),
                count: Some(v.parameter_count as u32), type_index: index_in(v.return_type),
                list_index: Some(v.argument_list.0)),
            TypeData::Pointer(v) => *self = row!(12;
                attributes: Some(v.attributes.bits()), type_index: Some(v.underlying_type.0),
                second_index: index_in(v.containing_class)),
            TypeData::Modifier(v) => *self = row!(13;
                kind: Some(flag(v.constant) + 2 * flag(v.volatile) + 4 * flag(v.unaligned)),
                type_index: Some(v.underlying_type.0)),
            TypeData::Enumeration(v) => *self = row!(14;
                properties: Some(v.properties.bits() as u32), count: Some(v.count as u32),
                type_index: Some(v.underlying_type.0), list_index: Some(v.fields.0)),
            TypeData::Enumerate(v) => {
                let (is_signed, width, number) = value_numbers(v.value);
                *self = row!(15;
                    kind: Some(flag(is_signed)), attributes: Some(v.attributes.bits() as u32),
                    count: Some(width), number: Some(number));
            }
            TypeData::Array(v) => *self = row!(16;
                type_index: Some(v.element_type.0), second_index: Some(v.indexing_type.0),
                extra: v.stride),
            TypeData::Union(v) => *self = row!(17;
                properties: Some(v.properties.bits() as u32), count: Some(v.count as u32),
                list_index: Some(v.fields.0), number: Some(v.size)),
            TypeData::Bitfield(v) => *self = row!(18;
                count: Some(v.length as u32), type_index: Some(v.underlying_type.0),
                extra: Some(v.position as u32)),
            TypeData::FieldList(v) => *self = row!(19; list_index: index_in(v.continuation)),
            TypeData::ArgumentList(_) => *self = Row::of(20, &Numbers::default()),
            TypeData::MethodList(_) => *self = Row::of(21, &Numbers::default()),
            TypeData::VirtualTableShape(v) => *self = row!(22; count: Some(v.count as u32)),
        }
    }

    /// Returns the `Row` of a type.
    pub fn of_type(value: &TypeData<'_>) -> Row
        ensures { result ≡ type_info (type_value value.now) }
    {
        let mut row = Row::of(0, &Numbers::default());
        row.set_type(value);
        row
    }

    /// Changes the row of an enumerator, so that its value is a number of the type under its
    /// enumeration. Changes no other row.
    pub fn set_typed(&mut self, underlying_type: u32)
        ensures { self.new ≡ typed_row self.old underlying_type }
    {
        if self.shape != 15 {
            return;
        }
        let value = value_of(self.kind == 1, self.count, self.number);
        let (is_signed, _, number) = value_numbers(enumerator_value(
            value,
            TypeIndex(underlying_type),
        ));
        self.kind = flag(is_signed);
        self.number = number;
    }
}
