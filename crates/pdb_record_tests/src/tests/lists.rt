//! Records with a list: arrays, arguments, methods and fields.

use super::read::{ends_soon, is_parsed, is_read, is_same, types_of, types_with};
use pdb_base::{Error, RawString, TypeIndex, Variant};
use pdb_flags::FieldAttributes;
use pdb_values::{
    ArgumentList, ArrayType, BaseClassType, ClassKind, EnumerateType, FieldList, MemberType,
    MethodList, MethodListEntry, NestedType, TypeData, VirtualFunctionTablePointerType,
    VirtualTableShapeType,
};
use std::alloc::Global;
use std::process::Abort;

/// A method: its attributes, its type, and its offset in the table of virtual functions.
type Method = (u16, u32, Option<u32>);

/// A type that is no list of fields.
enum Field {
    /// An array: the type of an element, the stride and the dimensions.
    Array(u32, Option<u32>, &'static [u32]),
    /// A list of arguments.
    Arguments(&'static [TypeIndex]),
    /// A list of methods.
    Methods(&'static [Method]),
    /// A value of an enumeration, and its name.
    Enumerate(Variant, &'static str),
    /// A shape of a table of virtual functions: its count, and the bytes of its descriptors.
    TableShape(u16, &'static [u8]),
    /// The first four members of the class: a base class, the pointer to a table of virtual functions, a
    /// data member and a nested type.
    Base,
    TablePointer,
    Member,
    Nested,
}

/// What a record says.
enum Said {
    /// A type that is no list of fields.
    One(Field),
    /// A list of fields, and the list that it goes on in.
    Fields(&'static [Field], Option<TypeIndex>),
}

use Field::{Arguments, Array, Base, Enumerate, Member, Methods, Nested, TablePointer, TableShape};
use Said::{Fields, One};

/// The bytes of a record, and what they say.
type Row = (&'static [u8], Said);

/// The bytes of a list of a class's members, each of another kind and padded or not: a base class,
/// a table pointer, a data member, a nested type and the value of an enumeration.
const MEMBERS: &[u8] =
    b"\x03\x12\x00\x14\x02\x01\x27\x10\x00\x00\x04\x00\x09\x14\xcd\xab\x2a\x10\x00\x00\x0d\x15\x02\x01\x74\x00\x00\x00\x08\x00m\x00\xf2\xf1\x10\x15\xcd\xab\x2b\x10\x00\x00N\x00\xf0\x02\x15\x03\x00\x00\x80\x05A\x00\xf3\xf2\xf1\xf4\xff\xff\xff";

/// A list of one field that continues in another, as LLVM writes it.
const CONTINUED: &[u8] = b"\x03\x12\x02\x15\x03\x00\x00\x00A\x00\x04\x14\x00\x00\x00\x10\x00\x00";

/// Arrays without padding: of the dimensions 0xdabd and 0x40, with a stride of 0x118, of the
/// dimension 0xffff_ffff, and of three dimensions. They say the same with padding behind them, and
/// nothing with another byte behind that, or where they are cut.
const BARE_ARRAYS: &[Row] = rows! {
    b"\x03\x15\x77\x13\x00\x00\x23\x00\x00\x00\x02\x80\xbd\xda\x00",
        One(Array(0x1377, None, &[0xdabd]));
    b"\x03\x10\x77\x13\x00\x00\x23\x00\x00\x00\x40\x00\x00", One(Array(0x1377, None, &[0x40]));
    b"\x16\x15\x77\x13\x00\x00\x23\x00\x00\x00\x18\x01\x00\x00\x40\x00\x00",
        One(Array(0x1377, Some(0x118), &[0x40]));
    b"\x03\x15\x77\x13\x00\x00\x23\x00\x00\x00\x04\x80\xff\xff\xff\xff\x00",
        One(Array(0x1377, None, &[0xffffffff]));
    b"\x03\x15\x77\x13\x00\x00\x23\x00\x00\x00\x00\x01\x0a\x80\x03\x00\x00\x00\x00\x00\x00\x00\x02\x00\x00",
        One(Array(0x1377, None, &[0x100, 0x3, 0x2]));
};

/// Records of lists.
const ROWS: &[Row] = rows! {
    // Arrays with padding, of the dimensions 0x40, 0x250 and 0xdabd.
    b"\x03\x15\xa0\xdc\x0b\x00\x23\x00\x00\x00\x40\x00\x00\xf1", One(Array(0xbdca0, None, &[0x40]));
    b"\x03\x15\xa9\x12\x00\x00\x23\x00\x00\x00\x50\x02\x00\xf1", One(Array(0x12a9, None, &[0x250]));
    b"\x03\x15\x77\x13\x00\x00\x23\x00\x00\x00\x02\x80\xbd\xda\x00\xf3\xf2\xf1",
        One(Array(0x1377, None, &[0xdabd]));
    // Lists of arguments, the last two with a byte behind them.
    b"\x01\x12\x00\x00\x00\x00", One(Arguments(&[]));
    b"\x01\x12\x01\x00\x00\x00\x74\x00\x00\x00", One(Arguments(&[TypeIndex(0x74)]));
    b"\x01\x12\x02\x00\x00\x00\x2e\x10\x00\x00\x2f\x10\x00\x00\x41",
        One(Arguments(&[TypeIndex(0x102e), TypeIndex(0x102f)]));
    b"\x01\x12\x02\x00\x00\x00\x74\x00\x00\x00\x75\x00\x00\x00\x41",
        One(Arguments(&[TypeIndex(0x74), TypeIndex(0x75)]));
    // Lists of no method, of one that introduces a place in the table of virtual functions, and of that one
    // and one that is not virtual.
    b"\x06\x12", One(Methods(&[]));
    b"\x06\x12\x13\x00\xcd\xab\x30\x10\x00\x00\x18\x01\x00\x00",
        One(Methods(&[(0x13, 0x1030, Some(0x118))]));
    b"\x06\x12\x13\x00\xcd\xab\x30\x10\x00\x00\x18\x01\x00\x00\x03\x00\xff\xff\x31\x10\x00\x00",
        One(Methods(&[(0x13, 0x1030, Some(0x118)), (0x3, 0x1031, None)]));
    // Lists of fields.
    b"\x03\x12", Fields(&[], None);
    b"\x03\x12\x04\x14\x00\x00\x34\x12\x00\x00", Fields(&[], Some(TypeIndex(0x1234)));
    b"\x03\x12\x04\x14\xcd\xab\x34\x12\x00\x00", Fields(&[], Some(TypeIndex(0x1234)));
    b"\x03\x12\x0a\x00\x03\x00\x55\x05\xf2\xf1\x04\x14\x00\x00\x34\x12\x00\x00\x0a\x00\x00\x00",
        Fields(&[TableShape(3, b"\x55\x05"), TableShape(0, b"")], Some(TypeIndex(0x1234)));
    CONTINUED, Fields(&[Enumerate(Variant::U16(0), "A")], Some(TypeIndex(0x1000)));
    MEMBERS, Fields(&[Base, TablePointer, Member, Nested, Enumerate(Variant::U8(5), "A")], None);
    b"\x03\x12\x02\x15\x03\x00\x00\x00A\x00\x02\x15\x03\x00\x01\x80\xff\xffB\x00\xf2\xf1",
        Fields(&[Enumerate(Variant::U16(0), "A"), Enumerate(Variant::I16(-1), "B")], None);
    b"\x03\x12\x04\x14\xff\xff\x35\x12\x00\x00\xf1\x02\x15\x03\x00\x05\x00A\x00\x04\x14\x00\x00\x34\x12\x00\x00\xf2\xf1",
        Fields(&[Enumerate(Variant::U16(5), "A")], Some(TypeIndex(0x1234)));
    b"\x03\x12\x06\x12", Fields(&[Methods(&[])], None);
    b"\x03\x12\x06\x12\x13\x00\xcd\xab\x30\x10\x00\x00\x18\x01\x00\x00\x03\x00\xff\xff\x31\x10\x00\x00",
        Fields(&[Methods(&[(0x13, 0x1030, Some(0x118)), (0x3, 0x1031, None)])], None);
    b"\x03\x12\x03\x15\x77\x13\x00\x00\x23\x00\x00\x00\x40\x00\x00\xf1",
        Fields(&[Array(0x1377, None, &[0x40])], None);
    b"\x03\x12\x01\x12\x02\x00\x00\x00\x74\x00\x00\x00\x75\x00\x00\x00\x02\x15\x03\x00\x05\x00A\x00",
        Fields(&[Arguments(&[TypeIndex(0x74), TypeIndex(0x75)]), Enumerate(Variant::U16(5), "A")], None);
};

/// What a type is that has no list; the pointer to a table of virtual functions, if it has one.
fn field_value<'t>(field: &Field) -> TypeData<'t> {
    match field {
        Field::Enumerate(value, name) => TypeData::Enumerate(EnumerateType {
            attributes: FieldAttributes::new(3),
            value: *value,
            name: RawString::from(*name),
        }),
        Field::TableShape(count, descriptors) => {
            TypeData::VirtualTableShape(VirtualTableShapeType {
                count: *count,
                descriptors,
            })
        }
        Field::Base => TypeData::BaseClass(BaseClassType {
            kind: ClassKind::Class,
            attributes: FieldAttributes::new(0x0102),
            base_class: TypeIndex(0x1027),
            offset: 4,
        }),
        Field::Member => TypeData::Member(MemberType {
            attributes: FieldAttributes::new(0x0102),
            field_type: TypeIndex(0x74),
            offset: 8,
            name: RawString::from("m"),
        }),
        Field::Nested => TypeData::Nested(NestedType {
            attributes: FieldAttributes::new(0),
            nested_type: TypeIndex(0x102b),
            name: RawString::from("N"),
        }),
        _ => TypeData::VirtualFunctionTablePointer(VirtualFunctionTablePointerType {
            table: TypeIndex(0x102a),
        }),
    }
}

/// A list of methods.
fn method_list(rt: &impl Abort, alloc: Global, entries: &[Method]) -> MethodList {
    let mut methods = Vec::new(alloc);
    for (attributes, method_type, vtable_offset) in entries {
        let entry = MethodListEntry {
            attributes: FieldAttributes::new(*attributes),
            method_type: TypeIndex(*method_type),
            vtable_offset: *vtable_offset,
        };
        methods.push(entry).expect(rt, "memory");
    }
    MethodList { methods }
}

/// What a type is that is no list of fields.
fn value_of<'t>(rt: &impl Abort, alloc: Global, field: &Field) -> TypeData<'t> {
    match field {
        Field::Array(element, stride, dimensions) => TypeData::Array(ArrayType {
            element_type: TypeIndex(*element),
            indexing_type: TypeIndex(0x23),
            stride: *stride,
            dimensions: Vec::from_slice(alloc, dimensions).expect(rt, "memory"),
        }),
        Field::Arguments(arguments) => TypeData::ArgumentList(ArgumentList {
            arguments: Vec::from_slice(alloc, arguments).expect(rt, "memory"),
        }),
        Field::Methods(methods) => TypeData::MethodList(method_list(rt, alloc, methods)),
        _ => field_value(field),
    }
}

/// Fields.
fn fields_of<'t>(rt: &impl Abort, alloc: Global, fields: &[Field]) -> Vec<TypeData<'t>> {
    let mut values = Vec::new(alloc);
    for field in fields {
        values.push(value_of(rt, alloc, field)).expect(rt, "memory");
    }
    values
}

/// What a record says.
fn value_said<'t>(rt: &impl Abort, alloc: Global, said: &Said) -> TypeData<'t> {
    match said {
        Said::One(field) => value_of(rt, alloc, field),
        Said::Fields(fields, continuation) => TypeData::FieldList(FieldList {
            fields: fields_of(rt, alloc, fields),
            continuation: *continuation,
        }),
    }
}

/// Whether a copy of a list is equal.
fn is_list_copied(alloc: Global, data: &TypeData<'_>) -> bool {
    match data {
        TypeData::Array(array) => is_same(array.clone(alloc), array),
        TypeData::ArgumentList(list) => is_same(list.clone(alloc), list),
        TypeData::MethodList(list) => is_same(list.clone(alloc), list),
        TypeData::FieldList(list) => is_same(list.clone(alloc), list),
        _ => false,
    }
}

/// Whether a copy is equal, of the whole and of its list.
fn is_copied(alloc: Global, data: &TypeData<'_>) -> bool {
    is_list_copied(alloc, data) && is_same(data.clone(alloc), data)
}

/// Whether a record says the same with padding behind it, and is an error with another byte behind
/// that, or where it is cut.
fn is_padded(rt: &impl Abort, alloc: Global, row: &Row) -> bool {
    let (record, said) = row;
    let padded = types_with(rt, alloc, record, b"\xf3\xf2\xf1\xf0");
    let longer = types_with(rt, alloc, record, b"\xf3\xf2\xf1\xf0\x41");
    let want = value_said(rt, alloc, said);
    let end = Error::UnexpectedEof;
    is_read(rt, alloc, &padded, Ok(&want))
        && is_read(rt, alloc, &longer, Err(&end))
        && ends_soon(alloc, record)
}

/// Whether a record says what its case has, in a table and alone, and what it says is copied.
fn is_row(rt: &impl Abort, alloc: Global, row: &Row) -> bool {
    let (record, said) = row;
    let table = types_of(rt, alloc, record);
    let want = value_said(rt, alloc, said);
    is_read(rt, alloc, &table, Ok(&want))
        && is_parsed(rt, alloc, record, &want)
        && is_copied(alloc, &want)
}

#[test]
fn lists(rt: HostRuntime) {
    for row in ROWS {
        assert!(rt; is_row(&rt, rt.alloc(), row), "{:?}", row.0);
    }
    for row in BARE_ARRAYS {
        assert!(rt;
            is_row(&rt, rt.alloc(), row) && is_padded(&rt, rt.alloc(), row),
            "{:?}",
            row.0
        );
    }
}
