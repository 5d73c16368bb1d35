//! Records without a list: the fields of each record kind. Each field has a value of its own, so
//! that one read in the place of another shows.

use super::read::{ends_soon, is_parsed, is_read, join_bytes, types_of, types_with};
use pdb_base::{RawString, TypeIndex, Variant};
use pdb_flags::{FieldAttributes, FunctionAttributes, PointerAttributes, TypeProperties};
use pdb_values::{
    BaseClassType, BitfieldType, ClassKind, ClassType, EnumerateType, EnumerationType,
    MemberFunctionType, MemberType, MethodType, ModifierType, NestedType, OverloadedMethodType,
    PointerType, ProcedureType, StaticMemberType, TypeData, UnionType, VirtualBaseClassType,
    VirtualFunctionTablePointerType, VirtualTableShapeType,
};
use std::alloc::Global;
use std::process::Abort;

/// What a record says.
enum Want {
    /// A class with all that a record can say of it.
    Class(ClassKind),
    /// A class of which little is said, and the shape of its table of virtual functions.
    BareClass(Option<TypeIndex>),
    /// The structure `H_size`.
    HSize,
    /// An enumeration: its properties, and its unique name.
    Enumeration(u16, Option<&'static str>),
    /// A union: its properties, and its unique name.
    Union(u16, Option<&'static str>),
    /// The value of an enumeration.
    Enumerate(Variant),
    /// A data member.
    Member,
    /// A data member that the class has once.
    StaticMember,
    /// A type that is declared in a class: its attributes.
    Nested(u16),
    /// Methods of one name.
    Overloaded,
    /// The one method of a name: its attributes, and its place in the table of virtual functions.
    Method(u16, Option<u32>),
    /// The type of a method: that of the pointer to the object.
    MemberFunction(Option<TypeIndex>),
    /// The type of a function: that which it returns.
    Procedure(Option<TypeIndex>),
    /// A base class or a base interface: its offset.
    BaseClass(ClassKind, u32),
    /// A virtual base class, and whether the class itself names it.
    VirtualBaseClass { direct: bool },
    /// The pointer to a table of virtual functions: the index of its shape.
    TablePointer(u32),
    /// A type with modifiers.
    Modifier(bool, bool, bool),
    /// Some bits of a member: their type, how many they are, and from which one on.
    Bitfield(u32, u8, u8),
    /// A pointer: the type that it points to, its attributes, and its class.
    Pointer(u32, u32, Option<TypeIndex>),
    /// The shape of a table of virtual functions: how many it has, and their descriptors.
    TableShape(u16, &'static [u8]),
}

/// The number of a record kind, the bytes behind it, and what they say.
type Row = (u16, &'static [u8], Want);

const CLASS: &[u8] =
    b"\x01\x02\x11\x02\x16\x10\x00\x00\x17\x10\x00\x00\x18\x10\x00\x00\x04\x80\x45\x23\x01\x00name\x00unique\x00";

const CLASS_ST: &[u8] =
    b"\x01\x02\x11\x02\x16\x10\x00\x00\x17\x10\x00\x00\x18\x10\x00\x00\x04\x80\x45\x23\x01\x00\x04name\x06unique";

const WIDE_STRUCT: &[u8] =
    b"\x11\x02\xcd\xab\x16\x10\x00\x00\x17\x10\x00\x00\x18\x10\x00\x00\x01\x02\x04\x80\x45\x23\x01\x00name\x00unique\x00";

const BARE_CLASS: &[u8] =
    b"\x00\x00\xff\xfd\x00\x00\x00\x00\xff\xff\x00\x00\x00\x00\x01\x00\xff\x7f\x00";

const BARE_CLASS_ST: &[u8] =
    b"\x00\x00\xff\xfd\xff\xff\x00\x00\x00\x00\x00\x00\xff\xff\x00\x00\xff\x7f\x00";

const VIRTUAL_BASE: &[u8] =
    b"\x02\x01\x28\x10\x00\x00\x29\x10\x00\x00\x0a\x80\x08\x00\x00\x00\x01\x00\x00\x00\x0a\x80\x03\x00\x00\x00\x02\x00\x00\x00";

const UNIQUE: Option<&str> = Some("unique");

/// The class of pointers to its members.
const CLASS_INDEX: Option<TypeIndex> = Some(TypeIndex(0x102c));

/// Records of each kind that has no list.
const ROWS: &[Row] = rows! {
    // Classes, structs and interfaces.
    0x1504, CLASS, Want::Class(ClassKind::Class);
    0x1004, CLASS_ST, Want::Class(ClassKind::Class);
    0x1505, CLASS, Want::Class(ClassKind::Struct);
    0x1005, CLASS_ST, Want::Class(ClassKind::Struct);
    0x1519, CLASS, Want::Class(ClassKind::Interface);
    0x1609, WIDE_STRUCT, Want::Class(ClassKind::Struct);
    0x1504, BARE_CLASS, Want::BareClass(Some(TypeIndex(0x1_0000)));
    0x1004, BARE_CLASS_ST, Want::BareClass(None);
    0x1609, b"\x00\x02\x00\x00\x16\x10\x00\x00\x00\x00\x00\x00\x00\x00\x00\x00\x02\x00\x06\x00H_size\x00.?AUH_size@@\x00",
        Want::HSize;
    // Enumerations and unions.
    0x1507, b"\x01\x02\x11\x02\x19\x10\x00\x00\x1a\x10\x00\x00name\x00unique\x00", Want::Enumeration(0x0211, UNIQUE);
    0x1007, b"\x01\x02\x11\x02\x19\x10\x00\x00\x1a\x10\x00\x00\x04name\x06unique", Want::Enumeration(0x0211, UNIQUE);
    0x1507, b"\x01\x02\x11\x01\x19\x10\x00\x00\x1a\x10\x00\x00name\x00", Want::Enumeration(0x0111, None);
    0x1506, b"\x01\x02\x11\x02\x1b\x10\x00\x00\x00\x80\xffname\x00unique\x00", Want::Union(0x0211, UNIQUE);
    0x1006, b"\x01\x02\x11\x02\x1b\x10\x00\x00\x00\x80\xff\x04name\x06unique", Want::Union(0x0211, UNIQUE);
    0x1506, b"\x01\x02\x11\x05\x1b\x10\x00\x00\x00\x80\xffname\x00", Want::Union(0x0511, None);
    // Values of enumerations, of each width.
    0x1502, b"\x02\x01\xff\x7fA\x00", Want::Enumerate(Variant::U16(0x7fff));
    0x0403, b"\x02\x01\xff\x7f\x01A", Want::Enumerate(Variant::U16(0x7fff));
    0x1502, b"\x02\x01\x00\x80\xffA\x00", Want::Enumerate(Variant::U8(255));
    0x1502, b"\x02\x01\x01\x80\xfe\xffA\x00", Want::Enumerate(Variant::I16(-2));
    0x1502, b"\x02\x01\x02\x80\xfe\xffA\x00", Want::Enumerate(Variant::U16(0xfffe));
    0x1502, b"\x02\x01\x03\x80\xfe\xff\xff\xffA\x00", Want::Enumerate(Variant::I32(-2));
    0x1502, b"\x02\x01\x04\x80\xfe\xff\xff\xffA\x00", Want::Enumerate(Variant::U32(0xffff_fffe));
    0x1502, b"\x02\x01\x09\x80\xfe\xff\xff\xff\xff\xff\xff\xffA\x00", Want::Enumerate(Variant::I64(-2));
    0x0403, b"\x02\x01\x0a\x80\xfe\xff\xff\xff\xff\xff\xff\xff\x01A", Want::Enumerate(Variant::U64(0xffff_ffff_ffff_fffe));
    // What a class declares in itself.
    0x150d, b"\x02\x01\x1d\x10\x00\x00\x0a\x80\x02\x00\x00\x00\x01\x00\x00\x00name\x00", Want::Member;
    0x1405, b"\x02\x01\x1d\x10\x00\x00\x0a\x80\x02\x00\x00\x00\x01\x00\x00\x00\x04name", Want::Member;
    0x150e, b"\x02\x01\x1e\x10\x00\x00name\x00", Want::StaticMember;
    0x1406, b"\x02\x01\x1e\x10\x00\x00\x04name", Want::StaticMember;
    0x1510, b"\x02\x01\x1c\x10\x00\x00name\x00", Want::Nested(0);
    0x1408, b"\x02\x01\x1c\x10\x00\x00\x04name", Want::Nested(0);
    0x1512, b"\x02\x01\x1c\x10\x00\x00name\x00", Want::Nested(0x0102);
    0x140d, b"\x02\x01\x1c\x10\x00\x00\x04name", Want::Nested(0x0102);
    // Methods and functions.
    0x150f, b"\x03\x02\x1f\x10\x00\x00name\x00", Want::Overloaded;
    0x1407, b"\x03\x02\x1f\x10\x00\x00\x04name", Want::Overloaded;
    0x1511, b"\x12\x00\x20\x10\x00\x00\x18\x01\x00\x00name\x00", Want::Method(0x12, Some(0x118));
    0x140b, b"\x1b\x00\x20\x10\x00\x00\x18\x01\x00\x00\x04name", Want::Method(0x1b, Some(0x118));
    0x1511, b"\x17\x00\x20\x10\x00\x00name\x00", Want::Method(0x17, None);
    0x140b, b"\x05\x00\x20\x10\x00\x00\x04name", Want::Method(0x05, None);
    0x1511, b"\x09\x00\x20\x10\x00\x00name\x00", Want::Method(0x09, None);
    0x1511, b"\x03\x00\x20\x10\x00\x00name\x00", Want::Method(0x03, None);
    0x1009, b"\x21\x10\x00\x00\x22\x10\x00\x00\x23\x10\x00\x00\x0b\x02\x04\x03\x24\x10\x00\x00\x11\x22\x33\x44",
        Want::MemberFunction(Some(TypeIndex(0x1023)));
    0x1009, b"\x21\x10\x00\x00\x22\x10\x00\x00\x00\x00\x00\x00\x0b\x02\x04\x03\x24\x10\x00\x00\x11\x22\x33\x44",
        Want::MemberFunction(None);
    0x1009, b"\x21\x10\x00\x00\x22\x10\x00\x00\xff\xff\x00\x00\x0b\x02\x04\x03\x24\x10\x00\x00\x11\x22\x33\x44",
        Want::MemberFunction(None);
    0x1008, b"\x25\x10\x00\x00\x07\x01\x05\x03\x26\x10\x00\x00", Want::Procedure(Some(TypeIndex(0x1025)));
    0x1008, b"\x00\x00\x00\x00\x07\x01\x05\x03\x26\x10\x00\x00", Want::Procedure(None);
    0x1008, b"\xff\xff\x00\x00\x07\x01\x05\x03\x26\x10\x00\x00", Want::Procedure(None);
    // Base classes, of whose offsets the low 32 bits are kept, and a pointer to a table of virtual
    // functions.
    0x1400, b"\x02\x01\x27\x10\x00\x00\x0a\x80\x04\x00\x00\x00\x01\x00\x00\x00", Want::BaseClass(ClassKind::Class, 4);
    0x151a, b"\x02\x01\x27\x10\x00\x00\x0a\x80\x04\x00\x00\x00\x01\x00\x00\x00", Want::BaseClass(ClassKind::Interface, 4);
    0x1400, b"\x02\x01\x27\x10\x00\x00\x04\x80\xfe\xff\xff\xff", Want::BaseClass(ClassKind::Class, 0xffff_fffe);
    0x1401, VIRTUAL_BASE, Want::VirtualBaseClass { direct: true };
    0x1402, VIRTUAL_BASE, Want::VirtualBaseClass { direct: false };
    0x1409, b"\xcd\xab\x2a\x10\x00\x00", Want::TablePointer(0x102a);
    // Modifiers and bit fields.
    0x1001, b"\x74\x00\x00\x00\x05\x00", Want::Modifier(true, false, true);
    0x1001, b"\x74\x00\x00\x00\x01\x00", Want::Modifier(true, false, false);
    0x1001, b"\x74\x00\x00\x00\x02\x00", Want::Modifier(false, true, false);
    0x1001, b"\x74\x00\x00\x00\x04\x00", Want::Modifier(false, false, true);
    0x1001, b"\x74\x00\x00\x00\xf8\xff", Want::Modifier(false, false, false);
    0x1205, b"\x75\x00\x00\x00\x03\x02", Want::Bitfield(0x75, 3, 2);
    0x1205, b"\x2d\x10\x00\x00\xff\x80", Want::Bitfield(0x102d, 255, 128);
    // Shapes of tables of virtual functions, the last as Clang writes it.
    0x000a, b"\x00\x00", Want::TableShape(0, b"");
    0x000a, b"\x01\x00\xf5", Want::TableShape(1, b"\xf5");
    0x000a, b"\x02\x00\x55", Want::TableShape(2, b"\x55");
    0x000a, b"\x03\x00\x55\x05", Want::TableShape(3, b"\x55\x05");
    0x000a, b"\x03\x00\x55\x00", Want::TableShape(3, b"\x55\x00");
    // Pointers of each mode.
    0x1002, b"\x74\x00\x00\x00\x0c\x00\x01\x00", Want::Pointer(0x74, 0x0001_000c, None);
    0x1002, b"\x2b\x10\x00\x00\x2a\x00\x00\x00", Want::Pointer(0x102b, 0x2a, None);
    0x1002, b"\x2b\x10\x00\x00\x4c\x00\x01\x00\x2c\x10\x00\x00", Want::Pointer(0x102b, 0x0001_004c, CLASS_INDEX);
    0x1002, b"\x2b\x10\x00\x00\x6c\x1f\x09\x00\x2c\x10\x00\x00", Want::Pointer(0x102b, 0x0009_1f6c, CLASS_INDEX);
    0x1002, b"\x2b\x10\x00\x00\x8c\x00\x01\x00", Want::Pointer(0x102b, 0x0001_008c, None);
    0x1002, b"\x2b\x10\x00\x00\x00\x00\x00\x00", Want::Pointer(0x102b, 0, None);
};

/// What the record of a class, a union or an enumeration says, or that of what one declares.
fn value_of<'t>(rt: &impl Abort, want: &Want) -> TypeData<'t> {
    match want {
        // Packed, with nested types and a unique name.
        Want::Class(kind) => TypeData::Class(ClassType {
            kind: *kind,
            count: 0x0201,
            properties: TypeProperties::new(0x0211),
            fields: Some(TypeIndex(0x1016)),
            derived_from: Some(TypeIndex(0x1017)),
            vtable_shape: Some(TypeIndex(0x1018)),
            size: 0x0001_2345,
            name: RawString::from("name"),
            unique_name: Some(RawString::from("unique")),
        }),
        Want::BareClass(vtable_shape) => TypeData::Class(ClassType {
            kind: ClassKind::Class,
            count: 0,
            properties: TypeProperties::new(0xfdff),
            fields: None,
            derived_from: None,
            vtable_shape: *vtable_shape,
            size: 0x7fff,
            name: RawString::from(""),
            unique_name: None,
        }),
        Want::HSize => TypeData::Class(ClassType {
            kind: ClassKind::Struct,
            count: 2,
            properties: TypeProperties::new(512),
            fields: Some(TypeIndex(0x1016)),
            derived_from: None,
            vtable_shape: None,
            size: 6,
            name: RawString::from("H_size"),
            unique_name: Some(RawString::from(".?AUH_size@@")),
        }),
        Want::Enumeration(properties, unique_name) => TypeData::Enumeration(EnumerationType {
            count: 0x0201,
            properties: TypeProperties::new(*properties),
            underlying_type: TypeIndex(0x1019),
            fields: TypeIndex(0x101a),
            name: RawString::from("name"),
            unique_name: unique_name.map(RawString::from),
        }),
        Want::Union(properties, unique_name) => TypeData::Union(UnionType {
            count: 0x0201,
            properties: TypeProperties::new(*properties),
            fields: TypeIndex(0x101b),
            size: 0xff,
            name: RawString::from("name"),
            unique_name: unique_name.map(RawString::from),
        }),
        _ => declared(rt, want),
    }
}

/// What the record of something says that a class or an enumeration declares.
fn declared<'t>(rt: &impl Abort, want: &Want) -> TypeData<'t> {
    let attributes = FieldAttributes::new(0x0102);
    let name = RawString::from("name");
    match want {
        Want::Enumerate(value) => TypeData::Enumerate(EnumerateType {
            attributes,
            value: *value,
            name: RawString::from("A"),
        }),
        Want::Member => TypeData::Member(MemberType {
            attributes,
            field_type: TypeIndex(0x101d),
            offset: 0x0000_0001_0000_0002,
            name,
        }),
        Want::StaticMember => {
            let field_type = TypeIndex(0x101e);
            TypeData::StaticMember(StaticMemberType {
                attributes,
                field_type,
                name,
            })
        }
        Want::Nested(attributes) => TypeData::Nested(NestedType {
            attributes: FieldAttributes::new(*attributes),
            nested_type: TypeIndex(0x101c),
            name,
        }),
        Want::Overloaded => TypeData::OverloadedMethod(OverloadedMethodType {
            count: 0x0203,
            method_list: TypeIndex(0x101f),
            name,
        }),
        Want::Method(attributes, vtable_offset) => TypeData::Method(MethodType {
            attributes: FieldAttributes::new(*attributes),
            method_type: TypeIndex(0x1020),
            vtable_offset: *vtable_offset,
            name,
        }),
        Want::BaseClass(kind, offset) => TypeData::BaseClass(BaseClassType {
            kind: *kind,
            attributes,
            base_class: TypeIndex(0x1027),
            offset: *offset,
        }),
        Want::VirtualBaseClass { direct } => TypeData::VirtualBaseClass(VirtualBaseClassType {
            direct: *direct,
            attributes,
            base_class: TypeIndex(0x1028),
            base_pointer: TypeIndex(0x1029),
            base_pointer_offset: 8,
            virtual_base_offset: 3,
        }),
        _ => unnamed(rt, want),
    }
}

/// What the record of another type without a name says: of a function, a pointer, and so on.
fn unnamed<'t>(rt: &impl Abort, want: &Want) -> TypeData<'t> {
    match want {
        Want::MemberFunction(this_pointer_type) => TypeData::MemberFunction(MemberFunctionType {
            return_type: TypeIndex(0x1021),
            class_type: TypeIndex(0x1022),
            this_pointer_type: *this_pointer_type,
            attributes: FunctionAttributes::new(0x020b),
            parameter_count: 0x0304,
            argument_list: TypeIndex(0x1024),
            this_adjustment: 0x4433_2211,
        }),
        Want::TablePointer(table) => {
            let table = TypeIndex(*table);
            TypeData::VirtualFunctionTablePointer(VirtualFunctionTablePointerType { table })
        }
        Want::Modifier(constant, volatile, unaligned) => TypeData::Modifier(ModifierType {
            underlying_type: TypeIndex(0x74),
            constant: *constant,
            volatile: *volatile,
            unaligned: *unaligned,
        }),
        Want::Bitfield(underlying, length, position) => TypeData::Bitfield(BitfieldType {
            underlying_type: TypeIndex(*underlying),
            length: *length,
            position: *position,
        }),
        Want::TableShape(count, descriptors) => {
            let (count, descriptors) = (*count, *descriptors);
            TypeData::VirtualTableShape(VirtualTableShapeType { count, descriptors })
        }
        Want::Pointer(underlying, word, containing_class) => TypeData::Pointer(PointerType {
            underlying_type: TypeIndex(*underlying),
            attributes: PointerAttributes::new(*word).expect(rt, "attributes of a pointer"),
            containing_class: *containing_class,
        }),
        Want::Procedure(return_type) => procedure(*return_type),
        _ => procedure(None),
    }
}

/// The type of a function.
fn procedure<'t>(return_type: Option<TypeIndex>) -> TypeData<'t> {
    TypeData::Procedure(ProcedureType {
        return_type,
        attributes: FunctionAttributes::new(0x0107),
        parameter_count: 0x0305,
        argument_list: TypeIndex(0x1026),
    })
}

/// Whether a record says what is wanted, in a table and alone, and with a byte behind it too, and
/// each proper prefix of it ends too soon.
fn is_record_of(rt: &impl Abort, alloc: Global, record: &[u8], want: &Want) -> bool {
    let table = types_of(rt, alloc, record);
    let longer = types_with(rt, alloc, record, b"\x41");
    let want = value_of(rt, want);
    is_read(rt, alloc, &table, Ok(&want))
        && is_read(rt, alloc, &longer, Ok(&want))
        && is_parsed(rt, alloc, record, &want)
        && ends_soon(alloc, record)
}

#[test]
fn records(rt: HostRuntime) {
    for (leaf, fields, want) in ROWS {
        let record = join_bytes(&rt, rt.alloc(), &leaf.to_le_bytes(), fields);
        assert!(rt; is_record_of(&rt, rt.alloc(), &record, want), "{record:?}");
    }
}
