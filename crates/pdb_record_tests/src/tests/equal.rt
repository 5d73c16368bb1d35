//! Which types and places are equal. No two of the records say the same, so that a type is equal to
//! what is read of the same bytes again, and to nothing else that is read here. That every field of
//! a value within a type is compared is a law.

use pdb_base::{Result, TypeIndex};
use pdb_records::parse_type_data;
use pdb_tpi::RecordPlace;
use pdb_values::{TypeData, type_data_for_primitive};
use std::alloc::Global;
use std::process::Abort;

/// Records of types, two or more of each kind that differ in one field.
const RECORDS: &[&[u8]] = &[
    // Classes, unions and enumerations.
    b"\x04\x15\0\0\0\0\0\0\0\0\0\0\0\0\0\0\0\0\x04\0S\0",
    b"\x05\x15\0\0\0\0\0\0\0\0\0\0\0\0\0\0\0\0\x04\0S\0",
    b"\x04\x15\0\0\0\0\0\0\0\0\0\0\0\0\0\0\0\0\x05\0S\0",
    b"\x06\x15\0\0\0\0\0\0\0\0\x04\0S\0",
    b"\x06\x15\0\0\0\0\0\0\0\0\x04\0T\0",
    b"\x07\x15\0\0\0\0t\0\0\0\0\0\0\0S\0",
    b"\x07\x15\0\0\0\0u\0\0\0\0\0\0\0S\0",
    // What they declare.
    b"\x02\x15\x03\0\x01\0A\0",
    b"\x02\x15\x03\0\0\x80\x01A\0",
    b"\x0d\x15\x03\0t\0\0\0\0\0x\0",
    b"\x0d\x15\x03\0t\0\0\0\x04\0x\0",
    b"\x0e\x15\x03\0t\0\0\0x\0",
    b"\x0e\x15\x03\0u\0\0\0x\0",
    b"\x10\x15\0\0\0\x10\0\0x\0",
    b"\x10\x15\0\0\x01\x10\0\0x\0",
    b"\x0f\x15\x02\0\0\x10\0\0x\0",
    b"\x0f\x15\x03\0\0\x10\0\0x\0",
    b"\x11\x15\x03\0\0\x10\0\0x\0",
    b"\x11\x15\x13\0\0\x10\0\0\x08\0\0\0x\0",
    b"\x00\x14\x03\0\0\x10\0\0\0\0",
    b"\x1a\x15\x03\0\0\x10\0\0\0\0",
    b"\x01\x14\x03\0\0\x10\0\0\x01\x10\0\0\x08\0\x01\0",
    b"\x02\x14\x03\0\0\x10\0\0\x01\x10\0\0\x08\0\x01\0",
    b"\x09\x14\0\0\0\x10\0\0",
    b"\x09\x14\0\0\x01\x10\0\0",
    // Functions.
    b"\x09\x10\x03\0\0\0\0\x10\0\0\0\0\0\0\0\0\0\0\x01\x10\0\0\0\0\0\0",
    b"\x09\x10\x03\0\0\0\0\x10\0\0\0\0\0\0\0\0\0\0\x01\x10\0\0\x01\0\0\0",
    b"\x08\x10\x03\0\0\0\0\0\0\0\x01\x10\0\0",
    b"\x08\x10\x03\0\0\0\0\0\x01\0\x01\x10\0\0",
    // Types of other types, and the shape of a table.
    b"\x01\x10t\0\0\0\x01\0",
    b"\x01\x10t\0\0\0\x02\0",
    b"\x05\x12u\0\0\0\x03\x02",
    b"\x05\x12u\0\0\0\x02\x03",
    b"\x02\x10t\0\0\0\x0c\0\x01\0",
    b"\x02\x10u\0\0\0\x0c\0\x01\0",
    b"\x0a\0\x03\0\x55\x05",
    b"\x0a\0\x04\0\x55\x05",
    // Arrays, and lists of arguments and of methods.
    b"\x03\x15t\0\0\0#\0\0\0\x10\0\x40\0\0",
    b"\x03\x15t\0\0\0#\0\0\0\x40\0\x10\0\0",
    b"\x01\x12\0\0\0\0",
    b"\x01\x12\x01\0\0\0t\0\0\0",
    b"\x06\x12",
    b"\x06\x12\x03\0\0\0\0\x10\0\0",
    // Lists of fields: of none, of A, of two, of lists of methods; some go on in another.
    b"\x03\x12",
    b"\x03\x12\x04\x14\0\0\0\x10\0\0",
    b"\x03\x12\x02\x15\x03\0\x01\0A\0",
    b"\x03\x12\x02\x15\x03\0\x02\0A\0",
    b"\x03\x12\x02\x15\x03\0\x01\0A\0\x02\x15\x03\0\x02\0A\0",
    b"\x03\x12\x02\x15\x03\0\x02\0A\0\x02\x15\x03\0\x01\0A\0",
    b"\x03\x12\x02\x15\x03\0\x01\0A\0\x04\x14\0\0\0\x10\0\0",
    b"\x03\x12\x02\x15\x03\0\x01\0A\0\x04\x14\0\0\x01\x10\0\0",
    b"\x03\x12\x06\x12",
    b"\x03\x12\x06\x12\x03\0\0\0\0\x10\0\0",
];

/// Adds a type that was read.
fn push_type(rt: &impl Abort, types: &mut Vec<TypeData<'static>>, read: Result<TypeData<'static>>) {
    types.push(read.expect(rt, "a type")).expect(rt, "memory");
}

/// The types of the records, and two that have none.
fn types(rt: &impl Abort, alloc: Global) -> Vec<TypeData<'static>> {
    let mut types = Vec::new(alloc);
    for index in [TypeIndex(0x74), TypeIndex(0x674)] {
        push_type(rt, &mut types, type_data_for_primitive(index));
    }
    for record in RECORDS {
        push_type(rt, &mut types, parse_type_data(alloc, record));
    }
    types
}

/// Whether each value is equal to the one at its place among the others, which are made anew, and
/// to no other one.
fn are_told_apart<T: Eq>(values: &[T], others: &[T]) -> bool {
    for (place, value) in values.iter().enumerate() {
        for (other_place, other) in others.iter().enumerate() {
            let is_same = place == other_place;
            if (*value == *other) != is_same || (*value != *other) == is_same {
                return false;
            }
        }
    }
    values.len() == others.len()
}

/// Whether the types that are read twice are told apart.
fn are_types_told(rt: &impl Abort, alloc: Global) -> bool {
    are_told_apart(&types(rt, alloc), &types(rt, alloc))
}

/// Places: the first, one of another offset, and one of another length.
const PLACES: [(u32, u32); 3] = [(1, 2), (0x8000_0001, 2), (1, 0x8000_0002)];

#[test]
fn told_apart(rt: HostRuntime) {
    assert!(rt; are_types_told(&rt, rt.alloc()));
    let places = PLACES.map(|(offset, length)| RecordPlace { offset, length });
    assert!(rt; are_told_apart(&places, &places));
}
