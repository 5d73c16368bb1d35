//! Which numbers are record kinds.

use pdb_base::{Error, Result};
use pdb_records::{parse_id_data, parse_type_data};
use pdb_tpi::constants::{LF_LABEL, LF_VFTABLE, LF_VTSHAPE};
use std::alloc::Global;

/// The record kinds of types that are read.
const TYPE_LEAVES: [u16; 41] = [
    0x000a, 0x0403, 0x1001, 0x1002, 0x1003, 0x1004, 0x1005, 0x1006, 0x1007, 0x1008, 0x1009, 0x1201,
    0x1203, 0x1205, 0x1206, 0x1400, 0x1401, 0x1402, 0x1405, 0x1406, 0x1407, 0x1408, 0x1409, 0x140b,
    0x140d, 0x1502, 0x1503, 0x1504, 0x1505, 0x1506, 0x1507, 0x150d, 0x150e, 0x150f, 0x1510, 0x1511,
    0x1512, 0x1516, 0x1519, 0x151a, 0x1609,
];

/// The record kinds of ids that are read.
const ID_LEAVES: [u16; 7] = [0x1601, 0x1602, 0x1603, 0x1604, 0x1605, 0x1606, 0x1607];

/// Whether the error is that a record of this kind is not read.
fn is_unknown<T: Drop>(read: Result<T>, number: u16) -> bool {
    matches!(read, Err(Error::UnimplementedTypeKind(kind)) if kind == number)
}

/// Whether a type record and an id record of a kind have this error exactly if the kind is not in
/// the lists above.
fn is_judged(alloc: Global, number: u16) -> bool {
    let bytes = number.to_le_bytes();
    is_unknown(parse_type_data(alloc, &bytes), number) != TYPE_LEAVES.contains(&number)
        && is_unknown(parse_id_data(alloc, &bytes), number) != ID_LEAVES.contains(&number)
}

/// The error of any other number names the number.
#[test]
fn leaves(rt: HostRuntime) {
    assert!(rt; [LF_VTSHAPE, LF_LABEL, LF_VFTABLE] == [0x000a, 0x000e, 0x151d]);
    for number in 0..=0xffffu16 {
        assert!(rt; is_judged(rt.alloc(), number), "{number:x}");
    }
}
