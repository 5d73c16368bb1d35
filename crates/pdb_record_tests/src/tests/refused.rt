//! Records of types that have an error.

use super::read::{is_read, types_of};
use pdb_base::Error;
use std::alloc::Global;
use std::process::Abort;

const END: Error = Error::UnexpectedEof;

const POINTER: Error = Error::UnimplementedTypeKind(0x1002);

const PREFIX: Error = Error::UnexpectedNumericPrefix(0x8005);

/// What is wrong with a record, its bytes, and the error.
const REFUSED: &[(&str, &[u8], Error)] = rows! {
    "an array with cut padding", b"\x03\x15\xa0\xdc\x0b\x00\x23\x00\x00\x00\x40\x00\x00\xf3", END;
    "an array with a byte behind its padding", b"\x03\x15\x77\x13\x00\x00\x23\x00\x00\x00\x02\x80\xbd\xda\x00\xf3\xf2\xf1\x41",
        END;
    "an array with a byte before its padding", b"\x03\x15\x77\x13\x00\x00\x23\x00\x00\x00\x40\x00\x00\x41\xf1", END;
    "an array whose second dimension begins with a zero byte", b"\x03\x15\x77\x13\x00\x00\x23\x00\x00\x00\x40\x00\x00\x01\x00",
        END;
    "an array of 2^32 bytes, cut behind the dimension",
        b"\x03\x15\x77\x13\x00\x00\x23\x00\x00\x00\x0a\x80\x00\x00\x00\x00\x01\x00\x00\x00",
        Error::UnimplementedFeature("u64 array sizes");
    "an array whose second dimension has a bad prefix",
        b"\x16\x15\x77\x13\x00\x00\x23\x00\x00\x00\x18\x01\x00\x00\x40\x00\x05\x80", PREFIX;
    "a pointer of mode 5", b"\x02\x10\x74\x00\x00\x00\xac\x00\x00\x00", POINTER;
    "a pointer of mode 7", b"\x02\x10\x74\x00\x00\x00\xec\x00\x00\x00", POINTER;
    "a pointer of kind 13", b"\x02\x10\x74\x00\x00\x00\x0d\x00\x01\x00", POINTER;
    "a pointer to a member, of kind 31 and without its class", b"\x02\x10\x74\x00\x00\x00\x5f\x00\x00\x00", POINTER;
    "a pointer of mode 5, cut", b"\x02\x10\x74\x00\x00\x00\xac\x00\x00", END;
    "a pointer to a member without its class", b"\x02\x10\x74\x00\x00\x00\x4c\x00\x01\x00", END;
    "a false count", b"\x01\x12\xff\xff\xff\xff\x74\x00\x00\x00", END;
    "a false count in a list of fields", b"\x03\x12\x01\x12\xff\xff\xff\xff\x74\x00\x00\x00", END;
    "a false count whose bytes are 2^32", b"\x01\x12\x00\x00\x00\x40\x74\x00\x00\x00", END;
    "a count one too high", b"\x01\x12\x02\x00\x00\x00\x74\x00\x00\x00", END;
    "a cut argument", b"\x01\x12\x01\x00\x00\x00\x74\x00\x00", END;
    "a cut count", b"\x01\x12\x00\x00\x00", END;
    "one byte of a method", b"\x06\x12\x03", END;
    "a cut method", b"\x06\x12\x03\x00\xff\xff\x31\x10\x00", END;
    "a byte behind a method", b"\x06\x12\x03\x00\xff\xff\x31\x10\x00\x00\x41", END;
    "padding behind a method", b"\x06\x12\x03\x00\xff\xff\x31\x10\x00\x00\xf2\xf1", END;
    "a method with a cut offset", b"\x06\x12\x13\x00\xff\xff\x30\x10\x00\x00\x18\x01\x00", END;
    "one byte of a field", b"\x03\x12\x02", END;
    "a list of fields in another", b"\x03\x12\x03\x12", Error::UnimplementedTypeKind(0x1203);
    "a list of fields behind a field", b"\x03\x12\x02\x15\x03\x00\x05\x00A\x00\x03\x12", Error::UnimplementedTypeKind(0x1203);
    "padding before a field", b"\x03\x12\xf2\xf1", Error::UnimplementedTypeKind(0xf1f2);
    "a field without a record", b"\x03\x12\x0e\x00\x00\x00", Error::UnimplementedTypeKind(0x000e);
    "a cut name of a field", b"\x03\x12\x02\x15\x03\x00\x05\x00A", END;
    "cut padding behind a field", b"\x03\x12\x02\x15\x03\x00\x05\x00A\x00\xf3\xf2", END;
    "a byte behind a field", b"\x03\x12\x02\x15\x03\x00\x05\x00A\x00\x41", END;
    "a byte behind padding", b"\x03\x12\x02\x15\x03\x00\x05\x00A\x00\xf1\x41", END;
    "a field with a bad prefix", b"\x03\x12\x02\x15\x03\x00\x05\x80A\x00", PREFIX;
    "a field that is a pointer of mode 5", b"\x03\x12\x02\x10\x74\x00\x00\x00\xac\x00\x00\x00", POINTER;
    "a byte behind the array of a list of fields", b"\x03\x12\x03\x15\x77\x13\x00\x00\x23\x00\x00\x00\x40\x00\x00\xf1\x41", END;
    "a cut continuation", b"\x03\x12\x04\x14\x00\x00\x34\x12\x00", END;
    "a continuation without its two bytes of padding", b"\x03\x12\x04\x14\x34\x12\x00\x00", END;
    "a continuation outside a list", b"\x04\x14\x34\x12\x00\x00", Error::UnimplementedTypeKind(0x1404);
    "a member with a bad prefix", b"\x0d\x15\x02\x01\x1d\x10\x00\x00\x05\x80", PREFIX;
    "a member with a prefix of numbers that have a sign", b"\x0d\x15\x02\x01\x1d\x10\x00\x00\x01\x80\x00\x00A\x00",
        Error::UnexpectedNumericPrefix(0x8001);
    "a class with a bad prefix", b"\x04\x15\x00\x00\x00\x00\x00\x00\x00\x00\x00\x00\x00\x00\x00\x00\x00\x00\x05\x80", PREFIX;
    "a structure without its last byte",
        b"\x09\x16\x00\x02\x00\x00\x16\x10\x00\x00\x00\x00\x00\x00\x00\x00\x00\x00\x02\x00\x06\x00H_size\x00.?AUH_size@@", END;
    "a shape of three functions in one byte", b"\x0a\x00\x03\x00\x55", END;
    "a shape of three functions in one byte, as a field", b"\x03\x12\x0a\x00\x03\x00\x55", END;
    "a label", b"\x0e\x00\x00\x00", Error::UnimplementedTypeKind(0x000e);
    "a table of virtual functions", b"\x1d\x15", Error::UnimplementedTypeKind(0x151d);
    "an id in the table of types", b"\x01\x16\x00\x00\x00\x00\x02\x10\x00\x00f\x00", Error::UnimplementedTypeKind(0x1601);
};

/// Whether the type of a record has this error, in a table whose one item it is.
fn is_refused(rt: &impl Abort, alloc: Global, record: &[u8], want: &Error) -> bool {
    let table = types_of(rt, alloc, record);
    is_read(rt, alloc, &table, Err(want))
}

#[test]
fn refused_types(rt: HostRuntime) {
    for (name, record, want) in REFUSED {
        assert!(rt; is_refused(&rt, rt.alloc(), record, want), "{name}");
    }
}
