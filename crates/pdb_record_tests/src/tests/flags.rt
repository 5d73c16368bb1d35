//! Examples of words whose bits say something each. The contract of each test of a word names its
//! bits.

use pdb_flags::{
    FieldAttributes, FunctionAttributes, PointerAttributes, PointerKind, PointerMode,
    TypeProperties,
};

/// Words of properties: whether the type is intrinsic, and its kinds of aggregates of floats and of
/// types of the component model.
const PROPERTIES: &[(u16, bool, u8, u8)] = rows! {
    0x2000, true, 0, 0;
    0x1000, false, 2, 0;
    0x0800, false, 1, 0;
    0xc000, false, 0, 3;
    0x8000, false, 0, 2;
    0x0200, false, 0, 0;
};

/// Words of fields: the access; and whether a method is virtual, static, pure virtual, and one that
/// introduces its place.
const FIELDS: &[(u16, u8, [bool; 4])] = rows! {
    0x0003, 3, [false, false, false, false];
    0x0007, 3, [true, false, false, false];
    0x0008, 0, [false, true, false, false];
    0x000c, 0, [false, false, false, false];
    0x0011, 1, [false, false, false, true];
    0x0016, 2, [false, false, true, false];
    0xffe0, 0, [false, false, false, false];
    0x0018, 0, [false, false, false, true];
    0x001c, 0, [false, false, false, false];
};

/// Words of functions: the calling convention; and whether a function returns a class of C++, is a
/// constructor, and is one with virtual base classes.
const FUNCTIONS: &[(u16, u8, [bool; 3])] = rows! {
    0x000b, 11, [false, false, false];
    0x01ff, 255, [true, false, false];
    0x0200, 0, [false, true, false];
    0x0407, 7, [false, false, true];
    0xf800, 0, [false, false, false];
};

/// Words of pointers that are none.
const REFUSED: &[u32] = &[0x0d, 0x1f, 0xac, 0xec, 0xffff_ffff];

/// Words of pointers: the kind, the mode, whether bit 19 marks it, and the size.
const POINTERS: &[(u32, PointerKind, PointerMode, bool, u8)] = rows! {
    0, PointerKind::Near16, PointerMode::Pointer, false, 0;
    1, PointerKind::Far16, PointerMode::Pointer, false, 0;
    2, PointerKind::Huge16, PointerMode::Pointer, false, 0;
    3, PointerKind::BaseSeg, PointerMode::Pointer, false, 0;
    4, PointerKind::BaseVal, PointerMode::Pointer, false, 0;
    5, PointerKind::BaseSegVal, PointerMode::Pointer, false, 0;
    6, PointerKind::BaseAddr, PointerMode::Pointer, false, 0;
    7, PointerKind::BaseSegAddr, PointerMode::Pointer, false, 0;
    8, PointerKind::BaseType, PointerMode::Pointer, false, 0;
    9, PointerKind::BaseSelf, PointerMode::Pointer, false, 0;
    10, PointerKind::Near32, PointerMode::Pointer, false, 4;
    11, PointerKind::Far32, PointerMode::Pointer, false, 4;
    12, PointerKind::Ptr64, PointerMode::Pointer, false, 8;
    0x2c, PointerKind::Ptr64, PointerMode::LValueReference, false, 8;
    0x4c, PointerKind::Ptr64, PointerMode::Member, false, 8;
    0x6c, PointerKind::Ptr64, PointerMode::MemberFunction, false, 8;
    0x8c, PointerKind::Ptr64, PointerMode::RValueReference, false, 8;
    0x0008_000c, PointerKind::Ptr64, PointerMode::Pointer, true, 8;
    0x0004_000c, PointerKind::Ptr64, PointerMode::Pointer, false, 32;
    0x0001_000c, PointerKind::Ptr64, PointerMode::Pointer, false, 8;
    0x0000_800a, PointerKind::Near32, PointerMode::Pointer, false, 4;
    0x0007_e000, PointerKind::Near16, PointerMode::Pointer, false, 63;
};

/// What the tests of a field's word say of its method.
fn method_of(word: FieldAttributes) -> [bool; 4] {
    [
        word.is_virtual(),
        word.is_static(),
        word.is_pure_virtual(),
        word.is_intro_virtual(),
    ]
}

/// What the tests of a function's word say.
fn marks_of(word: FunctionAttributes) -> [bool; 3] {
    [
        word.cxx_return_udt(),
        word.is_constructor(),
        word.is_constructor_with_virtual_bases(),
    ]
}

/// Whether a pointer's word says this, is one to a member or a reference by its mode, and keeps its
/// bits.
fn points(bits: u32, kind: PointerKind, mode: PointerMode, mocom: bool, size: u8) -> bool {
    let Some(word) = PointerAttributes::new(bits) else {
        return false;
    };
    let is_to_member = matches!(mode, PointerMode::Member | PointerMode::MemberFunction);
    (word.pointer_kind(), word.pointer_mode(), word.is_mocom()) == (kind, mode, mocom)
        && (word.size(), word.bits()) == (size, bits)
        && word.pointer_to_member() == is_to_member
        && word.is_reference() == (!is_to_member && mode != PointerMode::Pointer)
}

#[test]
fn words(rt: HostRuntime) {
    for (bits, intrinsic, hfa, mocom) in PROPERTIES {
        let word = TypeProperties::new(*bits);
        let found = (word.intrinsic_type(), word.hfa(), word.mocom());
        let is_well = found == (*intrinsic, *hfa, *mocom) && word.bits() == *bits;
        assert!(rt; is_well, "{bits:x}");
    }
    for (bits, access, method) in FIELDS {
        let word = FieldAttributes::new(*bits);
        let is_well = (word.access(), method_of(word)) == (*access, *method);
        assert!(rt; is_well, "{bits:x}");
    }
    for (bits, convention, marks) in FUNCTIONS {
        let word = FunctionAttributes::new(*bits);
        let is_well = (word.calling_convention(), marks_of(word)) == (*convention, *marks);
        assert!(rt; is_well, "{bits:x}");
    }
    for (bits, kind, mode, mocom, size) in POINTERS {
        assert!(rt; points(*bits, *kind, *mode, *mocom, *size), "{bits:x}");
    }
    for bits in REFUSED {
        assert!(rt; PointerAttributes::new(*bits).is_none(), "{bits:x}");
    }
}
