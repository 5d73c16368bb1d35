//! Types of a small table. The bytes and the answers are written by hand, from the records of
//! Microsoft's cvinfo.h.

use pdb_base::TypeIndex;
use pdb_fixtures::{stream_of, table_of};
use pdb_tpi::{OpenTable, TypeInformation};
use pdb_types::{
    Comparison, DeclarationOrder, Definitions, Gap, GapKind, Layout, LayoutField, Span, compare,
};
use std::alloc::Global;
use std::process::Abort;

/// The records of a table of types, from index 0x1000 on.
const TABLE: &[&[u8]] = &[
    // 0x1000: a forward reference to `S`, unique name `.?AUS@@`
    b"\x05\x15\0\0\x80\x02\0\0\0\0\0\0\0\0\0\0\0\0\0\0S\0.?AUS@@\0",
    b"\x01\x10\0\x10\0\0\x01\0", // 0x1001: `const S`
    b"\x03\x15\x01\x10\0\0#\0\0\0`\0\0", // 0x1002: an array of it of 96 bytes
    b"\x07\x15\0\0\0\0t\0\0\0\0\0\0\0E\0", // 0x1003: an enumeration over `int`
    b"\x05\x12\x03\x10\0\0\x03\x05", // 0x1004: three bits of it
    b"\x02\x10\0\x10\0\0\x0c\0\x01\0", // 0x1005: a pointer of 64 bits to `S`
    b"\x05\x15\0\0\0\x02\0\0\0\0\0\0\0\0\0\0\0\0\x18\0S\0.?AUS@@\0", // 0x1006: the definition of `S`, of 24 bytes
    b"\x06\x15\0\0\x80\0\0\0\0\0\0\0V\0", // 0x1007: a forward reference to the union `V` of C
    b"\x06\x15\0\0\0\0\0\0\0\0(\0V\0", // 0x1008: its definition, of 40 bytes
    b"\x05\x15\0\0\x80\0\0\0\0\0\0\0\0\0\0\0\0\0\0\0N\0", // 0x1009: a forward reference that nothing defines
    b"\x08\x10\x03\0\0\0\0\0\0\0\0\0\0\0", // 0x100a: a function
    b"\x05\x15\0\0\0\x02\0\0\0\0\0\0\0\0\0\0\0\0\x07\0S\0.?AUS@other@@\0", // 0x100b: another `S`, of 7 bytes
    b"\x01\x10\x0c\x10\0\0\x01\0", // 0x100c: a modifier of itself
    b"\x0e\0\0\0", // 0x100d: LF_LABEL, which no record kind here is
];

/// The records of a table of classes.
const CLASSES: &[&[u8]] = &[
    b"\x02\x10t\0\0\0\x0c\0\x01\0", // 0x1000: a pointer of 64 bits to `int`
    b"\x05\x12u\0\0\0\x03\0", // 0x1001: three bits of an `unsigned int`
    b"\x05\x12u\0\0\0\x0c\x03", // 0x1002: twelve bits of it, from the fourth on
    b"\x03\x12\x0d\x15\x03\0t\0\0\0\0\0b\0", // 0x1003: the fields of `B`: `b`
    b"\x05\x15\x01\0\0\0\x03\x10\0\0\0\0\0\0\0\0\0\0\x04\0B\0", // 0x1004: `B`, of 4 bytes
    // 0x1005: the fields of `D`: a pointer to a table of virtual functions, a base class, a virtual
    // base class, `c`, `d`, `lo`, `hi`, `static s`
    b"\x03\x12\x09\x14\0\0\0\x10\0\0\0\x14\x03\0\x04\x10\0\0\x08\0\xf2\xf1\x01\x14\x03\0\x04\x10\0\0\0\x10\0\0\x10\0\x01\0\x0d\x15\x03\0p\0\0\0\x18\0c\0\x0d\x15\x03\0A\0\0\0 \0d\0\x0d\x15\x03\0\x01\x10\0\0(\0lo\0\xf3\xf2\xf1\x0d\x15\x03\0\x02\x10\0\0(\0hi\0\xf3\xf2\xf1\x0e\x15\x03\0t\0\0\0s\0\xf2\xf1",
    b"\x05\x15\x08\0\0\0\x05\x10\0\0\0\0\0\0\0\0\0\08\0D\0", // 0x1006: `D`, of 56 bytes
    // 0x1007: the fields of `H`: itself at the greatest offset, and `void`: `h`, `v`
    b"\x03\x12\x0d\x15\x03\0\x08\x10\0\0\x0a\x80\xff\xff\xff\xff\xff\xff\xff\xffh\0\x0d\x15\x03\0\x03\0\0\0\x01\0v\0",
    b"\x05\x15\x02\0\0\0\x07\x10\0\0\0\0\0\0\0\0\0\0\x03\0H\0", // 0x1008: `H`, of 3 bytes
    // 0x1009: the fields of `U`: `i`, `c`, `x`
    b"\x03\x12\x0d\x15\x03\0t\0\0\0\0\0i\0\x0d\x15\x03\0p\0\0\0\0\0c\0\x0d\x15\x03\0\x02\x10\0\0\x04\0x\0",
    b"\x06\x15\x03\0\0\0\x09\x10\0\0\x08\0U\0", // 0x100a: the union `U`, of 8 bytes
    b"\x05\x15\0\0\x80\0\0\0\0\0\0\0\0\0\0\0\0\0\0\0D\0", // 0x100b: a forward reference to `D`
    b"\x04\x15\0\0\0\0\0\0\0\0\0\0\0\0\0\0\0\0\x01\0E\0", // 0x100c: a class without a list of fields, of 1 byte
];

/// The records of a table of classes `B`, which are compared with the one above.
const OTHERS: &[&[u8]] = &[
    b"\x03\x12\x0d\x15\x03\0t\0\0\0\0\0b\0", // 0x1000: the fields of the same `B`: `b`
    b"\x05\x15\x01\0\0\0\0\x10\0\0\0\0\0\0\0\0\0\0\x04\0B\0", // 0x1001: it, of 4 bytes
    b"\x03\x12\x0d\x15\x03\0u\0\0\0\0\0b\0", // 0x1002: the fields of one with an `unsigned int b`
    b"\x05\x15\x01\0\0\0\x02\x10\0\0\0\0\0\0\0\0\0\0\x04\0B\0", // 0x1003: it, of 4 bytes
    b"\x03\x12\x0d\x15\x03\0t\0\0\0\0\0c\0", // 0x1004: the fields of one whose field is `c`
    b"\x05\x15\x01\0\0\0\x04\x10\0\0\0\0\0\0\0\0\0\0\x04\0B\0", // 0x1005: it, of 4 bytes
    b"\x03\x12\x0d\x15\x03\0t\0\0\0\x04\0b\0", // 0x1006: the fields of one in which `b` has moved
    b"\x05\x15\x01\0\0\0\x06\x10\0\0\0\0\0\0\0\0\0\0\x08\0B\0", // 0x1007: it, of 8 bytes
    b"\x05\x15\x01\0\0\0\0\x10\0\0\0\0\0\0\0\0\0\0\x08\0B\0", // 0x1008: one of 8 bytes
];

/// A class of `OTHERS`, and what `B` of `CLASSES` has in common with it.
const COMPARED: &[(u32, Comparison)] = &[
    (0x1001, Comparison::Equal),
    (0x1003, Comparison::TypesDiffer),
    (0x1005, Comparison::LayoutDiffers),
    (0x1007, Comparison::LayoutDiffers),
    (0x1008, Comparison::LayoutDiffers),
];

/// The records of a table of types with texts.
const DECLARATIONS: &[&[u8]] = &[
    b"\x01\x10p\0\0\0\x01\0", // 0x1000: `const char`
    b"\x02\x10\0\x10\0\0\x0c\0\x01\0", // 0x1001: a pointer of 64 bits to it
    b"\x01\x12\x02\0\0\0\x01\x10\0\0t\0\0\0", // 0x1002: arguments of these types: the pointer, and `int`
    b"\x08\x10t\0\0\0\0\0\x02\0\x02\x10\0\0", // 0x1003: a function with these arguments that returns an `int`
    b"\x02\x10\x03\x10\0\0\x0c\0\x01\0", // 0x1004: a pointer to it
    b"\x03\x15t\0\0\0#\0\0\0\x10\0\0", // 0x1005: an array of four `int`
    b"\x03\x15\x05\x10\0\0#\0\0\00\0\0", // 0x1006: an array of three of them
    b"\x05\x15\0\0\x80\0\0\0\0\0\0\0\0\0\0\0\0\0\0\0S\0", // 0x1007: a forward reference to `S`
    b"\x01\x12\x01\0\0\0t\0\0\0", // 0x1008: an argument: `int`
    // 0x1009: a method of `S` with this argument that returns a `bool`
    b"\x09\x100\0\0\0\x07\x10\0\0\0\0\0\0\0\0\x01\0\x08\x10\0\0\0\0\0\0",
    b"\x02\x10\x09\x10\0\0l\0\x01\0\x07\x10\0\0\x05\0", // 0x100a: a pointer to it
    b"\x02\x10\x07\x10\0\0,\0\x01\0", // 0x100b: a reference to `S`
    b"\x05\x12u\0\0\0\x03\0", // 0x100c: three bits of an `unsigned int`
    b"\x02\x10\x07\x10\0\0\x0c\x04\x01\0", // 0x100d: a pointer to `S` that is `const`
    b"\x01\x10\x07\x10\0\0\x03\0", // 0x100e: `const volatile S`
    b"\x01\x12\x01\0\0\0\x0d\x10\0\0", // 0x100f: an argument: that pointer
    b"\x08\x10\x03\0\0\0\0\0\x01\0\x0f\x10\0\0", // 0x1010: a function with this argument
    b"\x01\x10\x11\x10\0\0\x01\0", // 0x1011: a modifier of itself
    b"\x01\x12\x01\0\0\0\x13\x10\0\0", // 0x1012: an argument: a function with this argument
    b"\x08\x10\x03\0\0\0\0\0\x01\0\x12\x10\0\0", // 0x1013: a function with this argument
];

/// Indexes, names, and what declares a name with that type.
const TEXTS: &[(u32, &str, &str)] = &[
    (0x0074, "n", "int n"),
    (0x0075, "", "unsigned int"),
    (0x0670, "p", "char *p"),
    (0x1001, "", "const char *"),
    (0x1003, "f", "int f(const char *, int)"),
    (0x1004, "f", "int (*f)(const char *, int)"),
    (0x1006, "a", "int a[3][4]"),
    (0x1007, "", "S"),
    (0x100a, "p", "bool (S::*p)(int)"),
    (0x100b, "r", "S &r"),
    (0x100c, "b", "unsigned int b : 3"),
    (0x100d, "p", "S *const p"),
    (0x100e, "s", "const volatile S s"),
    (0x1010, "f", "void f(S *const)"),
    (0x1002, "x", "<no type> x"),
    (0x1011, "x", "const .. x.."),
];

/// Indexes, the sizes of their types, and the indexes of their definitions.
const TYPES: &[(u32, Option<u64>, Option<u32>)] = &[
    (0x0003, None, None),
    (0x0074, Some(4), None),
    (0x0603, Some(8), None),
    (0x0100, Some(2), None),
    (0x0042, Some(10), None),
    (0x1000, Some(24), Some(0x1006)),
    (0x1001, Some(24), None),
    (0x1002, Some(96), None),
    (0x1003, Some(4), Some(0x1003)),
    (0x1004, Some(4), None),
    (0x1005, Some(8), None),
    (0x1006, Some(24), Some(0x1006)),
    (0x1007, Some(40), Some(0x1008)),
    (0x1008, Some(40), Some(0x1008)),
    (0x1009, None, None),
    (0x100a, None, None),
    (0x100b, Some(7), Some(0x100b)),
    (0x100c, None, None),
];

/// Opens the table of these records.
fn open_table(rt: &impl Abort, alloc: Global, records: &[&[u8]]) -> OpenTable<TypeIndex> {
    let bytes = table_of(alloc, records).expect(rt, "memory");
    let stream = stream_of(bytes).expect(rt, "a short table");
    let table = TypeInformation::parse(stream).expect(rt, "a table");
    let mut types = OpenTable::new(alloc, table).expect(rt, "an open table");
    types.learn(TypeIndex(0x1013));
    types
}

/// Returns the definitions of a table.
fn definitions_in<'t>(
    rt: &impl Abort,
    alloc: Global,
    types: &'t OpenTable<TypeIndex>,
) -> Definitions<'t> {
    Definitions::new(alloc, types).expect(rt, "memory")
}

/// Whether a type has this size.
fn has_size(alloc: Global, definitions: &Definitions<'_>, index: u32, size: Option<u64>) -> bool {
    matches!(definitions.size_of(alloc, TypeIndex(index)), Ok(found) if found == size)
}

/// Whether a type has this definition.
fn has_definition(
    alloc: Global,
    definitions: &Definitions<'_>,
    index: u32,
    definition: Option<u32>,
) -> bool {
    let found = definitions.definition_of(alloc, TypeIndex(index));
    matches!(found, Ok(found) if found.map(u32::from) == definition)
}

/// Whether these are the indexes of the definitions of a name.
fn are_indexes(
    alloc: Global,
    definitions: &Definitions<'_>,
    name: &[u8],
    indexes: &[TypeIndex],
) -> bool {
    let found = definitions.all_definitions(alloc, name);
    matches!(found, Ok(found) if found.as_slice() == indexes)
}

#[test]
fn sizes_and_definitions(rt: HostRuntime) {
    let alloc = rt.alloc();
    let types = open_table(&rt, alloc, TABLE);
    let definitions = definitions_in(&rt, alloc, &types);
    for (index, size, definition) in TYPES {
        assert!(rt;
            has_size(alloc, &definitions, *index, *size)
                && has_definition(alloc, &definitions, *index, *definition),
            "{index:#x}"
        );
    }
    assert!(rt; definitions.size_of(alloc, TypeIndex(0x100d)).is_err());
    let both = [TypeIndex(0x1006), TypeIndex(0x100b)];
    assert!(rt; are_indexes(alloc, &definitions, b"S", &both));
    assert!(rt; are_indexes(alloc, &definitions, b".?AUS@@", &[]));
}

/// The index of a class, its size, the bits of its fields, and its gaps.
type Laid = (
    u32,
    u64,
    &'static [(u128, u128)],
    &'static [(GapKind, u128, u128)],
);

/// The fields of `D`, and its gaps.
const FIELDS_OF_D: &[(u128, u128)] = &[
    (0, 64),
    (64, 96),
    (128, 192),
    (192, 200),
    (256, 320),
    (320, 323),
    (323, 335),
];

const GAPS_OF_D: &[(GapKind, u128, u128)] = rows! {
    GapKind::Hole, 96, 128;
    GapKind::Hole, 200, 256;
    GapKind::VirtualBases, 336, 448;
    GapKind::UnusedBits, 335, 336;
};

/// Where a field begins that ends beyond 2^64 bytes.
const FAR: u128 = 0x7_ffff_ffff_ffff_fff8;

const LAID_OUT: &[Laid] = rows! {
    0x1006, 56, FIELDS_OF_D, GAPS_OF_D;
    0x100b, 56, FIELDS_OF_D, GAPS_OF_D;
    0x100a, 8, &[(0, 32), (0, 8), (35, 47)],
        &[(GapKind::Hole, 48, 64), (GapKind::UnusedBits, 32, 35), (GapKind::UnusedBits, 47, 48)];
    0x100c, 1, &[], &[(GapKind::Hole, 0, 8)];
    0x1008, 3, &[(FAR, FAR + 24), (8, 8)], &[(GapKind::Hole, 0, 24)];
};

/// Whether these are the bits of some fields, in order.
fn are_bits(fields: &[LayoutField<'_>], bits: &[(u128, u128)]) -> bool {
    for (field, (start, end)) in fields.iter().zip(bits) {
        let Span {
            start: from,
            end: to,
        } = field.bits();
        if (from, to) != (*start, *end) {
            return false;
        }
    }
    fields.len() == bits.len()
}

/// Whether these are some gaps, in order.
fn are_gaps(gaps: &[Gap], wanted: &[(GapKind, u128, u128)]) -> bool {
    for (gap, (kind, start, end)) in gaps.iter().zip(wanted) {
        if gap.kind != *kind || (gap.bits.start, gap.bits.end) != (*start, *end) {
            return false;
        }
    }
    gaps.len() == wanted.len()
}

/// Whether a layout is that of a case.
fn is_laid_out(layout: &Layout<'_>, row: &Laid) -> bool {
    let (_, size, fields, gaps) = row;
    layout.size == *size && are_bits(&layout.fields, fields) && are_gaps(&layout.gaps, gaps)
}

/// Whether a class has the layout of a case.
fn has_layout(alloc: Global, definitions: &Definitions<'_>, row: &Laid) -> bool {
    let found = definitions.layout_of(alloc, TypeIndex(row.0));
    matches!(found, Ok(Some(layout)) if is_laid_out(&layout, row))
}

/// Whether a type has no layout.
fn has_no_layout(alloc: Global, definitions: &Definitions<'_>, index: u32) -> bool {
    matches!(definitions.layout_of(alloc, TypeIndex(index)), Ok(None))
}

#[test]
fn layouts(rt: HostRuntime) {
    let types = open_table(&rt, rt.alloc(), CLASSES);
    let definitions = definitions_in(&rt, rt.alloc(), &types);
    for row in LAID_OUT {
        assert!(rt; has_layout(rt.alloc(), &definitions, row), "{:#x}", row.0);
    }
    for index in [0x1002, 0x0074] {
        let is_well = has_no_layout(rt.alloc(), &definitions, index);
        assert!(rt; is_well, "{index:#x}");
    }
}

/// Returns an order, and whether it is a cycle in place of one.
fn in_order(order: DeclarationOrder) -> (Vec<TypeIndex>, bool) {
    match order {
        DeclarationOrder::Ordered(types) => (types, false),
        DeclarationOrder::Cycle(types) => (types, true),
    }
}

/// Whether what these need is in this order, or is this cycle.
fn is_ordered(
    alloc: Global,
    definitions: &Definitions<'_>,
    roots: &[TypeIndex],
    wanted: (&[TypeIndex], bool),
) -> bool {
    match definitions.declaration_order(alloc, roots) {
        Ok(order) => {
            let (types, is_cycle) = in_order(order);
            types.as_slice() == wanted.0 && is_cycle == wanted.1
        }
        Err(_) => false,
    }
}

#[test]
fn orders(rt: HostRuntime) {
    let types = open_table(&rt, rt.alloc(), CLASSES);
    let definitions = definitions_in(&rt, rt.alloc(), &types);
    let (base, derived) = (TypeIndex(0x1004), TypeIndex(0x1006));
    let itself = TypeIndex(0x1008);
    let both = (&[base, derived][..], false);
    assert!(rt; is_ordered(rt.alloc(), &definitions, &[derived, base], both));
    assert!(rt; is_ordered(rt.alloc(), &definitions, &[base], (&[base], false)));
    assert!(rt; is_ordered(rt.alloc(), &definitions, &[itself], (&[itself], true)));
}

/// Whether two definitions have this in common.
fn is_compared(
    alloc: Global,
    old: &Definitions<'_>,
    new: &Definitions<'_>,
    indexes: (u32, u32),
    comparison: Comparison,
) -> bool {
    let found = compare(alloc, old, TypeIndex(indexes.0), new, TypeIndex(indexes.1));
    matches!(found, Ok(found) if found == comparison)
}

#[test]
fn comparisons(rt: HostRuntime) {
    let types = open_table(&rt, rt.alloc(), CLASSES);
    let others = open_table(&rt, rt.alloc(), OTHERS);
    let old = definitions_in(&rt, rt.alloc(), &types);
    let new = definitions_in(&rt, rt.alloc(), &others);
    for (index, comparison) in COMPARED {
        let is_well = is_compared(rt.alloc(), &old, &new, (0x1004, *index), *comparison);
        assert!(rt; is_well, "{index:#x}");
    }
    for index in [0x1006, 0x1008, 0x100a] {
        let is_well = is_compared(rt.alloc(), &old, &old, (index, index), Comparison::Equal);
        assert!(rt; is_well, "{index:#x}");
    }
}

/// Whether a type declares a name by this text.
fn has_text(
    alloc: Global,
    definitions: &Definitions<'_>,
    index: u32,
    name: &[u8],
    text: &[u8],
) -> bool {
    let found = definitions.text_of(alloc, TypeIndex(index), name);
    matches!(found, Ok(found) if found.as_slice() == text)
}

/// Whether the text of a type without a name begins with this.
fn begins_with(alloc: Global, definitions: &Definitions<'_>, index: u32, start: &[u8]) -> bool {
    let found = definitions.text_of(alloc, TypeIndex(index), &[]);
    matches!(found, Ok(found) if found.starts_with(start))
}

#[test]
fn texts(rt: HostRuntime) {
    let types = open_table(&rt, rt.alloc(), DECLARATIONS);
    let definitions = definitions_in(&rt, rt.alloc(), &types);
    for (index, name, text) in TEXTS {
        assert!(rt;
            has_text(
                rt.alloc(),
                &definitions,
                *index,
                name.as_bytes(),
                text.as_bytes()
            ),
            "{index:#x}"
        );
    }
    assert!(rt; begins_with(rt.alloc(), &definitions, 0x1013, b"void (void (void ("));
}
