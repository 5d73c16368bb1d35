//! Records of ids. Each field has a value of its own, so that one read in the place of another
//! shows.

use super::read::{Wanted, is_cut, is_same, is_wanted, join_bytes, stream_with};
use pdb_base::{Error, IdIndex, RawString, TypeIndex};
use pdb_records::parse_id_data;
use pdb_space::StringRef;
use pdb_tpi::IdInformation;
use pdb_values::{
    BuildInfoId, FunctionId, IdData, MemberFunctionId, StringId, StringListId,
    UserDefinedTypeSourceFileRef, UserDefinedTypeSourceId,
};
use std::alloc::Global;
use std::process::Abort;

/// What a record says.
enum Said {
    /// A function: its scope, its type and its name.
    Function(Option<IdIndex>, u32, &'static str),
    /// A method: its class, its type and its name.
    Method(u32, u32, &'static str),
    /// The text `a` with first parts.
    Text(Option<IdIndex>),
    /// Where the type 0x1000 is declared: the id of the file, and the line.
    Local(u32, u32),
    /// Where the type 0x1000 is declared: a module, the offset of the file's name in it, and the
    /// line.
    Remote(u16, u32, u32),
    /// What a module was built with.
    BuildInfo(&'static [IdIndex]),
    /// The parts of a text.
    Parts(&'static [TypeIndex]),
}

/// The bytes of a record, and what they say.
const ROWS: &[(&[u8], Said)] = rows! {
    // Functions, in a scope and in none, and a method.
    b"\x01\x16\x00\x00\x00\x00\x02\x10\x00\x00f\x00", Said::Function(None, 0x1002, "f");
    b"\x01\x16\x03\x10\x00\x00\x04\x10\x00\x00name\x00", Said::Function(Some(IdIndex(0x1003)), 0x1004, "name");
    b"\x01\x16\xff\xff\x00\x00\x04\x10\x00\x00\x00", Said::Function(Some(IdIndex(0xffff)), 0x1004, "");
    b"\x02\x16\x06\x10\x00\x00\x07\x10\x00\x00name\x00", Said::Method(0x1006, 0x1007, "name");
    // The text `a`, with first parts and without.
    b"\x05\x16\x00\x00\x00\x00\x61\x00", Said::Text(None);
    b"\x05\x16\x08\x10\x00\x00\x61\x00", Said::Text(Some(IdIndex(0x1008)));
    b"\x05\x16\xff\xff\x00\x00\x61\x00", Said::Text(Some(IdIndex(0xffff)));
    // Where a type is declared. The last is in line 0x0102_0304 of a file of module 0xfeff.
    b"\x06\x16\x00\x10\x00\x00\x05\x10\x00\x00\x2a\x00\x00\x00", Said::Local(0x1005, 42);
    b"\x07\x16\x00\x10\x00\x00\x05\x10\x00\x00\x2a\x00\x00\x00\x03\x00", Said::Remote(3, 0x1005, 42);
    b"\x07\x16\x00\x10\x00\x00\x0d\x0c\x0b\x0a\x04\x03\x02\x01\xff\xfe", Said::Remote(0xfeff, 0xa0b0c0d, 0x1020304);
    // What a module was built with.
    b"\x03\x16\x00\x00", Said::BuildInfo(&[]);
    b"\x03\x16\x02\x00\x01\x10\x00\x00\x02\x10\x00\x00", Said::BuildInfo(&[IdIndex(0x1001), IdIndex(0x1002)]);
    // The parts of a text.
    b"\x04\x16\x00\x00\x00\x00", Said::Parts(&[]);
    b"\x04\x16\x01\x00\x00\x00\x02\x10\x00\x00", Said::Parts(&[TypeIndex(0x1002)]);
    b"\x04\x16\x02\x00\x00\x00\x09\x10\x00\x00\x0a\x10\x00\x00", Said::Parts(&[TypeIndex(0x1009), TypeIndex(0x100a)]);
};

/// Where the type 0x1000 is declared.
fn source_id(source_file: UserDefinedTypeSourceFileRef, line: u32) -> IdData<'static> {
    let udt = TypeIndex(0x1000);
    IdData::UserDefinedTypeSource(UserDefinedTypeSourceId {
        udt,
        source_file,
        line,
    })
}

/// What a record without a list of ids says.
fn plain_id(said: &Said) -> IdData<'static> {
    match said {
        Said::Function(scope, function_type, name) => IdData::Function(FunctionId {
            scope: *scope,
            function_type: TypeIndex(*function_type),
            name: RawString::from(*name),
        }),
        Said::Method(parent, function_type, name) => IdData::MemberFunction(MemberFunctionId {
            parent: TypeIndex(*parent),
            function_type: TypeIndex(*function_type),
            name: RawString::from(*name),
        }),
        Said::Local(file, line) => {
            source_id(UserDefinedTypeSourceFileRef::Local(IdIndex(*file)), *line)
        }
        Said::Remote(module, name, line) => {
            source_id(
                UserDefinedTypeSourceFileRef::Remote(*module, StringRef(*name)),
                *line,
            )
        }
        Said::Text(substrings) => text_id(*substrings),
        _ => text_id(None),
    }
}

/// The text `a`.
fn text_id(substrings: Option<IdIndex>) -> IdData<'static> {
    let name = RawString::from("a");
    IdData::String(StringId { substrings, name })
}

/// What a record says.
fn expected_id(rt: &impl Abort, alloc: Global, said: &Said) -> IdData<'static> {
    match said {
        Said::BuildInfo(arguments) => IdData::BuildInfo(BuildInfoId {
            arguments: Vec::from_slice(alloc, arguments).expect(rt, "memory"),
        }),
        Said::Parts(substrings) => IdData::StringList(StringListId {
            substrings: Vec::from_slice(alloc, substrings).expect(rt, "memory"),
        }),
        _ => plain_id(said),
    }
}

/// Whether the id of a record is what is wanted, in a table whose one item is the record.
fn is_read(rt: &impl Abort, alloc: Global, record: &[u8], want: Wanted<'_, IdData<'_>>) -> bool {
    let table = IdInformation::parse(stream_with(rt, alloc, record)).expect(rt, "a table");
    let finder = table.finder(alloc).expect(rt, "a finder");
    let item = finder.find(IdIndex(0x1000)).expect(rt, "an item");
    is_wanted(item.parse(alloc), want)
}

/// Whether each proper prefix of a record ends too soon.
fn ends_soon(alloc: Global, record: &[u8]) -> bool {
    for length in 0..record.len() {
        if !is_cut(parse_id_data(alloc, &record[..length])) {
            return false;
        }
    }
    true
}

/// Whether a copy of an id's list is equal, where it has one.
fn is_list_copied(alloc: Global, data: &IdData<'_>) -> bool {
    match data {
        IdData::BuildInfo(list) => is_same(list.clone(alloc), list),
        IdData::StringList(list) => is_same(list.clone(alloc), list),
        _ => true,
    }
}

/// Whether a copy of an id is equal, and a copy of its list.
fn is_copied(alloc: Global, data: &IdData<'_>) -> bool {
    is_same(data.clone(alloc), data) && is_list_copied(alloc, data)
}

/// Whether a record that is in no table says what is wanted, and does so again, and a copy is
/// equal.
fn is_parsed(rt: &impl Abort, alloc: Global, record: &[u8], want: &IdData<'_>) -> bool {
    let data = parse_id_data(alloc, record).expect(rt, "an id");
    data == *want && is_same(parse_id_data(alloc, record), &data) && is_copied(alloc, &data)
}

/// Whether a record says this with padding behind it too, and with another byte behind that, and
/// each proper prefix of it ends too soon.
fn is_told(rt: &impl Abort, alloc: Global, record: &[u8], want: &IdData<'_>) -> bool {
    is_read(rt, alloc, record, Ok(want))
        && is_read(
            rt,
            alloc,
            &join_bytes(rt, alloc, record, b"\xf2\xf1"),
            Ok(want),
        )
        && is_read(
            rt,
            alloc,
            &join_bytes(rt, alloc, record, b"\xf2\xf1\x41"),
            Ok(want),
        )
        && ends_soon(alloc, record)
}

/// Whether a record says what its case has, and what it says is copied.
fn is_row(rt: &impl Abort, alloc: Global, record: &[u8], said: &Said) -> bool {
    let want = expected_id(rt, alloc, said);
    is_told(rt, alloc, record, &want) && is_parsed(rt, alloc, record, &want)
}

#[test]
fn id_records(rt: HostRuntime) {
    for (record, want) in ROWS {
        assert!(rt; is_row(&rt, rt.alloc(), record, want), "{record:?}");
    }
}

/// What is wrong with a record, its bytes, and the error.
const REFUSED: &[(&str, &[u8], Error)] = rows! {
    "a count of three before two", b"\x03\x16\x03\x00\x01\x10\x00\x00\x02\x10\x00\x00", Error::UnexpectedEof;
    "a false count of ids", b"\x03\x16\xff\xff\x01\x10\x00\x00", Error::UnexpectedEof;
    "a false count of parts", b"\x04\x16\xff\xff\xff\xff", Error::UnexpectedEof;
    "a count of parts whose bytes are 2^32", b"\x04\x16\x00\x00\x00\x40\x02\x10\x00\x00", Error::UnexpectedEof;
    "a module without its high byte", b"\x07\x16\x00\x10\x00\x00\x05\x10\x00\x00\x2a\x00\x00\x00\x03", Error::UnexpectedEof;
    "a leaf above", b"\x08\x16", Error::UnimplementedTypeKind(0x1608);
    "a leaf below", b"\x00\x16", Error::UnimplementedTypeKind(0x1600);
    "a type in the table of ids", b"\x01\x10\x74\x00\x00\x00\x05\x00", Error::UnimplementedTypeKind(0x1001);
    "a struct in the table of ids", b"\x09\x16\x00\x02\x00\x00", Error::UnimplementedTypeKind(0x1609);
};

#[test]
fn refused_ids(rt: HostRuntime) {
    for (name, record, want) in REFUSED {
        assert!(rt; is_read(&rt, rt.alloc(), record, Err(want)), "{name}");
    }
}
