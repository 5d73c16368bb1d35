//! Failing allocations: each case passes whichever single allocation fails. A call that returns
//! `OutOfMemory` is repeated, and then has to have its expected result.

ghost use Rattle.std.specs.Prelude.{◌≡◌};
ghost use Rattle.pdb_msf.specs.Source.{in_memory};

use super::rows::{ROWS, Row};
use pdb_base::{Error, FallibleIterator, IdIndex, Result, Stream, TypeIndex, Variant};
use pdb_cli::{Outcome, act, read_all};
use pdb_container::{Query, Reply, run};
use pdb_fixtures::{
    MOVES, STREAM_1_LINES, TWO_LISTS, are_slices, item_table, items_of, pages_of, s1, s1_with,
    stream_of, with_bytes,
};
use pdb_msf::{BigMSF, Msf, ReadView, Source, SourceSlice, open_msf};
use pdb_tpi::{IdInformation, TypeFinder, TypeInformation};
use pdb_values::{FieldList, IdData, PointerType, TypeData};
use std::alloc::Global;
use std::cell::Cell;
use std::io;
use std::test::Fail;

/// Whether an open file has the expected result for a case. A call that returns `OutOfMemory` is
/// repeated once.
///
/// # Errors
/// `OutOfMemory` if an allocation fails again.
fn is_answered_again(alloc: Global, file: &mut BigMSF<Vec<u8>>, row: &Row) -> Result<bool> {
    let Row(_, number, limit, ..) = row;
    match &settled!(file.get(alloc, *number, *limit)) {
        Err(Error::OutOfMemory) => Err(Error::OutOfMemory),
        answer => Ok(row.3.fits(answer)),
    }
}

/// Opens a case's file.
fn open_case(alloc: Global, row: &Row) -> Result<BigMSF<Vec<u8>>> {
    let Row(edits, ..) = row;
    open_msf(alloc, with_bytes(s1(alloc)?, edits))
}

/// Whether a case's file has the expected result twice. The file is opened again if opening it
/// returns `OutOfMemory`.
fn is_told(alloc: Global, row: &Row) -> Result<bool> {
    let mut file = settled!(open_case(alloc, row))?;
    Ok(is_answered_again(alloc, &mut file, row)? && is_answered_again(alloc, &mut file, row)?)
}

#[test]
fn streams(rt: HostRuntime) -> std::result::Result<(), Fail> {
    for row in ROWS {
        assert!(rt;
            is_told(rt.alloc(), row)?,
            "stream {}, limit {:?}",
            row.1,
            row.2
        );
    }
    Ok(())
}

/// Pages of 4096 bytes, and the slices that they are joined into. Where a page comes again it
/// begins a slice, so that the list grows.
const PAGES: &[(&[u32], &[(u64, usize)])] = rows! {
    &[0, 1, 4, 5, 2, 2], &[(0, 8192), (16384, 8192), (8192, 4096), (8192, 4096)];
    &[7; 16], &[(28672, 4096); 16];
};

#[test]
fn pages(rt: HostRuntime) -> std::result::Result<(), Fail> {
    for (pages, slices) in PAGES {
        let list = pages_of(rt.alloc(), pages)?;
        assert!(rt; are_slices(list.source_slices(), slices), "{pages:?}");
    }
    Ok(())
}

/// The one item of a table of types.
const MODIFIER: &[u8] = b"\x0a\x00\x01\x10\x74\x00\x00\x00\x01\x00\xf2\xf1";

/// What a record says.
enum Says {
    /// A pointer of 64 bits to an `int`.
    Pointer,
    /// An array of one dimension.
    Array,
    /// One argument.
    Argument,
    /// Two values of an enumeration.
    Fields,
    /// No field, and the index of the list that continues it.
    Continued(u32),
    /// It ends too soon.
    Ended,
    /// Its kind is not read.
    Unread(u16),
}

/// A query, and its expected answer.
enum Asked {
    /// The type of one item: its length and its record, and what it says.
    Type(&'static [u8], Says),
    /// The id of one item, what a module was built with, and whether it holds the ids that it
    /// counts.
    Build(&'static [u8], bool),
    /// Nine types, by a finder.
    Nine,
    /// Streams 2, 3 and 2 of S1, by a run.
    Run,
    /// Stream 3 of S1, the words for the program, and its status, its output and the line of its
    /// error.
    Act(&'static [u8], &'static [&'static str], u8, &'static str, &'static str),
    /// The same with a table of these items, up to below a maximum, as stream 3.
    Table(&'static [u8], u32, &'static [&'static str], u8, &'static str, &'static str),
    /// An input of so many bytes, read whole.
    Input(usize),
}

/// Records of types and of ids, a table of nine and a run, each with a name.
const RECORDS: &[(&str, Asked)] = rows! {
    "a pointer", Asked::Type(b"\x0a\x00\x02\x10\x74\x00\x00\x00\x0c\x00\x01\x00", Says::Pointer);
    "a pointer of an unknown mode",
        Asked::Type(b"\x0a\x00\x02\x10\x74\x00\x00\x00\xac\x00\x00\x00", Says::Unread(0x1002));
    "an array",
        Asked::Type(b"\x12\x00\x03\x15\x77\x13\x00\x00\x23\x00\x00\x00\x02\x80\xbd\xda\x00\xf3\xf2\xf1", Says::Array);
    "an array with a byte behind",
        Asked::Type(b"\x13\x00\x03\x15\x77\x13\x00\x00\x23\x00\x00\x00\x02\x80\xbd\xda\x00\xf3\xf2\xf1\x41", Says::Ended);
    "an argument", Asked::Type(b"\x0a\x00\x01\x12\x01\x00\x00\x00\x74\x00\x00\x00", Says::Argument);
    "a false count of arguments",
        Asked::Type(b"\x0a\x00\x01\x12\xff\xff\xff\xff\x74\x00\x00\x00", Says::Ended);
    "a false count as a field",
        Asked::Type(b"\x0c\x00\x03\x12\x01\x12\xff\xff\xff\xff\x74\x00\x00\x00", Says::Ended);
    "two fields",
        Asked::Type(b"\x16\x00\x03\x12\x02\x15\x03\x00\x00\x00A\x00\x02\x15\x03\x00\x01\x80\xff\xffB\x00\xf2\xf1", Says::Fields);
    "a list as a field", Asked::Type(b"\x04\x00\x03\x12\x03\x12", Says::Unread(0x1203));
    "a continuation",
        Asked::Type(b"\x0a\x00\x03\x12\x04\x14\x00\x00\x34\x12\x00\x00", Says::Continued(0x1234));
    "two ids", Asked::Build(b"\x0c\x00\x03\x16\x02\x00\x01\x10\x00\x00\x02\x10\x00\x00", true);
    "two ids and padding",
        Asked::Build(b"\x0e\x00\x03\x16\x02\x00\x01\x10\x00\x00\x02\x10\x00\x00\xf2\xf1", true);
    "two ids of three",
        Asked::Build(b"\x0c\x00\x03\x16\x03\x00\x01\x10\x00\x00\x02\x10\x00\x00", false);
    "nine types", Asked::Nine;
    "a run", Asked::Run;
};

/// The calls of the program, each with a name.
const PROGRAMS: &[(&str, Asked)] = rows! {
    "ranges", Asked::Act(MOVES, &["ranges", "3", "0", "0x1010"], 0, "0x15d44..0x15d4c\n", "");
    "an absent stream",
        Asked::Act(b"hello", &["stream", "2"], 1, "", "The requested stream (2) is not stored in this file\n");
    "a type", Asked::Table(MODIFIER, 0x1001, &["type", "3", "0x1000"], 0, "0x1000 0x1001 -\n", "");
    "a primitive type",
        Asked::Table(MODIFIER, 0x1001, &["type", "3", "0x74"], 0, "0x74 0xffff -\n", "");
    "fields of two lists",
        Asked::Table(TWO_LISTS, 0x1002, &["fields", "3", "0x1001"], 0, "A\nB\n", "");
    "fields of a list", Asked::Table(TWO_LISTS, 0x1002, &["fields", "3", "0x1000"], 0, "B\n", "");
    "no type",
        Asked::Table(MODIFIER, 0x1001, &["type", "3", "0x1001"], 1, "", "Type 4097 not found\n");
    "no words", Asked::Act(b"hello", &[], 0, STREAM_1_LINES, "");
};

/// Inputs, each with a name.
const INPUTS: &[(&str, Asked)] = &[
    ("no input", Asked::Input(0)),
    ("a short input", Asked::Input(5)),
    ("a long input", Asked::Input(100_000)),
    ("a longer input", Asked::Input(300_000)),
];

/// Whether a pointer is one of 64 bits to an `int`.
fn is_pointer(pointer: &PointerType) -> bool {
    pointer.underlying_type == TypeIndex(0x74)
        && pointer.attributes.size() == 8
        && pointer.containing_class.is_none()
}

/// Whether a field is a value of an enumeration.
fn is_value(field: Option<&TypeData<'_>>, value: Variant, name: &[u8]) -> bool {
    matches!(field, Some(TypeData::Enumerate(it)) if it.value == value && it.name.as_bytes() == name)
}

/// Whether fields are the values A, 0, and B, -1.
fn are_fields(list: &FieldList<'_>) -> bool {
    list.fields.len() == 2
        && is_value(list.fields.first(), Variant::U16(0), b"A")
        && is_value(list.fields.get(1), Variant::I16(-1), b"B")
        && list.continuation.is_none()
}

impl Says {
    /// Whether a record says so. Nothing is allocated.
    fn fits(&self, data: &TypeData<'_>) -> bool {
        match (self, data) {
            (Says::Pointer, TypeData::Pointer(pointer)) => is_pointer(pointer),
            (Says::Array, TypeData::Array(array)) => {
                array.element_type == TypeIndex(0x1377)
                    && array.dimensions.as_slice() == [0xdabd].as_slice()
            }
            (Says::Argument, TypeData::ArgumentList(list)) => {
                list.arguments.as_slice() == [TypeIndex(0x74)].as_slice()
            }
            (Says::Fields, TypeData::FieldList(list)) => are_fields(list),
            (Says::Continued(index), TypeData::FieldList(list)) => {
                list.fields.is_empty() && list.continuation == Some(TypeIndex(*index))
            }
            _ => false,
        }
    }

    /// Whether a record has this error.
    fn is_refusal(&self, error: &Error) -> bool {
        match (self, error) {
            (Says::Ended, Error::UnexpectedEof) => true,
            (Says::Unread(kind), Error::UnimplementedTypeKind(number)) => *kind == *number,
            _ => false,
        }
    }
}

/// Whether a type was read so.
fn is_type_read(read: Result<TypeData<'_>>, says: &Says) -> Result<bool> {
    match &read {
        Ok(data) => Ok(says.fits(data)),
        Err(Error::OutOfMemory) => Err(Error::OutOfMemory),
        Err(error) => Ok(says.is_refusal(error)),
    }
}

/// Whether the first type of a table is read so.
fn is_first_type(alloc: Global, table: &TypeInformation, says: &Says) -> Result<bool> {
    match table.iter().next() {
        Ok(Some(item)) => is_type_read(item.parse(alloc), says),
        _ => Ok(false),
    }
}

/// Whether an id was read, and says what a module was built with; or whether it ends too soon.
fn is_build_read(read: Result<IdData<'_>>, is_held: bool) -> Result<bool> {
    match &read {
        Ok(IdData::BuildInfo(build)) => Ok(
            is_held && build.arguments.as_slice() == [IdIndex(0x1001), IdIndex(0x1002)].as_slice(),
        ),
        Err(Error::OutOfMemory) => Err(Error::OutOfMemory),
        Err(Error::UnexpectedEof) => Ok(!is_held),
        _ => Ok(false),
    }
}

/// Whether the first id of a table is read so.
fn is_first_id(alloc: Global, table: &IdInformation, is_held: bool) -> Result<bool> {
    match table.iter().next() {
        Ok(Some(item)) => is_build_read(item.parse(alloc), is_held),
        _ => Ok(false),
    }
}

/// Whether a finder has the kind of an index.
fn is_found(finder: &TypeFinder<'_>, index: u32, kind: u16) -> bool {
    matches!(finder.find(TypeIndex(index)), Ok(item) if item.raw_kind() == kind)
}

/// Whether a finder knows the first eight items, and the ninth once it is fed an iterator after
/// each of eight steps.
fn is_learned<'t>(table: &'t TypeInformation, mut finder: TypeFinder<'t>) -> bool
    requires { finder.table ≡ table.now }
{
    let first = is_found(&finder, 0x1007, 0x1007) && !is_found(&finder, 0x1008, 0x1008);
    let mut walk = table.iter();
    let mut stepped = true;
    for _ in 0..8u8 {
        stepped &= walk.next().is_ok();
        finder.update(&walk);
    }
    first && stepped && is_found(&finder, 0x1008, 0x1008)
}

/// Whether a finder of a table of nine items finds them.
fn is_indexed(alloc: Global, table: &TypeInformation) -> Result<bool> {
    Ok(is_learned(table, settled!(table.finder(alloc))?))
}

/// A stream that is a table whose items have indexes from 0x1000 up to below a maximum.
fn table_of(alloc: Global, maximum: u32, items: &[u8]) -> Result<Stream> {
    stream_of(item_table(alloc, 56, 0x1000, maximum, items)?)
}

/// Bytes whose views are counted.
#[derive(Drop)]
struct Watched<'w> {
    bytes: &'w [u8],
    views: &'w Cell<u64>,
}

impl Source for Watched<'_> {
    ghost state = { λ source. in_memory source.bytes.now };

    fn view(
        &mut self,
        alloc: Global,
        slices: &[SourceSlice],
    ) -> std::result::Result<ReadView, io::Error> {
        self.views.set(self.views.get().saturating_add(1));
        self.bytes.view(alloc, slices)
    }
}

/// Questions for streams 2, 3 and 2.
const STREAMS: &[Query] = rows! {
    Query::Stream { number: 2, limit: None };
    Query::Stream { number: 3, limit: None };
    Query::Stream { number: 2, limit: None };
};

/// Whether each reply is the expected one or `OutOfMemory`, and whether one is `OutOfMemory`.
fn replies_told(replies: &[Reply]) -> (bool, bool) {
    let mut is = replies.len() == 3;
    let mut refused = false;
    for (number, reply) in [2, 3, 2].iter().zip(replies) {
        match reply {
            Reply::Refused(Error::OutOfMemory) => refused = true,
            Reply::Refused(Error::StreamNotFound(2)) => is &= *number == 2,
            Reply::Bytes(bytes) => is &= *number == 3 && bytes.as_slice() == b"hello".as_slice(),
            _ => is = false,
        }
    }
    (is, refused)
}

/// Whether a run that has viewed its source so often has the expected replies. A run that fails
/// with `OutOfMemory` has read no stream: its only view is the one that opens the file.
///
/// # Errors
/// `OutOfMemory` if the run returns it, or if one of its replies is `OutOfMemory` and the others
/// are the expected ones.
fn is_replied(replies: Result<Vec<Reply>>, views: u64) -> Result<bool> {
    match &replies {
        Err(Error::OutOfMemory) if views <= 1 => Err(Error::OutOfMemory),
        Err(_) => Ok(false),
        Ok(replies) => match replies_told(replies) {
            (true, true) => Err(Error::OutOfMemory),
            (is, _) => Ok(is),
        },
    }
}

/// Whether a run over these bytes of S1 has the expected replies.
fn is_run_of(alloc: Global, bytes: &[u8]) -> Result<bool> {
    let views = Cell::new(0);
    let source = Watched {
        bytes,
        views: &views,
    };
    is_replied(run(alloc, source, STREAMS), views.get())
}

/// Whether the program ended with this status and wrote this.
fn is_ended(outcome: &Outcome, status: u8, out: &str, err: &str) -> bool {
    outcome.status == status
        && outcome.out.as_slice() == out.as_bytes()
        && outcome.err.as_slice() == err.as_bytes()
}

/// Whether the program ended with this status and wrote this, unless it ended with `OutOfMemory`.
///
/// # Errors
/// `OutOfMemory` if an allocation fails, also where the program prints that.
fn is_acted_so(outcome: Result<Outcome>, status: u8, out: &str, err: &str) -> Result<bool> {
    match &outcome {
        Ok(outcome) if is_ended(outcome, 1, "", "OutOfMemory\n") => Err(Error::OutOfMemory),
        Ok(outcome) => Ok(is_ended(outcome, status, out, err)),
        Err(Error::OutOfMemory) => Err(Error::OutOfMemory),
        Err(_) => Ok(false),
    }
}

/// Whether the program, called with these words for S1 with these bytes as stream 3, ends with this
/// status and writes this.
fn is_acted(
    alloc: Global,
    stream: &[u8],
    words: &[&str],
    status: u8,
    out: &str,
    err: &str,
) -> Result<bool> {
    let file = s1_with(alloc, stream)?;
    is_acted_so(act(alloc, words, file), status, out, err)
}

/// Whether an input of these bytes is read whole.
fn is_read(alloc: Global, mut input: &[u8]) -> Result<bool> {
    let wanted = input;
    Ok(read_all(alloc, &mut input)?.as_slice() == wanted)
}

/// Whether the one type of a table is read so. There is a function for each kind of query, since
/// the proof of a single one takes long.
fn is_type(alloc: Global, items: &[u8], says: &Says) -> Result<bool> {
    let types = TypeInformation::parse(table_of(alloc, 0x1001, items)?)?;
    is_first_type(alloc, &types, says)
}

fn is_build(alloc: Global, items: &[u8], is_held: bool) -> Result<bool> {
    let ids = IdInformation::parse(table_of(alloc, 0x1001, items)?)?;
    is_first_id(alloc, &ids, is_held)
}

fn are_nine(alloc: Global) -> Result<bool> {
    let nine = items_of(alloc, 9, None)?;
    let types = TypeInformation::parse(table_of(alloc, 0x1009, &nine)?)?;
    is_indexed(alloc, &types)
}

fn is_run(alloc: Global) -> Result<bool> {
    let file = s1(alloc)?;
    is_run_of(alloc, &file)
}

fn is_input(alloc: Global, count: usize) -> Result<bool> {
    let bytes = vec![in alloc; 7u8; count]?;
    is_read(alloc, &bytes)
}

/// Whether a query has the expected answer.
fn is_answered(alloc: Global, asked: &Asked) -> Result<bool> {
    match asked {
        Asked::Type(items, says) => is_type(alloc, items, says),
        Asked::Build(items, is_held) => is_build(alloc, items, *is_held),
        Asked::Nine => are_nine(alloc),
        Asked::Run => is_run(alloc),
        Asked::Act(stream, words, status, out, err) => {
            is_acted(alloc, stream, words, *status, out, err)
        }
        Asked::Table(items, maximum, words, status, out, err) => {
            let table = item_table(alloc, 56, 0x1000, *maximum, items)?;
            is_acted(alloc, &table, words, *status, out, err)
        }
        Asked::Input(count) => is_input(alloc, *count),
    }
}

/// Whether a query has the expected answer. One that returns `OutOfMemory` is repeated once.
fn is_settled(alloc: Global, asked: &Asked) -> Result<bool> {
    settled!(is_answered(alloc, asked))
}

#[test]
fn records(rt: HostRuntime) -> std::result::Result<(), Fail> {
    for (name, asked) in RECORDS {
        assert!(rt; is_settled(rt.alloc(), asked)?, "{name}");
    }
    Ok(())
}

#[test]
fn programs(rt: HostRuntime) -> std::result::Result<(), Fail> {
    for (name, asked) in PROGRAMS {
        assert!(rt; is_settled(rt.alloc(), asked)?, "{name}");
    }
    Ok(())
}

#[test]
fn inputs(rt: HostRuntime) -> std::result::Result<(), Fail> {
    for (name, asked) in INPUTS {
        assert!(rt; is_settled(rt.alloc(), asked)?, "{name}");
    }
    Ok(())
}
