//! Tables of types and ids: headers, walks and look-ups.

ghost use Rattle.std.specs.Prelude.{◌≡◌};

use super::open_tables::{OpenAsk, opened_tells};
use super::read::is_same;
use pdb_base::{Count, Error, FallibleIterator, IdIndex, Result as Answer, TypeIndex, Variant};
use pdb_fixtures::{FAR_LISTS, TWO_LISTS, is_error, item_table, items_of, stream_of};
use pdb_tpi::{
    Header, IdFinder, IdInformation, IdIter, RecordPlace, Slice, Type, TypeFinder, TypeInformation,
    TypeIter,
};
use pdb_values::{PrimitiveKind, PrimitiveType, TypeData};
use std::alloc::Global;
use std::process::Abort;
use std::test::Fail;

/// The stream of a table.
enum Source {
    /// These bytes.
    Bytes(&'static [u8]),
    /// A header of 56 bytes that says this size, this minimum and this maximum, and these items.
    Table(u32, u32, u32, &'static [u8]),
    /// Such a header, and zeros behind it up to so many bytes.
    Zeros(u32, u32, u32, usize),
    /// Items of two bytes, of the kinds 0x1000, 0x1001 and so on, from index 0x1000 on: their
    /// maximum, how many there are, and the one whose length is 1.
    Items(u32, u8, Option<u8>),
}

/// What a step or a look-up gives.
enum Step {
    /// An item: its index and its kind.
    Item(u32, u16),
    /// Nothing.
    End,
    /// An error.
    Error(Error),
}

use Step::{End, Item};

/// What a list of fields is.
pub(super) enum Fields {
    /// The values A, 0, and B, 1.
    AAndB,
    /// An error.
    Error(Error),
}

/// A query of a table, and its answer.
enum Ask {
    /// The error of the table.
    Refusal(Error),
    /// The size that its header says.
    HeaderSize(u32),
    /// Its header, how many indexes it counts, and whether it counts none.
    Header(Header, usize, bool),
    /// What each step of a walk gives, and each step of a clone of its iterator.
    Walk(&'static [Step]),
    /// What a new finder is fed, and its look-ups.
    Finder(&'static [FinderAsk]),
    /// How many finders are made that are kept at once.
    Finders(usize),
    /// The calls of the table while it stays open.
    Open(&'static [OpenAsk]),
}

/// What a finder is fed, or a look-up with its answer.
enum FinderAsk {
    /// It is fed an iterator of its table after each of these numbers of steps.
    Shown(&'static [usize]),
    /// It is fed no iterator.
    ShownNone,
    /// It is fed two iterators at once, after so many steps each.
    ShownBoth(usize, usize),
    /// The last index that it covers.
    Last(u32),
    /// An index: its item, or an error, and how many lengths are read for it.
    Find(u32, Step, u64),
    /// How many lengths were read for all look-ups so far.
    Count(u64),
    /// An index whose type is the 32-bit integer, which has no record.
    Integer(u32),
    /// An index: how many bytes its item has.
    Len(u32, usize),
    /// An index: the bytes of its item.
    Bytes(u32, &'static [u8]),
    /// The index of a list: its fields, or an error.
    Fields(u32, Fields),
}

/// A header whose fields have the numbers of their bytes in them, but for the size of the header,
/// and a large maximum and a negative offset.
const FIELDS: [u8; 56] = [
    0x01, 0x02, 0x03, 0x04, 0x38, 0, 0, 0, 0x09, 0x0a, 0x0b, 0x0c, 0xff, 0x0e, 0x0f, 0xff, 0x11,
    0x12, 0x13, 0x14, 0x15, 0x16, 0x17, 0x18, 0x19, 0x1a, 0x1b, 0x1c, 0x1d, 0x1e, 0x1f, 0x20, 0x21,
    0x22, 0x23, 0x80, 0x25, 0x26, 0x27, 0x28, 0x29, 0x2a, 0x2b, 0x2c, 0x2d, 0x2e, 0x2f, 0x30, 0x31,
    0x32, 0x33, 0x34, 0x35, 0x36, 0x37, 0x38,
];

/// What these bytes say.
const HEADER: Header = Header {
    version: 0x04030201,
    header_size: 56,
    minimum_index: 0x0c0b0a09,
    maximum_index: 0xff0f0eff,
    gprec_size: 0x14131211,
    tpi_hash_stream: 0x1615,
    tpi_hash_pad_stream: 0x1817,
    hash_key_size: 0x1c1b1a19,
    hash_bucket_size: 0x201f1e1d,
    hash_values: Slice {
        offset: -0x7fdcdddf,
        size: 0x28272625,
    },
    ti_off: Slice {
        offset: 0x2c2b2a29,
        size: 0x302f2e2d,
    },
    hash_adj: Slice {
        offset: 0x34333231,
        size: 0x38373635,
    },
};

/// The largest index.
const LAST: u32 = 0xffff_ffff;

/// The places of the records of the two lists in their table.
const LIST_OF_B: RecordPlace = RecordPlace {
    offset: 58,
    length: 12,
};

const LIST_OF_A: RecordPlace = RecordPlace {
    offset: 72,
    length: 18,
};

/// The errors of items that end too soon or are too short.
const ENDS: Step = Step::Error(Error::UnexpectedEof);

const SHORT: Step = Step::Error(Error::TypeTooShort);

/// That no type has the largest index.
const NO_LAST: Step = Step::Error(Error::TypeNotFound(LAST));

/// That the finder, which covers the indexes up to 0x1007, doesn't cover 0x1008.
const NOT_INDEXED: Step = Step::Error(Error::TypeNotIndexed(0x1008, 0x1007));

/// Tables, and the query of each.
const TABLES: &[(&str, Source, Ask)] = rows! {
    "56 bytes", Source::Table(56, 0x1000, 0x1000, b""), Ask::HeaderSize(56);
    "55", Source::Table(55, 0x1000, 0x1000, b""),
        Ask::Refusal(Error::InvalidTypeInformationHeader("header size is impossibly small"));
    "1025", Source::Zeros(1025, 0x1000, 0x1000, 1056),
        Ask::Refusal(Error::InvalidTypeInformationHeader("header size is unreasonably large"));
    "1024 over 56 bytes", Source::Table(1024, 0x1000, 0x1000, b""), Ask::Refusal(Error::UnexpectedEof);
    "1024 over 1024 bytes", Source::Zeros(1024, 0x1000, 0x1000, 1024), Ask::HeaderSize(1024);
    "minimum 0xfff", Source::Table(56, 0xfff, 0x1000, b""),
        Ask::Refusal(Error::InvalidTypeInformationHeader("minimum type index is < 4096"));
    "maximum below", Source::Table(56, 0x1001, 0x1000, b""),
        Ask::Refusal(Error::InvalidTypeInformationHeader("maximum type index is < minimum type index"));
    "two faults", Source::Table(55, 0xfff, 0, b""),
        Ask::Refusal(Error::InvalidTypeInformationHeader("header size is impossibly small"));
    "fields of a header", Source::Bytes(&FIELDS), Ask::Header(HEADER, 0xff0f0eff - 0x0c0b0a09, false);
    "55 bytes alone", Source::Bytes(&[0; 55]), Ask::Refusal(Error::UnexpectedEof);
    "a walk over no item", Source::Table(56, 0x1000, 0x1000, b""), Ask::Walk(&[End, End]);
    "a walk past the last index", Source::Table(56, LAST, LAST, b"\x02\x00\x01\x10\x02\x00\x01\x10"),
        Ask::Walk(&[Item(0xffffffff, 0x1001), NO_LAST, NO_LAST]);
    "a short length there", Source::Table(56, LAST, LAST, b"\x02\x00\x01\x10\x01\x00\x01\x10"),
        Ask::Walk(&[Item(0xffffffff, 0x1001), SHORT, SHORT]);
    "a walk over one byte", Source::Table(56, 0x1000, 0x1000, b"\x02"), Ask::Walk(&[ENDS, ENDS]);
    "a short length at the end", Source::Table(56, 0x1000, 0x1000, b"\x01\x00"), Ask::Walk(&[SHORT, SHORT]);
    "a cut item", Source::Table(56, 0x1000, 0x1000, b"\x03\x00\x01\x10"), Ask::Walk(&[ENDS, ENDS]);
    "a walk past the maximum", Source::Table(56, 0x1000, 0x1000, b"\x02\x00\x01\x10\x03\x00\x02\x10\x00"),
        Ask::Walk(&[Item(0x1000, 0x1001), Item(0x1001, 0x1002), End, End]);
    "a third length of 1", Source::Table(56, 0x1000, 0x1000, b"\x02\x00\x01\x10\x02\x00\x02\x10\x01\x00\x02\x00"),
        Ask::Walk(&[Item(0x1000, 0x1001), Item(0x1001, 0x1002), SHORT, SHORT, SHORT]);
    "a third length of 1, of nine", Source::Items(0x1009, 9, Some(2)),
        Ask::Walk(&[Item(0x1000, 0x1000), Item(0x1001, 0x1001), SHORT, SHORT]);
    "nine items", Source::Items(0x1009, 9, None),
        Ask::Finder(&[FinderAsk::Last(0x1007), FinderAsk::Find(0x1000, Item(0x1000, 0x1000), 1),
            FinderAsk::Find(0x1007, Item(0x1007, 0x1007), 8), FinderAsk::Find(0x1008, NOT_INDEXED, 0),
            FinderAsk::Find(0x1009, Step::Error(Error::TypeNotFound(0x1009)), 0),
            FinderAsk::Find(0x74, Item(0x74, 0xffff), 0), FinderAsk::Bytes(0x74, b"\xff\xff"),
            FinderAsk::Shown(&[1, 2, 3, 4, 5, 6, 7, 8]), FinderAsk::Last(0x1008),
            FinderAsk::Find(0x1007, Item(0x1007, 0x1007), 8), FinderAsk::Find(0x1008, Item(0x1008, 0x1008), 1),
            FinderAsk::Count(18), FinderAsk::Integer(0x74)]);
    "nine items, of which the last two are looked up", Source::Items(0x1009, 9, None),
        Ask::Finder(&[FinderAsk::Find(0x1007, Item(0x1007, 0x1007), 8), FinderAsk::Count(8),
            FinderAsk::Shown(&[1, 2, 3, 4, 5, 6, 7, 8]), FinderAsk::Find(0x1008, Item(0x1008, 0x1008), 1),
            FinderAsk::Count(9), FinderAsk::Integer(0x74), FinderAsk::Count(9)]);
    "look-ups behind a third length of 1", Source::Items(0x1009, 9, Some(2)),
        Ask::Finder(&[FinderAsk::Last(0x1007), FinderAsk::Find(0x1001, Item(0x1001, 0x1001), 2),
            FinderAsk::Find(0x1002, SHORT, 3), FinderAsk::Find(0x1005, SHORT, 3)]);
    "one item of a large claim", Source::Table(56, 0x1000, 0xffff_ffff, b"\x02\x00\x01\x10"),
        Ask::Finder(&[FinderAsk::Last(0x1007), FinderAsk::Find(0x1000, Item(0x1000, 0x1001), 1),
            FinderAsk::Find(0x1001, ENDS, 1), FinderAsk::Find(0x1008, NOT_INDEXED, 0)]);
    "finders take no memory for that claim: by it, these would take 2^47 bytes",
        Source::Table(56, 0x1000, 0xffff_ffff, b"\x02\x00\x01\x10"), Ask::Finders(100_000);
    "a block at the end of the bytes", Source::Items(0x1009, 8, None),
        Ask::Finder(&[FinderAsk::Shown(&[1, 2, 3, 4, 5, 6, 7, 8]), FinderAsk::Last(0x1008),
            FinderAsk::Find(0x1008, ENDS, 0), FinderAsk::Find(0x1007, Item(0x1007, 0x1007), 8)]);
    "no index", Source::Items(0x1000, 9, None),
        Ask::Finder(&[FinderAsk::Shown(&[1, 2, 3, 4, 5, 6, 7, 8, 9]), FinderAsk::Last(0),
            FinderAsk::Find(0x1000, Step::Error(Error::TypeNotFound(0x1000)), 0),
            FinderAsk::Find(0xfff, Item(0xfff, 0xffff), 0)]);
    "iterators of later places, none and two", Source::Items(0x1014, 20, None),
        Ask::Finder(&[FinderAsk::Shown(&[16]), FinderAsk::Last(0x1007), FinderAsk::ShownNone, FinderAsk::Last(0x1007),
            FinderAsk::ShownBoth(8, 16), FinderAsk::Last(0x1013), FinderAsk::Len(0x1008, 2)]);
    "each of sixteen steps", Source::Items(0x1014, 20, None),
        Ask::Finder(&[FinderAsk::Shown(&[1, 2, 3, 4, 5, 6, 7, 8]), FinderAsk::Last(0x100f),
            FinderAsk::Shown(&[9, 10, 11, 12, 13, 14, 15, 16]), FinderAsk::Last(0x1013),
            FinderAsk::Find(0x1008, Item(0x1008, 0x1008), 1), FinderAsk::Find(0x1013, Item(0x1013, 0x1013), 4)]);
    "fields joined in one block", Source::Table(56, 0x1000, 0x1002, TWO_LISTS),
        Ask::Finder(&[FinderAsk::Fields(0x1001, Fields::AAndB)]);
    "fields joined in two blocks", Source::Table(56, 0x1000, 0x1009, FAR_LISTS),
        Ask::Finder(&[FinderAsk::Fields(0x1008, Fields::Error(Error::TypeNotIndexed(0x1008, 0x1007))),
            FinderAsk::Shown(&[1, 2, 3, 4, 5, 6, 7, 8]), FinderAsk::Fields(0x1008, Fields::AAndB)]);
    "a table that stays open", Source::Table(56, 0x1000, 0x1002, TWO_LISTS),
        Ask::Open(&[OpenAsk::Step(Some(LIST_OF_B)), OpenAsk::Step(Some(LIST_OF_A)), OpenAsk::Step(None),
            OpenAsk::Rewind, OpenAsk::Step(Some(LIST_OF_B)), OpenAsk::Learn(0x1001), OpenAsk::Index(0x1001, 2),
            OpenAsk::Find(0xfff, None), OpenAsk::Find(0x1001, Some(LIST_OF_A)), OpenAsk::NotFound(0x1002),
            OpenAsk::Len(0x1001, 18), OpenAsk::Bytes(0x74, b"\xff\xff"), OpenAsk::Fields(0x1001, Fields::AAndB)]);
};

/// The bytes of a stream.
fn bytes_of(alloc: Global, source: &Source) -> Answer<Vec<u8>> {
    match source {
        Source::Bytes(bytes) => Ok(Vec::from_slice(alloc, bytes)?),
        Source::Table(size, minimum, maximum, items) => {
            item_table(alloc, *size, *minimum, *maximum, items)
        }
        Source::Zeros(size, minimum, maximum, len) => {
            let mut bytes = item_table(alloc, *size, *minimum, *maximum, b"")?;
            bytes.resize(*len, 0)?;
            Ok(bytes)
        }
        Source::Items(maximum, count, short) => {
            let items = items_of(alloc, *count, *short)?;
            item_table(alloc, 56, 0x1000, *maximum, &items)
        }
    }
}

/// The table of a stream.
fn parse_table(alloc: Global, source: &Source) -> Answer<TypeInformation> {
    TypeInformation::parse(stream_of(bytes_of(alloc, source)?)?)
}

/// Whether a step gives this.
fn gives(answer: &Answer<Option<Type<'_>>>, want: &Step) -> bool {
    match (answer, want) {
        (Ok(Some(item)), Step::Item(index, kind)) => {
            item.index() == TypeIndex(*index) && item.raw_kind() == *kind
        }
        (Ok(None), Step::End) => true,
        (Err(error), Step::Error(same)) => is_error(error, same),
        _ => false,
    }
}

/// Whether a step of an iterator gives this, and also a step of its clone.
fn step_gives(rt: &impl Abort, iterator: &mut TypeIter<'_>, want: &Step) -> bool {
    let again = iterator.clone().expect(rt, "memory").next();
    gives(&iterator.next(), want) && gives(&again, want)
}

/// Whether the steps of an iterator give these.
fn steps_give(rt: &impl Abort, iterator: &mut TypeIter<'_>, steps: &[Step]) -> bool {
    for want in steps {
        if !step_gives(rt, iterator, want) {
            return false;
        }
    }
    true
}

/// An iterator of the table after so many steps.
fn iterator_at<'t>(rt: &impl Abort, table: &'t TypeInformation, steps: usize) -> TypeIter<'t>
    ensures { result.table ≡ table.now }
{
    let mut walk = table.iter();
    for _ in 0..steps {
        walk.next().expect(rt, "an item");
    }
    walk
}

/// Feeds a finder an iterator of its table after each of these numbers of steps.
fn show_each(rt: &impl Abort, table: &TypeInformation, finder: &mut TypeFinder<'_>, steps: &[usize])
    requires { finder.old.table ≡ table.now }
    ensures { finder.new.table ≡ table.now }
{
    for done in steps {
        finder.update(&iterator_at(rt, table, *done));
    }
}

/// Feeds a finder two iterators of its table at once, after so many steps each.
fn show_both(
    rt: &impl Abort,
    table: &TypeInformation,
    finder: &mut TypeFinder<'_>,
    first: usize,
    second: usize,
)
    requires { finder.old.table ≡ table.now }
    ensures { finder.new.table ≡ table.now }
{
    let first = iterator_at(rt, table, first);
    let second = iterator_at(rt, table, second);
    finder.update_all(&[first, second]);
}

/// Whether both look-ups of an index answer so, and the one that counts reads so many lengths,
/// which it adds to those of the look-ups before.
fn finds(finder: &TypeFinder<'_>, count: &mut Count, index: u32, want: &Step, reads: u64) -> bool {
    let before = count.get();
    let counted = finder.find_counted(TypeIndex(index), count).map(Some);
    let found = finder.find(TypeIndex(index)).map(Some);
    gives(&counted, want) && gives(&found, want) && count.get() == before.saturating_add(reads)
}

/// The integer of 32 bits.
const INTEGER: TypeData<'static> = TypeData::Primitive(PrimitiveType {
    kind: PrimitiveKind::I32,
    indirection: None,
});

/// Whether an item is the integer of 32 bits.
fn is_integer(alloc: Global, answer: Answer<Type<'_>>) -> bool {
    match answer {
        Ok(item) => is_same(item.parse(alloc), &INTEGER),
        Err(_) => false,
    }
}

/// Whether an item has so many bytes, and is equal to its copy.
pub(super) fn is_long(answer: Answer<Type<'_>>, len: usize) -> bool {
    let Ok(item) = answer else {
        return false;
    };
    let copy = item;
    item.len() == len && item.is_empty() == (len == 0) && item == copy
}

/// Whether an item has these bytes.
pub(super) fn has_bytes(answer: Answer<Type<'_>>, bytes: &[u8]) -> bool {
    matches!(answer, Ok(item) if item.as_bytes() == bytes)
}

/// Whether a field is a value of an enumeration with this name and number.
fn is_enumerate(field: &TypeData<'_>, name: &[u8], number: u16) -> bool {
    matches!(
        field,
        TypeData::Enumerate(value)
            if value.name.as_bytes() == name && value.value == Variant::U16(number)
    )
}

/// Whether fields are the values A, 0, and B, 1.
fn are_a_and_b(fields: &[TypeData<'_>]) -> bool {
    matches!(fields, [a, b] if is_enumerate(a, b"A", 0) && is_enumerate(b, b"B", 1))
}

/// Whether fields are these.
pub(super) fn has_fields(answer: &Answer<Vec<TypeData<'_>>>, want: &Fields) -> bool {
    match (answer, want) {
        (Ok(fields), Fields::AAndB) => are_a_and_b(fields.as_slice()),
        (Err(error), Fields::Error(same)) => is_error(error, same),
        _ => false,
    }
}

/// Whether a finder answers so, with what its look-ups before have counted.
fn finder_answers(
    alloc: Global,
    finder: &TypeFinder<'_>,
    count: &mut Count,
    ask: &FinderAsk,
) -> bool {
    match ask {
        FinderAsk::Last(last) => finder.max_index() == TypeIndex(*last),
        FinderAsk::Find(index, want, reads) => finds(finder, count, *index, want, *reads),
        FinderAsk::Count(reads) => count.get() == *reads,
        FinderAsk::Integer(index) => is_integer(alloc, finder.find(TypeIndex(*index))),
        FinderAsk::Len(index, len) => is_long(finder.find(TypeIndex(*index)), *len),
        FinderAsk::Bytes(index, bytes) => has_bytes(finder.find(TypeIndex(*index)), bytes),
        FinderAsk::Fields(index, want) => {
            has_fields(&finder.fields(alloc, TypeIndex(*index)), want)
        }
        _ => false,
    }
}

/// Whether a finder of a table answers so, once it is fed what it is to be fed.
fn finder_does(
    rt: &impl Abort,
    alloc: Global,
    table: &TypeInformation,
    finder: &mut TypeFinder<'_>,
    count: &mut Count,
    ask: &FinderAsk,
) -> bool
    requires { finder.old.table ≡ table.now }
    ensures { finder.new.table ≡ table.now }
{
    match ask {
        FinderAsk::Shown(steps) => {
            show_each(rt, table, finder, steps);
            true
        }
        FinderAsk::ShownBoth(first, second) => {
            show_both(rt, table, finder, *first, *second);
            true
        }
        FinderAsk::ShownNone => {
            finder.update_all(&[]);
            true
        }
        _ => finder_answers(alloc, finder, count, ask),
    }
}

/// Whether a finder of a table answers each of these so, one after the other.
fn finder_tells(
    rt: &impl Abort,
    alloc: Global,
    table: &TypeInformation,
    finder: &mut TypeFinder<'_>,
    asks: &[FinderAsk],
) -> bool
    requires { finder.old.table ≡ table.now }
{
    let mut count = Count::new();
    for ask in asks {
        if !finder_does(rt, alloc, table, finder, &mut count, ask) {
            return false;
        }
    }
    true
}

/// Whether a new finder answers each of these so, one after the other.
fn new_finder_tells(
    rt: &impl Abort,
    alloc: Global,
    table: &TypeInformation,
    asks: &[FinderAsk],
) -> bool {
    let mut finder = table.finder(alloc).expect(rt, "a finder");
    finder_tells(rt, alloc, table, &mut finder, asks)
}

/// Makes so many finders of a table and keeps them all.
fn make_finders(rt: &impl Abort, alloc: Global, table: &TypeInformation, count: usize) -> bool {
    let mut finders = Vec::new(alloc);
    for _ in 0..count {
        let finder = table.finder(alloc).expect(rt, "a finder");
        finders.push(finder).expect(rt, "memory");
    }
    finders.len() == count
}

/// Whether a header of a table is this one, and counts so many indexes.
fn has_header(table: &TypeInformation, header: &Header, count: usize, is_empty: bool) -> bool {
    table.header() == *header && table.len() == count && table.is_empty() == is_empty
}

/// Whether a table answers so.
fn table_answers(rt: &impl Abort, alloc: Global, table: &TypeInformation, ask: &Ask) -> bool {
    match ask {
        Ask::HeaderSize(size) => table.header().header_size == *size,
        Ask::Header(header, count, is_empty) => has_header(table, header, *count, *is_empty),
        Ask::Walk(steps) => steps_give(rt, &mut table.iter(), steps),
        Ask::Finder(asks) => new_finder_tells(rt, alloc, table, asks),
        Ask::Finders(count) => make_finders(rt, alloc, table, *count),
        _ => false,
    }
}

/// Whether a table that is owned answers so.
fn owned_answers(rt: &impl Abort, alloc: Global, table: TypeInformation, ask: &Ask) -> bool {
    match ask {
        Ask::Open(asks) => opened_tells(rt, alloc, table, asks),
        _ => table_answers(rt, alloc, &table, ask),
    }
}

/// Whether this error is the expected one of a table.
fn is_refusal(error: &Error, ask: &Ask) -> bool {
    matches!(ask, Ask::Refusal(want) if is_error(error, want))
}

/// Whether the table of a stream answers so, or has the expected error.
fn is_row(rt: &impl Abort, alloc: Global, source: &Source, ask: &Ask) -> bool {
    match parse_table(alloc, source) {
        Ok(table) => owned_answers(rt, alloc, table, ask),
        Err(error) => is_refusal(&error, ask),
    }
}

#[test]
fn tables(rt: HostRuntime) {
    for (name, source, ask) in TABLES {
        assert!(rt; is_row(&rt, rt.alloc(), source, ask), "{name}");
    }
}

/// Whether a look-up fails with an error that has its index.
fn is_refused(ids: &IdFinder<'_>, index: u32) -> bool {
    matches!(ids.find(IdIndex(index)), Err(Error::TypeNotFound(bad)) if bad == index)
}

/// Whether a table has no ids: it counts none, a walk gives none, and its finder, which covers
/// none, finds none.
fn has_none(rt: &impl Abort, alloc: Global, empty: &IdInformation) -> bool {
    let ids = empty.finder(alloc).expect(rt, "a finder");
    let mut walk: IdIter<'_> = empty.iter();
    empty.len() == 0
        && empty.is_empty()
        && matches!(walk.next(), Ok(None))
        && ids.max_index() == IdIndex(0)
        && (is_refused(&ids, 0) && is_refused(&ids, 4097))
}

/// The table of ids of these bytes.
fn ids_of(alloc: Global, bytes: &[u8]) -> Answer<IdInformation> {
    IdInformation::parse(stream_of(Vec::from_slice(alloc, bytes)?)?)
}

#[test]
fn ids(rt: HostRuntime) -> Result<(), Fail> {
    let ids = ids_of(rt.alloc(), &FIELDS)?;
    assert!(rt; ids.header() == HEADER && ids.len() == 0xff0f0eff - 0x0c0b0a09 && !ids.is_empty());
    assert!(rt; has_none(&rt, rt.alloc(), &ids_of(rt.alloc(), b"")?));
    Ok(())
}
