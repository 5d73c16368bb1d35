//! The commands of the program and their arguments.

use pdb_file::CodeView;
use pdb_validation::Extent;
use pdbdump_declarations::Options as DeclareOptions;
use pdbdump_layouts::Options;
use pdbdump_tables::{AskedAddress, KeyStyle, MapStreams, Selection};

/// What the program writes of a file that is opened. A stream that isn't given is found by its role.
#[derive(Clone, Copy)]
pub enum Command<'m, 'w> {
    /// What the file is made of.
    Summary,
    /// Each type of a table in the stream, or in stream 2; or only the one of an index.
    Types {
        /// The number of the stream.
        stream: Option<u32>,
        /// The index of the only type.
        index: Option<u32>,
    },
    /// Each id of a table in the stream, or in stream 4; or only the one of an index.
    Ids {
        /// The number of the stream.
        stream: Option<u32>,
        /// The index of the only id.
        index: Option<u32>,
    },
    /// Each name of the string table in the stream.
    Names {
        /// The number of the stream.
        stream: Option<u32>,
    },
    /// Each section header in the stream.
    Sections {
        /// The number of the stream.
        stream: Option<u32>,
    },
    /// Each record of the OMAP table in the stream.
    Omap {
        /// The number of the stream.
        stream: Option<u32>,
    },
    /// Each frame of the file's own streams.
    Frames,
    /// Each frame of the given streams, either of which may be absent.
    FramesIn {
        /// The number of the stream of records of the older format.
        old: Option<u32>,
        /// The number of the stream of records of the newer format.
        new: Option<u32>,
    },
    /// Each frame of the file's own streams, as a line of a symbol file of Breakpad.
    BreakpadFrames,
    /// What an address map makes of addresses.
    Map {
        /// The addresses.
        addresses: &'m [AskedAddress<'w>],
        /// The streams of the map, or none of them for the file's own map.
        streams: MapStreams,
    },
    /// A part of the bytes of a stream.
    Extract(Extract<'w>),
    /// A part of the bytes of a stream, as a hex dump.
    Dump(Extract<'w>),
}

/// The arguments of `extract`, which writes a part of the bytes of a stream.
#[derive(Clone, Copy)]
pub struct Extract<'w> {
    /// The number, the role or the name of the stream.
    pub stream: &'w str,
    /// How many bytes are left out at the start.
    pub skip: u32,
    /// How many bytes are written at most.
    pub limit: Option<u32>,
}

/// A table of records with indexes.
#[derive(Clone, Copy)]
pub enum Table {
    /// That of types.
    Types,
    /// That of ids.
    Ids,
}

/// The arguments of `types` or `ids`, which list some records of a table.
#[derive(Clone, Copy)]
pub struct Selected<'m, 'w> {
    /// The table.
    pub table: Table,
    /// The number of its stream.
    pub number: u32,
    /// Which records are listed.
    pub selection: Selection<'m, 'w>,
}

/// The arguments of `id`, which prints the identity of a file.
#[derive(Clone, Copy)]
pub struct Identify<'w> {
    /// How the identity is written as text.
    pub style: KeyStyle,
    /// The name of the file, if it has one.
    pub name: Option<&'w str>,
    /// The name that is given, which an image's database is told under too.
    pub given_name: Option<&'w str>,
    /// The key that the file should have.
    pub expected: Option<&'w str>,
}

/// How `validate` checks whether a file is whole, and what it tells of it.
#[derive(Clone, Copy)]
pub struct ValidateOptions {
    /// Whether the first thing that is wrong in each part is told, or everything.
    pub extent: Extent,
    /// Whether a warning makes the status 1, as an error does.
    pub is_strict: bool,
    /// Whether only the status is wanted.
    pub is_quiet: bool,
}

/// The arguments of `layout`, which shows the layouts of classes of a file.
#[derive(Clone, Copy)]
pub struct Layouts<'m, 'w> {
    /// The names of classes and the paths of members.
    pub names: &'m [&'w str],
    /// Which layouts are shown, and how.
    pub options: Options,
}

/// An image and a file, for `match`.
#[derive(Clone, Copy)]
pub struct Matching<'m, 'w> {
    /// The path of the image, or `-` for standard input.
    pub image_path: &'w str,
    /// What the image says of its database.
    pub image: &'m CodeView,
    /// The path of the file, or `-` for standard input.
    pub path: &'w str,
}

/// The arguments of `diff`, which compares the types of two files.
#[derive(Clone, Copy)]
pub struct Diff<'m, 'w> {
    /// The path of the old file, or `-` for standard input.
    pub old: &'w str,
    /// The path of the new file, or `-` for standard input.
    pub new: &'w str,
    /// The names of types, in which `*` and `?` are allowed, or none for all types.
    pub names: &'m [&'w str],
    /// Whether only sizes, offsets, bits and names are compared.
    pub is_layout_only: bool,
}

/// The arguments of `declare`, which writes a header of types of a file.
#[derive(Clone, Copy)]
pub struct Declarations<'m, 'w> {
    /// The names of types.
    pub names: &'m [&'w str],
    /// What is declared, and in which language.
    pub options: DeclareOptions,
}

/// A request for one file.
#[derive(Clone, Copy)]
pub enum Request<'m, 'w> {
    /// What a command writes.
    List(Command<'m, 'w>),
    /// Some records of a table.
    Select(Selected<'m, 'w>),
    /// What identifies the file.
    Identify(Identify<'w>),
    /// What is found wrong in the file, and its path.
    Validate(ValidateOptions, &'w str),
    /// Layouts of its types.
    Layout(Layouts<'m, 'w>),
    /// A header of its types.
    Declare(Declarations<'m, 'w>),
    /// Whether it is the database that an image names.
    Match(Matching<'m, 'w>),
    /// What the bytes with these offsets belong to.
    Locate(&'m [u32]),
}
