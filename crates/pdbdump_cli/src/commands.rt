//! The commands of the program, with their options and operands. Calls are parsed by this
//! description, and the texts of `--help` are written from it.

use crate::kind_names::{ID_KINDS, TYPE_KINDS};

/// What follows the name of an option.
#[derive(Clone, Copy)]
pub(crate) enum Value {
    /// Nothing.
    Nothing,
    /// A text, with the name that help gives it.
    Text(&'static str),
    /// A number.
    Number(&'static str),
    /// One of these words.
    OneOf(&'static str, &'static [&'static str]),
    /// One of these words, each time that the option is given.
    SomeOf(&'static str, &'static [&'static str]),
}

/// An option of a command.
#[derive(Clone, Copy)]
pub(crate) struct Flag {
    /// Its name, without the hyphens.
    pub name: &'static str,
    /// What follows the name.
    pub value: Value,
    /// What it does.
    pub help: &'static str,
}

/// How many operands of a name a call has.
#[derive(Clone, Copy)]
pub(crate) enum Count {
    /// One.
    One,
    /// One or more.
    Some,
    /// Any number.
    Any,
    /// One or more, or none with `--all`.
    UnlessAll,
}

/// An operand of a command.
#[derive(Clone, Copy)]
pub(crate) struct Operand {
    /// Its name.
    pub name: &'static str,
    /// How many a call has.
    pub count: Count,
    /// What it is.
    pub help: &'static str,
}

/// A command.
#[derive(Clone, Copy)]
pub(crate) struct Description {
    /// Its name.
    pub name: &'static str,
    /// What it shows, in one line.
    pub about: &'static str,
    /// What else help says, below the options.
    pub details: &'static str,
    /// Its options.
    pub flags: &'static [Flag],
    /// Its operands, in their order.
    pub operands: &'static [Operand],
}

/// What the program does, in one line.
pub(crate) const ABOUT: &str = "Shows what Microsoft program databases (PDB files) hold";

/// What the help of the program says below its commands.
pub(crate) const DETAILS: &str = "\
`pdbdump FILE` shows the summary of a file. FILE is a path, or `-` for standard input; a file with the name of a
command is passed as `./types`. Numbers are decimal, or hexadecimal after 0x. Options may stand before and after the
operands, also as `--stream=3`; after `--` there are only operands.

Errors are reported on standard error, a line for each. The exit status is 0 if everything was shown, 1 after an
error or for a negative answer, and 2 if the arguments are wrong.";

/// An option with what follows its name, which is nothing by default, and its help.
macro_rules! flag {
    ($name:literal, $help:literal) => {
        flag!($name, Value::Nothing, $help)
    };
    ($name:literal, $value:expr, $help:literal) => {
        Flag {
            name: $name,
            value: $value,
            help: $help,
        }
    };
}

/// An operand, with how many a call has, and its help.
macro_rules! operand {
    ($name:literal, $count:expr, $help:literal) => {
        Operand {
            name: $name,
            count: $count,
            help: $help,
        }
    };
}

const JSON: Flag = flag!("json", "Write each line as a JSON object");

const STREAM: Flag = flag!(
    "stream",
    Value::Number("S"),
    "The stream of the table, by its number"
);

const INDEX: Flag = flag!(
    "index",
    Value::Number("I"),
    "Show only the record of this index, in full"
);

const IGNORE_CASE: Flag = flag!("ignore-case", "Ignore the case of ASCII letters in a NAME");

const FILE: Operand = operand!(
    "FILE",
    Count::One,
    "The path of the file, or `-` for standard input"
);

const FILES: Operand = operand!(
    "FILE",
    Count::Some,
    "The path of a file, or `-` for standard input"
);

/// `summary`.
pub(crate) const SUMMARY: Description = Description {
    name: "summary",
    about: "Show the pages, streams and tables of a file",
    details: "\
The size and number of the file's pages and its size in bytes; then a line for each stream: its number, its size in
bytes, its role and its name; then for each table how many records it has, and how many of each kind, with their
bytes. A part with an error has a line that says so.",
    flags: &[JSON],
    operands: &[FILE],
};

/// `types`.
pub(crate) const TYPES: Description = Description {
    name: "types",
    about: "List the types",
    details: "\
Each type of the table, which is in stream 2 by default: its index, its kind and its name, and what it is made of.
With --index a line for each field, and the fields of its list. Only types are listed that have one of the NAMEs, if
there are some, one of the kinds, such as LF_ENUM, and all else that options ask for. With --uses the types that refer
to TYPE, or to a forward reference that it defines; if TYPE is a name, with * and ?, to each type that has it.
The exit status is 1 if one of the NAMEs has no type, or a record can't be read.",
    flags: &[
        STREAM,
        INDEX,
        flag!(
            "kind",
            Value::SomeOf("KIND", TYPE_KINDS),
            "Show only types of this kind"
        ),
        flag!("no-forward", "Leave out forward references"),
        flag!(
            "uses",
            Value::Text("TYPE"),
            "Show only types that refer to this one, by its index or name"
        ),
        IGNORE_CASE,
        JSON,
    ],
    operands: &[
        FILE,
        operand!("NAME", Count::Any, "The names of types, with * and ?"),
    ],
};

/// `ids`.
pub(crate) const IDS: Description = Description {
    name: "ids",
    about: "List the ids: functions, source files and the like",
    details: "\
Each id of the table, which is in stream 4 by default: its index, its kind and its name, and what it refers to.
With --index a line for each field. Only ids are listed that have one of the NAMEs, if there are some, one of the
kinds, such as LF_FUNC_ID, and all else that options ask for.
The exit status is 1 if one of the NAMEs has no id, or a record can't be read.",
    flags: &[
        STREAM,
        INDEX,
        flag!(
            "kind",
            Value::SomeOf("KIND", ID_KINDS),
            "Show only ids of this kind"
        ),
        IGNORE_CASE,
        JSON,
    ],
    operands: &[
        FILE,
        operand!("NAME", Count::Any, "The names of ids, with * and ?"),
    ],
};

/// `names`.
pub(crate) const NAMES: Description = Description {
    name: "names",
    about: "List the names of the string table",
    details: "Each name of the string table, which is in the stream named /names by default, with its offset.",
    flags: &[STREAM, JSON],
    operands: &[FILE],
};

/// `sections`.
pub(crate) const SECTIONS: Description = Description {
    name: "sections",
    about: "List the section headers",
    details: "\
Each section header, by default of the stream with that role: its number, its name, its address and size in memory,
its place and size in the file, and its flags by name.",
    flags: &[STREAM, JSON],
    operands: &[FILE],
};

/// `omap`.
pub(crate) const OMAP: Description = Description {
    name: "omap",
    about: "List the records of the OMAP tables",
    details: "\
Each record of the table, or by default of both tables of the file, each after a line that says which it is; and
then whether their sources never decrease.",
    flags: &[STREAM, JSON],
    operands: &[FILE],
};

/// `frames`.
pub(crate) const FRAMES: Description = Description {
    name: "frames",
    about: "List the stack frames",
    details: "\
Each frame, ordered by its start, of the file's own streams. With --old or --new each frame of these streams alone.
The program of a frame is shown by its text in the string table. With --breakpad a line STACK WIN of a symbol file of
Breakpad for each frame of the file's own streams, with its address in the image as it is loaded.",
    flags: &[
        flag!(
            "old",
            Value::Number("S"),
            "The stream of records of the older format"
        ),
        flag!(
            "new",
            Value::Number("S"),
            "The stream of records of the newer format"
        ),
        flag!("breakpad", "Write lines of a symbol file of Breakpad"),
        JSON,
    ],
    operands: &[FILE],
};

/// `map`.
pub(crate) const MAP: Description = Description {
    name: "map",
    about: "Translate addresses by the address map",
    details: "\
A line for each conversion, whether it finds anything or not. First RVA is an address of the image as it is loaded:
the lines have its section and offset there, its address in the original image, and the section and offset of that.
Then it is an address of the original image, and the lines lead to the image as it is loaded. An address may also be a
section and an offset in it, as 1:0x20; of several, each line says which it is about. With an option the map is made of
the given streams in place of the file's own.",
    flags: &[
        flag!(
            "sections",
            Value::Number("S"),
            "The section headers of the original image"
        ),
        flag!(
            "transformed",
            Value::Number("S"),
            "The section headers of the image as it is loaded"
        ),
        flag!(
            "to",
            Value::Number("S"),
            "The OMAP table that leads to the original image"
        ),
        flag!(
            "from",
            Value::Number("S"),
            "The OMAP table that leads from the original image"
        ),
        JSON,
    ],
    operands: &[
        FILE,
        operand!(
            "RVA",
            Count::Some,
            "An address, or a section and an offset: 0x1008, 1:0x8"
        ),
    ],
};

/// `ask`.
pub(crate) const ASK: Description = Description {
    name: "ask",
    about: "Answer questions on standard input, a line each",
    details: "\
Questions have the form of those of pdbq: stream N [LIMIT], type S I, id S I, fields S I, name S O or ranges S A B.
Each is repeated, and its answer follows, or why there is none. Empty lines are skipped.
The exit status is 0 if all questions were answered. What was read is answered before more is read, so that another
program may ask one question after another through a pipe; the last table of each kind stays open between them.",
    flags: &[JSON],
    operands: &[operand!("FILE", Count::One, "The path of the file")],
};

/// `id`.
pub(crate) const ID: Description = Description {
    name: "id",
    about: "Show the key under which symbol servers keep a file",
    details: "\
The path of each file in a symbol store, NAME/KEY/NAME. Of `-` the key alone. The key is the GUID of the file and its
age: that of the debug information, or that of stream 1 if the file has none. Formats: `key` is that path, `ssqp` the
same in lower case, `breakpad` the line that a symbol file of Breakpad begins with, and `guid` the GUID alone, with
hyphens. With --json all numbers by which the file is known and its features. For a program or library (PE) it is the
path of the database that its debug directory names, without folders. A file of another format is refused, by name if
the format is known.",
    flags: &[
        flag!(
            "format",
            Value::OneOf("FORMAT", &["key", "ssqp", "breakpad", "guid"]),
            "The format of the key"
        ),
        flag!(
            "name",
            Value::Text("NAME"),
            "The name of the file in place of the last part of its path"
        ),
        flag!(
            "expect",
            Value::Text("KEY"),
            "End with status 1 if the file has another key, ignoring case"
        ),
        JSON,
    ],
    operands: &[FILES],
};

/// `match`.
pub(crate) const MATCH: Description = Description {
    name: "match",
    about: "Check whether databases belong to a program or library",
    details: "\
A line for each file: that it belongs to the image, or the key of both. A database belongs to the image if its GUID and
its age are those that the debug directory of the image names; the age is that of the key.
The exit status is 0 if all files belong to the image.",
    flags: &[JSON],
    operands: &[
        operand!(
            "IMAGE",
            Count::One,
            "The path of the program or library (PE), or `-`"
        ),
        FILES,
    ],
};

/// `extract`.
pub(crate) const EXTRACT: Description = Description {
    name: "extract",
    about: "Write the bytes of a stream to standard output",
    details: "\
A stream is given by its number, by a role that `summary` shows (types, omap_from_src, globals), or by its name
(/names, srcsrv).",
    flags: &[
        flag!("skip", Value::Number("N"), "Leave out the first N bytes"),
        flag!("take", Value::Number("N"), "Write at most N bytes"),
        flag!("hex", "Write a hex dump, as xxd does"),
    ],
    operands: &[
        FILE,
        operand!(
            "STREAM",
            Count::One,
            "The number, role or name of the stream"
        ),
    ],
};

/// `where`.
pub(crate) const WHERE: Description = Description {
    name: "where",
    about: "Show which stream the bytes of a file belong to",
    details: "\
For each offset of a byte in the file a line with the number of its page, the stream that has the page, and the byte of
that stream; the role says what a page is that no stream has: header, free_page_map, directory, directory_pages (where
the directory is), or free. A byte behind the end of the stream in its last page is unused.
Only the header and the directory are read.",
    flags: &[JSON],
    operands: &[
        FILE,
        operand!("OFFSET", Count::Some, "The offset of a byte in the file"),
    ],
};

/// `validate`.
pub(crate) const VALIDATE: Description = Description {
    name: "validate",
    about: "Check whether files are whole",
    details: "\
For each part with a finding a line about the first one: error or warning, its code, what is wrong, the number of the
stream, the index and the offset of the record, and the offset in the file; then a line that says whether the file is
whole. It is whole if there is no error in any part that this program reads: the header, the directory, the sizes and
the bytes of all streams, the names, the roles, each type and id record of a kind that is read, the section headers, the
OMAP tables and the frames. Of modules and symbols only the sizes are read.
The exit status is 0 if all files are whole.",
    flags: &[
        flag!("all", "Show every finding of each part"),
        flag!("strict", "End with status 1 for a warning too"),
        flag!("quiet", "Write nothing to standard output"),
        JSON,
    ],
    operands: &[FILES],
};

/// `layout`.
pub(crate) const LAYOUT: Description = Description {
    name: "layout",
    about: "Show where the members of classes lie, and the holes between them",
    details: "\
A NAME is the name of a class, a union or an enumeration, in which * and ? are wildcards; the index of a type, such as
0x1026; or the path of a member, such as Derived.inner.tag or Derived.grid[1], whose line has the offset, the size and
the type of the member. A path may also lead to a base class, to a member of one, or through a pointer; then the offset
is that in what the pointer points to. A NAME is required unless --all is given.
Styles: `c` is the declaration in C++, with the offset and the size of each member in comments; `dt` is the format of
WinDbg's command dt. Orders: the largest first (size), the most bytes in holes first (holes), or by name. A hole is
bytes between members that no member takes; those after the last member are padding. With --json an object for each
type, with its rows.",
    flags: &[
        flag!(
            "style",
            Value::OneOf("STYLE", &["c", "dt"]),
            "How layouts are shown"
        ),
        flag!(
            "sort",
            Value::OneOf("ORDER", &["size", "holes", "name"]),
            "The order of the classes"
        ),
        flag!(
            "expand",
            Value::Number("N"),
            "Show the members of classes within the class, N deep"
        ),
        flag!(
            "cacheline",
            Value::Number("N"),
            "Mark where each N bytes end, in style c"
        ),
        flag!("holes", "Show only classes with a hole"),
        flag!(
            "all-members",
            "Show methods, static members and nested types too"
        ),
        flag!("ignore-case", "Ignore the case of letters in names"),
        flag!("all", "Show all classes of the file"),
        JSON,
    ],
    operands: &[
        FILE,
        operand!(
            "NAME",
            Count::UnlessAll,
            "The name of a type, or the path of a member"
        ),
    ],
};

/// `diff`.
pub(crate) const DIFF: Description = Description {
    name: "diff",
    about: "Compare the types of two files",
    details: "\
First the classes, unions and enumerations that OLD defines and NEW doesn't define, or defines differently; then those
that only NEW defines. A line that begins with --- has the definition of OLD, and one with +++ that of NEW. Below are
the members and enumerators that differ, of OLD after - and of NEW after +: those that only one file has, and those
with another offset, size, type or value. Definitions are paired by their decorated names, or by their names if they
have none; several of one name in their order in each file. With --json an object for each definition, with its members
that differ.
The exit status is 0 if nothing differs, 1 if something does, and 2 if a file, or a part of one, can't be compared, or
if neither file defines a type with one of the NAMEs.",
    flags: &[
        flag!(
            "layout-only",
            "Ignore differences in the names of members' types alone"
        ),
        JSON,
    ],
    operands: &[
        operand!("OLD", Count::One, "The path of the old file"),
        operand!(
            "NEW",
            Count::One,
            "The path of the new file; one of both may be `-`"
        ),
        operand!("NAME", Count::Any, "The names of types, with * and ?"),
    ],
};

/// `declare`.
pub(crate) const DECLARE: Description = Description {
    name: "declare",
    about: "Write a header in C++ or C with types as they are laid out",
    details: "\
The types that NAME means and all that they need to be whole, in order: each class with the size and the members at the
places that the file says, which the header asserts. A NAME is that of a class, a union or an enumeration, one with * and
?, or the index of a type such as 0x1026. What the language can't express is an array of bytes, with a comment.
References are pointers, and names that are no identifiers get one, with the name of the file in a comment.
The exit status is 1 if a name means nothing or a type is left out.",
    flags: &[
        flag!(
            "c",
            "Write C, where bases are members and names have __ in place of ::"
        ),
        flag!("all", "Declare all types of the file"),
    ],
    operands: &[
        FILE,
        operand!("NAME", Count::UnlessAll, "The name of a type"),
    ],
};
