//! Calls: what the arguments of the program request.

use crate::addressed::{Places, wrong_address};
use crate::command::{
    Command, Declarations, Diff, Extract, Identify, Layouts, Request, ValidateOptions,
};
use crate::selection_calls::{beside_breakpad, selecting};
use clap::ArgMatches;
use pdb_cli::number;
use pdb_validation::Extent;
use pdbdump_declarations::{Language, Options as DeclareOptions};
use pdbdump_layouts::{LetterCase, Options, Order, Style};
use pdbdump_rows::Form;
use pdbdump_tables::{AskedAddress, KeyStyle, MapStreams};
use pdbdump_types::is_pattern;
use std::alloc::{AllocError, Global};
use std::path::Path;

/// Why a call requests nothing, though its arguments are those of the command.
#[derive(Clone, Copy)]
pub enum Misuse<'w> {
    /// An argument is no number.
    NoNumber {
        /// The text that was given.
        text: &'w str,
        /// The name of its option, if it belongs to one.
        option: Option<&'static str>,
        /// What help calls it.
        name: &'static str,
    },
    /// A key that is expected is none.
    NoKey(&'w str),
    /// Two inputs would be read from standard input.
    InputTwice,
    /// A name with `*` or `?` is longer than one may be.
    LongPattern,
    /// An option or an operand of this name is given with an option that it can't be used with.
    Beside(&'static str, &'static str),
}

/// The options whose values are numbers, and what help calls these.
const NUMBERS: [(&str, &str); 12] = [
    ("stream", "S"),
    ("index", "I"),
    ("old", "S"),
    ("new", "S"),
    ("sections", "S"),
    ("transformed", "S"),
    ("to", "S"),
    ("from", "S"),
    ("skip", "N"),
    ("take", "N"),
    ("expand", "N"),
    ("cacheline", "N"),
];

/// Returns whether a command has this name.
fn is_command(name: &str) -> bool {
    matches!(
        name,
        "summary"
            | "types"
            | "ids"
            | "names"
            | "sections"
            | "omap"
            | "frames"
            | "map"
            | "ask"
            | "id"
            | "extract"
            | "validate"
            | "layout"
            | "diff"
            | "declare"
            | "match"
            | "where"
            | "help"
    )
}

/// Returns arguments that begin with the name of a command: if there is only a path, that of its
/// summary.
pub fn with_command<'w>(alloc: Global, words: &[&'w str]) -> Result<Vec<&'w str>, AllocError> {
    let mut all = Vec::with_capacity(alloc, words.len().saturating_add(1))?;
    let mut operands = words
        .iter()
        .filter(|word| **word == "-" || !word.starts_with('-'));
    if let (Some(first), None) = (operands.next(), operands.next()) {
        if !is_command(first) {
            all.push("summary")?;
        }
    }
    for word in words {
        all.push(*word)?;
    }
    Ok(all)
}

/// Returns the number that an argument has, if it is given.
fn number_of(matches: &ArgMatches<'_>, id: &str) -> Option<u32> {
    match matches.get_str(id) {
        Some(text) => number(text),
        None => None,
    }
}

/// Returns the text of an operand that is required.
fn text_of<'w>(matches: &ArgMatches<'w>, id: &str) -> &'w str {
    matches.get_str(id).unwrap_or("")
}

/// Returns an argument that is no number though it has to be one.
fn wrong_number<'w>(matches: &ArgMatches<'w>) -> Option<Misuse<'w>> {
    for (option, name) in NUMBERS {
        if let Some(text) = matches.get_str(option) {
            if number(text).is_none() {
                return Some(Misuse::NoNumber {
                    text,
                    option: Some(option),
                    name,
                });
            }
        }
    }
    wrong_address(matches)
}

/// Returns whether a text has the form of a key: the 32 digits of the GUID, and up to 8 of the age.
fn is_key_text(text: &str) -> bool {
    let digits = text.as_bytes();
    (33..=40).contains(&digits.len()) && digits.iter().all(|digit| digit.is_ascii_hexdigit())
}

/// Returns a key that is expected though it is none.
fn wrong_key<'w>(matches: &ArgMatches<'w>) -> Option<Misuse<'w>> {
    match matches.get_str("expect") {
        Some(text) if !is_key_text(text) => Some(Misuse::NoKey(text)),
        _ => None,
    }
}

/// The most bytes that a name with `*` or `?` may have.
const LONGEST_PATTERN: usize = 1000;

/// Returns whether a name with `*` or `?` is longer than one may be.
fn is_long_pattern(name: &str) -> bool {
    name.len() > LONGEST_PATTERN && is_pattern(name.as_bytes())
}

/// Returns that a name with `*` or `?` is longer than one may be, if one is.
fn long_pattern<'w>(matches: &ArgMatches<'w>) -> Option<Misuse<'w>> {
    for option in ["NAME", "uses"] {
        let names = matches.get_strs(option).unwrap_or(&[]);
        if names.iter().any(|name| is_long_pattern(name)) {
            return Some(Misuse::LongPattern);
        }
    }
    None
}

/// Returns the form of the output that a call requests.
pub fn form_of(matches: &ArgMatches<'_>) -> Form {
    if matches.get_flag("json") {
        Form::Json
    } else {
        Form::Text
    }
}

/// Returns what `frames` lists.
fn frames<'m, 'w>(matches: &ArgMatches<'w>) -> Command<'m, 'w> {
    if matches.get_flag("breakpad") {
        return Command::BreakpadFrames;
    }
    match (number_of(matches, "old"), number_of(matches, "new")) {
        (None, None) => Command::Frames,
        (old, new) => Command::FramesIn { old, new },
    }
}

/// Returns what `map` translates.
fn map<'m, 'w>(matches: &ArgMatches<'w>, addresses: &'m [AskedAddress<'w>]) -> Command<'m, 'w> {
    Command::Map {
        addresses,
        streams: MapStreams {
            sections: number_of(matches, "sections"),
            transformed: number_of(matches, "transformed"),
            to_original: number_of(matches, "to"),
            to_transformed: number_of(matches, "from"),
        },
    }
}

/// Returns what `extract` writes.
fn extract<'m, 'w>(matches: &ArgMatches<'w>) -> Command<'m, 'w> {
    let asked = Extract {
        stream: text_of(matches, "STREAM"),
        skip: number_of(matches, "skip").unwrap_or(0),
        limit: number_of(matches, "take"),
    };
    if matches.get_flag("hex") {
        Command::Dump(asked)
    } else {
        Command::Extract(asked)
    }
}

/// Returns what a command lists of a table, or of the whole file.
fn table<'m, 'w>(name: &str, stream: Option<u32>, index: Option<u32>) -> Command<'m, 'w> {
    match name {
        "types" => Command::Types { stream, index },
        "ids" => Command::Ids { stream, index },
        "names" => Command::Names { stream },
        "sections" => Command::Sections { stream },
        "omap" => Command::Omap { stream },
        _ => Command::Summary,
    }
}

/// Returns what a command lists.
fn listing<'m, 'w>(name: &str, matches: &ArgMatches<'w>) -> Command<'m, 'w> {
    match name {
        "frames" => return frames(matches),
        "extract" => return extract(matches),
        _ => {}
    }
    let stream = number_of(matches, "stream");
    let index = number_of(matches, "index");
    table(name, stream, index)
}

/// Returns the last part of a path, or None for standard input.
fn file_name(path: &str) -> Option<&str> {
    match path {
        "-" => None,
        path => Some(Path::new(path).file_name().unwrap_or(path)),
    }
}

/// Returns what `id` shows of the file at a path.
fn identify<'w>(matches: &ArgMatches<'w>, path: &'w str) -> Identify<'w> {
    let style = match matches.get_str("format") {
        Some("ssqp") => KeyStyle::Ssqp,
        Some("breakpad") => KeyStyle::Breakpad,
        Some("guid") => KeyStyle::Guid,
        _ => KeyStyle::Key,
    };
    let given_name = matches.get_str("name");
    Identify {
        style,
        name: given_name.or(file_name(path)),
        given_name,
        expected: matches.get_str("expect"),
    }
}

/// Returns how `validate` checks files.
fn validate_options(matches: &ArgMatches<'_>) -> ValidateOptions {
    ValidateOptions {
        extent: if matches.get_flag("all") {
            Extent::All
        } else {
            Extent::First
        },
        is_strict: matches.get_flag("strict"),
        is_quiet: matches.get_flag("quiet"),
    }
}

/// Returns what `layout` shows.
fn layouts<'m, 'w>(matches: &ArgMatches<'w>, names: &'m [&'w str]) -> Layouts<'m, 'w> {
    let style = match matches.get_str("style") {
        Some("dt") => Style::Dt,
        _ => Style::C,
    };
    let order = match matches.get_str("sort") {
        Some("size") => Some(Order::Size),
        Some("holes") => Some(Order::Holes),
        Some("name") => Some(Order::Name),
        _ => None,
    };
    Layouts {
        names,
        options: Options {
            style,
            order,
            has_holes: matches.get_flag("holes"),
            depth: number_of(matches, "expand").unwrap_or(0),
            all: matches.get_flag("all"),
            case: if matches.get_flag("ignore-case") {
                LetterCase::Ignored
            } else {
                LetterCase::Exact
            },
            has_all_members: matches.get_flag("all-members"),
            line_size: number_of(matches, "cacheline"),
        },
    }
}

/// Returns what `declare` writes.
fn declarations<'m, 'w>(matches: &ArgMatches<'w>, names: &'m [&'w str]) -> Declarations<'m, 'w> {
    Declarations {
        names,
        options: DeclareOptions {
            language: if matches.get_flag("c") {
                Language::C
            } else {
                Language::Cpp
            },
            all: matches.get_flag("all"),
        },
    }
}

/// Returns what `diff` compares of types with these names.
pub fn diff_of<'m, 'w>(matches: &ArgMatches<'w>, names: &'m [&'w str]) -> Diff<'m, 'w> {
    Diff {
        old: text_of(matches, "OLD"),
        new: text_of(matches, "NEW"),
        names,
        is_layout_only: matches.get_flag("layout-only"),
    }
}

/// Returns what `map` or `where` requests of a file about these places.
pub(crate) fn place_request<'m, 'w>(
    name: &str,
    matches: &ArgMatches<'w>,
    places: &'m Places<'w>,
) -> Request<'m, 'w> {
    if name == "where" {
        Request::Locate(&places.offsets)
    } else {
        Request::List(map(matches, &places.addresses))
    }
}

/// Returns what another command requests of the file at a path, or of the types with these names.
pub fn request_of<'m, 'w>(
    name: &str,
    matches: &ArgMatches<'w>,
    path: &'w str,
    names: &'m [&'w str],
) -> Request<'m, 'w> {
    match name {
        "id" => Request::Identify(identify(matches, path)),
        "validate" => Request::Validate(validate_options(matches), path),
        "layout" => Request::Layout(layouts(matches, names)),
        "declare" => Request::Declare(declarations(matches, names)),
        name => Request::List(listing(name, matches)),
    }
}

/// Returns how many inputs of a call are standard input.
fn standard_inputs(name: &str, matches: &ArgMatches<'_>) -> usize {
    let questions: usize = if name == "ask" { 1 } else { 0 };
    let mut count = questions;
    for id in ["FILE", "OLD", "NEW", "IMAGE"] {
        let paths = matches.get_strs(id).unwrap_or(&[]);
        let inputs = paths.iter().filter(|path| **path == "-");
        count = count.saturating_add(inputs.count());
    }
    count
}

/// Returns an option that is given, and what is given that it can't be used with.
fn beside(name: &str, matches: &ArgMatches<'_>) -> Option<(&'static str, &'static str)> {
    match name {
        "types" | "ids" => {
            matches.get_str("index")?;
            Some(("index", selecting(matches)?))
        }
        "frames" => Some(("breakpad", beside_breakpad(matches)?)),
        _ => None,
    }
}

/// Checks what the description of a command doesn't say of its arguments.
///
/// # Errors
/// Fails with `NoNumber` if an argument that has to be a number isn't one, with `NoKey` if one that has
/// to be a key isn't one, with `LongPattern` if a name with `*` or `?` has more than 1,000 bytes, with
/// `InputTwice` if two inputs would be read from standard input, and with `Beside` if an option is given
/// with what it can't be used with.
pub fn check_call<'w>(name: &str, matches: &ArgMatches<'w>) -> Result<(), Misuse<'w>> {
    let misuse = wrong_number(matches).or(wrong_key(matches));
    if let Some(misuse) = misuse.or(long_pattern(matches)) {
        return Err(misuse);
    }
    if standard_inputs(name, matches) > 1 {
        return Err(Misuse::InputTwice);
    }
    match beside(name, matches) {
        Some((option, other)) => Err(Misuse::Beside(option, other)),
        None => Ok(()),
    }
}
