//! What a call of `types` or `ids` selects of a table, and which arguments can't be used together.

use crate::command::{Selected, Table};
use clap::ArgMatches;
use pdb_base::TypeIndex;
use pdb_cli::number;
use pdb_file::{ID_STREAM, TYPE_STREAM};
use pdbdump_tables::Selection;

/// What selects records and has a value, and the options that have none.
const WITH_VALUES: [&str; 3] = ["NAME", "kind", "uses"];

const FLAGS: [&str; 2] = ["no-forward", "ignore-case"];

/// Returns what a call gives that selects records, if it gives something.
pub(crate) fn selecting(matches: &ArgMatches<'_>) -> Option<&'static str> {
    for name in WITH_VALUES {
        if matches.get_strs(name).is_some() {
            return Some(name);
        }
    }
    FLAGS.iter().find(|flag| matches.get_flag(flag)).copied()
}

/// Returns the index of the type to which the records refer, if it is given by its index.
fn used_index(matches: &ArgMatches<'_>) -> Option<TypeIndex> {
    matches
        .get_str("uses")
        .and_then(|text| number(text))
        .map(TypeIndex)
}

/// Returns the words behind an option, or none of them if it gives an index.
fn names_only<'m, 'w>(words: &'m [&'w str], has_index: bool) -> &'m [&'w str] {
    let count = if has_index { 0 } else { words.len() };
    &words[..count]
}

/// Returns what a call of `types` or `ids` selects, with the names, the kinds and the types that are
/// used that it gives.
pub(crate) fn selected<'m, 'w>(
    name: &str,
    matches: &ArgMatches<'w>,
    names: &'m [&'w str],
    kinds: &'m [&'w str],
    used: &'m [&'w str],
) -> Selected<'m, 'w> {
    let (table, own_stream) = if name == "ids" {
        (Table::Ids, ID_STREAM)
    } else {
        (Table::Types, TYPE_STREAM)
    };
    let uses = used_index(matches);
    let selection = Selection {
        names,
        ignores_case: matches.get_flag("ignore-case"),
        kinds,
        leaves_out_forward: matches.get_flag("no-forward"),
        uses,
        used_names: names_only(used, uses.is_some()),
    };
    Selected {
        table,
        number: matches
            .get_str("stream")
            .and_then(|text| number(text))
            .unwrap_or(own_stream),
        selection,
    }
}

/// Returns what a call of `frames` gives that can't be used with `--breakpad`, if that is given too.
pub(crate) fn beside_breakpad(matches: &ArgMatches<'_>) -> Option<&'static str> {
    if !matches.get_flag("breakpad") {
        return None;
    }
    for option in ["old", "new"] {
        if matches.get_str(option).is_some() {
            return Some(option);
        }
    }
    if matches.get_flag("json") {
        Some("json")
    } else {
        None
    }
}
