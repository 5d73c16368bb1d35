//! The arguments of the program, parsed by the description of its commands.

use crate::commands::{
    ABOUT, ASK, Count, DECLARE, DETAILS, DIFF, Description, EXTRACT, FRAMES, Flag, ID, IDS, LAYOUT,
    MAP, MATCH, NAMES, OMAP, Operand, SECTIONS, SUMMARY, TYPES, VALIDATE, Value, WHERE,
};
use clap::{Arg, ArgAction, ArgMatches, Command, Error};
use std::alloc::{AllocError, Global};

/// The version of the program.
const VERSION: &str = "0.2.0";

/// Returns the letter of an option that also has a short form.
fn letter_of(name: &str) -> Option<char> {
    match name {
        "ignore-case" => Some('i'),
        _ => None,
    }
}

/// Returns the argument of an option.
fn flag_argument<'a>(alloc: Global, flag: &Flag) -> Arg<'a> {
    let mut argument = Arg::new(alloc, flag.name).long(flag.name).help(flag.help);
    if let Some(letter) = letter_of(flag.name) {
        argument = argument.short(letter);
    }
    match flag.value {
        Value::Nothing => argument.action(ArgAction::SetTrue),
        Value::Text(value) | Value::Number(value) => argument.value_name(value),
        Value::OneOf(value, words) => argument.value_name(value).value_parser(words),
        Value::SomeOf(value, words) => argument
            .value_name(value)
            .value_parser(words)
            .hide_possible_values(true)
            .action(ArgAction::Append),
    }
}

/// Returns the argument of an operand.
fn operand_argument<'a>(alloc: Global, operand: &Operand) -> Result<Arg<'a>, AllocError> {
    let argument = Arg::new(alloc, operand.name).help(operand.help);
    match operand.count {
        Count::One => Ok(argument.required(true)),
        Count::Some => Ok(
            argument
                .required(true)
                .num_args(1..)
                .action(ArgAction::Append),
        ),
        Count::Any => Ok(argument.num_args(0..).action(ArgAction::Append)),
        Count::UnlessAll => argument
            .num_args(1..)
            .action(ArgAction::Append)
            .conflicts_with("all")?
            .required_unless_present("all"),
    }
}

/// Returns a command with its arguments.
fn subcommand<'a>(alloc: Global, described: &Description) -> Result<Command<'a>, AllocError> {
    let mut command = Command::new(alloc, described.name)
        .about(described.about)
        .after_help(described.details);
    for flag in described.flags {
        command = command.arg(flag_argument(alloc, flag))?;
    }
    for operand in described.operands {
        command = command.arg(operand_argument(alloc, operand)?)?;
    }
    Ok(command)
}

/// Returns the program with one more command.
fn with<'a>(
    alloc: Global,
    program: Command<'a>,
    described: &Description,
) -> Result<Command<'a>, AllocError> {
    program.subcommand(subcommand(alloc, described)?)
}

/// Returns the program with the commands for a summary and for tables.
fn with_tables<'a>(alloc: Global, program: Command<'a>) -> Result<Command<'a>, AllocError> {
    let program = with(alloc, program, &SUMMARY)?;
    let program = with(alloc, program, &TYPES)?;
    let program = with(alloc, program, &IDS)?;
    with(alloc, program, &NAMES)
}

/// Returns the program with the commands for what has addresses.
fn with_addresses<'a>(alloc: Global, program: Command<'a>) -> Result<Command<'a>, AllocError> {
    let program = with(alloc, program, &SECTIONS)?;
    let program = with(alloc, program, &OMAP)?;
    let program = with(alloc, program, &FRAMES)?;
    with(alloc, program, &MAP)
}

/// Returns the program with the commands for questions and for whole files.
fn with_files<'a>(alloc: Global, program: Command<'a>) -> Result<Command<'a>, AllocError> {
    let program = with(alloc, program, &ASK)?;
    let program = with(alloc, program, &ID)?;
    let program = with(alloc, program, &MATCH)?;
    let program = with(alloc, program, &EXTRACT)?;
    let program = with(alloc, program, &WHERE)?;
    with(alloc, program, &VALIDATE)
}

/// Returns the program with the commands for types as a program has them.
fn with_types<'a>(alloc: Global, program: Command<'a>) -> Result<Command<'a>, AllocError> {
    let program = with(alloc, program, &LAYOUT)?;
    let program = with(alloc, program, &DIFF)?;
    with(alloc, program, &DECLARE)
}

/// Returns the program with its commands.
fn program_command<'a>(alloc: Global) -> Result<Command<'a>, AllocError> {
    let mut program = Command::new(alloc, "pdbdump")
        .bin_name("pdbdump")?
        .version(VERSION)
        .about(ABOUT)
        .after_help(DETAILS)
        .no_binary_name(true)
        .subcommand_required(true)
        .arg_required_else_help(true);
    program = with_tables(alloc, program)?;
    program = with_addresses(alloc, program)?;
    program = with_files(alloc, program)?;
    with_types(alloc, program)
}

/// Parses arguments.
///
/// # Errors
/// Fails with the text of the help or of the version if it is requested, with a usage error if the
/// program doesn't take the arguments, and with `OutOfMemory` if an allocation fails.
pub fn parse<'w>(alloc: Global, words: &'w [&'w str]) -> Result<ArgMatches<'w>, Error> {
    program_command(alloc)?.try_get_matches_from(words)
}
