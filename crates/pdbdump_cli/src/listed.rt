//! What a command writes of a file.

ghost use Rattle.std.specs.Prelude.{◌≡◌, None, unwrap_or};
ghost use Rattle.pdb_file.specs.File.{id_stream, type_stream};
ghost use Rattle.pdb_msf.specs.File.{stream_of};
ghost use Rattle.pdb_output.specs.Output.{done_of};
ghost use Rattle.pdbdump_cli.specs.Listed.{AreItems, Does, DoesIn};
ghost use Rattle.pdbdump_cli.specs.Told.{EndsTold, TellsLacks};
ghost use Rattle.pdbdump_tables.specs.Reading.{Reads, WritesRead};

use crate::command::Command;
use crate::extracted::{dump_opened, extract_opened};
use crate::incomplete::{report_list, report_tables};
use crate::input_file::InputFile;
use pdb_base::{IdIndex, TypeIndex};
use pdb_container::{PDB, Result, Source};
use pdb_file::{ID_STREAM, TYPE_STREAM};
use pdb_output::Output;
use pdbdump_rows::Form;
use pdbdump_tables::{
    Completeness, id_at, items, last_stream, list_breakpad_frames, list_frames, list_frames_in,
    list_map, list_names, list_omap, list_sections, list_summary, type_at,
};
use std::alloc::Global;
use std::io::Write;

/// Returns the number of the stream whose types are listed.
fn types_number(stream: Option<u32>) -> u32
    ensures { result ≡ unwrap_or stream type_stream }
{
    stream.unwrap_or(TYPE_STREAM)
}

/// Returns the number of the stream whose ids are listed.
fn ids_number(stream: Option<u32>) -> u32
    ensures { result ≡ unwrap_or stream id_stream }
{
    stream.unwrap_or(ID_STREAM)
}

/// Lists the types of the table in a stream, or only the one of an index. It is noted if one of several
/// can't be parsed, and how many there are.
fn list_types<S: Source + Drop, W: Write>(
    alloc: Global,
    file: PDB<S>,
    number: u32,
    index: Option<u32>,
    form: Form,
    found: &mut Completeness,
    out: &mut Output<W>,
) -> Result<()>
    ensures { WritesRead (Reads (S.state file.source) (λ bytes. stream_of bytes file.head number None))
        (AreItems form index) out.old out.new result }
{
    let stream = last_stream(alloc, file, number)?;
    match index {
        Some(index) => type_at(alloc, stream, number, index, form, out),
        None => items::<TypeIndex, W>(alloc, stream, number, form, found, out),
    }
}

/// Lists the ids of the table in a stream, or only the one of an index. It is noted if one of several
/// can't be parsed, and how many there are.
fn list_ids<S: Source + Drop, W: Write>(
    alloc: Global,
    file: PDB<S>,
    number: u32,
    index: Option<u32>,
    form: Form,
    found: &mut Completeness,
    out: &mut Output<W>,
) -> Result<()>
    ensures { WritesRead (Reads (S.state file.source) (λ bytes. stream_of bytes file.head number None))
        (AreItems form index) out.old out.new result }
{
    let stream = last_stream(alloc, file, number)?;
    match index {
        Some(index) => id_at(alloc, stream, number, index, form, out),
        None => items::<IdIndex, W>(alloc, stream, number, form, found, out),
    }
}

/// Reports what a list of records lacks, and what the tables in a summary lack. Returns whether all is
/// there; parts of a summary with an error have lines that say so.
fn report_lacks<E: Write>(
    alloc: Global,
    command: Command<'_, '_>,
    found: &Completeness,
    err: &mut Output<E>,
) -> bool
    ensures { TellsLacks command.entry err.old err.new result }
{
    match command {
        Command::Types { .. } => report_list(alloc, found, err),
        Command::Ids { .. } => report_list(alloc, found, err),
        Command::Summary => report_tables(alloc, found, err) && found.is_whole,
        _ => found.is_whole,
    }
}

/// Returns whether what was listed is complete, and reports if it isn't, unless a fault ended the
/// listing.
fn conclude<E: Write>(
    alloc: Global,
    command: Command<'_, '_>,
    listed: Result<()>,
    found: &Completeness,
    err: &mut Output<E>,
) -> Result<bool>
    ensures done { done_of result ≡ listed }
    ensures told { EndsTold command.entry err.old err.new result }
{
    match listed {
        Ok(()) => Ok(report_lacks(alloc, command, found, err)),
        Err(fault) => Err(fault),
    }
}

/// Writes what a command lists of a file of this size that was opened. It is noted if a part or a
/// record that it lists can't be read, and how many records a table has.
fn list_command<S: Source + Drop, W: Write>(
    alloc: Global,
    file: PDB<S>,
    size: u64,
    command: Command<'_, '_>,
    form: Form,
    found: &mut Completeness,
    out: &mut Output<W>,
) -> Result<()>
    ensures { DoesIn form command.entry (S.state file.source) file.head out.old out.new result }
{
    match command {
        Command::Summary => list_summary(alloc, file, size, form, found, out),
        Command::Types { stream, index } => {
            list_types(alloc, file, types_number(stream), index, form, found, out)
        }
        Command::Ids { stream, index } => {
            list_ids(alloc, file, ids_number(stream), index, form, found, out)
        }
        Command::Names { stream } => list_names(alloc, file, stream, form, out),
        Command::Sections { stream } => list_sections(alloc, file, stream, form, out),
        Command::Omap { stream } => list_omap(alloc, file, stream, form, out),
        Command::Frames => list_frames(alloc, file, form, out),
        Command::FramesIn { old, new } => list_frames_in(alloc, file, old, new, form, out),
        Command::BreakpadFrames => list_breakpad_frames(alloc, file, out),
        Command::Map { addresses, streams } => list_map(alloc, file, addresses, streams, form, out),
        Command::Extract(asked) => extract_opened(alloc, file, &asked, out),
        Command::Dump(asked) => dump_opened(alloc, file, &asked, out),
    }
}

/// Writes what a command lists of a file of this size that was opened. Returns whether each part and
/// each record that it lists could be read, and each table has as many records as its header counts.
fn list_opened<S: Source + Drop, O: Write, E: Write>(
    alloc: Global,
    file: PDB<S>,
    size: u64,
    command: Command<'_, '_>,
    form: Form,
    out: &mut Output<O>,
    err: &mut Output<E>,
) -> Result<bool>
    ensures does { DoesIn form command.entry (S.state file.source) file.head out.old out.new (done_of result) }
    ensures told { EndsTold command.entry err.old err.new result }
{
    let mut found = Completeness::new();
    let listed = list_command(alloc, file, size, command, form, &mut found, out);
    conclude(alloc, command, listed, &found, err)
}

/// Writes what a command lists of a file: a line for each record, or the bytes of a stream. Returns
/// whether each part and each record that it lists could be read, and each table has as many records
/// as its header counts. For one that can't be read, a line has the error. What a list of records
/// lacks, and what the tables in a summary lack, is reported.
///
/// # Errors
/// Fails with the errors of `PDB::open`, and then with those of the command, after the lines up to
/// the first fault; with `IoError` if the writer fails; and with `OutOfMemory` if an allocation
/// fails. Then nothing is reported.
pub fn list<S: Source + Drop, O: Write, E: Write>(
    alloc: Global,
    file: InputFile<S>,
    command: Command<'_, '_>,
    form: Form,
    out: &mut Output<O>,
    err: &mut Output<E>,
) -> Result<bool>
    ensures does { Does form command.entry (S.state file.source) out.old out.new (done_of result) }
    ensures told { EndsTold command.entry err.old err.new result }
{
    let InputFile { source, size } = file;
    let file = PDB::open(alloc, source)?;
    list_opened(alloc, file, size, command, form, out, err)
}
