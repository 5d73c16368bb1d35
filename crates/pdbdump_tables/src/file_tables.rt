//! Lists of the tables of a file. A stream that isn't given is found by its role or its name. For a
//! role that has no stream, nothing is listed.
ghost use Rattle.pdb_file.specs.File.{file_frame_table};
ghost use Rattle.pdb_msf.specs.File.{ReadsFile};
ghost use Rattle.pdbdump_tables.specs.Files.{frame_table_in, names_in, section_stream, stream_listing};
ghost use Rattle.pdbdump_tables.specs.Listing.{IsListed, whole};
ghost use Rattle.pdbdump_tables.specs.Reading.{Reads, WritesRead};
ghost use Rattle.pdbdump_tables.specs.Tables.{all_names, frames_listing, name_rows, sections_listing};

use crate::frame_programs::Programs;
use crate::frames::write_frames;
use crate::names::write_table;
use crate::sections::write_sections;
use pdb_base::{Result, Stream};
use pdb_file::PDB;
use pdb_frames::FrameTable;
use pdb_msf::{Msf, Source};
use pdb_output::Output;
use pdb_space::StringTable;
use pdbdump_rows::Form;
use std::alloc::Global;
use std::io::Write;

/// Reads the stream of section headers: the one of a number, or else the one that has their role. It
/// is None if no stream has the role.
#[tactic(auto, unfolding(crate::specs::Files::section_stream))]
fn section_stream<S: Source>(
    alloc: Global,
    file: &mut PDB<S>,
    given: Option<u32>,
) -> Result<Option<Stream>>
    ensures { ReadsFile S.state file.old file.new (λ stream. stream) result
        (λ file head. section_stream file head given) }
{
    if given.is_some() {
        return file.numbered_stream(alloc, given);
    }
    let number = file.extra_streams(alloc)?.section_headers.msf_number();
    file.numbered_stream(alloc, number)
}

/// Lists the section headers in a stream, or in the one that has their role if no stream is given.
///
/// # Errors
/// If no stream is given, fails as `extra_streams` does. Fails as `Msf::get` does for the stream,
/// and with `UnexpectedEof`, after the lines of the whole headers, if the last one is cut short.
/// Fails with `IoError` if the writer fails, and with `OutOfMemory` if an allocation fails.
pub fn list_sections<S: Source + Drop, W: Write>(
    alloc: Global,
    mut file: PDB<S>,
    stream: Option<u32>,
    form: Form,
    out: &mut Output<W>,
) -> Result<()>
    ensures { WritesRead (Reads (S.state file.source) (λ bytes. section_stream bytes file.head stream))
        (λ stream. IsListed form (stream_listing sections_listing stream)) out.old out.new result }
{
    match section_stream(alloc, &mut file, stream)? {
        Some(stream) => write_sections(alloc, &stream, form, out),
        None => Ok(()),
    }
}

/// Reads the string table in a stream, or in the one named `/names` if no stream is given.
#[tactic(auto, unfolding(crate::specs::Files::names_in))]
fn names_in<S: Source>(alloc: Global, file: &mut PDB<S>, stream: Option<u32>) -> Result<StringTable>
    ensures { ReadsFile S.state file.old file.new (λ names. names) result
        (λ file head. names_in file head stream) }
{
    match stream {
        Some(number) => StringTable::parse(file.get(alloc, number, None)?),
        None => file.string_table(alloc),
    }
}

/// Lists the names of the string table in a stream, or in the one named `/names` if no stream is
/// given.
///
/// # Errors
/// If no stream is given, fails as `string_table` does; otherwise as `Msf::get` does for the
/// stream, and then as `StringTable::parse` does for its bytes. Fails with `IoError` if the writer
/// fails, and with `OutOfMemory` if an allocation fails.
pub fn list_names<S: Source + Drop, W: Write>(
    alloc: Global,
    mut file: PDB<S>,
    stream: Option<u32>,
    form: Form,
    out: &mut Output<W>,
) -> Result<()>
    ensures { WritesRead (Reads (S.state file.source) (λ bytes. names_in bytes file.head stream))
        (λ names. IsListed form (whole (name_rows (all_names names)))) out.old out.new result }
{
    let table = names_in(alloc, &mut file, stream)?;
    write_table(alloc, &table, form, out)
}

/// Lists the frames of a file, by their starts, as `FrameTable::iter` yields them.
///
/// # Errors
/// Fails as `frame_table` does, with `IoError` if the writer fails, and with `OutOfMemory` if an
/// allocation fails.
pub fn list_frames<S: Source + Drop, W: Write>(
    alloc: Global,
    mut file: PDB<S>,
    form: Form,
    out: &mut Output<W>,
) -> Result<()>
    ensures { WritesRead (Reads (S.state file.source) (λ bytes. file_frame_table bytes file.head))
        (λ frames. IsListed form (frames_listing frames)) out.old out.new result }
{
    let table = file.frame_table(alloc)?;
    let mut programs = Programs::of_file(alloc, &mut file)?;
    write_frames(alloc, &table, &mut programs, form, out)
}

/// Reads the frames of two streams, each of which may be absent.
#[tactic(auto, unfolding(crate::specs::Files::frame_table_in))]
fn frame_table_in<S: Source>(
    alloc: Global,
    file: &mut PDB<S>,
    old: Option<u32>,
    new: Option<u32>,
) -> Result<FrameTable>
    ensures { ReadsFile S.state file.old file.new (λ frames. frames) result
        (λ file head. frame_table_in file head old new) }
{
    let old = file.numbered_stream(alloc, old)?;
    let new = file.numbered_stream(alloc, new)?;
    FrameTable::parse(old, new)
}

/// Lists the frames of two streams, one of records of the older format and one of the newer, each
/// of which may be absent.
///
/// # Errors
/// Fails as `Msf::get` does for the streams, the older one first, and then as `FrameTable::parse`
/// does. Fails with `IoError` if the writer fails, and with `OutOfMemory` if an allocation fails.
pub fn list_frames_in<S: Source + Drop, W: Write>(
    alloc: Global,
    mut file: PDB<S>,
    old: Option<u32>,
    new: Option<u32>,
    form: Form,
    out: &mut Output<W>,
) -> Result<()>
    ensures { WritesRead (Reads (S.state file.source) (λ bytes. frame_table_in bytes file.head old new))
        (λ frames. IsListed form (frames_listing frames)) out.old out.new result }
{
    let table = frame_table_in(alloc, &mut file, old, new)?;
    let mut programs = Programs::of_file(alloc, &mut file)?;
    write_frames(alloc, &table, &mut programs, form, out)
}
