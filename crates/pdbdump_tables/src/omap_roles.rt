//! The OMAP tables of a file, by the roles of their streams.

#![tactic(auto, using(pdbdump_rows::proofs::lemmas::Line::adding))]

ghost use Rattle.std.specs.Prelude.{None};
ghost use Rattle.pdb_msf.specs.File.{ReadsFile, stream_of};
ghost use Rattle.pdbdump_rows.specs.Line.{IsRow, AddsRow, WritesWhat};
ghost use Rattle.pdbdump_rows.specs.Lines.{row_text};
ghost use Rattle.pdbdump_tables.specs.Files.{AreBothListed, IsOmapListed, role_listing, role_shown};
ghost use Rattle.pdbdump_tables.specs.Listing.{IsListed};

use crate::omap::write_omap;
use pdb_base::{Result, Stream};
use pdb_file::{DBIExtraStreams, PDB};
use pdb_msf::{Msf, Source};
use pdb_output::Output;
use pdbdump_rows::{Form, Line, Value, optional_number, write_line};
use std::alloc::Global;
use std::io::Write;

/// Adds the fields of the role of the table that follows, and the number of its stream.
fn show_role(line: &mut Line, role: &'static str, number: Option<u32>)
    ensures { AddsRow (role_shown role.now) line.old line.new }
{
    line.field("role", Value::Word(role));
    line.field("stream", optional_number(number));
}

/// Writes the role of the table that follows, and the number of its stream.
#[tactic(auto, using(pdbdump_rows::proofs::lemmas::Line::showing))]
fn write_role<W: Write>(
    alloc: Global,
    role: &'static str,
    number: Option<u32>,
    form: Form,
    out: &mut Output<W>,
) -> Result<()>
    ensures { WritesWhat (IsRow (row_text form) (role_shown role.now)) out.old out.new result }
{
    let mut line = Line::new(alloc);
    line.begin(form);
    show_role(&mut line, role, number);
    write_line(&mut line, out)
}

/// Lists the records of the OMAP table in the stream that has a role, after a line that says which
/// role it is, or the error of the stream. Lists nothing if no stream has the role.
fn list_role<W: Write>(
    alloc: Global,
    role: &'static str,
    number: Option<u32>,
    stream: Result<Option<Stream>>,
    form: Form,
    out: &mut Output<W>,
) -> Result<()>
    ensures { IsListed form (role_listing role.now stream) out.old out.new result }
{
    match stream {
        Ok(None) => Ok(()),
        Ok(Some(stream)) => {
            write_role(alloc, role, number, form, out)?;
            write_omap(alloc, stream, form, out)
        }
        Err(fault) => {
            write_role(alloc, role, number, form, out)?;
            Err(fault)
        }
    }
}

/// Lists the records of both OMAP tables, each table after a line with its role and its stream.
fn list_both<S: Source, W: Write>(
    alloc: Global,
    file: &mut PDB<S>,
    roles: &DBIExtraStreams,
    form: Form,
    out: &mut Output<W>,
) -> Result<()>
    ensures { AreBothListed form (S.state file.old.source) file.old.head roles.now out.old out.new result }
{
    let to_number = roles.omap_to_src.msf_number();
    let from_number = roles.omap_from_src.msf_number();
    let to_source = file.numbered_stream(alloc, to_number);
    let from_source = file.numbered_stream(alloc, from_number);
    list_role(alloc, "omap_to_src", to_number, to_source, form, out)?;
    list_role(alloc, "omap_from_src", from_number, from_source, form, out)
}

/// Reads the stream of a number.
fn read_stream<S: Source>(alloc: Global, file: &mut PDB<S>, number: u32) -> Result<Stream>
    ensures { ReadsFile S.state file.old file.new (λ stream. stream) result
        (λ file head. stream_of file head number None) }
{
    file.get(alloc, number, None)
}

/// Lists the records of the OMAP table in a stream, and then whether their sources never decrease.
///
/// If no stream is given, lists both tables of the file, each after a line with its role and its
/// stream: first the one that leads from the image as it is loaded to the original one, and then
/// the one that leads back. For a role that has no stream, nothing is listed.
///
/// # Errors
/// If no stream is given, fails as `extra_streams` does. Fails as `Msf::get` does for a stream, and
/// then with `InvalidStreamLength` if its length isn't a multiple of eight; the table before it,
/// and the line with its own role, have been listed by then. Fails with `IoError` if the writer
/// fails, and with `OutOfMemory` if an allocation fails.
pub fn list_omap<S: Source + Drop, W: Write>(
    alloc: Global,
    mut file: PDB<S>,
    stream: Option<u32>,
    form: Form,
    out: &mut Output<W>,
) -> Result<()>
    ensures { IsOmapListed form (S.state file.source) file.head stream out.old out.new result }
{
    match stream {
        Some(number) => {
            let stream = read_stream(alloc, &mut file, number)?;
            write_omap(alloc, stream, form, out)
        }
        None => {
            let roles = file.extra_streams(alloc)?;
            list_both(alloc, &mut file, &roles, form, out)
        }
    }
}
