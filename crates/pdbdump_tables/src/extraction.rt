//! The bytes of a stream.

ghost use Rattle.std.specs.Prelude.{◌≡◌, drop, take};
ghost use Rattle.pdb_output.specs.Output.{Writes};
ghost use Rattle.pdbdump_tables.specs.{Extracted.part_of, Reading.IsKeptOpen};

use crate::headers::debug_header;
use crate::roles::{fixed_stream, is_listed_role, listed_stream};
use pdb_base::{Error, Result, Stream, StreamIndex};
use pdb_file::PDB;
use pdb_msf::Source;
use pdb_output::Output;
use std::alloc::Global;
use std::io::Write;

/// Returns the stream to which the header of another stream gives the role of a word, or None if
/// there is no such role.
fn header_stream<S: Source>(
    alloc: Global,
    file: &mut PDB<S>,
    word: &str,
) -> Result<Option<StreamIndex>>
    ensures { IsKeptOpen S.state file.old file.new }
{
    match word {
        "globals" => Ok(Some(debug_header(alloc, file)?.gs_symbols_stream)),
        "publics" => Ok(Some(debug_header(alloc, file)?.ps_symbols_stream)),
        "symbol_records" => Ok(Some(debug_header(alloc, file)?.symbol_records_stream)),
        "type_hashes" => {
            let types = file.type_information(alloc)?;
            Ok(Some(StreamIndex(types.header().tpi_hash_stream)))
        }
        "id_hashes" => {
            let ids = file.id_information(alloc)?;
            Ok(Some(StreamIndex(ids.header().tpi_hash_stream)))
        }
        _ if is_listed_role(word) => Ok(listed_stream(&file.extra_streams(alloc)?, word)),
        _ => Ok(None),
    }
}

/// Returns the number of the first stream that has a name.
fn name_number<S: Source>(alloc: Global, file: &mut PDB<S>, name: &str) -> Result<u32>
    ensures { IsKeptOpen S.state file.old file.new }
{
    let information = file.pdb_information(alloc)?;
    let names = information.stream_names(alloc)?;
    names.number(name.as_bytes())
}

/// Returns the number of the stream that a word means: one of the roles that `list_summary` shows, or
/// else the name of a stream, such as `/names`.
///
/// # Errors
/// For a role that a header gives, fails as reading that header does, and with `StreamNameNotFound` if
/// no stream has the role. For a name fails as `PDB::named_stream` does, up to the number of the
/// stream.
pub fn stream_meant<S: Source>(alloc: Global, file: &mut PDB<S>, word: &str) -> Result<u32>
    ensures { IsKeptOpen S.state file.old file.new }
{
    if let Some(number) = fixed_stream(word) {
        return Ok(number);
    }
    match header_stream(alloc, file, word)? {
        Some(index) => index.msf_number().ok_or(Error::StreamNameNotFound),
        None => name_number(alloc, file, word),
    }
}

/// Returns the bytes after the first `skip`, or none if there are no more than these.
#[tactic(auto, using(std::proofs::lemmas::List::drop_min))]
fn after(bytes: &[u8], skip: usize) -> &[u8]
    ensures { result.now ≡ drop skip bytes.now }
{
    &bytes[skip.min(bytes.len())..]
}

/// Returns the first `limit` bytes, or all if there are no more.
#[tactic(auto, using(std::proofs::lemmas::List::take_min))]
fn at_most(bytes: &[u8], limit: usize) -> &[u8]
    ensures { result.now ≡ take limit bytes.now }
{
    &bytes[..limit.min(bytes.len())]
}

/// Returns a part of the bytes of a stream: those after the first `skip`, and of these at most
/// `limit`.
pub(crate) fn part_of(bytes: &[u8], skip: u32, limit: Option<u32>) -> &[u8]
    ensures { result.now ≡ part_of skip limit bytes.now }
{
    let rest = after(bytes, skip as usize);
    match limit {
        Some(limit) => at_most(rest, limit as usize),
        None => rest,
    }
}

/// Writes the bytes of a stream after the first `skip`, and of these at most `limit`.
///
/// # Errors
/// Fails with `IoError` if the writer fails, and with `OutOfMemory` if an allocation fails.
pub fn write_part<W: Write>(
    stream: &Stream,
    skip: u32,
    limit: Option<u32>,
    out: &mut Output<W>,
) -> Result<()>
    ensures { Writes (part_of skip limit stream.now) out.old out.new result }
{
    out.write(part_of(stream.as_slice(), skip, limit))
}
