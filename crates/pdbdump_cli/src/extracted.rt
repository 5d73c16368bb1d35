//! What `extract` writes of a file.

ghost use Rattle.pdbdump_cli.specs.Listed.{IsAppended, IsExtracted};
ghost use Rattle.pdbdump_tables.specs.Reading.{IsKeptOpen};

use crate::command::Extract;
use pdb_cli::number;
use pdb_container::{Msf, PDB, Result, Source};
use pdb_output::Output;
use pdbdump_tables::{stream_meant, write_dump, write_part};
use std::alloc::Global;
use std::io::Write;

/// Returns the number of the stream that a word means: the number that it spells, or else that of
/// its role or name.
fn number_meant<S: Source>(alloc: Global, file: &mut PDB<S>, word: &str) -> Result<u32>
    ensures { IsKeptOpen S.state file.old file.new }
{
    match number(word) {
        Some(number) => Ok(number),
        None => stream_meant(alloc, file, word),
    }
}

/// Writes a part of the bytes of a stream of a file that was opened.
pub(crate) fn extract_opened<S: Source + Drop, W: Write>(
    alloc: Global,
    mut file: PDB<S>,
    asked: &Extract<'_>,
    out: &mut Output<W>,
) -> Result<()>
    ensures { IsExtracted asked.now (S.state file.source) file.head out.old out.new result }
{
    let number = number_meant(alloc, &mut file, asked.stream)?;
    let stream = file.get(alloc, number, None)?;
    write_part(&stream, asked.skip, asked.limit, out)
}

/// Writes a part of the bytes of a stream of a file that was opened as a hex dump.
pub(crate) fn dump_opened<S: Source + Drop, W: Write>(
    alloc: Global,
    mut file: PDB<S>,
    asked: &Extract<'_>,
    out: &mut Output<W>,
) -> Result<()>
    ensures { IsAppended out.old out.new result }
{
    let number = number_meant(alloc, &mut file, asked.stream)?;
    let stream = file.get(alloc, number, None)?;
    write_dump(alloc, &stream, asked.skip, asked.limit, out)
}
