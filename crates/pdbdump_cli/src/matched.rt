//! What `match` does with a file.

ghost use Rattle.pdbdump_cli.specs.Identified.{ShowsIdentity, ShowsLine};

use crate::command::Matching;
use crate::identified::identity_in;
use crate::input_file::InputFile;
use pdb_container::{Result, Source};
use pdb_file::Identity;
use pdb_output::Output;
use pdbdump_rows::Form;
use pdbdump_tables::{Pair, write_match};
use std::alloc::Global;
use std::io::Write;

/// Writes whether a database is the one that an image names, and returns it.
fn write_matched<W: Write>(
    alloc: Global,
    asked: &Matching<'_, '_>,
    identity: &Identity,
    form: Form,
    out: &mut Output<W>,
) -> Result<bool>
    ensures { ShowsLine form out.old out.new result }
{
    let pair = Pair {
        image_path: asked.image_path,
        image: asked.image,
        path: asked.path,
        identity,
    };
    write_match(alloc, &pair, form, out)?;
    Ok(asked.image.is_of(identity))
}

/// Identifies a file, and writes and returns whether it is the database that an image names.
pub(crate) fn match_in<S: Source + Drop, W: Write>(
    alloc: Global,
    file: InputFile<S>,
    asked: &Matching<'_, '_>,
    form: Form,
    out: &mut Output<W>,
) -> Result<bool>
    ensures { ShowsIdentity form (S.state file.source) out.old out.new result }
{
    match identity_in(alloc, file.source) {
        Ok(identity) => write_matched(alloc, asked, &identity, form, out),
        Err(fault) => Err(fault),
    }
}
