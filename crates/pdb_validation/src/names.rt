//! The names of streams in stream 1, and the string table.

ghost use Rattle.std.specs.Prelude.{◌≡◌, ◌≤◌, length, Ok};
ghost use Rattle.pdb_base.specs.Reading.{word_at};
ghost use Rattle.std.specs.Option.{option_map};
ghost use Rattle.pdb_base.specs.Answer.{Answers, Gives};
ghost use Rattle.pdb_msf.specs.Source.{ReadsSource};
ghost use Rattle.pdb_validation.specs.Finding.{finding_view};
ghost use Rattle.pdb_validation.specs.Names.{last_name, named_fault, names_fault, string_table_fault};
ghost use Rattle.pdb_validation.specs.Names.{string_table_number, whole_names};

use crate::finding::{Finding, Part, absence, in_stream};
use crate::problem::Problem;
use crate::read::read;
use crate::scope::Scope;
use crate::words::word_at;
use pdb_base::{Error, Result, Stream};
use pdb_file::PDBInformation;
use pdb_msf::{CountedSource, Source};
use pdb_space::{StringRef, StringTable};
use std::alloc::Global;

/// The number of the stream that identifies the file and names streams.
pub(crate) const INFORMATION_STREAM: u32 = 1;

/// The size of the header of a string table in bytes.
const HEADER_SIZE: usize = 12;

/// Reads the names of streams, and returns the number of the stream of the string table, if there
/// is one.
#[tactic(auto, unfolding(crate::specs::Names::string_table_number))]
pub(crate) fn string_table_number(alloc: Global, stream: Stream) -> Result<Option<u32>>
    ensures { Answers (λ number. number) result (string_table_number stream) }
{
    let information = PDBInformation::parse(stream)?;
    let names = information.stream_names(alloc)?;
    Ok(names.number(b"/names").ok())
}

/// Returns the size of the names that the header of a string table says, or 0 if the stream ends
/// before it.
fn names_size(stream: &Stream) -> u32
    ensures { 12 ≤ length stream.now → result ≡ word_at 8 stream.now }
{
    let bytes = stream.as_slice();
    if bytes.len() < HEADER_SIZE {
        return 0;
    }
    word_at(8, bytes)
}

/// Checks that there is a name at the last of the names' bytes, and so at each.
fn check_last(names: &StringTable, size: u32) -> Result<()>
    requires { length names.now ≡ size }
    ensures { Gives (λ done. done) result (last_name names.now) }
{
    if size == 0 {
        return Ok(());
    }
    names.get(StringRef(size - 1))?;
    Ok(())
}

/// Checks the string table in a stream: its header and each of its names.
#[tactic(auto, unfolding(crate::specs::Names::whole_names))]
fn check_names_in(stream: Stream) -> Result<()>
    ensures { Gives (λ done. done) result (whole_names stream) }
{
    let size = names_size(&stream);
    let names = StringTable::parse(stream)?;
    check_last(&names, size)
}

/// Returns the finding of the string table in the stream of a number, if it has an error.
#[tactic(auto, unfolding(crate::specs::Names::string_table_fault))]
fn check_string_table<S: Source>(
    scope: &Scope<'_>,
    source: &mut CountedSource<S>,
    number: u32,
) -> Result<Option<Finding>>
    ensures { ReadsSource (S.state source.old.source) (S.state source.new.source) (option_map finding_view) result
        (λ file. Ok (string_table_fault scope.now.layout.now file number)) }
{
    match read(scope, source, number)? {
        Ok(stream) => match check_names_in(stream) {
            Ok(()) => Ok(None),
            Err(error) => Ok(Some(in_stream(Part::StringTable, number, Problem::Error(error)))),
        },
        Err(error) => Ok(absence(Part::StringTable, number, error)),
    }
}

/// Returns the finding of the string table in the stream that stream 1 names, if it has an error.
fn check_named<S: Source>(
    scope: &Scope<'_>,
    source: &mut CountedSource<S>,
    stream: Stream,
) -> Result<Option<Finding>>
    ensures { ReadsSource (S.state source.old.source) (S.state source.new.source) (option_map finding_view) result
        (λ file. Ok (named_fault scope.now.layout.now file (string_table_number stream))) }
{
    match string_table_number(scope.alloc, stream) {
        Ok(Some(number)) => check_string_table(scope, source, number),
        Ok(None) => Ok(None),
        Err(Error::OutOfMemory) => Err(Error::OutOfMemory),
        Err(error) => Ok(Some(in_stream(Part::Names, INFORMATION_STREAM, Problem::Error(error)))),
    }
}

/// Returns the finding of stream 1, of its names, or of the string table, if one has an error.
#[tactic(auto, unfolding(crate::specs::Names::names_fault))]
pub(crate) fn check_names<S: Source>(
    scope: &Scope<'_>,
    source: &mut CountedSource<S>,
) -> Result<Option<Finding>>
    ensures { ReadsSource (S.state source.old.source) (S.state source.new.source) (option_map finding_view) result
        (λ file. Ok (names_fault scope.now.layout.now file)) }
{
    match read(scope, source, INFORMATION_STREAM)? {
        Ok(stream) => check_named(scope, source, stream),
        Err(error) => Ok(absence(Part::Names, INFORMATION_STREAM, error)),
    }
}
