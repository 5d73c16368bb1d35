//! What is found wrong in a file.

ghost use Rattle.std.specs.Prelude.{◌≡◌, ◌++◌, map, Some, Ok, IfOk};
ghost use Rattle.std.specs.Option.{option_map, option_to_list};
ghost use Rattle.pdb_base.specs.Answer.{Answers};
ghost use Rattle.pdb_base.specs.Refusal.{refusal_of};
ghost use Rattle.pdb_validation.specs.Code.{code_text, fault_code, part_code, record_code};
ghost use Rattle.pdb_validation.specs.Finding.{file_fault, finding_view, is_enough, stream_fault};
ghost use Rattle.pdb_validation.specs.Problem.{problem_view};
ghost use Rattle.pdb_validation.specs.Streams.{absence};

use crate::mismatch::Extent;
use crate::problem::{Problem, error_code};
use pdb_base::{Error, Result};
use std::fmt;

/// A part of a program database.
#[derive(Clone, Copy, Debug, PartialEq, Eq)]
pub enum Part {
    /// The header of the file.
    Header,
    /// The directory of streams.
    Directory,
    /// The sizes of the directory and of the streams.
    Sizes,
    /// The bytes of a stream.
    Stream,
    /// The names of streams, in stream 1.
    Names,
    /// The string table, in the stream named `/names`.
    StringTable,
    /// The header of stream 3 and the roles of streams.
    Roles,
    /// The table of types, in stream 2.
    Types,
    /// The table of ids, in stream 4.
    Ids,
    /// The section headers.
    SectionHeaders,
    /// The section headers of the original image.
    OriginalSectionHeaders,
    /// The OMAP table to source.
    OmapToSource,
    /// The OMAP table from source.
    OmapFromSource,
    /// The frames in the older format.
    OldFrames,
    /// The frames in the newer format.
    NewFrames,
}

impl Part {
    /// Returns the code of a part, with which the codes of its errors begin.
    pub fn code(self) -> &'static str
        ensures { result.now ≡ part_code self }
    {
        match self {
            Part::Header => "HEADER",
            Part::Directory => "DIRECTORY",
            Part::Sizes => "SIZES",
            Part::Stream => "STREAM",
            Part::Names => "NAMES",
            Part::StringTable => "STRING-TABLE",
            Part::Roles => "ROLES",
            Part::Types => "TYPES",
            Part::Ids => "IDS",
            Part::SectionHeaders => "SECTION-HEADERS",
            Part::OriginalSectionHeaders => "ORIGINAL-SECTION-HEADERS",
            Part::OmapToSource => "OMAP-TO-SOURCE",
            Part::OmapFromSource => "OMAP-FROM-SOURCE",
            Part::OldFrames => "OLD-FRAMES",
            Part::NewFrames => "NEW-FRAMES",
        }
    }
}

/// The code of a finding, under which programs tell of it. Its text, which `{}` prints, has the
/// parts of the code one behind another.
#[derive(Clone, Copy)]
pub struct Code {
    part: &'static str,
    record: &'static str,
    kind: &'static str,
}

impl fmt::Display for Code {
    ghost output = { λ code. Some (code_text code) };

    fn fmt<W: fmt::Write>(&self, f: &mut fmt::Formatter<W>) -> fmt::Result {
        write!(f, "{}{}{}", self.part, self.record, self.kind)
    }
}

/// What is wrong in a part of a file, and where.
#[derive(Debug, Drop)]
pub struct Finding {
    /// The part.
    pub part: Part,

    /// The number of the stream in which the fault is, or None if it is in no stream.
    pub stream: Option<u32>,

    /// The index of the record at which the fault is, or None if it is at no record.
    pub index: Option<u64>,

    /// The byte of the stream at which that record begins with its length, or would begin if it is
    /// missing; or None if the fault is at no record.
    pub byte: Option<u64>,

    /// The byte of the file that is this byte of the stream, or None if the stream has no such
    /// byte.
    pub file_byte: Option<u64>,

    /// What is wrong there.
    pub problem: Problem,
}

impl Finding {
    /// Returns the code of the finding. Of an inconsistency it is that inconsistency's own. Of an
    /// error it is the code of the part, then `-RECORD` if the fault is at a record, and then
    /// `-CUT` if bytes end too soon, `-PAGE-RANGE` for the number of a page, `-PAGE-SIZE` for the
    /// size of pages, and `-MISSING` for a stream: `TYPES-RECORD-CUT`, `STREAM-PAGE-RANGE`.
    pub fn code(&self) -> Code
        ensures { code_text result ≡ fault_code (finding_view self.now) }
    {
        match &self.problem {
            Problem::Error(error) => Code {
                part: self.part.code(),
                record: record_code(self.index),
                kind: error_code(error),
            },
            Problem::Inconsistent(what) => Code {
                part: what.code(),
                record: "",
                kind: "",
            },
        }
    }
}

/// Returns the part of a code that says that a fault is at a record.
fn record_code(index: Option<u64>) -> &'static str
    ensures { result.now ≡ record_code index }
{
    match index {
        Some(_) => "-RECORD",
        None => "",
    }
}

/// Returns the finding of a part that a stream holds.
pub(crate) fn in_stream(part: Part, stream: u32, problem: Problem) -> Finding
    ensures { finding_view result ≡ stream_fault part stream (problem_view problem) }
{
    Finding {
        part,
        stream: Some(stream),
        index: None,
        byte: None,
        file_byte: None,
        problem,
    }
}

/// Returns the finding of a part whose stream can't be read, if it is that there is no such stream.
pub(crate) fn absence(part: Part, stream: u32, error: Error) -> Option<Finding>
    ensures { option_map finding_view result ≡ absence part stream (refusal_of error) }
{
    match error {
        Error::StreamNotFound(_) => Some(in_stream(part, stream, Problem::Error(error))),
        _ => None,
    }
}

/// Returns the finding of a part that no stream holds.
pub(crate) fn in_file(part: Part, problem: Problem) -> Finding
    ensures { finding_view result ≡ file_fault part (problem_view problem) }
{
    Finding {
        part,
        stream: None,
        index: None,
        byte: None,
        file_byte: None,
        problem,
    }
}

/// Adds a finding, if there is one.
pub(crate) fn add(findings: &mut Vec<Finding>, found: Option<Finding>) -> Result<()>
    ensures { Answers (λ done. map finding_view findings.new.items) result
        (Ok (map finding_view findings.old.items ++ option_to_list (option_map finding_view found))) }
{
    if let Some(finding) = found {
        findings.push(finding)?;
    }
    Ok(())
}

/// Adds a finding, if there is one, and returns whether no more of its part is to be told.
pub(crate) fn add_until(
    extent: Extent,
    findings: &mut Vec<Finding>,
    found: Option<Finding>,
) -> Result<bool>
    ensures added { Answers (λ is_last. map finding_view findings.new.items) result
        (Ok (map finding_view findings.old.items ++ option_to_list (option_map finding_view found))) }
    ensures last { IfOk result (λ is_last. is_last ≡ is_enough extent (option_map finding_view found)) }
{
    let Some(finding) = found else {
        return Ok(false);
    };
    findings.push(finding)?;
    Ok(matches!(extent, Extent::First))
}
