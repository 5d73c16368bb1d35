//! The lines that a reply is printed as.

ghost use Rattle.std.specs.Prelude.{◌≡◌, ◌≤◌, ◌++◌, length, map, IfOk, OnOk, Some};
ghost use Rattle.std.specs.Option.{option_map};
ghost use Rattle.pdb_base.specs.Memory.{FailsOnlyForMemory};
ghost use Rattle.pdb_base.specs.Text.{lossy};
ghost use Rattle.pdb_base.specs.ErrorText.{hexadecimal_of_four};
ghost use Rattle.pdb_cli.specs.Lines.{line, hex_line, hex_lines, record_line, name_text, name_lines, range_lines};
ghost use Rattle.pdb_cli.specs.Lines.{reply_lines};

use pdb_container::{RawString, Reply, Result};
use std::alloc::Global;
use std::fmt;
use std::ops::Range;

/// The number of bytes on a line of hexadecimal digits.
const LINE_SIZE: usize = 32;

/// Appends a line of the hexadecimal digits of bytes.
fn push_line(out: &mut Vec<u8>, bytes: &[u8]) -> Result<()>
    requires { length bytes.now ≤ 32 }
    ensures ok { OnOk result (out.new.items ≡ out.old.items ++ hex_line bytes.now) }
    ensures memory { FailsOnlyForMemory result }
{
    let mut buffer = [0u8; 64];
    let digits = &mut buffer[..2 * bytes.len()];
    hex::encode_to_slice(bytes, digits).unwrap();
    out.extend_from_slice(digits)?;
    out.push(b'\n')?;
    Ok(())
}

/// Returns bytes as lines of hexadecimal digits.
#[tactic(auto, unfolding(crate::specs::Lines::hex_lines))]
fn hex_lines(alloc: Global, all: &[u8]) -> Result<Vec<u8>>
    ensures ok { IfOk result (λ out. out.items ≡ hex_lines all.now) }
    ensures memory { FailsOnlyForMemory result }
{
    let mut out = Vec::new(alloc);
    for bytes in all.chunks(LINE_SIZE) {
        push_line(&mut out, bytes)?;
    }
    Ok(out)
}

/// The kind of a record, as `0x` and at least four hexadecimal digits.
#[derive(Clone, Copy)]
struct Kind(u16);

impl fmt::Display for Kind {
    ghost output = { λ kind. Some (hexadecimal_of_four kind.0) };

    #[tactic(auto, using(pdb_base::proofs::lemmas::Padding::padded_with_zeros))]
    fn fmt<W: fmt::Write>(&self, f: &mut fmt::Formatter<W>) -> fmt::Result {
        let kind = self.0;
        write!(f, "0x{kind:04x}")
    }
}

/// The text of a name, or `-` if there is none.
#[derive(Clone, Copy)]
struct NameText<'a>(Option<&'a [u8]>);

impl fmt::Display for NameText<'_> {
    ghost output = { λ name. Some (name_text (option_map (λ bytes. bytes.now) name.0)) };

    fn fmt<W: fmt::Write>(&self, f: &mut fmt::Formatter<W>) -> fmt::Result {
        match self.0 {
            Some(name) => {
                let name = RawString::from(name);
                write!(f, "{name}")
            }
            None => write!(f, "-"),
        }
    }
}

/// Returns a record as a line: its index, its kind and its name, or `-` if it has none.
#[tactic(auto, unfolding(crate::specs::Lines::record_line))]
fn record_line(alloc: Global, index: u32, kind: u16, name: Option<&[u8]>) -> Result<Vec<u8>>
    ensures ok { IfOk result (λ out. out.items
        ≡ record_line index kind (option_map (λ text. text.now) name.entry)) }
    ensures memory { FailsOnlyForMemory result }
{
    let kind = Kind(kind);
    let name = NameText(name);
    Ok(format!(in alloc; "0x{index:x} {kind} {name}\n")?.into_bytes())
}

/// Returns the text of a name as a line.
fn name_line(alloc: Global, name: &[u8]) -> Result<Vec<u8>>
    ensures ok { IfOk result (λ out. out.items ≡ line (lossy name.now)) }
    ensures memory { FailsOnlyForMemory result }
{
    let name = RawString::from(name);
    Ok(format!(in alloc; "{name}\n")?.into_bytes())
}

/// Returns the names of fields, each on a line: the text of a name, or `-` if a field has none.
#[tactic(auto, unfolding(crate::specs::Lines::name_lines))]
fn name_lines(alloc: Global, names: &[Option<Vec<u8>>]) -> Result<Vec<u8>>
    ensures ok { IfOk result (λ out. out.items
        ≡ name_lines (map (λ name. option_map (λ copy. copy.items) name) names.now)) }
    ensures memory { FailsOnlyForMemory result }
{
    let mut out = String::new(alloc);
    for name in names {
        let name = NameText(name.as_deref());
        writeln!(out, "{name}")?;
    }
    Ok(out.into_bytes())
}

/// Returns ranges, each on a line.
#[tactic(auto, unfolding(crate::specs::Lines::range_lines))]
fn range_lines(alloc: Global, ranges: &[Range<u32>]) -> Result<Vec<u8>>
    ensures ok { IfOk result (λ out. out.items ≡ range_lines ranges.now) }
    ensures memory { FailsOnlyForMemory result }
{
    let mut out = String::new(alloc);
    for range in ranges {
        let start = range.start;
        let end = range.end;
        writeln!(out, "0x{start:x}..0x{end:x}")?;
    }
    Ok(out.into_bytes())
}

/// Returns the lines that are printed for a reply. An error has none.
pub fn reply_lines(alloc: Global, reply: &Reply) -> Result<Vec<u8>>
    ensures ok { IfOk result (λ out. out.items ≡ reply_lines reply.now) }
    ensures memory { FailsOnlyForMemory result }
{
    match reply {
        Reply::Bytes(stream) => hex_lines(alloc, stream),
        Reply::Record { index, kind, name } => record_line(alloc, *index, *kind, name.as_deref()),
        Reply::Name(name) => name_line(alloc, name),
        Reply::Ranges(ranges) => range_lines(alloc, ranges),
        Reply::Fields(names) => name_lines(alloc, names),
        Reply::Refused(_) => Ok(Vec::new(alloc)),
    }
}
