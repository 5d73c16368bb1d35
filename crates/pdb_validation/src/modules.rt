//! The list of modules in stream 3.

ghost use Rattle.std.specs.Prelude.{◌≡◌, ◌≤◌, ◌<◌, ◌^◌, length, Ok, IfOk};
ghost use Rattle.pdb_base.specs.Answer.{Answers, Gives};
ghost use Rattle.pdb_validation.specs.Mismatch.{asked_of, with_further};
ghost use Rattle.pdb_validation.specs.Modules.{entries_mismatches, module_at, entry_inconsistency, entry_size};
ghost use Rattle.pdb_validation.specs.Modules.{module_bytes, modules_mismatches};

use crate::inconsistency::Inconsistency;
use crate::mismatch::{Extent, Mismatch};
use crate::records::{RecordPosition, add_at};
use crate::roles::DEBUG_STREAM;
use crate::words::{part_at, word_at};
use byteorder::{ByteOrder, LittleEndian};
use pdb_base::{Error, ParseBuffer, Result, Stream, StreamIndex};
use pdb_file::DBIHeader;
use pdb_msf::Layout;
use std::alloc::Global;

/// The byte of stream 3 at which the list begins, behind the header.
const LIST_BYTE: usize = 64;

/// The size of the fields of an entry in bytes.
const FIELDS_SIZE: usize = 64;

/// Returns the size of the entry at the front of bytes.
#[tactic(auto, unfolding(crate::specs::Modules::entry_size))]
fn entry_size(bytes: &[u8]) -> Result<usize>
    ensures { Gives (λ size. size) result (entry_size bytes.now) }
{
    let mut buffer = ParseBuffer::from(bytes);
    buffer.take(FIELDS_SIZE)?;
    buffer.parse_cstring()?;
    buffer.parse_cstring()?;
    Ok((bytes.len() - buffer.len()).div_ceil(4) * 4)
}

/// Returns the entry at the front of bytes, and the bytes behind it.
#[tactic(auto, unfolding(crate::specs::Modules::module_at, pdb_base::specs::Reading::front_at))]
fn module_at(bytes: &[u8]) -> Result<(&[u8], &[u8])>
    ensures entry { Gives (λ parts. (parts.0.now, parts.1.now)) result (module_at bytes.now) }
    ensures fields { IfOk result (λ parts. 64 ≤ length parts.0.now) }
{
    let size = entry_size(bytes)?;
    if bytes.len() < size {
        return Err(Error::UnexpectedEof);
    }
    Ok((&bytes[..size], &bytes[size..]))
}

/// Returns how many bytes the symbols and the lines of a module take.
fn module_bytes(entry: &[u8]) -> u64
    requires { 64 ≤ length entry.now }
    ensures { result ≡ module_bytes entry.now }
{
    word_at(36, entry) as u64 + word_at(40, entry) as u64 + word_at(44, entry) as u64
}

/// Returns what is inconsistent in an entry: the stream of its module is missing, or has fewer bytes
/// than the entry says.
fn entry_inconsistency(layout: &Layout, entry: &[u8]) -> Option<Inconsistency>
    requires { 64 ≤ length entry.now }
    ensures { result ≡ entry_inconsistency layout.now entry.now }
{
    let number = StreamIndex(LittleEndian::read_u16(&entry[34..36])).msf_number()?;
    match layout.stream_size(number) {
        Ok(size) => {
            let is_short = (size as u64) < module_bytes(entry);
            is_short.then_some(Inconsistency::ModuleSizes(number))
        }
        Err(Error::StreamNotFound(_)) => Some(Inconsistency::StreamMissing(number)),
        Err(_) => None,
    }
}

/// Adds the mismatches of the entries of the list.
fn add_entries(
    layout: &Layout,
    list: &[u8],
    extent: Extent,
    mismatches: &mut Vec<Mismatch>,
) -> Result<()>
    requires { length list.now < 2 ^ 32 }
    ensures { Answers (λ done. mismatches.new.items) result (Ok (with_further extent mismatches.old.items
        (entries_mismatches layout.now (length list.now) 0 64 list.now))) }
{
    let mut left = list;
    let mut byte = LIST_BYTE as u64;
    for index in 0..list.len() {
        if left.is_empty() {
            return Ok(());
        }
        let place = RecordPosition {
            stream: DEBUG_STREAM,
            index: index as u64,
            byte,
        };
        match module_at(left) {
            Ok((entry, behind)) => {
                add_at(
                    mismatches,
                    extent,
                    place,
                    entry_inconsistency(layout, entry),
                )?;
                byte += entry.len() as u64;
                left = behind;
            }
            Err(_) => return add_at(mismatches, extent, place, Some(Inconsistency::ModuleCut)),
        }
    }
    Ok(())
}

/// Returns what is inconsistent in the list of modules in stream 3, each with the index of the entry
/// and the byte of the stream at which it begins: an entry that ends behind the list, and one whose
/// stream is missing or has fewer bytes than the entry says that the symbols and the lines of the
/// module take. Of a stream 3 without a header nothing is said. All are returned, or one, as `extent`
/// says. The format is that of `MODI_60_Persist` in Microsoft's dbi.h.
///
/// # Errors
/// Fails with `OutOfMemory` if an allocation fails.
#[tactic(auto, unfolding(crate::specs::Modules::modules_mismatches), using(crate::proofs::MismatchLemmas::asked_are))]
pub fn check_modules(
    alloc: Global,
    layout: &Layout,
    stream: &Stream,
    extent: Extent,
) -> Result<Vec<Mismatch>>
    ensures { Answers (λ mismatches. mismatches.items) result
        (Ok (asked_of extent (modules_mismatches layout.now stream.now))) }
{
    let mut mismatches = Vec::new(alloc);
    match DBIHeader::parse(stream) {
        Ok(header) => {
            let list = part_at(stream.as_slice(), LIST_BYTE, header.module_list_size);
            add_entries(layout, list, extent, &mut mismatches)?;
            Ok(mismatches)
        }
        Err(_) => Ok(mismatches),
    }
}
