//! The kinds of the records of a table.

ghost use Rattle.std.specs.Prelude.{◌≡◌, length, vec_len, IfOk};

use pdb_base::{Error, FallibleIterator, ParseBuffer, TypeIndex};
use pdb_records::skip_field_list;
use pdb_tpi::{Header, Item, TypeInformation};
use pdb_values::constants::LF_FIELDLIST;
use std::alloc::{AllocError, Global};
use std::cmp::Reverse;

/// How many numbers a kind can be.
const KINDS: usize = 0x10000;

/// How many bytes the length before a record takes.
const LENGTH_SIZE: u64 = 2;

/// How many bytes the kind of a record takes.
const LEAF_SIZE: usize = 2;

/// A kind of records, how many there are, and how many bytes they take.
#[derive(Clone, Copy)]
pub struct KindCount {
    /// The number of the record kind.
    pub leaf: u16,
    /// How many records of the kind there are.
    pub count: u64,
    /// How many bytes they take, the lengths before them included.
    pub bytes: u64,
}

/// Returns the kinds that have records, the lowest number first.
fn kinds_present(alloc: Global, counts: &[u64], sizes: &[u64]) -> Result<Vec<KindCount>, AllocError>
    requires counts { length counts.now ≡ 0x10000 }
    requires sizes { length sizes.now ≡ 0x10000 }
{
    let mut kinds = Vec::new(alloc);
    for leaf in 0..KINDS {
        let count = counts[leaf];
        if count != 0 {
            kinds.push(KindCount {
                leaf: leaf as u16,
                count,
                bytes: sizes[leaf],
            })?;
        }
    }
    Ok(kinds)
}

/// Returns the kinds that have records, the most frequent first.
fn rank(alloc: Global, counts: &[u64], sizes: &[u64]) -> Result<Vec<KindCount>, AllocError>
    requires counts { length counts.now ≡ 0x10000 }
    requires sizes { length sizes.now ≡ 0x10000 }
{
    let mut kinds = kinds_present(alloc, counts, sizes)?;
    kinds.sort_by_key(|kind| Reverse(kind.count))?;
    Ok(kinds)
}

/// What a walk over a table counts.
#[derive(Drop)]
struct Tally {
    /// How many records of each kind there are, by the number of the kind.
    counts: Vec<u64>,
    /// How many bytes these take.
    sizes: Vec<u64>,
    /// How many records there are.
    records: u64,
    /// How many of them are lists of fields that another list continues.
    continued: u64,
    /// The fault at which the walk stops, if it does.
    fault: Option<Error>,
}

/// Adds an amount to what was counted of a kind.
fn note(counts: &mut Vec<u64>, kind: u16, amount: u64)
    requires { vec_len counts.old ≡ 0x10000 }
    ensures { vec_len counts.new ≡ 0x10000 }
{
    let counted = &mut counts[kind as usize];
    *counted = counted.saturating_add(amount);
}

/// Returns `count` counts of 0.
fn zeros(alloc: Global, count: usize) -> Result<Vec<u64>, AllocError>
    ensures { IfOk result (λ counts. vec_len counts ≡ count) }
{
    let counts = vec![in alloc; 0; count]?;
    Ok(counts)
}

/// Returns whether a record is a list of fields that another list continues. No field is kept.
fn goes_on(alloc: Global, item: &Item<'_, TypeIndex>) -> Result<bool, AllocError> {
    if item.raw_kind() != LF_FIELDLIST {
        return Ok(false);
    }
    let mut fields = ParseBuffer::from(&item.as_bytes()[LEAF_SIZE..]);
    match skip_field_list(alloc, &mut fields) {
        Ok(next) => Ok(next.is_some()),
        Err(Error::OutOfMemory) => Err(AllocError),
        Err(_) => Ok(false),
    }
}

/// Returns 1 if `is` holds, and 0 otherwise.
fn as_count(is: bool) -> u64 {
    if is { 1 } else { 0 }
}

/// Walks over a table, and counts its records.
fn count_records(alloc: Global, table: &TypeInformation) -> Result<Tally, AllocError>
    ensures counts { IfOk result (λ tally. vec_len tally.counts ≡ 0x10000) }
    ensures sizes { IfOk result (λ tally. vec_len tally.sizes ≡ 0x10000) }
{
    let mut counts = zeros(alloc, KINDS)?;
    let mut sizes = zeros(alloc, KINDS)?;
    let mut records: u64 = 0;
    let mut continued: u64 = 0;
    let mut items = table.iter();
    loop {
        match items.next() {
            Ok(Some(item)) => {
                let is_continued = goes_on(alloc, &item)?;
                let kind = item.raw_kind();
                note(&mut counts, kind, 1);
                note(&mut sizes, kind, LENGTH_SIZE + item.len() as u64);
                records = records.saturating_add(1);
                continued = continued.saturating_add(as_count(is_continued));
            }
            Ok(None) => {
                return Ok(Tally {
                    counts,
                    sizes,
                    records,
                    continued,
                    fault: None,
                });
            }
            Err(fault) => {
                return Ok(Tally {
                    counts,
                    sizes,
                    records,
                    continued,
                    fault: Some(fault),
                });
            }
        }
    }
}

/// What a walk over a table says of its records.
#[derive(Drop)]
pub struct Walked {
    /// The header of the table.
    pub header: Header,
    /// Their kinds, the most frequent first.
    pub kinds: Vec<KindCount>,
    /// How many there are.
    pub records: u64,
    /// How many of them are lists of fields that another list continues.
    pub continued: u64,
    /// The fault at which the walk stops, if it does.
    pub fault: Option<Error>,
}

/// Walks over a table, and returns its header, which kinds its records have, how many records there
/// are, and the fault at which the walk stops, if it does.
pub fn walk_over(alloc: Global, table: &TypeInformation) -> Result<Walked, AllocError> {
    let header = table.header();
    let Tally {
        counts,
        sizes,
        records,
        continued,
        fault,
    } = count_records(alloc, table)?;
    let kinds = rank(alloc, &counts, &sizes)?;
    Ok(Walked {
        header,
        kinds,
        records,
        continued,
        fault,
    })
}
