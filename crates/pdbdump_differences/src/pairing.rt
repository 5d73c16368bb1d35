//! Which of the things of one list stand for those of another: those of one name, and where several
//! have the name the first for the first, the second for the second, and so on.

use pdbdump_types::Defined;
use std::alloc::{AllocError, Global};
use std::cmp::Ordering;
use std::hash::{DefaultHasher, Hasher};

/// The hash of a name, and the number of a thing that has the name.
#[derive(Clone, Copy)]
struct NamedNumber {
    hash: u64,
    number: u32,
}

/// Which of the things of two lists stand for each other.
#[derive(Drop)]
pub(crate) struct Pairing {
    /// The number in the second list of what stands for each thing of the first.
    seconds: Vec<Option<u32>>,

    /// Whether something in the first list stands for each thing of the second.
    is_paired: Vec<bool>,
}

/// Returns the hash of a name of one of several kinds.
pub(crate) fn hash_of(kind: u8, name: &[u8]) -> u64 {
    let mut hasher = DefaultHasher::new();
    hasher.write(name);
    hasher.write(&[kind]);
    hasher.finish()
}

/// Returns the hash of the name by which a definition is paired with another: the unique name if
/// there is one, and else the name.
pub(crate) fn hash_of_definition(defined: &Defined<'_>) -> u64 {
    match defined.unique_name {
        Some(name) => hash_of(1, name.as_bytes()),
        None => hash_of(0, defined.name.as_bytes()),
    }
}

/// Returns the things of a list with these hashes, sorted by the hashes and then by their numbers.
fn sorted(alloc: Global, hashes: &[u64]) -> Result<Vec<NamedNumber>, AllocError> {
    let mut things = Vec::with_capacity(alloc, hashes.len())?;
    for (number, hash) in hashes.iter().enumerate() {
        let Ok(number) = u32::try_from(number) else {
            break;
        };
        things.push(NamedNumber {
            hash: *hash,
            number,
        })?;
    }
    things.sort_unstable_by_key(|thing| (thing.hash, thing.number));
    Ok(things)
}

impl Pairing {
    /// Pairs the things of two lists by the hashes of their names.
    ///
    /// # Errors
    /// Fails if an allocation fails.
    pub(crate) fn of(alloc: Global, firsts: &[u64], seconds: &[u64]) -> Result<Self, AllocError> {
        let mut pairing = Pairing {
            seconds: vec![in alloc; None; firsts.len()]?,
            is_paired: vec![in alloc; false; seconds.len()]?,
        };
        let firsts = sorted(alloc, firsts)?;
        let seconds = sorted(alloc, seconds)?;
        let (mut at, mut other_at) = (0usize, 0usize);
        for _ in 0..firsts.len().saturating_add(seconds.len()) {
            let (Some(one), Some(other)) = (firsts.get(at), seconds.get(other_at)) else {
                break;
            };
            match one.hash.cmp(&other.hash) {
                Ordering::Less => at += 1,
                Ordering::Greater => other_at += 1,
                Ordering::Equal => {
                    pairing.pair(one.number, other.number);
                    at += 1;
                    other_at += 1;
                }
            }
        }
        Ok(pairing)
    }

    /// Has two things stand for each other.
    fn pair(&mut self, first: u32, second: u32) {
        if let Some(found) = self.seconds.get_mut(first as usize) {
            *found = Some(second);
        }
        if let Some(is_paired) = self.is_paired.get_mut(second as usize) {
            *is_paired = true;
        }
    }

    /// Has nothing stand for a thing of the second list.
    pub(crate) fn part(&mut self, second: usize) {
        if let Some(is_paired) = self.is_paired.get_mut(second) {
            *is_paired = false;
        }
    }

    /// Returns the number in the second list of what stands for a thing of the first.
    pub(crate) fn second(&self, first: usize) -> Option<usize> {
        let second = *self.seconds.get(first)?;
        second.map(|second| second as usize)
    }

    /// Returns whether something in the first list stands for a thing of the second.
    pub(crate) fn is_paired(&self, second: usize) -> bool {
        self.is_paired.get(second).copied().unwrap_or(false)
    }
}
