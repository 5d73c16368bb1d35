//! Binary search for an address among the records of an OMAP table.

ghost use Rattle.std.specs.Prelude.{◌≡◌, ◌/◌, length};
ghost use Rattle.pdb_base.specs.Count.{calls_of, after_calls};
ghost use Rattle.pdb_base.specs.Halving.{IsFound, binary_digits};
ghost use Rattle.pdb_space.specs.Omap.{mappings_of, source_at};

use crate::omap_records::RECORD_SIZE;
use crate::source::source_at;
use pdb_base::Count;

/// The result of a search.
#[derive(Clone, Copy, Default)]
pub(crate) struct Found {
    /// The index after the last record whose source is at or below the address.
    pub(crate) place: usize,

    /// The source of that record, if there is one.
    pub(crate) source: u32,
}

/// Searches for the last record whose source is at or below an address, and counts the comparisons.
///
/// Each comparison halves the part of the table that is left to search, whatever its result. The
/// distance of the address from the source is kept beside the index, since one subtraction both
/// compares and gives the distance. So a step needs no branch.
#[tactic(auto, using(pdb_base::proofs::lemmas::Halving::halving_begins, pdb_base::proofs::lemmas::Halving::halving_takes, pdb_base::proofs::lemmas::Halving::halving_passes, pdb_base::proofs::lemmas::Halving::halving_ends, pdb_base::proofs::lemmas::Halving::halving_counts, pdb_base::proofs::lemmas::Halving::halving_counted))]
pub(crate) fn search(bytes: &[u8], address: u32, count: &mut Count) -> Found
    ensures found { IsFound (source_at (mappings_of bytes.now))
        (length bytes.now / 8) address result.place result.source }
    ensures counted { calls_of count.new ≡ after_calls (binary_digits (length bytes.now / 8)) (calls_of count.old) }
{
    let (mut place, mut distance) = (0, address);
    let mut size = bytes.len() / RECORD_SIZE;
    while size > 0 {
        let middle = place + size / 2;
        let next = source_at(bytes, middle, count);
        if next <= address {
            place = middle + size % 2;
            distance = address - next;
        }
        size /= 2;
    }
    let source = address - distance;
    Found { place, source }
}

/// Searches as `search` does, in a call of its own that writes both results. Within a function that
/// uses the place alone, the compiler would drop the distance and branch at each comparison.
#[inline(never)]
pub(crate) fn search_apart(bytes: &[u8], address: u32, found: &mut Found)
    ensures { IsFound (source_at (mappings_of bytes.now))
        (length bytes.now / 8) address found.new.place found.new.source }
{
    *found = search(bytes, address, &mut Count::new());
}
