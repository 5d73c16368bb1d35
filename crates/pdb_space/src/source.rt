//! The read of a source that a search compares.

ghost use Rattle.std.specs.Prelude.{◌≡◌, ◌<◌, ◌/◌, length};
ghost use Rattle.pdb_base.specs.Count.{calls_of, one_more};
ghost use Rattle.pdb_space.specs.Omap.{mappings_of, source_at};

use crate::omap_records::RECORD_SIZE;
use byteorder::{ByteOrder, LittleEndian};
use pdb_base::Count;

/// Returns the source of the record at index `place` for a comparison, and counts that comparison.
#[tactic(auto, using(crate::proofs::RecordLemmas::source_there))]
pub(crate) fn source_at(bytes: &[u8], place: usize, count: &mut Count) -> u32
    requires { place < length bytes.now / 8 }
    ensures source { result ≡ source_at (mappings_of bytes.now) place }
    ensures counted { calls_of count.new ≡ one_more (calls_of count.old) }
{
    count.tick();
    LittleEndian::read_u32(&bytes[place * RECORD_SIZE..])
}
