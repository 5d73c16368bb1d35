//! The one function that reads the length of an item.

ghost use Rattle.std.specs.Prelude.{◌≡◌, length, nat_lt, if◌then◌else◌};
ghost use Rattle.pdb_base.specs.Answer.{Gives};
ghost use Rattle.pdb_base.specs.Place.{left};
ghost use Rattle.pdb_base.specs.Reading.{number_at};
ghost use Rattle.pdb_base.specs.Count.{calls_of, one_more};

use pdb_base::{Count, ParseBuffer, Result};

/// Reads the length of the next item, and counts it if two bytes are left for it.
#[tactic(auto, unfolding(pdb_base::specs::Reading::number_at, pdb_base::specs::Reading::front_at))]
pub fn read_length(buffer: &mut ParseBuffer<'_>, count: &mut Count) -> Result<u16>
    ensures read { Gives (λ len. (len, left buffer.new)) result (number_at 2 (left buffer.old)) }
    ensures counted { calls_of count.new ≡
        (if nat_lt (length (left buffer.old)) 2 then calls_of count.old else one_more (calls_of count.old)) }
{
    let len = buffer.parse_u16()?;
    count.tick();
    Ok(len)
}
