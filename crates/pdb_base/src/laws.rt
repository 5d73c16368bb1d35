//! Laws that say in other words what the definitions cited by contracts mean. The functions do
//! nothing: each contract is a law.

ghost use Rattle.std.specs.Prelude.{◌≡◌, ◌≢◌, ◌+◌, ◌-◌, ◌^◌, ◌<◌, min, ℕ, List};
ghost use Rattle.pdb_base.specs.Answer.{Answer};
ghost use Rattle.pdb_base.specs.BitLaws.{ArePutTogether, IsAllItsBits, TellsOneBit};
ghost use Rattle.std.specs.Int.{Width};
ghost use Rattle.pdb_base.specs.Count.{after_calls};
ghost use Rattle.pdb_base.specs.Halving.{binary_digits};
ghost use Rattle.pdb_base.specs.Laws.{CollectsAll, RefusesAsFirst, ReadsSpelling, RefusesPrefixFirst, AlignsToNext};
ghost use Rattle.pdb_base.specs.Laws.{IsLeastToHold, AreReadInTurn};
ghost use Rattle.pdb_base.specs.Place.{Place};
ghost use Rattle.pdb_base.specs.Reading.{front_at, number_at, signed_at, text_at, pascal_text_at};
ghost use Rattle.pdb_base.specs.Repeated.{read_times};
ghost use Rattle.pdb_base.specs.Numeric.{unsigned_leaves, numeric_leaves, num_at, variant_at};
ghost use Rattle.pdb_base.specs.Spelling.{ReadsWhatIsSpelled, SpellsNumber, SpellsSigned, SpellsText, SpellsPascalText};
ghost use Rattle.pdb_base.specs.Spelling.{SpellsNum, SpellsVariant};

use crate::item_index::ItemIndex;

pub mod derived;

/// Answers in order are collected as the list of all their values, or as the first error among
/// them.
pub fn values_of_all<A>()
    ensures all { (answers : List (Answer A)) → CollectsAll answers }
    ensures first { (answers : List (Answer A)) → RefusesAsFirst answers }
{}

/// A number is read from bytes that begin with its spelling, the lowest byte first, and no number
/// is read from too few bytes.
#[tactic(auto, using(crate::proofs::SpellingLemmas::reads_spelling))]
pub fn numbers()
    ensures { (width : ℕ) (bytes : List ℕ) → ReadsSpelling width bytes }
{}

/// The value that is read from bytes is the one that a prefix of them spells, and at most one
/// prefix of any bytes spells a value.
#[tactic(auto, using(crate::proofs::lemmas::Spelling::numbers, crate::proofs::lemmas::Spelling::signed_numbers, crate::proofs::lemmas::Spelling::texts, crate::proofs::lemmas::Spelling::pascal_texts, crate::proofs::lemmas::Numeric::nums, crate::proofs::lemmas::Numeric::variants))]
pub fn spellings()
    ensures numbers { (width : ℕ) → ReadsWhatIsSpelled (SpellsNumber width) (number_at width) }
    ensures signed { (signed : Width) (width : ℕ) →
        ReadsWhatIsSpelled (SpellsSigned signed width) (signed_at signed width) }
    ensures texts { ReadsWhatIsSpelled SpellsText text_at }
    ensures pascal_texts { ReadsWhatIsSpelled SpellsPascalText pascal_text_at }
    ensures nums { ReadsWhatIsSpelled SpellsNum num_at }
    ensures variants { ReadsWhatIsSpelled SpellsVariant variant_at }
{}

/// A list of numbers of one byte is spelled by the bytes themselves, as many as there are numbers.
#[tactic(auto, using(crate::proofs::lemmas::Front::front_is_bytes))]
pub fn fronts()
    ensures { (count : ℕ) (bytes : List ℕ) → front_at count bytes ≡ read_times (number_at 1) count bytes }
{}

/// A number of variable width has the error of its prefix if the prefix is whole and announces no
/// number, and otherwise has an error only because the bytes end before the number does.
#[tactic(auto, using(crate::proofs::lemmas::Numeric::num_refusals, crate::proofs::lemmas::Numeric::variant_refusals))]
pub fn refused_prefixes()
    ensures nums { RefusesPrefixFirst unsigned_leaves num_at }
    ensures variants { RefusesPrefixFirst numeric_leaves variant_at }
{}

/// A position is aligned to the least multiple of the alignment at or above it, if the slice
/// reaches that multiple.
#[tactic(auto, using(crate::proofs::AlignmentLaws::aligns_to_next))]
pub fn alignment()
    ensures { (alignment : ℕ) (place : Place) → alignment ≢ 0 → AlignsToNext alignment place }
{}

/// The conversions of an index to a number and of a number to an index undo each other.
pub fn conversions<I: ItemIndex>()
    ensures back { (index again : I) (n : ℕ) → I.converts index n → I.from_gives n again → again ≡ index }
    ensures forth { (n again : ℕ) (index : I) → I.from_gives n index → I.converts index again → again ≡ n }
{}

/// Counting calls adds their number to a count, up to the largest number of 64 bits.
#[tactic(auto, using(crate::proofs::lemmas::Count::calls_are))]
pub fn counts()
    ensures { (more calls : ℕ) → calls < 2 ^ 64 → after_calls more calls ≡ min (calls + more) (2 ^ 64 - 1) }
{}

/// A number has as many binary digits as bits are needed to hold it, and no more.
pub fn digits()
    ensures { (number : ℕ) → IsLeastToHold number (binary_digits number) }
{}

/// Bytes spell as many records of one size as fit into them, and each record is read where the one
/// before it ends.
pub fn records<A>()
    ensures { (size : ℕ) (value : List ℕ → A) (bytes : List ℕ) → AreReadInTurn size value bytes }
{}

/// A bit field is composed of its lower and its higher bits, all bits of a number are the number,
/// and a field of one bit says whether that bit is set.
#[tactic(auto, using(crate::proofs::lemmas::BitFields::put_together, crate::proofs::lemmas::BitFields::all_bits, crate::proofs::lemmas::BitFields::one_bit))]
pub fn bit_fields()
    ensures together { (word place low high : ℕ) → ArePutTogether word place low high }
    ensures all { (word count : ℕ) → IsAllItsBits word count }
    ensures one { (word place : ℕ) → TellsOneBit word place }
{}
