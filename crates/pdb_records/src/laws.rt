//! What the definitions that contracts cite say in other words. The functions do nothing: each
//! contract is a law.

ghost use Rattle.std.specs.Prelude.{ℕ, List, length};
ghost use Rattle.pdb_base.specs.Refusal.{Refusal, out_of_memory};
ghost use Rattle.pdb_base.specs.Spelling.{Begins};
ghost use Rattle.pdb_records.specs.Agreement.{Agrees, NoTwoValues};
ghost use Rattle.pdb_records.specs.Dimensions.{AreDimensions, NoDimensions, dimensions_at};
ghost use Rattle.pdb_records.specs.Fault.{IsFaultOfBytes, Refuses};
ghost use Rattle.pdb_records.specs.Fields.{record_at};
ghost use Rattle.pdb_records.specs.Grammar.{IsRecord, NoRecord};
ghost use Rattle.pdb_records.specs.Ids.{id_at, IsId, NoId};
ghost use Rattle.pdb_records.specs.Padding.{IsPadded, IsPaddedShort, padding_at};
ghost use Rattle.pdb_records.specs.Row.{Row, Assigns, Stops, row};
ghost use Rattle.pdb_records.specs.Shape.{Shape, Spells, read_shape};
ghost use Rattle.pdb_records.specs.Short.{IsShort};
ghost use Rattle.pdb_records.specs.ToEnd.{TakesBytes, Fills, FailsBehind, to_end};
ghost use Rattle.pdb_values.specs.TypeValue.{TypeValue};

/// For each shape, what is read is what a prefix of the bytes spells, and otherwise the error is
/// that of the first fault.
pub fn shapes()
    ensures { (shape : Shape) → Agrees (read_shape shape) (Begins (Spells shape)) (Refuses shape) }
{}

/// For each layout, what is read is what the layout assigns to the bytes. Otherwise the error is
/// that of the first shape that the bytes don't begin with.
pub fn rows<A>()
    ensures { (r : Row A) → Agrees (row r) (Assigns r) (Stops r) }
{}

/// An error of bytes depends on the bytes alone, and so is never `OutOfMemory`.
#[tactic(auto, using(crate::proofs::NoWant::stops_fault))]
pub fn refusals<A>()
    ensures faults { (r : Row A) (bytes : List ℕ) (refusal : Refusal) → Stops r bytes refusal → IsFaultOfBytes refusal }
    ensures memory { (r : Row A) (bytes : List ℕ) → ¬ Stops r bytes out_of_memory }
{}

/// What is skipped as padding is pads, one after another, up to the end or to a byte that begins no
/// pad. Bytes that end within a pad are an error.
#[tactic(auto, using(crate::proofs::PaddingLaws::padding_agrees))]
pub fn padding()
    ensures { Agrees padding_at IsPadded IsPaddedShort }
{}

/// Dimensions of arrays are read as they are in the bytes, or the error is that of the first fault.
#[tactic(auto, using(crate::proofs::DimensionLaws::dimensions_agree))]
pub fn dimensions()
    ensures { Agrees dimensions_at AreDimensions NoDimensions }
{}

/// Records that reach to the end of the bytes, each of which takes at least one byte, are read as
/// they fill the bytes. If one can't be read, the error is that of the first such record.
pub fn lists<A>()
    ensures { (r : Row A) → TakesBytes (Assigns r) →
        Agrees (to_end (row r)) (Fills (Assigns r)) (FailsBehind (Assigns r) (Stops r)) }
{}

/// What is read of bytes is the one record that the grammar assigns to them, and for bytes to which
/// it assigns none, the error is that of their first fault. No bytes have two values.
#[tactic(auto, using(crate::proofs::GrammarLaws::record_agrees))]
pub fn records()
    ensures agrees { Agrees record_at IsRecord NoRecord }
    ensures one { NoTwoValues IsRecord }
{}

/// What is read of bytes is the one id record that the grammar assigns to them, and for bytes to
/// which it assigns none, the error is that of their first fault. No bytes have two values.
#[tactic(auto, using(crate::proofs::IdLaws::ids_agree))]
pub fn ids()
    ensures agrees { Agrees id_at IsId NoId }
    ensures one { NoTwoValues IsId }
{}

/// A type record has an error because of its bytes: they end too soon, a number has an unknown
/// prefix, the record kind is not read here, or what they say is not read here.
pub fn faults()
    ensures { (bytes : List ℕ) (refusal : Refusal) → NoRecord bytes refusal → IsFaultOfBytes refusal }
{}

/// Lists are short compared with their record: each has at most half as many items as the record
/// has bytes.
pub fn short_lists()
    ensures { (bytes : List ℕ) (value : TypeValue) (rest : List ℕ) →
        IsRecord bytes value rest → IsShort (length bytes) value }
{}
