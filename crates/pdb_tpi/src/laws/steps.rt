//! What becomes of headers that are cut, and of steps one after another. The functions do nothing:
//! each contract is a law.

ghost use Rattle.std.specs.Prelude.{◌≡◌, ◌<◌, ◌++◌, ◌∷◌, ℕ, List, length, Option, Result, Err};
ghost use Rattle.pdb_base.specs.declared.error.Error.{Error};
ghost use Rattle.pdb_base.specs.Refusal.{unexpected_eof};
ghost use Rattle.pdb_tpi.specs.Header.{header_of};
ghost use Rattle.pdb_tpi.specs.StepLaws.{AreSteps, IsAnswerAt, first_stand};
ghost use Rattle.pdb_tpi.specs.Table.{Table};

/// A table that has bytes, but fewer than the 56 that the fields of a header take, is an error.
#[tactic(auto, using(crate::proofs::HeaderFaults::too_short))]
pub fn cut_headers()
    ensures { (bytes : List ℕ) → 0 < length bytes → length bytes < 56 → header_of bytes ≡ Err unexpected_eof }
{}

/// Steps from before the first item give the items of the walk in order, each with its index. After
/// them they give None for good if no byte is left, and otherwise the same fault for good.
#[tactic(auto, using(crate::proofs::WalkSteps::steps_give))]
pub fn steps<X>()
    ensures { (seen : X → ℕ × List ℕ) (table : Table)
        (before behind : List (Result (Option X) Error)) (result : Result (Option X) Error)
        → AreSteps seen (first_stand table) (before ++ result ∷ behind) → IsAnswerAt seen table (length before) result }
{}
