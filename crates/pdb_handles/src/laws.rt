//! What the definitions say in other words. The functions do nothing, or call other laws: each
//! contract is a law.

ghost use Rattle.std.specs.Prelude.{◌≡◌, ℕ, List, Ok, Some};
ghost use Rattle.pdb_base.specs.Refusal.{Refusal};
ghost use Rattle.pdb_msf.specs.Layout.{LayoutValue, layout_of, stream_by};
ghost use Rattle.pdb_handles.specs.{declared.fault.Fault.Fault, Fault.fault_of_refusal, File.stream_said};
ghost use Rattle.pdb_handles.specs.{Names.StandsAtItsPlace, Told.IsOurs, Told.refusal_told};

use pdb_space::laws::{names, string_tables};

/// Errors of the library and the faults that report one correspond one to one.
#[tactic(auto, using(crate::proofs::StatusLaws::forth, crate::proofs::StatusLaws::back_of))]
pub fn statuses()
    ensures forth { (refusal : Refusal) → IsOurs refusal → refusal_told (fault_of_refusal refusal) ≡ Some refusal }
    ensures back { (fault : Fault) (refusal : Refusal) → refusal_told fault ≡ Some refusal
        → fault_of_refusal refusal ≡ fault }
{}

/// If the layout of a file is kept, each stream read by it from the file's bytes is the one that is
/// read from the file anew.
pub fn kept_layouts()
    ensures { (file : List ℕ) (layout : LayoutValue) (number limit : ℕ) → layout_of file ≡ Ok layout
        → stream_by layout file number (Some limit) ≡ stream_said number limit file }
{}

/// The bytes of a string table's stream at the place of a name are the name.
pub fn name_places()
    ensures { (stream : List ℕ) (offset : ℕ) → StandsAtItsPlace stream offset }
{
    string_tables();
    names();
}
