//! What the definitions that contracts cite say in other words. The functions do nothing, but that
//! one casts a kind to its number: each contract is a law.

ghost use Rattle.std.specs.Prelude.{◌≡◌, ℕ, List, Option, Result};
ghost use Rattle.pdb_base.specs.declared.error.Error.{Error};
ghost use Rattle.pdb_frames.specs.declared.frame_data.FrameData.{FrameData};
ghost use Rattle.pdb_frames.specs.declared.old_frame_data.OldFrameData.{OldFrameData};
ghost use Rattle.pdb_frames.specs.declared.new_frame_data.NewFrameData.{NewFrameData};
ghost use Rattle.pdb_frames.specs.Span.{Span};
ghost use Rattle.pdb_frames.specs.FrameNumbers.{frame_type_number};
ghost use Rattle.pdb_frames.specs.Merge.{by_heads};
ghost use Rattle.pdb_frames.specs.Table.{Frames, IsFrameStep, StartsIncrease};
ghost use Rattle.pdb_frames.specs.Laws.{CoversToItsEnd, IsSortedByStart, IsMerged, IsWoven, FramesEndForGood};
ghost use Rattle.pdb_frames.specs.Laws.{ComparesByNumber};
ghost use Rattle.pdb_frames.specs.declared.new_frame_data.TheConstants.{NEW_SIZE};
ghost use Rattle.pdb_frames.specs.declared.old_frame_data.TheConstants.{OLD_SIZE};

use crate::frame_type::FrameType;

pub mod derived;

/// Code covers the addresses from its start to before its end, also where the end lies past
/// 0xffffffff.
#[tactic(auto, using(crate::proofs::LawLemmas::covers_to_its_end))]
pub fn ranges()
    ensures { (span : Span) (address : ℕ) → CoversToItsEnd span address }
{}

/// Frames that are put in the order of their starts are the same frames, each as often as before.
pub fn insertion_sorts()
    ensures { (frames : List FrameData) → IsSortedByStart frames }
{}

/// If starts increase, the comparison of heads merges as the definition says, and the starts of the
/// result increase.
pub fn merge_is_exact()
    ensures { (frames : Frames) → StartsIncrease frames → IsMerged frames }
{}

/// Whatever the starts are, the comparison of heads gives every new record and no old one twice,
/// each in the order of its stream.
#[tactic(auto, using(crate::proofs::LawLemmas::is_woven))]
pub fn merge_keeps_order()
    ensures { (old : List OldFrameData) (new : List NewFrameData) → IsWoven old new (by_heads old new) }
{}

/// Each step that yields a frame has fewer frames after it, and None comes only at the end, and
/// then for good.
#[tactic(auto, using(crate::proofs::LawLemmas::ends_for_good))]
pub fn steps()
    ensures { (left others : List FrameData) (result : Result (Option FrameData) Error) →
        IsFrameStep left result others → FramesEndForGood left result others }
{}

/// Kinds of frames compare as their numbers, and two are equal exactly if they are the same kind.
/// Equal ones hash alike, which the trait `Hash` demands of each type.
pub fn kinds()
    ensures { ComparesByNumber ⟦<FrameType as PartialEq>⟧.eq ⟦<FrameType as Ord>⟧.cmp }
{}

/// The number of a kind is its discriminant.
pub fn numbers(kind: FrameType) -> u8
    ensures { result ≡ frame_type_number kind }
{
    kind as u8
}

/// A record of the older format has 16 bytes, and one of the newer format 32.
pub fn sizes()
    ensures old { OLD_SIZE ≡ 16 }
    ensures new { NEW_SIZE ≡ 32 }
{}
