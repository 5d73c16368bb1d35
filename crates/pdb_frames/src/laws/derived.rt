//! What `==` and `clone` of each record say. The functions do nothing: each contract is a law. That kinds of
//! frames compare as their numbers is a law beside it.

ghost use Rattle.pdb_base.specs.Derived.{Copies, TellsApart};

use crate::frame_data::FrameData;
use crate::frame_type::FrameType;
use crate::new_frame_data::NewFrameData;
use crate::old_frame_data::OldFrameData;

/// Records of either format, and the frames made of them, are equal exactly if all fields are.
pub fn records()
    ensures old { TellsApart ⟦<OldFrameData as PartialEq>⟧.eq }
    ensures new { TellsApart ⟦<NewFrameData as PartialEq>⟧.eq }
    ensures frames { TellsApart ⟦<FrameData as PartialEq>⟧.eq }
{}

type Frames = (OldFrameData, NewFrameData, FrameData, FrameType);

/// A clone is the value that was cloned, and cloning never fails. A law of a tuple is one of each
/// of its parts.
pub fn clones()
    ensures { Copies ⟦<Frames as Clone>⟧.is_clone ⟦<Frames as Clone>⟧.is_infallible }
{}
