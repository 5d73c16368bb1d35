//! The kinds of frames.

ghost use Rattle.std.specs.Prelude.{Some};
ghost use Rattle.pdb_frames.specs.FrameNumbers.{kind_text};

use std::fmt;

/// The kind of frame that a record describes. Kinds are ordered by their numbers, which are those
/// of Microsoft's DIA interface (`StackFrameTypeEnum`) except for the last.
#[derive(Clone, Copy, Debug, PartialEq, Eq, PartialOrd, Ord, Hash)]
pub enum FrameType {
    /// Frame pointer omitted. Number 0.
    FPO = 0,

    /// A kernel trap. Number 1.
    Trap = 1,

    /// A task state segment. Number 2.
    TSS = 2,

    /// A frame with a base pointer. Number 3.
    Standard = 3,

    /// A frame that a program in the string table describes. Number 4.
    FrameData = 4,

    /// An unknown kind. Number 0xff.
    Unknown = 0xff,
}

/// Prints the name in lower case: `fpo`, `trap`, `tss`, `std`, `fdata` or `unknown`.
impl fmt::Display for FrameType {
    ghost output = { λ kind. Some (kind_text kind) };

    fn fmt<W: fmt::Write>(&self, f: &mut fmt::Formatter<W>) -> fmt::Result {
        match self {
            FrameType::FPO => write!(f, "fpo"),
            FrameType::Trap => write!(f, "trap"),
            FrameType::TSS => write!(f, "tss"),
            FrameType::Standard => write!(f, "std"),
            FrameType::FrameData => write!(f, "fdata"),
            FrameType::Unknown => write!(f, "unknown"),
        }
    }
}
