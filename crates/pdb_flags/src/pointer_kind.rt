//! The kinds of pointers.

ghost use Rattle.std.specs.Prelude.{◌≡◌, ◌<◌, MatchOption};

/// The kind of a pointer, as `CV_ptrtype_e` of Microsoft's cvinfo.h numbers it.
#[derive(Clone, Copy, Debug, PartialEq, Eq)]
pub enum PointerKind {
    /// 16 bits, within a segment.
    Near16,

    /// A segment and 16 bits.
    Far16,

    /// A segment and 16 bits, where sums carry into the segment.
    Huge16,

    /// Based on a segment.
    BaseSeg,

    /// Based on the value of another pointer.
    BaseVal,

    /// Based on the segment of a value.
    BaseSegVal,

    /// Based on the address of a symbol.
    BaseAddr,

    /// Based on the segment of a symbol's address.
    BaseSegAddr,

    /// Based on a type.
    BaseType,

    /// Based on itself.
    BaseSelf,

    /// 32 bits.
    Near32,

    /// A segment and 32 bits.
    Far32,

    /// 64 bits.
    Ptr64,
}

impl PointerKind {
    ghost use Rattle.pdb_flags.specs.PointerNumbers.{pointer_kind_number};

    /// Returns the kind of this number, or None if the number is above 12.
    pub(crate) fn from_number(number: u32) -> Option<Self>
        ensures { MatchOption result (12 < number) (λ kind. pointer_kind_number kind ≡ number) }
    {
        match number {
            0 => Some(PointerKind::Near16),
            1 => Some(PointerKind::Far16),
            2 => Some(PointerKind::Huge16),
            3 => Some(PointerKind::BaseSeg),
            4 => Some(PointerKind::BaseVal),
            5 => Some(PointerKind::BaseSegVal),
            6 => Some(PointerKind::BaseAddr),
            7 => Some(PointerKind::BaseSegAddr),
            8 => Some(PointerKind::BaseType),
            9 => Some(PointerKind::BaseSelf),
            10 => Some(PointerKind::Near32),
            11 => Some(PointerKind::Far32),
            12 => Some(PointerKind::Ptr64),
            _ => None,
        }
    }
}
