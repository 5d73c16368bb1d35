//! The modes of pointers.

ghost use Rattle.std.specs.Prelude.{◌≡◌, ◌<◌, MatchOption};

/// What a pointer is in the source language, as `CV_ptrmode_e` of Microsoft's cvinfo.h numbers it.
#[derive(Clone, Copy, Debug, PartialEq, Eq)]
pub enum PointerMode {
    /// A plain pointer.
    Pointer,

    /// An lvalue reference, `&`.
    LValueReference,

    /// A pointer to a data member of a class.
    Member,

    /// A pointer to a method of a class.
    MemberFunction,

    /// An rvalue reference, `&&`.
    RValueReference,
}

impl PointerMode {
    ghost use Rattle.pdb_flags.specs.PointerNumbers.{mode_number};

    /// Returns the mode of this number, or None if the number is above 4.
    pub(crate) fn from_number(number: u32) -> Option<Self>
        ensures { MatchOption result (4 < number) (λ mode. mode_number mode ≡ number) }
    {
        match number {
            0 => Some(PointerMode::Pointer),
            1 => Some(PointerMode::LValueReference),
            2 => Some(PointerMode::Member),
            3 => Some(PointerMode::MemberFunction),
            4 => Some(PointerMode::RValueReference),
            _ => None,
        }
    }
}
