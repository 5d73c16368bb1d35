//! Attributes of a pointer in words.

use crate::value::Flag;
use pdb_flags::{PointerAttributes, PointerKind, PointerMode};

/// Returns the name of a pointer's kind.
pub(crate) fn kind_word(kind: PointerKind) -> &'static str {
    match kind {
        PointerKind::Near16 => "Near16",
        PointerKind::Far16 => "Far16",
        PointerKind::Huge16 => "Huge16",
        PointerKind::BaseSeg => "BaseSeg",
        PointerKind::BaseVal => "BaseVal",
        PointerKind::BaseSegVal => "BaseSegVal",
        PointerKind::BaseAddr => "BaseAddr",
        PointerKind::BaseSegAddr => "BaseSegAddr",
        PointerKind::BaseType => "BaseType",
        PointerKind::BaseSelf => "BaseSelf",
        PointerKind::Near32 => "Near32",
        PointerKind::Far32 => "Far32",
        PointerKind::Ptr64 => "Ptr64",
    }
}

/// Returns the name of a pointer's mode.
pub(crate) fn mode_word(mode: PointerMode) -> &'static str {
    match mode {
        PointerMode::Pointer => "Pointer",
        PointerMode::LValueReference => "LValueReference",
        PointerMode::Member => "Member",
        PointerMode::MemberFunction => "MemberFunction",
        PointerMode::RValueReference => "RValueReference",
    }
}

/// Returns the flags of the attributes that a pointer has.
pub(crate) fn pointer_flags(word: PointerAttributes) -> [Flag; 6] {
    [
        (word.is_flat_32(), "is_flat_32"),
        (word.is_volatile(), "is_volatile"),
        (word.is_const(), "is_const"),
        (word.is_unaligned(), "is_unaligned"),
        (word.is_restrict(), "is_restrict"),
        (word.is_mocom(), "is_mocom"),
    ]
}
