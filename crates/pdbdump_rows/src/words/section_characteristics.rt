//! The flags of a section in words.

use crate::value::Flag;
use pdb_space::SectionCharacteristics;

/// Returns the flags of the flags that a section has.
pub(crate) fn section_flags(flags: SectionCharacteristics) -> [Flag; 20] {
    [
        (flags.executable(), "executable"),
        (flags.initialized_data(), "initialized_data"),
        (flags.uninitialized_data(), "uninitialized_data"),
        (flags.other(), "other"),
        (flags.info(), "info"),
        (flags.remove(), "remove"),
        (flags.comdat(), "comdat"),
        (
            flags.defer_speculative_exceptions(),
            "defer_speculative_exceptions",
        ),
        (flags.global_pointer_relative(), "global_pointer_relative"),
        (flags.purgeable(), "purgeable"),
        (flags.locked(), "locked"),
        (flags.preload(), "preload"),
        (flags.lnk_nreloc_ovfl(), "lnk_nreloc_ovfl"),
        (flags.discardable(), "discardable"),
        (flags.not_cached(), "not_cached"),
        (flags.not_paged(), "not_paged"),
        (flags.shared(), "shared"),
        (flags.execute(), "execute"),
        (flags.read(), "read"),
        (flags.write(), "write"),
    ]
}
