//! How compilers spell calling conventions.

/// The calling conventions of functions that are no methods and of methods by default, as
/// `CV_call_e` of Microsoft's cvinfo.h numbers them; that of methods only in programs of 32 bits.
const NEAR_C: u8 = 0;

const THIS_CALL: u8 = 11;

/// Returns how compilers spell a calling convention of this number, or no text for the default one
/// and for those of other machines.
pub(crate) fn convention_word(number: u8) -> &'static str {
    match number {
        2 | 3 => "__pascal",
        4 | 5 => "__fastcall",
        7 | 8 => "__stdcall",
        9 | 10 => "__syscall",
        THIS_CALL => "__thiscall",
        22 => "__clrcall",
        24 => "__vectorcall",
        _ => "",
    }
}

/// Returns how compilers spell the calling convention of a method, if it isn't the default one,
/// where a pointer to its object has so many bytes.
pub(crate) fn method_convention(number: u8, pointer_size: u8) -> &'static str {
    match number {
        THIS_CALL => "",
        NEAR_C if pointer_size == 4 => "__cdecl",
        _ => convention_word(number),
    }
}

/// Returns whether Clang has a word for the calling convention of this number, or needs none.
pub(crate) fn is_convention_known(number: u8) -> bool {
    !matches!(number, 2 | 3 | 9 | 10 | 22)
}
