//! Identifiers of C and C++.

ghost use Rattle.std.specs.Prelude.{◌≡◌, true};
ghost use Rattle.pdbdump_declarations.specs.Identifier.{is_letter};

use pdbdump_types::TextBuffer;
use std::hash::{DefaultHasher, Hasher};

/// How many bytes of a name an identifier has at most.
const MOST_BYTES: usize = 160;

/// The words of C, of C++ and of Microsoft's compiler that name nothing.
const KEYWORDS: &[&str] = &[
    "alignas",
    "alignof",
    "and",
    "and_eq",
    "asm",
    "auto",
    "bitand",
    "bitor",
    "bool",
    "break",
    "case",
    "catch",
    "char",
    "char16_t",
    "char32_t",
    "char8_t",
    "class",
    "co_await",
    "co_return",
    "co_yield",
    "compl",
    "concept",
    "const",
    "const_cast",
    "consteval",
    "constexpr",
    "constinit",
    "continue",
    "decltype",
    "default",
    "delete",
    "do",
    "double",
    "dynamic_cast",
    "else",
    "enum",
    "explicit",
    "export",
    "extern",
    "false",
    "float",
    "for",
    "friend",
    "goto",
    "if",
    "inline",
    "int",
    "long",
    "mutable",
    "namespace",
    "new",
    "noexcept",
    "not",
    "not_eq",
    "nullptr",
    "offsetof",
    "operator",
    "or",
    "or_eq",
    "private",
    "protected",
    "public",
    "register",
    "reinterpret_cast",
    "requires",
    "restrict",
    "return",
    "short",
    "signed",
    "sizeof",
    "static",
    "static_assert",
    "static_cast",
    "struct",
    "switch",
    "template",
    "this",
    "thread_local",
    "throw",
    "true",
    "try",
    "typedef",
    "typeid",
    "typename",
    "typeof",
    "union",
    "unsigned",
    "using",
    "virtual",
    "void",
    "volatile",
    "wchar_t",
    "while",
    "xor",
    "xor_eq",
    "NULL",
];

/// Returns the hash of a text.
pub(crate) fn text_hash(text: &[u8]) -> u64 {
    let mut hasher = DefaultHasher::new();
    hasher.write(text);
    hasher.finish()
}

/// Returns whether a byte may stand in an identifier: a letter, a digit or `_`.
#[tactic(auto, unfolding(crate::specs::Identifier::is_letter))]
fn is_letter(byte: u8) -> bool
    ensures { result ≡ is_letter byte }
{
    matches!(byte, b'0'..=b'9' | b'A'..=b'Z' | b'a'..=b'z') || byte == b'_'
}

/// Returns a byte that may stand in an identifier: a byte itself, or `_` in the place of one that may
/// not.
fn letter_of(byte: u8) -> u8
    ensures { is_letter result ≡ true }
{
    if is_letter(byte) { byte } else { b'_' }
}

/// Returns whether a word is one that no other thing may be called.
pub(crate) fn is_keyword(word: &[u8]) -> bool {
    KEYWORDS.iter().any(|keyword| keyword.as_bytes() == word)
        || word.starts_with(b"__builtin")
        || is_extension(word)
}

/// Returns whether a word is one that Microsoft's compiler or Clang knows beside the language.
fn is_extension(word: &[u8]) -> bool {
    const WORDS: &[&str] = &[
        "__int8",
        "__int16",
        "__int32",
        "__int64",
        "__int128",
        "__asm",
        "__cdecl",
        "__stdcall",
        "__fastcall",
        "__thiscall",
        "__vectorcall",
        "__unaligned",
        "__restrict",
        "__declspec",
        "__interface",
        "__ptr32",
        "__ptr64",
        "__w64",
        "__try",
        "__except",
        "__finally",
        "__leave",
        "__forceinline",
        "__uuidof",
        "__super",
        "__if_exists",
        "__if_not_exists",
        "__based",
        "__null",
        "__float128",
        "__wchar_t",
        "_asm",
        "_cdecl",
        "_Bool",
        "_Complex",
        "_Generic",
    ];
    WORDS.iter().any(|keyword| keyword.as_bytes() == word)
}

/// Returns whether a text is an identifier, and short enough to be one here.
pub(crate) fn is_identifier(text: &[u8]) -> bool {
    match text.first() {
        Some(first) => {
            !first.is_ascii_digit()
                && text.len() <= MOST_BYTES
                && text.iter().all(|byte| is_letter(*byte))
                && !is_keyword(text)
        }
        None => false,
    }
}

/// Appends a text as a part of an identifier, with `_` in the place of each sign that may not stand
/// there. A long text is cut.
pub(crate) fn push_letters(text: &[u8], out: &mut TextBuffer) {
    for byte in text.iter().take(MOST_BYTES) {
        out.push_byte(letter_of(*byte));
    }
}
