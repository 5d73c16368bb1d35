//! References to names in the string table.

ghost use Rattle.std.specs.Prelude.{◌≡◌, Some, codes, IfOk, IfErr, IsOkAnd};
ghost use Rattle.std.specs.Str.{IsUtf8};
ghost use Rattle.std.specs.Cow.{IsOwnedStr, cow_str_bytes};
ghost use Rattle.pdb_base.specs.Answer.{Answers, Gives};
ghost use Rattle.pdb_base.specs.declared.error.Error.TheVariants.{OutOfMemory};
ghost use Rattle.pdb_base.specs.ErrorText.{hexadecimal};
ghost use Rattle.pdb_base.specs.Index.{debug_text};
ghost use Rattle.pdb_base.specs.Reading.{number_at};
ghost use Rattle.pdb_space.specs.StringTable.{lossy_name_of, name_of};

use crate::string_table::StringTable;
use pdb_base::{Le, Parse, RawString, Result};
use std::alloc::Global;
use std::borrow::CowStr;
use std::fmt;
use std::marker::Model;

/// The offset of a name in the string table, in bytes from the start of the names. It is printed as
/// a hexadecimal number.
#[derive(PartialEq, Eq, PartialOrd, Ord, Hash, Clone, Copy)]
pub struct StringRef(pub u32);

impl Model for StringRef {
    ghost use Rattle.std.specs.Prelude.{ℕ};

    ghost Value = { ℕ };

    ghost view = { λ r. r.0 };

    ghost inverse = { λ n. record { 0 = n } };
}

impl StringRef {
    /// Returns the name in the table, as its bytes.
    ///
    /// # Errors
    /// Fails with `UnexpectedEof` if there is no NUL among the table's names at or after this
    /// offset.
    pub fn to_raw_string(self, strings: &StringTable) -> Result<RawString<'_>>
        ensures { Gives (λ name. name.0.now) result (name_of strings.now self) }
    {
        strings.get(self)
    }

    /// Returns the name in the table as text, with U+FFFD for each run of bytes that is no
    /// character. The text borrows from the table if the name is UTF-8.
    ///
    /// # Errors
    /// Fails with `UnexpectedEof` if there is no NUL among the table's names at or after this
    /// offset, and with `OutOfMemory` if the name isn't UTF-8 and an allocation fails.
    #[tactic(auto, unfolding(crate::specs::StringTable::lossy_name_of), using(crate::proofs::NameLemmas::no_want))]
    pub fn to_string_lossy(self, alloc: Global, strings: &StringTable) -> Result<CowStr<'_>>
        ensures text { Answers cow_str_bytes result (lossy_name_of strings.now self) }
        ensures borrowed { IsOkAnd (name_of strings.now self) IsUtf8
            → IfOk result (λ text. ¬ IsOwnedStr text) }
        ensures memory { IfErr result
            (λ e. e ≡ OutOfMemory → IsOkAnd (name_of strings.now self) (λ name. ¬ IsUtf8 name)) }
    {
        strings.get(self)?.to_string(alloc)
    }
}

impl From<u32> for StringRef {
    ghost from_gives = { λ number place. place ≡ number };

    fn from(number: u32) -> StringRef {
        StringRef(number)
    }
}

impl From<StringRef> for u32 {
    ghost from_gives = { λ place number. number ≡ place };

    fn from(place: StringRef) -> u32 {
        place.0
    }
}

/// Reads a `u32`.
impl Parse<Le> for StringRef {
    ghost reads = { λ _. number_at 4 };

    fn parse_from(bytes: &[u8], context: Le) -> Result<(StringRef, usize)> {
        let (number, len) = u32::parse_from(bytes, context)?;
        Ok((StringRef(number), len))
    }
}

/// Prints `0x` and the offset in lower-case hexadecimal digits.
impl fmt::Display for StringRef {
    ghost output = { λ place. Some (hexadecimal place) };

    fn fmt<W: fmt::Write>(&self, f: &mut fmt::Formatter<W>) -> fmt::Result {
        let number = self.0;
        write!(f, "0x{number:x}")
    }
}

/// Prints the name of the type and, in parentheses, what `Display` prints.
impl fmt::Debug for StringRef {
    ghost debug_output = { λ place. Some (debug_text (codes "StringRef") place) };

    fn fmt<W: fmt::Write>(&self, f: &mut fmt::Formatter<W>) -> fmt::Result {
        write!(f, "StringRef({self})")
    }
}
