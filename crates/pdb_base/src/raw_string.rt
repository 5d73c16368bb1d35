//! Text as a program database holds it.

ghost use Rattle.std.specs.Prelude.{◌≡◌, ◌↔◌, [], length, Some, IsTrue, IfOk, IfErr};
ghost use Rattle.std.specs.Str.{IsUtf8};
ghost use Rattle.std.specs.Cow.{IsOwnedStr, cow_str_bytes};
ghost use Rattle.pdb_base.specs.declared.error.Error.TheVariants.{OutOfMemory};
ghost use Rattle.pdb_base.specs.Text.{lossy};

use crate::error::Result;
use bstr::{BStr, ByteSlice};
use std::alloc::Global;
use std::borrow::CowStr;
use std::fmt;

/// The bytes of a name or another text. Most are UTF-8, but none need be.
#[derive(Clone, Copy, Debug, Default, PartialEq, Eq, PartialOrd, Ord, Hash)]
pub struct RawString<'b>(&'b [u8]);

impl<'b> RawString<'b> {
    /// Returns the bytes of the text, without the NUL or the length beside them.
    pub fn as_bytes(&self) -> &'b [u8]
        ensures { result.now ≡ self.now.0.now }
    {
        self.0
    }

    /// Returns the number of bytes.
    pub fn len(&self) -> usize
        ensures { result ≡ length self.now.0.now }
    {
        self.0.len()
    }

    /// Returns whether the text has no bytes.
    pub fn is_empty(&self) -> bool
        ensures { IsTrue result ↔ (self.now.0.now ≡ []) }
    {
        self.0.is_empty()
    }

    /// Returns the text, with U+FFFD in place of each invalid sequence of bytes (by substitution of
    /// maximal subparts). The result borrows if the bytes are UTF-8, and owns its text if they are
    /// not.
    ///
    /// # Errors
    /// Returns `OutOfMemory` if the bytes are not UTF-8 and an allocation fails.
    pub fn to_string(&self, alloc: Global) -> Result<CowStr<'b>>
        ensures text { IfOk result (λ text. cow_str_bytes text ≡ lossy self.now.0.now) }
        ensures borrowed { IsUtf8 self.now.0.now → IfOk result (λ text. ¬ IsOwnedStr text) }
        ensures owned { ¬ IsUtf8 self.now.0.now → IfOk result IsOwnedStr }
        ensures memory { IfErr result (λ e. (e ≡ OutOfMemory) × ¬ IsUtf8 self.now.0.now) }
    {
        match self.0.to_str() {
            Ok(text) => Ok(CowStr::Borrowed(text)),
            Err(_) => {
                let mut text = String::with_capacity(alloc, self.0.len())?;
                self.0.to_str_lossy_into(&mut text)?;
                Ok(CowStr::Owned(text))
            }
        }
    }
}

impl<'b> From<&'b [u8]> for RawString<'b> {
    ghost from_gives = { λ bytes text. text.0.now ≡ bytes.now };

    fn from(bytes: &'b [u8]) -> Self {
        RawString(bytes)
    }
}

impl<'b> From<&'b str> for RawString<'b> {
    ghost from_gives = { λ bytes text. text.0.now ≡ bytes.now };

    fn from(text: &'b str) -> Self {
        RawString(text.as_bytes())
    }
}

impl<'b> From<RawString<'b>> for &'b [u8] {
    ghost from_gives = { λ text bytes. bytes.now ≡ text.0.now };

    fn from(text: RawString<'b>) -> Self {
        text.0
    }
}

impl<'b> fmt::Display for RawString<'b> {
    ghost output = { λ text. Some (lossy text.0.now) };

    fn fmt<W: fmt::Write>(&self, f: &mut fmt::Formatter<W>) -> fmt::Result {
        let text = BStr::new(self.0);
        write!(f, "{text}")
    }
}
