//! The numbers by which one part of a program database refers to another.

ghost use Rattle.std.specs.Prelude.{◌≡◌, ◌≢◌, ◌↔◌, Some, IsTrue, codes};
ghost use Rattle.std.specs.Fmt.{DisplaysOnOk};
ghost use Rattle.pdb_base.specs.ErrorText.{hexadecimal};
ghost use Rattle.pdb_base.specs.Index.{debug_text, no_stream, stream_number, stream_text};

use crate::item_index::ItemIndex;
use std::fmt;

/// The number that means no stream.
const NO_STREAM: u16 = 0xffff;

/// The number of a stream, or 0xffff for no stream.
#[derive(Debug, Clone, Copy, PartialEq, Eq, PartialOrd, Ord, Hash)]
pub struct StreamIndex(pub u16);

impl StreamIndex {
    /// Returns the index that names no stream.
    pub const fn none() -> Self
        ensures { result.0 ≡ no_stream }
    {
        StreamIndex(NO_STREAM)
    }

    /// Returns whether the index names a stream.
    pub fn is_some(self) -> bool
        ensures { IsTrue result ↔ (self.0 ≢ no_stream) }
    {
        self.0 != NO_STREAM
    }

    /// Returns whether the index names no stream.
    pub fn is_none(self) -> bool
        ensures { IsTrue result ↔ (self.0 ≡ no_stream) }
    {
        self.0 == NO_STREAM
    }

    /// Returns the number of the stream as the container counts streams, from 0 to 65,534, or None
    /// if the index names no stream.
    pub fn msf_number(self) -> Option<u32>
        ensures { result ≡ stream_number self.0 }
    {
        if self.is_none() {
            None
        } else {
            Some(self.0 as u32)
        }
    }
}

/// The default is the index that names no stream.
impl Default for StreamIndex {
    ghost is_default = { λ index. index.0 ≡ no_stream };

    fn default() -> Self {
        StreamIndex::none()
    }
}

/// Displays the number in decimal, or `None` if the index names no stream.
impl fmt::Display for StreamIndex {
    ghost output = { λ index. Some (stream_text index.0) };

    fn fmt<W: fmt::Write>(&self, f: &mut fmt::Formatter<W>) -> fmt::Result {
        match self.msf_number() {
            Some(number) => write!(f, "{number}"),
            None => write!(f, "None"),
        }
    }
}

/// Writes the number of an index as `0x` and its hexadecimal digits in lower case.
fn write_index<W: fmt::Write>(number: u32, f: &mut fmt::Formatter<W>) -> fmt::Result
    ensures { DisplaysOnOk W.write_str_gives f.old result (Some (hexadecimal number)) f.new }
{
    write!(f, "0x{number:x}")
}

/// The index of a type, printed as a hexadecimal number.
///
/// If `is_cross_module` holds, the type is in another module.
#[derive(Clone, Copy, Default, PartialEq, Eq, PartialOrd, Ord, Hash)]
pub struct TypeIndex(pub u32);

impl From<u32> for TypeIndex {
    ghost from_gives = { λ number index. index.0 ≡ number };

    fn from(number: u32) -> Self {
        TypeIndex(number)
    }
}

impl From<TypeIndex> for u32 {
    ghost from_gives = { λ index number. number ≡ index.0 };

    fn from(index: TypeIndex) -> u32 {
        index.0
    }
}

impl fmt::Display for TypeIndex {
    ghost output = { λ index. Some (hexadecimal index.0) };

    fn fmt<W: fmt::Write>(&self, f: &mut fmt::Formatter<W>) -> fmt::Result {
        write_index(self.0, f)
    }
}

impl fmt::Debug for TypeIndex {
    ghost debug_output = { λ index. Some (debug_text (codes "TypeIndex") index.0) };

    fn fmt<W: fmt::Write>(&self, f: &mut fmt::Formatter<W>) -> fmt::Result {
        write!(f, "TypeIndex({self})")
    }
}

/// The index of an id, printed as a hexadecimal number. An id is a function, a string or another
/// item that is not a type.
///
/// If `is_cross_module` holds, the id is in another module.
#[derive(Clone, Copy, Default, PartialEq, Eq, PartialOrd, Ord, Hash)]
pub struct IdIndex(pub u32);

impl From<u32> for IdIndex {
    ghost from_gives = { λ number index. index.0 ≡ number };

    fn from(number: u32) -> Self {
        IdIndex(number)
    }
}

impl From<IdIndex> for u32 {
    ghost from_gives = { λ index number. number ≡ index.0 };

    fn from(index: IdIndex) -> u32 {
        index.0
    }
}

impl fmt::Display for IdIndex {
    ghost output = { λ index. Some (hexadecimal index.0) };

    fn fmt<W: fmt::Write>(&self, f: &mut fmt::Formatter<W>) -> fmt::Result {
        write_index(self.0, f)
    }
}

impl fmt::Debug for IdIndex {
    ghost debug_output = { λ index. Some (debug_text (codes "IdIndex") index.0) };

    fn fmt<W: fmt::Write>(&self, f: &mut fmt::Formatter<W>) -> fmt::Result {
        write!(f, "IdIndex({self})")
    }
}

/// The offset of a source file in the table of file checksums, in bytes, printed as a hexadecimal
/// number.
#[derive(Clone, Copy, Default, PartialEq, Eq, PartialOrd, Ord, Hash)]
pub struct FileIndex(pub u32);

impl From<u32> for FileIndex {
    ghost from_gives = { λ number index. index.0 ≡ number };

    fn from(number: u32) -> Self {
        FileIndex(number)
    }
}

impl From<FileIndex> for u32 {
    ghost from_gives = { λ index number. number ≡ index.0 };

    fn from(index: FileIndex) -> u32 {
        index.0
    }
}

impl fmt::Display for FileIndex {
    ghost output = { λ index. Some (hexadecimal index.0) };

    fn fmt<W: fmt::Write>(&self, f: &mut fmt::Formatter<W>) -> fmt::Result {
        write_index(self.0, f)
    }
}

impl fmt::Debug for FileIndex {
    ghost debug_output = { λ index. Some (debug_text (codes "FileIndex") index.0) };

    fn fmt<W: fmt::Write>(&self, f: &mut fmt::Formatter<W>) -> fmt::Result {
        write!(f, "FileIndex({self})")
    }
}

/// The offset of a symbol in a stream of symbols, in bytes, printed as a hexadecimal number.
#[derive(Clone, Copy, PartialEq, Eq, PartialOrd, Ord, Hash)]
pub struct SymbolIndex(pub u32);

impl From<u32> for SymbolIndex {
    ghost from_gives = { λ number index. index.0 ≡ number };

    fn from(number: u32) -> Self {
        SymbolIndex(number)
    }
}

impl From<SymbolIndex> for u32 {
    ghost from_gives = { λ index number. number ≡ index.0 };

    fn from(index: SymbolIndex) -> u32 {
        index.0
    }
}

impl fmt::Display for SymbolIndex {
    ghost output = { λ index. Some (hexadecimal index.0) };

    fn fmt<W: fmt::Write>(&self, f: &mut fmt::Formatter<W>) -> fmt::Result {
        write_index(self.0, f)
    }
}

impl fmt::Debug for SymbolIndex {
    ghost debug_output = { λ index. Some (debug_text (codes "SymbolIndex") index.0) };

    fn fmt<W: fmt::Write>(&self, f: &mut fmt::Formatter<W>) -> fmt::Result {
        write!(f, "SymbolIndex({self})")
    }
}

/// The number of a processor's register.
#[derive(Debug, Clone, Copy, Default, PartialEq, Eq, PartialOrd, Ord, Hash)]
pub struct Register(pub u16);

impl From<u16> for Register {
    ghost from_gives = { λ number register. register.0 ≡ number };

    fn from(number: u16) -> Self {
        Register(number)
    }
}

impl From<Register> for u16 {
    ghost from_gives = { λ register number. number ≡ register.0 };

    fn from(register: Register) -> u16 {
        register.0
    }
}

/// An index that has a meaning within one module only, printed as that index.
#[derive(Debug, Clone, Copy, Default, PartialEq, Eq, PartialOrd, Ord, Hash)]
pub struct Local<I: ItemIndex>(pub I);

impl<I: ItemIndex> fmt::Display for Local<I> {
    ghost output = { λ index. I.output index.0 };

    ghost styled_output = { λ index spec. I.styled_output index.0 spec };

    fn fmt<W: fmt::Write>(&self, f: &mut fmt::Formatter<W>) -> fmt::Result {
        fmt::Display::fmt(&self.0, f)
    }
}
