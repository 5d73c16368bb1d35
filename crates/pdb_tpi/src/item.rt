//! One item of a table.
//!
//! `Item` has no `Model`, and contracts speak of its fields: it can be copied and borrows from its
//! table, and for such a struct the language allows no model from whose value the fields can be
//! recovered.

ghost use Rattle.std.specs.Prelude.{◌≡◌, ◌≤◌, ◌↔◌, [], length, IsTrue, ⊤};
ghost use Rattle.pdb_tpi.specs.Record.{kind_of};

use byteorder::{ByteOrder, LittleEndian};
use std::alloc::AllocError;

/// An item of a table: its index, and the bytes of its record, which borrow from the table. A
/// record has at least two bytes.
#[derive(Debug, PartialEq)]
pub struct Item<'t, I> {
    pub(crate) index: I,
    pub(crate) bytes: &'t [u8],
    ghost least: { 2 ≤ length bytes.now },
}

/// Returns the same item. It allocates nothing.
impl<'t, I: Copy> Clone for Item<'t, I> {
    ghost is_clone = { λ item other. other ≡ item };

    ghost is_infallible = { λ _. ⊤ };

    fn clone(&self) -> Result<Self, AllocError> {
        Ok(Item {
            index: self.index,
            bytes: self.bytes,
        })
    }
}

impl<'t, I: Copy> Copy for Item<'t, I> {}

impl<'t, I: Copy> Item<'t, I> {
    /// Returns the index of the item.
    pub fn index(&self) -> I
        ensures { result ≡ self.now.index }
    {
        self.index
    }

    /// Returns how many bytes the record has, without the length before it.
    pub fn len(&self) -> usize
        ensures { result ≡ length self.now.bytes.now }
    {
        self.bytes.len()
    }

    /// Returns the bytes of the record, without the length before it.
    pub fn as_bytes(&self) -> &'t [u8]
        ensures { result.now ≡ self.now.bytes.now }
    {
        self.bytes
    }

    /// Returns whether the record has no bytes. This is always false: it has two bytes at least.
    pub fn is_empty(&self) -> bool
        ensures exact { IsTrue result ↔ (self.now.bytes.now ≡ []) }
        ensures least { 2 ≤ length self.now.bytes.now }
    {
        self.bytes.is_empty()
    }

    /// Returns the kind of the record: its first two bytes, the lowest first.
    pub fn raw_kind(&self) -> u16
        ensures { result ≡ kind_of self.now.bytes.now }
    {
        LittleEndian::read_u16(self.bytes)
    }
}
