//! A table of items.

ghost use Rattle.std.specs.Prelude.{◌≡◌, ◌≤◌, ◌↔◌, length, take, drop, IsTrue};
ghost use Rattle.pdb_base.specs.Answer.{Gives};
ghost use Rattle.pdb_tpi.specs.Table.{table_of, count_in_header, IsTable};
ghost use Rattle.pdb_tpi.specs.Finder.{most_blocks};

use crate::header::{Header, read_header};
use crate::item_iter::ItemIter;
use pdb_base::{ItemIndex, Result, Stream};
use std::marker::{Model, PhantomData};

/// A table of items, such as types or ids: a stream that begins with a header, with the items
/// behind it.
///
/// It holds the stream's bytes as they are, and its items borrow from them.
#[derive(Debug, Drop)]
pub struct ItemInformation<I> {
    stream: Stream,
    header: Header,
    indexes: PhantomData<I>,
}

impl<I> Model for ItemInformation<I> {
    ghost use Rattle.pdb_tpi.specs.Table.{Table, IsTable};

    ghost Value = { Table };

    ghost view = { λ t. record { bytes = t.stream; header = t.header } };

    ghost invariant = { λ t. IsTable (record { bytes = t.stream; header = t.header }) };
}

impl<I: ItemIndex> ItemInformation<I> {
    /// Parses the header of a stream, and returns the stream as a table. A stream without bytes is
    /// a table without items, and all fields of its header are 0.
    ///
    /// # Errors
    /// Fails with the first of these: `UnexpectedEof` if the stream has bytes, but fewer than the
    /// 56 of the header's fields; `InvalidTypeInformationHeader` if the header's size is not from
    /// 56 to 1024 bytes; `UnexpectedEof` if the stream has fewer bytes than that size;
    /// `InvalidTypeInformationHeader` if the minimum index is below 4096, or if the maximum is
    /// below the minimum.
    #[tactic(auto, using(crate::proofs::TableLemmas::table_is), unfolding(crate::specs::Table::table_of))]
    pub fn parse(stream: Stream) -> Result<Self>
        ensures { Gives (λ table. table) result (table_of stream) }
    {
        let header = read_header(stream.as_slice())?;
        Ok(ItemInformation {
            stream,
            header,
            indexes: PhantomData,
        })
    }

    /// Returns the header, which lies within the table's bytes.
    pub fn header(&self) -> Header
        ensures header { result ≡ self.now.header }
        ensures sound { IsTable self.now }
    {
        self.header
    }

    /// Returns how many indexes the header counts, from its minimum to below its maximum. The
    /// iterator may give fewer items, or more.
    pub fn len(&self) -> usize
        ensures { result ≡ count_in_header self.now }
    {
        (self.header.maximum_index - self.header.minimum_index) as usize
    }

    /// Returns whether the header counts no index.
    pub fn is_empty(&self) -> bool
        ensures { IsTrue result ↔ (count_in_header self.now ≡ 0) }
    {
        self.len() == 0
    }

    /// Returns an iterator over all items.
    #[tactic(auto, using(crate::proofs::TableLemmas::place_first))]
    pub fn iter(&self) -> ItemIter<'_, I>
        ensures { result ≡ record { table = self.now; index = self.now.header.minimum_index } }
    {
        let header = self.header();
        ItemIter::at(
            self,
            header.minimum_index as u64,
            header.header_size as usize,
        )
    }

    /// Returns how many blocks of eight items a finder can know at most: as many as hold the
    /// counted indexes, and no more than the bytes can hold.
    #[tactic(auto, unfolding(crate::specs::Finder::most_blocks))]
    pub(crate) fn most_blocks(&self) -> usize
        ensures { result ≡ most_blocks self.now }
    {
        let bytes = self.stream.as_slice().len() - self.header.header_size as usize;
        self.len().div_ceil(8).min(1 + bytes / 32)
    }

    /// Returns the bytes from a position on.
    pub(crate) fn bytes_from(&self, position: usize) -> &[u8]
        requires { position ≤ length self.now.bytes }
        ensures { result.now ≡ drop position self.now.bytes }
    {
        &self.stream.as_slice()[position..]
    }

    /// Returns the bytes at an offset in the stream, as many of them as there are.
    #[tactic(auto, using(std::proofs::lemmas::List::drop_min, std::proofs::lemmas::List::take_min))]
    pub(crate) fn bytes_at(&self, offset: usize, len: usize) -> &[u8]
        ensures { result.now ≡ take len (drop offset self.now.bytes) }
    {
        let bytes = self.stream.as_slice();
        let from = &bytes[offset.min(bytes.len())..];
        &from[..len.min(from.len())]
    }
}
