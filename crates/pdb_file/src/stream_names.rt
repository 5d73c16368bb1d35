//! The names that stream 1 gives to streams.

ghost use Rattle.std.specs.Prelude.{◌≡◌, ◌+◌, ◌*◌, ◌/◌, ◌<◌, length, map, IsOk, Ok};
ghost use Rattle.pdb_base.specs.Answer.{Answers, Gives};
ghost use Rattle.pdb_base.specs.Memory.{LacksOnlyIf};
ghost use Rattle.pdb_base.specs.Place.{left};
ghost use Rattle.pdb_file.specs.StreamNames.{behind_set, map_of, map_view, named_at, named_in, named_view};
ghost use Rattle.pdb_file.specs.StreamNames.{number_named, stream_names_of};

use crate::fields::u32_in;
use crate::information::PDBInformation;
use crate::name_ends::NameEnds;
use pdb_base::{Error, ParseBuffer, RawString, Result, StreamIndex};
use std::alloc::Global;
use std::marker::Model;

/// The size of an entry in bytes.
const ENTRY_SIZE: usize = 8;

/// The least number that names no stream.
const NO_STREAM: u32 = 0xffff;

/// A stream and its name.
#[derive(Clone, Copy, Debug, PartialEq, Eq)]
pub struct StreamName<'n> {
    /// The name.
    pub name: RawString<'n>,

    /// The stream, which is none if its number in the file is 65,535 or more.
    pub stream_id: StreamIndex,
}

/// The streams that have names, in the order in which the file lists them.
#[derive(Debug, Drop)]
pub struct StreamNames<'n> {
    names: Vec<StreamName<'n>>,
}

impl<'n> Model for StreamNames<'n> {
    ghost use Rattle.std.specs.Prelude.{List, map};
    ghost use Rattle.pdb_file.specs.StreamNames.{Named, named_view};

    ghost Value = { List Named };

    ghost view = { λ n. map named_view n.names.items };
}

impl<'n> StreamNames<'n> {
    /// Returns the streams and their names, in order.
    pub fn as_slice(&self) -> &[StreamName<'n>]
        ensures { map named_view result.now ≡ self.now }
    {
        self.names.as_slice()
    }

    /// Returns the number of the first stream that has a name.
    ///
    /// # Errors
    /// Fails with `StreamNameNotFound` if no stream has the name, or if the first entry with it
    /// names no stream.
    #[tactic(auto, unfolding(crate::specs::StreamNames::number_named))]
    pub fn number(&self, name: &[u8]) -> Result<u32>
        ensures { Gives (λ number. number) result (number_named name.now self.now) }
    {
        for named in self.as_slice() {
            if named.name.as_bytes() == name {
                return named
                    .stream_id
                    .msf_number()
                    .ok_or(Error::StreamNameNotFound);
            }
        }
        Err(Error::StreamNameNotFound)
    }
}

/// The names, the entries of the table that leads from their offsets to streams, and the bytes after
/// the table.
#[derive(Drop)]
pub(crate) struct NameMap<'n> {
    names: &'n [u8],
    entries: &'n [u8],
    pub(crate) behind: &'n [u8],
}

/// Skips a set of bits: a `u32` number of words, and that many `u32` words.
#[tactic(auto, unfolding(crate::specs::StreamNames::behind_set))]
fn skip_set(buffer: &mut ParseBuffer<'_>) -> Result<()>
    ensures { Gives (λ _. left buffer.new) result (behind_set (left buffer.old)) }
{
    let words = buffer.parse_u32()?;
    buffer.take(4 * words as usize)?;
    Ok(())
}

impl<'n> NameMap<'n> {
    /// Returns the stream of the entry at index `place`, with its name. An entry is the `u32`
    /// offset of the name and the `u32` number of the stream.
    #[tactic(auto, unfolding(crate::specs::StreamNames::named_at))]
    fn named_at(&self, ends: &NameEnds<'n>, place: usize) -> Result<StreamName<'n>>
        requires names { ends.now ≡ self.now.names.now }
        requires place { place < length self.now.entries.now / 8 }
        ensures { Gives named_view result (named_at (map_view self.now) place) }
    {
        let start = ENTRY_SIZE * place;
        let name = ends.name_at(u32_in(self.entries, start) as usize)?;
        let number = u32_in(self.entries, start + 4).min(NO_STREAM);
        Ok(StreamName {
            name,
            stream_id: StreamIndex(number as u16),
        })
    }

    /// Returns all streams that have names. Memory is requested twice: for the index of the names'
    /// ends, and for as many streams as there are entries.
    #[tactic(auto, unfolding(crate::specs::StreamNames::named_in), using(pdb_base::proofs::lemmas::Collected::collected_more, pdb_base::proofs::lemmas::Collected::collected_stops, pdb_base::proofs::lemmas::Refused::passed_on))]
    fn all_named(&self, alloc: Global) -> Result<Vec<StreamName<'n>>>
        ensures { Answers (λ names. map named_view names.items) result (named_in (map_view self.now)) }
    {
        let ends = NameEnds::new(alloc, self.names)?;
        let count = self.entries.len() / ENTRY_SIZE;
        let mut names = Vec::with_capacity(alloc, count)?;
        for place in 0..count {
            names.push_reserved(self.named_at(&ends, place)?);
        }
        Ok(names)
    }
}

impl PDBInformation {
    /// Returns the names, the entries of the table of streams, and the bytes after the table.
    #[tactic(auto, unfolding(crate::specs::StreamNames::map_of, crate::specs::StreamNames::entries_at), using(crate::proofs::CutLemmas::front_of_all))]
    pub(crate) fn name_map(&self) -> Result<NameMap<'_>>
        ensures { Gives map_view result (map_of self.now) }
    {
        let mut buffer = self.stream.parse_buffer();
        buffer.take(self.names_offset)?;
        let names = buffer.take(self.names_size)?;
        let count = buffer.parse_u32()?;
        let _capacity = buffer.parse_u32()?;
        skip_set(&mut buffer)?;
        skip_set(&mut buffer)?;
        let entries = buffer.take(ENTRY_SIZE * count as usize)?;
        let rest = buffer.len();
        let behind = buffer.take(rest)?;
        Ok(NameMap {
            names,
            entries,
            behind,
        })
    }

    /// Returns the streams that have names, in the order in which the file lists them.
    ///
    /// After the names come a `u32` count, a `u32` capacity, two sets of bits, each a `u32` number
    /// of words and that many `u32` words, and then as many entries as the count says: the `u32`
    /// offset of a name among the names, and the `u32` number of its stream. The time that this takes
    /// is proportional to the size of the stream, also if many entries share a long name.
    ///
    /// # Errors
    /// Fails with `UnexpectedEof` if the stream ends before the entries do, or if there is no NUL
    /// among the names at or after an offset. Fails with `OutOfMemory` if an allocation fails.
    /// Memory is allocated only after all entries are known to be in the stream.
    #[tactic(auto, unfolding(crate::specs::StreamNames::stream_names_of), using(crate::proofs::FaultLaws::no_want_before, pdb_base::proofs::lemmas::Refused::passed_on))]
    pub fn stream_names(&self, alloc: Global) -> Result<StreamNames<'_>>
        ensures names { Answers (λ names. names) result (stream_names_of self.now) }
        ensures memory { LacksOnlyIf result (IsOk (map_of self.now)) }
    {
        let map = self.name_map()?;
        Ok(StreamNames {
            names: map.all_named(alloc)?,
        })
    }
}
