//! A program database, whose parts are found by the roles and the names of its streams.

ghost use Rattle.std.specs.Prelude.{◌≡◌, unwrap_or, map, IfOk, IsTrue};
ghost use Rattle.std.specs.Option.{option_map};
ghost use Rattle.pdb_base.specs.Answer.{AnswersUnless};
ghost use Rattle.pdb_msf.specs.Source.{IsFixed, IsKept};
ghost use Rattle.pdb_msf.specs.Header.{file_head};
ghost use Rattle.pdb_msf.specs.File.{IsFresh, Opened, ReadsFile};
ghost use Rattle.pdb_file.specs.File.{file_address_map, file_frame_table, file_ids, file_information};
ghost use Rattle.pdb_file.specs.File.{file_named_stream, file_roles, file_string_table, file_types, omap_numbered};
ghost use Rattle.pdb_file.specs.File.{sections_numbered, stream_at, stream_numbered};

use crate::debug_header::DBIExtraStreams;
use crate::information::PDBInformation;
use crate::section_headers::section_headers;
use pdb_base::{Result, Stream, StreamIndex};
use pdb_frames::FrameTable;
use pdb_msf::{BigMSF, Msf, Source, open_msf};
use pdb_space::{AddressMap, ImageSectionHeader, OMAPTable, StringTable};
use pdb_tpi::{IdInformation, TypeInformation};
use std::alloc::Global;
use std::marker::Model;

/// The number of the stream that identifies the file and names streams.
const INFORMATION_STREAM: u32 = 1;

/// The number of the stream that holds the table of types.
pub const TYPE_STREAM: u32 = 2;

/// The number of the stream of debug information.
pub(crate) const DEBUG_STREAM: u32 = 3;

/// The number of the stream that holds the table of ids.
pub const ID_STREAM: u32 = 4;

/// A program database, whose parts are found by the roles and the names of its streams.
///
/// If the stream of a role isn't in the file, a call fails as `get` does for its number. A role
/// that has no stream isn't an error. Each call leaves the file usable, even if it fails.
#[derive(Drop)]
pub struct PDB<S: Source> {
    msf: BigMSF<S>,
}

impl<S: Source> Model for PDB<S> {
    ghost use Rattle.pdb_msf.specs.File.{Opened};

    ghost Value = { Opened S };

    ghost view = { λ pdb. pdb.msf };
}

impl<S: Source> From<BigMSF<S>> for PDB<S> {
    ghost from_gives = { λ msf pdb. pdb ≡ msf };

    fn from(msf: BigMSF<S>) -> PDB<S> {
        PDB { msf }
    }
}

impl<S: Source> Msf<S> for PDB<S> {
    ghost file = { λ pdb. pdb };

    fn get(&mut self, alloc: Global, stream_number: u32, limit: Option<usize>) -> Result<Stream> {
        self.msf.get(alloc, stream_number, limit)
    }
}

impl<S: Source + Drop> PDB<S> {
    /// Opens a file by its first 4096 bytes. If that fails, the source is dropped.
    ///
    /// # Errors
    /// Fails as `open_msf` does.
    pub fn open(alloc: Global, source: S) -> Result<PDB<S>>
        ensures head { IsFixed (S.state source) → AnswersUnless (¬ IsTrue (S.state source).is_sound)
            (λ pdb. pdb.head) result (file_head (S.state source).bytes) }
        ensures kept { IfOk result (λ pdb. IsKept (S.state source) (S.state pdb.source)) }
        ensures fresh { IfOk result (λ pdb. IsFresh pdb) }
    {
        let msf = open_msf(alloc, source)?;
        Ok(PDB { msf })
    }
}

impl<S: Source> PDB<S> {
    /// Returns the streams of the file by their numbers.
    pub fn msf(&self) -> &BigMSF<S>
        ensures { result.now ≡ self.now }
    {
        &self.msf
    }

    /// Returns the streams of the file by their numbers, and consumes this value.
    pub fn into_msf(self) -> BigMSF<S>
        ensures { result ≡ self }
    {
        let PDB { msf } = self;
        msf
    }

    /// Returns the stream of a number, or None if there is no number.
    ///
    /// # Errors
    /// Fails as `get` does for the number.
    pub fn numbered_stream(&mut self, alloc: Global, number: Option<u32>) -> Result<Option<Stream>>
        ensures { ReadsFile S.state self.old self.new (λ stream. stream) result
            (λ file head. stream_numbered file head number) }
    {
        match number {
            Some(number) => Ok(Some(self.msf.get(alloc, number, None)?)),
            None => Ok(None),
        }
    }

    /// Returns the stream that an index names, or None if it names none.
    ///
    /// # Errors
    /// Fails as `get` does for the number of the stream.
    pub fn raw_stream(&mut self, alloc: Global, index: StreamIndex) -> Result<Option<Stream>>
        ensures { ReadsFile S.state self.old self.new (λ stream. stream) result
            (λ file head. stream_at file head index) }
    {
        self.numbered_stream(alloc, index.msf_number())
    }

    /// Reads the information in stream 1.
    ///
    /// # Errors
    /// Fails as `get` does for stream 1, and then as `PDBInformation::parse` does.
    #[tactic(auto, unfolding(crate::specs::File::file_information))]
    pub fn pdb_information(&mut self, alloc: Global) -> Result<PDBInformation>
        ensures { ReadsFile S.state self.old self.new (λ information. information) result file_information }
    {
        PDBInformation::parse(self.msf.get(alloc, INFORMATION_STREAM, None)?)
    }

    /// Reads the table of types in stream 2.
    ///
    /// # Errors
    /// Fails as `get` does for stream 2, and then as `TypeInformation::parse` does.
    #[tactic(auto, unfolding(crate::specs::File::file_types))]
    pub fn type_information(&mut self, alloc: Global) -> Result<TypeInformation>
        ensures { ReadsFile S.state self.old self.new (λ table. table) result file_types }
    {
        TypeInformation::parse(self.msf.get(alloc, TYPE_STREAM, None)?)
    }

    /// Reads the table of ids in stream 4.
    ///
    /// # Errors
    /// Fails as `get` does for stream 4, and then as `IdInformation::parse` does.
    #[tactic(auto, unfolding(crate::specs::File::file_ids))]
    pub fn id_information(&mut self, alloc: Global) -> Result<IdInformation>
        ensures { ReadsFile S.state self.old self.new (λ table. table) result file_ids }
    {
        IdInformation::parse(self.msf.get(alloc, ID_STREAM, None)?)
    }

    /// Reads the roles of streams from stream 3.
    ///
    /// # Errors
    /// Fails as `get` does for stream 3, and then as `DBIExtraStreams::new` does.
    #[tactic(auto, unfolding(crate::specs::File::file_roles))]
    pub fn extra_streams(&mut self, alloc: Global) -> Result<DBIExtraStreams>
        ensures { ReadsFile S.state self.old self.new (λ roles. roles) result file_roles }
    {
        let stream = self.msf.get(alloc, DEBUG_STREAM, None)?;
        DBIExtraStreams::new(&stream)
    }

    /// Reads the section headers in the stream of a number, or returns None if there is no number.
    ///
    /// # Errors
    /// Fails as `get` does for the number, and then as `section_headers` does.
    #[tactic(auto, unfolding(crate::specs::File::sections_numbered))]
    pub fn numbered_sections(
        &mut self,
        alloc: Global,
        number: Option<u32>,
    ) -> Result<Option<Vec<ImageSectionHeader>>>
        ensures { ReadsFile S.state self.old self.new (option_map (λ sections. sections.items)) result
            (λ file head. sections_numbered file head number) }
    {
        match self.numbered_stream(alloc, number)? {
            Some(stream) => Ok(Some(section_headers(alloc, &stream)?)),
            None => Ok(None),
        }
    }

    /// Reads the OMAP table in the stream of a number, or returns None if there is no number.
    ///
    /// # Errors
    /// Fails as `get` does for the number, and then as `OMAPTable::parse` does.
    #[tactic(auto, unfolding(crate::specs::File::omap_numbered))]
    pub fn numbered_omap(&mut self, alloc: Global, number: Option<u32>) -> Result<Option<OMAPTable>>
        ensures { ReadsFile S.state self.old self.new (λ table. table) result
            (λ file head. omap_numbered file head number) }
    {
        match self.numbered_stream(alloc, number)? {
            Some(stream) => Ok(Some(OMAPTable::parse(stream)?)),
            None => Ok(None),
        }
    }

    /// Reads the address map.
    ///
    /// If the file has original section headers, these are the sections of the original image, the
    /// section headers are those of the image as it is loaded, and the OMAP tables from source and
    /// to source lead from the original image to it and back. Otherwise the section headers are the
    /// sections of both images, and OMAP tables aren't read.
    ///
    /// A role that has no stream isn't an error: without section headers, the image as it is loaded
    /// has no sections.
    ///
    /// # Errors
    /// Fails with the first of these that applies:
    /// - the errors of `extra_streams` for stream 3 and its roles;
    /// - for the section headers, and then for the original ones: the errors of `get` for their
    ///   stream, and then `UnexpectedEof` if a section header is cut short;
    /// - for OMAP to source, and then for OMAP from source: the errors of `get` for their stream,
    ///   and then `InvalidStreamLength` if a record is cut short.
    ///
    /// Fails with `OutOfMemory` if an allocation fails.
    #[tactic(auto, unfolding(crate::specs::File::file_address_map, crate::specs::File::rearranged_map))]
    pub fn address_map(&mut self, alloc: Global) -> Result<AddressMap>
        ensures { ReadsFile S.state self.old self.new (λ map. map) result file_address_map }
    {
        let roles = self.extra_streams(alloc)?;
        let sections = self.numbered_sections(alloc, roles.section_headers.msf_number())?;
        let sections = sections.unwrap_or(Vec::new(alloc));
        let original = roles.original_section_headers.msf_number();
        let Some(original) = self.numbered_sections(alloc, original)? else {
            return Ok(AddressMap::new(sections, None, None, None));
        };
        let to_original = self.numbered_omap(alloc, roles.omap_to_src.msf_number())?;
        let to_transformed = self.numbered_omap(alloc, roles.omap_from_src.msf_number())?;
        Ok(AddressMap::new(original, Some(sections), to_original, to_transformed))
    }

    /// Reads the frame table: the FPO stream holds the records of the older format, the frame data
    /// those of the newer. A file without these has no frames.
    ///
    /// # Errors
    /// Fails as `extra_streams` does for stream 3 and its roles, then as `get` does for the FPO
    /// stream and for the frame data, and then as `FrameTable::parse` does.
    #[tactic(auto, unfolding(crate::specs::File::file_frame_table))]
    pub fn frame_table(&mut self, alloc: Global) -> Result<FrameTable>
        ensures { ReadsFile S.state self.old self.new (λ table. table) result file_frame_table }
    {
        let roles = self.extra_streams(alloc)?;
        let old = self.raw_stream(alloc, roles.fpo)?;
        let new = self.raw_stream(alloc, roles.framedata)?;
        FrameTable::parse(old, new)
    }

    /// Returns the bytes of the first stream that has a name.
    ///
    /// # Errors
    /// Fails as `pdb_information` does for stream 1, then as `PDBInformation::stream_names` does,
    /// then with `StreamNameNotFound` if no stream has the name or the first entry with it names no
    /// stream, and then as `get` does for the stream's number.
    #[tactic(auto, unfolding(crate::specs::File::file_named_stream, crate::specs::File::file_number))]
    pub fn named_stream(&mut self, alloc: Global, name: &[u8]) -> Result<Stream>
        ensures { ReadsFile S.state self.old self.new (λ stream. stream) result
            (λ file head. file_named_stream file head name.now) }
    {
        let information = self.pdb_information(alloc)?;
        let names = information.stream_names(alloc)?;
        self.msf.get(alloc, names.number(name)?, None)
    }

    /// Reads the string table, which is the stream named `/names`.
    ///
    /// # Errors
    /// Fails as `named_stream` does, and then as `StringTable::parse` does.
    #[tactic(auto, unfolding(crate::specs::File::file_string_table))]
    pub fn string_table(&mut self, alloc: Global) -> Result<StringTable>
        ensures { ReadsFile S.state self.old self.new (λ names. names) result file_string_table }
    {
        StringTable::parse(self.named_stream(alloc, b"/names")?)
    }
}
