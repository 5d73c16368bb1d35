//! Where the bytes of a stream are in a file.

ghost use Rattle.std.specs.Prelude.{◌≡◌, ◌<◌, Ok, IfOk, OnOk};
ghost use Rattle.pdb_base.specs.Answer.{Answers};
ghost use Rattle.pdb_base.specs.Memory.{FailsOnlyForMemory};
ghost use Rattle.pdb_validation.specs.Places.{file_byte, stream_pages};
ghost use Rattle.pdb_validation.specs.Relations.{file_place};

use crate::scope::Scope;
use crate::sizes::size_or_none;
use pdb_base::{Error, Result};
use std::marker::Model;

/// The pages over which a stream is scattered.
#[derive(Drop)]
pub(crate) struct StreamPages {
    page_size: u32,
    size: u32,
    numbers: Vec<u32>,
}

impl Model for StreamPages {
    ghost use Rattle.std.specs.Prelude.{◌<◌};
    ghost use Rattle.pdb_validation.specs.Places.{PagesValue};

    ghost Value = { PagesValue };

    ghost view = { λ p. record { page_size = p.page_size; size = p.size; numbers = p.numbers.items } };

    ghost invariant = { λ p. 0 < p.page_size };
}

impl StreamPages {
    /// Returns the pages of a stream, which are none if there is no such stream.
    #[tactic(auto, unfolding(crate::specs::Places::stream_pages))]
    pub(crate) fn of(scope: &Scope<'_>, number: u32) -> Result<StreamPages>
        ensures { Answers (λ pages. pages) result (Ok (stream_pages scope.now.layout.now number)) }
    {
        let page_size = scope.layout.page_size();
        let size = size_or_none(scope.layout, number);
        match scope.layout.stream_pages(scope.alloc, number) {
            Ok(numbers) => Ok(StreamPages {
                page_size,
                size,
                numbers,
            }),
            Err(Error::OutOfMemory) => Err(Error::OutOfMemory),
            Err(_) => Ok(StreamPages {
                page_size,
                size,
                numbers: Vec::new(scope.alloc),
            }),
        }
    }

    /// Returns the byte of the file that is this byte of the stream, or None if the stream has no
    /// such byte.
    #[tactic(auto, unfolding(crate::specs::Places::file_byte))]
    pub(crate) fn file_byte(&self, byte: u64) -> Option<u64>
        ensures { result ≡ file_byte self.now byte }
    {
        if byte >= self.size as u64 {
            return None;
        }
        let page_size = self.page_size as u64;
        let page = self.numbers.get((byte / page_size) as usize)?;
        Some(*page as u64 * page_size + byte % page_size)
    }
}

/// The pages of the stream that was looked up last.
#[derive(Drop)]
pub(crate) struct LastPages {
    pub(crate) number: u32,
    pub(crate) pages: StreamPages,
}

impl LastPages {
    /// Returns the pages of stream 0.
    pub(crate) fn first(scope: &Scope<'_>) -> Result<LastPages>
        ensures last { IfOk result (λ last. last.pages ≡ stream_pages scope.now.layout.now last.number) }
        ensures memory { FailsOnlyForMemory result }
    {
        Ok(LastPages {
            number: 0,
            pages: StreamPages::of(scope, 0)?,
        })
    }

    /// Looks the pages of a stream up, unless they are those of the last one.
    fn turn_to(&mut self, scope: &Scope<'_>, number: u32) -> Result<()>
        requires last { self.old.pages ≡ stream_pages scope.now.layout.now self.old.number }
        ensures last { OnOk result (self.new.pages ≡ stream_pages scope.now.layout.now number) }
        ensures number { OnOk result (self.new.number ≡ number) }
        ensures memory { FailsOnlyForMemory result }
    {
        if self.number == number {
            return Ok(());
        }
        self.pages = StreamPages::of(scope, number)?;
        self.number = number;
        Ok(())
    }

    /// Returns the byte of the file that is a byte of a stream, if there are such.
    pub(crate) fn place_of(
        &mut self,
        scope: &Scope<'_>,
        stream: Option<u32>,
        byte: Option<u64>,
    ) -> Result<Option<u64>>
        requires last { self.old.pages ≡ stream_pages scope.now.layout.now self.old.number }
        ensures place { IfOk result (λ place. place ≡ file_place scope.now.layout.now stream byte) }
        ensures last { OnOk result (self.new.pages ≡ stream_pages scope.now.layout.now self.new.number) }
        ensures memory { FailsOnlyForMemory result }
    {
        let Some(number) = stream else {
            return Ok(None);
        };
        let Some(byte) = byte else {
            return Ok(None);
        };
        self.turn_to(scope, number)?;
        Ok(self.pages.file_byte(byte))
    }
}
