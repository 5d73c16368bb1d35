//! Handles, which a caller in another language keeps.

ghost use Rattle.std.specs.{Prelude.◌≡◌, Prelude.None, Prelude.Some, Prelude.is_some, Option.option_map};
ghost use Rattle.pdb_base.specs.Answer.{Answer, Answers};
ghost use Rattle.pdb_handles.specs.{declared.content.Content.Content, Handle.content_kind, Handle.OpensTo};

use crate::content::Content;
use crate::fault::{FINE, Fault};
use crate::held::Held;
use crate::parts::Parts;
use pdb_base::{Error, Result};
use std::alloc::Global;
use std::mem::replace;

/// A handle to what a caller opened. If it is all zero, it holds nothing.
#[repr(C)]
pub struct Handle {
    /// What it holds.
    pub held: Held,
    /// The number of the kind of what it holds, 0 if it holds nothing.
    pub kind: u32,
    /// How the last call ended that is about the handle.
    pub fault: Fault,
    ghost agrees: { kind ≡ content_kind held.content },
}

/// Returns the number of a content's kind.
fn kind_of(content: &Content) -> u32
    ensures { result ≡ content_kind (Some content.now) }
{
    match content {
        Content::Names(_) => 1,
        Content::Omap(_) => 2,
        Content::Addresses(_) => 3,
        Content::Frames(_) => 4,
        Content::File(_) => 5,
        Content::Table(_) => 6,
    }
}

impl Handle {
    /// Returns a handle that holds nothing.
    pub fn empty(alloc: Global) -> Handle
        ensures { result.held.content ≡ None }
    {
        Handle {
            held: Held::nothing(alloc),
            kind: 0,
            fault: Fault::status(FINE),
        }
    }

    /// Takes what the handle holds out of it, if it holds anything. It holds nothing afterwards.
    pub fn take(&mut self, alloc: Global) -> Option<Box<Content>>
        ensures taken { option_map (λ content. content.value) result ≡ self.old.held.content }
        ensures closed { self.new.held.content ≡ None }
    {
        if self.kind == 0 {
            return None;
        }
        let Handle {
            held,
            kind: _,
            fault: _,
        } = replace(self, Handle::empty(alloc));
        Some(held.into_parts().into_box())
    }

    /// Puts a content into a handle that holds nothing.
    pub fn put(&mut self, content: Box<Content>)
        requires { self.old.held.content ≡ None }
        ensures { self.new.held.content ≡ Some content.value }
    {
        let kind = kind_of(&content);
        let held = Held::of_parts(Parts::of(content));
        let fault = Fault::status(FINE);
        let Handle {
            held,
            kind: _,
            fault: _,
        } = replace(self, Handle { held, kind, fault });
        held.end();
    }

    /// Puts what was opened into a handle that holds nothing, or returns the fault of the error.
    pub fn open(&mut self, alloc: Global, opened: Result<Content>) -> Fault
        requires { self.old.held.content ≡ None }
        ensures { (meant : Answer Content) → Answers (λ content. content) opened meant
            → OpensTo meant result self.new.held.content }
    {
        let content = match opened {
            Ok(content) => content,
            Err(error) => return Fault::of(&error),
        };
        match Box::new(alloc, content) {
            Ok(content) => {
                self.put(content);
                Fault::status(FINE)
            }
            Err(_) => Fault::of(&Error::OutOfMemory),
        }
    }

    /// Keeps how a call ended that is about the handle, and returns its status.
    pub fn keep(&mut self, fault: Fault) -> u32
        ensures fault { self.new.fault ≡ fault }
        ensures content { self.new.held.content ≡ self.old.held.content }
        ensures status { result ≡ fault.status }
    {
        self.fault = fault;
        fault.status
    }

    /// Returns whether the handle holds something.
    pub fn is_open(&self) -> bool
        ensures { result ≡ is_some self.now.held.content }
    {
        self.kind != 0
    }
}
