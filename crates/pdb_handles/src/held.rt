//! What a handle points to.

ghost use Rattle.std.specs.Prelude.{◌≡◌, Option, None, Some, IsSome};
ghost use Rattle.pdb_handles.specs.{Held.owns_block, declared.content.Content.Content};

use crate::content::Content;
use crate::parts::Parts;
use std::alloc::Global;
use std::marker::Model;

/// What a caller sees behind a pointer: nothing.
#[repr(C)]
pub struct Opaque {
    opaque: u8,
}

/// A pointer to a content, or to nothing.
#[repr(C)]
pub struct Held {
    ptr: *mut Opaque,
    alloc: Global,
    pub ghost content: { Option Content },
}

impl Model for Held {
    ghost also_owns = { λ h. owns_block h.alloc h.ptr h.content };
}

impl Held {
    /// Returns a pointer to nothing.
    pub fn nothing(alloc: Global) -> Held
        ensures { result.content ≡ None }
    {
        Held {
            ptr: std::ptr::null_mut(),
            alloc,
        }
    }

    /// Ends a pointer that holds nothing.
    pub fn end(self)
        requires { self.content ≡ None }
    {
        let Held { ptr: _, alloc: _ } = self;
    }

    /// Returns a pointer that owns the content of a box, from the parts of the box.
    pub(crate) fn of_parts(parts: Parts<Content, Global>) -> Held
        ensures { result.content ≡ Some parts.value }
    {
        let Parts { ptr, alloc } = parts;
        Held {
            ptr: ptr as *mut Opaque,
            alloc,
        }
    }

    /// Returns the parts of the box of the content.
    pub(crate) fn into_parts(self) -> Parts<Content, Global>
        requires { IsSome self.content }
        ensures { self.content ≡ Some result.value }
    {
        let Held { ptr, alloc } = self;
        Parts {
            ptr: ptr as *mut Content,
            alloc,
        }
    }
}
