//! Declarators of C++, which are built from the name outwards.

use crate::memory::AllocResult;
use crate::qualifiers::Qualifiers;
use std::alloc::Global;

/// A part of a declaration: a name with what is around it, such as `*names[4]`.
#[derive(Drop)]
pub(crate) struct Declarator {
    text: Vec<u8>,
    /// Whether it begins with the sign of a pointer, so that brackets behind it would bind tighter.
    is_pointer: bool,
}

impl Declarator {
    /// Returns the declarator of a name, which may be empty.
    pub(crate) fn of(alloc: Global, name: &[u8]) -> AllocResult<Self> {
        let text = Vec::from_slice(alloc, name)?;
        Ok(Declarator {
            text,
            is_pointer: false,
        })
    }

    /// Returns the declarator behind the sign of a pointer and its qualifiers.
    pub(crate) fn pointer(
        &self,
        alloc: Global,
        sign: &[u8],
        qualifiers: Qualifiers,
    ) -> AllocResult<Self> {
        let mut text = Vec::from_slice(alloc, sign)?;
        qualifiers.push_to(&mut text)?;
        if self.text.is_empty() && !qualifiers.is_none() {
            text.pop();
        }
        text.extend_from_slice(&self.text)?;
        Ok(Declarator {
            text,
            is_pointer: true,
        })
    }

    /// Puts brackets behind, and parentheses around what is there if it begins with the sign of a
    /// pointer; and before that a calling convention, if there is one.
    pub(crate) fn push_brackets(
        &mut self,
        alloc: Global,
        convention: &str,
        brackets: &[u8],
    ) -> AllocResult<()> {
        let (open, close) = if self.is_pointer {
            ("(", ")")
        } else {
            ("", "")
        };
        let mut text = Vec::from_slice(alloc, open.as_bytes())?;
        text.extend_from_slice(convention.as_bytes())?;
        if !convention.is_empty() && !self.text.is_empty() {
            text.push(b' ')?;
        }
        text.extend_from_slice(&self.text)?;
        text.extend_from_slice(close.as_bytes())?;
        text.extend_from_slice(brackets)?;
        self.text = text;
        self.is_pointer = false;
        Ok(())
    }

    /// Returns whether there is no text.
    pub(crate) fn is_empty(&self) -> bool {
        self.text.is_empty()
    }

    /// Puts a text behind.
    pub(crate) fn push_behind(&mut self, text: &[u8]) -> AllocResult<()> {
        self.text.extend_from_slice(text)
    }

    /// Returns the declaration: the name of a type with its qualifiers, and the declarator behind
    /// it.
    pub(crate) fn declaration(
        &self,
        alloc: Global,
        qualifiers: Qualifiers,
        type_name: &[u8],
    ) -> AllocResult<Vec<u8>> {
        let mut text = Vec::new(alloc);
        qualifiers.push_to(&mut text)?;
        text.extend_from_slice(type_name)?;
        if !text.is_empty() && !self.text.is_empty() {
            text.push(b' ')?;
        }
        text.extend_from_slice(&self.text)?;
        Ok(text)
    }
}
