//! The names of streams, as a summary shows them.

ghost use Rattle.std.specs.Prelude.{◌≡◌, ◌+◌, ◌≤◌, length, IfSome, IfOk};

use pdb_base::RawString;
use pdb_file::StreamName;
use std::alloc::{AllocError, Global};

/// A name, of which the end may have been cut off.
#[derive(Clone, Copy)]
pub struct ShownName<'n> {
    /// The name, or its beginning.
    pub text: RawString<'n>,
    /// Whether the end is cut off.
    pub is_cut: bool,
}

/// The first name of each stream, and how many bytes of names may still be shown: a damaged file can
/// give one long name to thousands of streams.
#[derive(Drop)]
pub struct ShownNames<'n> {
    first: Vec<Option<RawString<'n>>>,
    left: usize,
}

/// Returns the first bytes of a name, at most as many as `most`.
fn cut_name(name: RawString<'_>, most: usize) -> ShownName<'_>
    ensures { length result.text.0.now ≤ most }
{
    if name.len() <= most {
        return ShownName {
            text: name,
            is_cut: false,
        };
    }
    ShownName {
        text: RawString::from(&name.as_bytes()[..most]),
        is_cut: true,
    }
}

/// Returns the first name that each of the first `count` streams has.
fn first_names<'n>(
    alloc: Global,
    names: &[StreamName<'n>],
    count: u32,
) -> Result<Vec<Option<RawString<'n>>>, AllocError> {
    let mut first = vec![in alloc; None; count as usize]?;
    for named in names {
        if let Some(place) = first.get_mut(named.stream_id.0 as usize)
            && place.is_none()
        {
            *place = Some(named.name);
        }
    }
    Ok(first)
}

impl<'n> ShownNames<'n> {
    /// Returns the names of the first `count` streams, of which at most `most` bytes are shown.
    ///
    /// # Errors
    /// Fails if an allocation fails.
    pub fn new(
        alloc: Global,
        names: &[StreamName<'n>],
        count: u32,
        most: usize,
    ) -> Result<Self, AllocError>
        ensures { IfOk result (λ names. names.left ≡ most) }
    {
        Ok(ShownNames {
            first: first_names(alloc, names, count)?,
            left: most,
        })
    }

    /// Returns the name of a stream, if it has one. It is cut where no more bytes of names may be
    /// shown.
    pub fn show(&mut self, number: u32) -> Option<ShownName<'n>>
        ensures { IfSome result (λ name. length name.text.0.now + self.new.left ≤ self.old.left) }
    {
        let name = (*self.first.get(number as usize)?)?;
        let shown = cut_name(name, self.left);
        self.left -= shown.text.len();
        Some(shown)
    }
}
