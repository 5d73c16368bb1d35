//! A class with all that is shown of it.

use crate::expanded::Expansion;
use crate::other_member::OtherMember;
use pdb_types::Layout;
use pdbdump_types::Class;

/// A class with all that is shown of it.
#[derive(Drop)]
pub(crate) struct ShownClass<'l, 't> {
    /// Its layout.
    pub(crate) layout: &'l Layout<'t>,

    /// What its record says of it.
    pub(crate) class: Option<Class<'t>>,

    /// Its fields and gaps, with those of the classes within.
    pub(crate) expansion: Expansion<'t>,

    /// What of it takes no place.
    pub(crate) others: Vec<OtherMember<'t>>,

    /// How many bytes the lines of a cache have, if their ends are shown.
    pub(crate) line_size: Option<u32>,
}
