//! The kinds of id records.

ghost use Rattle.std.specs.Prelude.{◌≡◌};

use crate::parse::id_plain::PlainIdLeaf;
use pdb_values::constants::{LF_BUILDINFO, LF_SUBSTR_LIST};

/// The kind of a record in the table of ids.
#[derive(Clone, Copy)]
pub enum IdLeaf {
    /// A record without a list.
    Plain(PlainIdLeaf),

    /// What a module was built with.
    BuildInfo,

    /// The parts of a text.
    StringList,
}

impl IdLeaf {
    ghost use Rattle.pdb_records.specs.Ids.{id_leaf_of};

    /// Returns the id record kind with this number, or None if it is not read here.
    pub(crate) fn from_number(number: u16) -> Option<Self>
        ensures { result ≡ id_leaf_of number }
    {
        match number {
            LF_BUILDINFO => Some(IdLeaf::BuildInfo),
            LF_SUBSTR_LIST => Some(IdLeaf::StringList),
            _ => PlainIdLeaf::from_number(number).map(|leaf| IdLeaf::Plain(leaf)),
        }
    }
}
