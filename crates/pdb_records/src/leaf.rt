//! The kinds of type records.

ghost use Rattle.std.specs.Prelude.{◌≡◌};

use crate::parse::plain::PlainLeaf;
use pdb_values::constants::{LF_ARGLIST, LF_ARRAY, LF_ARRAY_ST, LF_METHODLIST, LF_STRIDED_ARRAY};

/// The kind of a type record.
#[derive(Clone, Copy)]
pub enum Leaf {
    /// A record without a list.
    Plain(PlainLeaf),

    /// The types of parameters.
    ArgumentList,

    /// The list of the methods that share one name.
    MethodList,

    /// An array, with a stride or without.
    Array(bool),
}

impl Leaf {
    ghost use Rattle.pdb_records.specs.Leaves.{leaf_of};

    /// Returns the type record kind with this number, or None if it is not read here or is a list
    /// of fields.
    pub(crate) fn from_number(number: u16) -> Option<Self>
        ensures { result ≡ leaf_of number }
    {
        match number {
            LF_ARGLIST => Some(Leaf::ArgumentList),
            LF_METHODLIST => Some(Leaf::MethodList),
            LF_ARRAY | LF_ARRAY_ST => Some(Leaf::Array(false)),
            LF_STRIDED_ARRAY => Some(Leaf::Array(true)),
            _ => PlainLeaf::from_number(number).map(|leaf| Leaf::Plain(leaf)),
        }
    }
}
