//! The base of a program database's reader: errors, the bytes of a stream, a buffer to parse from,
//! numbers, text and indexes.
#![tactic(auto)]

mod bits;
mod buffer;
mod buffer_text;
mod count;
mod error;
mod fallible_iterator;
mod index;
mod item_index;
pub mod laws;
mod nul;
mod numeric;
pub mod numeric_leaf;
mod parse;
mod parse_index;
mod raw_string;
mod stream;
mod variant;

pub use bits::{bit_field, is_bit_set};
pub use buffer::ParseBuffer;
pub use count::Count;
pub use error::{Error, IO_ERROR_FRONT, Result};
pub use fallible_iterator::FallibleIterator;
pub use index::{FileIndex, IdIndex, Local, Register, StreamIndex, SymbolIndex, TypeIndex};
pub use item_index::ItemIndex;
pub use parse::{Le, Parse};
pub use raw_string::RawString;
pub use stream::Stream;
pub use variant::Variant;
