//! What a type is: its definition, its size in bytes, the layout of a class, as the records of
//! Microsoft's cvinfo.h say them, and its text in C++; and the gaps between spans, such as those
//! between the members of a class.
#![tactic(auto)]

mod agreement;
mod budget;
mod comparison;
mod convention;
mod declaration;
mod declaration_order;
mod declarator;
mod definition_index;
mod definition_walk;
mod definitions;
mod enumerator;
mod extent;
mod field_place;
mod gap;
mod kind_name;
pub mod laws;
mod layout;
mod marked_text;
mod memory;
mod name_hash;
mod needs;
mod numbering;
mod open_types;
mod part;
mod primitive_size;
mod qualifiers;
mod shortcut;
mod size;
mod size_source;
mod span;
mod text;
mod type_at;
mod type_name;

pub use comparison::{Comparison, compare};
pub use declaration_order::DeclarationOrder;
pub use definitions::Definitions;
pub use enumerator::enumerator_value;
pub use extent::Extent;
pub use field_place::{FieldKind, FieldPlace, VirtualBase};
pub use gap::{Gap, GapKind};
pub use layout::{Layout, LayoutField};
pub use open_types::OpenTypes;
pub use span::{Span, gaps};
pub use text::TypeText;
