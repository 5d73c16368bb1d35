//! The words for flags and for kinds.

mod field_attributes;
mod function_attributes;
mod modifier;
mod pointer_attributes;
mod primitive;
mod section_characteristics;
mod type_properties;

pub(crate) use field_attributes::{access_word, field_flags};
pub(crate) use function_attributes::function_flags;
pub(crate) use modifier::modifier_flags;
pub(crate) use pointer_attributes::{kind_word, mode_word, pointer_flags};
pub(crate) use primitive::{indirection_word, primitive_word};
pub(crate) use section_characteristics::section_flags;
pub(crate) use type_properties::property_flags;
