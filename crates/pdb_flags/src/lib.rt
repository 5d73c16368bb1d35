//! The flag words of records, in which each bit or group of bits has a meaning.
#![tactic(auto)]

mod field_attributes;
mod function_attributes;
pub mod laws;
mod pointer_attributes;
mod pointer_kind;
mod pointer_mode;
mod type_properties;

pub use field_attributes::FieldAttributes;
pub use function_attributes::FunctionAttributes;
pub use pointer_attributes::PointerAttributes;
pub use pointer_kind::PointerKind;
pub use pointer_mode::PointerMode;
pub use type_properties::TypeProperties;
