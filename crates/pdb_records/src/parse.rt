//! Parsers for the parts of a record.
//!
//! The parser of a type record returns a `TypeData` and not the struct of its kind, since the
//! prover has no rule for `?` on a result that holds a flag word.

pub(crate) mod array;
pub(crate) mod class;
pub(crate) mod counted;
pub(crate) mod derived;
pub(crate) mod enumeration;
pub(crate) mod fields;
pub(crate) mod function;
pub(crate) mod id_data;
pub(crate) mod id_plain;
pub(crate) mod index;
pub(crate) mod list;
pub(crate) mod member;
pub(crate) mod plain;
pub(crate) mod record;
pub(crate) mod shape;
pub(crate) mod skip;
pub(crate) mod table_shape;
pub(crate) mod type_data;
