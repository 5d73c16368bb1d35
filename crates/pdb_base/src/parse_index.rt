//! How indexes are read from bytes: each is a number whose lowest byte comes first.

ghost use Rattle.pdb_base.specs.Reading.{number_at, read_as};

use crate::error::Result;
use crate::index::{FileIndex, IdIndex, Register, StreamIndex, SymbolIndex, TypeIndex};
use crate::parse::{Le, Parse};

impl Parse<Le> for StreamIndex {
    ghost reads = { λ _ bytes. read_as (λ n. record { 0 = n }) (number_at 2 bytes) };

    fn parse_from(bytes: &[u8], context: Le) -> Result<(StreamIndex, usize)> {
        let (number, len) = u16::parse_from(bytes, context)?;
        Ok((StreamIndex(number), len))
    }
}

impl Parse<Le> for TypeIndex {
    ghost reads = { λ _ bytes. read_as (λ n. record { 0 = n }) (number_at 4 bytes) };

    fn parse_from(bytes: &[u8], context: Le) -> Result<(TypeIndex, usize)> {
        let (number, len) = u32::parse_from(bytes, context)?;
        Ok((TypeIndex(number), len))
    }
}

impl Parse<Le> for IdIndex {
    ghost reads = { λ _ bytes. read_as (λ n. record { 0 = n }) (number_at 4 bytes) };

    fn parse_from(bytes: &[u8], context: Le) -> Result<(IdIndex, usize)> {
        let (number, len) = u32::parse_from(bytes, context)?;
        Ok((IdIndex(number), len))
    }
}

impl Parse<Le> for FileIndex {
    ghost reads = { λ _ bytes. read_as (λ n. record { 0 = n }) (number_at 4 bytes) };

    fn parse_from(bytes: &[u8], context: Le) -> Result<(FileIndex, usize)> {
        let (number, len) = u32::parse_from(bytes, context)?;
        Ok((FileIndex(number), len))
    }
}

impl Parse<Le> for SymbolIndex {
    ghost reads = { λ _ bytes. read_as (λ n. record { 0 = n }) (number_at 4 bytes) };

    fn parse_from(bytes: &[u8], context: Le) -> Result<(SymbolIndex, usize)> {
        let (number, len) = u32::parse_from(bytes, context)?;
        Ok((SymbolIndex(number), len))
    }
}

impl Parse<Le> for Register {
    ghost reads = { λ _ bytes. read_as (λ n. record { 0 = n }) (number_at 2 bytes) };

    fn parse_from(bytes: &[u8], context: Le) -> Result<(Register, usize)> {
        let (number, len) = u16::parse_from(bytes, context)?;
        Ok((Register(number), len))
    }
}
