//! The addresses and offsets among the arguments of a call.

use crate::calls::Misuse;
use clap::ArgMatches;
use pdb_cli::number;
use pdbdump_tables::{Address, AskedAddress};
use std::alloc::{AllocError, Global};

/// The addresses that `map` translates, and the offsets that `where` is asked about.
#[derive(Drop)]
pub(crate) struct Places<'w> {
    /// The addresses.
    pub(crate) addresses: Vec<AskedAddress<'w>>,
    /// The offsets.
    pub(crate) offsets: Vec<u32>,
}

/// Returns the number of a section.
fn section_of(word: &str) -> Option<u16> {
    u16::try_from(number(word)?).ok()
}

/// Returns the address that a word spells: a number, or the number of a section and an offset.
fn address_of(word: &str) -> Option<Address> {
    let Some((section, offset)) = word.split_once(':') else {
        return Some(Address::Rva(number(word)?));
    };
    Some(Address::Place {
        section: section_of(section)?,
        offset: number(offset)?,
    })
}

/// Returns an argument that is no address or offset though it has to be one.
pub(crate) fn wrong_address<'w>(matches: &ArgMatches<'w>) -> Option<Misuse<'w>> {
    for text in matches.get_strs("RVA").unwrap_or(&[]) {
        if address_of(text).is_none() {
            return Some(Misuse::NoNumber {
                text,
                option: None,
                name: "RVA",
            });
        }
    }
    for text in matches.get_strs("OFFSET").unwrap_or(&[]) {
        if number(text).is_none() {
            return Some(Misuse::NoNumber {
                text,
                option: None,
                name: "OFFSET",
            });
        }
    }
    None
}

impl<'w> Places<'w> {
    /// Returns the addresses and offsets among the arguments. Words that spell none are left out.
    ///
    /// # Errors
    /// Fails if an allocation fails.
    pub(crate) fn of(alloc: Global, matches: &ArgMatches<'w>) -> Result<Self, AllocError> {
        let mut places = Places {
            addresses: Vec::new(alloc),
            offsets: Vec::new(alloc),
        };
        for word in matches.get_strs("RVA").unwrap_or(&[]) {
            if let Some(address) = address_of(word) {
                places.addresses.push(AskedAddress { address, word })?;
            }
        }
        for word in matches.get_strs("OFFSET").unwrap_or(&[]) {
            if let Some(offset) = number(word) {
                places.offsets.push(offset)?;
            }
        }
        Ok(places)
    }
}
