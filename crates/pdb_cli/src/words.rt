//! The words that the program takes.
//!
//! The words after a command are numbers alone, so that one definition of two numbers serves every
//! command.

ghost use Rattle.std.specs.Prelude.{◌≡◌, ◌≤◌, map};
ghost use Rattle.pdb_cli.specs.Words.{number_in_digits, number_of, two_numbers, stream_words, ranges_asked, pair_of};
ghost use Rattle.pdb_cli.specs.Words.{query_of};

use pdb_container::Query;

/// Parses a number of one to `most` digits in a base, if it fits 32 bits.
#[tactic(auto, unfolding(crate::specs::Words::number_in_digits))]
fn number_in_digits(digits: &[u8], base: u32, most: usize) -> Option<u32>
    requires low { 2 ≤ base }
    requires high { base ≤ 36 }
    ensures { result ≡ number_in_digits base most digits.now }
{
    if digits.is_empty() || digits.len() > most {
        return None;
    }
    let mut value = 0u32;
    for digit in digits {
        let digit = (*digit as char).to_digit(base)?;
        let shifted = value.checked_mul(base)?;
        value = shifted.checked_add(digit)?;
    }
    Some(value)
}

/// Parses the number that a word spells, in decimal or, after `0x`, in hexadecimal digits.
#[tactic(auto, unfolding(crate::specs::Words::number_of))]
pub fn number(word: &str) -> Option<u32>
    ensures { result ≡ number_of word.now }
{
    let bytes = word.as_bytes();
    if bytes.starts_with(b"0x") {
        number_in_digits(&bytes[2..], 16, 8)
    } else {
        number_in_digits(bytes, 10, 10)
    }
}

/// Parses the numbers that two words spell.
#[tactic(auto, unfolding(crate::specs::Words::two_numbers))]
fn two_numbers(words: &[&str]) -> Option<(u32, u32)>
    ensures { result ≡ two_numbers (map (λ word. word.now) words.now) }
{
    match words {
        [first, second] => {
            let first = number(first)?;
            let second = number(second)?;
            Some((first, second))
        }
        _ => None,
    }
}

/// Parses the words after `stream`: `N` or `N LIMIT`.
#[tactic(auto, unfolding(crate::specs::Words::stream_words))]
fn stream(words: &[&str]) -> Option<Query>
    ensures { result ≡ stream_words (map (λ word. word.now) words.now) }
{
    if let [number_word] = words {
        let number = number(number_word)?;
        return Some(Query::Stream {
            number,
            limit: None,
        });
    }
    let (number, limit) = two_numbers(words)?;
    Some(Query::Stream {
        number,
        limit: Some(limit as usize),
    })
}

/// Parses the words after `ranges`: `S A B`.
#[tactic(auto, unfolding(crate::specs::Words::ranges_asked))]
fn ranges(words: &[&str]) -> Option<Query>
    ensures { result ≡ ranges_asked (map (λ word. word.now) words.now) }
{
    let (stream, ends) = words.split_first()?;
    let omap = number(stream)?;
    let (start, end) = two_numbers(ends)?;
    Some(Query::Ranges { omap, start, end })
}

/// Returns the query of a command with two numbers, if it is one: `type S I`, `id S I`, `name S O`
/// or `fields S I`.
fn pair(command: &str, stream: u32, number: u32) -> Option<Query>
    ensures { result ≡ pair_of command.now stream number }
{
    match command {
        "type" => Some(Query::TypeRecord {
            stream,
            index: number,
        }),
        "id" => Some(Query::IdRecord {
            stream,
            index: number,
        }),
        "name" => Some(Query::Name {
            stream,
            offset: number,
        }),
        "fields" => Some(Query::Fields {
            stream,
            index: number,
        }),
        _ => None,
    }
}

/// Parses the query that the words spell, if they spell one.
#[tactic(auto, unfolding(crate::specs::Words::query_of))]
pub fn query(words: &[&str]) -> Option<Query>
    ensures { result ≡ query_of (map (λ word. word.now) words.now) }
{
    let (command, words) = words.split_first()?;
    match *command {
        "stream" => stream(words),
        "ranges" => ranges(words),
        command => {
            let (stream, number) = two_numbers(words)?;
            pair(command, stream, number)
        }
    }
}
