//! Names with `*`, which matches any bytes, and `?`, which matches one byte.

use crate::cut::cut_at;
use std::alloc::{AllocError, Global};

/// Returns whether a name is a pattern.
pub fn is_pattern(name: &[u8]) -> bool {
    name.iter().any(|byte| *byte == b'*' || *byte == b'?')
}

/// Matches these signs, none of which is `*`, with the first bytes of a text, and returns what is
/// behind those bytes, or None if they don't match.
fn behind<'n>(signs: &[u8], text: &'n [u8]) -> Option<&'n [u8]> {
    let mut rest = text;
    for sign in signs {
        let (byte, others) = rest.split_first()?;
        if *sign != b'?' && *sign != *byte {
            return None;
        }
        rest = others;
    }
    Some(rest)
}

/// Finds the first place in a text at which these signs match, and returns what is behind the bytes
/// that they match, or None if there is no such place.
fn behind_first<'n>(signs: &[u8], text: &'n [u8]) -> Option<&'n [u8]> {
    for start in 0..=text.len() {
        let rest = behind(signs, &text[start..]);
        if rest.is_some() {
            return rest;
        }
    }
    None
}

/// Returns whether the last bytes of a text match these signs.
fn ends_with(signs: &[u8], text: &[u8]) -> bool {
    match text.len().checked_sub(signs.len()) {
        Some(start) => behind(signs, &text[start..]).is_some(),
        None => false,
    }
}

/// Returns whether `*` followed by a pattern matches a name. It suffices to find the signs between
/// two stars at the first place where they match.
fn matches_behind(pattern: &[u8], name: &[u8]) -> bool {
    let mut text = name;
    let mut last: &[u8] = b"";
    for signs in pattern.split(|sign| *sign == b'*') {
        let Some(rest) = behind_first(last, text) else {
            return false;
        };
        text = rest;
        last = signs;
    }
    ends_with(last, text)
}

/// Returns whether a pattern matches a name: `*` in it matches any bytes, `?` matches one byte, and
/// another byte matches itself. It takes time in proportion to the product of both lengths at most.
pub fn matches(pattern: &[u8], name: &[u8]) -> bool {
    let (signs, rest) = cut_at(b'*', pattern);
    match (behind(signs, name), rest) {
        (Some(text), Some(rest)) => matches_behind(rest, text),
        (Some(text), None) => text.is_empty(),
        (None, _) => false,
    }
}

/// Returns whether a pattern matches a name as `matches` does, ignoring the case of ASCII letters.
///
/// # Errors
/// Fails if an allocation fails.
pub fn matches_ignoring_case(
    alloc: Global,
    pattern: &[u8],
    name: &[u8],
) -> Result<bool, AllocError> {
    let pattern = pattern.to_ascii_lowercase(alloc)?;
    let name = name.to_ascii_lowercase(alloc)?;
    Ok(matches(&pattern, &name))
}
