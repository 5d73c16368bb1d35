//! The parts of a name that stand between `::`.

use crate::memory::AllocResult;
use std::alloc::Global;

/// How many parts a name is taken apart into at most.
const MOST_PARTS: usize = 64;

/// Returns where the first `::` of a name is that is within no brackets and no quotes.
fn separator_in(name: &[u8]) -> Option<usize> {
    let mut depth: u64 = 0;
    for (at, pair) in name.windows(2).enumerate() {
        match pair {
            [b'<' | b'(' | b'[' | b'{' | b'`', _] => depth = depth.saturating_add(1),
            [b'>' | b')' | b']' | b'}' | b'\'', _] => depth = depth.saturating_sub(1),
            [b':', b':'] if depth == 0 => return Some(at),
            _ => {}
        }
    }
    None
}

/// Returns the parts of a name, the last of which is that of the type itself.
///
/// # Errors
/// Fails if an allocation fails.
pub(crate) fn parts_of(alloc: Global, name: &[u8]) -> AllocResult<Vec<&[u8]>> {
    let mut parts = Vec::new(alloc);
    let mut rest = name;
    for _ in 0..MOST_PARTS {
        let Some(end) = separator_in(rest) else {
            break;
        };
        let (Some(part), Some(behind)) = (rest.get(..end), rest.get(end.saturating_add(2)..)) else {
            break;
        };
        parts.push(part)?;
        rest = behind;
    }
    parts.push(rest)?;
    Ok(parts)
}
