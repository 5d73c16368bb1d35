//! Texts that are cut in two.

/// Cuts a text at the first place of a byte: returns what is before it, and what is behind it if it
/// is there.
pub fn cut_at(byte: u8, text: &[u8]) -> (&[u8], Option<&[u8]>) {
    match text.iter().position(|other| *other == byte) {
        Some(place) => (&text[..place], Some(&text[place + 1..])),
        None => (text, None),
    }
}
