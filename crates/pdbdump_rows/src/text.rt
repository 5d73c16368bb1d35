//! Text as it is written.

ghost use Rattle.std.specs.Prelude.{◌≡◌, ◌++◌, OnOk};
ghost use Rattle.std.specs.List.{list_all};
ghost use Rattle.pdbdump_rows.specs.Text.{escape, is_escaped, is_hidden, is_plain, long_escape, short_escape};
ghost use Rattle.pdbdump_rows.specs.Text.{in_quotes, shown_char, shown_text, unit_escape};

use crate::form::Form;
use crate::number::four_digits;
use bstr::{ByteSlice, ByteVec};
use std::alloc::AllocError;
use ucd_derived::is_default_ignorable_code_point;

/// Returns whether a byte is a character that is written unescaped in every form.
fn is_plain(byte: u8) -> bool
    ensures { result ≡ is_plain byte }
{
    matches!(byte, b' '..=b'~') && byte != b'"' && byte != b'\\'
}

/// Returns whether each byte of a text is such a character.
fn is_all_plain(text: &[u8]) -> bool
    ensures { result ≡ list_all is_plain text.now }
{
    text.iter().all(|byte| is_plain(*byte))
}

/// Returns whether a reader of a line doesn't see a character as one: control characters, the
/// separators of lines and of paragraphs, and those that are ignored where a text is shown, such as
/// marks of its direction.
#[tactic(auto, unfolding(crate::specs::Text::is_hidden))]
fn is_hidden(c: char) -> bool
    ensures { result ≡ is_hidden c }
{
    c < ' '
        || ('\u{7f}' <= c && c < '\u{a0}')
        || c == '\u{2028}'
        || c == '\u{2029}'
        || is_default_ignorable_code_point(c)
}

/// Returns whether a form writes a character as an escape: each hidden one, and JSON also the quote
/// and the backslash.
fn is_escaped(form: Form, c: char) -> bool
    ensures { result ≡ is_escaped form c }
{
    match form {
        Form::Text => is_hidden(c),
        Form::Json => is_hidden(c) || c == '"' || c == '\\',
    }
}

/// Returns what follows the backslash in a character's short escape, if it has one.
fn short_escape(c: char) -> Option<u8>
    ensures { result ≡ short_escape c }
{
    match c {
        '"' => Some(b'"'),
        '\\' => Some(b'\\'),
        '\u{8}' => Some(b'b'),
        '\t' => Some(b't'),
        '\n' => Some(b'n'),
        '\u{c}' => Some(b'f'),
        '\r' => Some(b'r'),
        _ => None,
    }
}

/// Appends the escape of a unit of UTF-16.
fn push_unit(unit: u32, out: &mut Vec<u8>) -> Result<(), AllocError>
    ensures { OnOk result (out.new.items ≡ out.old.items ++ unit_escape unit) }
{
    out.extend_from_slice(b"\\u")?;
    out.extend_from_slice(&four_digits(unit))
}

/// Appends the escapes of the units of UTF-16 of a character.
#[tactic(auto, unfolding(crate::specs::Text::long_escape))]
fn push_units(c: char, out: &mut Vec<u8>) -> Result<(), AllocError>
    ensures { OnOk result (out.new.items ≡ out.old.items ++ long_escape c) }
{
    let c = c as u32;
    if c < 0x10000 {
        return push_unit(c, out);
    }
    push_unit(0xd800 + (c - 0x10000) / 1024, out)?;
    push_unit(0xdc00 + (c - 0x10000) % 1024, out)
}

/// Appends the escape of a character, as JSON has it.
#[tactic(auto, unfolding(crate::specs::Text::escape))]
fn push_escape(c: char, out: &mut Vec<u8>) -> Result<(), AllocError>
    ensures { OnOk result (out.new.items ≡ out.old.items ++ escape c) }
{
    match short_escape(c) {
        Some(letter) => out.extend_from_slice(&[b'\\', letter]),
        None => push_units(c, out),
    }
}

/// Appends a character, as an escape if the form writes it so.
#[tactic(auto, unfolding(crate::specs::Text::shown_char))]
fn push_char(form: Form, c: char, out: &mut Vec<u8>) -> Result<(), AllocError>
    ensures { OnOk result (out.new.items ≡ out.old.items ++ shown_char form c) }
{
    if is_escaped(form, c) {
        push_escape(c, out)
    } else {
        out.push_char(c)
    }
}

/// Appends a text, with U+FFFD for each run of bytes that isn't a character, and with escapes for
/// the characters that the form doesn't write as they are.
///
/// # Errors
/// Fails if an allocation fails.
#[tactic(auto, using(crate::proofs::PlainText::plain_text, std::proofs::lemmas::List::flat_map_more), unfolding(crate::specs::Text::shown_text))]
pub fn push_text(form: Form, text: &[u8], out: &mut Vec<u8>) -> Result<(), AllocError>
    ensures { OnOk result (out.new.items ≡ out.old.items ++ shown_text form text.now) }
{
    if is_all_plain(text) {
        return out.extend_from_slice(text);
    }
    for c in text.chars() {
        push_char(form, c, out)?;
    }
    Ok(())
}

/// Appends a text, in quotes if the form is JSON.
#[tactic(auto, unfolding(crate::specs::Text::in_quotes))]
pub(crate) fn push_quoted(form: Form, text: &[u8], out: &mut Vec<u8>) -> Result<(), AllocError>
    ensures { OnOk result (out.new.items ≡ out.old.items ++ in_quotes form text.now) }
{
    match form {
        Form::Text => push_text(form, text, out),
        Form::Json => {
            out.push(b'"')?;
            push_text(form, text, out)?;
            out.push(b'"')?;
            Ok(())
        }
    }
}
