//! The parts of a line.

ghost use Rattle.std.specs.Prelude.{◌≡◌, ◌++◌, if◌then◌else◌, [], codes, map, not, OnOk};
ghost use Rattle.pdbdump_rows.specs.Line.{ending, line_opening};
ghost use Rattle.pdbdump_rows.specs.Lines.{field_line, field_text, index_text, is_leading, is_none, is_shown_value};
ghost use Rattle.pdbdump_rows.specs.Lines.{shown_leaf_text, list_text, separator, value_text};
ghost use Rattle.pdbdump_rows.specs.Row.{value_shown, words_beside_true};
ghost use Rattle.pdbdump_rows.specs.Text.{in_quotes};

use crate::form::Form;
use crate::number::{four_digits, push_decimal, push_hexadecimal, push_signed};
use crate::text::{push_quoted, push_text};
use crate::value::{Flag, Value};
use pdb_values::leaf_name;
use std::alloc::AllocError;

/// Appends a number, which text shows in hexadecimal and JSON in decimal.
fn push_index(form: Form, number: u32, out: &mut Vec<u8>) -> Result<(), AllocError>
    ensures { OnOk result (out.new.items ≡ out.old.items ++ index_text form number) }
{
    match form {
        Form::Text => push_hexadecimal(number, out),
        Form::Json => push_decimal(number as u64, out),
    }
}

/// Appends a record kind by its name, or in hexadecimal if it has none.
#[tactic(auto, unfolding(crate::specs::Lines::shown_leaf_text))]
fn push_kind(form: Form, leaf: u16, out: &mut Vec<u8>) -> Result<(), AllocError>
    ensures { OnOk result (out.new.items ≡ out.old.items ++ in_quotes form (shown_leaf_text leaf)) }
{
    match leaf_name(leaf) {
        Some(name) => push_quoted(form, name.as_bytes(), out),
        None => {
            let [a, b, c, d] = four_digits(leaf as u32);
            push_quoted(form, &[b'0', b'x', a, b, c, d], out)
        }
    }
}

/// Returns whether a flag is set.
#[tactic(auto, using(crate::proofs::WordLemmas::chosen_more), unfolding(crate::specs::Row::words_beside_true))]
fn is_any_set(flags: &[Flag]) -> bool
    ensures { result ≡ not (is_none (words_beside_true (map (λ flag. (flag.0, flag.1.now)) flags.now))) }
{
    for (is_set, _) in flags {
        if *is_set {
            return true;
        }
    }
    false
}

/// Appends a word of a list, the first one or one after others.
fn push_word(form: Form, is_first: bool, word: &str, out: &mut Vec<u8>) -> Result<(), AllocError>
    ensures { OnOk result (out.new.items
        ≡ out.old.items ++ ((if is_first then [] else codes ",") ++ in_quotes form word.now)) }
{
    let before: &[u8] = if is_first { b"" } else { b"," };
    out.extend_from_slice(before)?;
    push_quoted(form, word.as_bytes(), out)
}

/// Appends the words of the flags that are set, as a list.
#[tactic(auto, unfolding(crate::specs::Lines::list_text))]
fn push_words(form: Form, flags: &[Flag], out: &mut Vec<u8>) -> Result<(), AllocError>
    ensures { OnOk result (out.new.items
        ≡ out.old.items ++ list_text (in_quotes form) (words_beside_true
        (map (λ flag. (flag.0, flag.1.now)) flags.now))) }
{
    out.push(b'[')?;
    let mut is_first = true;
    for (is_set, word) in flags {
        if *is_set {
            push_word(form, is_first, word, out)?;
            is_first = false;
        }
    }
    out.push(b']')?;
    Ok(())
}

/// Appends indexes as a list.
#[tactic(auto, unfolding(crate::specs::Lines::list_text), using(crate::proofs::Separated::one_more))]
fn push_indexes(form: Form, indexes: &[u32], out: &mut Vec<u8>) -> Result<(), AllocError>
    ensures { OnOk result (out.new.items ≡ out.old.items ++ list_text (index_text form) indexes.now) }
{
    let Some((first, rest)) = indexes.split_first() else {
        return out.extend_from_slice(b"[]");
    };
    out.push(b'[')?;
    push_index(form, *first, out)?;
    for index in rest {
        out.push(b',')?;
        push_index(form, *index, out)?;
    }
    out.push(b']')?;
    Ok(())
}

/// Appends the value of a field. Both forms show numbers as JSON shows indexes, in decimal.
fn push_value(form: Form, value: &Value<'_>, out: &mut Vec<u8>) -> Result<(), AllocError>
    ensures { OnOk result (out.new.items ≡ out.old.items ++ value_text form (value_shown value.now)) }
{
    match value {
        Value::Number(number) => push_decimal(*number, out),
        Value::Signed(number) => push_signed(*number, out),
        Value::Hexadecimal(number) => push_index(form, *number, out),
        Value::Kind(leaf) => push_kind(form, *leaf, out),
        Value::Flag(true) => out.extend_from_slice(b"true"),
        Value::Flag(false) => out.extend_from_slice(b"false"),
        Value::Text(text) => push_quoted(form, text.as_bytes(), out),
        Value::Word(word) => push_quoted(form, word.as_bytes(), out),
        Value::Words(words) => push_words(form, words, out),
        Value::Numbers(numbers) => push_indexes(Form::Json, numbers, out),
        Value::Indexes(indexes) => push_indexes(form, indexes, out),
        Value::Absent => Ok(()),
    }
}

/// Returns whether a form shows a field that has this value.
pub(crate) fn is_shown(form: Form, value: &Value<'_>) -> bool
    ensures { result ≡ is_shown_value form (value_shown value.now) }
{
    match value {
        Value::Absent => false,
        Value::Words(words) => match form {
            Form::Text => is_any_set(words),
            Form::Json => true,
        },
        _ => true,
    }
}

/// Returns whether a line of text shows a field of this name without the name.
#[tactic(auto, unfolding(crate::specs::Lines::is_leading))]
fn is_leading(name: &str) -> bool
    ensures { result ≡ is_leading name.now }
{
    name == "index" || name == "number" || name == "kind" || name == "name"
}

/// Appends a field of a line.
#[tactic(auto, unfolding(crate::specs::Lines::field_text))]
fn push_field(
    form: Form,
    name: &str,
    value: &Value<'_>,
    out: &mut Vec<u8>,
) -> Result<(), AllocError>
    ensures { OnOk result (out.new.items ≡ out.old.items ++ field_text form (name.now, value_shown value.now)) }
{
    match form {
        Form::Text if is_leading(name) => push_value(form, value, out),
        Form::Text => {
            push_text(form, name.as_bytes(), out)?;
            out.push(b'=')?;
            push_value(form, value, out)
        }
        Form::Json => {
            push_quoted(form, name.as_bytes(), out)?;
            out.push(b':')?;
            push_value(form, value, out)
        }
    }
}

/// Returns what is written before the first field of a line.
fn opening(form: Form) -> &'static [u8]
    ensures { result.now ≡ line_opening form }
{
    match form {
        Form::Text => b"",
        Form::Json => b"{",
    }
}

/// Returns what separates the fields of a line.
fn separator(form: Form) -> &'static [u8]
    ensures { result.now ≡ separator form }
{
    match form {
        Form::Text => b" ",
        Form::Json => b",",
    }
}

/// Returns what is written after the last field of a line.
fn ending(form: Form) -> &'static [u8]
    ensures { result.now ≡ ending form }
{
    match form {
        Form::Text => b"\n",
        Form::Json => b"}\n",
    }
}

/// Appends a field of a line, the first one or one after others.
pub(crate) fn push_next(
    form: Form,
    is_first: bool,
    name: &str,
    value: &Value<'_>,
    out: &mut Vec<u8>,
) -> Result<(), AllocError>
    ensures { OnOk result (out.new.items ≡ out.old.items
        ++ ((if is_first then line_opening form else separator form)
        ++ field_text form (name.now, value_shown value.now))) }
{
    let before = if is_first {
        opening(form)
    } else {
        separator(form)
    };
    out.extend_from_slice(before)?;
    push_field(form, name, value, out)
}

/// Appends the end of a line, which may have no field.
pub(crate) fn push_end(form: Form, is_empty: bool, out: &mut Vec<u8>) -> Result<(), AllocError>
    ensures { OnOk result (out.new.items ≡ out.old.items
        ++ ((if is_empty then line_opening form else []) ++ ending form)) }
{
    if is_empty {
        out.extend_from_slice(opening(form))?;
    }
    out.extend_from_slice(ending(form))
}

/// Appends a field of text as a line of its own.
#[tactic(auto, unfolding(crate::specs::Lines::field_line))]
pub(crate) fn push_line(name: &str, value: &Value<'_>, out: &mut Vec<u8>) -> Result<(), AllocError>
    ensures { OnOk result (out.new.items ≡ out.old.items ++ field_line (name.now, value_shown value.now)) }
{
    push_text(Form::Text, name.as_bytes(), out)?;
    out.extend_from_slice(b": ")?;
    push_value(Form::Text, value, out)?;
    out.push(b'\n')?;
    Ok(())
}
