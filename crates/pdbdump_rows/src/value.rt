//! What the fields of lines hold.

use pdb_base::{IdIndex, RawString, TypeIndex};

/// A flag, and the word that is shown if it is set.
pub type Flag = (bool, &'static str);

/// What a field of a line holds.
#[derive(Clone, Copy)]
pub enum Value<'t> {
    /// A number, shown in decimal.
    Number(u64),

    /// A number with a sign, shown in decimal.
    Signed(i64),

    /// An index or an address: shown in hexadecimal in text, and as a number in JSON.
    Hexadecimal(u32),

    /// The kind of a record: shown by its name, or as `0x` and four hexadecimal digits if it has
    /// none.
    Kind(u16),

    /// Whether something holds.
    Flag(bool),

    /// A name or another text of a file, shown with U+FFFD for each run of bytes that isn't a
    /// character.
    Text(RawString<'t>),

    /// A word of this library.
    Word(&'static str),

    /// The words of the flags that are set.
    Words(&'t [Flag]),

    /// Numbers, shown in decimal.
    Numbers(&'t [u32]),

    /// Indexes: shown in hexadecimal in text, and as numbers in JSON.
    Indexes(&'t [u32]),

    /// Nothing: the field is left out.
    Absent,
}

/// A field of a line: its name, and what it holds.
pub type Field<'t> = (&'static str, Value<'t>);

/// Returns the value of a number shown in hexadecimal, or `Absent` if there is none.
pub fn optional_hexadecimal<'t>(number: Option<u32>) -> Value<'t> {
    match number {
        Some(number) => Value::Hexadecimal(number),
        None => Value::Absent,
    }
}

/// Returns the value of the index of a type.
pub(crate) fn type_index<'t>(index: TypeIndex) -> Value<'t> {
    Value::Hexadecimal(index.0)
}

/// Returns the value of the index of a type, or `Absent` if there is none.
pub(crate) fn optional_type<'t>(index: Option<TypeIndex>) -> Value<'t> {
    match index {
        Some(index) => Value::Hexadecimal(index.0),
        None => Value::Absent,
    }
}

/// Returns the value of the index of an id, or `Absent` if there is none.
pub(crate) fn optional_id<'t>(index: Option<IdIndex>) -> Value<'t> {
    match index {
        Some(index) => Value::Hexadecimal(index.0),
        None => Value::Absent,
    }
}

/// Returns the value of a number, or `Absent` if there is none.
pub fn optional_number<'t>(number: Option<u32>) -> Value<'t> {
    match number {
        Some(number) => Value::Number(number as u64),
        None => Value::Absent,
    }
}

/// Returns the value of a number, or `Absent` if it is 0.
pub(crate) fn nonzero<'t>(number: u8) -> Value<'t> {
    if number == 0 {
        Value::Absent
    } else {
        Value::Number(number as u64)
    }
}

/// Returns the value of a word, or `Absent` if there is none.
pub fn optional_word<'t>(word: Option<&'static str>) -> Value<'t> {
    match word {
        Some(word) => Value::Word(word),
        None => Value::Absent,
    }
}

/// Returns the value of a name or another text, or `Absent` if there is none.
pub fn optional_text<'t>(text: Option<RawString<'t>>) -> Value<'t> {
    match text {
        Some(text) => Value::Text(text),
        None => Value::Absent,
    }
}
