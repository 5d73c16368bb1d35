//! A line that is written field by field.

ghost use Rattle.std.specs.Prelude.{◌≡◌, [], ◌∷◌, false, map};
ghost use Rattle.pdbdump_rows.specs.Line.{AddsFields, AddsMade, AddsRow, EndsLine, IsLineAppended, IsLineEnded};
ghost use Rattle.pdbdump_rows.specs.Line.{IsLineWritten, PutsField, begun, begun_full, line_bytes};
ghost use Rattle.pdbdump_rows.specs.Row as rows;
ghost use Rattle.pdbdump_rows.specs.Row.{field_shown, value_shown};

use crate::form::Form;
use crate::push::{is_shown, push_end, push_line, push_next};
use crate::type_texts::TypeTexts;
use crate::value::{Field, Value};
use pdb_base::{Error, RawString};
use pdb_output::Output;
use std::alloc::{AllocError, Global};
use std::io::Write;
use std::marker::Model;

/// A line that is written field by field: in text one such as `0x1000 LF_STRUCTURE S count=1
/// size=4`, where the fields that are called index, number, kind and name are written without
/// their names, or in JSON an object with a member for each field.
///
/// A field whose value is absent is left out, and in text also one that holds no words. Once an
/// allocation fails, the line grows no more, and it is never written.
#[derive(Drop)]
pub struct Line {
    pub(crate) alloc: Global,
    form: Form,
    is_full: bool,
    bytes: Vec<u8>,
    is_empty: bool,

    /// Whether each allocation since it began succeeded.
    is_whole: bool,

    /// The texts of the types whose indexes it shows, if they are shown too.
    pub(crate) texts: Option<TypeTexts>,
}

impl Model for Line {
    ghost use Rattle.pdbdump_rows.specs.Line.{LineState};

    ghost Value = { LineState };

    ghost view = { λ line. record {
      form = line.form;
      is_full = line.is_full;
      bytes = line.bytes.items;
      is_empty = line.is_empty;
      is_whole = line.is_whole;
    } };
}

impl Line {
    /// Returns a line of text without fields.
    pub fn new(alloc: Global) -> Self
        ensures { result ≡ begun Form.Text }
    {
        Line {
            alloc,
            form: Form::Text,
            is_full: false,
            bytes: Vec::new(alloc),
            is_empty: true,
            is_whole: true,
            texts: None,
        }
    }

    /// Shows these texts beside the indexes of types, in this line and those that follow.
    pub fn show_texts(&mut self, texts: TypeTexts)
        ensures { self.new ≡ self.old }
    {
        self.texts = Some(texts);
    }

    /// Returns the form of the line.
    pub(crate) fn form(&self) -> Form {
        self.form
    }

    /// Begins another line. What was written so far is gone.
    pub fn begin(&mut self, form: Form)
        ensures { self.new ≡ begun form }
    {
        self.form = form;
        self.is_full = false;
        self.bytes.clear();
        self.is_empty = true;
        self.is_whole = true;
    }

    /// Begins another line, which in text has a line `name: value` for each field. What was written
    /// so far is gone.
    pub fn begin_full(&mut self, form: Form)
        ensures { self.new ≡ begun_full form }
    {
        self.begin(form);
        self.is_full = matches!(form, Form::Text);
    }

    /// Returns whether each allocation since the line began succeeded.
    pub fn is_whole(&self) -> bool
        ensures { result ≡ self.now.is_whole }
    {
        self.is_whole
    }

    /// Notes that an allocation failed for a field.
    pub fn lack(&mut self)
        ensures { self.new.is_whole ≡ false }
    {
        self.is_whole = false;
    }

    /// Adds a field. A part of it may be there if an allocation fails.
    #[tactic(auto, unfolding(crate::specs::Line::add_field))]
    fn put(&mut self, name: &'static str, value: &Value<'_>) -> Result<(), AllocError>
        ensures { PutsField (name.now, value_shown value.now) self.old self.new result }
    {
        if !is_shown(self.form, value) {
            return Ok(());
        }
        if self.is_full {
            push_line(name, value, &mut self.bytes)?;
        } else {
            push_next(self.form, self.is_empty, name, value, &mut self.bytes)?;
        }
        self.is_empty = false;
        Ok(())
    }

    /// Adds a field, and notes if an allocation fails.
    #[tactic(auto, unfolding(crate::specs::Line::AddsFields))]
    fn add(&mut self, name: &'static str, value: &Value<'_>)
        ensures { AddsFields ((name.now, value_shown value.now) ∷ []) self.old self.new }
    {
        if self.is_whole && self.put(name, value).is_err() {
            self.is_whole = false;
        }
    }

    /// Adds a field.
    #[tactic(auto, using(crate::proofs::lemmas::Line::fields_alone))]
    pub fn field(&mut self, name: &'static str, value: Value<'_>)
        ensures fields { AddsFields ((name.now, value_shown value.entry) ∷ []) self.old self.new }
        ensures row { AddsRow [] self.old self.new }
    {
        self.add(name, &value);
    }

    /// Adds fields.
    #[tactic(auto, using(crate::proofs::lemmas::Line::fields_alone))]
    pub fn fields(&mut self, fields: &[Field<'_>])
        ensures fields { AddsFields (map field_shown fields.now) self.old self.new }
        ensures row { AddsRow [] self.old self.new }
    {
        for (name, value) in fields {
            self.field(name, *value);
        }
    }

    /// Adds a field with a list of indexes, for which an allocation may have failed.
    #[tactic(auto, using(crate::proofs::lemmas::Line::adding))]
    pub(crate) fn indexes(&mut self, name: &'static str, indexes: Result<Vec<u32>, AllocError>)
        ensures field { AddsMade (λ list. (name.now, rows.indexes list.items)) indexes self.old self.new }
        ensures row { AddsRow [] self.old self.new }
    {
        match indexes {
            Ok(indexes) => self.field(name, Value::Indexes(&indexes)),
            Err(_) => self.lack(),
        }
    }

    /// Adds a field with a text that was made, for which an allocation may have failed.
    #[tactic(auto, using(crate::proofs::lemmas::Line::adding))]
    pub fn made_text(&mut self, name: &'static str, text: Result<Vec<u8>, AllocError>)
        ensures field { AddsMade (λ bytes. (name.now, rows.text bytes.items)) text self.old self.new }
        ensures row { AddsRow [] self.old self.new }
    {
        match text {
            Ok(text) => self.field(name, Value::Text(RawString::from(text.as_slice()))),
            Err(_) => self.lack(),
        }
    }

    /// Ends the line, with its line feed.
    #[tactic(auto, unfolding(crate::specs::Line::line_bytes))]
    fn end(&mut self) -> Result<(), AllocError>
        ensures { EndsLine (line_bytes self.old) self.new result }
    {
        if self.is_full {
            return Ok(());
        }
        push_end(self.form, self.is_empty, &mut self.bytes)
    }

    /// Ends the line.
    ///
    /// # Errors
    /// Fails if this or an earlier allocation failed.
    #[tactic(auto, using(crate::proofs::lemmas::Line::ends_row))]
    pub fn finish(&mut self) -> Result<(), AllocError>
        ensures { IsLineEnded self.old self.new result }
    {
        if !self.is_whole {
            return Err(AllocError);
        }
        self.end()
    }

    /// Returns the bytes of the line.
    pub fn as_bytes(&self) -> &[u8]
        ensures { result.now ≡ self.now.bytes }
    {
        &self.bytes
    }
}

/// Ends a line and writes it.
///
/// # Errors
/// Fails with `OutOfMemory` if an allocation for the line failed, and with `IoError` if the output
/// fails, which may then have got a prefix of the line.
#[tactic(auto, using(crate::proofs::lemmas::Line::line_written, crate::proofs::lemmas::Line::line_lacks))]
pub fn write_line<W: Write>(line: &mut Line, out: &mut Output<W>) -> Result<(), Error>
    ensures { IsLineWritten line.old out.old out.new result }
{
    line.finish()?;
    out.write(line.as_bytes())
}

/// Ends a line and appends it to a text.
///
/// # Errors
/// Fails with `OutOfMemory` if an allocation for the line or the text failed.
pub fn append_line(line: &mut Line, text: &mut Vec<u8>) -> Result<(), Error>
    ensures { IsLineAppended line.old text.old.items text.new.items result }
{
    line.finish()?;
    text.extend_from_slice(line.as_bytes())?;
    Ok(())
}
