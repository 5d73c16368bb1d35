//! Rows that are written one after another.

#![tactic(auto, using(crate::proofs::lemmas::Sink::adding_lines))]

ghost use Rattle.std.specs.Prelude.{◌≡◌, None, map};
ghost use Rattle.pdbdump_rows.specs.Line.{begun};
ghost use Rattle.pdbdump_rows.specs.Row.{field_shown};
ghost use Rattle.pdbdump_rows.specs.Sink.{AddsLine, AddsLines, AreAsBefore, IsRowEnded, ended, lacking};

use crate::form::Form;
use crate::line::{Line, write_line};
use crate::value::Field;
use pdb_base::{Error, Result};
use pdb_output::Output;
use std::alloc::Global;
use std::io::Write;

/// What rows are made with: the line of the next one, in their form, and what is noted of those so
/// far.
#[derive(Drop)]
pub struct Sheet {
    alloc: Global,
    form: Form,
    fault: Option<Error>,

    /// The line of the next row.
    pub line: Line,

    /// Whether each part that was listed could be read.
    pub is_whole: bool,
}

/// Rows of one form that are written to an output, each as a line. Once a line can't be made or
/// written, nothing more is written, and `finish` returns why.
#[derive(Drop)]
pub struct Rows<'o, W: Write> {
    out: &'o mut Output<W>,

    /// What they are made with.
    pub sheet: &'o mut Sheet,
}

impl Sheet {
    /// Returns what rows of a form are made with.
    pub fn new(alloc: Global, form: Form) -> Self
        ensures form { result.form ≡ form }
        ensures fault { result.fault ≡ None }
    {
        Sheet {
            alloc,
            form,
            fault: None,
            line: Line::new(alloc),
            is_whole: true,
        }
    }
}

impl<'o, W: Write> Rows<'o, W> {
    /// Returns rows that are written to an output.
    pub fn new(sheet: &'o mut Sheet, out: &'o mut Output<W>) -> Self
        ensures same { result.out.ghost_name ≡ out.entry.ghost_name }
        ensures now { result.out.now ≡ out.old }
        ensures sheet { result.sheet.now ≡ sheet.old }
    {
        Rows { out, sheet }
    }

    /// Returns the allocator of the lines.
    pub fn alloc(&self) -> Global {
        self.sheet.alloc
    }

    /// Returns whether nothing more is written.
    pub fn has_failed(&self) -> bool {
        self.sheet.fault.is_some()
    }

    /// Notes that an allocation for a row failed.
    pub fn lack(&mut self)
        ensures fault { self.new.sheet.now.fault ≡ lacking self.old.sheet.now.fault }
        ensures out { self.new.out ≡ self.old.out }
        ensures lines { AddsLines self.old self.new }
        ensures whole { self.new.sheet.now.is_whole ≡ self.old.sheet.now.is_whole }
    {
        if self.sheet.fault.is_none() {
            self.sheet.fault = Some(Error::OutOfMemory);
        }
    }

    /// Begins the line of a row.
    pub fn begin(&mut self)
        ensures line { self.new.sheet.now.line ≡ begun self.new.sheet.now.form }
        ensures before { AreAsBefore self.old self.new }
        ensures lines { AddsLines self.old self.new }
        ensures whole { self.new.sheet.now.is_whole ≡ self.old.sheet.now.is_whole }
    {
        let form = self.sheet.form;
        self.sheet.line.begin(form);
    }

    /// Ends the line of a row and writes it.
    pub fn end(&mut self)
        ensures line { IsRowEnded self.old self.new }
        ensures whole { self.new.sheet.now.is_whole ≡ self.old.sheet.now.is_whole }
    {
        if self.sheet.fault.is_none() {
            if let Err(fault) = write_line(&mut self.sheet.line, self.out) {
                self.sheet.fault = Some(fault);
            }
        }
    }

    /// Writes a row with these fields.
    #[tactic(auto, using(crate::proofs::lemmas::Sink::row_adds))]
    pub fn row(&mut self, fields: &[Field<'_>])
        ensures line { AddsLine (map field_shown fields.now) self.old self.new }
        ensures lines { AddsLines self.old self.new }
    {
        self.begin();
        self.sheet.line.fields(fields);
        self.end();
    }

    /// Returns whether all rows were written.
    ///
    /// # Errors
    /// Fails with `OutOfMemory` if an allocation for a row failed, and with `IoError` if the output
    /// failed.
    pub fn finish(&mut self) -> Result<()>
        ensures result { result ≡ ended self.old.sheet.now.fault }
        ensures out { self.new.out ≡ self.old.out }
    {
        match self.sheet.fault.take() {
            Some(fault) => Err(fault),
            None => Ok(()),
        }
    }
}
