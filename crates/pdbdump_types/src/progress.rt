//! How far definitions are shown, and what is reported of those that can't be.

ghost use Rattle.std.specs.Prelude.{◌≡◌, false, true, OnOk};
ghost use Rattle.pdbdump_types.specs.Shown.{StaysAccounted};

use crate::allowance::Allowance;
use crate::classes::records_of;
use crate::table::Table;
use crate::text_allowance::TextAllowance;
use crate::text_buffer::TextBuffer;
use pdb_base::{Error, TypeIndex};
use pdb_output::Output;
use pdbdump_rows::{Form, error_text};
use std::alloc::{AllocError, Global};
use std::io::Write;

/// Why classes are left out.
pub const TOO_MANY: &[u8] = b"left out with all that follow, since so many fields were read";

/// How far layouts or differences are shown, or types declared.
#[derive(Clone, Copy)]
pub struct Progress {
    /// Whether one was shown.
    pub has_shown: bool,

    /// Whether each name so far was found, and nothing had an error.
    pub is_whole: bool,

    /// How many records of fields may yet be read.
    pub records: Allowance,

    /// How many fields and gaps of classes within classes may yet be shown.
    pub rows: Allowance,

    /// How many bytes the texts of types may yet have.
    pub texts: TextAllowance,
}

impl Progress {
    /// Returns the progress of a call that has shown nothing yet of a table with so many bytes.
    pub fn new(bytes: usize) -> Self
        ensures shown { result.has_shown ≡ false }
        ensures whole { result.is_whole ≡ true }
    {
        Progress {
            has_shown: false,
            is_whole: true,
            records: Allowance::of_table(bytes),
            rows: Allowance::of_table(bytes),
            texts: TextAllowance::of_table(bytes),
        }
    }

    /// Returns how many bytes the texts of types may yet have.
    pub fn texts(&self) -> TextAllowance {
        self.texts
    }

    /// Takes the records of the fields of a class, a union or an enumeration from those that may yet
    /// be read, and returns whether they may be. If they may not, no others may either.
    ///
    /// # Errors
    /// Fails if an allocation fails.
    pub fn take_fields(
        &mut self,
        table: Table<'_, '_>,
        index: TypeIndex,
    ) -> Result<bool, AllocError>
        ensures shown { self.new.has_shown ≡ self.old.has_shown }
        ensures whole { self.new.is_whole ≡ self.old.is_whole }
    {
        let count = records_of(table, index, self.records.left())?;
        Ok(self.records.take(count))
    }
}

/// Writes a line to the error channel. Then not all is there.
///
/// # Errors
/// Fails with `OutOfMemory` if an allocation failed for the line.
pub fn tell_line<E: Write>(
    line: TextBuffer,
    progress: &mut Progress,
    err: &mut Output<E>,
) -> Result<(), Error>
    ensures accounted { OnOk result (StaysAccounted progress.old progress.new err.old err.new) }
    ensures told { OnOk result (progress.new.is_whole ≡ false) }
    ensures shown { progress.new.has_shown ≡ progress.old.has_shown }
{
    let mut line = line;
    line.push(b"\n");
    let line = line.finish()?;
    progress.is_whole = false;
    err.report(&line);
    Ok(())
}

/// Writes to the error channel why a type or a name isn't shown. Then not all is there.
///
/// # Errors
/// Fails with `OutOfMemory` if an allocation fails.
pub fn tell<E: Write>(
    alloc: Global,
    what: &[u8],
    why: &[u8],
    progress: &mut Progress,
    err: &mut Output<E>,
) -> Result<(), Error>
    ensures accounted { OnOk result (StaysAccounted progress.old progress.new err.old err.new) }
    ensures told { OnOk result (progress.new.is_whole ≡ false) }
    ensures shown { progress.new.has_shown ≡ progress.old.has_shown }
{
    let mut line = TextBuffer::new(alloc);
    line.push_escaped(what);
    line.push(b": ");
    line.push(why);
    tell_line(line, progress, err)
}

/// Writes to the error channel why the type of an index isn't shown.
///
/// # Errors
/// Fails with `OutOfMemory` if an allocation fails.
pub fn tell_index<E: Write>(
    alloc: Global,
    index: TypeIndex,
    why: &[u8],
    progress: &mut Progress,
    err: &mut Output<E>,
) -> Result<(), Error>
    ensures accounted { OnOk result (StaysAccounted progress.old progress.new err.old err.new) }
    ensures told { OnOk result (progress.new.is_whole ≡ false) }
{
    let number = index.0;
    let what = format!(in alloc; "0x{number:x}")?;
    tell(alloc, what.as_bytes(), why, progress, err)
}

/// Writes to the error channel the fault for which the type of an index isn't shown.
///
/// # Errors
/// Fails with `OutOfMemory` if an allocation fails, or if that is the fault.
pub fn tell_fault<E: Write>(
    alloc: Global,
    index: TypeIndex,
    fault: &Error,
    progress: &mut Progress,
    err: &mut Output<E>,
) -> Result<(), Error>
    ensures accounted { OnOk result (StaysAccounted progress.old progress.new err.old err.new) }
    ensures told { OnOk result (progress.new.is_whole ≡ false) }
{
    match fault {
        Error::OutOfMemory => Err(Error::OutOfMemory),
        _ => {
            let why = error_text(alloc, fault)?;
            tell_index(alloc, index, &why, progress, err)
        }
    }
}

/// Returns what is written between two layouts: a line feed, if they are texts.
fn separator(form: Form, has_shown: bool) -> &'static [u8] {
    match form {
        Form::Text if has_shown => b"\n",
        _ => b"",
    }
}

/// Writes the text of a layout, behind an empty line if it isn't the first.
pub fn write_layout<O: Write>(
    text: &[u8],
    form: Form,
    progress: &mut Progress,
    out: &mut Output<O>,
) -> Result<(), Error>
    ensures whole { progress.new.is_whole ≡ progress.old.is_whole }
    ensures shown { OnOk result (progress.new.has_shown ≡ true) }
{
    out.write(separator(form, progress.has_shown))?;
    progress.has_shown = true;
    out.write(text)
}
