//! What became of each definition of two tables.

ghost use Rattle.std.specs.Prelude.{◌≡◌};
ghost use Rattle.pdbdump_differences.specs.Compared.{counts};

use crate::compared_table::ComparedTable;
use crate::difference_json::push_json;
use crate::difference_text::push_text;
use crate::fault::{Fault, Subject};
use crate::options::DiffOptions;
use crate::pairing::Pairing;
use crate::part_change::{PartChange, part_changes};
use crate::side::Side;
use crate::version::Version;
use pdb_base::{Error, TypeIndex};
use pdb_types::{Comparison, compare};
use pdbdump_rows::Form;
use pdbdump_types::{Allowance, TextAllowance, TextBuffer};
use std::alloc::Global;

/// Returns a difference as text or JSON.
fn shown<'t>(
    alloc: Global,
    old: Option<&Version<'_, 't>>,
    new: Option<&Version<'_, 't>>,
    changes: &[PartChange<'t>],
    form: Form,
    texts: &mut TextAllowance,
) -> Result<Vec<u8>, Error> {
    let mut text = TextBuffer::new(alloc);
    match form {
        Form::Text => push_text(alloc, old, new, changes, texts, &mut text)?,
        Form::Json => push_json(alloc, old, new, changes, texts, &mut text)?,
    }
    Ok(text.finish()?)
}

/// Returns whether what two definitions have in common leaves a difference that counts.
fn counts(comparison: Comparison, is_layout_only: bool) -> bool
    ensures { result ≡ counts comparison is_layout_only }
{
    match comparison {
        Comparison::Equal => false,
        Comparison::TypesDiffer => !is_layout_only,
        Comparison::LayoutDiffers => true,
    }
}

/// Returns what differs between two definitions, or None if nothing that counts does.
fn change_between<'t>(
    alloc: Global,
    was: &Version<'_, 't>,
    is: &Version<'_, 't>,
    options: &DiffOptions,
    texts: &mut TextAllowance,
) -> Result<Option<Vec<u8>>, Error> {
    let (old, new) = (was.table.definitions, is.table.definitions);
    let comparison = compare(alloc, old, was.index, new, is.index)?;
    if !counts(comparison, options.is_layout_only) {
        return Ok(None);
    }
    let changes = part_changes(alloc, was, is, options.is_layout_only, texts)?;
    Ok(Some(shown(alloc, Some(was), Some(is), &changes, options.form, texts)?))
}

/// Reads of a definition what a comparison with another reads of it.
///
/// # Errors
/// Fails if a comparison with it fails whatever the other definition is.
fn read_alone(
    alloc: Global,
    version: &Version<'_, '_>,
    texts: &mut TextAllowance,
) -> Result<(), Error> {
    let same = *version;
    let (own, copy) = (version.table.definitions, same.table.definitions);
    compare(alloc, own, version.index, copy, same.index)?;
    part_changes(alloc, version, &same, false, texts)?;
    Ok(())
}

/// Returns which of two definitions can't be read, if they can't be compared for a fault: the old one
/// if it can't be read alone, and else the new one.
fn fault_between(
    alloc: Global,
    was: &Version<'_, '_>,
    is: &Version<'_, '_>,
    error: Error,
    texts: &mut TextAllowance,
) -> Fault {
    match read_alone(alloc, was, texts) {
        Ok(()) => Fault {
            subject: Subject {
                side: Side::New,
                index: is.index,
            },
            error,
        },
        Err(own) => Fault {
            subject: Subject {
                side: Side::Old,
                index: was.index,
            },
            error: own,
        },
    }
}

/// Returns the definition of a table that is a subject.
///
/// # Errors
/// Fails as `Version::at` does.
fn version_of<'c, 't>(
    alloc: Global,
    table: &'c ComparedTable<'t>,
    subject: Subject,
) -> Result<Option<Version<'c, 't>>, Fault> {
    match table.version(alloc, subject.index) {
        Ok(version) => Ok(version),
        Err(error) => Err(Fault { subject, error }),
    }
}

/// Two tables that are compared, and which of the definitions that are wanted of each stand for each
/// other.
#[derive(Drop)]
pub(crate) struct Tables<'c, 't> {
    pub(crate) old: &'c ComparedTable<'t>,
    pub(crate) new: &'c ComparedTable<'t>,
    pub(crate) pairing: Pairing,
}

impl<'c, 't> Tables<'c, 't> {
    /// Returns the new definition that stands for an old one, which has this number among those that
    /// are wanted.
    ///
    /// # Errors
    /// Fails as `Version::at` does.
    fn counterpart(
        &mut self,
        alloc: Global,
        number: usize,
        was: &Version<'_, 't>,
    ) -> Result<Option<Version<'c, 't>>, Fault> {
        let Some(other) = self.pairing.second(number) else {
            return Ok(None);
        };
        let Some(index) = self.new.wanted.get(other) else {
            return Ok(None);
        };
        let subject = Subject {
            side: Side::New,
            index: *index,
        };
        match version_of(alloc, self.new, subject)? {
            Some(is) if is.defined.is_namesake(&was.defined) => Ok(Some(is)),
            _ => {
                self.pairing.part(other);
                Ok(None)
            }
        }
    }

    /// Takes the records of the fields of two definitions from those that may yet be read.
    ///
    /// # Errors
    /// Fails as `ComparedTable::take_records` does.
    fn take_records(
        &self,
        alloc: Global,
        old: Subject,
        new: Subject,
        records: &mut Allowance,
    ) -> Result<(), Fault> {
        old.blame(self.old.take_records(alloc, old.index, records))?;
        new.blame(self.new.take_records(alloc, new.index, records))
    }

    /// Returns what became of an old definition, which has this number among those that are wanted,
    /// or None if nothing that counts did.
    pub(crate) fn change_of(
        &mut self,
        alloc: Global,
        number: usize,
        index: TypeIndex,
        options: &DiffOptions,
        records: &mut Allowance,
        texts: &mut TextAllowance,
    ) -> Result<Option<Vec<u8>>, Fault> {
        let old = Subject {
            side: Side::Old,
            index,
        };
        let Some(was) = version_of(alloc, self.old, old)? else {
            return Ok(None);
        };
        let Some(is) = self.counterpart(alloc, number, &was)? else {
            let gone = shown(alloc, Some(&was), None, &[], options.form, texts);
            return Ok(Some(old.blame(gone)?));
        };
        let new = Subject {
            side: Side::New,
            index: is.index,
        };
        self.take_records(alloc, old, new, records)?;
        match change_between(alloc, &was, &is, options, texts) {
            Ok(change) => Ok(change),
            Err(error) => Err(fault_between(alloc, &was, &is, error, texts)),
        }
    }

    /// Returns the new definition with this number among those that are wanted, if it came.
    pub(crate) fn arrival_of(
        &self,
        alloc: Global,
        number: usize,
        index: TypeIndex,
        form: Form,
        texts: &mut TextAllowance,
    ) -> Result<Option<Vec<u8>>, Fault> {
        if self.pairing.is_paired(number) {
            return Ok(None);
        }
        let subject = Subject {
            side: Side::New,
            index,
        };
        let Some(is) = version_of(alloc, self.new, subject)? else {
            return Ok(None);
        };
        let arrival = shown(alloc, None, Some(&is), &[], form, texts);
        Ok(Some(subject.blame(arrival)?))
    }
}
