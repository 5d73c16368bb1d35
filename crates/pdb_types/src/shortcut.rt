//! Shortcuts along types of which each is as large as another one.

ghost use Rattle.std.specs.Prelude.{IfOk, IfSome, OnOk};
ghost use Rattle.pdb_tpi.specs.Table.{Table};
ghost use Rattle.pdb_types.specs.Shortcut.{AreShortcuts, IsAsLarge};

use crate::definitions::Definitions;
use crate::memory::AllocResult;
use crate::size_source::SizeSource;
use pdb_base::{Error, FallibleIterator, TypeIndex};
use std::alloc::{AllocError, Global};

/// The record kinds of a type with a modifier and of a bit field.
const MODIFIER: u16 = 0x1001;

const BIT_FIELD: u16 = 0x1205;

/// How many types are from the start of a shortcut to its end, or to the start of the next one.
const RUN: usize = 8;

/// A type, and another one that has the same size.
#[derive(Clone, Copy, Debug)]
pub(crate) struct Shortcut {
    index: TypeIndex,
    end: TypeIndex,
}

/// Returns the type to which a shortcut leads from a type, or that type itself if none does.
pub(crate) fn end_of(shortcuts: &[Shortcut], index: TypeIndex) -> TypeIndex
    ensures { (table : Table) → AreShortcuts table shortcuts.now → IsAsLarge table index.0 result.0 }
{
    let place = shortcuts.partition_point(|shortcut| shortcut.index < index);
    match shortcuts.get(place) {
        Some(shortcut) if shortcut.index == index => shortcut.end,
        _ => index,
    }
}

/// Returns whether a type of a record kind may be one of many in a row of which each is as large as
/// the next; among these may be types with names.
fn is_of_run(kind: u16, has_names: bool) -> bool {
    has_names || kind == MODIFIER || kind == BIT_FIELD
}

impl<'t> Definitions<'t> {
    /// Returns the type of a lower index that is as large as a type, if the record of the type or
    /// of its definition says so.
    #[tactic(auto, using(crate::proofs::SizeLemmas::lower_large))]
    fn lower_type(&self, alloc: Global, index: TypeIndex) -> AllocResult<Option<TypeIndex>>
        ensures { IfOk result (λ lower. IfSome lower (λ other. IsAsLarge self.now index.0 other.0)) }
    {
        match self.size_source(alloc, index) {
            Ok(SizeSource::SameAs(other)) if other.0 < index.0 => Ok(Some(other)),
            Err(Error::OutOfMemory) => Err(AllocError),
            _ => Ok(None),
        }
    }

    /// Returns where a shortcut from a type leads, if one is due: if there is none for the next
    /// types along which its size is found.
    #[tactic(auto, using(crate::proofs::SizeLemmas::large_still))]
    fn shortcut_end(
        &self,
        alloc: Global,
        index: TypeIndex,
        has_names: bool,
        shortcuts: &[Shortcut],
    ) -> AllocResult<Option<TypeIndex>>
        requires { AreShortcuts self.now shortcuts.now }
        ensures { IfOk result (λ end. IfSome end (λ other. IsAsLarge self.now index.0 other.0)) }
    {
        let mut end = index;
        for _ in 0..RUN {
            let Ok(item) = self.types().item(end) else {
                return Ok(None);
            };
            if !is_of_run(item.raw_kind(), has_names) || end_of(shortcuts, end) != end {
                return Ok(None);
            }
            match self.lower_type(alloc, end)? {
                Some(lower) => end = lower,
                None => return Ok(None),
            }
        }
        Ok(Some(end_of(shortcuts, end)))
    }

    /// Adds the shortcut from a type, if one is due.
    fn add_shortcut(
        &self,
        alloc: Global,
        index: TypeIndex,
        has_names: bool,
        shortcuts: &mut Vec<Shortcut>,
    ) -> AllocResult<()>
        requires { AreShortcuts self.now shortcuts.old.items }
        ensures { OnOk result (AreShortcuts self.now shortcuts.new.items) }
    {
        if let Some(end) = self.shortcut_end(alloc, index, has_names, shortcuts)? {
            shortcuts.push(Shortcut { index, end })?;
        }
        Ok(())
    }

    /// Returns the shortcuts of the table, in rising order. Where an enumeration is over a type of
    /// the table, types with names can be many in a row too, of which each is as large as the next.
    ///
    /// There is one for each type from which the size is found along a multiple of eight types. So a
    /// size is found along at most eight types and a shortcut, also where a million types with
    /// modifiers are one behind another.
    pub(crate) fn new_shortcuts(&self, alloc: Global, has_names: bool) -> AllocResult<Vec<Shortcut>>
        ensures { IfOk result (λ shortcuts. AreShortcuts self.now shortcuts.items) }
    {
        let mut items = self.types().items().iter();
        let mut shortcuts = Vec::new(alloc);
        while let Ok(Some(item)) = items.next() {
            if is_of_run(item.raw_kind(), has_names) {
                self.add_shortcut(alloc, item.index(), has_names, &mut shortcuts)?;
            }
        }
        Ok(shortcuts)
    }
}
