//! One walk along a table, for the names of its definitions.

ghost use Rattle.std.specs.Prelude.{◌≡◌, ◌++◌, IfOk, Ok, OnOk};
ghost use Rattle.pdb_base.specs.Answer.{Answers};
ghost use Rattle.pdb_tpi.specs.Item.{item_bytes, index_of};
ghost use Rattle.pdb_tpi.specs.Record.{type_of};
ghost use Rattle.pdb_tpi.specs.Steps.{walk_rest};
ghost use Rattle.pdb_types.specs.Declaration.{declaration_value};
ghost use Rattle.pdb_types.specs.Definition.{if_none_left, whole_table};
ghost use Rattle.pdb_types.specs.DefinitionWalk.{IsUnlessGivenUp, IsNameWalk, gives_up};
ghost use Rattle.pdb_types.specs.Numbering.{all_numbers, is_list, type_numbers, source_name_number, unique_name_number};
ghost use Rattle.pdb_values.specs.TypeView.{type_value};

use crate::declaration::{Declaration, declaration_of};
use crate::memory::AllocResult;
use crate::numbering::Numbering;
use crate::type_name::TypeName;
use pdb_base::{Error, FallibleIterator, Result, TypeIndex};
use pdb_tpi::constants::{LF_ARGLIST, LF_FIELDLIST, LF_METHODLIST};
use pdb_tpi::{OpenTable, Type, TypeInformation};
use pdb_values::TypeData;
use std::alloc::{AllocError, Global};

/// What a walk along a table finds.
#[derive(Drop)]
pub(crate) struct DefinitionWalk {
    /// How names are numbered.
    pub(crate) numbering: Numbering,

    /// The numbers of the names of definitions.
    pub(crate) numbers: Vec<u64>,

    /// Whether a forward reference has no unique name, so that its definition is found by the name
    /// that the source gives it.
    seeks_source_names: bool,

    /// Whether an enumeration is over a type of the table. Compilers write only enumerations over
    /// primitive types.
    pub(crate) has_wide_enumeration: bool,
}

/// Returns whether the records of a kind are lists of fields, of arguments or of methods.
fn is_list(kind: u16) -> bool
    ensures { result ≡ is_list kind }
{
    kind == LF_FIELDLIST || kind == LF_ARGLIST || kind == LF_METHODLIST
}

/// Returns whether a type is an enumeration over a type of the table, whose least index is given.
fn is_wide_enumeration(value: &TypeData<'_>, least: u32) -> bool {
    match value {
        TypeData::Enumeration(enumeration) => enumeration.underlying_type.0 >= least,
        _ => false,
    }
}

/// Appends the number of the name that the source gives a definition, if such names are numbered.
fn push_source(
    numbering: Numbering,
    index: TypeIndex,
    names: &Declaration<'_>,
    numbers: &mut Vec<u64>,
) -> AllocResult<()>
    ensures { OnOk result
        (numbers.new.items ≡ numbers.old.items ++ source_name_number numbering index.0 (declaration_value names.now)) }
{
    if numbering.has_source_names {
        numbers.push(numbering.number(TypeName::Source(names.name.as_bytes()), index))?;
    }
    Ok(())
}

/// Appends the number of the unique name of a definition, if it has one.
fn push_unique(
    numbering: Numbering,
    index: TypeIndex,
    names: &Declaration<'_>,
    numbers: &mut Vec<u64>,
) -> AllocResult<()>
    ensures { OnOk result
        (numbers.new.items ≡ numbers.old.items ++ unique_name_number numbering index.0 (declaration_value names.now)) }
{
    if let Some(name) = names.unique_name {
        numbers.push(numbering.number(TypeName::Decorated(name.as_bytes()), index))?;
    }
    Ok(())
}

impl DefinitionWalk {
    /// Notes a type.
    fn note_value(&mut self, index: TypeIndex, value: &TypeData<'_>) -> AllocResult<()>
        ensures kept { self.new.numbering ≡ self.old.numbering }
        ensures added { OnOk result (self.new.numbers.items
            ≡ self.old.numbers.items ++ type_numbers self.old.numbering index.0 (Ok (type_value value.now))) }
    {
        let numbering = self.numbering;
        self.has_wide_enumeration |= is_wide_enumeration(value, numbering.least);
        match declaration_of(value) {
            Some(names) if names.is_forward() => {
                self.seeks_source_names |= names.unique_name.is_none();
                Ok(())
            }
            Some(names) => {
                push_source(numbering, index, &names, &mut self.numbers)?;
                push_unique(numbering, index, &names, &mut self.numbers)
            }
            None => Ok(()),
        }
    }

    /// Notes the type of an item, if it can be read.
    fn note_read(&mut self, alloc: Global, item: &Type<'_>) -> AllocResult<()>
        ensures kept { self.new.numbering ≡ self.old.numbering }
        ensures added { OnOk result (self.new.numbers.items ≡ self.old.numbers.items
            ++ type_numbers self.old.numbering (index_of item.now).0
            (type_of (index_of item.now).0 (item_bytes item.now))) }
    {
        match item.parse(alloc) {
            Ok(value) => self.note_value(item.index(), &value),
            Err(Error::OutOfMemory) => Err(AllocError),
            Err(_) => Ok(()),
        }
    }

    /// Notes the type of an item. A list has no name, and isn't read.
    #[tactic(auto, using(crate::proofs::ListLemmas::list_adds))]
    fn note(&mut self, alloc: Global, item: &Type<'_>) -> AllocResult<()>
        ensures kept { self.new.numbering ≡ self.old.numbering }
        ensures added { OnOk result (self.new.numbers.items ≡ self.old.numbers.items
            ++ type_numbers self.old.numbering (index_of item.now).0
            (type_of (index_of item.now).0 (item_bytes item.now))) }
    {
        if is_list(item.raw_kind()) {
            return Ok(());
        }
        self.note_read(alloc, item)
    }

    /// Returns whether a type seeks a name that isn't numbered.
    fn gives_up(&self) -> bool
        ensures { result ≡ gives_up self.now }
    {
        self.seeks_source_names && !self.numbering.has_source_names
    }

    /// Walks along a table, up to a type that seeks a name that isn't numbered.
    ///
    /// # Errors
    /// Fails with the fault at which the walk stops if that is before the end of the table, and
    /// with `OutOfMemory` if an allocation fails.
    fn along(alloc: Global, table: &TypeInformation, numbering: Numbering) -> Result<Self>
        ensures kept { IfOk result (λ walk. walk.numbering ≡ numbering) }
        ensures walked { IsUnlessGivenUp result (Answers (λ walk. walk.numbers.items) result
            (if_none_left (all_numbers numbering table.now) (walk_rest table.now))) }
    {
        let mut items = table.iter();
        let mut found = DefinitionWalk {
            numbering,
            numbers: Vec::new(alloc),
            seeks_source_names: false,
            has_wide_enumeration: false,
        };
        while let Some(item) = items.next()? {
            found.note(alloc, &item)?;
            if found.gives_up() {
                return Ok(found);
            }
        }
        Ok(found)
    }

    /// Walks along a table as `along` does, and sorts the numbers.
    ///
    /// # Errors
    /// Fails as `along` does.
    fn sorted(alloc: Global, types: &OpenTable<TypeIndex>, has_source_names: bool) -> Result<Self>
        ensures kept { IfOk result (λ walk. walk.numbering.has_source_names ≡ has_source_names) }
        ensures numbered { IsUnlessGivenUp result (IfOk result (IsNameWalk types.now.table)) }
        ensures walked { IsUnlessGivenUp result (Answers (λ _. types.now.table) result (whole_table types.now.table)) }
    {
        let numbering = Numbering::of(types, has_source_names);
        let mut walk = DefinitionWalk::along(alloc, types.items(), numbering)?;
        walk.numbers.sort_unstable_by_key(|number| *number);
        Ok(walk)
    }

    /// Walks along a table, and sorts the numbers of all names.
    ///
    /// # Errors
    /// Fails as `along` does.
    pub(crate) fn named(alloc: Global, types: &OpenTable<TypeIndex>) -> Result<Self>
        ensures numbered { IfOk result (IsNameWalk types.now.table) }
        ensures walked { Answers (λ _. types.now.table) result (whole_table types.now.table) }
    {
        DefinitionWalk::sorted(alloc, types, true)
    }

    /// Walks along a table, and sorts the numbers of the names by which its types seek definitions:
    /// the unique names, and all names if a type seeks one by the name that the source gives it.
    ///
    /// # Errors
    /// Fails as `along` does.
    pub(crate) fn sought(alloc: Global, types: &OpenTable<TypeIndex>) -> Result<Self>
        ensures numbered { IfOk result (IsNameWalk types.now.table) }
        ensures walked { Answers (λ _. types.now.table) result (whole_table types.now.table) }
    {
        let walk = DefinitionWalk::sorted(alloc, types, false)?;
        if !walk.gives_up() {
            return Ok(walk);
        }
        drop(walk);
        DefinitionWalk::named(alloc, types)
    }
}
