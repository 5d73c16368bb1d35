//! Lists of methods.

ghost use Rattle.pdb_base.specs.Answer.{Answers};
ghost use Rattle.pdb_base.specs.Memory.{LacksOnlyIf};
ghost use Rattle.pdb_base.specs.Place.{left};
ghost use Rattle.pdb_records.specs.Row.{row};
ghost use Rattle.pdb_records.specs.ToEnd.{to_end};
ghost use Rattle.pdb_records.specs.Rows.{listed_method_row};
ghost use Rattle.pdb_records.specs.Memory.{HoldsMethod};

use crate::parse::function::parse_listed_method;
use pdb_base::{ParseBuffer, Result};
use pdb_values::{MethodList, MethodListEntry};
use std::alloc::Global;

/// Reads the list of the methods that share one name, to the end of the bytes.
pub(crate) fn parse_method_list(alloc: Global, buffer: &mut ParseBuffer<'_>) -> Result<MethodList>
    ensures read { Answers (λ list. (list.methods.items, left buffer.new)) result
        (to_end (row listed_method_row) (left buffer.old)) }
    ensures memory { LacksOnlyIf result (HoldsMethod (left buffer.old)) }
{
    let mut methods: Vec<MethodListEntry> = Vec::new(alloc);
    while !buffer.is_empty() {
        match parse_listed_method(buffer) {
            Ok(method) => methods.push(method)?,
            Err(error) => return Err(error),
        }
    }
    Ok(MethodList { methods })
}
