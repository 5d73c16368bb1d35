//! What the definitions that contracts cite say in other words. The functions do nothing: each
//! contract is a law.

ghost use Rattle.std.specs.Prelude.{◌≡◌, ℕ, List};
ghost use Rattle.pdb_values.specs.declared.primitive.PrimitiveType.{PrimitiveType};
ghost use Rattle.pdb_values.specs.LeafNumbers.{CountUpFrom, old_type_leaves, old_inner_leaves, old_entry_leaves};
ghost use Rattle.pdb_values.specs.LeafNumbers.{type_leaves, inner_leaves, entry_leaves, named_leaves, last_leaves};
ghost use Rattle.pdb_values.specs.LeafNumbers.{id_leaves, last_id_leaves, prefixes, later_prefixes, pads};
ghost use Rattle.pdb_values.specs.Laws.{HasOneIndex, IsRefusedByIndex};
ghost use Rattle.pdb_values.specs.TypeValue.{TypeValue, Fields, as_fields, values_in};
ghost use Rattle.pdb_values.specs.declared.primitive.TheConstants.{FIRST_RECORD};

use crate::constants::{LF_ENDOFLEAFRECORD, LF_NUMERIC};

pub mod derived;

/// Each primitive type has one index below 0x1000. For an index that means no primitive type, the
/// error is `TypeNotFound` with that index.
#[tactic(auto, using(crate::proofs::PrimitiveLemmas::has_one_index, crate::proofs::PrimitiveLemmas::is_refused_by_index))]
pub fn primitives()
    ensures one { (type : PrimitiveType) → HasOneIndex type }
    ensures refused { (index : ℕ) → IsRefusedByIndex index }
{}

/// The values of a field list are a list and nothing else.
#[tactic(auto, using(crate::proofs::lemmas::Fields::listed, crate::proofs::lemmas::Fields::unlisted))]
pub fn field_lists()
    ensures listed { (values : List TypeValue) → values_in (as_fields values) ≡ values }
    ensures unlisted { (fields : Fields) → as_fields (values_in fields) ≡ fields }
{}

/// The indexes from 0x1000 on are those of records.
pub fn first_record()
    ensures { FIRST_RECORD ≡ 0x1000 }
{}

/// The constants are the numbers of `LEAF_ENUM_e` in Microsoft's cvinfo.h: its record kinds,
/// prefixes and pads in their order, which count up by one from these numbers on.
pub fn leaf_numbers()
    ensures old_type_leaves { CountUpFrom 0x0001 old_type_leaves }
    ensures old_inner_leaves { CountUpFrom 0x0200 old_inner_leaves }
    ensures old_entry_leaves { CountUpFrom 0x0400 old_entry_leaves }
    ensures type_leaves { CountUpFrom 0x1000 type_leaves }
    ensures inner_leaves { CountUpFrom 0x1200 inner_leaves }
    ensures entry_leaves { CountUpFrom 0x1400 entry_leaves }
    ensures named_leaves { CountUpFrom 0x1500 named_leaves }
    ensures last_leaves { CountUpFrom 0x151d last_leaves }
    ensures id_leaves { CountUpFrom 0x1601 id_leaves }
    ensures last_id_leaves { CountUpFrom 0x1607 last_id_leaves }
    ensures prefixes { CountUpFrom 0x8000 prefixes }
    ensures later_prefixes { CountUpFrom 0x8017 later_prefixes }
    ensures pads { CountUpFrom 0x00f0 pads }
    ensures end_of_leaf_record { LF_ENDOFLEAFRECORD ≡ 0x151d }
    ensures numeric { LF_NUMERIC ≡ 0x8000 }
{}
