//! Laws that say in other words what the definitions cited by contracts mean. The function does
//! nothing: its contract is the law. That the parts of a word lie side by side is a law of
//! `pdb_base::laws`.

ghost use Rattle.pdb_flags.specs.Laws.{AreToldApart};
ghost use Rattle.pdb_flags.specs.PointerNumbers.{pointer_kind_number, mode_number};

pub mod derived;

/// Kinds and modes of pointers are told apart by their numbers.
pub fn numbers()
    ensures kinds { AreToldApart pointer_kind_number }
    ensures modes { AreToldApart mode_number }
{}
