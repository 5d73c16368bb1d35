//! What the definitions that contracts cite say in other words. The functions do nothing: each
//! contract is a law.

ghost use Rattle.std.specs.Prelude.{◌≡◌, ◌≢◌, ℕ, ◌<◌, true, List, Ok};
ghost use Rattle.std.specs.List.{Contains};
ghost use Rattle.pdb_base.specs.declared.index.TypeIndex.{TypeIndex};
ghost use Rattle.pdb_tpi.specs.Table.{Table};
ghost use Rattle.pdb_types.specs.Agreement.{AreAgreed, do_types_agree};
ghost use Rattle.pdb_types.specs.declared.comparison.Comparison.{Comparison};
ghost use Rattle.pdb_types.specs.declared.comparison.Comparison.TheVariants.{LayoutDiffers};
ghost use Rattle.pdb_types.specs.Comparison.{comparison_of};
ghost use Rattle.pdb_types.specs.Declaration.{TypeName};
ghost use Rattle.pdb_types.specs.Definition.{first_definition};
ghost use Rattle.pdb_types.specs.DefinitionLaws.{IsFirstDefinition};
ghost use Rattle.pdb_types.specs.Order.{IsCycle, IsOrder, IsRequired, Needs};
ghost use Rattle.pdb_types.specs.Part.{AreDepths, AreParts, class_part};
ghost use Rattle.pdb_types.specs.Size.{AreSizes, Sizes, size_of};

/// The definition of a name is the type with the least index that defines it. There is none exactly
/// if no type does.
#[tactic(auto, using(crate::proofs::DefinitionLemmas::is_first))]
pub fn definitions()
    ensures { (table : Table) (name : TypeName) → IsFirstDefinition table name (first_definition table name) }
{}

/// Each class with virtual bases goes, where it is a base class, up to the end of its last field, of
/// which a base class goes as far as this says, if at most 64 classes are each a base of the one
/// before. No other parts are these.
pub fn parts()
    ensures { (table : Table) (parts : Sizes) (depth : ℕ → ℕ) → AreParts table parts → AreDepths table depth →
        (index : ℕ) → depth index < 64 → parts index ≡ class_part table index }
{}

/// The sizes of the types of a table say of each type what its record says, or that of its
/// definition. No other sizes do.
pub fn sizes()
    ensures are { (table : Table) → AreSizes table (size_of table) }
    ensures only { (table : Table) (sizes : Sizes) → AreSizes table sizes →
        (index : ℕ) → sizes index ≡ size_of table index }
{}

/// An order of definitions has all that its roots need, directly or through others. Where there is an
/// order, none of these needs itself.
pub fn declaration_orders()
    ensures complete { (needs : Needs) (roots order : List ℕ) → IsOrder needs roots order →
        (one : ℕ) → IsRequired needs roots one → Contains order one }
    ensures acyclic { (needs : Needs) (roots order cycle : List ℕ) → IsOrder needs roots order →
        ¬ IsCycle needs roots cycle }
{}

/// The layout of a definition doesn't differ from itself.
#[tactic(auto, using(crate::proofs::ComparisonLaws::never_differs))]
pub fn comparisons()
    ensures { (table : Table) (index : TypeIndex) (comparison : Comparison) →
        comparison_of table index table index ≡ Ok comparison → comparison ≢ LayoutDiffers }
{}

/// Types agree only if they are alike, with the types within them, those within these, and so on:
/// there are pairs of types, those that are compared among them, of which each is alike and has all
/// pairs of the types within it among them.
#[tactic(auto, using(crate::proofs::AgreementLaws::types_agree))]
pub fn agreements()
    ensures { (one other : Table) (firsts seconds : List TypeIndex) →
        do_types_agree one other firsts seconds ≡ true → AreAgreed one other firsts seconds }
{}
