//! What the definitions that contracts cite say in other words. The functions do nothing: each
//! contract is a law.

ghost use Rattle.std.specs.Prelude.{◌≡◌, ℕ, ◌+◌, ◌*◌, ◌≤◌, List, [], ◌∷◌, length, Ok};
ghost use Rattle.pdb_base.specs.Rules.{FollowsRules};
ghost use Rattle.pdb_tpi.specs.Table.{Table, table_of};
ghost use Rattle.pdb_tpi.specs.Walk.{IsWalk, items, rest};
ghost use Rattle.pdb_tpi.specs.OpenTable.{record_bytes, record_place};
ghost use Rattle.pdb_tpi.specs.Steps.{room, body, nth_item, walk, walk_rest};
ghost use Rattle.pdb_tpi.specs.Finder.{IsKnown, item_of, known_of};
ghost use Rattle.pdb_tpi.specs.Record.{id_of, type_of};
ghost use Rattle.pdb_tpi.specs.Faults.{table_in, table_rules, IsItemOf, item_rules, IsTypeOf, type_rules, IsIdOf};
ghost use Rattle.pdb_tpi.specs.Faults.{id_rules, AreFieldsOf, ChainBreaks};
ghost use Rattle.pdb_tpi.specs.Chain.{LookUp, IsChainAnswer, fields_of};
ghost use Rattle.pdb_tpi.specs.Laws.{AreBytes, HasTableHeaderAtOffsets, WalksOnce, HasFault, ReadsFew};

pub mod derived;
pub mod steps;

/// The fields of a header are at fixed offsets.
#[tactic(auto, using(crate::proofs::HeaderLemmas::fields_stand))]
pub fn header()
    ensures { (bytes : List ℕ) → HasTableHeaderAtOffsets bytes }
{}

/// The items that a table's walk gives are a walk of its bytes. Any bytes have exactly one walk,
/// with at most one item per four bytes.
#[tactic(auto, using(crate::proofs::LawLemmas::table_walk, crate::proofs::LawLemmas::item_per_four_bytes))]
pub fn walk()
    ensures tables { (table : Table) → AreBytes table.bytes →
        IsWalk (room table) (body table) (walk table) (walk_rest table) }
    ensures once { (limit : ℕ) (bytes : List ℕ) → AreBytes bytes → WalksOnce limit bytes }
    ensures few { (limit : ℕ) (bytes : List ℕ) →
        4 * length (items limit bytes) + length (rest limit bytes) ≤ length bytes }
{}

/// If a walk stops before bytes that are left, its fault is the first one that those bytes have.
#[tactic(auto, using(crate::proofs::LawLemmas::has_fault))]
pub fn faults()
    ensures { (bytes : List ℕ) → HasFault bytes }
{}

/// A table, the item of an index, a type and an id each have the error of the first rule of their
/// list that the bytes break, and are there if the bytes break none.
#[tactic(auto, using(crate::proofs::lemmas::Faults::table_follows, crate::proofs::lemmas::Faults::item_follows, crate::proofs::lemmas::Faults::type_follows, crate::proofs::lemmas::Faults::id_follows))]
pub fn first_faults()
    ensures table { (bytes : List ℕ) →
        FollowsRules (table_rules bytes) (λ table. table ≡ table_in bytes) (table_of bytes) }
    ensures item { (table : Table) (index : ℕ) → AreBytes table.bytes →
        FollowsRules (item_rules table index) (IsItemOf table index) (item_of table index) }
    ensures type_data { (index : ℕ) (item : List ℕ) →
        FollowsRules (type_rules index item) (IsTypeOf index item) (type_of index item) }
    ensures id_data { (item : List ℕ) → FollowsRules (id_rules item) (IsIdOf item) (id_of item) }
{}

/// The fields of an index are those of the lists in its chain, and the error is the one with which the
/// chain breaks: the first fault of a list, or that a list is continued by one that isn't below it.
#[tactic(auto, using(crate::proofs::lemmas::Faults::fields_follow))]
pub fn first_faults_of_fields()
    ensures { (table : Table) (index : ℕ) → AreBytes table.bytes →
        FollowsRules (ChainBreaks table index ∷ []) (AreFieldsOf table index) (fields_of (item_of table) index) }
{}

/// The bytes of a table at the place of a record are the record.
#[tactic(auto, using(crate::proofs::PositionLemmas::record_stands))]
pub fn record_places()
    ensures { (table : Table) (n : ℕ) (item : List ℕ) → nth_item table n ≡ Ok item →
        record_bytes table (record_place table n item) ≡ item }
{}

/// After iterators were fed to a finder, it knows the greatest number of blocks that were fed in
/// their order, and no other number is the greatest.
#[tactic(auto, using(crate::proofs::KnownLemmas::is_known, crate::proofs::KnownLemmas::only_known))]
pub fn known_blocks()
    ensures is { (table : Table) (known : ℕ) (shown : List ℕ) → IsKnown table known shown (known_of table known shown) }
    ensures only { (table : Table) (known : ℕ) (shown : List ℕ) (most : ℕ) →
        IsKnown table known shown most → most ≡ known_of table known shown }
{}

/// A look-up reads few lengths.
#[tactic(auto, using(crate::proofs::LawLemmas::reads_few))]
pub fn counts()
    ensures { (table : Table) (known i : ℕ) → ReadsFew table known i }
{}

/// Lists of fields form chains. Each index has one chain, whole or broken. The fields of an index
/// are those of the lists of its chain, joined in order, or the error with which the chain breaks.
#[tactic(auto, using(crate::proofs::ChainLemmas::chain_answer))]
pub fn chains()
    ensures { (look : LookUp) (index : ℕ) → IsChainAnswer look index }
{}
