//! What the definitions that contracts cite say in other words. The functions do nothing: each
//! contract is a law.

ghost use Rattle.std.specs.Prelude.{ℕ, List};
ghost use Rattle.pdb_file.specs.declared.information.PDBInformation.{PDBInformation};
ghost use Rattle.pdb_base.specs.Rules.{FollowsRules};
ghost use Rattle.pdb_file.specs.Faults.{IsNamedStream, map_within, named_rules, named_stream_rules};
ghost use Rattle.pdb_file.specs.File.{file_named_stream};
ghost use Rattle.pdb_msf.specs.Header.{Head};
ghost use Rattle.pdb_file.specs.Laws.{AreNamed, FindsDebugHeader, FindsFeatures, FindsHeader, FindsNamed, FindsRoles};
ghost use Rattle.pdb_file.specs.StreamNames.{stream_names_of};

pub mod derived;

/// The header of stream 3 is the one that the stream begins with, whose first field is the
/// signature. Any other stream gives the first of three errors.
#[tactic(auto, using(crate::proofs::DbiLaws::finds_header))]
pub fn headers()
    ensures { (stream : List ℕ) → FindsHeader stream }
{}

/// The debug header of stream 3 comes after parts of the sizes that the header says, in their
/// order. For a stream without one, the error is that of its header, or that it ends too soon.
#[tactic(auto, using(crate::proofs::DbiLaws::finds_debug_header))]
pub fn debug_headers()
    ensures { (stream : List ℕ) → FindsDebugHeader stream }
{}

/// The roles have the streams that a list gives at their indices. A list gives none exactly if it
/// ends in half of one of the first eleven numbers.
#[tactic(auto, using(crate::proofs::RoleLaws::finds_roles))]
pub fn roles()
    ensures { (list : List ℕ) → FindsRoles list }
{}

/// The named streams are those of the table that stream 1 holds after its names: a name and a
/// stream for each entry, in order. There are none exactly if the stream ends too soon, or if a
/// name has no NUL after it among the names.
pub fn stream_names()
    ensures { (information : PDBInformation) → FindsNamed information }
{}

/// The named streams have the error of the first rule of their list that stream 1 breaks: the table is
/// whole, and each entry in turn has a name that ends. They are there if stream 1 breaks none.
/// A stream that is asked for by its name has the error of the first of its rules that the file breaks.
#[tactic(auto, using(crate::proofs::FaultLaws::named_follow, crate::proofs::FaultLaws::named_stream_follows))]
pub fn named_stream_faults()
    ensures names { (information : PDBInformation) →
        FollowsRules (named_rules information) (AreNamed (map_within information)) (stream_names_of information) }
    ensures stream { (file : List ℕ) (head : Head) (name : List ℕ) →
        FollowsRules (named_stream_rules file head name) (IsNamedStream file head name)
        (file_named_stream file head name) }
{}

/// The features are those that the `u32` numbers after the table of stream 1 tell: each whose number
/// is among them and has not that of Visual C++ 11 before it. There are none exactly if the stream
/// ends before the table does.
pub fn features()
    ensures { (information : PDBInformation) → FindsFeatures information }
{}
