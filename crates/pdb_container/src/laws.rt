//! What the replies of a file come to. The function does nothing: its contract is a law.

ghost use Rattle.std.specs.Prelude.{ℕ, List};
ghost use Rattle.pdb_base.specs.Rules.{FollowsRules};
ghost use Rattle.pdb_msf.specs.Header.{Head};
ghost use Rattle.pdb_tpi.specs.Laws.{AreBytes};
ghost use Rattle.pdb_container.specs.Replies.{IsAnswer, IsMeant, answer_rules, reply_rules};
ghost use Rattle.pdb_container.specs.Reply.{answer_of, reply_of};
ghost use Rattle.pdb_container.specs.declared.query.Query.{Query};

/// The reply to a query is what the bytes of the file hold, by the relations of the format alone. It
/// is an error exactly if a rule is broken, and then that of the first one: of the file's header, of
/// the stream, of the table in it, of the look-up, or of the record.
#[tactic(auto, using(crate::proofs::ReplyLaws::reply_follows, crate::proofs::ReplyLaws::answer_follows))]
pub fn replies()
    ensures queries { (file : List ℕ) (head : Head) (query : Query) → AreBytes file →
        FollowsRules (reply_rules file head query) (IsMeant file head query) (reply_of file head query) }
    ensures files { (file : List ℕ) (query : Query) → AreBytes file →
        FollowsRules (answer_rules file query) (IsAnswer file query) (answer_of file query) }
{}
