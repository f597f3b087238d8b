//! What a client accepts, and what an audit says of it.
ghost use Rattle.std.specs.Prelude.{ℕ, List, Ok, Result};
ghost use Rattle.vo_spec.specs.declared.checks.Answer.{Answer};
ghost use Rattle.vo_spec.specs.declared.checks.AuditFault.{AuditFault};
ghost use Rattle.vo_spec.specs.declared.checks.Verdict.{Verdict};
ghost use Rattle.vo_spec.specs.declared.records.Entry.{Entry};
ghost use Rattle.vo_spec.specs.Checks.{CheckOf};
ghost use Rattle.vo_spec.specs.Conditions.{Query};
ghost use Rattle.owner_roots.specs.Owners.{IsOwned, OwnedAuditOf};
ghost use Rattle.honest_peers.specs.Accepting.{AcceptsReply, IsJudged, SaysSame};

/// A client, whatever version it takes, accepts only a reply whose record is validly signed. And
/// whatever an audit by the owner's journal says of that reply, it has a verdict, and that judges
/// the client's own answer: no such record in the journal; the query's result on the tables of the
/// version; or two strings of one digest.
pub fn audits_judge_what_clients_accept()
    ensures accepted { (key : List ℕ) (least : ℕ) (q : Query) (bytes : List ℕ) (answer : Answer)
        → CheckOf key least q bytes (Ok answer) → AcceptsReply key least q bytes answer }
    ensures judged { (key : List ℕ) (least : ℕ) (q : Query) (bytes : List ℕ) (answer : Answer)
        (journal : List ℕ) (es : List Entry) (verdict : Result Verdict AuditFault)
        → IsOwned key journal es → CheckOf key least q bytes (Ok answer)
        → OwnedAuditOf key journal q bytes verdict → IsJudged es q bytes answer verdict }
{}

/// An audit says one thing of bytes, by bytes as the journal of a key's owner, but for the strings
/// that show a collision.
pub fn audits_have_one_verdict()
    ensures { (key journal : List ℕ) (q : Query) (bytes : List ℕ)
        (a b : Result Verdict AuditFault) → OwnedAuditOf key journal q bytes a
        → OwnedAuditOf key journal q bytes b → SaysSame a b }
{}
