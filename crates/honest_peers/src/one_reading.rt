//! Bytes have one reading, and so the honest reply by a sealed journal has one answer.
ghost use Rattle.std.specs.Prelude.{◌≡◌, ℕ, ◌≤◌, List, ◌++◌, Ok, Result, length};
ghost use Rattle.vo_spec.specs.declared.checks.Answer.{Answer};
ghost use Rattle.vo_spec.specs.declared.checks.AuditFault.{AuditFault};
ghost use Rattle.vo_spec.specs.declared.checks.CheckFault.{CheckFault};
ghost use Rattle.vo_spec.specs.declared.checks.Verdict.{Verdict};
ghost use Rattle.vo_spec.specs.declared.checks.Verdict.TheVariants.{Exact};
ghost use Rattle.vo_spec.specs.declared.records.Entry.{Entry};
ghost use Rattle.vo_spec.specs.declared.tables.Command.{Command};
ghost use Rattle.vo_spec.specs.Checks.{CheckOf};
ghost use Rattle.vo_spec.specs.Conditions.{FitsQuery, Query};
ghost use Rattle.vo_spec.specs.Honest.{seal_batches};
ghost use Rattle.vo_spec.specs.Journals.{journal_bytes};
ghost use Rattle.vo_spec.specs.Replies.{IsReply, Reply, reply_bytes};
ghost use Rattle.vo_spec.specs.Secret.{Secret, public_of_secret};
ghost use Rattle.owner_roots.specs.Owners.{IsBadAt, IsOwned, OwnedAuditOf};
ghost use Rattle.round_trips.specs.Trips.{AreSealable, IsHonestReply, plain_answer};

/// Bytes are one reply at most, and an owner's journal of one list of entries at most, which is
/// then bad nowhere.
pub fn bytes_have_one_reading()
    ensures reply { (bytes : List ℕ) (a b : Reply) → IsReply bytes a → IsReply bytes b → a ≡ b }
    ensures journal { (key bytes : List ℕ) (xs es : List Entry) → IsOwned key bytes xs
        → IsOwned key bytes es → xs ≡ es }
    ensures good { (key bytes : List ℕ) (es : List Entry) (index : ℕ) → IsOwned key bytes es
        → IsBadAt key bytes index → ⊥ }
{}

/// Whatever a client says of the honest reply by the journal of some batches is the query's result
/// on the plain tables after them; whatever an audit says of it, by this journal or by that of more
/// batches behind these, is that it is exact.
pub fn honest_replies_have_one_answer()
    ensures checked { (secret : Secret) (batches : List (List Command)) (least : ℕ) (q : Query)
        (r : Reply) (answer : Result Answer CheckFault) → AreSealable secret batches
        → FitsQuery q → IsHonestReply secret batches q r → least ≤ length batches
        → CheckOf (public_of_secret secret) least q (reply_bytes r) answer
        → answer ≡ Ok (plain_answer batches q) }
    ensures audited { (secret : Secret) (batches later : List (List Command)) (q : Query)
        (r : Reply) (verdict : Result Verdict AuditFault) → AreSealable secret (batches ++ later)
        → FitsQuery q → IsHonestReply secret batches q r
        → let journal = journal_bytes (seal_batches secret (batches ++ later)) in
        OwnedAuditOf (public_of_secret secret) journal q (reply_bytes r) verdict
        → verdict ≡ Ok (Exact (length batches)) }
{}
