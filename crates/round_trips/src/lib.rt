//! Round trips: what a client and an auditor say of the honest reply by a sealed journal.
#![tactic(auto)]

ghost use Rattle.std.specs.Prelude.{◌≡◌, ℕ, ◌≤◌, List, ◌++◌, Ok, IsSome, length};
ghost use Rattle.vo_spec.specs.declared.checks.Verdict.{Verdict};
ghost use Rattle.vo_spec.specs.declared.checks.Verdict.TheVariants.{Exact};
ghost use Rattle.vo_spec.specs.declared.tables.Command.{Command};
ghost use Rattle.vo_spec.specs.Audits.{IsVerdict};
ghost use Rattle.vo_spec.specs.Checks.{CheckOf, answer_to};
ghost use Rattle.vo_spec.specs.Conditions.{FitsQuery, Query};
ghost use Rattle.vo_spec.specs.Honest.{reply_of, seal_batches};
ghost use Rattle.vo_spec.specs.Journals.{journal_bytes};
ghost use Rattle.vo_spec.specs.Replies.{IsReply, Reply, reply_bytes};
ghost use Rattle.vo_spec.specs.Owners.{IsLoadable};
ghost use Rattle.vo_spec.specs.Secret.{Secret, public_of_secret};
ghost use Rattle.owner_roots.specs.Owners.{IsOwned, OwnedAuditOf};
ghost use Rattle.round_trips.specs.Trips.{AreSealable, IsHonestReply, plain_answer};

/// What is sealed is a journal of the key's owner, and one that a store of the key takes.
pub fn sealed_journals_are_loadable()
    ensures owned { (secret : Secret) (batches : List (List Command)) → AreSealable secret batches
        → let es = seal_batches secret batches in IsOwned (public_of_secret secret)
        (journal_bytes es) es }
    ensures loaded { (secret : Secret) (batches : List (List Command)) → AreSealable secret batches
        → let es = seal_batches secret batches in IsLoadable (public_of_secret secret)
        (journal_bytes es) es }
{}

/// What is sealed is read back. The reply of a store that has loaded the journal of some batches is
/// one whose tests all pass, and its answer is the query's result on the plain tables after these
/// batches; and an audit by this journal, or by that of more batches behind these, can only say
/// that this is exact.
pub fn sealed_batches_are_read_back()
    ensures replied { (secret : Secret) (batches : List (List Command)) (q : Query)
        → IsSome (reply_of q (seal_batches secret batches)) }
    ensures read { (secret : Secret) (batches : List (List Command)) (q : Query) (r : Reply)
        → AreSealable secret batches → IsHonestReply secret batches q r
        → IsReply (reply_bytes r) r }
    ensures answer { (secret : Secret) (batches : List (List Command)) (least : ℕ) (q : Query)
        (r : Reply) → AreSealable secret batches → FitsQuery q → IsHonestReply secret batches q r
        → least ≤ length batches
        → answer_to (public_of_secret secret) least q r ≡ Ok (plain_answer batches q) }
    ensures checked { (secret : Secret) (batches : List (List Command)) (least : ℕ) (q : Query)
        (r : Reply) → AreSealable secret batches → FitsQuery q → IsHonestReply secret batches q r
        → least ≤ length batches
        → CheckOf (public_of_secret secret) least q (reply_bytes r) (Ok (plain_answer batches q)) }
    ensures exact { (secret : Secret) (batches later : List (List Command)) (q : Query) (r : Reply)
        (verdict : Verdict) → AreSealable secret (batches ++ later)
        → IsHonestReply secret batches q r
        → IsVerdict (seal_batches secret (batches ++ later)) q r (plain_answer batches q) verdict
        → verdict ≡ Exact (length batches) }
    ensures audited { (secret : Secret) (batches later : List (List Command)) (q : Query)
        (r : Reply) → AreSealable secret (batches ++ later) → FitsQuery q
        → IsHonestReply secret batches q r
        → let journal = journal_bytes (seal_batches secret (batches ++ later)) in
        OwnedAuditOf (public_of_secret secret) journal q (reply_bytes r)
        (Ok (Exact (length batches))) }
{}
