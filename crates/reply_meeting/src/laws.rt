//! Laws of replies that are accepted.
ghost use Rattle.std.specs.Prelude.{ℕ, List};
ghost use Rattle.vo_spec.specs.Conditions.{Query};
ghost use Rattle.vo_spec.specs.Owners.{IsSigned};
ghost use Rattle.vo_spec.specs.Replies.{Reply};
ghost use Rattle.reply_meeting.specs.Accepting.{IsAccepted};

/// The record of an accepted reply is signed by the owner, with the leaf of its version. So two
/// records that meet at one version are two that the owner signed.
pub fn accepted_records_are_signed()
    ensures { (key : List ℕ) (q : Query) (bytes : List ℕ) (r : Reply) → IsAccepted key q bytes r
        → IsSigned key r.rec r.signature }
{}
