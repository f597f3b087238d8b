//! How many bytes of a reply are held while it is checked.
ghost use Rattle.std.specs.Prelude.{◌≡◌, ◌⊎◌, ◌+◌, ◌-◌, ◌^◌, ◌≤◌, ◌<◌, ◌++◌, ℕ, List, None, Some, true, false, length, min};
ghost use Rattle.vo_spec.specs.Conditions.{Query};
ghost use Rattle.vo_spec.specs.Replies.{max_reply};
ghost use Rattle.reply_stream.specs.Heads.{head_at};
ghost use Rattle.reply_stream.specs.ReplyHeads.{ReplyHead, head_size};
ghost use Rattle.reply_stream.specs.ReplyParts.{reply_parts};
ghost use Rattle.reply_stream.specs.ReplyTrees.{first_count};
ghost use Rattle.reply_stream.specs.declared.trees_summary.TreesSummary.{TreesSummary as PlainSummary};
ghost use Rattle.vo_check.specs.Streamed.{plan_for};
ghost use Rattle.vo_check.specs.Streaming.{IsBuffered, IsStreamed};
ghost use Rattle.vo_check.specs.Checkings.{HasHead, HoldsNeeded, StandsBehind, StaysWithin, is_out_of_memory};

use crate::progress::Progress;

/// How many bytes the progress holds.
pub(crate) fn held_in(progress: &Progress) -> usize
    ensures front { (q : Query) (bytes : List ℕ) → StandsBehind q progress.now bytes
        → IsStreamed q → (HasHead bytes → ⊥) → length bytes ≤ max_reply
        → is_out_of_memory progress.now ≡ false → (result ≡ length bytes)
        ⊎ ((result ≡ 0) × ((more : List ℕ) → head_at (bytes ++ more) ≡ None)) }
    ensures needed { (q : Query) (bytes : List ℕ) → StandsBehind q progress.now bytes
        → IsStreamed q → HasHead bytes → HoldsNeeded q bytes result }
    ensures kept { (q : Query) (bytes : List ℕ) → StandsBehind q progress.now bytes → IsBuffered q
        → length bytes ≤ max_reply → is_out_of_memory progress.now ≡ false
        → result ≡ length bytes }
    ensures found { (q : Query) (bytes : List ℕ) (head : ReplyHead) (trees : PlainSummary)
        → StandsBehind q progress.now bytes → IsStreamed q
        → reply_parts (plan_for q) bytes ≡ Some (head, trees) → length bytes ≤ max_reply
        → is_out_of_memory progress.now ≡ false
        → min (head_size head + first_count trees.first) (2 ^ 64 - 1) ≤ result }
    ensures over { (bytes : List ℕ) → StaysWithin progress.now bytes → max_reply < length bytes
        → result ≡ 0 }
    ensures out { is_out_of_memory progress.now ≡ true → result ≡ 0 }
{
    match progress {
        Progress::Head(stream) => stream.held(),
        Progress::Trees(reply) => reply.head.size().saturating_add(reply.trees.held()),
        Progress::Buffered(held) => held.len(),
        Progress::TooLong => 0,
        Progress::OutOfMemory => 0,
    }
}
