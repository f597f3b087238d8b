//! What is read in pieces, in the terms of replies.
ghost use Rattle.std.specs.Prelude.{◌≡◌, ◌+◌, ℕ, List, Some, option_map};
ghost use Rattle.vo_spec.specs.Bytes.{IsBytes};
ghost use Rattle.vo_spec.specs.Replies.{IsReply, Reply};
ghost use Rattle.row_bytes.specs.Fields.{whole};
ghost use Rattle.tree_stream.specs.declared.target.Target.{Target};
ghost use Rattle.vo_format.specs.Reading.{reply_at};
ghost use Rattle.reply_stream.specs.ReplyHeads.{ReplyHead};
ghost use Rattle.reply_stream.specs.Lengths.{count_up_to_most};
ghost use Rattle.reply_stream.specs.ReplyParts.{Parts, parts_of, reply_parts};

/// Reading the head and then the trees is reading the reply, and looking at its parts.
pub fn replies_are_read_in_parts()
    ensures { (plan : ReplyHead → Target) (bytes : List ℕ)
        → reply_parts plan bytes ≡ option_map (parts_of plan) (whole (reply_at bytes)) }
{}

/// Parts are read exactly where the bytes are a reply, and they are its parts.
pub fn replies_have_their_parts()
    ensures again { (plan : ReplyHead → Target) (bytes : List ℕ) (r : Reply) → IsReply bytes r
        → reply_parts plan bytes ≡ Some (parts_of plan r) }
    ensures only { (plan : ReplyHead → Target) (bytes : List ℕ) (parts : Parts) → IsBytes bytes
        → reply_parts plan bytes ≡ Some parts
        → (r : Reply) × IsReply bytes r × (parts ≡ parts_of plan r) }
{}

/// Lengths of pieces that are counted one after the other are counted as their sum.
pub fn lengths_add_up()
    ensures { (a b : ℕ) → count_up_to_most (count_up_to_most a + b) ≡ count_up_to_most (a + b) }
{}
