//! A tree whose bytes come in pieces.
ghost use Rattle.std.specs.Prelude.{◌≡◌, ◌⊎◌, ◌<◌, ◌-◌, ◌^◌, ◌++◌, ℕ, List, [], None, length, min, option_map, IsTrue, IsErr, IsOk, IfOk, IfSome, OnErr};
ghost use Rattle.vo_spec.specs.Bytes.{IsBytes};
ghost use Rattle.tree_stream.specs.Findings.{no_target};
ghost use Rattle.tree_stream.specs.Keeping.{rows_bytes};
ghost use Rattle.tree_stream.specs.Places.{HasNeededAndToken, HasNeededByte};
ghost use Rattle.tree_stream.specs.Summaries.{CanEnd, complete_digest as digest_where_complete, is_settled, summary_of_tree};
ghost use Rattle.tree_stream.specs.Tokens.{token_size};

use crate::accumulate::empty_findings;
use crate::context::Context;
use crate::findings::{Findings, Summary};
use crate::held::kept_count;
use crate::machine::Machine;
use crate::pieces::feed_piece;
use crate::state::State;
use crate::target::Target;
use arrayvec::ArrayVec;
use key_intervals::is_empty_interval;
use std::alloc::{AllocError, Global};
use vo_spec::Digest;

/// A reader of one tree. It holds no more of the bytes than a token that isn't whole.
#[derive(Drop)]
pub struct TreeStream {
    machine: Machine,
    partial: ArrayVec<u8, 1028>,
    ghost short: { length partial.items < token_size machine.state partial.items },
    ghost kept: { IsTrue (is_settled machine.state) → partial.items ≡ [] },
}

impl TreeStream {
    ghost use Rattle.tree_stream.specs.Streams.{IsBehind, IsSettled, held_in, summary_of, target_in};

    /// A reader that was given no bytes, of a tree that is read for a target.
    pub fn new(alloc: Global, target: Target) -> TreeStream
        ensures summary { (bytes : List ℕ)
            → summary_of result bytes ≡ summary_of_tree target bytes }
        ensures target { target_in result ≡ target }
        ensures behind { IsBehind result [] }
    {
        let visited = !is_empty_interval(&target.interval);
        TreeStream {
            machine: Machine {
                context: Context {
                    target,
                    ancestors: ArrayVec::new(),
                    findings: empty_findings(alloc),
                    last_key: ArrayVec::new(),
                },
                state: State::Node(visited),
            },
            partial: ArrayVec::new(),
        }
    }

    /// Takes the piece that comes next, up to the end of the tree, and gives the bytes behind that.
    /// Of bytes that are no tree it takes no more.
    pub fn feed<'b>(&mut self, alloc: Global, piece: &'b [u8]) -> Result<&'b [u8], AllocError>
        // It is as if the piece had stood in front of the bytes to come, but for what is left of
        // it.
        ensures ok { IfOk result (λ left. (more : List ℕ)
            → summary_of self.new (left.now ++ more) ≡ summary_of self.old (piece.now ++ more)) }

        // All of it is taken until the tree ends.
        ensures all { IfOk result (λ left. (left.now ≡ []) ⊎ IsSettled self.new) }

        ensures behind { IfOk result (λ left. (bytes : List ℕ) → IsBehind self.old bytes
            → (front : List ℕ) × (piece.now ≡ front ++ left.now)
            × IsBehind self.new (bytes ++ front)) }

        // Where memory ran out, no tree comes of it any more.
        ensures err { OnErr result ((more : List ℕ) → summary_of self.new more ≡ None) }

        // Memory runs out only while the bytes so far can still become a tree.
        ensures way { IsErr result → CanEnd (summary_of self.old) }
        ensures dead { ((more : List ℕ) → IsBytes more → summary_of self.old more ≡ None)
            → IsOk result }

        // It runs out only at a byte of the piece that is of a row whose key is in the interval,
        // as the bytes say that came.
        ensures memory { IsErr result → (bytes : List ℕ) → IsBehind self.old bytes
            → HasNeededByte (target_in self.old).interval bytes piece.now }

        // Read for no rows, it wants none.
        ensures quiet { target_in self.old ≡ no_target → IsOk result }
        ensures target { target_in self.new ≡ target_in self.old }
    {
        feed_piece(&mut self.machine, &mut self.partial, alloc, piece)
    }

    /// How many bytes are held: the keys of the rows that were found, their values as they are
    /// encoded, and a token that isn't whole. Rows are counted one by one.
    pub fn held(&self) -> usize
        ensures count { result ≡ min (held_in self.now) (2 ^ 64 - 1) }

        // No more than was needed, and a token.
        ensures within { (bytes : List ℕ) → IsBehind self.now bytes
            → HasNeededAndToken (target_in self.now).interval bytes result }
    {
        let kept = kept_count(&self.machine.context, &self.machine.state);
        kept.saturating_add(self.partial.len())
    }

    /// The digest and what was found, where the tree has ended.
    pub fn end(self) -> Option<Summary>
        ensures summary { result ≡ option_map (λ end. end.0) (summary_of self []) }
        ensures held { IfSome result (λ end. held_in self ≡ length (rows_bytes end.findings.rows)) }
    {
        let TreeStream { machine, .. } = self;
        let Machine { context, state } = machine;
        let findings = findings_of(context);
        match complete_digest(state) {
            Some(digest) => Some(Summary { digest, findings }),
            None => None,
        }
    }
}

/// What was found.
fn findings_of(context: Context) -> Findings
    ensures { result ≡ context.findings }
{
    let Context { findings, .. } = context;
    findings
}

/// The digest of a tree that is whole.
fn complete_digest(state: State) -> Option<Digest>
    ensures { result ≡ digest_where_complete state }
{
    match state {
        State::Node(_) => None,
        State::Separator(_) => None,
        State::Key(_) => None,
        State::Row(_) => None,
        State::Cell(_) => None,
        State::Complete(digest) => Some(digest),
        State::Invalid => None,
    }
}
