//! How a node begins.
ghost use Rattle.std.specs.Prelude.{◌≡◌, [], ◌∷◌, ◌++◌, ◌≤◌, ℕ, List, length, reverse};
ghost use Rattle.vo_spec.specs.Fits.{max_fill};
ghost use Rattle.tree_stream.specs.Keeping.{KeepsAt, KeepsRows};
ghost use Rattle.tree_stream.specs.Positions.{IsBelow, StandsAt};
ghost use Rattle.tree_stream.specs.Remaining.{summary_at};
ghost use Rattle.tree_stream.specs.Summaries.{Yields, levels_below, summary_by};
ghost use Rattle.tree_stream.specs.Tokens.{node_size};

use crate::accumulate::{add_open_node, add_stub};
use crate::ancestors::end_node;
use crate::context::Context;
use crate::inner::next_separator;
use crate::leaves::next_entry;
use crate::parse::{NodeToken, parse_node};
use crate::state::State;
use arrayvec::ArrayVec;
use running_hash::RunningHash;
use vo_spec::Digest;

pub(crate) fn take_node(context: &mut Context, visited: bool, token: &[u8]) -> State
    requires { length token.now ≡ node_size token.now }
    ensures yields { Yields context.new result (λ rest. summary_by context.old
        (summary_at context.old.target (levels_below context.old.ancestors.items) visited)
        (token.now ++ rest)) }
    ensures stands { (bytes : List ℕ) → IsBelow (reverse context.old.ancestors.items) bytes
        → StandsAt context.new result (bytes ++ token.now) }
    ensures keeps { (bytes : List ℕ) → KeepsRows context.old bytes
        → KeepsAt context.new result (bytes ++ token.now) }
    ensures target { context.new.target ≡ context.old.target }
{
    match parse_node(token) {
        NodeToken::Stub(digest) => take_stub(context, visited, digest),
        NodeToken::Leaf(count) => take_leaf(context, visited, count),
        NodeToken::Inner(count) => take_inner(context, visited, count),
        NodeToken::Invalid => State::Invalid,
    }
}

fn take_stub(context: &mut Context, visited: bool, digest: Digest) -> State
    requires { length digest ≡ 32 }
    ensures yields { Yields context.new result (λ rest. summary_by context.old
        (summary_at context.old.target (levels_below context.old.ancestors.items) visited)
        (0 ∷ digest ++ rest)) }
    ensures stands { (bytes : List ℕ) → IsBelow (reverse context.old.ancestors.items) bytes
        → StandsAt context.new result (bytes ++ 0 ∷ digest) }
    ensures keeps { (bytes : List ℕ) → KeepsRows context.old bytes
        → KeepsAt context.new result (bytes ++ 0 ∷ digest) }
    ensures target { context.new.target ≡ context.old.target }
{
    add_stub(&mut context.findings, visited);
    end_node(context, digest)
}

fn take_leaf(context: &mut Context, visited: bool, count: u8) -> State
    requires { count ≤ max_fill }
    ensures yields { Yields context.new result (λ rest. summary_by context.old
        (summary_at context.old.target (levels_below context.old.ancestors.items) visited)
        (1 ∷ count ∷ rest)) }
    ensures stands { (bytes : List ℕ) → IsBelow (reverse context.old.ancestors.items) bytes
        → StandsAt context.new result (bytes ++ 1 ∷ count ∷ []) }
    ensures keeps { (bytes : List ℕ) → KeepsRows context.old bytes
        → KeepsAt context.new result (bytes ++ 1 ∷ count ∷ []) }
    ensures target { context.new.target ≡ context.old.target }
{
    add_open_node(&mut context.findings, visited);
    let mut hasher = RunningHash::new();
    hasher.add(&[3, count]);
    next_entry(context, hasher, count)
}

fn take_inner(context: &mut Context, visited: bool, count: u8) -> State
    requires least { 2 ≤ count }
    requires few { count ≤ max_fill }
    ensures yields { Yields context.new result (λ rest. summary_by context.old
        (summary_at context.old.target (levels_below context.old.ancestors.items) visited)
        (2 ∷ count ∷ rest)) }
    ensures stands { (bytes : List ℕ) → IsBelow (reverse context.old.ancestors.items) bytes
        → StandsAt context.new result (bytes ++ 2 ∷ count ∷ []) }
    ensures keeps { (bytes : List ℕ) → KeepsRows context.old bytes
        → KeepsAt context.new result (bytes ++ 2 ∷ count ∷ []) }
    ensures target { context.new.target ≡ context.old.target }
{
    add_open_node(&mut context.findings, visited);
    let mut hasher = RunningHash::new();
    hasher.add(&[4, count]);
    next_separator(context, hasher, visited, false, ArrayVec::new(), count - 1)
}
