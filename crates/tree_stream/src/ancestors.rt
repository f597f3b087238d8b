//! From a node that ends up to its ancestors, and down to their next children.
ghost use Rattle.std.specs.Prelude.{◌≡◌, ◌-◌, ◌<◌, ◌++◌, ℕ, List, length, reverse};
ghost use Rattle.vo_spec.specs.Fits.{FitsPart};
ghost use Rattle.vo_spec.specs.TreeBytes.{tree_bytes};
ghost use Rattle.vo_spec.specs.Trees.{RowTree};
ghost use Rattle.tree_stream.specs.Keeping.{KeepsAt, KeepsRows};
ghost use Rattle.tree_stream.specs.Places.{IsInnerFront};
ghost use Rattle.tree_stream.specs.Positions.{IsBelow, StandsAt};
ghost use Rattle.tree_stream.specs.Remaining.{rest_of_children};
ghost use Rattle.tree_stream.specs.Summaries.{Yields, levels_below, summary_after, summary_by};

use crate::context::Context;
use crate::state::{InnerNode, State};
use vo_spec::Digest;

/// Reads the next child of a node, which becomes the last of the ancestors.
pub(crate) fn next_child(context: &mut Context, node: InnerNode) -> State
    requires { 0 < length node.child_visits.items }
    ensures yields { Yields context.new result (summary_by context.old
        (rest_of_children context.old.target (levels_below context.old.ancestors.items - 1)
        node.hasher node.child_visits.items)) }
    ensures stands { (above parent : List ℕ) → IsBelow (reverse context.old.ancestors.items) above
        → IsInnerFront parent (length node.child_visits.items)
        → StandsAt context.new result (above ++ parent) }
    ensures keeps { (bytes : List ℕ) → KeepsRows context.old bytes
        → KeepsAt context.new result bytes }
    ensures target { context.new.target ≡ context.old.target }
{
    if context.ancestors.is_full() {
        return State::Invalid;
    }
    let InnerNode {
        hasher,
        mut child_visits,
    } = node;
    let visited = child_visits.remove(0);
    context.ancestors.push(InnerNode {
        hasher,
        child_visits,
    });
    State::Node(visited)
}

/// A node with this digest ends.
pub(crate) fn end_node(context: &mut Context, digest: Digest) -> State
    ensures yields { Yields context.new result (summary_after context.old.target
        (reverse context.old.ancestors.items) digest context.old.findings) }
    ensures stands { (above : List ℕ) (p : RowTree)
        → IsBelow (reverse context.old.ancestors.items) above → FitsPart p
        → StandsAt context.new result (above ++ tree_bytes p) }
    ensures keeps { (bytes : List ℕ) → KeepsRows context.old bytes
        → KeepsAt context.new result bytes }
    ensures target { context.new.target ≡ context.old.target }
{
    match context.ancestors.pop() {
        None => State::Complete(digest),
        Some(
            InnerNode {
                mut hasher,
                child_visits,
            },
        ) => {
            hasher.add(digest.as_bytes());
            if child_visits.is_empty() {
                end_node(context, hasher.digest())
            } else {
                next_child(
                    context,
                    InnerNode {
                        hasher,
                        child_visits,
                    },
                )
            }
        },
    }
}
