//! The separators of an inner node.
ghost use Rattle.std.specs.Prelude.{◌≡◌, ◌++◌, ◌≤◌, ◌+◌, ◌-◌, ℕ, List, suc, length};
ghost use Rattle.std.specs.Option.{option_copied};
ghost use Rattle.vo_spec.specs.Fits.{max_fill};
ghost use Rattle.vo_spec.specs.Tables.{max_key};
ghost use Rattle.tree_stream.specs.Findings.{visits_child as visits_between};
ghost use Rattle.tree_stream.specs.Keeping.{KeepsAt, KeepsRows};
ghost use Rattle.tree_stream.specs.Positions.{IsInSeparators, StandsAt};
ghost use Rattle.tree_stream.specs.Remaining.{lower_separator as separator_below, rest_of_inner};
ghost use Rattle.tree_stream.specs.Summaries.{Yields, levels_below, summary_by};
ghost use Rattle.tree_stream.specs.Tokens.{string_size};

use crate::ancestors::next_child;
use crate::context::Context;
use crate::leaves::replace_key;
use crate::parse::parse_key;
use crate::state::{InnerHead, InnerNode, State};
use crate::target::Target;
use arrayvec::ArrayVec;
use key_intervals::visits;
use running_hash::RunningHash;

fn lower_separator(has_lower: bool, last_key: &[u8]) -> Option<&[u8]>
    ensures { option_copied result ≡ separator_below has_lower last_key.now }
{
    if has_lower { Some(last_key) } else { None }
}

fn visits_child(target: &Target, visited: bool, lower: Option<&[u8]>, upper: Option<&[u8]>) -> bool
    ensures { result ≡ visits_between target.now visited (option_copied lower.entry)
        (option_copied upper.entry) }
{
    visited && visits(&target.interval, lower, upper)
}

/// So many more separators, and then the children.
pub(crate) fn next_separator(
    context: &mut Context,
    hasher: RunningHash,
    visited: bool,
    has_lower: bool,
    mut child_visits: ArrayVec<bool, 16>,
    left: u8,
) -> State
    requires { length child_visits.items + (left + 1) ≤ max_fill }
    ensures yields { Yields context.new result (summary_by context.old
        (rest_of_inner context.old.target
        (levels_below context.old.ancestors.items - 1) visited hasher child_visits.items
        (separator_below has_lower context.old.last_key.items) left)) }
    ensures stands { (bytes : List ℕ)
        → IsInSeparators context.old.ancestors.items (length child_visits.items) left bytes
        → StandsAt context.new result bytes }
    ensures keeps { (bytes : List ℕ) → KeepsRows context.old bytes
        → KeepsAt context.new result bytes }
    ensures target { context.new.target ≡ context.old.target }
{
    if left > 0 {
        return State::Separator(InnerHead {
            hasher,
            visited,
            has_lower,
            child_visits,
            left: left - 1,
        });
    }
    let lower = lower_separator(has_lower, context.last_key.as_slice());
    child_visits.push(visits_child(&context.target, visited, lower, None));
    next_child(
        context,
        InnerNode {
            hasher,
            child_visits,
        },
    )
}

pub(crate) fn take_separator(context: &mut Context, head: InnerHead, token: &[u8]) -> State
    requires { length token.now ≡ string_size max_key token.now }
    ensures yields { Yields context.new result (λ rest. summary_by context.old
        (rest_of_inner context.old.target (levels_below context.old.ancestors.items - 1)
        head.visited head.hasher head.child_visits.items
        (separator_below head.has_lower context.old.last_key.items) (suc head.left))
        (token.now ++ rest)) }
    ensures stands { (bytes : List ℕ) → IsInSeparators context.old.ancestors.items
        (length head.child_visits.items) (suc head.left) bytes
        → StandsAt context.new result (bytes ++ token.now) }
    ensures keeps { (bytes : List ℕ) → KeepsRows context.old bytes
        → KeepsAt context.new result (bytes ++ token.now) }
    ensures target { context.new.target ≡ context.old.target }
{
    match parse_key(token) {
        None => State::Invalid,
        Some(separator) => {
            let InnerHead {
                mut hasher,
                visited,
                has_lower,
                mut child_visits,
                left,
            } = head;
            hasher.add(token);
            let lower = lower_separator(has_lower, context.last_key.as_slice());
            child_visits.push(visits_child(&context.target, visited, lower, Some(separator)));
            replace_key(&mut context.last_key, separator);
            next_separator(context, hasher, visited, true, child_visits, left)
        },
    }
}
