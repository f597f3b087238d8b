//! Whether a part of a totals tree is the proof for an interval.
ghost use Rattle.std.specs.Prelude.{◌≡◌, not, None};
ghost use Rattle.std.specs.Option.{option_copied};
ghost use Rattle.vo_spec.specs.Pruning.{is_missing_by, is_missing_in, has_surplus_by, has_surplus_in};
ghost use Rattle.totals_laws.specs.TotalsProofs.{is_missing, has_surplus, root_reach, reach, totals_walk, visited};
ghost use Rattle.totals_laws.specs.TotalsCollisions.{is_open as stands_open};
ghost use Rattle.mb_sum.specs.Meetings.{FindsOrMissing};
ghost use Rattle.mb_sum.specs.Views.{part_of, parts_of};

use crate::meetings::{Meeting, end_of_child, meet_child};
use crate::parts::{PartTotals, TotalChild};
use key_intervals::is_empty_interval;
use vo_spec::{Interval, KeyPart, ScanFault};

/// Whether exactly the nodes that the interval visits are open, if they all are.
pub fn is_canonical_totals(tree: &PartTotals<'_>, interval: &Interval) -> Result<bool, ScanFault>
    ensures { FindsOrMissing result (is_missing interval.now (part_of tree.now))
        (λ canonical. canonical ≡ not (has_surplus interval.now (part_of tree.now))) }
{
    match judge_root(tree, interval) {
        Ok(surplus) => Ok(!surplus),
        Err(fault) => Err(fault),
    }
}

fn judge_root(tree: &PartTotals<'_>, interval: &Interval) -> Result<bool, ScanFault>
    ensures { FindsOrMissing result (is_missing interval.now (part_of tree.now))
        (λ surplus. surplus ≡ has_surplus interval.now (part_of tree.now)) }
{
    if is_empty_interval(interval) {
        return Ok(is_open(tree));
    }
    judge(tree, interval, None, None)
}

/// Whether a node that is visited has an open node below it that isn't to be open.
#[cycle(judge)]
fn judge<'s>(
    tree: &'s PartTotals<'_>,
    interval: &Interval,
    lower: Option<&'s [u8]>,
    end: Option<&'s [u8]>,
) -> Result<bool, ScanFault>
    ensures { let r = visited (option_copied lower.entry) (option_copied end.entry) in
        FindsOrMissing result (is_missing_by (totals_walk interval.now) r (part_of tree.now))
        (λ surplus. surplus ≡ has_surplus_by (totals_walk interval.now) r (part_of tree.now)) }
{
    match tree {
        PartTotals::Stub(_) => Err(ScanFault::Missing),
        PartTotals::Leaf(_) => Ok(false),
        PartTotals::Inner {
            separators,
            children,
        } => judge_children(
            separators.as_slice(),
            children.as_slice(),
            interval,
            lower,
            end,
        ),
    }
}

#[cycle(judge)]
fn judge_children<'s>(
    separators: &'s [KeyPart<'_>],
    children: &'s [TotalChild<'_>],
    interval: &Interval,
    lower: Option<&'s [u8]>,
    end: Option<&'s [u8]>,
) -> Result<bool, ScanFault>
    ensures { let r = visited (option_copied lower.entry) (option_copied end.entry) in
        FindsOrMissing result
        (is_missing_in (totals_walk interval.now) r None separators.now (parts_of children.now))
        (λ surplus. surplus ≡ has_surplus_in (totals_walk interval.now) r None separators.now
        (parts_of children.now)) }
{
    let mut surplus = false;
    let mut start = lower;
    for (place, child) in children.iter().enumerate() {
        let upper = end_of_child(separators, place, end);
        match judge_child(child, interval, start, upper) {
            Ok(more) => surplus = surplus || more,
            Err(fault) => return Err(fault),
        }
        start = upper;
    }
    Ok(surplus)
}

#[cycle(judge)]
fn judge_child<'s>(
    child: &'s TotalChild<'_>,
    interval: &Interval,
    lower: Option<&'s [u8]>,
    upper: Option<&'s [u8]>,
) -> Result<bool, ScanFault>
    ensures { let r = reach interval.now (option_copied lower.entry) (option_copied upper.entry) in
        FindsOrMissing result (is_missing_by (totals_walk interval.now) r (part_of child.now.tree))
        (λ surplus. surplus
        ≡ has_surplus_by (totals_walk interval.now) r (part_of child.now.tree)) }
{
    match meet_child(interval, lower, upper) {
        Meeting::Passed => Ok(is_open(&child.tree)),
        Meeting::Taken => Ok(is_open(&child.tree)),
        Meeting::Visited => judge(&child.tree, interval, lower, upper),
    }
}

fn is_open(tree: &PartTotals<'_>) -> bool
    ensures { result ≡ stands_open (part_of tree.now) }
{
    match tree {
        PartTotals::Stub(_) => false,
        PartTotals::Leaf(_) => true,
        PartTotals::Inner { .. } => true,
    }
}
