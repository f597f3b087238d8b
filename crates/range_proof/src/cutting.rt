//! Needs that are cut at a row.
ghost use Rattle.std.specs.Prelude.{◌≡◌, ◌-◌, ◌<◌, IfOk};
ghost use Rattle.std.specs.Option.{option_copied};
ghost use Rattle.vo_spec.specs.Walks.{walk};
ghost use Rattle.vo_spec.specs.Cuts.{nth_met, cut_need as need_cut};
ghost use Rattle.range_proof.specs.Searching.{IsKeyOf, need_up_to};

use crate::row_test::RowTest;
use crate::searching::{Search, search_tree};
use mb_tree::RowNode;
use std::alloc::{AllocError, Global};
use vo_spec::{Bound, Interval, Key, Need};

/// The need with no key above that of the n-th row that meets the condition, as far as the tree
/// shows it before it misses something; where there are fewer the need as it is. Rows are counted
/// from one, and none of them is before the first.
pub fn cut_need<N: RowNode, T: RowTest>(
    alloc: Global,
    tree: &N,
    need: Need,
    test: &T,
    n: u32,
) -> Result<Need, AllocError>
    requires { T.columns test.now ≡ need.columns }
    ensures { IfOk result (λ cut. cut ≡ need_cut need (T.meets test.now) n (N.tree tree.now)) }
{
    match nth_key(tree, &need, test, n) {
        None => Ok(need),
        Some(key) => cut_at_key(alloc, need, key),
    }
}

/// The key of the n-th row that meets the condition, if the walk gives it.
fn nth_key<'t, N: RowNode, T: RowTest>(
    tree: &'t N,
    need: &Need,
    test: &T,
    n: u32,
) -> Option<&'t [u8]>
    requires { T.columns test.now ≡ need.now.columns }
    ensures { IsKeyOf (option_copied result)
        (nth_met (T.meets test.now) n (walk need.now (N.tree tree.now)).rows) }
{
    match search_tree(tree, need, test, at_least_one(n)) {
        Search::Found(key) => Some(key),
        Search::Stopped | Search::Ended(_) => None,
    }
}

fn at_least_one(n: u32) -> u32
    ensures some { 0 < result }
    ensures place { result - 1 ≡ n - 1 }
{
    if n == 0 { 1 } else { n }
}

/// The need with no key above this.
fn cut_at_key(alloc: Global, need: Need, key: &[u8]) -> Result<Need, AllocError>
    ensures { IfOk result (λ cut. cut ≡ need_up_to need key.now) }
{
    let Need { interval, columns } = need;
    let high = Bound::Inclusive(Key::from_vec(Vec::from_slice(alloc, key)?));
    let interval = Interval {
        low: interval.low,
        high,
    };
    Ok(Need { interval, columns })
}
