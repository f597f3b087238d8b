//! A child that may be underfull borrows from its sibling, or is merged with it.
ghost use Rattle.std.specs.Prelude.{◌≡◌, ◌≤◌, ◌<◌, ◌+◌, zero, suc, length, map, IfOk, Ok};
ghost use Rattle.vo_spec.specs.Parts.{Part};
ghost use Rattle.vo_spec.specs.Fits.{max_fill};
ghost use Rattle.vo_spec.specs.Inserts.{min_fill, result_map};
ghost use Rattle.vo_spec.specs.Removes.{with_left as even_with_left, with_right as even_with_right};
ghost use Rattle.btree.specs.Answers.{Answers};
ghost use Rattle.btree.specs.Nodes.{parts_from, contents_of, IsContents, AreSiblings};
ghost use Rattle.btree.specs.Splices.{node_of, rebalance_at, rebalance_with_sibling, merge_nodes, divide_merged, CanDivide, EvenLimits};
ghost use Rattle.btree.specs.Shapes.{size_of, IsShaped, AreShaped, IsLinked, IsWithin};

use crate::contents::{fill_of, put_siblings};
use crate::limits::MIN_FILL;
use crate::merge::{clone_contents, merge};
use crate::node::{Contents, TreeNode};
use crate::siblings::Siblings;
use crate::split::divide;
use crate::steps::sibling_of;
use std::alloc::{AllocError, Global};
use vo_spec::UpdateFault;

/// The node with this in the place of the child of this number.
pub fn rebalance<N: TreeNode>(
    alloc: Global,
    separators: &[N::Key],
    children: &[N],
    place: usize,
    child: Contents<N::Key, N::Entry, N>,
) -> Result<Contents<N::Key, N::Entry, N>, UpdateFault>
    requires at { place < length children.now }
    requires least { 2 ≤ length children.now }
    requires most { length children.now ≤ max_fill }
    requires between { length separators.now + 1 ≡ length children.now }
    requires shaped { AreShaped (parts_from (map N.kid children.now)) }
    requires loose { IsWithin 1 (contents_of N.Key.key N.entry N.kid child) }
    ensures value { Answers (IsContents N.Key.key N.entry N.kid) result
        (result_map node_of (rebalance_at N.family place (map N.Key.key separators.now)
        (map N.kid children.now) (contents_of N.Key.key N.entry N.kid child))) }
    ensures loose { IfOk result (λ contents.
        IsWithin 1 (contents_of N.Key.key N.entry N.kid contents)) }
{
    if fill_of::<N>(&child) >= MIN_FILL {
        return put_child(alloc, separators, children, place, child);
    }
    let sibling = sibling_of(place);
    if sibling > place {
        return rebalance_first(alloc, separators, children, child);
    }
    rebalance_next(alloc, separators, children, sibling, child)
}

/// The node with one of these contents in the place of the child of this number.
fn put_child<N: TreeNode>(
    alloc: Global,
    separators: &[N::Key],
    children: &[N],
    place: usize,
    child: Contents<N::Key, N::Entry, N>,
) -> Result<Contents<N::Key, N::Entry, N>, UpdateFault>
    requires at { place < length children.now }
    requires least { 2 ≤ length children.now }
    requires most { length children.now ≤ max_fill }
    requires between { length separators.now + 1 ≡ length children.now }
    requires loose { IsWithin 1 (contents_of N.Key.key N.entry N.kid child) }
    requires enough { min_fill ≤ size_of (contents_of N.Key.key N.entry N.kid child) }
    ensures value { Answers (IsContents N.Key.key N.entry N.kid) result
        (result_map node_of (rebalance_at N.family place (map N.Key.key separators.now)
        (map N.kid children.now) (contents_of N.Key.key N.entry N.kid child))) }
    ensures loose { IfOk result (λ contents.
        IsWithin 1 (contents_of N.Key.key N.entry N.kid contents)) }
{
    let siblings = Siblings::one(alloc, N::close(alloc, child)?)?;
    Ok(put_siblings(alloc, separators, children, place, place, siblings)?)
}

/// With an underfull first child, and the one after it.
fn rebalance_first<N: TreeNode>(
    alloc: Global,
    separators: &[N::Key],
    children: &[N],
    child: Contents<N::Key, N::Entry, N>,
) -> Result<Contents<N::Key, N::Entry, N>, UpdateFault>
    requires least { 2 ≤ length children.now }
    requires most { length children.now ≤ max_fill }
    requires between { length separators.now + 1 ≡ length children.now }
    requires shaped { AreShaped (parts_from (map N.kid children.now)) }
    requires loose { IsWithin 1 (contents_of N.Key.key N.entry N.kid child) }
    requires underfull { size_of (contents_of N.Key.key N.entry N.kid child) < min_fill }
    ensures value { Answers (IsContents N.Key.key N.entry N.kid) result
        (result_map node_of (rebalance_with_sibling N.family zero (map N.Key.key separators.now)
        (map N.kid children.now) (contents_of N.Key.key N.entry N.kid child))) }
    ensures loose { IfOk result (λ contents.
        IsWithin 1 (contents_of N.Key.key N.entry N.kid contents)) }
{
    match rebalance_with_right::<N>(alloc, child, &separators[0], children[1].tree()) {
        Ok(siblings) => Ok(put_siblings(alloc, separators, children, 0, 1, siblings)?),
        Err(fault) => Err(fault),
    }
}

/// With an underfull child after that of this number, and that one.
fn rebalance_next<N: TreeNode>(
    alloc: Global,
    separators: &[N::Key],
    children: &[N],
    left: usize,
    child: Contents<N::Key, N::Entry, N>,
) -> Result<Contents<N::Key, N::Entry, N>, UpdateFault>
    requires at { left + 1 < length children.now }
    requires most { length children.now ≤ max_fill }
    requires between { length separators.now + 1 ≡ length children.now }
    requires shaped { AreShaped (parts_from (map N.kid children.now)) }
    requires loose { IsWithin 1 (contents_of N.Key.key N.entry N.kid child) }
    requires underfull { size_of (contents_of N.Key.key N.entry N.kid child) < min_fill }
    ensures value { Answers (IsContents N.Key.key N.entry N.kid) result
        (result_map node_of (rebalance_with_sibling N.family (suc left)
        (map N.Key.key separators.now) (map N.kid children.now)
        (contents_of N.Key.key N.entry N.kid child))) }
    ensures loose { IfOk result (λ contents.
        IsWithin 1 (contents_of N.Key.key N.entry N.kid contents)) }
{
    match rebalance_with_left::<N>(alloc, children[left].tree(), &separators[left], child) {
        Ok(siblings) => Ok(put_siblings(alloc, separators, children, left, left + 1, siblings)?),
        Err(fault) => Err(fault),
    }
}

/// What comes of an underfull node and its left sibling, with the separator between them.
fn rebalance_with_left<N: TreeNode>(
    alloc: Global,
    left: &N::Tree,
    separator: &N::Key,
    node: Contents<N::Key, N::Entry, N>,
) -> Result<Siblings<N::Key, N>, UpdateFault>
    requires shaped { IsShaped (N.seen left.now) }
    requires loose { IsWithin 1 (contents_of N.Key.key N.entry N.kid node) }
    requires underfull { size_of (contents_of N.Key.key N.entry N.kid node) < min_fill }
    ensures { Answers (AreSiblings N.family N.Key.key N.kid) result
        (even_with_left N.family (N.seen left.now) (N.Key.key separator.now)
        (contents_of N.Key.key N.entry N.kid node)) }
{
    let first = clone_contents::<N>(alloc, left)?;
    let fill = fill_of::<N>(&first);
    even_out::<N>(alloc, first, separator, node, fill, fill.saturating_sub(1))
}

/// What comes of an underfull node and its right sibling, with the separator between them.
fn rebalance_with_right<N: TreeNode>(
    alloc: Global,
    node: Contents<N::Key, N::Entry, N>,
    separator: &N::Key,
    right: &N::Tree,
) -> Result<Siblings<N::Key, N>, UpdateFault>
    requires shaped { IsShaped (N.seen right.now) }
    requires loose { IsWithin 1 (contents_of N.Key.key N.entry N.kid node) }
    requires underfull { size_of (contents_of N.Key.key N.entry N.kid node) < min_fill }
    ensures { Answers (AreSiblings N.family N.Key.key N.kid) result
        (even_with_right N.family (contents_of N.Key.key N.entry N.kid node)
        (N.Key.key separator.now) (N.seen right.now)) }
{
    let at = fill_of::<N>(&node) + 1;
    let second = clone_contents::<N>(alloc, right)?;
    let fill = fill_of::<N>(&second);
    even_out::<N>(alloc, node, separator, second, fill, at)
}

/// The two made one, and divided again before this place where the sibling, which had so many, had
/// more than it needs.
fn even_out<N: TreeNode>(
    alloc: Global,
    first: Contents<N::Key, N::Entry, N>,
    separator: &N::Key,
    second: Contents<N::Key, N::Entry, N>,
    sibling: usize,
    at: usize,
) -> Result<Siblings<N::Key, N>, UpdateFault>
    requires { (all : Part N.Plain N.Annotation)
        → merge_nodes (contents_of N.Key.key N.entry N.kid first) (N.Key.key separator.now)
        (contents_of N.Key.key N.entry N.kid second) ≡ Ok all
        → EvenLimits sibling at all }
    ensures { Answers (AreSiblings N.family N.Key.key N.kid) result
        (result_map (divide_merged N.family sibling at)
        (merge_nodes (contents_of N.Key.key N.entry N.kid first) (N.Key.key separator.now)
        (contents_of N.Key.key N.entry N.kid second))) }
{
    let all = merge::<N>(alloc, first, separator, second)?;
    Ok(divide_where_more::<N>(alloc, all, sibling, at)?)
}

/// The two that were merged, divided again before this place where the sibling had more than it
/// needs.
fn divide_where_more<N: TreeNode>(
    alloc: Global,
    all: Contents<N::Key, N::Entry, N>,
    sibling: usize,
    at: usize,
) -> Result<Siblings<N::Key, N>, AllocError>
    requires linked { IsLinked 2 (contents_of N.Key.key N.entry N.kid all) }
    requires whole { sibling ≤ min_fill
        → size_of (contents_of N.Key.key N.entry N.kid all) ≤ max_fill }
    requires two { min_fill < sibling → CanDivide at (contents_of N.Key.key N.entry N.kid all) }
    requires first { at ≤ max_fill }
    requires last { size_of (contents_of N.Key.key N.entry N.kid all) ≤ at + max_fill }
    ensures { IfOk result (λ siblings.
        AreSiblings N.family N.Key.key N.kid siblings
        (divide_merged N.family sibling at (contents_of N.Key.key N.entry N.kid all))) }
{
    if sibling <= MIN_FILL {
        return Siblings::one(alloc, N::close(alloc, all)?);
    }
    divide::<N>(alloc, all, at)
}
