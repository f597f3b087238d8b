//! A node of too many made two.
ghost use Rattle.std.specs.Prelude.{◌≡◌, ◌≤◌, ◌<◌, ◌+◌, length, map, IfOk};
ghost use Rattle.vo_spec.specs.Parts.{leaf, inner};
ghost use Rattle.vo_spec.specs.Fits.{max_fill};
ghost use Rattle.vo_spec.specs.Inserts.{two};
ghost use Rattle.btree.specs.Nodes.{contents_of, parts_from, AreSiblings};
ghost use Rattle.btree.specs.Splices.{split as split_of, divide_at, CanDivide, AreDivided};
ghost use Rattle.btree.specs.Shapes.{size_of, IsLinked, IsWithin};

use crate::contents::fill_of;
use crate::limits::{MAX_FILL, MIN_FILL};
use crate::node::{Contents, TreeNode};
use crate::siblings::Siblings;
use std::alloc::{AllocError, Global};

/// The node of these contents, or two where there is one too many.
pub fn split<N: TreeNode>(
    alloc: Global,
    contents: Contents<N::Key, N::Entry, N>,
) -> Result<Siblings<N::Key, N>, AllocError>
    requires linked { IsLinked 2 (contents_of N.Key.key N.entry N.kid contents) }
    requires most { size_of (contents_of N.Key.key N.entry N.kid contents) ≤ max_fill + 1 }
    ensures { IfOk result (λ siblings.
        AreSiblings N.family N.Key.key N.kid siblings
        (split_of N.family (contents_of N.Key.key N.entry N.kid contents))) }
{
    if fill_of::<N>(&contents) <= MAX_FILL {
        return Siblings::one(alloc, N::close(alloc, contents)?);
    }
    divide::<N>(alloc, contents, MIN_FILL)
}

/// Two nodes of these contents, the left one with so many entries or children.
pub fn divide<N: TreeNode>(
    alloc: Global,
    contents: Contents<N::Key, N::Entry, N>,
    at: usize,
) -> Result<Siblings<N::Key, N>, AllocError>
    requires linked { IsLinked 2 (contents_of N.Key.key N.entry N.kid contents) }
    requires two { CanDivide at (contents_of N.Key.key N.entry N.kid contents) }
    requires first { at ≤ max_fill }
    requires last { size_of (contents_of N.Key.key N.entry N.kid contents) ≤ at + max_fill }
    ensures { IfOk result (λ siblings.
        AreSiblings N.family N.Key.key N.kid siblings
        (divide_at N.family at (contents_of N.Key.key N.entry N.kid contents))) }
{
    match contents {
        Contents::Leaf(entries) => divide_leaf::<N>(alloc, entries, at),
        Contents::Inner {
            separators,
            children,
        } => divide_inner::<N>(alloc, separators, children, at),
    }
}

fn divide_leaf<N: TreeNode>(
    alloc: Global,
    entries: Vec<N::Entry>,
    at: usize,
) -> Result<Siblings<N::Key, N>, AllocError>
    requires within { at < length entries.items }
    requires first { at ≤ max_fill }
    requires last { length entries.items ≤ at + max_fill }
    ensures { IfOk result (λ siblings.
        AreSiblings N.family N.Key.key N.kid siblings
        (divide_at N.family at (leaf (map N.entry entries.items)))) }
{
    let mut left = entries;
    let right = left.split_off(at)?;
    let separator = N::separator(alloc, &right[0])?;
    close_both(
        alloc,
        Contents::Leaf(left),
        separator,
        Contents::Leaf(right),
    )
}

fn divide_inner<N: TreeNode>(
    alloc: Global,
    separators: Vec<N::Key>,
    children: Vec<N>,
    at: usize,
) -> Result<Siblings<N::Key, N>, AllocError>
    requires least { 2 ≤ at }
    requires within { at + 2 ≤ length children.items }
    requires first { at ≤ max_fill }
    requires last { length children.items ≤ at + max_fill }
    requires between { length separators.items + 1 ≡ length children.items }
    ensures { IfOk result (λ siblings. AreSiblings N.family N.Key.key N.kid siblings
        (divide_at N.family at (inner (map N.Key.key separators.items)
        (parts_from (map N.kid children.items))))) }
{
    let division = divide_lists(separators, children, at)?;
    let left = Contents::Inner {
        separators: division.before,
        children: division.left,
    };
    let right = Contents::Inner {
        separators: division.after,
        children: division.right,
    };
    close_both(alloc, left, division.separator, right)
}

/// Two nodes of these contents, with this separator between them.
fn close_both<N: TreeNode>(
    alloc: Global,
    left: Contents<N::Key, N::Entry, N>,
    separator: N::Key,
    right: Contents<N::Key, N::Entry, N>,
) -> Result<Siblings<N::Key, N>, AllocError>
    requires left { IsWithin 2 (contents_of N.Key.key N.entry N.kid left) }
    requires right { IsWithin 2 (contents_of N.Key.key N.entry N.kid right) }
    ensures { IfOk result (λ siblings. AreSiblings N.family N.Key.key N.kid siblings
        (two (contents_of N.Key.key N.entry N.kid left) (N.Key.key separator)
        (contents_of N.Key.key N.entry N.kid right))) }
{
    let left = N::close(alloc, left)?;
    let right = N::close(alloc, right)?;
    Siblings::two(alloc, left, separator, right)
}

/// What goes left, the separator between, and what goes right.
#[derive(Drop)]
pub struct Division<K, N> {
    pub before: Vec<K>,
    pub left: Vec<N>,
    pub separator: K,
    pub after: Vec<K>,
    pub right: Vec<N>,
}

/// So many of the children go left, and as many separators, of which the last goes between.
fn divide_lists<K: Drop, N: Drop>(
    separators: Vec<K>,
    children: Vec<N>,
    at: usize,
) -> Result<Division<K, N>, AllocError>
    requires some { 0 < at }
    requires keys { at ≤ length separators.items }
    requires children { at ≤ length children.items }
    ensures { IfOk result (λ division. AreDivided at division separators.items children.items) }
{
    let mut left = children;
    let right = left.split_off(at)?;
    let mut before = separators;
    let after = before.split_off(at)?;
    match before.pop() {
        Some(separator) => Ok(Division {
            before,
            left,
            separator,
            after,
            right,
        }),
        None => unreachable!(),
    }
}
