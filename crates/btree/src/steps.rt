//! What a change looks at of the nodes on its path, told without making a node.
ghost use Rattle.std.specs.Prelude.{◌≡◌, ◌≤◌, ◌<◌, ◌+◌, false, length, map, get_or};
ghost use Rattle.std.specs.List.{position_or_len};
ghost use Rattle.vo_spec.specs.Parts.{leaf, inner};
ghost use Rattle.vo_spec.specs.Values.{key_lt as is_less};
ghost use Rattle.btree.specs.Nodes.{parts_from};
ghost use Rattle.btree.specs.Shapes.{size_of};
ghost use Rattle.btree.specs.Steps.{sibling_of as sibling_number, size_if_alike as alike_size, count_remaining, remaining_by, opens_sibling_by};

use crate::keyed_item::{KeyedItem, has_key, position_above};
use crate::limits::MIN_FILL;
use crate::node::{NodeView, TreeNode};
use vo_spec::UpdateFault;

/// What a change at a key looks at of an inner node's children.
#[derive(Clone, Copy, Drop)]
pub struct Step {
    /// The number of the child to which the search for the key goes, if there are so many.
    pub child: usize,
    /// Whether that child is left underfull, so that its sibling is opened.
    pub opens_sibling: bool,
}

/// The step of a change that leaves no node underfull.
pub fn search_step<K: KeyedItem>(separators: &[K], key: &[u8]) -> Step
    ensures child { result.child ≡ position_or_len
        (λ separator. is_less key.now (K.key separator)) separators.now }
    ensures within { result.child ≤ length separators.now }
    ensures opens_sibling { result.opens_sibling ≡ false }
{
    Step {
        child: position_above(separators, key),
        opens_sibling: false,
    }
}

/// The step of a removal.
pub fn removal_step<N: TreeNode>(separators: &[N::Key], children: &[N], key: &[u8]) -> Step
    ensures child { result.child ≡ position_or_len
        (λ separator. is_less key.now (N.Key.key separator)) separators.now }
    ensures within { result.child ≤ length separators.now }
    ensures opens_sibling { (child : N) → result.child < length children.now
        → child ≡ get_or children.now result.child child
        → result.opens_sibling ≡ opens_sibling_by N.family key.now (N.kid child).1 }
    ensures beyond { length children.now ≤ result.child → result.opens_sibling ≡ false }
{
    let child = position_above(separators, key);
    let opens_sibling = child < children.len()
        && is_left_underfull::<N>(children[child].tree(), key);
    Step {
        child,
        opens_sibling,
    }
}

/// How many entries or children a node has.
fn fill_of<N: TreeNode>(tree: &N::Tree) -> usize
    ensures { result ≡ size_of (N.seen tree.now) }
{
    match N::open(tree) {
        NodeView::Stub(_) => 0,
        NodeView::Leaf(entries) => entries.len(),
        NodeView::Inner { children, .. } => children.len(),
    }
}

/// Whether a removal leaves the node underfull. One that has more than it needs loses one at most,
/// so that nothing below it has to be looked at.
fn is_left_underfull<N: TreeNode>(tree: &N::Tree, key: &[u8]) -> bool
    ensures { result ≡ opens_sibling_by N.family key.now (N.seen tree.now) }
{
    if fill_of::<N>(tree) > MIN_FILL {
        return false;
    }
    match remaining::<N>(tree, key) {
        Ok(left) => left < MIN_FILL,
        Err(_) => false,
    }
}

/// How many entries or children remain in a node when the entry of this key is removed from it or
/// from below it, and each node below that is underfull then has been rebalanced with its sibling.
#[cycle(remaining)]
pub fn remaining<N: TreeNode>(tree: &N::Tree, key: &[u8]) -> Result<usize, UpdateFault>
    ensures { result ≡ remaining_by N.family key.now (N.seen tree.now) }
{
    match N::open(tree) {
        NodeView::Stub(_) => Err(UpdateFault::Missing),
        NodeView::Leaf(entries) => remaining_entries::<N>(entries, key),
        NodeView::Inner {
            separators,
            children,
        } => remaining_children(separators, children, key),
    }
}

fn remaining_entries<N: TreeNode>(entries: &[N::Entry], key: &[u8]) -> Result<usize, UpdateFault>
    ensures { result ≡ remaining_by N.family key.now (leaf (map N.entry entries.now)) }
{
    if has_key(entries, key) {
        Ok(entries.len() - 1)
    } else {
        Err(UpdateFault::NoRow)
    }
}

#[cycle(remaining)]
fn remaining_children<N: TreeNode>(
    separators: &[N::Key],
    children: &[N],
    key: &[u8],
) -> Result<usize, UpdateFault>
    ensures { result ≡ remaining_by N.family key.now
        (inner (map N.Key.key separators.now) (parts_from (map N.kid children.now))) }
{
    let place = position_above(separators, key);
    if place >= children.len() {
        return Err(UpdateFault::Missing);
    }
    let child = children[place].tree();
    match remaining::<N>(child, key) {
        Ok(left) => remaining_with_sibling(children, place, child, left),
        Err(fault) => Err(fault),
    }
}

/// How many children remain when this one, of this number, has so many entries or children left.
fn remaining_with_sibling<N: TreeNode>(
    children: &[N],
    place: usize,
    child: &N::Tree,
    left: usize,
) -> Result<usize, UpdateFault>
    requires { place < length children.now }
    ensures { result ≡ count_remaining place (map (λ n. (N.kid n).1) children.now)
        (N.seen child.now) left }
{
    let sibling = sibling_of(place);
    if left >= MIN_FILL || sibling >= children.len() {
        return Ok(children.len());
    }
    match size_if_alike::<N>(child, children[sibling].tree()) {
        Some(size) if size > MIN_FILL => Ok(children.len()),
        Some(_) => Ok(children.len() - 1),
        None => Err(UpdateFault::Missing),
    }
}

/// The number of the sibling with which the child of this number is rebalanced.
pub fn sibling_of(place: usize) -> usize
    ensures value { result ≡ sibling_number place }
    ensures within { result ≤ place + 1 }
    ensures before { 0 < place → result < place }
    ensures first { place < result → place ≡ 0 }
    ensures next { result ≤ place → place ≡ result + 1 }
{
    if place == 0 { 1 } else { place - 1 }
}

/// How many entries or children the sibling has, if it is of the child's kind.
#[tactic(auto, using(crate::proofs::ChildLists::count_parts))]
fn size_if_alike<N: TreeNode>(child: &N::Tree, sibling: &N::Tree) -> Option<usize>
    ensures { result ≡ alike_size (N.seen child.now) (N.seen sibling.now) }
{
    match N::open(child) {
        NodeView::Stub(_) => None,
        NodeView::Leaf(_) => match N::open(sibling) {
            NodeView::Leaf(entries) => Some(entries.len()),
            NodeView::Stub(_) | NodeView::Inner { .. } => None,
        },
        NodeView::Inner { .. } => match N::open(sibling) {
            NodeView::Inner { children, .. } => Some(children.len()),
            NodeView::Stub(_) | NodeView::Leaf(_) => None,
        },
    }
}
