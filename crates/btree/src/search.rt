//! The entry of a key.
ghost use Rattle.std.specs.Prelude.{◌≡◌, ◌≤◌, ◌+◌, length, map};
ghost use Rattle.vo_spec.specs.Parts.{leaf, inner};
ghost use Rattle.vo_spec.specs.Fits.{max_fill};
ghost use Rattle.btree.specs.Answers.{Answers};
ghost use Rattle.btree.specs.Lookup.{found};
ghost use Rattle.btree.specs.Nodes.{parts_from};
ghost use Rattle.btree.specs.Shapes.{IsShaped, AreShaped};

use crate::keyed_item::{position_above, position_of};
use crate::node::{NodeView, TreeNode};
use vo_spec::UpdateFault;

/// The first entry of the key in the leaf to which the search for it goes. It takes no memory.
#[cycle(find)]
pub fn find<'a, N: TreeNode + 'a>(
    tree: &'a N::Tree,
    key: &[u8],
) -> Result<&'a N::Entry, UpdateFault>
    requires { IsShaped (N.seen tree.now) }
    ensures { Answers (λ entry e. N.entry entry.now ≡ e) result
        (found N.family key.now (N.seen tree.now)) }
{
    match N::open(tree) {
        NodeView::Stub(_) => Err(UpdateFault::Missing),
        NodeView::Leaf(entries) => find_in_leaf::<N>(entries, key),
        NodeView::Inner {
            separators,
            children,
        } => find_in_child(separators, children, key),
    }
}

fn find_in_leaf<'a, N: TreeNode + 'a>(
    entries: &'a [N::Entry],
    key: &[u8],
) -> Result<&'a N::Entry, UpdateFault>
    ensures { Answers (λ entry e. N.entry entry.now ≡ e) result
        (found N.family key.now (leaf (map N.entry entries.now))) }
{
    let place = position_of(entries, key);
    if place >= entries.len() {
        return Err(UpdateFault::NoRow);
    }
    Ok(&entries[place])
}

#[cycle(find)]
fn find_in_child<'a, N: TreeNode + 'a>(
    separators: &'a [N::Key],
    children: &'a [N],
    key: &[u8],
) -> Result<&'a N::Entry, UpdateFault>
    requires most { length children.now ≤ max_fill }
    requires between { length separators.now + 1 ≡ length children.now }
    requires shaped { AreShaped (parts_from (map N.kid children.now)) }
    ensures { Answers (λ entry e. N.entry entry.now ≡ e) result
        (found N.family key.now (inner (map N.Key.key separators.now)
        (parts_from (map N.kid children.now)))) }
{
    let place = position_above(separators, key);
    find::<N>(children[place].tree(), key)
}
