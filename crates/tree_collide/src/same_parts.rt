//! Whether two parts of trees are the same, by what stands in them: no node is hashed for it.
ghost use Rattle.std.specs.Prelude.{◌≡◌, ◌↔◌, IsTrue, map};
ghost use Rattle.vo_spec.specs.Lent.{value_of};
ghost use Rattle.mb_tree.specs.View.{part_of};

use mb_tree::PartTree;
use vo_spec::{Cell, KeyPart, PartEntry, RowPart, ValueRef};

/// Whether the two are the same: open and closed at the same places, with the same there.
#[cycle(same)]
#[tactic(auto, using(crate::proofs::SamePartLaws::same_children))]
pub fn are_same(first: &PartTree<'_>, second: &PartTree<'_>) -> bool
    ensures { IsTrue result ↔ (part_of first.now ≡ part_of second.now) }
{
    match (first, second) {
        (PartTree::Stub(digest), PartTree::Stub(other)) => digest == other,
        (PartTree::Leaf(entries), PartTree::Leaf(others)) => {
            are_same_lists(entries.as_slice(), others.as_slice(), is_same_entry)
        },
        (
            PartTree::Inner {
                separators,
                children,
            },
            PartTree::Inner {
                separators: other_separators,
                children: others,
            },
        ) => {
            are_same_lists(
                separators.as_slice(),
                other_separators.as_slice(),
                is_same_key,
            ) && are_all_same(children.as_slice(), others.as_slice())
        },
        _ => false,
    }
}

/// Whether the trees of two lists are the same, each the one at its place.
#[cycle(same)]
#[tactic(auto, using(crate::proofs::SamePartLaws::same_at))]
pub fn are_all_same(first: &[PartTree<'_>], second: &[PartTree<'_>]) -> bool
    ensures { IsTrue result ↔ (map part_of first.now ≡ map part_of second.now) }
{
    if first.len() != second.len() {
        return false;
    }
    for (place, part) in first.iter().enumerate() {
        if !are_same(part, &second[place]) {
            return false;
        }
    }
    true
}

/// Whether the lists are the same, by a test of two items.
pub fn are_same_lists<T, F: Fn(&T, &T) -> bool>(first: &[T], second: &[T], is_same: F) -> bool
    requires callable { F.IsAlwaysCallable is_same }
    requires decides { (x y : _) (same : _) → F.post is_same x y same
        → IsTrue same ↔ (x.now ≡ y.now) }
    ensures { IsTrue result ↔ (first.now ≡ second.now) }
{
    if first.len() != second.len() {
        return false;
    }
    for (place, item) in first.iter().enumerate() {
        if !is_same(item, &second[place]) {
            return false;
        }
    }
    true
}

fn is_same_entry(first: &PartEntry<'_>, second: &PartEntry<'_>) -> bool
    ensures { IsTrue result ↔ (first.now ≡ second.now) }
{
    is_same_key(&first.key, &second.key) && is_same_row(&first.row, &second.row)
}

pub fn is_same_key(first: &KeyPart<'_>, second: &KeyPart<'_>) -> bool
    ensures { IsTrue result ↔ (first.now ≡ second.now) }
{
    first.as_bytes() == second.as_bytes()
}

pub fn is_same_row(first: &RowPart<'_>, second: &RowPart<'_>) -> bool
    ensures { IsTrue result ↔ (first.now ≡ second.now) }
{
    match (first, second) {
        (RowPart::Digest(digest), RowPart::Digest(other)) => digest == other,
        (RowPart::Cells(cells), RowPart::Cells(others)) => {
            are_same_lists(cells.as_slice(), others.as_slice(), is_same_cell)
        },
        _ => false,
    }
}

fn is_same_cell(first: &Cell<'_>, second: &Cell<'_>) -> bool
    ensures { IsTrue result ↔ (first.now ≡ second.now) }
{
    match (first, second) {
        (Cell::Hidden(digest), Cell::Hidden(other)) => digest == other,
        (Cell::Shown(value), Cell::Shown(other)) => is_same_value(value.as_ref(), other.as_ref()),
        _ => false,
    }
}

pub fn is_same_value(first: ValueRef<'_>, second: ValueRef<'_>) -> bool
    ensures { IsTrue result ↔ (value_of first.entry ≡ value_of second.entry) }
{
    match (first, second) {
        (ValueRef::Null, ValueRef::Null) => true,
        (ValueRef::Int(number), ValueRef::Int(other)) => number == other,
        (ValueRef::Text(bytes), ValueRef::Text(others)) => bytes == others,
        (ValueRef::Bool(truth), ValueRef::Bool(other)) => truth == other,
        _ => false,
    }
}
