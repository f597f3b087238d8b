//! Needs that are cut, on whole trees and on parts.
ghost use Rattle.std.specs.Prelude.{◌≡◌, ◌≤◌, [], ◌∷◌, length, IfOk};
ghost use Rattle.vo_spec.specs.Values.{key_lt as is_less};
ghost use Rattle.vo_spec.specs.Fits.{max_fill};

use crate::{RowTest, cut_need};
use key_intervals::key_lt;
use mb_tree::{Children, PartTree, RowEntry, RowNode, Subtree, TreeEntry, TreeKey};
use std::alloc::{AllocError, Global};
use std::test::Fail;
use vo_spec::{
    Bound, Cell, CellValue, Digest, Interval, Key, KeyPart, List, Need, PartEntry, RowPart,
    SharedList, Value, ValueRef,
};

/// The condition that a key is above the key `a`, on rows that show cell 0.
struct IsAboveA;

impl RowTest for IsAboveA {
    ghost columns = { λ test. 0 ∷ [] };

    ghost meets = { λ test row. is_less (97 ∷ []) row.key };

    fn meets<'r, E: RowEntry>(&'r self, entry: &'r E) -> bool {
        key_lt(&[97], entry.entry_key())
    }
}

/// The key above which the need has none after the cut; none where it isn't cut.
fn cut_key<N: RowNode>(alloc: Global, tree: &N, n: u32) -> Result<Option<u8>, AllocError> {
    let columns = SharedList::new(alloc, Vec::from_slice(alloc, &[0])?)?;
    let interval = Interval {
        low: Bound::Absent,
        high: Bound::Absent,
    };
    let cut = cut_need(alloc, tree, Need { interval, columns }, &IsAboveA, n)?;
    match &cut.interval.high {
        Bound::Inclusive(key) => Ok(key.as_bytes().first().copied()),
        Bound::Absent | Bound::Exclusive(_) => Ok(None),
    }
}

fn entry_of(alloc: Global, key: u8) -> Result<TreeEntry, AllocError> {
    let key = TreeKey::new(alloc, Key::from_vec(Vec::from_slice(alloc, &[key])?))?;
    let cells = Vec::from_array(alloc, [Value::Int(1)])?;
    TreeEntry::of_parts(alloc, key, List::from_vec(cells))
}

/// The tree of the rows `a` and `b` in one leaf, and `c` and `d` in the next.
fn whole_tree(alloc: Global) -> Result<Subtree, AllocError> {
    let left = Vec::from_array(alloc, [entry_of(alloc, 97)?, entry_of(alloc, 98)?])?;
    let left = Subtree::leaf(alloc, left)?;
    let right = Vec::from_array(alloc, [entry_of(alloc, 99)?, entry_of(alloc, 100)?])?;
    let right = Subtree::leaf(alloc, right)?;
    let separator = TreeKey::new(alloc, Key::from_vec(Vec::from_slice(alloc, &[99])?))?;
    let separators = Vec::from_array(alloc, [separator])?;
    Subtree::inner(alloc, separators, Vec::from_array(alloc, [left, right])?)
}

fn shown(alloc: Global, key: &[u8]) -> Result<PartEntry<'_>, AllocError> {
    let cells = Vec::from_array(alloc, [Cell::Shown(CellValue::lent(ValueRef::Int(1)))])?;
    Ok(PartEntry {
        key: KeyPart::lent(key),
        row: RowPart::Cells(List::from_vec(cells)),
    })
}

fn hidden(key: &[u8]) -> PartEntry<'_> {
    PartEntry {
        key: KeyPart::lent(key),
        row: RowPart::Digest(Digest::new([0; 32])),
    }
}

fn stub<'b>() -> PartTree<'b> {
    PartTree::Stub(Digest::new([0; 32]))
}

fn leaf<'b>(
    alloc: Global,
    first: PartEntry<'b>,
    second: PartEntry<'b>,
) -> Result<PartTree<'b>, AllocError> {
    let entries = Vec::from_array(alloc, [first, second])?;
    Ok(PartTree::Leaf(List::from_vec(entries)))
}

fn part_tree<'b>(
    alloc: Global,
    left: PartTree<'b>,
    right: PartTree<'b>,
) -> Result<PartTree<'b>, AllocError> {
    let separators = Vec::from_array(alloc, [KeyPart::lent(b"c")])?;
    Ok(PartTree::Inner {
        separators: List::from_vec(separators),
        children: Children::from_vec(Vec::from_array(alloc, [left, right])?),
    })
}

fn left_leaf(alloc: Global) -> Result<PartTree<'static>, AllocError> {
    leaf(alloc, shown(alloc, b"a")?, shown(alloc, b"b")?)
}

fn right_leaf(alloc: Global) -> Result<PartTree<'static>, AllocError> {
    leaf(alloc, shown(alloc, b"c")?, shown(alloc, b"d")?)
}

#[test]
fn a_whole_tree_is_cut_at_the_last_row_that_is_wanted(rt: HostRuntime) -> Result<(), Fail> {
    let alloc = rt.alloc();
    let tree = whole_tree(alloc)?;
    assert_eq!(rt; cut_key(alloc, &tree, 1)?, Some(98));
    assert_eq!(rt; cut_key(alloc, &tree, 3)?, Some(100));
    assert_eq!(rt; cut_key(alloc, &tree, 4)?, None);
    assert_eq!(rt; cut_key(alloc, &tree, 0)?, Some(98));
    Ok(())
}

#[test]
fn a_stub_behind_the_cut_is_passed_over(rt: HostRuntime) -> Result<(), Fail> {
    let alloc = rt.alloc();
    let part = part_tree(alloc, left_leaf(alloc)?, stub())?;
    assert_eq!(rt; cut_key(alloc, &part, 1)?, Some(98));
    assert_eq!(rt; cut_key(alloc, &part, 2)?, None);
    Ok(())
}

#[test]
fn nothing_is_cut_behind_a_stub(rt: HostRuntime) -> Result<(), Fail> {
    let alloc = rt.alloc();
    let part = part_tree(alloc, stub(), right_leaf(alloc)?)?;
    assert_eq!(rt; cut_key(alloc, &part, 1)?, None);
    Ok(())
}

#[test]
fn nothing_is_cut_behind_a_hidden_row(rt: HostRuntime) -> Result<(), Fail> {
    let alloc = rt.alloc();
    let left = leaf(alloc, shown(alloc, b"b")?, hidden(b"bb"))?;
    let part = part_tree(alloc, left, right_leaf(alloc)?)?;
    assert_eq!(rt; cut_key(alloc, &part, 1)?, Some(98));
    assert_eq!(rt; cut_key(alloc, &part, 2)?, None);
    Ok(())
}
