//! Whole totals trees, and their changes.
ghost use Rattle.std.specs.Prelude.{◌≡◌, [], IfOk};
ghost use Rattle.vo_spec.specs.Fits.{FitsKey};
ghost use Rattle.vo_spec.specs.Parts.{leaf};
ghost use Rattle.vo_spec.specs.Representation.{IsTree};
ghost use Rattle.totals_laws.specs.TotalsTrees.{StandsFor, totals_family};
ghost use Rattle.totals_laws.specs.TotalsChanges.{tree_with, tree_with_value, tree_without};
ghost use Rattle.mb_update.specs.ChangeResults.{ChangesTo};

use crate::updates::TotalsUpdates;
use crate::whole::{TotalsNode, TotalsSubtree, TreeTotal};
use btree::{insert, remove, set};
use mb_tree::TreeKey;
use std::alloc::{AllocError, Global};
use std::marker::Model;
use totals_laws::Totals;
use vo_spec::{Key, UpdateFault};

/// A totals tree of the shape of Merkle B-trees, with its keys rising: contracts see its nodes.
#[derive(Drop)]
pub struct TotalsTree {
    root: TotalsSubtree,
}

impl Model for TotalsTree {
    ghost use Rattle.vo_spec.specs.Representation.{IsTree};
    ghost use Rattle.totals_laws.specs.TotalsTrees.{TotalsPart, totals_family};
    ghost use Rattle.mb_sum.specs.Codes.{coded_totals_part};

    ghost Value = { TotalsPart };

    ghost coded = { coded_totals_part };

    ghost view = { λ tree. tree.root };

    ghost invariant = { λ tree. IsTree totals_family tree.root };
}

impl TotalsTree {
    /// The tree of no entries.
    pub fn new(alloc: Global) -> Result<TotalsTree, AllocError>
        ensures value { IfOk result (λ tree. tree ≡ leaf []) }
        ensures stands { IfOk result (λ tree. StandsFor tree []) }
    {
        let totals = Totals { count: 0, sum: 0 };
        let root = TotalsSubtree::new(alloc, totals, TotalsNode::Leaf(Vec::new(alloc)))?;
        Ok(TotalsTree { root })
    }

    fn of_root(root: TotalsSubtree) -> TotalsTree
        requires { IsTree totals_family root }
        ensures { result ≡ root }
    {
        TotalsTree { root }
    }

    pub fn root(&self) -> &TotalsSubtree
        ensures value { result.now ≡ self.now }
        ensures whole { IsTree totals_family self.now }
    {
        &self.root
    }
}

/// An entry whose key is a copy of this.
fn entry_of(alloc: Global, key: &Key, value: i64) -> Result<TreeTotal, AllocError>
    requires { FitsKey key.now }
    ensures { IfOk result (λ entry. entry ≡ record { key = key.now; value = value }) }
{
    let key = TreeKey::new(alloc, key.copy(alloc)?)?;
    Ok(TreeTotal::new(key, value))
}

fn put_entry(alloc: Global, tree: &TotalsTree, entry: TreeTotal) -> Result<TotalsTree, UpdateFault>
    ensures { ChangesTo (λ t. t) result (tree_with entry.key entry.value tree.now) }
{
    match insert::<TotalsSubtree>(alloc, tree.root(), entry) {
        Ok(root) => Ok(TotalsTree::of_root(root)),
        Err(fault) => Err(fault),
    }
}

fn set_entry(
    alloc: Global,
    tree: &TotalsTree,
    key: &[u8],
    entry: TreeTotal,
) -> Result<TotalsTree, UpdateFault>
    requires { entry.key ≡ key.now }
    ensures { ChangesTo (λ t. t) result (tree_with_value key.now entry.value tree.now) }
{
    match set::<TotalsSubtree>(alloc, tree.root(), key, entry) {
        Ok(root) => Ok(TotalsTree::of_root(root)),
        Err(fault) => Err(fault),
    }
}

fn remove_entry(alloc: Global, tree: &TotalsTree, key: &[u8]) -> Result<TotalsTree, UpdateFault>
    ensures { ChangesTo (λ t. t) result (tree_without key.now tree.now) }
{
    match remove::<TotalsSubtree>(alloc, tree.root(), key) {
        Ok(root) => Ok(TotalsTree::of_root(root)),
        Err(fault) => Err(fault),
    }
}

/// The new tree shares with the old one all but what the change makes new.
impl TotalsUpdates for TotalsTree {
    type Change = TotalsTree;

    ghost tree = { λ tree. tree };

    ghost changed = { λ tree. tree };

    ghost CanChange = { λ tree. Unit {0} };

    fn put(&self, alloc: Global, key: &Key, value: i64) -> Result<TotalsTree, UpdateFault> {
        let entry = entry_of(alloc, key, value)?;
        put_entry(alloc, self, entry)
    }

    fn set(&self, alloc: Global, key: &Key, value: i64) -> Result<TotalsTree, UpdateFault> {
        let entry = entry_of(alloc, key, value)?;
        set_entry(alloc, self, key.as_bytes(), entry)
    }

    fn remove(&self, alloc: Global, key: &Key) -> Result<TotalsTree, UpdateFault> {
        remove_entry(alloc, self, key.as_bytes())
    }
}
