//! Whole trees.
ghost use Rattle.std.specs.Prelude.{◌≡◌, ◌++◌, [], length, IfOk, OnOk, OnErr};
ghost use Rattle.vo_spec.specs.Parts.{leaf, entries};
ghost use Rattle.vo_spec.specs.Fits.{FitsPart};
ghost use Rattle.vo_spec.specs.Trees.{digest};
ghost use Rattle.vo_spec.specs.Representation.{IsShown, Represents, rows_in};
ghost use Rattle.mb_tree.specs.RowCounts.{IsWhole};

use crate::rows::push_rows;
use crate::subtrees::Subtree;
use std::alloc::{AllocError, Global};
use std::marker::Model;
use vo_spec::{Digest, List, Row};

/// A Merkle B-tree of rows, of the shape of such trees and with its keys rising: contracts see its
/// nodes.
#[derive(Drop)]
pub struct Tree {
    root: Subtree,
    rows: u64,
}

impl Model for Tree {
    ghost use Rattle.vo_spec.specs.Trees.{RowTree};
    ghost use Rattle.mb_tree.specs.Codes.{coded_tree};
    ghost use Rattle.mb_tree.specs.RowCounts.{IsWhole};

    ghost Value = { RowTree };

    ghost coded = { coded_tree };

    ghost view = { λ tree. tree.root };

    ghost invariant = { λ tree. IsWhole tree.root tree.rows };
}

impl Tree {
    /// The tree of no rows.
    #[tactic(auto, using(crate::proofs::RowLaws::nothing_stands, crate::proofs::RowLaws::nothing_whole))]
    pub fn new(alloc: Global) -> Result<Tree, AllocError>
        ensures value { IfOk result (λ tree. tree ≡ leaf []) }
        ensures stands { IfOk result (λ tree. Represents tree []) }
    {
        let root = Subtree::leaf(alloc, Vec::new(alloc))?;
        Ok(Tree { root, rows: 0 })
    }

    /// The tree with this root, which has so many rows.
    pub fn of_root(root: Subtree, rows: u64) -> Tree
        requires { IsWhole root rows }
        ensures { result ≡ root }
    {
        Tree { root, rows }
    }

    pub fn root(&self) -> &Subtree
        ensures value { result.now ≡ self.now }
        ensures fits { FitsPart self.now }
    {
        &self.root
    }

    /// How many rows the tree has.
    pub fn row_count(&self) -> u64
        ensures value { result ≡ length (rows_in self.now) }
        ensures whole { IsWhole self.now result }
    {
        self.rows
    }

    /// The rows that the tree stands for, from left to right.
    pub fn rows(&self, alloc: Global) -> Result<List<Row>, AllocError>
        ensures value { IfOk result (λ rows. rows ≡ rows_in self.now) }
        ensures whole { IsShown self.now }
    {
        let mut rows = Vec::new(alloc);
        push_rows(alloc, &self.root, &mut rows)?;
        Ok(List::from_vec(rows))
    }

    /// The same tree, with the digests of all its nodes kept, so that none is hashed again.
    pub fn with_digests(&self, alloc: Global) -> Result<Tree, AllocError>
        ensures { IfOk result (λ tree. tree ≡ self.now) }
    {
        Ok(Tree {
            root: self.root.with_digests(alloc)?,
            rows: self.rows,
        })
    }

    /// The digest of the tree. It takes no memory, and no work where it is kept.
    pub fn node_digest(&self) -> Digest
        ensures { result ≡ digest self.now }
    {
        self.root.node_digest()
    }
}
