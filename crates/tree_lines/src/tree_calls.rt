//! What is asked of the tree of the table `t`.
ghost use Rattle.std.specs.Prelude.{IfOk};
ghost use Rattle.vo_spec.specs.Fits.{FitsPart, FitsTree};
ghost use Rattle.mb_tree.specs.View.{part_of};
ghost use Rattle.tree_lines.specs.Fitting.{FitsOp};

use crate::answers::{digits, tree_digits};
use crate::change_reading::read_change;
use crate::need_reading::read_needs;
use crate::part_reading::read_part;
use line_pieces::{describe, word};
use mb_tree::Tree;
use mb_update::{Op, UpdateFault, Updates};
use range_proof::prune;
use std::alloc::{AllocError, Global};
use std::io;
use stored_tables::StoredTables;
use tree_collide::{Agreement, agree};
use update_proof::prune_update;
use vo_format::PartTree;
use vo_spec::Need;

/// How many rows the tree has, its digest, and the bytes that its root hashes.
pub fn root_of(alloc: Global, tables: &StoredTables) -> io::Result<String> {
    match tables.find(b"t") {
        Some(table) => {
            let rows = count_and_digest(alloc, &table.tree)?;
            let preimage = hex::encode(alloc, table.tree.root().preimage(alloc)?)?;
            Ok(format!(in alloc; "{rows} {preimage}")?)
        }
        None => word(alloc, "no table"),
    }
}

/// The number of rows and the digest of a tree.
fn count_and_digest(alloc: Global, tree: &Tree) -> io::Result<String> {
    let digest = digits(alloc, tree.node_digest())?;
    Ok(format!(in alloc; "{} {digest}", tree.row_count())?)
}

/// The number of rows and the digest of the tree that a change makes, or why there is none, and of
/// the tree itself, which stays.
pub fn change_tree(alloc: Global, tables: &StoredTables, change: &[u8]) -> io::Result<String> {
    match read_change(alloc, change) {
        Ok(op) => {
            let answer = change_tree_by(alloc, tables, &op);
            drop(op);
            answer
        }
        Err(fault) => describe(alloc, &fault),
    }
}

fn change_tree_by(alloc: Global, tables: &StoredTables, op: &Op<'_>) -> io::Result<String>
    requires { FitsOp op.now }
{
    match tables.find(b"t") {
        Some(table) => count_new_and_old(alloc, &table.tree, op),
        None => word(alloc, "no table"),
    }
}

fn count_new_and_old(alloc: Global, tree: &Tree, op: &Op<'_>) -> io::Result<String>
    requires { FitsOp op.now }
{
    let new = new_count_and_digest(alloc, tree, op)?;
    let old = count_and_digest(alloc, tree)?;
    Ok(format!(in alloc; "{new} of {old}")?)
}

fn new_count_and_digest(alloc: Global, tree: &Tree, op: &Op<'_>) -> io::Result<String>
    requires { FitsOp op.now }
{
    match tree_after(alloc, tree, op) {
        Ok(new) => {
            let answer = count_and_digest(alloc, &new);
            drop(new);
            answer
        }
        Err(fault) => describe(alloc, &fault),
    }
}

/// The tree after a change; one with no room for more rows has no memory for an insertion.
fn tree_after(alloc: Global, tree: &Tree, op: &Op<'_>) -> Result<Tree, UpdateFault>
    requires { FitsOp op.now }
{
    match op {
        Op::Insert { row } => {
            if tree.row_count() >= 1_000_000 {
                return Err(UpdateFault::Memory);
            }
            tree.insert(alloc, row)
        }
        Op::Replace { key, sets } => tree.replace(alloc, key, sets.as_slice()),
        Op::Remove { key } => tree.remove(alloc, key),
        Op::Put { .. } | Op::Set { .. } => unreachable!(),
    }
}

/// The proof of a change.
pub fn prove_change(alloc: Global, tables: &StoredTables, change: &[u8]) -> io::Result<String> {
    match read_change(alloc, change) {
        Ok(op) => {
            let answer = prove_change_by(alloc, tables, &op);
            drop(op);
            answer
        }
        Err(fault) => describe(alloc, &fault),
    }
}

fn prove_change_by(alloc: Global, tables: &StoredTables, op: &Op<'_>) -> io::Result<String> {
    match tables.find(b"t") {
        Some(table) => tree_digits(alloc, proof_of(alloc, &table.tree, op)?),
        None => word(alloc, "no table"),
    }
}

#[tactic(auto, using(crate::proofs::ChangeProofs::update_proof_fits))]
fn proof_of<'b>(alloc: Global, tree: &'b Tree, op: &Op<'_>) -> Result<PartTree<'b>, AllocError>
    requires { FitsTree tree.now }
    ensures { IfOk result (λ part. FitsPart (part_of part)) }
{
    prune_update(alloc, tree, op)
}

/// The proof of some needs.
pub fn prune_tree(alloc: Global, tables: &StoredTables, needs: &[u8]) -> io::Result<String> {
    match read_needs(alloc, needs) {
        Ok(needs) => {
            let answer = prune_tree_for(alloc, tables, &needs);
            drop(needs);
            answer
        }
        Err(fault) => describe(alloc, &fault),
    }
}

fn prune_tree_for(alloc: Global, tables: &StoredTables, needs: &[Need]) -> io::Result<String> {
    match tables.find(b"t") {
        Some(table) => tree_digits(alloc, part_for(alloc, &table.tree, needs)?),
        None => word(alloc, "no table"),
    }
}

#[tactic(auto, using(vo_laws::proofs::PrunedFits::pruned_fits))]
fn part_for<'b>(alloc: Global, tree: &'b Tree, needs: &[Need]) -> Result<PartTree<'b>, AllocError>
    requires { FitsTree tree.now }
    ensures { IfOk result (λ part. FitsPart (part_of part)) }
{
    prune(alloc, tree, needs)
}

/// Whether a part tree of the tree's digest prunes it.
pub fn agree_tree(alloc: Global, tables: &StoredTables, part: &[u8]) -> io::Result<String> {
    match read_part(alloc, part) {
        Ok(part) => {
            let answer = agree_tree_with(alloc, tables, &part);
            drop(part);
            answer
        }
        Err(fault) => describe(alloc, &fault),
    }
}

fn agree_tree_with(alloc: Global, tables: &StoredTables, part: &PartTree<'_>) -> io::Result<String>
    requires { FitsPart (part_of part.now) }
{
    match tables.find(b"t") {
        Some(table) => compare_part(alloc, part, &table.tree),
        None => word(alloc, "no table"),
    }
}

fn compare_part(alloc: Global, part: &PartTree<'_>, tree: &Tree) -> io::Result<String>
    requires { FitsPart (part_of part.now) }
{
    if part.node_digest() != tree.node_digest() {
        return word(alloc, "another digest");
    }
    let agreement = agree(alloc, part, tree)?;
    let text = match &agreement {
        Agreement::Prunes => "prunes",
        Agreement::Collides(_) => "collides",
    };
    drop(agreement);
    word(alloc, text)
}
