//! Writing trees.
ghost use Rattle.std.specs.Prelude.{◌≡◌, ◌++◌, ◌≤◌, ◌∷◌, length, map, flat_map, OnOk, OnErr, All};
ghost use Rattle.std.specs.List.{AllByRecursion};
ghost use Rattle.vo_spec.specs.Bytes.{string};
ghost use Rattle.vo_spec.specs.Parts.{inner};
ghost use Rattle.vo_spec.specs.Fits.{FitsPart, FitsEach, FitsEntry, FitsKey, FitsTree, max_fill};
ghost use Rattle.vo_spec.specs.TreeBytes.{entry_form, tree_bytes};
ghost use Rattle.mb_tree.specs.View.{part_of, parts_of};
ghost use Rattle.batch_format.specs.Writing.{StaysInFront};

use crate::entry_writing::{put_entry, put_hidden, put_key};
use mb_tree::PartTree;
use std::alloc::AllocError;
use vo_spec::{KeyPart, PartEntry};

/// Puts a tree at the end. Where memory runs out, what was there stays in front.
#[tactic(auto, using(mb_tree::proofs::PartLaws::count_parts_of, batch_format::proofs::Fronts::stays_itself, batch_format::proofs::Fronts::stays_before, batch_format::proofs::Fronts::stays_behind))]
#[cycle(put_tree)]
pub fn put_tree(out: &mut Vec<u8>, tree: &PartTree<'_>) -> Result<(), AllocError>
    requires { FitsPart (part_of tree.now) }
    ensures ok { OnOk result (out.new.items ≡ out.old.items ++ tree_bytes (part_of tree.now)) }
    ensures err { OnErr result (StaysInFront out.old.items out.new.items) }
{
    match tree {
        PartTree::Stub(digest) => put_hidden(out, digest),
        PartTree::Leaf(entries) => put_leaf(out, entries.as_slice()),
        PartTree::Inner {
            separators,
            children,
        } => put_inner(out, separators.as_slice(), children.as_slice()),
    }
}

#[tactic(auto, using(batch_format::proofs::Fronts::stays_itself, batch_format::proofs::Fronts::stays_before, batch_format::proofs::Fronts::stays_behind))]
fn put_leaf(out: &mut Vec<u8>, entries: &[PartEntry<'_>]) -> Result<(), AllocError>
    requires count { length entries.now ≤ max_fill }
    requires fits { All FitsEntry entries.now }
    ensures ok { OnOk result (out.new.items ≡ out.old.items ++ 1 ∷ length entries.now
        ∷ flat_map entry_form entries.now) }
    ensures err { OnErr result (StaysInFront out.old.items out.new.items) }
{
    out.extend_from_slice(&[1, entries.len() as u8])?;
    for entry in entries {
        put_entry(out, entry)?;
    }
    Ok(())
}

#[tactic(auto, using(mb_tree::proofs::PartLaws::count_parts_of, crate::proofs::Forms::bytes_parts_of, batch_format::proofs::Fronts::stays_itself, batch_format::proofs::Fronts::stays_before, batch_format::proofs::Fronts::stays_behind))]
#[cycle(put_tree)]
fn put_inner(
    out: &mut Vec<u8>,
    separators: &[KeyPart<'_>],
    children: &[PartTree<'_>],
) -> Result<(), AllocError>
    requires count { length children.now ≤ max_fill }
    requires keys { All FitsKey separators.now }
    requires fits { FitsEach FitsEntry (parts_of children.now) }
    ensures ok { OnOk result (out.new.items ≡ out.old.items
        ++ tree_bytes (inner separators.now (parts_of children.now))) }
    ensures err { OnErr result (StaysInFront out.old.items out.new.items) }
{
    out.extend_from_slice(&[2, children.len() as u8])?;
    put_separators(out, separators)?;
    put_children(out, children)
}

#[tactic(auto, using(batch_format::proofs::Fronts::stays_itself, batch_format::proofs::Fronts::stays_before, batch_format::proofs::Fronts::stays_behind))]
fn put_separators(out: &mut Vec<u8>, separators: &[KeyPart<'_>]) -> Result<(), AllocError>
    requires { All FitsKey separators.now }
    ensures ok { OnOk result (out.new.items ≡ out.old.items ++ flat_map string separators.now) }
    ensures err { OnErr result (StaysInFront out.old.items out.new.items) }
{
    for separator in separators {
        put_key(out, separator.as_bytes())?;
    }
    Ok(())
}

#[tactic(auto, using(batch_format::proofs::Fronts::stays_itself, batch_format::proofs::Fronts::stays_before, batch_format::proofs::Fronts::stays_behind))]
#[cycle(put_tree)]
fn put_children(out: &mut Vec<u8>, children: &[PartTree<'_>]) -> Result<(), AllocError>
    requires { FitsEach FitsEntry (parts_of children.now) }
    ensures ok { OnOk result (out.new.items ≡ out.old.items
        ++ flat_map tree_bytes (map part_of children.now)) }
    ensures err { OnErr result (StaysInFront out.old.items out.new.items) }
{
    for child in children {
        match child {
            // Here, since most children are digests, and a call for each would take as long as
            // writing it.
            PartTree::Stub(digest) => put_hidden(out, digest)?,
            _ => put_tree(out, child)?,
        }
    }
    Ok(())
}

/// Puts trees at the end, one after another. Where memory runs out, what was there stays in front.
#[tactic(auto, using(batch_format::proofs::Fronts::stays_itself, batch_format::proofs::Fronts::stays_before, batch_format::proofs::Fronts::stays_behind))]
pub fn put_trees(out: &mut Vec<u8>, trees: &[PartTree<'_>]) -> Result<(), AllocError>
    requires { AllByRecursion FitsTree (map part_of trees.now) }
    ensures ok { OnOk result (out.new.items ≡ out.old.items
        ++ flat_map tree_bytes (map part_of trees.now)) }
    ensures err { OnErr result (StaysInFront out.old.items out.new.items) }
{
    for tree in trees {
        put_tree(out, tree)?;
    }
    Ok(())
}
