//! What is asked of a part tree, and of a change of it.
ghost use Rattle.std.specs.Prelude.{IfOk, All};
ghost use Rattle.vo_spec.specs.Fits.{FitsPart};
ghost use Rattle.mb_tree.specs.View.{part_of};
ghost use Rattle.tree_lines.specs.Fitting.{FitsOp};

use crate::answers::{digits, tree_digits, verdict};
use crate::change_reading::{read_change, read_changes};
use crate::part_reading::read_part;
use line_pieces::describe;
use mb_update::{Op, UpdateFault, Updates};
use std::alloc::Global;
use std::io;
use update_proof::is_update_proof;
use vo_format::PartTree;

/// The part tree after a change, or why it isn't changed.
pub fn change_part(alloc: Global, change: &[u8], part: &[u8]) -> io::Result<String> {
    match read_change(alloc, change) {
        Ok(op) => {
            let answer = change_part_by(alloc, &op, part);
            drop(op);
            answer
        }
        Err(fault) => describe(alloc, &fault),
    }
}

fn change_part_by(alloc: Global, op: &Op<'_>, part: &[u8]) -> io::Result<String>
    requires { FitsOp op.now }
{
    match read_part(alloc, part) {
        Ok(part) => {
            let new = part_after(alloc, &part, op);
            drop(part);
            describe_new(alloc, new)
        }
        Err(fault) => describe(alloc, &fault),
    }
}

fn describe_new(alloc: Global, new: Result<PartTree<'_>, UpdateFault>) -> io::Result<String>
    requires { IfOk new (λ new. FitsPart (part_of new)) }
{
    match new {
        Ok(new) => tree_digits(alloc, new),
        Err(fault) => describe(alloc, &fault),
    }
}

fn part_after<'b>(
    alloc: Global,
    part: &PartTree<'b>,
    op: &Op<'_>,
) -> Result<PartTree<'b>, UpdateFault>
    requires fits { FitsPart (part_of part.now) }
    requires change { FitsOp op.now }
    ensures { IfOk result (λ new. FitsPart (part_of new)) }
{
    match op {
        Op::Insert { row } => part.insert(alloc, row),
        Op::Replace { key, sets } => part.replace(alloc, key, sets.as_slice()),
        Op::Remove { key } => part.remove(alloc, key),
        Op::Put { .. } | Op::Set { .. } => unreachable!(),
    }
}

/// The digest of the part tree after some changes in turn, or why one of them isn't done.
pub fn change_part_in_turn(alloc: Global, changes: &[u8], part: &[u8]) -> io::Result<String> {
    match read_changes(alloc, changes) {
        Ok(ops) => {
            let answer = change_part_by_all(alloc, &ops, part);
            drop(ops);
            answer
        }
        Err(fault) => describe(alloc, &fault),
    }
}

fn change_part_by_all(alloc: Global, ops: &[Op<'_>], part: &[u8]) -> io::Result<String>
    requires { All FitsOp ops.now }
{
    match read_part(alloc, part) {
        Ok(part) => digest_after(alloc, part, ops),
        Err(fault) => describe(alloc, &fault),
    }
}

fn digest_after(alloc: Global, part: PartTree<'_>, ops: &[Op<'_>]) -> io::Result<String>
    requires fits { FitsPart (part_of part) }
    requires changes { All FitsOp ops.now }
{
    match part_after_all(alloc, part, ops) {
        Ok(new) => part_digest(alloc, new),
        Err(fault) => describe(alloc, &fault),
    }
}

/// The digest of a part tree, which is let go of.
fn part_digest(alloc: Global, part: PartTree<'_>) -> io::Result<String>
    requires { FitsPart (part_of part) }
{
    let digest = part.node_digest();
    drop(part);
    digits(alloc, digest)
}

fn part_after_all<'b>(
    alloc: Global,
    part: PartTree<'b>,
    ops: &[Op<'_>],
) -> Result<PartTree<'b>, UpdateFault>
    requires fits { FitsPart (part_of part) }
    requires changes { All FitsOp ops.now }
    ensures { IfOk result (λ new. FitsPart (part_of new)) }
{
    let mut part = part;
    for op in ops {
        let next = part_after(alloc, &part, op);
        drop(part);
        part = next?;
    }
    Ok(part)
}

/// Whether the part tree is the proof of a change.
pub fn judge_change(alloc: Global, change: &[u8], part: &[u8]) -> io::Result<String> {
    match read_change(alloc, change) {
        Ok(op) => {
            let answer = judge_change_by(alloc, &op, part);
            drop(op);
            answer
        }
        Err(fault) => describe(alloc, &fault),
    }
}

fn judge_change_by(alloc: Global, op: &Op<'_>, part: &[u8]) -> io::Result<String> {
    match read_part(alloc, part) {
        Ok(part) => {
            let is_proof = is_update_proof(&part, op);
            drop(part);
            verdict(alloc, is_proof)
        }
        Err(fault) => describe(alloc, &fault),
    }
}

/// The digest of a part tree.
pub fn digest_of(alloc: Global, part: &[u8]) -> io::Result<String> {
    match read_part(alloc, part) {
        Ok(part) => part_digest(alloc, part),
        Err(fault) => describe(alloc, &fault),
    }
}

/// The bytes that the root of a part tree hashes.
pub fn preimage_of(alloc: Global, part: &[u8]) -> io::Result<String> {
    match read_part(alloc, part) {
        Ok(part) => {
            let preimage = part.preimage(alloc);
            drop(part);
            Ok(hex::encode(alloc, preimage?)?)
        }
        Err(fault) => describe(alloc, &fault),
    }
}

/// The bytes of a part tree again.
pub fn read_again(alloc: Global, part: &[u8]) -> io::Result<String> {
    match read_part(alloc, part) {
        Ok(part) => tree_digits(alloc, part),
        Err(fault) => describe(alloc, &fault),
    }
}
