//! The chains of a forged signature against the owner's.
ghost use Rattle.std.specs.Prelude.{◌≡◌, ◌≢◌, ◌⊎◌, ℕ, ◌-◌, ◌^◌, ◌<◌, ◌≤◌, IfOk, IfSome, IfNone, IsTrue};
ghost use Rattle.vo_spec.specs.OtsSets.{width_of, count_of};
ghost use Rattle.vo_spec.specs.Ots.{advance, secret, public_end, candidate_end, is_ots_form};
ghost use Rattle.lms_forge.specs.Places.{own_step_text, step_text_from};
ghost use Rattle.lms_forge.specs.Chains.{MeetAt, ChainCompared, ChainsCompared};

use crate::comparison::compare;
use crate::texts::step_text;
use lm_ots::{chain, chain_value, coef, secret};
use lms_sign::SecretTree;
use std::alloc::{AllocError, Global};
use vo_spec::{Collision, Digest};

// The step from `from` on at which two values of a chain first lead to one value, though they
// differ.
fn meeting_step(
    id: &[u8; 16],
    q: u32,
    i: u16,
    from: u32,
    to: u32,
    values: (Digest, Digest),
) -> Option<u32>
    requires order { from ≤ to }
    requires last { to ≤ 255 }
    ensures some { IfSome result (MeetAt id.now q i from to values.0 values.1) }
    ensures none { IfNone result ((values.0 ≡ values.1)
        ⊎ (advance id.now q i from (to - from) values.0
        ≢ advance id.now q i from (to - from) values.1)) }
{
    if values.0 == values.1 {
        return None;
    }
    let (mut first, mut second) = values;
    for j in from..to {
        first = chain(id, q, i, j, j + 1, &first);
        second = chain(id, q, i, j, j + 1, &second);
        if first == second {
            return Some(j);
        }
    }
    None
}

// What is hashed at step `j` of chain `i`, on the way from a value before step `from`.
fn step_text_from(
    alloc: Global,
    tree: &SecretTree,
    q: u32,
    i: u16,
    j: u32,
    from: u32,
    value: &Digest,
) -> Result<Vec<u8>, AllocError>
    requires order { from ≤ j }
    requires last { j ≤ 255 }
    ensures { IfOk result (λ text. text.items
        ≡ step_text_from tree.now q i j from value.now) }
{
    let before = chain(tree.id(), q, i, from, j, value);
    step_text(alloc, tree, q, i, j as u8, &before)
}

// The owner's value of chain `i` before a step.
fn own_value(tree: &SecretTree, q: u32, i: u16, step: u32) -> Digest
    requires { step ≤ 255 }
    ensures { result ≡ advance tree.now.id q i 0 step (secret tree.now.id q tree.now.seed i) }
{
    let start = secret(tree.id(), q, i, tree.seed());
    chain(tree.id(), q, i, 0, step, &start)
}

// What the owner hashes at step `j` of chain `i`.
fn own_step_text(
    alloc: Global,
    tree: &SecretTree,
    q: u32,
    i: u16,
    j: u32,
) -> Result<Vec<u8>, AllocError>
    requires { j ≤ 255 }
    ensures { IfOk result (λ text. text.items ≡ own_step_text tree.now q i j) }
{
    step_text(alloc, tree, q, i, j as u8, &own_value(tree, q, i, j))
}

// Compares what is hashed at the steps of chain `i` from a digit on, where the value before that
// step leads to the chain's end.
fn compare_chain(
    alloc: Global,
    tree: &SecretTree,
    q: u32,
    i: u16,
    digit: u32,
    value: &Digest,
) -> Result<Option<Collision>, AllocError>
    requires digit { digit < 2 ^ width_of tree.now.ots }
    requires end { advance tree.now.id q i digit (2 ^ width_of tree.now.ots - 1 - digit) value.now
        ≡ public_end tree.now.id q tree.now.ots tree.now.seed i }
    ensures { IfOk result (ChainCompared tree.now q i digit value.now) }
{
    let own = own_value(tree, q, i, digit);
    let last = (1 << tree.ots().width()) - 1;
    match meeting_step(tree.id(), q, i, digit, last, (*value, own)) {
        None => Ok(None),
        Some(j) => {
            let first = step_text_from(alloc, tree, q, i, j, digit, value)?;
            let second = own_step_text(alloc, tree, q, i, j)?;
            Ok(compare(first, second))
        }
    }
}

/// Compares what is hashed at the steps of all chains, whose ends are the owner's.
pub(crate) fn compare_chains(
    alloc: Global,
    tree: &SecretTree,
    q: u32,
    digits: &[u8; 34],
    part: &[u8],
) -> Result<Option<Collision>, AllocError>
    requires form { IsTrue (is_ots_form tree.now.ots part.now) }
    requires ends { (i : ℕ) → i < count_of tree.now.ots
        → candidate_end tree.now.id q tree.now.ots digits.now part.now i
        ≡ public_end tree.now.id q tree.now.ots tree.now.seed i }
    ensures { IfOk result (ChainsCompared tree.now q digits.now part.now) }
{
    for i in 0..tree.ots().count() {
        let digit = coef(digits, i as usize, tree.ots().width());
        let value = chain_value(tree.ots(), part, i);
        let found = compare_chain(alloc, tree, q, i, digit, &value)?;
        if found.is_some() {
            return Ok(found);
        }
    }
    Ok(None)
}
