//! What explains a forged signature by a leaf of one tree.
ghost use Rattle.std.specs.Prelude.{◌≡◌, ◌≢◌, length, option_copied, IfOk, IfSome, IsTrue};
ghost use Rattle.vo_spec.specs.Bytes.{u32_at};
ghost use Rattle.vo_spec.specs.Lms.{tree_valid};
ghost use Rattle.vo_spec.specs.SecretTrees.{public_of_tree};
ghost use Rattle.lms_forge.specs.Forgeries.{forgery};
ghost use Rattle.lms_forge.specs.Explaining.{Explains};
ghost use Rattle.lms_forge.specs.Lowering.{ReleasedCompared, own_digits_of};

use crate::digits::{compare_messages, first_lower};
use crate::explanation::Explanation;
use crate::parts::compare_parts;
use lm_ots::{chain_value, coef, digits_of, randomizer, randomizer_of};
use lms_sign::{SecretTree, ots_part};
use std::alloc::{AllocError, Global};
use vo_spec::{Collision, Digest};

// Compares what is hashed for the message's digest, where the owner signed a message by the leaf.
fn compare_released(
    alloc: Global,
    tree: &SecretTree,
    q: u32,
    random: &Digest,
    message: &[u8],
    released: Option<&[u8]>,
) -> Result<Option<Collision>, AllocError>
    requires full { length random.now ≡ 32 }
    requires differ { IfSome released (λ own. message.now ≢ own.now) }
    ensures { IfOk result (ReleasedCompared tree.now q random.now message.now
        (option_copied released.entry)) }
{
    match released {
        Some(own) => compare_messages(alloc, tree, q, random, message, own),
        None => Ok(None),
    }
}

// The digits that the owner signed by the leaf, if any.
fn own_digits(tree: &SecretTree, q: u32, released: Option<&[u8]>) -> Option<[u8; 34]>
    ensures { result ≡ own_digits_of tree.now q (option_copied released.entry) }
{
    match released {
        Some(own) => {
            let random = randomizer(tree.id(), q, tree.seed());
            Some(digits_of(tree.id(), q, tree.ots(), &random, own))
        }
        None => None,
    }
}

/// What explains a tree's signature of a message, by a leaf by which the owner signed another
/// message or none.
pub(crate) fn explain_leaf(
    alloc: Global,
    tree: &SecretTree,
    level: u8,
    leaf: u32,
    message: &[u8],
    signature: &[u8],
    released: Option<&[u8]>,
) -> Result<Explanation, AllocError>
    requires valid { IsTrue (tree_valid (public_of_tree tree.now) message.now signature.now) }
    requires leaf { u32_at signature.now 0 ≡ leaf }
    requires other { IfSome released (λ own. message.now ≢ own.now) }
    ensures { IfOk result (Explains (forgery tree.now level leaf message.now signature.now
        (option_copied released.entry))) }
{
    let id = tree.id();
    let ots = tree.ots();
    let part = ots_part(ots, signature);
    let random = randomizer_of(part);
    let digits = digits_of(id, leaf, ots, &random, message);
    if let Some(found) = compare_parts(alloc, tree, leaf, &digits, signature)? {
        return Ok(Explanation::Collides(found));
    }
    if let Some(found) = compare_released(alloc, tree, leaf, &random, message, released)? {
        return Ok(Explanation::Collides(found));
    }
    let own = own_digits(tree, leaf, released);
    let chain = first_lower(ots, &digits, &own);
    Ok(Explanation::Chain {
        level,
        leaf,
        chain,
        step: coef(&digits, chain as usize, ots.width()) as u8,
        bytes: chain_value(ots, part, chain),
    })
}
