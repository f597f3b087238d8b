//! The digits that a forged signature signs against those that the owner signed.
ghost use Rattle.std.specs.Prelude.{◌≡◌, ◌≢◌, ◌<◌, length, IfOk};
ghost use Rattle.vo_spec.specs.OtsSets.{count_of};
ghost use Rattle.vo_spec.specs.Ots.{message_text, randomizer};
ghost use Rattle.lms_forge.specs.Lowering.{own_digit, FirstLower, AreOthers, MessagesCompared};

use crate::texts::message_text;
use lm_ots::{coef, randomizer};
use lms_sign::SecretTree;
use std::alloc::{AllocError, Global};
use tagged_hash::collision;
use vo_spec::{Collision, Digest, OtsType};

/// Compares what is hashed for the digest of a message under a randomizer, and for that of another
/// message which the owner signed by the leaf.
pub(crate) fn compare_messages(
    alloc: Global,
    tree: &SecretTree,
    q: u32,
    random: &Digest,
    message: &[u8],
    released: &[u8],
) -> Result<Option<Collision>, AllocError>
    requires full { length random.now ≡ 32 }
    requires differ { message.now ≢ released.now }
    ensures { IfOk result (MessagesCompared (message_text tree.now.id q random.now message.now)
        (message_text tree.now.id q (randomizer tree.now.id q tree.now.seed) released.now)) }
{
    let own = randomizer(tree.id(), q, tree.seed());
    let first = message_text(alloc, tree, q, random, message)?;
    let second = message_text(alloc, tree, q, &own, released)?;
    Ok(collision(first, second))
}

// Digit `i` of the owner's digits, or the greatest one where it signed none.
fn own_digit(ots: OtsType, own: &Option<[u8; 34]>, i: u16) -> u32
    requires { i < count_of ots }
    ensures { result ≡ own_digit ots own.now i }
{
    match own {
        Some(digits) => coef(digits, i as usize, ots.width()),
        None => (1 << ots.width()) - 1,
    }
}

/// The first chain whose digit is below the owner's.
pub(crate) fn first_lower(ots: OtsType, digits: &[u8; 34], own: &Option<[u8; 34]>) -> u16
    requires { AreOthers ots digits.now own.now }
    ensures { FirstLower ots digits.now own.now result }
{
    for i in 0..ots.count() {
        if coef(digits, i as usize, ots.width()) < own_digit(ots, own, i) {
            return i;
        }
    }
    unreachable!()
}
