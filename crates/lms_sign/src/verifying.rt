//! Verifying a signature.
ghost use Rattle.std.specs.Prelude.{◌≡◌, ◌==◌, ◌&&◌, ◌+◌, ◌*◌, length, is_some, IfSome};
ghost use Rattle.vo_spec.specs.Bytes.{u32_at};
ghost use Rattle.vo_spec.specs.Lms.{tree_signature_len};
ghost use Rattle.vo_spec.specs.Keys.{lms_valid, pair_valid, upper_signature, lower_key, lower_signature};

use crate::lms_key::LmsKey;
use crate::public_key::PublicKey;
use crate::tree_verifying::verify_tree;
use lm_ots::u32_at;
use vo_spec::Levels;

/// What stands in a signature of two levels: the upper tree's signature of the lower one's key, that
/// key, and the lower tree's signature of the message.
#[derive(Clone, Copy)]
pub struct Pair<'a> {
    pub upper: &'a [u8],
    pub key: &'a [u8],
    pub lower: &'a [u8],
}

/// The parts of a signature that is as long as those of two levels under the upper tree's key are,
/// and begins as they do.
pub fn pair_of<'a>(upper: &LmsKey, signature: &'a [u8]) -> Option<Pair<'a>>
    ensures is { is_some result ≡ (length signature.now == 60 + 2 * tree_signature_len upper.now)
        && (u32_at signature.now 0 == 1) }
    ensures upper { IfSome result (λ pair. pair.upper.now
        ≡ upper_signature upper.now signature.now) }
    ensures key { IfSome result (λ pair. pair.key.now ≡ lower_key upper.now signature.now) }
    ensures lower { IfSome result (λ pair. pair.lower.now
        ≡ lower_signature upper.now signature.now) }
    ensures whole { IfSome result (λ pair. length pair.key.now ≡ 56) }
{
    let len = upper.signature_len();
    if signature.len() != 60 + 2 * len || u32_at(signature, 0) != 1 {
        return None;
    }
    Some(Pair {
        upper: &signature[4..4 + len],
        key: &signature[4 + len..60 + len],
        lower: &signature[60 + len..],
    })
}

// The signature of two levels is valid under the upper tree's key.
fn verify_pair(upper: &LmsKey, message: &[u8], signature: &[u8]) -> bool
    ensures { result ≡ pair_valid upper.now message.now signature.now }
{
    let Some(pair) = pair_of(upper, signature) else {
        return false;
    };
    let Some(lower) = upper.read_alike(pair.key) else {
        return false;
    };
    verify_tree(upper, pair.key, pair.upper) && verify_tree(&lower, message, pair.lower)
}

/// The signature of the message is valid under the key (RFC 8554, algorithm 6, and section 6.3 for
/// two levels).
pub fn verify(key: &PublicKey, message: &[u8], signature: &[u8]) -> bool
    ensures { result ≡ lms_valid key.now message.now signature.now }
{
    match key.levels {
        Levels::One => verify_tree(&key.tree, message, signature),
        Levels::Two => verify_pair(&key.tree, message, signature),
    }
}
