//! The public key that a one-time signature leads to.
ghost use Rattle.std.specs.Prelude.{◌≡◌, ◌+◌, ◌*◌, ◌≤◌, ◌<◌, IfSome, IsTrue, is_some, length, OnOk};
ghost use Rattle.row_bytes.specs.Writing.{Writes};
ghost use Rattle.vo_spec.specs.Bytes.{digest_at, join_pieces};
ghost use Rattle.vo_spec.specs.OtsSets.{count_of};
ghost use Rattle.vo_spec.specs.Ots.{candidate_end, ots_candidate, public_text, is_ots_form};

use crate::chains::{D_PBLC, chain};
use crate::digits::{coef, digits_of};
use crate::numbers::{digest_at, u32_at};
use crate::texts::write_prefix;
use row_bytes::ByteSink;
use tagged_hash::Hasher;
use vo_spec::{Digest, OtsType};

// The signature has the length and the typecode of the set.
#[tactic(auto, unfolding(vo_spec::specs::Ots::is_ots_form))]
fn is_form(ots: OtsType, signature: &[u8]) -> bool
    ensures { result ≡ is_ots_form ots signature.now }
{
    signature.len() == ots.signature_len() && u32_at(signature, 0) == ots.code()
}

/// The randomizer of a signature.
pub fn randomizer_of(signature: &[u8]) -> Digest
    requires { 36 ≤ length signature.now }
    ensures { result ≡ digest_at signature.now 4 }
{
    digest_at(signature, 4)
}

/// What a signature releases of chain `i`.
pub fn chain_value(ots: OtsType, signature: &[u8], i: u16) -> Digest
    requires chain { i < count_of ots }
    requires form { IsTrue (is_ots_form ots signature.now) }
    ensures { result ≡ digest_at signature.now (36 + 32 * i) }
{
    digest_at(signature, 36 + 32 * i as usize)
}

// The end of chain `i` that the signature's value of it leads to, where these are the digits that
// are signed.
fn candidate_end(
    id: &[u8; 16],
    q: u32,
    ots: OtsType,
    digits: &[u8; 34],
    signature: &[u8],
    i: u16,
) -> Digest
    requires chain { i < count_of ots }
    requires form { IsTrue (is_ots_form ots signature.now) }
    ensures { result ≡ candidate_end id.now q ots digits.now signature.now i }
{
    let digit = coef(digits, i as usize, ots.width());
    let value = chain_value(ots, signature, i);
    chain(id, q, i, digit, (1 << ots.width()) - 1, &value)
}

/// Writes what is hashed for the public key that a signature leads to, where these are the digits
/// that are signed.
pub fn write_candidate_text<S: ByteSink>(
    sink: &mut S,
    id: &[u8; 16],
    q: u32,
    ots: OtsType,
    digits: &[u8; 34],
    signature: &[u8],
) -> Result<(), S::Fault>
    requires { IsTrue (is_ots_form ots signature.now) }
    ensures { OnOk result (Writes S.HoldsBytes sink.old sink.new (public_text id.now q
        (join_pieces (candidate_end id.now q ots digits.now signature.now) (count_of ots)))) }
{
    write_prefix(sink, id, q, D_PBLC)?;
    for i in 0..ots.count() {
        sink.write(candidate_end(id, q, ots, digits, signature, i).as_bytes())?;
    }
    Ok(())
}

/// The public key that a signature of the message leads to (RFC 8554, algorithm 4b); None exactly
/// where the signature's length or typecode isn't the set's.
#[tactic(auto, unfolding(vo_spec::specs::Ots::ots_candidate))]
pub fn candidate(
    id: &[u8; 16],
    q: u32,
    ots: OtsType,
    message: &[u8],
    signature: &[u8],
) -> Option<Digest>
    ensures form { is_some result ≡ is_ots_form ots signature.now }
    ensures value { IfSome result (λ key. key
        ≡ ots_candidate id.now q ots message.now signature.now) }
{
    if !is_form(ots, signature) {
        return None;
    }
    let digits = digits_of(id, q, ots, &randomizer_of(signature), message);
    let mut hasher = Hasher::new();
    let Ok(()) = write_candidate_text(&mut hasher, id, q, ots, &digits, signature);
    Some(hasher.end())
}
